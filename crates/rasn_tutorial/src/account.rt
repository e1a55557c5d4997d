//! An account of a system.
use rasn::prelude::*;
use std::alloc::{AllocError, Global};

/// SEQUENCE { id INTEGER, name UTF8String, active BOOLEAN DEFAULT TRUE, quota INTEGER (0..65535),
/// email IA5String OPTIONAL, role OBJECT IDENTIFIER }
#[derive(Debug, PartialEq, Eq, Drop)]
pub struct Account {
    pub id: Integer,
    pub name: Utf8String,
    pub active: bool,
    pub quota: u16,
    pub email: Option<Ia5String>,
    pub role: ObjectIdentifier,
}

/// The components in their order.
type Parts = Required<Integer, Required<Utf8String, Defaulted<Active, Quota>>>;

type Quota = Required<u16, Optional<Ia5String, Required<ObjectIdentifier, End>>>;

impl AsnType for Account {
    ghost use Rattle.std.specs.Prelude.{refl};
    ghost use Rattle.rasn_types.specs.Tags.{in_universal};
    ghost use Rattle.rasn_types.specs.Shapes.{seq};
    ghost use Rattle.rasn_types.specs.Trees.{unconstrained};

    ghost TAG = { in_universal 16 };

    const TAG: Tag = Tag::SEQUENCE;

    ghost CONSTRAINTS = { unconstrained };

    const CONSTRAINTS: Constraints = Constraints::NONE;

    ghost shape = { seq (in_universal 16) ⟦<Parts as DecodeParts>⟧.parts };

    ghost tree = { λ a. ⟦<Parts as DecodeParts>⟧.tree (record { 0 = a.id; 1 = record { 0 = a.name; 1 = record { 0 = a.active; 1 = record { 0 = a.quota; 1 = record { 0 = a.email; 1 = record { 0 = a.role; 1 = record {} } } } } } }) };

    ghost own = { refl };
}

impl LawfulEq for Account {
    ghost use Rattle.rasn_types.specs.Deciding.{deciding};

    ghost decides = { Prim.search deciding depth 64 };
}

impl Present for Account {
    ghost use Rattle.rasn_types.specs.Equality.{parts_not_absent};

    ghost present = { λ _. parts_not_absent };
}

/// The default of `active`: TRUE.
#[derive(Drop)]
pub struct Active;

impl DefaultValue for Active {
    ghost use Rattle.std.specs.Prelude.{true};

    type Value = bool;

    ghost default_tree = { ⟦<bool as AsnType>⟧.tree true };

    fn default_value(_alloc: Global) -> Result<bool, AllocError> {
        Ok(true)
    }
}

impl Decode for Account {
    ghost use Rattle.rasn_de.specs.PartTypes.{DecodesSequenceParts};
    ghost use Rattle.rasn_de.specs.ValueErrors.{errors_of};

    ghost errors = { λ tag _. errors_of (DecodesSequenceParts ⟦<Parts as DecodeParts>⟧.parts ⟦<Parts as DecodeParts>⟧.tree ⟦<Parts as DecodeParts>⟧.errors tag) };

    fn decode_with_tag_and_constraints(
        decoder: &mut Decoder<'_>,
        tag: Tag,
        _constraints: &Constraints,
    ) -> Result<Account, DecodeError> {
        let parts = match decoder.read_sequence::<Parts>(tag) {
            Ok(parts) => parts,
            Err(error) => return Err(error),
        };
        let Required(id, Required(name, Defaulted(active, rest))) = parts;
        let Required(quota, Optional(email, Required(role, End))) = rest;
        Ok(Account {
            id,
            name,
            active,
            quota,
            email,
            role,
        })
    }
}

impl Encode for Account {
    fn encode_with_tag_and_constraints(
        &self,
        encoder: &mut Encoder,
        tag: Tag,
        _constraints: &Constraints,
        _identifier: Identifier,
    ) -> Result<(), EncodeError> {
        let quota = Put(&self.quota, PutOptional(&self.email, Put(&self.role, End)));
        let active = PutDefault::<Active, _>(&self.active, quota);
        encoder.write_sequence(tag, Put(&self.id, Put(&self.name, active)))
    }

    fn is_present(&self) -> bool {
        true
    }
}

impl WholeMessage for Account {
    ghost use Rattle.std.specs.Prelude.{refl};
    ghost use Rattle.rasn_types.specs.declared.types.codec.Codec.TheVariants.{Der};

    ghost RULES = { Der };

    const RULES: Codec = Codec::Der;

    ghost whole = { refl };
}
