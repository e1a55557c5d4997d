// Written by `soqavise generate` from the ASN.1 of LDAP: change that, and write it again.
//! `ExtendedRequest ::= [APPLICATION 23] IMPLICIT SEQUENCE`
use rasn::prelude::*;

/// `ExtendedRequest ::= [APPLICATION 23] IMPLICIT SEQUENCE`
#[derive(Debug, PartialEq, Eq, Drop)]
pub struct ExtendedRequest {
    /// `requestName [0] IMPLICIT UTF8String`
    pub request_name: Implicit<ContextTag<0>, Utf8String>,
    /// `requestValue [1] IMPLICIT OCTET STRING OPTIONAL`
    pub request_value: Option<Implicit<ContextTag<1>, OctetString>>,
    /// `...`
    pub unknown: Unknown,
}

/// The components, as they are read.
type Parts = Required<Implicit<ContextTag<0>, Utf8String>, Parts1>;

type Parts1 = Optional<Implicit<ContextTag<1>, OctetString>, Parts2>;

type Parts2 = Required<Unknown, End>;

impl AsnType for ExtendedRequest {
    ghost use Rattle.std.specs.Prelude.{refl};
    ghost use Rattle.rasn_types.specs.declared.types.tag.Class.TheVariants.{Application};
    ghost use Rattle.rasn_types.specs.Shapes.{seq};
    ghost use Rattle.rasn_types.specs.Trees.{unconstrained};

    ghost TAG = { record { class = Application; value = 23 } };

    const TAG: Tag = Tag {
        class: Class::Application,
        value: 23,
    };

    ghost CONSTRAINTS = { unconstrained };

    const CONSTRAINTS: Constraints = Constraints::NONE;

    ghost shape = { seq (record { class = Application; value = 23 }) ⟦<Parts as DecodeParts>⟧.parts };

    ghost tree = { λ a. ⟦<Parts as DecodeParts>⟧.tree (record { 0 = a.request_name; 1 = record { 0 = a.request_value; 1 = record { 0 = a.unknown; 1 = record {} } } }) };

    ghost own = { refl };
}

impl LawfulEq for ExtendedRequest {
    ghost use Rattle.rasn_types.specs.Deciding.{deciding};

    ghost decides = { Prim.search deciding depth 64 };
}

impl Present for ExtendedRequest {
    ghost use Rattle.rasn_types.specs.Equality.{parts_not_absent};

    ghost present = { λ _. parts_not_absent };
}

impl Decode for ExtendedRequest {
    ghost use Rattle.rasn_de.specs.PartTypes.{DecodesSequenceParts};
    ghost use Rattle.rasn_de.specs.ValueErrors.{errors_of};

    ghost errors = { λ tag _. errors_of (DecodesSequenceParts ⟦<Parts as DecodeParts>⟧.parts ⟦<Parts as DecodeParts>⟧.tree ⟦<Parts as DecodeParts>⟧.errors tag) };

    fn decode_with_tag_and_constraints(
        decoder: &mut Decoder<'_>,
        tag: Tag,
        _constraints: &Constraints,
    ) -> Result<ExtendedRequest, DecodeError> {
        let parts = match decoder.read_sequence::<Parts>(tag) {
            Ok(parts) => parts,
            Err(error) => return Err(error),
        };
        let Required(request_name, rest) = parts;
        let Optional(request_value, rest) = rest;
        let Required(unknown, End) = rest;
        Ok(ExtendedRequest {
            request_name,
            request_value,
            unknown,
        })
    }
}

impl Encode for ExtendedRequest {
    fn encode_with_tag_and_constraints(
        &self,
        encoder: &mut Encoder,
        tag: Tag,
        _constraints: &Constraints,
        _identifier: Identifier,
    ) -> Result<(), EncodeError> {
        let rest = Put(&self.unknown, End);
        let rest = PutOptional(&self.request_value, rest);
        encoder.write_sequence(tag, Put(&self.request_name, rest))
    }

    fn is_present(&self) -> bool {
        true
    }
}
