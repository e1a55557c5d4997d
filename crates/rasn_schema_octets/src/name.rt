//! Names of types, alternatives and numbers, as octets.
use rasn::error::{DecodeError, EncodeError};
use rasn::parts::{DecodeParts, End, Put, Required};
use rasn::types::{AsnType, Constraints, Identifier, Tag, Utf8String};
use rasn::{Decode, Decoder, Encode, Encoder};

/// A name with the number of a type: SEQUENCE { name UTF8String, type INTEGER }.
#[derive(Drop)]
pub struct NameForm {
    /// The name.
    pub name: Utf8String,
    /// The number of the type.
    pub type_id: usize,
}

impl AsnType for NameForm {
    ghost use Rattle.std.specs.Prelude.{refl};
    ghost use Rattle.rasn_types.specs.Tags.{in_universal};
    ghost use Rattle.rasn_types.specs.Trees.{unconstrained};
    ghost use Rattle.rasn_schema_octets.specs.Shapes.{name_shape};
    ghost use Rattle.rasn_schema_octets.specs.Forms.{name_form_tree};

    ghost TAG = { in_universal 16 };

    const TAG: Tag = Tag::SEQUENCE;

    ghost CONSTRAINTS = { unconstrained };

    const CONSTRAINTS: Constraints = Constraints::NONE;

    ghost shape = { name_shape };

    ghost tree = { name_form_tree };

    ghost own = { refl };
}

/// The components of `NameForm`, as they are read.
type NameParts = Required<Utf8String, Required<usize, End>>;

impl Decode for NameForm {
    ghost use Rattle.rasn_de.specs.PartTypes.{DecodesSequenceParts};
    ghost use Rattle.rasn_de.specs.ValueErrors.{errors_of};

    ghost errors = { λ tag _. errors_of (DecodesSequenceParts ⟦<NameParts as DecodeParts>⟧.parts ⟦<NameParts as DecodeParts>⟧.tree ⟦<NameParts as DecodeParts>⟧.errors tag) };

    fn decode_with_tag_and_constraints(
        decoder: &mut Decoder<'_>,
        tag: Tag,
        _constraints: &Constraints,
    ) -> Result<NameForm, DecodeError> {
        let parts = match decoder.read_sequence::<NameParts>(tag) {
            Ok(parts) => parts,
            Err(error) => return Err(error),
        };
        let Required(name, Required(type_id, End)) = parts;
        Ok(NameForm { name, type_id })
    }
}

impl Encode for NameForm {
    fn encode_with_tag_and_constraints(
        &self,
        encoder: &mut Encoder,
        tag: Tag,
        _constraints: &Constraints,
        _identifier: Identifier,
    ) -> Result<(), EncodeError> {
        encoder.write_sequence(tag, Put(&self.name, Put(&self.type_id, End)))
    }

    fn is_present(&self) -> bool {
        true
    }
}

/// A number with its name: SEQUENCE { name UTF8String, number INTEGER }.
#[derive(Drop)]
pub struct NumberForm {
    /// The name.
    pub name: Utf8String,
    /// The number.
    pub number: isize,
}

impl AsnType for NumberForm {
    ghost use Rattle.std.specs.Prelude.{refl};
    ghost use Rattle.rasn_types.specs.Tags.{in_universal};
    ghost use Rattle.rasn_types.specs.Trees.{unconstrained};
    ghost use Rattle.rasn_schema_octets.specs.Shapes.{number_shape};
    ghost use Rattle.rasn_schema_octets.specs.Forms.{number_form_tree};

    ghost TAG = { in_universal 16 };

    const TAG: Tag = Tag::SEQUENCE;

    ghost CONSTRAINTS = { unconstrained };

    const CONSTRAINTS: Constraints = Constraints::NONE;

    ghost shape = { number_shape };

    ghost tree = { number_form_tree };

    ghost own = { refl };
}

/// The components of `NumberForm`, as they are read.
type NumberParts = Required<Utf8String, Required<isize, End>>;

impl Decode for NumberForm {
    ghost use Rattle.rasn_de.specs.PartTypes.{DecodesSequenceParts};
    ghost use Rattle.rasn_de.specs.ValueErrors.{errors_of};

    ghost errors = { λ tag _. errors_of (DecodesSequenceParts ⟦<NumberParts as DecodeParts>⟧.parts ⟦<NumberParts as DecodeParts>⟧.tree ⟦<NumberParts as DecodeParts>⟧.errors tag) };

    fn decode_with_tag_and_constraints(
        decoder: &mut Decoder<'_>,
        tag: Tag,
        _constraints: &Constraints,
    ) -> Result<NumberForm, DecodeError> {
        let parts = match decoder.read_sequence::<NumberParts>(tag) {
            Ok(parts) => parts,
            Err(error) => return Err(error),
        };
        let Required(name, Required(number, End)) = parts;
        Ok(NumberForm { name, number })
    }
}

impl Encode for NumberForm {
    fn encode_with_tag_and_constraints(
        &self,
        encoder: &mut Encoder,
        tag: Tag,
        _constraints: &Constraints,
        _identifier: Identifier,
    ) -> Result<(), EncodeError> {
        encoder.write_sequence(tag, Put(&self.name, Put(&self.number, End)))
    }

    fn is_present(&self) -> bool {
        true
    }
}
