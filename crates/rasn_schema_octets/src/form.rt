//! Whole schemas as octets.
use crate::name::NameForm;
use crate::types::TypeForm;
use rasn::error::{DecodeError, EncodeError};
use rasn::parts::{DecodeParts, End, Optional, Put, PutOptional, Required};
use rasn::types::{AsnType, Constraints, ContextTag, Identifier, Implicit, Tag};
use rasn::{Decode, Decoder, Encode, Encoder};

/// A schema with the number of one of its types: SEQUENCE { version INTEGER, root INTEGER,
/// unchecked INTEGER, names \[0\] SEQUENCE OF NameForm OPTIONAL, types SEQUENCE OF TypeForm }.
#[derive(Drop)]
pub struct SchemaForm {
    /// The version of the form.
    pub version: u32,
    /// The number of the type.
    pub root: usize,
    /// The number of constraints that the schema doesn't check.
    pub unchecked: usize,
    /// The names of types, if there are some.
    pub names: Option<Implicit<ContextTag<0>, Vec<NameForm>>>,
    /// The types.
    pub types: Vec<TypeForm>,
}

impl AsnType for SchemaForm {
    ghost use Rattle.std.specs.Prelude.{refl};
    ghost use Rattle.rasn_types.specs.Tags.{in_universal};
    ghost use Rattle.rasn_types.specs.Trees.{unconstrained};
    ghost use Rattle.rasn_schema_octets.specs.Shapes.{octets_shape};
    ghost use Rattle.rasn_schema_octets.specs.Forms.{schema_form_tree};

    ghost TAG = { in_universal 16 };

    const TAG: Tag = Tag::SEQUENCE;

    ghost CONSTRAINTS = { unconstrained };

    const CONSTRAINTS: Constraints = Constraints::NONE;

    ghost shape = { octets_shape };

    ghost tree = { schema_form_tree };

    ghost own = { refl };
}

/// The last components of `SchemaForm`, as they are read.
type SchemaLastParts = Optional<
    Implicit<ContextTag<0>, Vec<NameForm>>,
    Required<Vec<TypeForm>, End>,
>;

/// All components of `SchemaForm`, as they are read.
type SchemaParts = Required<u32, Required<usize, Required<usize, SchemaLastParts>>>;

impl Decode for SchemaForm {
    ghost use Rattle.rasn_de.specs.PartTypes.{DecodesSequenceParts};
    ghost use Rattle.rasn_de.specs.ValueErrors.{errors_of};

    ghost errors = { λ tag _. errors_of (DecodesSequenceParts ⟦<SchemaParts as DecodeParts>⟧.parts ⟦<SchemaParts as DecodeParts>⟧.tree ⟦<SchemaParts as DecodeParts>⟧.errors tag) };

    fn decode_with_tag_and_constraints(
        decoder: &mut Decoder<'_>,
        tag: Tag,
        _constraints: &Constraints,
    ) -> Result<SchemaForm, DecodeError> {
        let parts = match decoder.read_sequence::<SchemaParts>(tag) {
            Ok(parts) => parts,
            Err(error) => return Err(error),
        };
        let Required(
            version,
            Required(root, Required(unchecked, Optional(names, Required(types, End)))),
        ) = parts;
        Ok(SchemaForm {
            version,
            root,
            unchecked,
            names,
            types,
        })
    }
}

impl Encode for SchemaForm {
    fn encode_with_tag_and_constraints(
        &self,
        encoder: &mut Encoder,
        tag: Tag,
        _constraints: &Constraints,
        _identifier: Identifier,
    ) -> Result<(), EncodeError> {
        let rest = PutOptional(&self.names, Put(&self.types, End));
        let unchecked = Put(&self.unchecked, rest);
        encoder.write_sequence(tag, Put(&self.version, Put(&self.root, unchecked)))
    }

    fn is_present(&self) -> bool {
        true
    }
}
