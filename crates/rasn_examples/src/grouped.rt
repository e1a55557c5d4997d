//! `Grouped ::= SEQUENCE { truth BOOLEAN, ..., number [1] INTEGER, [[ first INTEGER, second
//! BOOLEAN ]] }`

use crate::Both;
use rasn::error::{DecodeError, EncodeError};
use rasn::parts::{DecodeParts, End, Optional, Put, PutOptional, Required};
use rasn::types::{AsnType, Constraints, ContextTag, Identifier, Implicit, Integer, LawfulEq, Tag};
use rasn::{Decode, Decoder, Encode, Encoder};

/// The components after the extension marker that form one group.
pub type Group = Both<Integer, bool>;

/// SEQUENCE { truth BOOLEAN, ..., number [1] INTEGER, [[ first INTEGER, second BOOLEAN ]] }
#[derive(Debug, PartialEq, Eq, Drop)]
pub struct Grouped {
    pub truth: bool,
    pub number: Option<Implicit<ContextTag<1>, Integer>>,
    pub group: Option<Group>,
}

impl AsnType for Grouped {
    ghost use Rattle.std.specs.Prelude.{refl};
    ghost use Rattle.rasn_types.specs.Shapes.{seq};
    ghost use Rattle.rasn_types.specs.Tags.{in_universal};
    ghost use Rattle.rasn_types.specs.Trees.{unconstrained};
    ghost use Rattle.rasn_examples.specs.Grouped.{grouped_parts, grouped_tree};

    ghost TAG = { in_universal 16 };

    const TAG: Tag = Tag::SEQUENCE;

    ghost CONSTRAINTS = { unconstrained };

    const CONSTRAINTS: Constraints = Constraints::NONE;

    ghost shape = { seq (in_universal 16) grouped_parts };

    ghost tree = { grouped_tree };

    ghost own = { refl };
}

impl LawfulEq for Grouped {
    ghost use Rattle.rasn_types.specs.Deciding.{deciding};

    ghost decides = { Prim.search deciding depth 64 };
}

/// The components, as they are read.
type Parts = Required<bool, Optional<Implicit<ContextTag<1>, Integer>, Optional<Group, End>>>;

impl Decode for Grouped {
    ghost use Rattle.rasn_de.specs.PartTypes.{DecodesSequenceParts};
    ghost use Rattle.rasn_de.specs.ValueErrors.{errors_of};

    ghost errors = { λ tag _. errors_of (DecodesSequenceParts ⟦<Parts as DecodeParts>⟧.parts ⟦<Parts as DecodeParts>⟧.tree ⟦<Parts as DecodeParts>⟧.errors tag) };

    fn decode_with_tag_and_constraints(
        decoder: &mut Decoder<'_>,
        tag: Tag,
        _constraints: &Constraints,
    ) -> Result<Grouped, DecodeError> {
        let parts = match decoder.read_sequence::<Parts>(tag) {
            Ok(parts) => parts,
            Err(error) => return Err(error),
        };
        let Required(truth, Optional(number, Optional(group, End))) = parts;
        Ok(Grouped {
            truth,
            number,
            group,
        })
    }
}

impl Encode for Grouped {
    fn encode_with_tag_and_constraints(
        &self,
        encoder: &mut Encoder,
        tag: Tag,
        _constraints: &Constraints,
        _identifier: Identifier,
    ) -> Result<(), EncodeError> {
        encoder.write_sequence(
            tag,
            Put(
                &self.truth,
                PutOptional(&self.number, PutOptional(&self.group, End)),
            ),
        )
    }

    fn is_present(&self) -> bool {
        true
    }
}
