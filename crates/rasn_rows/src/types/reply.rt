//! An extensible CHOICE, which keeps an alternative that it doesn't name (X.680 29), for tests.

use rasn::error::{DecodeError, EncodeError};
use rasn::parts::OneOf;
use rasn::types::{Any, AsnType, Constraints, ContextTag, Identifier, Implicit, Tag};
use rasn::{Decode, Decoder, Encode, Encoder};

/// CHOICE { accepted BOOLEAN, count [0] IMPLICIT INTEGER (0..255), ... }
#[derive(Debug, Drop)]
pub enum Reply {
    Accepted(bool),
    Count(Implicit<ContextTag<0>, u8>),
    Other(Any),
}

impl AsnType for Reply {
    ghost use Rattle.std.specs.Prelude.{refl};
    ghost use Rattle.rasn_types.specs.Tags.{eoc};
    ghost use Rattle.rasn_types.specs.Trees.{unconstrained};
    ghost use Rattle.rasn_rows.specs.Replies.{reply_shape, reply_tree};

    ghost TAG = { eoc };

    const TAG: Tag = Tag::EOC;

    ghost CONSTRAINTS = { unconstrained };

    const CONSTRAINTS: Constraints = Constraints::NONE;

    ghost shape = { reply_shape };

    ghost tree = { reply_tree };

    ghost own = { refl };
}

/// The alternatives, as they are read.
type Alternatives = OneOf<bool, OneOf<Implicit<ContextTag<0>, u8>, Any>>;

impl Decode for Reply {
    fn decode_with_tag_and_constraints(
        decoder: &mut Decoder<'_>,
        _tag: Tag,
        _constraints: &Constraints,
    ) -> Result<Reply, DecodeError> {
        match decoder.read_choice::<Alternatives>("Reply")? {
            OneOf::This(accepted) => Ok(Reply::Accepted(accepted)),
            OneOf::Other(OneOf::This(count)) => Ok(Reply::Count(count)),
            OneOf::Other(OneOf::Other(other)) => Ok(Reply::Other(other)),
        }
    }
}

/// The alternatives, as they are written.
type Written<'a> = OneOf<&'a bool, OneOf<&'a Implicit<ContextTag<0>, u8>, &'a Any>>;

impl Encode for Reply {
    fn encode_with_tag_and_constraints(
        &self,
        encoder: &mut Encoder,
        _tag: Tag,
        _constraints: &Constraints,
        _identifier: Identifier,
    ) -> Result<(), EncodeError> {
        match self {
            Reply::Accepted(accepted) => encoder.write_choice::<Written<'_>>(OneOf::This(accepted)),
            Reply::Count(count) => {
                encoder.write_choice::<Written<'_>>(OneOf::Other(OneOf::This(count)))
            }
            Reply::Other(other) => {
                encoder.write_choice::<Written<'_>>(OneOf::Other(OneOf::Other(other)))
            }
        }
    }

    fn is_present(&self) -> bool {
        true
    }
}
