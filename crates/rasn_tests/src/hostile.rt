//! Untrusted input: padded headers, lengths beyond any input and truncated values (X.690 8.1), and
//! closures that drop refusals.
ghost use Rattle.rasn_de.specs.Constructed.{Keeps};

use crate::types::NumberAndTruth;
use rasn::ber::de::Decoder;
use rasn::error::DecodeError;
use rasn::types::Tag;
use rasn_bench::Both;
use std::alloc::AllocError;

mod closures;
mod cuts_open;
mod padding;

/// Reads SEQUENCE { BOOLEAN }.
fn one_boolean(decoder: &mut Decoder<'_>) -> Result<NumberAndTruth, DecodeError>
    ensures { Keeps decoder.old decoder.new }
{
    decoder.decode_sequence::<2, 0, NumberAndTruth, fn() -> Result<NumberAndTruth, AllocError>, _>(
        Tag::SEQUENCE,
        None,
        |inner|
            ensures { Keeps inner.old inner.new }
        {
            let truth = inner.decode_bool(Tag::BOOL)?;
            Ok(Both {
                first: 0,
                second: truth,
            })
        },
    )
}

/// The text of the value that is read from a SEQUENCE { BOOLEAN } with TRUE.
const TRUE_ALONE: &str = "Both { first: 0, second: true }";
