//! The order of the elements of a SET OF (X.690 11.6).
ghost use Rattle.std.specs.Prelude.{◌≡◌, ◌++◌};
ghost use Rattle.rasn_types.specs.Order.{IsLess};
ghost use Rattle.rasn_types.specs.Truth.{IsWhether};
ghost use Rattle.rasn_de.specs.State.{IsEnd};
ghost use Rattle.rasn_de.specs.Steps.{IsErrorOf};
ghost use Rattle.rasn_de.specs.declared.ber.de.parser.ParseError.TheVariants.{Der};
ghost use Rattle.rasn_types.specs.declared.error.decode.DerDecodeErrorKind.TheVariants.{SetOfOutOfOrder};

use rasn_de::ber::de::Decoder;
use rasn_types::error::{CodecDecodeError, DecodeError, DecodeErrorKind, DerDecodeErrorKind};

/// Returns whether octets are less than others. A proper prefix is less.
#[tactic(auto, using(rasn_de::proofs::Constructed::Ascending::less_told))]
pub fn is_less(octets: &[u8], others: &[u8]) -> bool
    ensures { IsWhether result (IsLess octets.now others.now) }
{
    octets < others
}

/// Returns the octets of the input that were read.
#[tactic(auto, using(rasn_de::proofs::Constructed::Ascending::cut_before))]
pub fn octets_before<'input>(start: &'input [u8], rest: &[u8]) -> &'input [u8]
    requires { IsEnd start.now rest.now }
    ensures { start.now ≡ result.now ++ rest.now }
{
    &start[..start.len() - rest.len()]
}

/// Returns the error that an element's octets are less than those of the one before it.
pub fn out_of_order(decoder: &Decoder<'_>) -> DecodeError
    ensures { IsErrorOf (Der SetOfOutOfOrder) decoder.now result }
{
    DecodeError {
        kind: DecodeErrorKind::CodecSpecific {
            inner: CodecDecodeError::Der(DerDecodeErrorKind::SetOfOutOfOrder),
        },
        codec: decoder.codec(),
    }
}
