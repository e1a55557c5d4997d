//! Errors of a reader: those that are returned, and those that are kept where a reader keeps its
//! error.
ghost use Rattle.rasn_types.specs.Errors.{IsOutOfMemory};
ghost use Rattle.rasn_types.specs.Shapes.{constraint_of};
ghost use Rattle.rasn_de.specs.Steps.{IsErrorOf};
ghost use Rattle.rasn_de.specs.NamedErrors.{IsNamedError, IsNoValidChoice};
ghost use Rattle.rasn_de.specs.declared.ber.de.parser.ParseError.TheVariants.{UnexpectedExtraData, UnexpectedEmptyInput, OutOfMemory, SizeConstraintNotSatisfied, Der};
ghost use Rattle.rasn_types.specs.declared.error.decode.DerDecodeErrorKind.TheVariants.{DefaultValuePresent, SetOfOutOfOrder};

use crate::components::default_present;
use crate::order::out_of_order;
use crate::read_leaf::out_of_memory;
use rasn_de::ber::de::Decoder;
use rasn_de::de::Error;
use rasn_types::error::{DecodeError, DecodeErrorKind};
use rasn_types::types::Constraints;

/// Returns the error that there is no such type, so no value of it.
pub fn no_value(decoder: &Decoder<'_>) -> DecodeError
    ensures { IsErrorOf UnexpectedEmptyInput decoder.now result }
{
    DecodeError {
        kind: DecodeErrorKind::UnexpectedEmptyInput,
        codec: decoder.codec(),
    }
}

/// Returns `UnexpectedExtraData`: an element consumed no octets.
pub fn extra(decoder: &Decoder<'_>, left: usize) -> DecodeError
    ensures { IsErrorOf (UnexpectedExtraData left) decoder.now result }
{
    DecodeError {
        kind: DecodeErrorKind::UnexpectedExtraData { length: left },
        codec: decoder.codec(),
    }
}

/// Keeps the error that there is no such type.
#[cold]
#[inline(never)]
pub fn refuse_no_value(error: &mut DecodeError, decoder: &Decoder<'_>)
    ensures { IsErrorOf UnexpectedEmptyInput decoder.now error.new }
{
    *error = no_value(decoder);
}

/// Keeps the error that a value took nothing.
#[cold]
#[inline(never)]
pub fn refuse_extra(error: &mut DecodeError, decoder: &Decoder<'_>, left: usize)
    ensures { IsErrorOf (UnexpectedExtraData left) decoder.now error.new }
{
    *error = extra(decoder, left);
}

/// Keeps the error that memory ran out.
#[cold]
#[inline(never)]
pub fn refuse_memory(error: &mut DecodeError, decoder: &Decoder<'_>)
    ensures kind { IsOutOfMemory error.new.kind }
    ensures told { IsErrorOf OutOfMemory decoder.now error.new }
{
    *error = out_of_memory(decoder);
}

/// Keeps the error that the elements of a SET OF aren't in order.
#[cold]
#[inline(never)]
pub fn refuse_order(error: &mut DecodeError, decoder: &Decoder<'_>)
    ensures { IsErrorOf (Der SetOfOutOfOrder) decoder.now error.new }
{
    *error = out_of_order(decoder);
}

/// Keeps the error that a component is its default.
#[cold]
#[inline(never)]
pub fn refuse_default(error: &mut DecodeError, decoder: &Decoder<'_>)
    ensures { IsErrorOf (Der DefaultValuePresent) decoder.now error.new }
{
    *error = default_present(decoder);
}

/// Keeps the error that the next tag is none of those in the value with this name.
#[cold]
#[inline(never)]
pub fn refuse_choice(error: &mut DecodeError, decoder: &Decoder<'_>, name: &str)
    ensures { IsNamedError (IsNoValidChoice name.now) decoder.now.rule error.new }
{
    *error = DecodeError::no_valid_choice(decoder.alloc(), name, decoder.codec());
}

/// Keeps the error that the number of elements isn't within the bound.
#[cold]
#[inline(never)]
pub fn refuse_size(
    error: &mut DecodeError,
    decoder: &Decoder<'_>,
    constraints: &Constraints,
    count: usize,
)
    ensures { IsErrorOf (SizeConstraintNotSatisfied count (constraint_of constraints.now.size)) decoder.now error.new }
{
    *error = DecodeError {
        kind: DecodeErrorKind::SizeConstraintNotSatisfied {
            size: Some(count),
            expected: constraints.size_bounds(),
        },
        codec: decoder.codec(),
    };
}
