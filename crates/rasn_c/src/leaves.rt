//! Values that hold no others, each from one whole encoding, whatever its tag is: so a value that
//! has a tag of its own in its type is read too (X.690 8.14).
ghost use Rattle.std.specs.Prelude.{◌≡◌, MatchResult, IfOk, IfErr, List, ℕ, string_bytes};
ghost use Rattle.rasn_types.specs.Shapes.{Kind, Tree, leaf};
ghost use Rattle.rasn_types.specs.Trees.{unconstrained};
ghost use Rattle.rasn_types.specs.Errors.{IsOutOfMemory};
ghost use Rattle.rasn_types.specs.declared.types.codec.Codec.{Codec};
ghost use Rattle.rasn_de.specs.Decodes.{Decodes};
ghost use Rattle.rasn_c.specs.Status.{IsNumberOf};
ghost use Rattle.rasn_c.specs.Leaves.{IsLeaf, IsNoLeaf, AnswersInteger, AnswersNumber, AnswersIdentifier, dotted_text};

use crate::buffers::fill;
use crate::rules::rule_numbered;
use crate::status::Status;
use rasn::Decoder;
use rasn::ber::de::DecoderOptions;
use rasn::error::DecodeError;
use rasn::types::{
    BitString, Codec, Constraints, GeneralizedTime, Ia5String, Integer, NumericString,
    ObjectIdentifier, PrintableString, Tag, UtcTime, Utf8String, VisibleString,
};
use std::alloc::{AllocError, Global};

/// A type whose values hold no others.
pub(crate) trait Leaf: Drop {
    ghost kind: { Kind };

    ghost tree: { Self → Tree };

    /// Of which octets reading a value may take memory.
    ghost Takes: { Codec → List ℕ → Type 0 };

    /// Reads the next value, which must have this tag.
    fn read(decoder: &mut Decoder<'_>, tag: Tag) -> Result<Self, DecodeError>
        ensures reads { Decodes (leaf kind tag unconstrained) tree decoder.old result decoder.new }
        ensures memory { IfErr result (λ e. IsOutOfMemory e.kind → Takes decoder.old.rule decoder.old.rest) };
}

impl Leaf for i64 {
    ghost use Rattle.rasn_c.specs.Leaves.{TakesNone};
    ghost use Rattle.rasn_types.specs.Shapes.{integer, number};
    ghost use Rattle.rasn_types.specs.Trees.{signed_range};

    ghost kind = { integer (signed_range 64) };

    ghost tree = { λ n. number n };

    ghost Takes = { TakesNone };

    fn read(decoder: &mut Decoder<'_>, tag: Tag) -> Result<i64, DecodeError> {
        decoder.decode_integer::<i64>(tag, &Constraints::NONE)
    }
}

impl Leaf for Integer {
    ghost use Rattle.rasn_c.specs.Leaves.{TakesLong};
    ghost use Rattle.rasn_types.specs.Shapes.{integer, number};
    ghost use Rattle.rasn_types.specs.Shapes.{every};

    ghost kind = { integer every };

    ghost tree = { λ n. number n };

    ghost Takes = { TakesLong };

    fn read(decoder: &mut Decoder<'_>, tag: Tag) -> Result<Integer, DecodeError> {
        decoder.decode_integer::<Integer>(tag, &Constraints::NONE)
    }
}

impl Leaf for ObjectIdentifier {
    ghost use Rattle.rasn_c.specs.Leaves.{MayTake};
    ghost use Rattle.rasn_types.specs.Shapes.{object_identifier, numbers};

    ghost kind = { object_identifier };

    ghost tree = { λ o. numbers o };

    ghost Takes = { MayTake };

    fn read(decoder: &mut Decoder<'_>, tag: Tag) -> Result<ObjectIdentifier, DecodeError> {
        decoder.decode_object_identifier(tag)
    }
}

impl Leaf for UtcTime {
    ghost use Rattle.rasn_c.specs.Leaves.{MayTake};
    ghost use Rattle.rasn_types.specs.Shapes.{utc_time, instant};

    ghost kind = { utc_time };

    ghost tree = { λ m. instant m };

    ghost Takes = { MayTake };

    fn read(decoder: &mut Decoder<'_>, tag: Tag) -> Result<UtcTime, DecodeError> {
        decoder.decode_utc_time(tag)
    }
}

impl Leaf for GeneralizedTime {
    ghost use Rattle.rasn_c.specs.Leaves.{MayTake};
    ghost use Rattle.rasn_types.specs.Shapes.{generalized_time, instant};

    ghost kind = { generalized_time };

    ghost tree = { λ s. instant s.moment };

    ghost Takes = { MayTake };

    fn read(decoder: &mut Decoder<'_>, tag: Tag) -> Result<GeneralizedTime, DecodeError> {
        decoder.decode_generalized_time(tag)
    }
}

impl Leaf for BitString {
    ghost use Rattle.rasn_c.specs.Leaves.{MayTake};
    ghost use Rattle.rasn_types.specs.Shapes.{bit_string};
    ghost use Rattle.rasn_de.specs.BitString.{bits_tree};

    ghost kind = { bit_string };

    ghost tree = { bits_tree };

    ghost Takes = { MayTake };

    fn read(decoder: &mut Decoder<'_>, tag: Tag) -> Result<BitString, DecodeError> {
        decoder.decode_bit_string(tag, &Constraints::NONE)
    }
}

impl Leaf for Utf8String {
    ghost use Rattle.rasn_c.specs.Leaves.{MayTake};
    ghost use Rattle.rasn_types.specs.Shapes.{utf8, numbers};
    ghost use Rattle.std.specs.Prelude.{chars, string_bytes};

    ghost kind = { utf8 };

    ghost tree = { λ s. numbers (chars (string_bytes s)) };

    ghost Takes = { MayTake };

    fn read(decoder: &mut Decoder<'_>, tag: Tag) -> Result<Utf8String, DecodeError> {
        decoder.decode_utf8_string(tag, &Constraints::NONE)
    }
}

impl Leaf for NumericString {
    ghost use Rattle.rasn_c.specs.Leaves.{MayTake};
    ghost use Rattle.rasn_types.specs.Shapes.{numeric, numbers};

    ghost kind = { numeric };

    ghost tree = { λ s. numbers s };

    ghost Takes = { MayTake };

    fn read(decoder: &mut Decoder<'_>, tag: Tag) -> Result<NumericString, DecodeError> {
        decoder.decode_numeric_string(tag, &Constraints::NONE)
    }
}

impl Leaf for PrintableString {
    ghost use Rattle.rasn_c.specs.Leaves.{MayTake};
    ghost use Rattle.rasn_types.specs.Shapes.{printable, numbers};

    ghost kind = { printable };

    ghost tree = { λ s. numbers s };

    ghost Takes = { MayTake };

    fn read(decoder: &mut Decoder<'_>, tag: Tag) -> Result<PrintableString, DecodeError> {
        decoder.decode_printable_string(tag, &Constraints::NONE)
    }
}

impl Leaf for Ia5String {
    ghost use Rattle.rasn_c.specs.Leaves.{MayTake};
    ghost use Rattle.rasn_types.specs.Shapes.{ia5, numbers};

    ghost kind = { ia5 };

    ghost tree = { λ s. numbers s };

    ghost Takes = { MayTake };

    fn read(decoder: &mut Decoder<'_>, tag: Tag) -> Result<Ia5String, DecodeError> {
        decoder.decode_ia5_string(tag, &Constraints::NONE)
    }
}

impl Leaf for VisibleString {
    ghost use Rattle.rasn_c.specs.Leaves.{MayTake};
    ghost use Rattle.rasn_types.specs.Shapes.{visible, numbers};

    ghost kind = { visible };

    ghost tree = { λ s. numbers s };

    ghost Takes = { MayTake };

    fn read(decoder: &mut Decoder<'_>, tag: Tag) -> Result<VisibleString, DecodeError> {
        decoder.decode_visible_string(tag, &Constraints::NONE)
    }
}

/// Returns the value that all of the octets are, or the status of a refusal.
pub(crate) fn leaf_of<L: Leaf>(alloc: Global, rule: Codec, octets: &[u8]) -> Result<L, Status>
    ensures { MatchResult result (λ v. IsLeaf rule L.kind octets.now (L.tree v)) (IsNoLeaf L.Takes rule L.kind octets.now) }
{
    let mut decoder = Decoder::new(alloc, octets, DecoderOptions::of(rule));
    let Ok(tag) = decoder.peek_tag() else {
        return Err(Status::Refused);
    };
    match L::read(&mut decoder, tag) {
        Ok(value) => match decoder.remaining() {
            [] => Ok(value),
            [_, ..] => Err(Status::Refused),
        },
        Err(error) => {
            if error.is_out_of_memory() {
                Err(Status::OutOfMemory)
            } else {
                Err(Status::Refused)
            }
        }
    }
}

/// Returns the number of the INTEGER that all of the octets are, under the rules of this number.
/// Its tag may be any. A number that 64 bits don't hold is refused.
#[unsafe(no_mangle)]
pub extern "C" fn soq_proved_integer_i64(
    alloc: Global,
    rule: u32,
    octets: &[u8],
    number: &mut i64,
) -> u32
    ensures { IsNumberOf (AnswersInteger rule octets.now number.new) result }
{
    put_integer(alloc, rule, octets, number).number()
}

fn put_integer(alloc: Global, rule: u32, octets: &[u8], number: &mut i64) -> Status
    ensures { AnswersInteger rule octets.now number.new result }
{
    *number = 0;
    let Some(rule) = rule_numbered(rule) else {
        return Status::UnknownRule;
    };
    match leaf_of::<i64>(alloc, rule, octets) {
        Ok(value) => {
            *number = value;
            Status::Ok
        }
        Err(status) => status,
    }
}

/// Writes the number of the INTEGER that all of the octets are to the buffer, in two's complement
/// in the fewest octets (X.690 8.3.3). Its tag may be any. `needed` is the number of these octets,
/// also if the buffer is smaller; the buffer is then unchanged.
#[unsafe(no_mangle)]
pub extern "C" fn soq_proved_integer_octets(
    alloc: Global,
    rule: u32,
    octets: &[u8],
    buffer: &mut [u8],
    needed: &mut usize,
) -> u32
    ensures { IsNumberOf (AnswersNumber rule octets.now buffer.old buffer.new needed.new) result }
{
    put_number(alloc, rule, octets, buffer, needed).number()
}

fn put_number(
    alloc: Global,
    rule: u32,
    octets: &[u8],
    buffer: &mut [u8],
    needed: &mut usize,
) -> Status
    ensures { AnswersNumber rule octets.now buffer.old buffer.new needed.new result }
{
    *needed = 0;
    let Some(rule) = rule_numbered(rule) else {
        return Status::UnknownRule;
    };
    let number = match leaf_of::<Integer>(alloc, rule, octets) {
        Ok(number) => number,
        Err(status) => return status,
    };
    fill(number.as_octets(), buffer, needed)
}

/// Writes the OBJECT IDENTIFIER that all of the octets are to the buffer, as its numbers with
/// points between them and a zero after them. Its tag may be any. `needed` is the number of octets
/// of this text, also if the buffer is smaller; the buffer is then unchanged.
#[unsafe(no_mangle)]
pub extern "C" fn soq_proved_oid_text(
    alloc: Global,
    rule: u32,
    octets: &[u8],
    buffer: &mut [u8],
    needed: &mut usize,
) -> u32
    ensures { IsNumberOf (AnswersIdentifier rule octets.now buffer.old buffer.new needed.new) result }
{
    put_identifier(alloc, rule, octets, buffer, needed).number()
}

fn put_identifier(
    alloc: Global,
    rule: u32,
    octets: &[u8],
    buffer: &mut [u8],
    needed: &mut usize,
) -> Status
    ensures { AnswersIdentifier rule octets.now buffer.old buffer.new needed.new result }
{
    *needed = 0;
    let Some(rule) = rule_numbered(rule) else {
        return Status::UnknownRule;
    };
    let identifier = match leaf_of::<ObjectIdentifier>(alloc, rule, octets) {
        Ok(identifier) => identifier,
        Err(status) => return status,
    };
    let Ok(text) = text_of(alloc, &identifier) else {
        return Status::OutOfMemory;
    };
    fill(&text, buffer, needed)
}

/// Returns the numbers of the identifier with points between them, and a zero.
fn text_of(alloc: Global, identifier: &ObjectIdentifier) -> Result<Vec<u8>, AllocError>
    ensures { IfOk result (λ text. text.items ≡ dotted_text identifier.now) }
{
    let mut text = format!(in alloc; "{identifier}")?.into_bytes();
    text.push(0)?;
    Ok(text)
}
