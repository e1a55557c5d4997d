//! The parts of one whole encoding: its tag, its header and its contents.
ghost use Rattle.std.specs.Prelude.{◌≡◌, MatchOption};
ghost use Rattle.rasn_types.specs.Framing.{CompleteEncoding};
ghost use Rattle.rasn_types.specs.Tags.{rank};
ghost use Rattle.rasn_c.specs.Status.{IsNumberOf};
ghost use Rattle.rasn_c.specs.Skipping.{IsUnpassed};
ghost use Rattle.rasn_c.specs.Encodings.{AnswersNext, IsEncoding, HasParts, constructed_bit, end_length};

use crate::rules::rule_numbered;
use crate::status::Status;
use rasn::Decoder;
use rasn::ber::de::{ConstructedHeader, DecoderOptions};
use rasn::types::{Class, Codec};
use std::alloc::Global;

/// One whole encoding: `soq_encoding` of the header.
#[repr(C)]
#[derive(Clone, Copy, Debug, PartialEq, Eq)]
pub struct Encoding {
    /// The class of its tag: 0 is universal, 1 application, 2 context-specific, 3 private.
    pub class: u32,
    /// The number of its tag.
    pub number: u32,
    /// 1 if it is constructed, otherwise 0.
    pub constructed: u32,
    /// How many identifier and length octets it has.
    pub header: usize,
    /// How many contents octets follow them.
    pub contents: usize,
    /// How many octets it has in all. End-of-contents octets follow the contents if its length is
    /// indefinite.
    pub length: usize,
}

/// Returns the parts of the one whole encoding at the front of the octets, under the rules of this
/// number.
#[unsafe(no_mangle)]
pub extern "C" fn soq_proved_next(
    alloc: Global,
    rule: u32,
    octets: &[u8],
    encoding: &mut Encoding,
) -> u32
    ensures { IsNumberOf (AnswersNext rule octets.now encoding.new) result }
{
    next(alloc, rule, octets, encoding).number()
}

fn next(alloc: Global, rule: u32, octets: &[u8], encoding: &mut Encoding) -> Status
    ensures { AnswersNext rule octets.now encoding.new result }
{
    *encoding = Encoding {
        class: 0,
        number: 0,
        constructed: 0,
        header: 0,
        contents: 0,
        length: 0,
    };
    let Some(rule) = rule_numbered(rule) else {
        return Status::UnknownRule;
    };
    match first_encoding(alloc, rule, octets) {
        Some(found) => {
            *encoding = found;
            Status::Ok
        }
        None => Status::Refused,
    }
}

/// Returns the parts of the whole encoding at the front of the octets, if there is one.
fn first_encoding(alloc: Global, rule: Codec, octets: &[u8]) -> Option<Encoding>
    ensures { MatchOption result (IsUnpassed rule octets.now) (IsEncoding rule octets.now) }
{
    let mut decoder = Decoder::new(alloc, octets, DecoderOptions::of(rule));
    match decoder.skip_value() {
        Ok(_) => Some(parts_of(alloc, rule, &octets[..decoder.decoded_len()])),
        Err(_error) => None,
    }
}

/// Returns the parts of octets that are one whole encoding.
fn parts_of(alloc: Global, rule: Codec, octets: &[u8]) -> Encoding
    requires { CompleteEncoding rule octets.now }
    ensures { HasParts rule octets.now result }
{
    let mut decoder = Decoder::new(alloc, octets, DecoderOptions::of(Codec::Ber));
    let Ok(tag) = decoder.peek_tag() else {
        unreachable!();
    };
    let Ok((inner, _)) = decoder.open(ConstructedHeader::prefix(tag)) else {
        unreachable!();
    };
    let left = inner.remaining().len();
    let end = end_length(inner.may_be_closed());
    Encoding {
        class: class_number(tag.class),
        number: tag.value,
        constructed: constructed_bit(octets),
        header: octets.len() - left,
        contents: left - end,
        length: octets.len(),
    }
}

/// Returns the bit of the identifier that is 1 for a constructed encoding (X.690 8.1.2.5).
pub(crate) fn constructed_bit(octets: &[u8]) -> u32
    ensures { result ≡ constructed_bit octets.now }
{
    match octets {
        [first, ..] => u32::from(*first / 32 % 2),
        [] => 0,
    }
}

/// Returns how many end-of-contents octets there are (X.690 8.1.5).
pub(crate) fn end_length(is_indefinite: bool) -> usize
    ensures { result ≡ end_length is_indefinite }
{
    if is_indefinite { 2 } else { 0 }
}

/// Returns the number of a class of tags in an identifier (X.690 8.1.2.2).
pub(crate) fn class_number(class: Class) -> u32
    ensures { result ≡ rank class }
{
    match class {
        Class::Universal => 0,
        Class::Application => 1,
        Class::Context => 2,
        Class::Private => 3,
    }
}
