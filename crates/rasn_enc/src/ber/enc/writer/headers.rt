//! Identifier and length octets (X.690 8.1), each in the fewest octets.
ghost use Rattle.std.specs.Prelude.{◌≡◌, ◌+◌, ◌*◌, ◌^◌, ◌/◌, ◌%◌, ◌<◌, ◌≤◌, ◌++◌, length, vec_len, vec_capacity, Bool};
ghost use Rattle.rasn_types.specs.Tags.{rank as rank_of, tag_bit};
ghost use Rattle.rasn_types.specs.Framing.{bit_of};
ghost use Rattle.rasn_enc.specs.Headers.{digits, octet_count, id_octets, length_octets};

use crate::ber::enc::writer::base_128::{count_groups, write_groups};
use rasn_types::types::{Class, Tag};

/// The length octet of the indefinite form, in which end-of-contents octets end the contents
/// (X.690 8.1.3.6).
pub const INDEFINITE_LENGTH: u8 = 128;

/// Returns the number of identifier octets of a tag.
#[inline(always)]
pub fn identifier_len(tag: Tag) -> usize
    ensures exact { (bit : Bool) → length (id_octets tag bit) ≡ result }
    ensures small { result < 7 }
{
    if tag.value < 31 {
        1
    } else {
        1 + count_groups(tag.value)
    }
}

/// Returns the number of octets that a length takes in the definite form.
#[inline(always)]
pub fn length_len(count: usize) -> usize
    ensures exact { length (length_octets count) ≡ result }
    ensures some { 0 < result }
    ensures small { result < 10 }
{
    if count < 128 {
        1
    } else {
        1 + count_octets(count)
    }
}

/// Writes the identifier of a tag (X.690 8.1.2).
#[inline(always)]
pub fn write_identifier(out: &mut Vec<u8>, tag: Tag, constructed: bool)
    requires { vec_len out.old + length (id_octets tag constructed) ≤ vec_capacity out.old }
    ensures items { out.new.items ≡ out.old.items ++ id_octets tag constructed }
    ensures capacity { vec_capacity out.new ≡ vec_capacity out.old }
{
    if tag.value < 31 {
        out.push_reserved(leading_octet(tag.class, constructed, tag.value as u8));
    } else {
        out.push_reserved(leading_octet(tag.class, constructed, 31));
        write_groups(out, tag.value);
    }
}

/// Writes a length in the definite form (X.690 8.1.3).
#[inline(always)]
pub fn write_length(out: &mut Vec<u8>, count: usize)
    requires { vec_len out.old + length (length_octets count) ≤ vec_capacity out.old }
    ensures items { out.new.items ≡ out.old.items ++ length_octets count }
    ensures capacity { vec_capacity out.new ≡ vec_capacity out.old }
{
    if count < 128 {
        out.push_reserved(count as u8);
    } else {
        out.push_reserved(128 + count_octets(count) as u8);
        write_octets(out, count);
    }
}

/// Returns the first identifier octet: the class, the constructed bit and five bits of the number.
#[inline(always)]
fn leading_octet(class: Class, constructed: bool, low: u8) -> u8
    requires { low < 32 }
    ensures { result ≡ 64 * rank_of class + (32 * bit_of constructed + low) }
{
    let bit = if constructed { 32 } else { 0 };
    64 * rank(class) + (bit + low)
}

/// Returns the position of a class in the order of tags.
#[inline(always)]
pub fn rank(class: Class) -> u8
    ensures exact { result ≡ rank_of class }
    ensures small { result < 4 }
{
    match class {
        Class::Universal => 0,
        Class::Application => 1,
        Class::Context => 2,
        Class::Private => 3,
    }
}

/// Returns the number of octets that a number takes in base 256.
fn count_octets(number: usize) -> usize
    ensures { result ≡ octet_count number }
{
    if number < 0x100 {
        1
    } else if number < 0x1_0000 {
        2
    } else if number < 0x100_0000 {
        3
    } else if number < 0x1_0000_0000 {
        4
    } else if number < 0x100_0000_0000 {
        5
    } else if number < 0x1_0000_0000_0000 {
        6
    } else if number < 0x100_0000_0000_0000 {
        7
    } else {
        8
    }
}

/// Writes a number in base 256, the most significant octet first.
fn write_octets(out: &mut Vec<u8>, number: usize)
    requires { vec_len out.old + octet_count number ≤ vec_capacity out.old }
    ensures items { out.new.items ≡ out.old.items ++ digits 256 (octet_count number) number }
    ensures capacity { vec_capacity out.new ≡ vec_capacity out.old }
{
    let mut left = count_octets(number);
    while left > 0 {
        left -= 1;
        out.push_reserved(octet_at(number, left));
    }
}

fn octet_at(number: usize, place: usize) -> u8
    requires { place < 8 }
    ensures { result ≡ number / 256 ^ place % 256 }
{
    ((number >> (8 * place)) % 256) as u8
}
