//! The tag that octets begin with (X.690 8.1.2).
ghost use Rattle.std.specs.Prelude.{◌≡◌, ◌/◌, MatchOption};
ghost use Rattle.rasn_types.specs.declared.types.tag.Tag.{Tag};
ghost use Rattle.rasn_types.specs.Framing.{Begins};
ghost use Rattle.rasn_enc.specs.LeadingTag.{class_of, number_at, tag_number_at};

use rasn_types::types::{Class, Tag};

/// Returns the tag that the octets begin with, or `None` if they don't begin with an identifier.
pub fn leading_tag(octets: &[u8]) -> Option<Tag>
    ensures { MatchOption result ((tag : Tag) → Begins octets.now tag → ⊥) (Begins octets.now) }
{
    let [first, more @ ..] = octets else {
        return None;
    };
    let value = tag_number(*first, more)?;
    Some(Tag {
        class: class_at(*first / 64),
        value,
    })
}

/// Returns the class that the first two bits of an identifier name.
fn class_at(bits: u8) -> Class
    ensures { result ≡ class_of bits }
{
    match bits {
        0 => Class::Universal,
        1 => Class::Application,
        2 => Class::Context,
        _ => Class::Private,
    }
}

/// Returns the tag number in the first octet of an identifier and those after it.
#[tactic(auto, unfolding(crate::specs::LeadingTag::tag_number_at))]
fn tag_number(first: u8, more: &[u8]) -> Option<u32>
    ensures { result ≡ tag_number_at first more.now }
{
    if first % 32 != 31 {
        return Some(u32::from(first % 32));
    }
    leading_number(more)
}

/// Returns the number below 2^32 that the octets begin with in base 128, up to the first octet
/// below 128.
#[tactic(auto, unfolding(crate::specs::LeadingTag::number_at))]
fn leading_number(octets: &[u8]) -> Option<u32>
    ensures { result ≡ number_at 0 octets.now }
{
    let mut number: u32 = 0;
    let mut rest = octets;
    while let [octet, after @ ..] = rest {
        if number >= 0x200_0000 {
            return None;
        }
        if *octet < 128 {
            return Some(number * 128 + u32::from(*octet));
        }
        number = number * 128 + u32::from(*octet % 128);
        rest = after;
    }
    None
}
