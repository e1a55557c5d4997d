//! What X.690 requires of the encodings with a universal tag.
ghost use Rattle.std.specs.Prelude.{◌≡◌};
ghost use Rattle.rasn_lint.specs.Universal.{rule_in, rule_of};

use rasn_types::types::{Alphabet, Class, Tag};

/// What DER requires of the form and the contents octets of an encoding, by its tag. All but
/// `Values`, `Set` and `Unknown` are of primitive encodings.
#[derive(Clone, Copy, Debug, PartialEq, Eq)]
pub enum ContentsRule {
    /// BOOLEAN: one octet, `00` or `FF` (8.2, 11.1).
    Boolean,
    /// INTEGER and ENUMERATED: at least one octet, and the first nine bits aren't equal (8.3, 8.4).
    Integer,
    /// BIT STRING: the number of unused bits, which are zero, and octets (8.6.2, 11.2.1).
    BitString,
    /// NULL: no octets (8.8).
    Null,
    /// OBJECT IDENTIFIER and RELATIVE-OID: subidentifiers, each in its fewest octets and of any
    /// size (8.19, 8.20).
    Subidentifiers,
    /// UTF8String (8.23.10).
    Utf8,
    /// NumericString, PrintableString, IA5String and VisibleString: octets of an alphabet (8.23).
    Characters(Alphabet),
    /// BMPString: 16-bit units (8.23.8).
    Units,
    /// UTCTime in the canonical form (11.8).
    UtcTime,
    /// GeneralizedTime in the canonical form (11.7).
    GeneralizedTime,
    /// DATE: eight digits of a day that exists (8.26).
    Date,
    /// OCTET STRING, ObjectDescriptor, REAL, the other times and strings: any octets.
    Octets,
    /// EXTERNAL, EMBEDDED PDV, SEQUENCE and CHARACTER STRING, which are constructed: any encodings.
    Values,
    /// SET, which is constructed: encodings in order (10.3, 11.6).
    Set,
    /// A tag that isn't universal, or that is reserved: either form, with any contents octets or
    /// any encodings.
    Unknown,
}

/// Returns the rule for the universal tag with this number (X.680 8.4).
#[tactic(auto, unfolding(crate::specs::Universal::rule_in))]
fn rule_in(number: u32) -> ContentsRule
    ensures { result ≡ rule_in number }
{
    match number {
        1 => ContentsRule::Boolean,
        2 | 10 => ContentsRule::Integer,
        3 => ContentsRule::BitString,
        5 => ContentsRule::Null,
        6 | 13 => ContentsRule::Subidentifiers,
        12 => ContentsRule::Utf8,
        18 => ContentsRule::Characters(Alphabet::Numeric),
        19 => ContentsRule::Characters(Alphabet::Printable),
        22 => ContentsRule::Characters(Alphabet::Ia5),
        26 => ContentsRule::Characters(Alphabet::Visible),
        30 => ContentsRule::Units,
        23 => ContentsRule::UtcTime,
        24 => ContentsRule::GeneralizedTime,
        31 => ContentsRule::Date,
        4 | 7 | 9 | 14 | 20 | 21 | 25 | 27 | 28 | 32..=36 => ContentsRule::Octets,
        8 | 11 | 16 | 29 => ContentsRule::Values,
        17 => ContentsRule::Set,
        _ => ContentsRule::Unknown,
    }
}

/// Returns the rule for a tag.
pub fn rule_of(tag: Tag) -> ContentsRule
    ensures { result ≡ rule_of tag }
{
    match tag.class {
        Class::Universal => rule_in(tag.value),
        _ => ContentsRule::Unknown,
    }
}
