//! The bits of a segment of a BIT STRING (X.690 8.6.2).
ghost use Rattle.std.specs.Prelude.{◌≡◌, ◌<◌, ◌≤◌, ◌*◌, length, IfOk};
ghost use Rattle.rasn_types.specs.BitString.{but_last};
ghost use Rattle.rasn_de.specs.BitString.{segment_bits, is_miscounted, is_any_set, last_bits};
ghost use Rattle.rasn_de.specs.ParserViews.{ParsesAs};

use crate::ber::de::parser::ParseError;
use crate::ber::de::parser::segments::Segmented;
use crate::ber::rules::is_der;
use rasn_types::ber::CollectedBits;
use rasn_types::error::DerDecodeErrorKind;
use rasn_types::types::Codec;

/// Returns whether a segment of these octets can't have this number of unused bits.
fn is_miscounted(unused: u8, octets: &[u8]) -> bool
    ensures { result ≡ is_miscounted unused octets.now }
{
    match octets {
        [] => unused > 0,
        _ => unused > 7,
    }
}

/// Returns whether one of the last `unused` bits is set.
fn is_any_set(unused: u8, octets: &[u8]) -> bool
    requires { unused < 8 }
    ensures { result ≡ is_any_set (last_bits unused octets.now) }
{
    match octets {
        [.., last] => *last % (1 << unused) != 0,
        [] => false,
    }
}

/// Returns the number of unused bits in the last octet of a segment, and its octets (X.690 8.6.2).
pub fn counted(rules: Codec, segment: &[u8]) -> Result<(usize, &[u8]), ParseError>
    ensures exact { ParsesAs (λ p. but_last p.0 p.1.now) result (segment_bits rules segment.now) }
    ensures few { IfOk result (λ p. (p.0 < 8) × (p.0 ≤ 8 * length p.1.now)) }
{
    let [unused, octets @ ..] = segment else {
        return Err(ParseError::UnexpectedEmptyInput);
    };
    if is_miscounted(*unused, octets) {
        return Err(ParseError::InvalidBitString { bits: *unused });
    }
    if is_der(rules) && is_any_set(*unused, octets) {
        return Err(ParseError::Der(DerDecodeErrorKind::NonzeroUnusedBits));
    }
    Ok((usize::from(*unused), octets))
}

impl Segmented for CollectedBits {
    type Item = bool;

    ghost has_seen = { λ g bits. g ≡ bits };

    ghost segment = { segment_bits };

    ghost allocates = { Unit {0} };

    fn append_segment(&mut self, rules: Codec, octets: &[u8]) -> Result<(), ParseError> {
        let (unused, octets) = counted(rules, octets)?;
        match self.append(octets, unused) {
            Ok(()) => Ok(()),
            Err(_) => Err(ParseError::OutOfMemory),
        }
    }
}
