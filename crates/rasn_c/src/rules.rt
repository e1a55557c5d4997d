//! The numbers of the rules in C.
ghost use Rattle.std.specs.Prelude.{◌≡◌, MatchOption};
ghost use Rattle.rasn_c.specs.Rules.{rule_number, IsUnknownRule};

use rasn::types::Codec;

/// Returns the rules of this number: a `soq_rule` of the header.
pub(crate) fn rule_numbered(number: u32) -> Option<Codec>
    ensures { MatchOption result (IsUnknownRule number) (λ rule. number ≡ rule_number rule) }
{
    match number {
        0 => Some(Codec::Ber),
        1 => Some(Codec::Cer),
        2 => Some(Codec::Der),
        _ => None,
    }
}
