//! The short names of attribute types (RFC 4514, 3).
ghost use Rattle.std.specs.Prelude.{MatchOption};
ghost use Rattle.rasn_text.specs.ShortNames.{IsShortName, HasNoShortName};

/// Returns the short name of an attribute type, if the table has one.
pub fn short_name(kind: &[u32]) -> Option<&'static str>
    ensures { MatchOption result (HasNoShortName kind.now) (λ name. IsShortName kind.now name.now) }
{
    match kind {
        [2, 5, 4, 3] => Some("CN"),
        [2, 5, 4, 6] => Some("C"),
        [2, 5, 4, 7] => Some("L"),
        [2, 5, 4, 8] => Some("ST"),
        [2, 5, 4, 9] => Some("STREET"),
        [2, 5, 4, 10] => Some("O"),
        [2, 5, 4, 11] => Some("OU"),
        [0, 9, 2342, 19200300, 100, 1, 1] => Some("UID"),
        [0, 9, 2342, 19200300, 100, 1, 25] => Some("DC"),
        _ => None,
    }
}
