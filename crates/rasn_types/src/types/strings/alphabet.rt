//! The octets that a string type admits.
ghost use Rattle.std.specs.Prelude.{◌<◌, Contains, MatchOption};
ghost use Rattle.rasn_types.specs.Truth.{IsWhether};
ghost use Rattle.rasn_types.specs.CharacterString.{IsAdmitted, AreAdmitted, IsFirstForeign, printable_marks};
ghost use Rattle.rasn_types.specs.declared.types.strings.alphabet.Alphabet.TheVariants.{Numeric, Printable};

/// The octets that a string type admits, each of which is one character (X.680 41).
#[derive(Clone, Copy, Debug, PartialEq, Eq)]
pub enum Alphabet {
    /// Digits and space.
    Numeric,
    /// Letters, digits, space and `' ( ) + , - . / : = ?`.
    Printable,
    /// `20` to `7E`.
    Visible,
    /// `00` to `7F`.
    Ia5,
    /// Every octet.
    Every,
}

impl Alphabet {
    /// Returns whether the alphabet has this octet.
    pub fn admits(self, octet: u8) -> bool
        ensures { IsWhether result (IsAdmitted self octet) }
    {
        match self {
            Alphabet::Numeric => is_digit_or_space(octet),
            Alphabet::Printable => is_printable(octet),
            Alphabet::Visible => octet >= 0x20 && octet < 0x7F,
            Alphabet::Ia5 => octet < 0x80,
            Alphabet::Every => true,
        }
    }

    /// Returns the position of the first octet that the alphabet doesn't have, counted from 0, or
    /// `None` if it has all.
    pub fn first_foreign(self, octets: &[u8]) -> Option<usize>
        ensures { MatchOption result (AreAdmitted self octets.now) (IsFirstForeign self octets.now) }
    {
        for (position, octet) in octets.iter().enumerate() {
            if !self.admits(*octet) {
                return Some(position);
            }
        }
        None
    }
}

fn is_digit_or_space(octet: u8) -> bool
    ensures { IsWhether result (IsAdmitted Numeric octet) }
{
    octet.is_ascii_digit() || octet == b' '
}

fn is_printable(octet: u8) -> bool
    ensures { IsWhether result (IsAdmitted Printable octet) }
{
    octet.is_ascii_uppercase()
        || octet.is_ascii_lowercase()
        || octet.is_ascii_digit()
        || is_printable_mark(octet)
}

fn is_printable_mark(octet: u8) -> bool
    ensures { IsWhether result (Contains printable_marks octet) }
{
    b" '()+,-./:=?".contains(&octet)
}
