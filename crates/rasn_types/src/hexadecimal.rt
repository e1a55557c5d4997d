//! Octets as text.
ghost use Rattle.std.specs.Prelude.{◌≡◌, ◌<◌, true};
ghost use Rattle.std.specs.Fmt.{WritesOnOk, digit_glyph};
ghost use Rattle.rasn_types.specs.Text.{two_digits};

use std::fmt;
use std::marker::Model;

/// Octets that are shown as two hexadecimal digits each, in capitals. Contracts see it as the list
/// of the octets.
#[derive(Debug, Drop)]
pub struct Hexadecimal<'a>(pub(crate) &'a [u8]);

impl<'a> Model for Hexadecimal<'a> {
    ghost use Rattle.std.specs.Prelude.{List, ℕ};

    ghost Value = { List ℕ };

    ghost view = { λ h. h.0.now };
}

impl<'a> Hexadecimal<'a> {
    /// Returns a value that shows these octets.
    pub fn new(octets: &'a [u8]) -> Hexadecimal<'a>
        ensures { result ≡ octets.entry.now }
    {
        Hexadecimal(octets)
    }
}

impl fmt::Display for Hexadecimal<'_> {
    ghost use Rattle.std.specs.Prelude.{Some};
    ghost use Rattle.rasn_types.specs.Text.{hexadecimal};

    ghost output = { λ h. Some (hexadecimal h) };

    fn fmt<W: fmt::Write>(&self, f: &mut fmt::Formatter<W>) -> fmt::Result {
        for octet in self.0 {
            write_octet(f, *octet)?;
        }
        Ok(())
    }
}

fn write_octet<W: fmt::Write>(f: &mut fmt::Formatter<W>, octet: u8) -> fmt::Result
    ensures { WritesOnOk W.write_str_gives f.old result (two_digits octet) f.new }
{
    f.write_char(digit(octet / 16))?;
    f.write_char(digit(octet % 16))
}

fn digit(value: u8) -> char
    requires { value < 16 }
    ensures { result ≡ digit_glyph true value }
{
    if value < 10 {
        char::from(b'0' + value)
    } else {
        char::from(b'A' + (value - 10))
    }
}
