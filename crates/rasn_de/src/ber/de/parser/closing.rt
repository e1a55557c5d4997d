//! Values that contain others: their contents, and how they are closed (X.690 8.1.5).
ghost use Rattle.std.specs.Prelude.{◌≡◌};
ghost use Rattle.rasn_types.specs.Framing.{Ended};
ghost use Rattle.rasn_de.specs.Segments.{end_of_contents_at, end_at, octets_inside};
ghost use Rattle.rasn_de.specs.ParserViews.{ParsesAs, extent};
ghost use Rattle.rasn_types.specs.Truth.{IsWhether};

use crate::ber::de::parser::{Contents, ParseError};

/// Returns whether the contents end: no octets remain, or end-of-contents octets follow and
/// `closing` allows them.
pub(crate) fn has_ended(closing: bool, input: &[u8]) -> bool
    ensures { IsWhether result (Ended closing input.now) }
{
    match input {
        [] => true,
        [a, b, ..] => closing && *a == 0 && *b == 0,
        _ => false,
    }
}

/// Returns what follows end-of-contents octets.
#[tactic(auto, unfolding(crate::specs::Segments::end_of_contents_at))]
pub fn end_of_contents(input: &[u8]) -> Result<&[u8], ParseError>
    ensures { ParsesAs (λ r. r.now) result (end_of_contents_at input.now) }
{
    match input {
        [] => Err(ParseError::Incomplete { needed: 2 }),
        [a] => if *a == 0 {
            Err(ParseError::Incomplete { needed: 1 })
        } else {
            Err(ParseError::MissingEndOfContents)
        },
        [a, b, rest @ ..] => if *a == 0 && *b == 0 {
            Ok(rest)
        } else {
            Err(ParseError::MissingEndOfContents)
        },
    }
}

/// Returns what follows a value inside which `left` remains. Definite contents must be read
/// entirely; indefinite ones must end with end-of-contents octets.
pub(crate) fn finish<'a>(
    contents: Contents<'a>,
    rest: &'a [u8],
    left: &'a [u8],
) -> Result<&'a [u8], ParseError>
    ensures { ParsesAs (λ r. r.now) result (end_at (extent contents.entry) rest.now left.now) }
{
    match contents {
        Contents::Definite(_) => {
            if left.is_empty() {
                Ok(rest)
            } else {
                Err(ParseError::UnexpectedExtraData { length: left.len() })
            }
        }
        Contents::Indefinite => end_of_contents(left),
    }
}

/// Returns the contents of a value, or all that follows its header if the length is indefinite.
pub(crate) fn contents_or_rest<'a>(contents: Contents<'a>, rest: &'a [u8]) -> &'a [u8]
    ensures { result.now ≡ octets_inside (extent contents.entry) rest.now }
{
    match contents {
        Contents::Definite(octets) => octets,
        Contents::Indefinite => rest,
    }
}
