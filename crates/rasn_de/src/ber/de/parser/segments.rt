//! Strings, either primitive or in segments (X.690 8.6.4, 8.7.3, 8.23).
ghost use Rattle.std.specs.Prelude.{◌≡◌, List, ℕ, MatchOption, Result, IfErr};
ghost use Rattle.rasn_de.specs.declared.ber.de.parser.ParseError.{ParseError};
ghost use Rattle.rasn_de.specs.declared.ber.de.parser.ParseError.TheVariants.{OutOfMemory};
ghost use Rattle.rasn_types.specs.declared.types.codec.Codec.{Codec};
ghost use Rattle.rasn_de.specs.Segments.{string_from, bare_from, without_memory, octets};
ghost use Rattle.rasn_de.specs.ParserViews.{IsNestedValue, IsPlainValue, ParsesSegments, ParsesSegment};

use crate::ber::de::parser::closing::{contents_or_rest, finish, has_ended};
use crate::ber::de::parser::headers::{Expected, Spelling, read_value};
use crate::ber::de::parser::{Contents, ParseError, Value};
use crate::ber::rules::is_der;
use rasn_types::error::DerDecodeErrorKind;
use rasn_types::types::{Codec, Tag};

/// What is given the segments of a string, in their order: it collects what they contain, or keeps
/// only what is asked of it.
pub trait Segmented: Drop {
    type Item;

    ghost has_seen: { Self → List Self.Item → Type 0 };

    ghost segment: { Codec → List ℕ → Result (List Self.Item) ParseError };

    ghost allocates: { Type 0 };

    /// Takes what the octets of the next segment contain.
    fn append_segment(&mut self, rules: Codec, octets: &[u8]) -> Result<(), ParseError>
        ensures exact { ParsesSegment (segment rules octets.now) (without_memory (segment rules) octets.now) (has_seen self.old) (has_seen self.new) result }
        ensures memory { IfErr result (λ e. e ≡ OutOfMemory → allocates) };
}

impl Segmented for Vec<u8> {
    type Item = u8;

    ghost has_seen = { λ v octets. v.items ≡ octets };

    ghost segment = { λ rules. octets };

    ghost allocates = { Unit {0} };

    fn append_segment(&mut self, _rules: Codec, octets: &[u8]) -> Result<(), ParseError> {
        match self.extend_from_slice(octets) {
            Ok(()) => Ok(()),
            Err(_) => Err(ParseError::OutOfMemory),
        }
    }
}

/// Returns the octets of a primitive value, which is a single segment, or `None` for a constructed
/// one.
pub(crate) fn segment_of(value: Value<'_>) -> Option<&[u8]>
    ensures { MatchOption result (IsNestedValue value.entry) (λ s. IsPlainValue value.entry s.now) }
{
    match value.contents {
        Contents::Definite(segment) => if value.is_constructed {
            None
        } else {
            Some(segment)
        },
        Contents::Indefinite => None,
    }
}

/// Gives the segments of a value, of which the header is already read, to `out` in their order.
/// Returns what follows the value.
pub fn string_contents<'a, T: Segmented>(
    rule: Codec,
    tag: Tag,
    depth: usize,
    value: Value<'a>,
    rest: &'a [u8],
    out: &mut T,
) -> Result<&'a [u8], ParseError>
    ensures exact { ParsesSegments (string_from rule T.segment tag depth value.entry rest.entry.now) (bare_from rule T.segment tag depth value.entry rest.entry.now) (T.has_seen out.old) (T.has_seen out.new) result }
    ensures memory { IfErr result (λ e. e ≡ OutOfMemory → T.allocates) }
{
    if let Some(segment) = segment_of(value) {
        out.append_segment(rule, segment)?;
        return Ok(rest);
    }
    if is_der(rule) {
        return Err(ParseError::Der(DerDecodeErrorKind::ConstructedEncodingNotAllowed));
    }
    if depth == 0 {
        return Err(ParseError::ExceedsMaxParseDepth);
    }
    let mut left = contents_or_rest(value.contents, rest);
    'segments: while !has_ended(true, left) {
        let (segment, after) = read_value(Spelling::of_rule(rule), Expected::Tagged(tag), left)?;
        left = string_contents(rule, tag, depth - 1, segment, after, out)?;
    }
    finish(value.contents, rest, left)
}
