//! The decoder of BER, CER and DER.
//!
//! A *framing error* is an error in the identifier or length octets of a value, or in the number of
//! its contents octets (X.690 8.1). It consumes nothing, with one exception: if a value must have a
//! definite length, a constructed encoding of indefinite length consumes its header under BER and
//! CER.
ghost use Rattle.std.specs.Prelude.{◌≡◌, ◌+◌, length, IfErr, Result};
ghost use Rattle.rasn_types.specs.declared.types.codec.Codec.{Codec};
ghost use Rattle.rasn_types.specs.Tags.{IsStrict};
ghost use Rattle.rasn_types.specs.Grammar.{top};
ghost use Rattle.rasn_de.specs.Causes.{in_ber, error_kind};
ghost use Rattle.rasn_de.specs.State.{State, at, IsEnd};
ghost use Rattle.rasn_de.specs.Steps.{PeeksTag, IsNextTag};
ghost use Rattle.rasn_de.specs.CharacterString.{IsWithinSize};
ghost use Rattle.rasn_types.specs.declared.types.tag.Tag.{Tag};
ghost use Rattle.rasn_types.specs.Errors.{IsOutOfMemory};
ghost use Rattle.rasn_types.specs.Truth.{IsWhether};

use crate::ber::de::parser::ParseError;
use crate::ber::de::parser::headers::{Spelling, read_identifier};
use crate::ber::rules::{allows_indefinite, is_der};
use rasn_types::error::{
    BerDecodeErrorKind, CodecDecodeError, DecodeError, DecodeErrorKind, Needed,
};
use rasn_types::types::{Codec, Constraints, Tag};
use std::alloc::Global;
use std::fmt;
use std::marker::Model;

pub mod alternatives;
mod any;
mod bit_string;
mod boolean;
mod character_string;
mod checks;
mod choice;
mod config;
mod constructed;
mod contents;
mod cow_bits;
mod default;
mod enumerated;
mod extensible;
mod extension;
mod fixed_octet_string;
mod integer;
mod named_bits;
mod null;
mod object_identifier;
mod octet_string;
mod optional;
mod parser;
pub mod parts;
mod prefix;
mod real;
mod sequence;
mod sequence_of;
mod set;
mod set_of;
pub mod set_parts;
mod time;
mod unknown;

pub use config::DecoderOptions;
pub use constructed::ConstructedHeader;
pub(crate) use octet_string::owned;

/// The maximum depth to which values may be nested.
const MAX_DEPTH: usize = 128;

/// A decoder, which reads values one after the other from one input.
///
/// In contracts it is a `State`: the rules, the remaining depth, whether end-of-contents octets may
/// end the contents, the whole input, and the remaining input.
#[derive(Drop)]
pub struct Decoder<'input> {
    whole: &'input [u8],
    rest: &'input [u8],
    rules: Codec,
    depth: usize,
    closing: bool,
    alloc: Global,
}

impl<'input> Model for Decoder<'input> {
    ghost use Rattle.rasn_de.specs.State.{State, IsEnd};

    ghost Value = { State };

    ghost view = { λ d. record { rule = d.rules; depth = d.depth; closing = d.closing; whole = d.whole.now; rest = d.rest.now } };

    ghost invariant = { λ d. IsEnd d.whole.now d.rest.now };
}

/// Shows the rules, the number of octets consumed, and the number of octets remaining.
impl fmt::Debug for Decoder<'_> {
    fn fmt<W: fmt::Write>(&self, f: &mut fmt::Formatter<W>) -> fmt::Result {
        f.debug_struct("Decoder")
            .field("codec", &self.rules)
            .field("decoded_len", &self.decoded_len())
            .field("remaining", &self.rest.len())
            .finish()
    }
}

/// Returns the kind of an error of X.690 8, which can occur under any of the rules.
fn in_ber(inner: BerDecodeErrorKind) -> DecodeErrorKind
    ensures { result ≡ in_ber inner }
{
    DecodeErrorKind::CodecSpecific {
        inner: CodecDecodeError::Ber(inner),
    }
}

/// Returns the kind of error that reports a fault.
#[inline(always)]
fn error_kind(fault: ParseError) -> DecodeErrorKind
    ensures { result ≡ error_kind fault }
{
    use BerDecodeErrorKind as Ber;
    use DecodeErrorKind as Kind;
    match fault {
        ParseError::Incomplete { needed } => Kind::Incomplete {
            needed: Needed::new(needed),
        },
        ParseError::UnexpectedExtraData { length } => Kind::UnexpectedExtraData { length },
        ParseError::UnexpectedEmptyInput => Kind::UnexpectedEmptyInput,
        ParseError::ExceedsMaxParseDepth => Kind::ExceedsMaxParseDepth,
        ParseError::OutOfMemory => Kind::OutOfMemory,
        ParseError::LengthExceedsPlatformWidth => Kind::LengthExceedsPlatformWidth,
        ParseError::InvalidBool { value } => Kind::InvalidBool { value },
        ParseError::MismatchedLength { expected, actual } => Kind::MismatchedLength {
            expected,
            actual,
        },
        ParseError::IntegerOverflow { max_width } => Kind::IntegerOverflow { max_width },
        ParseError::InvalidBitString { bits } => Kind::InvalidBitString { bits },
        ParseError::TrailingZeroBits => Kind::TrailingZeroBits,
        ParseError::SizeConstraintNotSatisfied { size, expected } =>
            Kind::SizeConstraintNotSatisfied {
                size: Some(size),
                expected,
            },
        ParseError::DiscriminantValueNotFound { discriminant } => Kind::DiscriminantValueNotFound {
            discriminant,
        },
        ParseError::PermittedAlphabetError { octet, position } => Kind::PermittedAlphabetError {
            octet,
            position,
        },
        ParseError::StringConversionFailed { tag } => Kind::StringConversionFailed { tag },
        ParseError::Der(kind) => Kind::CodecSpecific {
            inner: CodecDecodeError::Der(kind),
        },
        ParseError::UnsupportedObjectIdentifierArc => in_ber(Ber::UnsupportedObjectIdentifierArc),
        ParseError::UnsupportedTagNumber => in_ber(Ber::UnsupportedTagNumber),
        ParseError::UnexpectedEndOfContents => in_ber(Ber::UnexpectedEndOfContents),
        ParseError::MissingEndOfContents => in_ber(Ber::MissingEndOfContents),
        ParseError::IndefiniteLengthNotAllowed => in_ber(Ber::IndefiniteLengthNotAllowed),
        ParseError::ReservedLengthOctet => in_ber(Ber::ReservedLengthOctet),
        ParseError::MismatchedTag { expected, actual } => in_ber(Ber::MismatchedTag {
            expected,
            actual,
        }),
        ParseError::InvalidConstructedIdentifier => in_ber(Ber::InvalidConstructedIdentifier),
    }
}

/// Checks that a size in octets, bits, characters or elements is within its bound.
#[inline]
fn check_size(constraints: &Constraints, size: usize) -> Result<(), ParseError>
    ensures { IsWithinSize constraints.now size result }
{
    if constraints.admits_size(size) {
        Ok(())
    } else {
        let expected = constraints.size_bounds();
        Err(ParseError::SizeConstraintNotSatisfied { size, expected })
    }
}

impl<'input> Decoder<'input> {
    /// Returns a decoder at the start of the input, with a remaining depth of 128.
    pub fn new(alloc: Global, input: &'input [u8], options: DecoderOptions) -> Decoder<'input>
        ensures { result ≡ record { rule = options; depth = 128; closing = top options; whole = input.now; rest = input.now } }
    {
        let rules = options.current_codec();
        Decoder {
            whole: input,
            rest: input,
            rules,
            depth: MAX_DEPTH,
            closing: allows_indefinite(rules),
            alloc,
        }
    }

    /// Returns the rules that the decoder reads by.
    pub fn codec(&self) -> Codec
        ensures { result ≡ self.now.rule }
    {
        self.rules
    }

    /// Returns whether the rules are DER, under which only the encoding that the encoder writes is
    /// read.
    pub fn is_strict(&self) -> bool
        ensures { IsWhether result (IsStrict self.now.rule) }
    {
        is_der(self.rules)
    }

    /// Returns the allocator for new values.
    pub fn alloc(&self) -> Global {
        self.alloc
    }

    /// Returns the remaining input.
    pub fn remaining(&self) -> &'input [u8]
        ensures value { result.now ≡ self.now.rest }
        ensures end { IsEnd self.now.whole result.now }
    {
        self.rest
    }

    /// Returns the number of octets of the input that are consumed.
    pub fn decoded_len(&self) -> usize
        ensures { result + length self.now.rest ≡ length self.now.whole }
    {
        self.whole.len() - self.rest.len()
    }

    /// Returns the tag of the next value without consuming it.
    ///
    /// # Errors
    /// If no identifier of a value follows (X.690 8.1.2): `Incomplete` or `UnsupportedTagNumber`,
    /// whichever is found first, octet by octet; then `UnexpectedEndOfContents`; then, under DER,
    /// `NonMinimalTagNumber`.
    pub fn peek_tag(&self) -> Result<Tag, DecodeError>
        ensures next { IsNextTag self.now result }
        ensures exact { PeeksTag self.now result }
        ensures memory { IfErr result (λ e. IsOutOfMemory e.kind → ⊥) }
    {
        let (found, _) = match read_identifier(Spelling::of_rule(self.rules).shortest, self.rest) {
            Ok(found) => found,
            Err(fault) => return Err(self.error(fault)),
        };
        Ok(found.tag)
    }

    /// Returns the error that reports a fault, with the decoder's rules.
    #[inline(always)]
    fn error(&self, fault: ParseError) -> DecodeError
        ensures { result ≡ record { kind = error_kind fault; codec = self.now.rule } }
    {
        DecodeError {
            kind: error_kind(fault),
            codec: self.rules,
        }
    }

    /// Continues at `rest`, which must be a suffix of the remaining input.
    fn advance(&mut self, rest: &'input [u8])
        requires { IsEnd self.old.rest rest.now }
        ensures { self.new ≡ at self.old rest.now }
    {
        self.rest = rest;
    }
}
