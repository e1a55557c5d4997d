//! A departure from DER.
ghost use Rattle.std.specs.Prelude.{◌≡◌};
ghost use Rattle.std.specs.Fmt.{WritesOnOk};
ghost use Rattle.rasn_lint.specs.Refusals.{aspect_of, ber_aspect_of, der_aspect_of};
ghost use Rattle.rasn_lint.specs.Shown.{indices_of, aspect_text, ber_section, der_section, section_of, rule_text};

use rasn_dynamic::{NamedRefusal, Refusal};
use rasn_schema::{Schema, TypeId};
use rasn_types::error::{
    BerDecodeErrorKind, CodecDecodeError, DecodeErrorKind, DerDecodeErrorKind,
};
use std::fmt;

/// What of an encoding departs from DER.
#[derive(Clone, Copy, Debug, PartialEq, Eq)]
pub enum Aspect {
    /// Its identifier or length octets (X.690 8.1.2, 8.1.3, 10.1, 10.2).
    Header,
    /// Its contents octets (X.690 8, 11).
    Contents,
    /// That it is present, although it is a default, or where it is in a SET or a SET OF
    /// (X.690 10.3, 11.5, 11.6).
    Place,
}

/// A departure of a message from DER: what to mend, and where.
#[derive(Debug, Drop)]
pub struct Departure {
    /// The part, with its offset and the error that the reader of DER has for it.
    pub refusal: Refusal,
    /// Which aspect differs from DER: its header, its contents or its place.
    pub aspect: Aspect,
    /// If the part is an open type, and an encoding inside it departs, the index of each encoding
    /// on the way to that one: the offset is its own.
    pub inner: Option<Vec<usize>>,
}

impl Departure {
    /// Returns the departure with the names on the way from the type that was asked for, whose
    /// number this is.
    pub fn with_names<'a>(&'a self, schema: &'a Schema, id: TypeId) -> NamedDeparture<'a>
        ensures { (result.place.departure.now ≡ self.now) × (result.place.schema.now ≡ schema.now) × (result.place.id ≡ id) }
    {
        NamedDeparture {
            place: self.place_with_names(schema, id),
        }
    }

    /// Returns the path and the error with names, without the aspect.
    pub fn place_with_names<'a>(&'a self, schema: &'a Schema, id: TypeId) -> NamedPlace<'a>
        ensures { (result.departure.now ≡ self.now) × (result.schema.now ≡ schema.now) × (result.id ≡ id) }
    {
        NamedPlace {
            departure: self,
            schema,
            id,
        }
    }
}

impl Departure {
    /// Returns the index of each encoding on the way inside an open type.
    fn indices(&self) -> &[usize]
        ensures { result.now ≡ indices_of self.now.inner }
    {
        match &self.inner {
            Some(indices) => indices.as_slice(),
            None => &[],
        }
    }
}

/// The place of a departure, which is shown with the names of a schema.
#[derive(Drop)]
pub struct NamedPlace<'a> {
    /// The departure.
    pub departure: &'a Departure,
    /// The schema.
    pub schema: &'a Schema,
    /// The number of the type that was asked for.
    pub id: TypeId,
}

/// The way to the part, as [`Refusal::with_names`] shows it, and on inside an open type: the index
/// of each encoding there, in brackets. Then the offset and the error.
impl fmt::Display for NamedPlace<'_> {
    ghost use Rattle.rasn_lint.specs.Shown.{shown_place};

    ghost output = { shown_place };

    fn fmt<W: fmt::Write>(&self, f: &mut fmt::Formatter<W>) -> fmt::Result {
        let place = NamedRefusal {
            schema: self.schema,
            id: self.id,
            refusal: &self.departure.refusal,
            inner: self.departure.indices(),
        };
        fmt::Display::fmt(&place, f)
    }
}

/// A departure that is shown with the names of a schema.
#[derive(Drop)]
pub struct NamedDeparture<'a> {
    /// Its place.
    pub place: NamedPlace<'a>,
}

/// The place with its names, what departs, and the section of X.690.
impl fmt::Display for NamedDeparture<'_> {
    ghost use Rattle.rasn_lint.specs.Shown.{shown_named_departure};

    ghost output = { shown_named_departure };

    fn fmt<W: fmt::Write>(&self, f: &mut fmt::Formatter<W>) -> fmt::Result {
        write!(f, "{} ", self.place)?;
        write_rule(f, self.place.departure)
    }
}

/// The offset, the error, what departs, and the section of X.690.
impl fmt::Display for Departure {
    ghost use Rattle.rasn_lint.specs.Shown.{shown_departure};

    ghost output = { shown_departure };

    fn fmt<W: fmt::Write>(&self, f: &mut fmt::Formatter<W>) -> fmt::Result {
        write!(f, "{} ", self.refusal)?;
        write_rule(f, self)
    }
}

/// Writes what departs, and the section of X.690.
fn write_rule<W: fmt::Write>(f: &mut fmt::Formatter<W>, departure: &Departure) -> fmt::Result
    ensures { WritesOnOk W.write_str_gives f.old result (rule_text departure.now) f.new }
{
    let aspect = aspect_text(departure.aspect);
    let section = section_of(&departure.refusal.error.kind);
    write!(f, "({aspect}, {section})")
}

/// Returns what departs as text.
fn aspect_text(aspect: Aspect) -> &'static str
    ensures { result.now ≡ aspect_text aspect }
{
    match aspect {
        Aspect::Header => "header",
        Aspect::Contents => "contents",
        Aspect::Place => "place",
    }
}

/// Returns what of an encoding an error of the reader of DER is about.
pub fn aspect_of(kind: &DecodeErrorKind) -> Aspect
    ensures { result ≡ aspect_of kind.now }
{
    match kind {
        DecodeErrorKind::CodecSpecific { inner } => match inner {
            CodecDecodeError::Der(kind) => der_aspect_of(*kind),
            CodecDecodeError::Ber(kind) => ber_aspect_of(kind),
        },
        DecodeErrorKind::InvalidBool { .. }
        | DecodeErrorKind::InvalidBitString { .. }
        | DecodeErrorKind::TrailingZeroBits
        | DecodeErrorKind::Incomplete { .. }
        | DecodeErrorKind::UnexpectedExtraData { .. }
        | DecodeErrorKind::UnexpectedEmptyInput
        | DecodeErrorKind::ExceedsMaxParseDepth
        | DecodeErrorKind::RealNotSupported
        | DecodeErrorKind::OutOfMemory
        | DecodeErrorKind::LengthExceedsPlatformWidth
        | DecodeErrorKind::MismatchedLength { .. }
        | DecodeErrorKind::IntegerOverflow { .. }
        | DecodeErrorKind::DiscriminantValueNotFound { .. }
        | DecodeErrorKind::SizeConstraintNotSatisfied { .. }
        | DecodeErrorKind::ValueConstraintNotSatisfied { .. }
        | DecodeErrorKind::PermittedAlphabetError { .. }
        | DecodeErrorKind::StringConversionFailed { .. }
        | DecodeErrorKind::NoValidChoice { .. }
        | DecodeErrorKind::MissingField { .. }
        | DecodeErrorKind::DuplicateField { .. } => Aspect::Contents,
    }
}

/// Returns what of an encoding an error kind of all rules is about.
fn ber_aspect_of(kind: &BerDecodeErrorKind) -> Aspect
    ensures { result ≡ ber_aspect_of kind.now }
{
    match kind {
        BerDecodeErrorKind::IndefiniteLengthNotAllowed => Aspect::Header,
        BerDecodeErrorKind::UnsupportedTagNumber
        | BerDecodeErrorKind::UnsupportedObjectIdentifierArc
        | BerDecodeErrorKind::UnexpectedEndOfContents
        | BerDecodeErrorKind::MissingEndOfContents
        | BerDecodeErrorKind::ReservedLengthOctet
        | BerDecodeErrorKind::MismatchedTag { .. }
        | BerDecodeErrorKind::InvalidConstructedIdentifier
        | BerDecodeErrorKind::InvalidObjectIdentifier
        | BerDecodeErrorKind::InvalidDate { .. } => Aspect::Contents,
    }
}

/// Returns what of an encoding an error kind of DER is about.
fn der_aspect_of(kind: DerDecodeErrorKind) -> Aspect
    ensures { result ≡ der_aspect_of kind }
{
    match kind {
        DerDecodeErrorKind::ConstructedEncodingNotAllowed
        | DerDecodeErrorKind::NonMinimalTagNumber
        | DerDecodeErrorKind::ConstructedBitMismatch
        | DerDecodeErrorKind::NonMinimalLength => Aspect::Header,
        DerDecodeErrorKind::NonMinimalInteger
        | DerDecodeErrorKind::NonMinimalArc
        | DerDecodeErrorKind::NonzeroUnusedBits => Aspect::Contents,
        DerDecodeErrorKind::DefaultValuePresent
        | DerDecodeErrorKind::SetComponentsOutOfOrder
        | DerDecodeErrorKind::SetOfOutOfOrder => Aspect::Place,
    }
}

/// Returns the section of X.690 that an error kind is about.
fn section_of(kind: &DecodeErrorKind) -> &'static str
    ensures { result.now ≡ section_of kind.now }
{
    match kind {
        DecodeErrorKind::InvalidBool { .. } => "11.1",
        DecodeErrorKind::TrailingZeroBits => "11.2.2",
        DecodeErrorKind::InvalidBitString { .. } => "8.6.2",
        DecodeErrorKind::CodecSpecific { inner } => match inner {
            CodecDecodeError::Der(kind) => der_section_of(*kind),
            CodecDecodeError::Ber(kind) => ber_section_of(kind),
        },
        DecodeErrorKind::Incomplete { .. }
        | DecodeErrorKind::UnexpectedExtraData { .. }
        | DecodeErrorKind::UnexpectedEmptyInput
        | DecodeErrorKind::ExceedsMaxParseDepth
        | DecodeErrorKind::RealNotSupported
        | DecodeErrorKind::OutOfMemory
        | DecodeErrorKind::LengthExceedsPlatformWidth
        | DecodeErrorKind::MismatchedLength { .. }
        | DecodeErrorKind::IntegerOverflow { .. }
        | DecodeErrorKind::DiscriminantValueNotFound { .. }
        | DecodeErrorKind::SizeConstraintNotSatisfied { .. }
        | DecodeErrorKind::ValueConstraintNotSatisfied { .. }
        | DecodeErrorKind::PermittedAlphabetError { .. }
        | DecodeErrorKind::StringConversionFailed { .. }
        | DecodeErrorKind::NoValidChoice { .. }
        | DecodeErrorKind::MissingField { .. }
        | DecodeErrorKind::DuplicateField { .. } => "8",
    }
}

/// Returns the section of X.690 that an error kind of all rules is about.
fn ber_section_of(kind: &BerDecodeErrorKind) -> &'static str
    ensures { result.now ≡ ber_section kind.now }
{
    match kind {
        BerDecodeErrorKind::IndefiniteLengthNotAllowed => "10.1",
        BerDecodeErrorKind::InvalidDate { .. } => "11.7, 11.8",
        BerDecodeErrorKind::UnsupportedTagNumber
        | BerDecodeErrorKind::UnsupportedObjectIdentifierArc
        | BerDecodeErrorKind::UnexpectedEndOfContents
        | BerDecodeErrorKind::MissingEndOfContents
        | BerDecodeErrorKind::ReservedLengthOctet
        | BerDecodeErrorKind::MismatchedTag { .. }
        | BerDecodeErrorKind::InvalidConstructedIdentifier
        | BerDecodeErrorKind::InvalidObjectIdentifier => "8",
    }
}

/// Returns the section of X.690 that an error kind of DER is about.
fn der_section_of(kind: DerDecodeErrorKind) -> &'static str
    ensures { result.now ≡ der_section kind }
{
    match kind {
        DerDecodeErrorKind::ConstructedEncodingNotAllowed => "10.2",
        DerDecodeErrorKind::NonMinimalTagNumber => "8.1.2.4",
        DerDecodeErrorKind::ConstructedBitMismatch => "8.1.2.5",
        DerDecodeErrorKind::NonMinimalLength => "10.1",
        DerDecodeErrorKind::NonMinimalInteger => "8.3.2",
        DerDecodeErrorKind::NonMinimalArc => "8.19.2",
        DerDecodeErrorKind::NonzeroUnusedBits => "11.2.1",
        DerDecodeErrorKind::DefaultValuePresent => "11.5",
        DerDecodeErrorKind::SetComponentsOutOfOrder => "10.3",
        DerDecodeErrorKind::SetOfOutOfOrder => "11.6",
    }
}
