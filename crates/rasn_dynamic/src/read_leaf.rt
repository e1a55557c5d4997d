//! Reads values that hold no other values.
ghost use Rattle.std.specs.Prelude.{◌≡◌, true, ◌++◌, ◌∷◌, [], OnOk, IfOk, IfErr, Contains};
ghost use Rattle.rasn_types.specs.Errors.{IsOutOfMemory};
ghost use Rattle.rasn_types.specs.Numbered.{fit_isize};
ghost use Rattle.rasn_types.specs.CharacterString.{string_kind};
ghost use Rattle.rasn_types.specs.Shapes.{leaf, any, unknown, looked_for, boolean, fixed, integer, every, enumerated, object_identifier, bit_string, named_bits, octet_string, bmp, universal, utf8, real, time_text, time_digits, utc_time, generalized_time, date};
ghost use Rattle.rasn_types.specs.Trees.{unconstrained};
ghost use Rattle.rasn_types.specs.Truth.{IsWhether};
ghost use Rattle.rasn_de.specs.Decodes.{Decodes};
ghost use Rattle.rasn_de.specs.Checks.{Checks};
ghost use Rattle.rasn_de.specs.Steps.{IsErrorOf};
ghost use Rattle.rasn_dynamic.specs.Inside.{DecodesTree};
ghost use Rattle.rasn_dynamic.specs.Making.{Making, outcome, reported};
ghost use Rattle.rasn_dynamic.specs.Times.{KeepsOffset};
ghost use Rattle.rasn_de.specs.declared.ber.de.parser.ParseError.TheVariants.{OutOfMemory, SizeConstraintNotSatisfied, StringConversionFailed};
ghost use Rattle.rasn_types.specs.Tags.{in_universal};
ghost use Rattle.rasn_types.specs.Contents.{IsTimeText, AreTimeDigits};
ghost use Rattle.rasn_schema.specs.KindNames.{names_of};
ghost use Rattle.rasn_schema.specs.Trees.{tree_of};
ghost use Rattle.rasn_schema.specs.Shapes.{kind_of, numbers_of};
ghost use Rattle.rasn_schema.specs.declared.types.LeafKind.TheVariants.{Boolean as BooleanKind, FixedOctetString as FixedKind, UtcTime as UtcTimeKind, Universal as UniversalKind, Real as RealKind};
ghost use Rattle.rasn_dynamic.specs.Calls.{IsNumberIn, IsStringOf, FailsAtNumber, FailsAtFixed};
ghost use Rattle.rasn_schema.specs.Fitting.{FitsLeaf, IsNumber, AreOctets, AreItems, EachFits};
ghost use Rattle.rasn_types.specs.Grammar.{UtcText, GeneralizedText};
ghost use Rattle.rasn_types.specs.Time.{DateText};
ghost use Rattle.rasn_de.specs.Any.{BorrowsOpenType};
ghost use Rattle.rasn_de.specs.BitString.{DecodesBitString};
ghost use Rattle.rasn_de.specs.CharacterString.{ByAlphabet, BySize, ByLength, ByUnits, ByUtf8};
ghost use Rattle.rasn_de.specs.Leaves.{BoolAt, FailsAs};
ghost use Rattle.rasn_de.specs.NamedBits.{DecodesNamedBits};
ghost use Rattle.rasn_de.specs.ObjectIdentifier.{DecodesObjectIdentifier};
ghost use Rattle.rasn_de.specs.Time.{AtAnyOffset, DecodesTime};
ghost use Rattle.rasn_de.specs.ValueErrors.{errors_of, integer_errors};
ghost use Rattle.rasn_dynamic.specs.LeafErrors.{string_errors, contents_errors, ByQuads, IsAnyReal, leaf_errors, unknown_errors, RunsOutOr};

use crate::made::Made;
use crate::walk::{Refused, kept};
use rasn_de::ber::de::Decoder;
use rasn_de::de::Decode;
use rasn_schema::{
    LeafKind, NamedNumber, Value, are_time_digits, canonical_real, is_canonical_real, is_time_text,
    universal_text,
};
use rasn_types::error::{DecodeError, DecodeErrorKind};
use rasn_types::types::{
    Alphabet, Bounded, Class, Codec, Constraints, Date, GeneralizedTime, Integer, IntegerType,
    LONGEST_NUMBER, ObjectIdentifier, Tag, UtcTime,
};
use std::alloc::{AllocError, Global};
use std::borrow::{CowSlice, CowStr};

/// Returns the error that memory ran out.
pub(crate) fn out_of_memory(decoder: &Decoder<'_>) -> DecodeError
    ensures kind { IsOutOfMemory result.kind }
    ensures told { IsErrorOf OutOfMemory decoder.now result }
{
    DecodeError {
        kind: DecodeErrorKind::OutOfMemory,
        codec: decoder.codec(),
    }
}

/// Appends a value, where values are kept.
#[inline(always)]
pub(crate) fn push<'input, M: Made>(
    decoder: &Decoder<'input>,
    values: &mut Vec<Value<'input>>,
    value: Value<'input>,
) -> Result<(), DecodeError>
    ensures ok { M.KEEP ≡ true → OnOk result (values.new.items ≡ values.old.items ++ value.entry ∷ []) }
    ensures memory { IfErr result (IsErrorOf OutOfMemory decoder.now) }
    ensures kind { IfErr result (λ e. IsOutOfMemory e.kind) }
    ensures rules { IfErr result (λ e. e.codec ≡ decoder.now.rule) }
{
    if !M::KEEP {
        return Ok(());
    }
    match values.push(value) {
        Ok(()) => Ok(()),
        Err(_) => Err(out_of_memory(decoder)),
    }
}

/// Returns a number of a fixed width as one of any length.
fn integer_of<I: IntegerType>(alloc: Global, number: &I) -> Result<Integer, AllocError>
    ensures { IfOk result (λ n. n ≡ I.number number.now) }
{
    let mut room = [0; LONGEST_NUMBER];
    match Integer::from_octets(alloc, number.octets(&mut room))? {
        Some(number) => Ok(number),
        None => unreachable!(),
    }
}

/// Returns the error that a string has another size.
fn wrong_size(decoder: &Decoder<'_>, size: usize, expected: Bounded<usize>) -> DecodeError
    ensures { IsErrorOf (SizeConstraintNotSatisfied size expected) decoder.now result }
{
    DecodeError {
        kind: DecodeErrorKind::SizeConstraintNotSatisfied {
            size: Some(size),
            expected,
        },
        codec: decoder.codec(),
    }
}

/// Reads an INTEGER that an `I` holds.
#[inline(always)]
fn decode_fixed_width<'input, I: IntegerType + Decode>(
    decoder: &mut Decoder<'input>,
    tag: Tag,
    constraints: &Constraints,
) -> Result<Value<'input>, DecodeError>
    ensures reads { Decodes (leaf (integer I.range) tag constraints.now) tree_of decoder.old result decoder.new }
    ensures fits { IfOk result (λ v. IsNumberIn I.range v) }
    ensures fails { IfErr result (λ e. RunsOutOr (integer_errors I.takes_memory I.WIDTH I.range tag constraints.now) decoder.old e decoder.new) }
    ensures rules { IfErr result (λ e. e.codec ≡ decoder.old.rule) }
{
    let number = decoder.decode_integer::<I>(tag, constraints)?;
    match integer_of(decoder.alloc(), &number) {
        Ok(number) => Ok(Value::Integer(number)),
        Err(_) => Err(out_of_memory(decoder)),
    }
}

/// Reads an OCTET STRING of so many octets.
fn decode_fixed_octets<'input>(
    decoder: &mut Decoder<'input>,
    len: usize,
    tag: Tag,
    constraints: &Constraints,
) -> Result<Value<'input>, DecodeError>
    ensures reads { Decodes (leaf (fixed len) tag constraints.now) tree_of decoder.old result decoder.new }
    ensures fails { IfErr result (λ e. FailsAtFixed len tag constraints.now decoder.old e decoder.new) }
    ensures fits { IfOk result (λ v. FitsLeaf (FixedKind len) v) }
    ensures rules { IfErr result (λ e. e.codec ≡ decoder.old.rule) }
{
    let octets = decoder.decode_octet_string(tag, &Constraints::NONE)?;
    if octets.len() != len {
        return Err(wrong_size(decoder, octets.len(), Bounded::Single(len)));
    }
    if constraints.admits_size(len) {
        Ok(Value::Octets(octets))
    } else {
        Err(wrong_size(decoder, len, constraints.size_bounds()))
    }
}

/// Reads a string whose characters are octets of an alphabet.
#[inline(always)]
fn decode_string<'input>(
    decoder: &mut Decoder<'input>,
    alphabet: Alphabet,
    tag: Tag,
    constraints: &Constraints,
) -> Result<Value<'input>, DecodeError>
    ensures reads { Decodes (leaf (string_kind alphabet) tag constraints.now) tree_of decoder.old result decoder.new }
    ensures fits { IfOk result (λ v. IsStringOf alphabet v) }
    ensures fails { IfErr result (λ e. string_errors (ByAlphabet alphabet constraints.now.size) tag decoder.old e decoder.new) }
    ensures rules { IfErr result (λ e. e.codec ≡ decoder.old.rule) }
{
    let octets = decoder.decode_restricted_string(alphabet, tag, constraints)?;
    Ok(Value::Octets(octets))
}

/// Reads a UTCTime, as an instant with no offset.
#[inline(always)]
fn decode_utc_time<'input>(
    decoder: &mut Decoder<'input>,
    tag: Tag,
    constraints: &Constraints,
) -> Result<Value<'input>, DecodeError>
    ensures reads { Decodes (leaf utc_time tag constraints.now) tree_of decoder.old result decoder.new }
    ensures fits { IfOk result (λ v. FitsLeaf UtcTimeKind v) }
    ensures offset { IfOk result (λ v. KeepsOffset UtcTimeKind tag decoder.old v decoder.new) }
    ensures fails { IfErr result (λ e. errors_of (DecodesTime (AtAnyOffset (UtcText decoder.old.rule)) tag) decoder.old e decoder.new) }
    ensures rules { IfErr result (λ e. e.codec ≡ decoder.old.rule) }
{
    let time = UtcTime::decode_with_tag_and_constraints(decoder, tag, constraints)?;
    match GeneralizedTime::new(time, 0) {
        Some(time) => Ok(Value::Instant(time)),
        None => unreachable!(),
    }
}

/// Returns the error that octets mean nothing of a kind.
fn not_converted(decoder: &Decoder<'_>, kind: LeafKind) -> DecodeError
    ensures { IsErrorOf (StringConversionFailed (in_universal (names_of kind).number)) decoder.now result }
{
    DecodeError {
        kind: DecodeErrorKind::StringConversionFailed {
            tag: Tag {
                class: Class::Universal,
                value: kind.names().number,
            },
        },
        codec: decoder.codec(),
    }
}

/// Reads a UniversalString, four octets a character (X.690 8.23.7).
fn decode_universal<'input>(
    decoder: &mut Decoder<'input>,
    tag: Tag,
    constraints: &Constraints,
) -> Result<Value<'input>, DecodeError>
    ensures reads { Decodes (leaf universal tag constraints.now) tree_of decoder.old result decoder.new }
    ensures fits { IfOk result (λ v. FitsLeaf UniversalKind v) }
    ensures fails { IfErr result (λ e. RunsOutOr (string_errors (ByQuads constraints.now.size) tag) decoder.old e decoder.new) }
    ensures rules { IfErr result (λ e. e.codec ≡ decoder.old.rule) }
{
    let octets = decoder.decode_octet_string(tag, &Constraints::NONE)?;
    let text = match universal_text(decoder.alloc(), octets.as_slice()) {
        Ok(Some(text)) => text,
        Ok(None) => return Err(not_converted(decoder, LeafKind::Universal)),
        Err(_) => return Err(out_of_memory(decoder)),
    };
    let size = octets.len() / 4;
    if constraints.admits_size(size) {
        Ok(Value::Text(CowStr::Owned(text)))
    } else {
        Err(wrong_size(decoder, size, constraints.size_bounds()))
    }
}

/// Reads a REAL. Its value has the octets of canonical rules, under which there are no others (X.690
/// 8.5, 11.3).
fn decode_real<'input>(
    decoder: &mut Decoder<'input>,
    tag: Tag,
) -> Result<Value<'input>, DecodeError>
    ensures reads { Decodes (leaf real tag unconstrained) tree_of decoder.old result decoder.new }
    ensures fits { IfOk result (λ v. FitsLeaf RealKind v) }
    ensures fails { IfErr result (λ e. RunsOutOr (contents_errors IsAnyReal 9 tag) decoder.old e decoder.new) }
    ensures rules { IfErr result (λ e. e.codec ≡ decoder.old.rule) }
{
    let contents = decoder.contents(tag)?;
    if is_canonical_real(contents) {
        return Ok(Value::Octets(CowSlice::Borrowed(contents)));
    }
    let Codec::Ber = decoder.codec() else {
        return Err(not_converted(decoder, LeafKind::Real));
    };
    match canonical_real(decoder.alloc(), contents) {
        Ok(Some(canonical)) => Ok(Value::Octets(CowSlice::Owned(canonical))),
        Ok(None) => Err(not_converted(decoder, LeafKind::Real)),
        Err(_) => Err(out_of_memory(decoder)),
    }
}

/// Reads the characters of a time (X.690 8.26).
fn decode_time_text<'input>(
    decoder: &mut Decoder<'input>,
    kind: LeafKind,
    tag: Tag,
) -> Result<Value<'input>, DecodeError>
    requires { kind_of kind ≡ time_text }
    ensures reads { Decodes (leaf time_text tag unconstrained) tree_of decoder.old result decoder.new }
    ensures fits { IfOk result (λ v. FitsLeaf kind v) }
    ensures fails { IfErr result (λ e. contents_errors (λ rule. IsTimeText) (names_of kind).number tag decoder.old e decoder.new) }
    ensures rules { IfErr result (λ e. e.codec ≡ decoder.old.rule) }
{
    let contents = decoder.contents(tag)?;
    if is_time_text(contents) {
        Ok(Value::Octets(CowSlice::Borrowed(contents)))
    } else {
        Err(not_converted(decoder, kind))
    }
}

/// Reads the digits of a time, of which there are so many (X.690 8.26).
fn decode_time_digits<'input>(
    decoder: &mut Decoder<'input>,
    kind: LeafKind,
    count: usize,
    tag: Tag,
) -> Result<Value<'input>, DecodeError>
    requires { kind_of kind ≡ time_digits count }
    ensures reads { Decodes (leaf (time_digits count) tag unconstrained) tree_of decoder.old result decoder.new }
    ensures fits { IfOk result (λ v. FitsLeaf kind v) }
    ensures fails { IfErr result (λ e. contents_errors (λ rule. AreTimeDigits count) (names_of kind).number tag decoder.old e decoder.new) }
    ensures rules { IfErr result (λ e. e.codec ≡ decoder.old.rule) }
{
    let contents = decoder.contents(tag)?;
    if are_time_digits(count, contents) {
        Ok(Value::Octets(CowSlice::Borrowed(contents)))
    } else {
        Err(not_converted(decoder, kind))
    }
}

/// Reads a value that holds no other values.
fn decode_leaf<'input>(
    decoder: &mut Decoder<'input>,
    kind: LeafKind,
    tag: Tag,
    bounds: &Constraints,
) -> Result<Value<'input>, DecodeError>
    ensures reads { Decodes (leaf (kind_of kind) tag bounds.now) tree_of decoder.old result decoder.new }
    ensures fits { IfOk result (λ v. FitsLeaf kind v) }
    ensures offset { IfOk result (λ v. KeepsOffset kind tag decoder.old v decoder.new) }
    ensures fails { IfErr result (λ e. leaf_errors kind tag bounds.now decoder.old e decoder.new) }
    ensures rules { IfErr result (λ e. e.codec ≡ decoder.old.rule) }
{
    match kind {
        LeafKind::Boolean => Ok(Value::Boolean(bool::decode_with_tag_and_constraints(
            decoder, tag, bounds,
        )?)),
        LeafKind::Null => {
            <()>::decode_with_tag_and_constraints(decoder, tag, bounds)?;
            Ok(Value::Null)
        }
        LeafKind::ObjectIdentifier => Ok(Value::Arcs(
            ObjectIdentifier::decode_with_tag_and_constraints(decoder, tag, bounds)?,
        )),
        LeafKind::BitString => Ok(Value::Bits(decoder.decode_bits(tag, bounds)?)),
        LeafKind::NamedBits => Ok(Value::Bits(decoder.decode_significant_bits(tag, bounds)?)),
        LeafKind::OctetString => Ok(Value::Octets(decoder.decode_octet_string(tag, bounds)?)),
        LeafKind::FixedOctetString(len) => decode_fixed_octets(decoder, len, tag, bounds),
        LeafKind::Integer => Ok(Value::Integer(Integer::decode_with_tag_and_constraints(
            decoder, tag, bounds,
        )?)),
        LeafKind::Signed32 => decode_fixed_width::<i32>(decoder, tag, bounds),
        LeafKind::Signed64 => decode_fixed_width::<i64>(decoder, tag, bounds),
        LeafKind::Unsigned32 => decode_fixed_width::<u32>(decoder, tag, bounds),
        LeafKind::Unsigned64 => decode_fixed_width::<u64>(decoder, tag, bounds),
        LeafKind::Numeric => decode_string(decoder, Alphabet::Numeric, tag, bounds),
        LeafKind::Printable => decode_string(decoder, Alphabet::Printable, tag, bounds),
        LeafKind::Visible => decode_string(decoder, Alphabet::Visible, tag, bounds),
        LeafKind::Ia5 => decode_string(decoder, Alphabet::Ia5, tag, bounds),
        LeafKind::AnyOctets => decode_string(decoder, Alphabet::Every, tag, bounds),
        LeafKind::Bmp => Ok(Value::Units(decoder.decode_bmp_string(tag, bounds)?)),
        LeafKind::Utf8 => Ok(Value::Text(decoder.decode_utf8_text(tag, bounds)?)),
        LeafKind::UtcTime => decode_utc_time(decoder, tag, bounds),
        LeafKind::GeneralizedTime => Ok(Value::Instant(
            GeneralizedTime::decode_with_tag_and_constraints(decoder, tag, bounds)?,
        )),
        LeafKind::Date => Ok(Value::Day(Date::decode_with_tag_and_constraints(
            decoder, tag, bounds,
        )?)),
        LeafKind::Universal => decode_universal(decoder, tag, bounds),
        LeafKind::RelativeOid => Ok(Value::Arcs(ObjectIdentifier::decode_with_tag_and_constraints(
            decoder, tag, bounds,
        )?)),
        LeafKind::Real => decode_real(decoder, tag),
        LeafKind::Time => decode_time_text(decoder, LeafKind::Time, tag),
        LeafKind::Duration => decode_time_text(decoder, LeafKind::Duration, tag),
        LeafKind::TimeOfDay => decode_time_digits(decoder, LeafKind::TimeOfDay, 6, tag),
        LeafKind::DateTime => decode_time_digits(decoder, LeafKind::DateTime, 14, tag),
    }
}

/// Checks an OBJECT IDENTIFIER, which no constraint bounds.
#[inline(never)]
fn check_arcs(decoder: &mut Decoder<'_>, error: &mut DecodeError, tag: Tag) -> Result<(), Refused>
    ensures reads { Checks (leaf object_identifier tag unconstrained) decoder.old (reported result error.new) decoder.new }
    ensures fails { IfErr (reported result error.new) (λ e. errors_of (DecodesObjectIdentifier tag) decoder.old e decoder.new) }
    ensures rules { IfErr (reported result error.new) (λ e. e.codec ≡ decoder.old.rule) }
{
    match decoder.check_object_identifier(tag) {
        Ok(()) => Ok(()),
        Err(fault) => {
            *error = fault;
            Err(Refused)
        }
    }
}

/// Checks an INTEGER of any length.
#[inline(never)]
fn check_integer(
    decoder: &mut Decoder<'_>,
    error: &mut DecodeError,
    tag: Tag,
    bounds: &Constraints,
) -> Result<(), Refused>
    ensures reads { Checks (leaf (integer every) tag bounds.now) decoder.old (reported result error.new) decoder.new }
    ensures fails { IfErr (reported result error.new) (λ e. integer_errors (λ z. ⊥) 0 every tag bounds.now decoder.old e decoder.new) }
    ensures rules { IfErr (reported result error.new) (λ e. e.codec ≡ decoder.old.rule) }
{
    match decoder.check_integer(tag, bounds) {
        Ok(()) => Ok(()),
        Err(fault) => {
            *error = fault;
            Err(Refused)
        }
    }
}

/// Checks a BIT STRING.
#[inline(never)]
fn check_bits(
    decoder: &mut Decoder<'_>,
    error: &mut DecodeError,
    tag: Tag,
    bounds: &Constraints,
) -> Result<(), Refused>
    ensures reads { Checks (leaf bit_string tag bounds.now) decoder.old (reported result error.new) decoder.new }
    ensures fails { IfErr (reported result error.new) (λ e. errors_of (DecodesBitString tag bounds.now) decoder.old e decoder.new) }
    ensures rules { IfErr (reported result error.new) (λ e. e.codec ≡ decoder.old.rule) }
{
    match decoder.check_bit_string(tag, bounds) {
        Ok(()) => Ok(()),
        Err(fault) => {
            *error = fault;
            Err(Refused)
        }
    }
}

/// Checks a BIT STRING whose bits have names.
#[inline(never)]
fn check_named_bits(
    decoder: &mut Decoder<'_>,
    error: &mut DecodeError,
    tag: Tag,
    bounds: &Constraints,
) -> Result<(), Refused>
    ensures reads { Checks (leaf named_bits tag bounds.now) decoder.old (reported result error.new) decoder.new }
    ensures fails { IfErr (reported result error.new) (λ e. errors_of (DecodesNamedBits tag bounds.now) decoder.old e decoder.new) }
    ensures rules { IfErr (reported result error.new) (λ e. e.codec ≡ decoder.old.rule) }
{
    match decoder.check_named_bits(tag, bounds) {
        Ok(()) => Ok(()),
        Err(fault) => {
            *error = fault;
            Err(Refused)
        }
    }
}

/// Checks an OCTET STRING.
#[inline(never)]
fn check_octets(
    decoder: &mut Decoder<'_>,
    error: &mut DecodeError,
    tag: Tag,
    bounds: &Constraints,
) -> Result<(), Refused>
    ensures reads { Checks (leaf octet_string tag bounds.now) decoder.old (reported result error.new) decoder.new }
    ensures fails { IfErr (reported result error.new) (λ e. string_errors (BySize bounds.now.size) tag decoder.old e decoder.new) }
    ensures rules { IfErr (reported result error.new) (λ e. e.codec ≡ decoder.old.rule) }
{
    match decoder.check_octet_string(tag, bounds) {
        Ok(()) => Ok(()),
        Err(fault) => {
            *error = fault;
            Err(Refused)
        }
    }
}

/// Checks an OCTET STRING of so many octets.
#[inline(never)]
fn check_fixed_octets(
    decoder: &mut Decoder<'_>,
    error: &mut DecodeError,
    len: usize,
    tag: Tag,
    bounds: &Constraints,
) -> Result<(), Refused>
    ensures reads { Checks (leaf (fixed len) tag bounds.now) decoder.old (reported result error.new) decoder.new }
    ensures fails { IfErr (reported result error.new) (λ e. string_errors (ByLength len bounds.now.size) tag decoder.old e decoder.new) }
    ensures rules { IfErr (reported result error.new) (λ e. e.codec ≡ decoder.old.rule) }
{
    match decoder.check_fixed_octet_string(len, tag, bounds) {
        Ok(()) => Ok(()),
        Err(fault) => {
            *error = fault;
            Err(Refused)
        }
    }
}

/// Checks a string whose characters are octets of an alphabet.
#[inline(never)]
fn check_string(
    decoder: &mut Decoder<'_>,
    error: &mut DecodeError,
    alphabet: Alphabet,
    tag: Tag,
    bounds: &Constraints,
) -> Result<(), Refused>
    ensures reads { Checks (leaf (string_kind alphabet) tag bounds.now) decoder.old (reported result error.new) decoder.new }
    ensures fails { IfErr (reported result error.new) (λ e. string_errors (ByAlphabet alphabet bounds.now.size) tag decoder.old e decoder.new) }
    ensures rules { IfErr (reported result error.new) (λ e. e.codec ≡ decoder.old.rule) }
{
    match decoder.check_restricted_string(alphabet, tag, bounds) {
        Ok(()) => Ok(()),
        Err(fault) => {
            *error = fault;
            Err(Refused)
        }
    }
}

/// Checks a BMPString.
#[inline(never)]
fn check_bmp(
    decoder: &mut Decoder<'_>,
    error: &mut DecodeError,
    tag: Tag,
    bounds: &Constraints,
) -> Result<(), Refused>
    ensures reads { Checks (leaf bmp tag bounds.now) decoder.old (reported result error.new) decoder.new }
    ensures fails { IfErr (reported result error.new) (λ e. string_errors (ByUnits bounds.now.size) tag decoder.old e decoder.new) }
    ensures rules { IfErr (reported result error.new) (λ e. e.codec ≡ decoder.old.rule) }
{
    match decoder.check_bmp_string(tag, bounds) {
        Ok(()) => Ok(()),
        Err(fault) => {
            *error = fault;
            Err(Refused)
        }
    }
}

/// Checks a UTF8String.
#[inline(never)]
fn check_text(
    decoder: &mut Decoder<'_>,
    error: &mut DecodeError,
    tag: Tag,
    bounds: &Constraints,
) -> Result<(), Refused>
    ensures reads { Checks (leaf utf8 tag bounds.now) decoder.old (reported result error.new) decoder.new }
    ensures fails { IfErr (reported result error.new) (λ e. string_errors (ByUtf8 bounds.now.size) tag decoder.old e decoder.new) }
    ensures rules { IfErr (reported result error.new) (λ e. e.codec ≡ decoder.old.rule) }
{
    match decoder.check_utf8_string(tag, bounds) {
        Ok(()) => Ok(()),
        Err(fault) => {
            *error = fault;
            Err(Refused)
        }
    }
}

/// Checks a UTCTime, which no constraint bounds.
#[inline(never)]
fn check_utc_time(
    decoder: &mut Decoder<'_>,
    error: &mut DecodeError,
    tag: Tag,
    bounds: &Constraints,
) -> Result<(), Refused>
    ensures reads { Checks (leaf utc_time tag bounds.now) decoder.old (reported result error.new) decoder.new }
    ensures fails { IfErr (reported result error.new) (λ e. errors_of (DecodesTime (AtAnyOffset (UtcText decoder.old.rule)) tag) decoder.old e decoder.new) }
    ensures rules { IfErr (reported result error.new) (λ e. e.codec ≡ decoder.old.rule) }
{
    match decoder.check_utc_time(tag) {
        Ok(()) => Ok(()),
        Err(fault) => {
            *error = fault;
            Err(Refused)
        }
    }
}

/// Checks a GeneralizedTime, which no constraint bounds.
#[inline(never)]
fn check_generalized_time(
    decoder: &mut Decoder<'_>,
    error: &mut DecodeError,
    tag: Tag,
    bounds: &Constraints,
) -> Result<(), Refused>
    ensures reads { Checks (leaf generalized_time tag bounds.now) decoder.old (reported result error.new) decoder.new }
    ensures fails { IfErr (reported result error.new) (λ e. errors_of (DecodesTime (GeneralizedText decoder.old.rule) tag) decoder.old e decoder.new) }
    ensures rules { IfErr (reported result error.new) (λ e. e.codec ≡ decoder.old.rule) }
{
    match decoder.check_generalized_time(tag) {
        Ok(()) => Ok(()),
        Err(fault) => {
            *error = fault;
            Err(Refused)
        }
    }
}

/// Checks a DATE, which no constraint bounds.
#[inline(never)]
fn check_date(
    decoder: &mut Decoder<'_>,
    error: &mut DecodeError,
    tag: Tag,
    bounds: &Constraints,
) -> Result<(), Refused>
    ensures reads { Checks (leaf date tag bounds.now) decoder.old (reported result error.new) decoder.new }
    ensures fails { IfErr (reported result error.new) (λ e. errors_of (DecodesTime DateText tag) decoder.old e decoder.new) }
    ensures rules { IfErr (reported result error.new) (λ e. e.codec ≡ decoder.old.rule) }
{
    match decoder.check_date(tag) {
        Ok(()) => Ok(()),
        Err(fault) => {
            *error = fault;
            Err(Refused)
        }
    }
}

/// Checks a value by making it.
#[inline(never)]
fn check_by_value(
    decoder: &mut Decoder<'_>,
    error: &mut DecodeError,
    kind: LeafKind,
    tag: Tag,
    bounds: &Constraints,
) -> Result<(), Refused>
    ensures reads { Checks (leaf (kind_of kind) tag bounds.now) decoder.old (reported result error.new) decoder.new }
    ensures fails { IfErr (reported result error.new) (λ e. leaf_errors kind tag bounds.now decoder.old e decoder.new) }
    ensures rules { IfErr (reported result error.new) (λ e. e.codec ≡ decoder.old.rule) }
{
    match decode_leaf(decoder, kind, tag, bounds) {
        Ok(value) => {
            drop(value);
            Ok(())
        }
        Err(fault) => {
            *error = fault;
            Err(Refused)
        }
    }
}

/// Checks a value that holds no other values. Nothing is allocated, except for a time in segments
/// that is longer than 32 octets, for the copy of a text that is no time, in its error, for a
/// UniversalString, and for a REAL in other octets than canonical rules have.
///
/// # Errors
/// As [`decode_leaf`], except `OutOfMemory` for the value.
#[inline(always)]
fn check_leaf(
    decoder: &mut Decoder<'_>,
    error: &mut DecodeError,
    kind: LeafKind,
    tag: Tag,
    bounds: &Constraints,
) -> Result<(), Refused>
    ensures reads { Checks (leaf (kind_of kind) tag bounds.now) decoder.old (reported result error.new) decoder.new }
    ensures fails { IfErr (reported result error.new) (λ e. leaf_errors kind tag bounds.now decoder.old e decoder.new) }
    ensures rules { IfErr (reported result error.new) (λ e. e.codec ≡ decoder.old.rule) }
{
    match kind {
        LeafKind::ObjectIdentifier => check_arcs(decoder, error, tag),
        LeafKind::RelativeOid => check_arcs(decoder, error, tag),
        LeafKind::Integer => check_integer(decoder, error, tag, bounds),
        LeafKind::BitString => check_bits(decoder, error, tag, bounds),
        LeafKind::NamedBits => check_named_bits(decoder, error, tag, bounds),
        LeafKind::OctetString => check_octets(decoder, error, tag, bounds),
        LeafKind::FixedOctetString(len) => check_fixed_octets(decoder, error, len, tag, bounds),
        LeafKind::Numeric => check_string(decoder, error, Alphabet::Numeric, tag, bounds),
        LeafKind::Printable => check_string(decoder, error, Alphabet::Printable, tag, bounds),
        LeafKind::Visible => check_string(decoder, error, Alphabet::Visible, tag, bounds),
        LeafKind::Ia5 => check_string(decoder, error, Alphabet::Ia5, tag, bounds),
        LeafKind::AnyOctets => check_string(decoder, error, Alphabet::Every, tag, bounds),
        LeafKind::Bmp => check_bmp(decoder, error, tag, bounds),
        LeafKind::Utf8 => check_text(decoder, error, tag, bounds),
        LeafKind::UtcTime => check_utc_time(decoder, error, tag, bounds),
        LeafKind::GeneralizedTime => check_generalized_time(decoder, error, tag, bounds),
        LeafKind::Date => check_date(decoder, error, tag, bounds),
        _ => check_by_value(decoder, error, kind, tag, bounds),
    }
}

/// Reads a BOOLEAN, and makes its value.
#[inline(never)]
fn make_boolean<'input>(
    decoder: &mut Decoder<'input>,
    error: &mut DecodeError,
    tag: Tag,
    bounds: &Constraints,
    out: &mut Value<'input>,
) -> Result<(), Refused>
    ensures reads { Decodes (leaf boolean tag bounds.now) tree_of decoder.old (outcome result out.new error.new) decoder.new }
    ensures fits { IfOk (outcome result out.new error.new) (λ v. FitsLeaf BooleanKind v) }
    ensures fails { IfErr (outcome result out.new error.new) (λ e. FailsAs (BoolAt decoder.old.rule tag decoder.old.rest) decoder.old e decoder.new) }
    ensures rules { IfErr (outcome result out.new error.new) (λ e. e.codec ≡ decoder.old.rule) }
{
    match bool::decode_with_tag_and_constraints(decoder, tag, bounds) {
        Ok(value) => {
            *out = Value::Boolean(value);
            Ok(())
        }
        Err(fault) => {
            *error = fault;
            Err(Refused)
        }
    }
}

/// Reads a value that holds no other values, and makes it.
#[inline(never)]
fn make_leaf<'input>(
    decoder: &mut Decoder<'input>,
    error: &mut DecodeError,
    kind: LeafKind,
    tag: Tag,
    bounds: &Constraints,
    out: &mut Value<'input>,
) -> Result<(), Refused>
    ensures reads { Decodes (leaf (kind_of kind) tag bounds.now) tree_of decoder.old (outcome result out.new error.new) decoder.new }
    ensures fits { IfOk (outcome result out.new error.new) (λ v. FitsLeaf kind v) }
    ensures offset { IfOk (outcome result out.new error.new) (λ v. KeepsOffset kind tag decoder.old v decoder.new) }
    ensures fails { IfErr (outcome result out.new error.new) (λ e. leaf_errors kind tag bounds.now decoder.old e decoder.new) }
    ensures rules { IfErr (outcome result out.new error.new) (λ e. e.codec ≡ decoder.old.rule) }
{
    if let LeafKind::Boolean = kind {
        return make_boolean(decoder, error, tag, bounds, out);
    }
    match decode_leaf(decoder, kind, tag, bounds) {
        Ok(value) => {
            *out = value;
            Ok(())
        }
        Err(fault) => {
            *error = fault;
            Err(Refused)
        }
    }
}

/// Reads a value that holds no other values, where values are kept; else checks it.
#[tactic(auto, using(crate::proofs::Making::made_of_value))]
#[inline(always)]
pub fn put_leaf<'input, M: Made>(
    decoder: &mut Decoder<'input>,
    error: &mut DecodeError,
    kind: LeafKind,
    tag: Tag,
    bounds: &Constraints,
    out: &mut Value<'input>,
) -> Result<(), Refused>
    ensures reads { Making M.KEEP tree_of (DecodesTree (leaf (kind_of kind) tag bounds.now)) decoder.old (outcome result out.new error.new) decoder.new }
    ensures fits { M.KEEP ≡ true → IfOk (outcome result out.new error.new) (λ v. FitsLeaf kind v) }
    ensures offset { M.KEEP ≡ true → IfOk (outcome result out.new error.new) (λ v. KeepsOffset kind tag decoder.old v decoder.new) }
    ensures fails { IfErr (outcome result out.new error.new) (λ e. leaf_errors kind tag bounds.now decoder.old e decoder.new) }
    ensures rules { IfErr (outcome result out.new error.new) (λ e. e.codec ≡ decoder.old.rule) }
{
    if M::KEEP {
        return make_leaf(decoder, error, kind, tag, bounds, out);
    }
    check_leaf(decoder, error, kind, tag, bounds)
}

fn has_number(named: &NamedNumber, number: &isize) -> bool
    ensures { IsWhether result (named.now.number ≡ number.now) }
{
    named.number == *number
}

/// Returns whether the number is one of these.
fn is_listed(numbers: &[NamedNumber], number: &isize) -> bool
    ensures { IsWhether result (Contains (numbers_of numbers.now) number.now) }
{
    let mut rest = numbers;
    while let [named, after @ ..] = rest {
        if has_number(named, number) {
            return true;
        }
        rest = after;
    }
    false
}

fn number_of(named: &NamedNumber) -> isize
    ensures { result ≡ named.now.number }
{
    named.number
}

/// Looks at each number, which tells a proof that 64 bits hold it.
fn see_numbers(numbers: &[NamedNumber])
    ensures { fit_isize (numbers_of numbers.now) ≡ true }
{
    let mut rest = numbers;
    while let [named, after @ ..] = rest {
        let _ = number_of(named);
        rest = after;
    }
}

/// Reads an ENUMERATED with these numbers (X.690 8.4).
pub fn decode_number<'input>(
    decoder: &mut Decoder<'input>,
    tag: Tag,
    numbers: &[NamedNumber],
) -> Result<Value<'input>, DecodeError>
    ensures reads { Decodes (leaf (enumerated (numbers_of numbers.now)) tag unconstrained) tree_of decoder.old result decoder.new }
    ensures fails { IfErr result (λ e. FailsAtNumber (numbers_of numbers.now) tag decoder.old e decoder.new) }
    ensures fits { IfOk result (λ v. IsNumber (numbers_of numbers.now) v) }
    ensures rules { IfErr result (λ e. e.codec ≡ decoder.old.rule) }
{
    let discriminant = match decoder.decode_integer::<isize>(tag, &Constraints::NONE) {
        Ok(discriminant) => discriminant,
        Err(error) => {
            see_numbers(numbers);
            return Err(error);
        }
    };
    if !is_listed(numbers, &discriminant) {
        see_numbers(numbers);
        return Err(DecodeError {
            kind: DecodeErrorKind::DiscriminantValueNotFound { discriminant },
            codec: decoder.codec(),
        });
    }
    match integer_of(decoder.alloc(), &discriminant) {
        Ok(number) => Ok(Value::Integer(number)),
        Err(_) => Err(out_of_memory(decoder)),
    }
}

/// Reads a value of an open type.
#[inline(always)]
pub fn decode_any_value<'input>(
    decoder: &mut Decoder<'input>,
    tag: Tag,
) -> Result<Value<'input>, DecodeError>
    ensures reads { Decodes (any (looked_for tag)) tree_of decoder.old result decoder.new }
    ensures fits { IfOk result AreOctets }
    ensures fails { IfErr result (λ e. errors_of (BorrowsOpenType tag) decoder.old e decoder.new) }
    ensures rules { IfErr result (λ e. e.codec ≡ decoder.old.rule) }
{
    let octets = decoder.decode_open(tag)?;
    Ok(Value::Octets(CowSlice::Borrowed(octets)))
}

/// Reads all values up to the end of the contents, each as one complete encoding (X.680 25). They
/// are kept where values are.
///
/// # Errors
/// The error of the first value that can't be read: the values before it are consumed. Otherwise
/// only `OutOfMemory`.
pub fn decode_unknown_values<'input, M: Made>(
    decoder: &mut Decoder<'input>,
) -> Result<Value<'input>, DecodeError>
    ensures reads { Making M.KEEP tree_of (DecodesTree unknown) decoder.old result decoder.new }
    ensures fits { M.KEEP ≡ true → IfOk result (AreItems (EachFits AreOctets)) }
    ensures fails { IfErr result (λ e. RunsOutOr unknown_errors decoder.old e decoder.new) }
    ensures rules { IfErr result (λ e. e.codec ≡ decoder.old.rule) }
{
    let mut values = Vec::new(decoder.alloc());
    while !decoder.has_ended() {
        let value = decode_any_value(decoder, Tag::EOC)?;
        push::<M>(decoder, &mut values, value)?;
    }
    Ok(Value::Items(values))
}

/// Reads an ENUMERATED with these numbers, and keeps it where values are kept.
#[inline(never)]
pub fn put_number<'input, M: Made>(
    decoder: &mut Decoder<'input>,
    error: &mut DecodeError,
    tag: Tag,
    numbers: &[NamedNumber],
    out: &mut Value<'input>,
) -> Result<(), Refused>
    ensures reads { Making M.KEEP tree_of (DecodesTree (leaf (enumerated (numbers_of numbers.now)) tag unconstrained)) decoder.old (outcome result out.new error.new) decoder.new }
    ensures fits { M.KEEP ≡ true → IfOk (outcome result out.new error.new) (λ v. IsNumber (numbers_of numbers.now) v) }
    ensures fails { IfErr (outcome result out.new error.new) (λ e. FailsAtNumber (numbers_of numbers.now) tag decoder.old e decoder.new) }
    ensures rules { IfErr (outcome result out.new error.new) (λ e. e.codec ≡ decoder.old.rule) }
{
    match decode_number(decoder, tag, numbers) {
        Ok(value) => {
            if M::KEEP {
                *out = value;
            }
            Ok(())
        }
        Err(fault) => {
            *error = fault;
            Err(Refused)
        }
    }
}

/// Reads a value of an open type, and keeps it where values are kept.
#[inline(never)]
pub fn put_any<'input, M: Made>(
    decoder: &mut Decoder<'input>,
    error: &mut DecodeError,
    tag: Tag,
    out: &mut Value<'input>,
) -> Result<(), Refused>
    ensures reads { Making M.KEEP tree_of (DecodesTree (any (looked_for tag))) decoder.old (outcome result out.new error.new) decoder.new }
    ensures fits { M.KEEP ≡ true → IfOk (outcome result out.new error.new) AreOctets }
    ensures fails { IfErr (outcome result out.new error.new) (λ e. errors_of (BorrowsOpenType tag) decoder.old e decoder.new) }
    ensures rules { IfErr (outcome result out.new error.new) (λ e. e.codec ≡ decoder.old.rule) }
{
    match decode_any_value(decoder, tag) {
        Ok(value) => {
            if M::KEEP {
                *out = value;
            }
            Ok(())
        }
        Err(fault) => {
            *error = fault;
            Err(Refused)
        }
    }
}

/// Reads unknown values, and keeps them where values are kept.
#[inline(never)]
pub fn put_unknown<'input, M: Made>(
    decoder: &mut Decoder<'input>,
    error: &mut DecodeError,
    out: &mut Value<'input>,
) -> Result<(), Refused>
    ensures reads { Making M.KEEP tree_of (DecodesTree unknown) decoder.old (outcome result out.new error.new) decoder.new }
    ensures fits { M.KEEP ≡ true → IfOk (outcome result out.new error.new) (AreItems (EachFits AreOctets)) }
    ensures fails { IfErr (outcome result out.new error.new) (λ e. RunsOutOr unknown_errors decoder.old e decoder.new) }
    ensures rules { IfErr (outcome result out.new error.new) (λ e. e.codec ≡ decoder.old.rule) }
{
    *out = kept(decode_unknown_values::<M>(decoder), error)?;
    Ok(())
}
