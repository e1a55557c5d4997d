//! Types whose `==` is determined by what their values mean.
use crate::types::{
    AsnType, BitString, BmpString, Date, Enumerated, Explicit, Extensible, FixedOctetString,
    GeneralizedTime, Implicit, Integer, NamedBits, ObjectIdentifier, OctetString, RestrictedString,
    StringType, UtcTime,
};

/// A type whose values are equal exactly if they mean the same.
///
/// In contracts, `==` decides whether trees are the same. If a type derives `PartialEq` and its
/// tree has its fields in their order, the law follows from those of its fields.
pub trait LawfulEq: AsnType + PartialEq {
    ghost use Rattle.rasn_types.specs.Equality.{DecidesSame, EqDecidesSame};

    ghost decides: { EqDecidesSame Self.eq Self.tree };

    /// Returns whether the two values mean the same, as `==` does.
    final fn means_same(&self, other: &Self) -> bool
        ensures { DecidesSame result (Self.tree self.now) (Self.tree other.now) }
    {
        self == other
    }
}

/// A type without an absent value. `Option` has one: `None`.
pub trait Present: AsnType {
    ghost use Rattle.rasn_types.specs.Equality.{AreNeverAbsent};

    ghost present: { AreNeverAbsent Self.tree };
}

impl LawfulEq for bool {
    ghost use Rattle.rasn_types.specs.Equality.{bool_decided};

    ghost decides = { bool_decided };
}

impl Present for bool {
    ghost use Rattle.rasn_types.specs.Equality.{bool_not_absent};

    ghost present = { bool_not_absent };
}

impl LawfulEq for i8 {
    ghost use Rattle.rasn_types.specs.Equality.{signed_decided};

    ghost decides = { signed_decided };
}

impl Present for i8 {
    ghost use Rattle.rasn_types.specs.Equality.{number_not_absent};

    ghost present = { number_not_absent };
}

impl LawfulEq for i16 {
    ghost use Rattle.rasn_types.specs.Equality.{signed_decided};

    ghost decides = { signed_decided };
}

impl Present for i16 {
    ghost use Rattle.rasn_types.specs.Equality.{number_not_absent};

    ghost present = { number_not_absent };
}

impl LawfulEq for i32 {
    ghost use Rattle.rasn_types.specs.Equality.{signed_decided};

    ghost decides = { signed_decided };
}

impl Present for i32 {
    ghost use Rattle.rasn_types.specs.Equality.{number_not_absent};

    ghost present = { number_not_absent };
}

impl LawfulEq for i64 {
    ghost use Rattle.rasn_types.specs.Equality.{signed_decided};

    ghost decides = { signed_decided };
}

impl Present for i64 {
    ghost use Rattle.rasn_types.specs.Equality.{number_not_absent};

    ghost present = { number_not_absent };
}

impl LawfulEq for i128 {
    ghost use Rattle.rasn_types.specs.Equality.{signed_decided};

    ghost decides = { signed_decided };
}

impl Present for i128 {
    ghost use Rattle.rasn_types.specs.Equality.{number_not_absent};

    ghost present = { number_not_absent };
}

impl LawfulEq for isize {
    ghost use Rattle.rasn_types.specs.Equality.{signed_decided};

    ghost decides = { signed_decided };
}

impl Present for isize {
    ghost use Rattle.rasn_types.specs.Equality.{number_not_absent};

    ghost present = { number_not_absent };
}

impl LawfulEq for u8 {
    ghost use Rattle.std.specs.Prelude.{pos};
    ghost use Rattle.rasn_types.specs.Equality.{unsigned_decided};

    ghost decides = { unsigned_decided };
}

impl Present for u8 {
    ghost use Rattle.std.specs.Prelude.{pos};
    ghost use Rattle.rasn_types.specs.Equality.{number_not_absent};

    ghost present = { λ n. number_not_absent (pos n) };
}

impl LawfulEq for u16 {
    ghost use Rattle.std.specs.Prelude.{pos};
    ghost use Rattle.rasn_types.specs.Equality.{unsigned_decided};

    ghost decides = { unsigned_decided };
}

impl Present for u16 {
    ghost use Rattle.std.specs.Prelude.{pos};
    ghost use Rattle.rasn_types.specs.Equality.{number_not_absent};

    ghost present = { λ n. number_not_absent (pos n) };
}

impl LawfulEq for u32 {
    ghost use Rattle.std.specs.Prelude.{pos};
    ghost use Rattle.rasn_types.specs.Equality.{unsigned_decided};

    ghost decides = { unsigned_decided };
}

impl Present for u32 {
    ghost use Rattle.std.specs.Prelude.{pos};
    ghost use Rattle.rasn_types.specs.Equality.{number_not_absent};

    ghost present = { λ n. number_not_absent (pos n) };
}

impl LawfulEq for u64 {
    ghost use Rattle.std.specs.Prelude.{pos};
    ghost use Rattle.rasn_types.specs.Equality.{unsigned_decided};

    ghost decides = { unsigned_decided };
}

impl Present for u64 {
    ghost use Rattle.std.specs.Prelude.{pos};
    ghost use Rattle.rasn_types.specs.Equality.{number_not_absent};

    ghost present = { λ n. number_not_absent (pos n) };
}

impl LawfulEq for u128 {
    ghost use Rattle.std.specs.Prelude.{pos};
    ghost use Rattle.rasn_types.specs.Equality.{unsigned_decided};

    ghost decides = { unsigned_decided };
}

impl Present for u128 {
    ghost use Rattle.std.specs.Prelude.{pos};
    ghost use Rattle.rasn_types.specs.Equality.{number_not_absent};

    ghost present = { λ n. number_not_absent (pos n) };
}

impl LawfulEq for usize {
    ghost use Rattle.std.specs.Prelude.{pos};
    ghost use Rattle.rasn_types.specs.Equality.{unsigned_decided};

    ghost decides = { unsigned_decided };
}

impl Present for usize {
    ghost use Rattle.std.specs.Prelude.{pos};
    ghost use Rattle.rasn_types.specs.Equality.{number_not_absent};

    ghost present = { λ n. number_not_absent (pos n) };
}

impl LawfulEq for Integer {
    ghost use Rattle.rasn_types.specs.Equality.{signed_decided};

    ghost decides = { signed_decided };
}

impl Present for Integer {
    ghost use Rattle.rasn_types.specs.Equality.{number_not_absent};

    ghost present = { number_not_absent };
}

impl LawfulEq for () {
    ghost use Rattle.std.specs.Prelude.{pos};
    ghost use Rattle.std.specs.Prelude.{pos};
    ghost use Rattle.rasn_types.specs.Equality.{single_decided};

    ghost decides = { λ _ _. single_decided (pos 0) };
}

impl Present for () {
    ghost use Rattle.std.specs.Prelude.{pos};
    ghost use Rattle.rasn_types.specs.Equality.{number_not_absent};

    ghost present = { λ _. number_not_absent (pos 0) };
}

impl LawfulEq for ObjectIdentifier {
    ghost use Rattle.rasn_types.specs.Equality.{octets_decided};

    ghost decides = { octets_decided };
}

impl Present for ObjectIdentifier {
    ghost use Rattle.rasn_types.specs.Equality.{numbers_not_absent};

    ghost present = { numbers_not_absent };
}

impl LawfulEq for BitString {
    ghost use Rattle.rasn_types.specs.Equality.{bits_decided};

    ghost decides = { bits_decided };
}

impl Present for BitString {
    ghost use Rattle.rasn_types.specs.Equality.{bits_not_absent};

    ghost present = { bits_not_absent };
}

impl<E: Enumerated> LawfulEq for Extensible<E> {
    ghost use Rattle.rasn_types.specs.Equality.{signed_decided};

    ghost decides = { signed_decided };
}

impl<E: Enumerated> Present for Extensible<E> {
    ghost use Rattle.rasn_types.specs.Equality.{number_not_absent};

    ghost present = { number_not_absent };
}

impl LawfulEq for NamedBits {
    ghost use Rattle.rasn_types.specs.NamedBits.{named_bits_decided};

    ghost decides = { named_bits_decided };
}

impl Present for NamedBits {
    ghost use Rattle.rasn_types.specs.NamedBits.{named_bits_not_absent};

    ghost present = { named_bits_not_absent };
}

impl LawfulEq for OctetString {
    ghost use Rattle.rasn_types.specs.Equality.{octets_decided};

    ghost decides = { octets_decided };
}

impl Present for OctetString {
    ghost use Rattle.rasn_types.specs.Equality.{numbers_not_absent};

    ghost present = { numbers_not_absent };
}

impl<const N: usize> LawfulEq for FixedOctetString<N> {
    ghost use Rattle.rasn_types.specs.Equality.{octets_decided};

    ghost decides = { octets_decided };
}

impl<const N: usize> Present for FixedOctetString<N> {
    ghost use Rattle.rasn_types.specs.Equality.{numbers_not_absent};

    ghost present = { numbers_not_absent };
}

impl<S: StringType> LawfulEq for RestrictedString<S> {
    ghost use Rattle.rasn_types.specs.Equality.{octets_decided};

    ghost decides = { octets_decided };
}

impl<S: StringType> Present for RestrictedString<S> {
    ghost use Rattle.rasn_types.specs.Equality.{numbers_not_absent};

    ghost present = { numbers_not_absent };
}

impl LawfulEq for BmpString {
    ghost use Rattle.rasn_types.specs.CharacterString.{units_of};
    ghost use Rattle.rasn_types.specs.Equality.{octets_decided};

    ghost decides = { λ s t. octets_decided (units_of s) (units_of t) };
}

impl Present for BmpString {
    ghost use Rattle.rasn_types.specs.CharacterString.{units_of};
    ghost use Rattle.rasn_types.specs.Equality.{numbers_not_absent};

    ghost present = { λ s. numbers_not_absent (units_of s) };
}

impl LawfulEq for String {
    ghost use Rattle.rasn_types.specs.Equality.{text_decided};

    ghost decides = { text_decided };
}

impl Present for String {
    ghost use Rattle.std.specs.Prelude.{chars};
    ghost use Rattle.std.specs.String.{string_bytes};
    ghost use Rattle.rasn_types.specs.Equality.{numbers_not_absent};

    ghost present = { λ s. numbers_not_absent (chars (string_bytes s)) };
}

impl LawfulEq for UtcTime {
    ghost use Rattle.rasn_types.specs.Equality.{instant_decided};

    ghost decides = { instant_decided };
}

impl Present for UtcTime {
    ghost use Rattle.rasn_types.specs.Equality.{instant_not_absent};

    ghost present = { instant_not_absent };
}

impl LawfulEq for GeneralizedTime {
    ghost use Rattle.rasn_types.specs.Equality.{instant_decided};

    ghost decides = { λ s t. instant_decided s.moment t.moment };
}

impl Present for GeneralizedTime {
    ghost use Rattle.rasn_types.specs.Equality.{instant_not_absent};

    ghost present = { λ s. instant_not_absent s.moment };
}

impl LawfulEq for Date {
    ghost use Rattle.rasn_types.specs.Equality.{day_decided};

    ghost decides = { day_decided };
}

impl Present for Date {
    ghost use Rattle.rasn_types.specs.Equality.{day_not_absent};

    ghost present = { day_not_absent };
}

impl<T: LawfulEq + Present> LawfulEq for Option<T> {
    ghost use Rattle.rasn_types.specs.Equality.{option_decided};

    ghost decides = { option_decided T.decides T.present };
}

impl<T: LawfulEq> LawfulEq for Vec<T> {
    ghost use Rattle.rasn_types.specs.Equality.{list_decided};

    ghost decides = { λ v w. list_decided T.decides v.items w.items };
}

impl<T: AsnType> Present for Vec<T> {
    ghost use Rattle.rasn_types.specs.Equality.{list_not_absent};

    ghost present = { λ v. list_not_absent T.tree v.items };
}

impl<G: AsnType, T: LawfulEq> LawfulEq for Implicit<G, T> {
    ghost decides = { T.decides };
}

impl<G: AsnType, T: Present> Present for Implicit<G, T> {
    ghost present = { T.present };
}

impl<G: AsnType, T: LawfulEq> LawfulEq for Explicit<G, T> {
    ghost decides = { T.decides };
}

impl<G: AsnType, T: Present> Present for Explicit<G, T> {
    ghost present = { T.present };
}
