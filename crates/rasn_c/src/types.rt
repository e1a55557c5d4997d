//! The list of the types that a caller may name, and results that depend on the type.
ghost use Rattle.std.specs.Prelude.{List, ℕ, MatchOption};
ghost use Rattle.rasn_types.specs.declared.types.codec.Codec.{Codec};
ghost use Rattle.rasn_types.specs.Shapes.{Shape};
ghost use Rattle.rasn_de.specs.ValueErrors.{Errors};
ghost use Rattle.rasn_c.specs.Types.{IsUnknownType, OfType};

use rasn::de::Decode;
use rasn::enc::Encode;
use rasn::types::{
    Any, BitString, Codec, GeneralizedTime, Ia5String, Integer, LawfulEq, ObjectIdentifier,
    OctetString, PrintableString, UtcTime, Utf8String,
};
use rasn_cms::SignedMessage;
use rasn_ldap::LdapMessage;
use rasn_pkix::{Certificate, CertificateList, CertificationRequest};
use rasn_snmp::Message;
use std::alloc::Global;

/// A result of reading octets as a value of a type.
pub(crate) trait TypedAnswer {
    ghost IsOfType: { Codec → Shape → Errors → List ℕ → Self → Type 0 };

    /// Returns the result for these octets under this rule.
    fn of_type<T: Decode + Encode + LawfulEq>(alloc: Global, rule: Codec, octets: &[u8]) -> Self
        ensures { IsOfType rule T.shape (T.Decode.errors T.TAG T.CONSTRAINTS) octets.now result };
}

/// Returns the result for these octets under this rule, as the type of this number; `None` if there
/// is no such type. The number is a `soq_type` of the header.
pub(crate) fn answer_of<A: TypedAnswer>(
    alloc: Global,
    number: u32,
    rule: Codec,
    octets: &[u8],
) -> Option<A>
    ensures { MatchOption result (IsUnknownType number) (OfType A.IsOfType number rule octets.now) }
{
    match number {
        0 => Some(A::of_type::<bool>(alloc, rule, octets)),
        1 => Some(A::of_type::<Integer>(alloc, rule, octets)),
        2 => Some(A::of_type::<BitString>(alloc, rule, octets)),
        3 => Some(A::of_type::<OctetString>(alloc, rule, octets)),
        4 => Some(A::of_type::<()>(alloc, rule, octets)),
        5 => Some(A::of_type::<ObjectIdentifier>(alloc, rule, octets)),
        6 => Some(A::of_type::<Utf8String>(alloc, rule, octets)),
        7 => Some(A::of_type::<PrintableString>(alloc, rule, octets)),
        8 => Some(A::of_type::<Ia5String>(alloc, rule, octets)),
        9 => Some(A::of_type::<UtcTime>(alloc, rule, octets)),
        10 => Some(A::of_type::<GeneralizedTime>(alloc, rule, octets)),
        11 => Some(A::of_type::<Any>(alloc, rule, octets)),
        12 => Some(A::of_type::<Certificate>(alloc, rule, octets)),
        13 => Some(A::of_type::<CertificateList>(alloc, rule, octets)),
        14 => Some(A::of_type::<CertificationRequest>(alloc, rule, octets)),
        15 => Some(A::of_type::<SignedMessage>(alloc, rule, octets)),
        16 => Some(A::of_type::<Message>(alloc, rule, octets)),
        17 => Some(A::of_type::<LdapMessage>(alloc, rule, octets)),
        _ => None,
    }
}
