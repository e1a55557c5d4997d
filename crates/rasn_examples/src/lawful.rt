//! Proofs that the shapes of the types are lawful, so that the laws about lawful shapes apply to
//! them. Each is the contract of a function that does nothing when it runs.
ghost use Rattle.std.specs.Prelude.{◌≡◌, ◌∷◌, []};
ghost use Rattle.rasn_types.specs.Shapes.{IsAlwaysPresent};
ghost use Rattle.rasn_types.specs.Lawful.{IsLawful};
ghost use Rattle.rasn.specs.WorkedShapes.{named, validity, perhaps_bool, three_of_set, octets_in_set_of, algorithm, relative_name};
ghost use Rattle.rasn_examples.specs.LawfulTypes.{AreLawful};

use crate::{
    AlgorithmIdentifier, AttributeTypeAndValue, Both, Colour, Event, Grouped, NamedFlag, Pair,
    Reason, RelativeDistinguishedName, Set3, Setting, Time, Validity,
};
use rasn::types::{
    Any, AsnType, BitString, Date, GeneralizedTime, Ia5String, Integer, ObjectIdentifier,
    OctetString, PrintableString, SetOf, UtcTime, Utf8String,
};

/// Proves that the shapes of these types are lawful, and that every value of them that DER reads is
/// carried. The worked facts of `rasn::laws` are of the types' own shapes.
pub fn lawful_types()
    ensures types { AreLawful (
        ⟦<bool as AsnType>⟧.shape
        ∷ ⟦<i32 as AsnType>⟧.shape
        ∷ ⟦<u32 as AsnType>⟧.shape
        ∷ ⟦<Integer as AsnType>⟧.shape
        ∷ ⟦<BitString as AsnType>⟧.shape
        ∷ ⟦<OctetString as AsnType>⟧.shape
        ∷ ⟦<() as AsnType>⟧.shape
        ∷ ⟦<ObjectIdentifier as AsnType>⟧.shape
        ∷ ⟦<Utf8String as AsnType>⟧.shape
        ∷ ⟦<Ia5String as AsnType>⟧.shape
        ∷ ⟦<PrintableString as AsnType>⟧.shape
        ∷ ⟦<UtcTime as AsnType>⟧.shape
        ∷ ⟦<GeneralizedTime as AsnType>⟧.shape
        ∷ ⟦<Date as AsnType>⟧.shape
        ∷ ⟦<Any as AsnType>⟧.shape
        ∷ ⟦<Option<bool> as AsnType>⟧.shape
        ∷ ⟦<SetOf<OctetString> as AsnType>⟧.shape
        ∷ ⟦<AlgorithmIdentifier as AsnType>⟧.shape
        ∷ ⟦<AttributeTypeAndValue as AsnType>⟧.shape
        ∷ ⟦<RelativeDistinguishedName as AsnType>⟧.shape
        ∷ ⟦<Colour as AsnType>⟧.shape
        ∷ ⟦<Event as AsnType>⟧.shape
        ∷ ⟦<NamedFlag as AsnType>⟧.shape
        ∷ ⟦<Grouped as AsnType>⟧.shape
        ∷ ⟦<Pair as AsnType>⟧.shape
        ∷ ⟦<Reason as AsnType>⟧.shape
        ∷ ⟦<Set3 as AsnType>⟧.shape
        ∷ ⟦<Setting as AsnType>⟧.shape
        ∷ ⟦<Time as AsnType>⟧.shape
        ∷ ⟦<Validity as AsnType>⟧.shape
        ∷ []
        ) }
    ensures named { ⟦<NamedFlag as AsnType>⟧.shape ≡ named }
    ensures validity { ⟦<Validity as AsnType>⟧.shape ≡ validity }
    ensures perhaps { ⟦<Option<bool> as AsnType>⟧.shape ≡ perhaps_bool }
    ensures set3 { ⟦<Set3 as AsnType>⟧.shape ≡ three_of_set }
    ensures bag { ⟦<SetOf<OctetString> as AsnType>⟧.shape ≡ octets_in_set_of }
    ensures algorithm { ⟦<AlgorithmIdentifier as AsnType>⟧.shape ≡ algorithm }
    ensures name { ⟦<RelativeDistinguishedName as AsnType>⟧.shape ≡ relative_name }
{}

/// Proves that the shape of `Both` is lawful if the shapes of its fields are lawful and their
/// values are always present.
pub fn lawful_both<A: AsnType, B: AsnType>()
    ensures { IsLawful A.shape → IsAlwaysPresent A.shape → IsLawful B.shape → IsAlwaysPresent B.shape → IsLawful ⟦<Both<A, B> as AsnType>⟧.shape }
{}
