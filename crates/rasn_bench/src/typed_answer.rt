//! The list of the types that a line may name, and results that depend on the type.
ghost use Rattle.std.specs.Prelude.{List, ℕ};
ghost use Rattle.rasn_types.specs.declared.types.codec.Codec.{Codec};
ghost use Rattle.rasn_types.specs.Shapes.{Shape};
ghost use Rattle.rasn_bench.specs.Answers.{OfNamedType};

use crate::line::{Request, ValueType};
use rasn::de::Decode;
use rasn::enc::Encode;
use rasn::types::{
    Any, BitString, Codec, Date, GeneralizedTime, Ia5String, Integer, LawfulEq, ObjectIdentifier,
    OctetString, PrintableString, SetOf, UtcTime, Utf8String,
};
use rasn_examples::{
    AlgorithmIdentifier, Colour, NamedFlag, Pair, RelativeDistinguishedName, Set3, Validity,
};
use std::alloc::Global;

/// A result of reading octets as a value of a type.
pub(crate) trait TypedAnswer {
    ghost IsOfType: { Codec → Shape → List ℕ → List ℕ → Self → Type 0 };

    /// Returns the result of reading these octets under the rule as a value of the type. `word` is
    /// the program's word for the type.
    fn of_type<T: Decode + Encode + LawfulEq>(
        alloc: Global,
        rule: Codec,
        word: &'static str,
        octets: &[u8],
    ) -> Self
        ensures { IsOfType rule T.shape word.now octets.now result };
}

/// Returns the result for a request with these octets.
pub(crate) fn answer_to<A: TypedAnswer>(alloc: Global, request: Request<'_>, octets: &[u8]) -> A
    ensures { OfNamedType A.IsOfType request.entry.rule request.entry.value_type octets.now result }
{
    let rule = request.rule;
    let word = request.value_type.word();
    match request.value_type {
        ValueType::Bool => A::of_type::<bool>(alloc, rule, word, octets),
        ValueType::I32 => A::of_type::<i32>(alloc, rule, word, octets),
        ValueType::U32 => A::of_type::<u32>(alloc, rule, word, octets),
        ValueType::Octets => A::of_type::<OctetString>(alloc, rule, word, octets),
        ValueType::Pair => A::of_type::<Pair>(alloc, rule, word, octets),
        ValueType::Integer => A::of_type::<Integer>(alloc, rule, word, octets),
        ValueType::UtcTime => A::of_type::<UtcTime>(alloc, rule, word, octets),
        ValueType::GeneralizedTime => A::of_type::<GeneralizedTime>(alloc, rule, word, octets),
        ValueType::Date => A::of_type::<Date>(alloc, rule, word, octets),
        ValueType::Null => A::of_type::<()>(alloc, rule, word, octets),
        ValueType::ObjectIdentifier => A::of_type::<ObjectIdentifier>(alloc, rule, word, octets),
        ValueType::Bits => A::of_type::<BitString>(alloc, rule, word, octets),
        ValueType::Colour => A::of_type::<Colour>(alloc, rule, word, octets),
        ValueType::Utf8 => A::of_type::<Utf8String>(alloc, rule, word, octets),
        ValueType::Ia5 => A::of_type::<Ia5String>(alloc, rule, word, octets),
        ValueType::Printable => A::of_type::<PrintableString>(alloc, rule, word, octets),
        ValueType::NamedFlag => A::of_type::<NamedFlag>(alloc, rule, word, octets),
        ValueType::OptionalBool => A::of_type::<Option<bool>>(alloc, rule, word, octets),
        ValueType::Validity => A::of_type::<Validity>(alloc, rule, word, octets),
        ValueType::Any => A::of_type::<Any>(alloc, rule, word, octets),
        ValueType::AlgorithmIdentifier => {
            A::of_type::<AlgorithmIdentifier>(alloc, rule, word, octets)
        }
        ValueType::RelativeDistinguishedName => {
            A::of_type::<RelativeDistinguishedName>(alloc, rule, word, octets)
        }
        ValueType::Set3 => A::of_type::<Set3>(alloc, rule, word, octets),
        ValueType::Bag => A::of_type::<SetOf<OctetString>>(alloc, rule, word, octets),
    }
}
