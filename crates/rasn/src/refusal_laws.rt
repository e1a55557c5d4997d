//! The laws of refusals, for every rule: an input is read, or refused as one error, after which one
//! rest remains. Failed allocations are left out. The contract of each function is a theorem about
//! the `errors` of a type; the functions do nothing when they run.
#![tactic(auto)]

ghost use Rattle.std.specs.Global.{Global};
ghost use Rattle.std.specs.Fn.{FnOnceReturnsAtMut};
ghost use Rattle.std.specs.Prelude.{◌≡◌, ℕ, Bool, List, map, Option, Result, Some, Vec, true};
ghost use Rattle.rasn_types.specs.declared.types.tag.Tag.{Tag};
ghost use Rattle.rasn_types.specs.declared.types.constraints.Constraints.{Constraints};
ghost use Rattle.rasn_types.specs.Shapes.{Parts, choice, choice_by, chosen, list, looked_for, option, own, prefix, seq, set, set_elements, set_of, tagged_as};
ghost use Rattle.rasn_de.specs.Choice.{DecodesChosen};
ghost use Rattle.rasn_de.specs.State.{EachCall};
ghost use Rattle.rasn_de.specs.Decodes.{DecodesParts, ReadsParts};
ghost use Rattle.rasn_de.specs.Constructed.{LeavesAnEnd};
ghost use Rattle.rasn_de.specs.Sequence.{DecodesSequenceBy, MakesAllMissing};
ghost use Rattle.rasn_de.specs.Set.{DecodesSetBy, MakesSet};
ghost use Rattle.rasn_de.specs.PartTypes.{DecodesInParts, DecodesSequenceParts, needs_no_initializer};
ghost use Rattle.rasn_de.specs.SetPartTypes.{DecodesNamedParts, name_at, set_by};
ghost use Rattle.rasn_de.specs.ValueErrors.{DecodesOr, errors_of};
ghost use Rattle.rasn_types.specs.Trees.{list_tree, option_tree};
ghost use Rattle.rasn.specs.OneRefusal.{AreApart, AreRefusedOnce, AreSettled, AreSlotsSettled, CanMake, ErrorsOfChoice, HaveOwnTags, IsAlwaysMade, IsDetermined, IsMadeOnce, IsName, IsRefusedOnce, LeaveNone, ReadsShape, Settles, SettlesAt};
ghost use Rattle.rasn.specs.RefusalLaws.{LeavesAreApart, LeavesLeaveNone, LeavesSettle};
ghost use Rattle.rasn.specs.WorkedKinds.{WorkedKinds};
ghost use Rattle.rasn.specs.WorkedSettled.{WorkedSettled};
ghost use Rattle.rasn.specs.WorkedWholes.{WorkedWholes};

use crate::parts::{
    Addition, DecodeAlternatives, DecodeParts, DecodeSetParts, DefaultValue, Defaulted,
    DefaultedChoice, DefaultedExplicit, End, ExplicitDefault, Last, OneOf, Optional,
    OptionalChoice, Required,
};
use rasn_de::ber::de::Decoder;
use rasn_de::de::{Decode, DecodeChoice};
use rasn_types::error::DecodeError;
use rasn_types::types::{Any, AsnType, Constructed, Explicit, FirstTags, SetOf, Unknown};
use std::alloc::AllocError;

/// Proves that an input is read as a value of a leaf type, or refused as one error, but not both;
/// and that it is one of them.
pub fn leaves()
    ensures apart { LeavesAreApart }
    ensures none { LeavesLeaveNone }
    ensures settled { LeavesSettle }
{}

/// Proves the same of a value under an explicit tag, if it is true of the value.
pub fn explicit<G: AsnType, T: Decode>()
    ensures { IsRefusedOnce (T.errors T.TAG T.CONSTRAINTS) → (tag : Tag) (c : Constraints)
        → AreApart (⟦<Explicit<G, T> as Decode>⟧.errors tag c) (ReadsShape (prefix tag T.shape)) }
{}

/// Proves the same of a SEQUENCE OF, if it is true of the elements.
pub fn sequence_of<T: Decode>()
    ensures { IsRefusedOnce (T.errors T.TAG T.CONSTRAINTS) → (tag : Tag) (c : Constraints)
        → AreApart (⟦<Vec<T> as Decode>⟧.errors tag c) (ReadsShape (list tag T.shape c.size)) }
{}

/// Proves the same of a SET OF, if it is true of the elements.
pub fn set_of<T: Decode + Eq>()
    ensures { IsRefusedOnce (T.errors T.TAG T.CONSTRAINTS) → (tag : Tag) (c : Constraints)
        → AreApart (⟦<SetOf<T> as Decode>⟧.errors tag c) (ReadsShape (set_of tag T.shape c.size)) }
{}

/// Proves the same of a value that may be left out, if it is true of the value.
pub fn optional<T: Decode>()
    ensures { (tag : Tag) (c : Constraints) → IsRefusedOnce (T.errors tag c)
        → AreApart (⟦<Option<T> as Decode>⟧.errors tag c) (ReadsShape (option (looked_for tag) (tagged_as tag c T.shape))) }
{}

/// Proves the same of parts in order, if it is true of the first one and of the others.
pub fn parts<A: Decode, R: DecodeParts>()
    ensures none { AreApart ⟦<End as DecodeParts>⟧.errors (ReadsParts ⟦<End as DecodeParts>⟧.parts) }
    ensures required { AreApart (A.errors A.TAG A.CONSTRAINTS) (ReadsShape A.shape) → AreApart R.errors (ReadsParts R.parts)
        → AreApart ⟦<Required<A, R> as DecodeParts>⟧.errors (ReadsParts ⟦<Required<A, R> as DecodeParts>⟧.parts) }
    ensures optional { own A.shape ≡ looked_for A.TAG → IsRefusedOnce (A.errors A.TAG A.CONSTRAINTS) → AreApart R.errors (ReadsParts R.parts)
        → AreApart ⟦<Optional<A, R> as DecodeParts>⟧.errors (ReadsParts ⟦<Optional<A, R> as DecodeParts>⟧.parts) }
    ensures addition { AreApart (A.errors A.TAG A.CONSTRAINTS) (ReadsShape A.shape) → AreApart R.errors (ReadsParts R.parts)
        → AreApart ⟦<Addition<A, R> as DecodeParts>⟧.errors (ReadsParts ⟦<Addition<A, R> as DecodeParts>⟧.parts) }
{}

/// Proves the same of a CHOICE that may be left out and of the parts after it.
pub fn optional_choice<A: Decode + FirstTags, R: DecodeParts>()
    ensures { IsRefusedOnce (A.errors A.TAG A.CONSTRAINTS) → AreApart R.errors (ReadsParts R.parts)
        → AreApart ⟦<OptionalChoice<A, R> as DecodeParts>⟧.errors (ReadsParts ⟦<OptionalChoice<A, R> as DecodeParts>⟧.parts) }
{}

/// Proves the same of a part that has a default and of the parts after it.
pub fn default_part<V: DefaultValue, R: DecodeParts>()
where
    V::Value: Decode,
    ensures { own V.Value.shape ≡ looked_for V.Value.TAG → IsRefusedOnce (V.Value.errors V.Value.TAG V.Value.CONSTRAINTS) → AreApart R.errors (ReadsParts R.parts)
        → AreApart ⟦<Defaulted<V, R> as DecodeParts>⟧.errors (ReadsParts ⟦<Defaulted<V, R> as DecodeParts>⟧.parts) }
{}

/// Proves the same of a CHOICE that has a default and of the parts after it.
pub fn default_choice<V: DefaultValue, R: DecodeParts>()
where
    V::Value: Decode + FirstTags,
    ensures { IsRefusedOnce (V.Value.errors V.Value.TAG V.Value.CONSTRAINTS) → AreApart R.errors (ReadsParts R.parts)
        → AreApart ⟦<DefaultedChoice<V, R> as DecodeParts>⟧.errors (ReadsParts ⟦<DefaultedChoice<V, R> as DecodeParts>⟧.parts) }
{}

/// Proves the same of a part under an explicit tag that has a default and of the parts after it.
pub fn explicit_default<V: ExplicitDefault, R: DecodeParts>()
where
    V::Value: Decode,
    ensures { Some V.Prefix.TAG ≡ looked_for V.Prefix.TAG → IsRefusedOnce (V.Value.errors V.Value.TAG V.Value.CONSTRAINTS) → AreApart R.errors (ReadsParts R.parts)
        → AreApart ⟦<DefaultedExplicit<V, R> as DecodeParts>⟧.errors (ReadsParts ⟦<DefaultedExplicit<V, R> as DecodeParts>⟧.parts) }
{}

/// Proves the same of a SEQUENCE, if it is true of its parts.
pub fn sequence<P: DecodeParts>()
    ensures { needs_no_initializer P.parts ≡ true → IsRefusedOnce P.errors → (tag : Tag)
        → AreApart (errors_of (DecodesSequenceParts P.parts P.tree P.errors tag)) (ReadsShape (seq tag P.parts)) }
{}

/// Proves that alternatives are refused as one error for each tag, if the first one is and the
/// others are. `Any` is the unknown alternative.
pub fn alternatives<A: Decode, R: DecodeAlternatives>()
    ensures unknown { (name : List ℕ) → AreRefusedOnce ⟦<Any as DecodeAlternatives>⟧.extensible ⟦<Any as DecodeAlternatives>⟧.parts name ⟦<Any as DecodeAlternatives>⟧.errors }
    ensures last { own A.shape ≡ Some A.TAG → IsRefusedOnce (A.errors A.TAG A.CONSTRAINTS) → (name : List ℕ)
        → AreRefusedOnce ⟦<Last<A> as DecodeAlternatives>⟧.extensible ⟦<Last<A> as DecodeAlternatives>⟧.parts name ⟦<Last<A> as DecodeAlternatives>⟧.errors }
    ensures first { own A.shape ≡ Some A.TAG → IsRefusedOnce (A.errors A.TAG A.CONSTRAINTS) → (name : List ℕ) → AreRefusedOnce R.extensible R.parts name R.errors
        → AreRefusedOnce ⟦<OneOf<A, R> as DecodeAlternatives>⟧.extensible ⟦<OneOf<A, R> as DecodeAlternatives>⟧.parts name ⟦<OneOf<A, R> as DecodeAlternatives>⟧.errors }
{}

/// Proves that an input is read as a CHOICE, or refused as one error, if its alternatives are
/// refused as one error for each tag, and have tags of their own.
pub fn choice<P: DecodeAlternatives>()
    ensures { HaveOwnTags P.parts → (name : List ℕ) → AreRefusedOnce P.extensible P.parts name P.errors
        → AreApart (ErrorsOfChoice P.extensible P.parts (λ (v : P). chosen (P.number v) (P.inner v)) name P.errors) (ReadsShape (choice_by P.extensible P.parts)) }
{}

/// Proves the same of a CHOICE that `Decoder::decode_choice` reads by `from_tag`, whatever the tags
/// of its alternatives are, if what `from_tag` refuses is refused as one error; and that each input
/// is decoded or refused, if that is true of `from_tag`.
pub fn chosen<D: DecodeChoice>()
    ensures apart { IsRefusedOnce D.errors → AreApart (errors_of (DecodesChosen (DecodesOr D.shape D.tree D.errors))) (ReadsShape D.shape) }
    ensures settled { ((tag : Tag) → SettlesAt tag (DecodesOr D.shape D.tree D.errors)) → Settles (DecodesOr D.shape D.tree (errors_of (DecodesChosen (DecodesOr D.shape D.tree D.errors)))) }
{}

/// Proves that the parts of a SET are refused as one error for each tag, if the first one is and
/// the others are. `Unknown` are unknown components.
pub fn set_parts<A: Decode, R: DecodeSetParts>()
    ensures none { (name : List ℕ) → AreRefusedOnce ⟦<End as DecodeSetParts>⟧.extensible ⟦<End as DecodeSetParts>⟧.parts name ⟦<End as DecodeSetParts>⟧.errors }
    ensures unknown { (name : List ℕ) → AreRefusedOnce ⟦<Unknown as DecodeSetParts>⟧.extensible ⟦<Unknown as DecodeSetParts>⟧.parts name ⟦<Unknown as DecodeSetParts>⟧.errors }
    ensures required { own A.shape ≡ Some A.TAG → IsRefusedOnce (A.errors A.TAG A.CONSTRAINTS) → (name : List ℕ) → AreRefusedOnce R.extensible R.parts name R.errors
        → AreRefusedOnce ⟦<Required<A, R> as DecodeSetParts>⟧.extensible ⟦<Required<A, R> as DecodeSetParts>⟧.parts name ⟦<Required<A, R> as DecodeSetParts>⟧.errors }
    ensures optional { own A.shape ≡ Some A.TAG → IsRefusedOnce (A.errors A.TAG A.CONSTRAINTS) → (name : List ℕ) → AreRefusedOnce R.extensible R.parts name R.errors
        → AreRefusedOnce ⟦<Optional<A, R> as DecodeSetParts>⟧.extensible ⟦<Optional<A, R> as DecodeSetParts>⟧.parts name ⟦<Optional<A, R> as DecodeSetParts>⟧.errors }
{}

/// Proves the same of a part of a SET that has a default, and of the others.
pub fn set_default<V: DefaultValue, R: DecodeSetParts>()
where
    V::Value: Decode,
    ensures { own V.Value.shape ≡ Some V.Value.TAG → own V.Value.shape ≡ looked_for V.Value.TAG → IsRefusedOnce (V.Value.errors V.Value.TAG V.Value.CONSTRAINTS) → (name : List ℕ) → AreRefusedOnce R.extensible R.parts name R.errors
        → AreRefusedOnce ⟦<Defaulted<V, R> as DecodeSetParts>⟧.extensible ⟦<Defaulted<V, R> as DecodeSetParts>⟧.parts name ⟦<Defaulted<V, R> as DecodeSetParts>⟧.errors }
{}

/// Proves that an input is read as a SET, or refused as one error, if its parts are refused as one
/// error for each tag.
pub fn set<P: DecodeSetParts>()
    ensures { (name : List ℕ) → AreRefusedOnce P.extensible P.parts name P.errors → (names : List (List ℕ)) (tag : Tag)
        → AreApart (errors_of (DecodesNamedParts P.extensible P.parts P.tree name names P.errors tag)) (ReadsShape (set_by P.extensible tag P.parts)) }
{}

/// Proves that each input is decoded or refused as a value under an explicit tag, an `Option` or a
/// SEQUENCE OF, if each is as the value inside; and what that says of the grammar.
pub fn settled<G: AsnType, T: Decode>()
    ensures grammar { (tag : Tag) (c : Constraints) → Settles (DecodesOr (tagged_as tag c T.shape) T.tree (T.errors tag c)) → LeaveNone (T.errors tag c) (ReadsShape (tagged_as tag c T.shape)) }
    ensures explicit { Settles (DecodesOr T.shape T.tree (T.errors T.TAG T.CONSTRAINTS)) → (tag : Tag) (c : Constraints)
        → Settles (DecodesOr (prefix tag T.shape) T.tree (⟦<Explicit<G, T> as Decode>⟧.errors tag c)) }
    ensures optional { (tag : Tag) (c : Constraints) → Settles (DecodesOr (tagged_as tag c T.shape) T.tree (T.errors tag c))
        → Settles (DecodesOr (option (looked_for tag) (tagged_as tag c T.shape)) (option_tree T.tree) (⟦<Option<T> as Decode>⟧.errors tag c)) }
    ensures sequence_of { Settles (DecodesOr T.shape T.tree (T.errors T.TAG T.CONSTRAINTS)) → (tag : Tag) (c : Constraints)
        → Settles (DecodesOr (list tag T.shape c.size) (λ (v : Vec T Global). list_tree T.tree v.items) (⟦<Vec<T> as Decode>⟧.errors tag c)) }
{}

/// Proves the same of a SET OF.
pub fn settled_set_of<T: Decode + Eq>()
    ensures { Settles (DecodesOr T.shape T.tree (T.errors T.TAG T.CONSTRAINTS)) → (tag : Tag) (c : Constraints)
        → Settles (DecodesOr (set_of tag T.shape c.size) (λ (v : List T). set_elements (list_tree T.tree v)) (⟦<SetOf<T> as Decode>⟧.errors tag c)) }
{}

/// Proves the same of parts in order.
pub fn settled_parts<A: Decode, R: DecodeParts>()
    ensures none { Settles (DecodesInParts ⟦<End as DecodeParts>⟧.parts ⟦<End as DecodeParts>⟧.tree ⟦<End as DecodeParts>⟧.errors) }
    ensures required { Settles (DecodesOr A.shape A.tree (A.errors A.TAG A.CONSTRAINTS)) → Settles (DecodesInParts R.parts R.tree R.errors)
        → Settles (DecodesInParts ⟦<Required<A, R> as DecodeParts>⟧.parts ⟦<Required<A, R> as DecodeParts>⟧.tree ⟦<Required<A, R> as DecodeParts>⟧.errors) }
    ensures optional { own A.shape ≡ looked_for A.TAG → Settles (DecodesOr A.shape A.tree (A.errors A.TAG A.CONSTRAINTS)) → Settles (DecodesInParts R.parts R.tree R.errors)
        → Settles (DecodesInParts ⟦<Optional<A, R> as DecodeParts>⟧.parts ⟦<Optional<A, R> as DecodeParts>⟧.tree ⟦<Optional<A, R> as DecodeParts>⟧.errors) }
    ensures addition { Settles (DecodesOr A.shape A.tree (A.errors A.TAG A.CONSTRAINTS)) → Settles (DecodesInParts R.parts R.tree R.errors)
        → Settles (DecodesInParts ⟦<Addition<A, R> as DecodeParts>⟧.parts ⟦<Addition<A, R> as DecodeParts>⟧.tree ⟦<Addition<A, R> as DecodeParts>⟧.errors) }
{}

/// Proves the same of a CHOICE that may be left out and of the parts after it.
pub fn settled_optional_choice<A: Decode + FirstTags, R: DecodeParts>()
    ensures { Settles (DecodesOr A.shape A.tree (A.errors A.TAG A.CONSTRAINTS)) → Settles (DecodesInParts R.parts R.tree R.errors)
        → Settles (DecodesInParts ⟦<OptionalChoice<A, R> as DecodeParts>⟧.parts ⟦<OptionalChoice<A, R> as DecodeParts>⟧.tree ⟦<OptionalChoice<A, R> as DecodeParts>⟧.errors) }
{}

/// Proves the same of a part that has a default and of the parts after it, if there is a value that
/// equals the default.
pub fn settled_default<V: DefaultValue, R: DecodeParts>()
where
    V::Value: Decode,
    ensures { own V.Value.shape ≡ looked_for V.Value.TAG → (d : V.Value) → V.Value.tree d ≡ V.default_tree → Settles (DecodesOr V.Value.shape V.Value.tree (V.Value.errors V.Value.TAG V.Value.CONSTRAINTS)) → Settles (DecodesInParts R.parts R.tree R.errors)
        → Settles (DecodesInParts ⟦<Defaulted<V, R> as DecodeParts>⟧.parts ⟦<Defaulted<V, R> as DecodeParts>⟧.tree ⟦<Defaulted<V, R> as DecodeParts>⟧.errors) }
{}

/// Proves the same of a CHOICE that has a default and of the parts after it.
pub fn settled_default_choice<V: DefaultValue, R: DecodeParts>()
where
    V::Value: Decode + FirstTags,
    ensures { (d : V.Value) → V.Value.tree d ≡ V.default_tree → Settles (DecodesOr V.Value.shape V.Value.tree (V.Value.errors V.Value.TAG V.Value.CONSTRAINTS)) → Settles (DecodesInParts R.parts R.tree R.errors)
        → Settles (DecodesInParts ⟦<DefaultedChoice<V, R> as DecodeParts>⟧.parts ⟦<DefaultedChoice<V, R> as DecodeParts>⟧.tree ⟦<DefaultedChoice<V, R> as DecodeParts>⟧.errors) }
{}

/// Proves the same of a part under an explicit tag that has a default and of the parts after it.
pub fn settled_explicit_default<V: ExplicitDefault, R: DecodeParts>()
where
    V::Value: Decode,
    ensures { Some V.Prefix.TAG ≡ looked_for V.Prefix.TAG → (d : V.Value) → V.Value.tree d ≡ V.default_tree → Settles (DecodesOr V.Value.shape V.Value.tree (V.Value.errors V.Value.TAG V.Value.CONSTRAINTS)) → Settles (DecodesInParts R.parts R.tree R.errors)
        → Settles (DecodesInParts ⟦<DefaultedExplicit<V, R> as DecodeParts>⟧.parts ⟦<DefaultedExplicit<V, R> as DecodeParts>⟧.tree ⟦<DefaultedExplicit<V, R> as DecodeParts>⟧.errors) }
{}

/// Proves the same of a SEQUENCE, if it is true of its parts.
pub fn settled_sequence<P: DecodeParts>()
    ensures { Settles (DecodesInParts P.parts P.tree P.errors) → needs_no_initializer P.parts ≡ true → (tag : Tag)
        → Settles (DecodesOr (seq tag P.parts) P.tree (errors_of (DecodesSequenceParts P.parts P.tree P.errors tag))) }
{}

/// Proves that each input is decoded as one of these alternatives or refused, whatever the next tag
/// is, if each is as the first one and as the others. `Any` is the unknown alternative.
pub fn settled_alternatives<A: Decode, R: DecodeAlternatives>()
    ensures unknown { (name : List ℕ) → AreSettled ⟦<Any as DecodeAlternatives>⟧.extensible ⟦<Any as DecodeAlternatives>⟧.parts ⟦<Any as DecodeAlternatives>⟧.number ⟦<Any as DecodeAlternatives>⟧.inner name ⟦<Any as DecodeAlternatives>⟧.errors }
    ensures last { ⟦<Last<A> as DecodeAlternatives>⟧.tags_differ ≡ true → Settles (DecodesOr A.shape A.tree (A.errors A.TAG A.CONSTRAINTS)) → (name : List ℕ) → IsName name
        → AreSettled ⟦<Last<A> as DecodeAlternatives>⟧.extensible ⟦<Last<A> as DecodeAlternatives>⟧.parts ⟦<Last<A> as DecodeAlternatives>⟧.number ⟦<Last<A> as DecodeAlternatives>⟧.inner name ⟦<Last<A> as DecodeAlternatives>⟧.errors }
    ensures first { ⟦<OneOf<A, R> as DecodeAlternatives>⟧.tags_differ ≡ true → Settles (DecodesOr A.shape A.tree (A.errors A.TAG A.CONSTRAINTS)) → (name : List ℕ) → AreSettled R.extensible R.parts R.number R.inner name R.errors
        → AreSettled ⟦<OneOf<A, R> as DecodeAlternatives>⟧.extensible ⟦<OneOf<A, R> as DecodeAlternatives>⟧.parts ⟦<OneOf<A, R> as DecodeAlternatives>⟧.number ⟦<OneOf<A, R> as DecodeAlternatives>⟧.inner name ⟦<OneOf<A, R> as DecodeAlternatives>⟧.errors }
{}

/// Proves that each input is decoded as a CHOICE or refused, if its alternatives are settled.
pub fn settled_choice<P: DecodeAlternatives>()
    ensures { (name : List ℕ) → AreSettled P.extensible P.parts P.number P.inner name P.errors
        → Settles (DecodesOr (choice_by P.extensible P.parts) (λ (v : P). chosen (P.number v) (P.inner v)) (ErrorsOfChoice P.extensible P.parts (λ (v : P). chosen (P.number v) (P.inner v)) name P.errors)) }
{}

/// Proves that each component is put into the slots of a SET's parts or refused, whatever its tag
/// is, and that the parts are made of the slots unless one is missing, if it is so of the first one
/// and of the others. `Unknown` are unknown components.
pub fn settled_set_parts<A: Decode, R: DecodeSetParts>()
    ensures none { (name : List ℕ) → IsName name → AreSlotsSettled ⟦<End as DecodeSetParts>⟧.extensible ⟦<End as DecodeSetParts>⟧.parts ⟦<End as DecodeSetParts>⟧.tree ⟦<End as DecodeSetParts>⟧.held ⟦<End as DecodeSetParts>⟧.others name ⟦<End as DecodeSetParts>⟧.errors }
    ensures unknown { (name : List ℕ) → AreSlotsSettled ⟦<Unknown as DecodeSetParts>⟧.extensible ⟦<Unknown as DecodeSetParts>⟧.parts ⟦<Unknown as DecodeSetParts>⟧.tree ⟦<Unknown as DecodeSetParts>⟧.held ⟦<Unknown as DecodeSetParts>⟧.others name ⟦<Unknown as DecodeSetParts>⟧.errors }
    ensures required { ⟦<Required<A, R> as DecodeSetParts>⟧.tags_differ ≡ true → Settles (DecodesOr A.shape A.tree (A.errors A.TAG A.CONSTRAINTS)) → (name : List ℕ) → AreSlotsSettled R.extensible R.parts R.tree R.held R.others name R.errors
        → AreSlotsSettled ⟦<Required<A, R> as DecodeSetParts>⟧.extensible ⟦<Required<A, R> as DecodeSetParts>⟧.parts ⟦<Required<A, R> as DecodeSetParts>⟧.tree ⟦<Required<A, R> as DecodeSetParts>⟧.held ⟦<Required<A, R> as DecodeSetParts>⟧.others name ⟦<Required<A, R> as DecodeSetParts>⟧.errors }
    ensures optional { ⟦<Optional<A, R> as DecodeSetParts>⟧.tags_differ ≡ true → Settles (DecodesOr A.shape A.tree (A.errors A.TAG A.CONSTRAINTS)) → (name : List ℕ) → AreSlotsSettled R.extensible R.parts R.tree R.held R.others name R.errors
        → AreSlotsSettled ⟦<Optional<A, R> as DecodeSetParts>⟧.extensible ⟦<Optional<A, R> as DecodeSetParts>⟧.parts ⟦<Optional<A, R> as DecodeSetParts>⟧.tree ⟦<Optional<A, R> as DecodeSetParts>⟧.held ⟦<Optional<A, R> as DecodeSetParts>⟧.others name ⟦<Optional<A, R> as DecodeSetParts>⟧.errors }
{}

/// Proves the same of a part of a SET that has a default, and of the others, if there is a value that
/// equals the default.
pub fn settled_set_default<V: DefaultValue, R: DecodeSetParts>()
where
    V::Value: Decode,
    ensures { ⟦<Defaulted<V, R> as DecodeSetParts>⟧.tags_differ ≡ true → (d : V.Value) → V.Value.tree d ≡ V.default_tree → Settles (DecodesOr V.Value.shape V.Value.tree (V.Value.errors V.Value.TAG V.Value.CONSTRAINTS)) → (name : List ℕ) → AreSlotsSettled R.extensible R.parts R.tree R.held R.others name R.errors
        → AreSlotsSettled ⟦<Defaulted<V, R> as DecodeSetParts>⟧.extensible ⟦<Defaulted<V, R> as DecodeSetParts>⟧.parts ⟦<Defaulted<V, R> as DecodeSetParts>⟧.tree ⟦<Defaulted<V, R> as DecodeSetParts>⟧.held ⟦<Defaulted<V, R> as DecodeSetParts>⟧.others name ⟦<Defaulted<V, R> as DecodeSetParts>⟧.errors }
{}

/// Proves that each input is decoded as a SET or refused, if its parts are settled.
pub fn settled_set<P: DecodeSetParts>()
    ensures { (name : List ℕ) → AreSlotsSettled P.extensible P.parts P.tree P.held P.others name P.errors → (names : List (List ℕ)) → ((k : ℕ) → IsName (name_at names k)) → (tag : Tag)
        → Settles (DecodesOr (set_by P.extensible tag P.parts) P.tree (errors_of (DecodesNamedParts P.extensible P.parts P.tree name names P.errors tag))) }
{}

/// Proves that a SEQUENCE that `Decoder::decode_sequence` reads by an initializer or a closure is
/// decoded or refused in one way at most, if the closure's input is; the same of its shape, if the
/// closure reads its parts; and that each input is decoded or refused, if that is so of the closure.
pub fn sequence_with<
    const RC: usize,
    const EC: usize,
    D: Constructed<RC, EC>,
    DF: FnOnce() -> Result<D, AllocError>,
    F: FnOnce(&mut Decoder<'_>) -> Result<D, DecodeError>,
>()
    ensures determined { (default : Option DF) (f : F) → IsDetermined (FnOnceReturnsAtMut F.FnOnce f) → (tag : Tag)
        → IsDetermined (DecodesSequenceBy RC D.IS_EXTENSIBLE D.HAS_REQUIRED_FIELDS DF.post default F.FnOnce f tag) }
    ensures apart { (default : Option DF) (f : F) → EachCall (FnOnceReturnsAtMut F.FnOnce f) (DecodesParts D.parts D.tree) → MakesAllMissing D.parts D.tree DF.post default → IsRefusedOnce (errors_of (FnOnceReturnsAtMut F.FnOnce f)) → (tag : Tag)
        → AreApart (errors_of (DecodesSequenceBy RC D.IS_EXTENSIBLE D.HAS_REQUIRED_FIELDS DF.post default F.FnOnce f tag)) (ReadsShape (seq tag D.parts)) }
    ensures settled { (default : Option DF) (f : F) → LeavesAnEnd F.FnOnce f → CanMake DF.post default → Settles (FnOnceReturnsAtMut F.FnOnce f) → (tag : Tag)
        → Settles (DecodesSequenceBy RC D.IS_EXTENSIBLE D.HAS_REQUIRED_FIELDS DF.post default F.FnOnce f tag) }
    ensures grammar { (default : Option DF) (f : F) → EachCall (FnOnceReturnsAtMut F.FnOnce f) (DecodesParts D.parts D.tree) → MakesAllMissing D.parts D.tree DF.post default → CanMake DF.post default → Settles (FnOnceReturnsAtMut F.FnOnce f) → (tag : Tag)
        → Settles (DecodesOr (seq tag D.parts) D.tree (errors_of (DecodesSequenceBy RC D.IS_EXTENSIBLE D.HAS_REQUIRED_FIELDS DF.post default F.FnOnce f tag))) }
{}

/// Proves that a SET that `Decoder::decode_set` reads, component by component, is decoded or
/// refused in one way at most, if each component is a CHOICE that is refused as one error, and what
/// the closure makes of components depends on their readings alone; the same of its shape, if the
/// closure makes its parts; and that each input is decoded or refused, if that is so of components
/// and of the closure.
pub fn set_with<
    const RL: usize,
    const EL: usize,
    FIELDS: Decode,
    SET: Constructed<RL, EL>,
    F: FnOnce(Vec<FIELDS>) -> Result<SET, DecodeError>,
>()
    ensures determined { (extensible : Bool) (alternatives : Parts) → FIELDS.shape ≡ choice_by extensible alternatives → IsRefusedOnce (FIELDS.errors FIELDS.TAG FIELDS.CONSTRAINTS) → (f : F) → IsMadeOnce (λ (v : Vec FIELDS Global). map FIELDS.tree v.items) (F.post f) → (tag : Tag)
        → IsDetermined (DecodesSetBy (DecodesOr FIELDS.shape FIELDS.tree (FIELDS.errors FIELDS.TAG FIELDS.CONSTRAINTS)) (F.post f) tag) }
    ensures apart { FIELDS.shape ≡ choice SET.parts → IsRefusedOnce (FIELDS.errors FIELDS.TAG FIELDS.CONSTRAINTS) → (f : F) → ((fields : Vec FIELDS Global) (r : Result SET DecodeError) → F.post f fields r → MakesSet SET.parts SET.tree (map FIELDS.tree fields.items) r) → IsMadeOnce (λ (v : Vec FIELDS Global). map FIELDS.tree v.items) (F.post f) → (tag : Tag)
        → AreApart (errors_of (DecodesSetBy (DecodesOr FIELDS.shape FIELDS.tree (FIELDS.errors FIELDS.TAG FIELDS.CONSTRAINTS)) (F.post f) tag)) (ReadsShape (set tag SET.parts)) }
    ensures settled { Settles (DecodesOr FIELDS.shape FIELDS.tree (FIELDS.errors FIELDS.TAG FIELDS.CONSTRAINTS)) → (f : F) → IsAlwaysMade (F.post f) → (tag : Tag)
        → Settles (DecodesSetBy (DecodesOr FIELDS.shape FIELDS.tree (FIELDS.errors FIELDS.TAG FIELDS.CONSTRAINTS)) (F.post f) tag) }
    ensures grammar { FIELDS.shape ≡ choice SET.parts → Settles (DecodesOr FIELDS.shape FIELDS.tree (FIELDS.errors FIELDS.TAG FIELDS.CONSTRAINTS)) → (f : F) → ((fields : Vec FIELDS Global) (r : Result SET DecodeError) → F.post f fields r → MakesSet SET.parts SET.tree (map FIELDS.tree fields.items) r) → IsAlwaysMade (F.post f) → (tag : Tag)
        → Settles (DecodesOr (set tag SET.parts) SET.tree (errors_of (DecodesSetBy (DecodesOr FIELDS.shape FIELDS.tree (FIELDS.errors FIELDS.TAG FIELDS.CONSTRAINTS)) (F.post f) tag))) }
{}

/// Proves of octets that were worked out by hand as which error leaf types refuse them, and what
/// remains.
pub fn worked_kinds()
    ensures { WorkedKinds }
{}

/// Proves the same of a SEQUENCE, a SET, a CHOICE, a SEQUENCE OF, a SET OF, a value under an
/// explicit tag, one that may be left out, and one that has a default.
pub fn worked_wholes()
    ensures { WorkedWholes }
{}

/// Proves what isn't settled: a call that does nothing, alternatives without errors, and a SET
/// without a value.
pub fn worked_settled()
    ensures { WorkedSettled }
{}
