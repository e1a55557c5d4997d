//! Writing a SET whose components are put in the order of their tags (X.690 9.3, 10.3), whatever
//! the order of its parts.
ghost use Rattle.std.specs.Prelude.{◌≡◌, ◌≤◌, ◌⊎◌, ℕ, List, true, false, [], length, IfOk, IfErr, OnOk, OnErr, MatchOption};
ghost use Rattle.std.specs.List.{insert};
ghost use Rattle.rasn_types.specs.declared.types.tag.Tag.{Tag};
ghost use Rattle.rasn_types.specs.Truth.{IsWhether};
ghost use Rattle.rasn_types.specs.Tags.{IsTagBelow};
ghost use Rattle.rasn_types.specs.Framing.{Begins};
ghost use Rattle.rasn_types.specs.Contents.{joined_lists};
ghost use Rattle.rasn_types.specs.Bytes.{Each, ConstructedEncoding, IsPlacedBy};
ghost use Rattle.rasn_types.specs.Shapes.{sorted_set, Presence, Shape, Tree, IsFirst, part as part_first, joined};
ghost use Rattle.rasn_enc.specs.View.{started, appended, Extends};
ghost use Rattle.rasn_enc.specs.Primitive.{Appends, IsAllocError};
ghost use Rattle.rasn_enc.specs.Any.{IsUntaggedInSetError};
ghost use Rattle.rasn_enc.specs.Encoding.{AppendsEncoding, EncodeFails};
ghost use Rattle.rasn_enc.specs.Sequence.{EncodePartsFails};
ghost use Rattle.rasn_enc.specs.ValueErrors.{IsAllocErrorOr, IsErrorOfParts};
ghost use Rattle.rasn_enc.specs.SortedSet.{with_component, octets_in, IsWrittenAlone, HoldsParts, FailsAtComponents, HasOwn, HasLeast, IsPartAlone, IsUnknown, HoldsUnknown, LackTag};

use crate::ber::enc::any::any_in_set;
use crate::ber::enc::parts::{
    EncodeParts, Put, PutAddition, PutDefault, PutDefaultChoice, PutDefaultExplicit, PutOptional,
    PutOptionalChoice,
};
use crate::ber::enc::writer::leading_tag::leading_tag;
use crate::ber::enc::{Encoder, out_of_memory};
use crate::enc::Encode;
use rasn_types::ber::rules::EncodingRules;
use rasn_types::error::EncodeError;
use rasn_types::types::{Any, AsnType, Codec, DefaultValue, End, ExplicitDefault, Tag, Unknown};
use std::alloc::Global;

/// A component of a SET: the tag that decides where it is, and its octets.
#[derive(Drop)]
pub struct SetComponent {
    pub tag: Tag,
    pub octets: Vec<u8>,
}

/// A type without a tag of its own, as a CHOICE (X.680 29), that returns the least of the tags its
/// values begin with. Under CER it is put in a SET where this tag belongs (X.690 9.3).
pub trait LeastTag: AsnType {
    ghost use Rattle.rasn_enc.specs.SortedSet.{HasLeast};

    /// Returns the least tag with which a value of the type may begin.
    fn least_tag() -> Tag
        ensures { HasLeast result Self.shape };
}

/// A required CHOICE, and the parts after it.
#[derive(Drop)]
pub struct PutChoice<'a, A, R>(pub &'a A, pub R);

/// Parts that are written in the order of their tags, whatever their own order: [`Put`],
/// [`PutOptional`], [`PutDefault`], [`PutDefaultExplicit`] and [`PutAddition`], and for CHOICEs
/// without a tag [`PutChoice`], [`PutOptionalChoice`] and [`PutDefaultChoice`], each with the parts
/// after it, and [`End`] after the last. If the SET has an extension marker (X.680 27), the list
/// ends with a reference to [`Unknown`] in place of `End`: components that the type doesn't name,
/// each of which is written where its tag belongs.
pub trait EncodeSetParts: Drop {
    ghost use Rattle.std.specs.Prelude.{Bool};
    ghost use Rattle.rasn_types.specs.Shapes.{Parts, Tree};
    ghost use Rattle.rasn_types.specs.declared.types.codec.Codec.{Codec};
    ghost use Rattle.rasn_types.specs.declared.error.encode.EncodeError.{EncodeError};

    ghost parts: { Parts };

    /// Whether the SET has an extension marker.
    ghost extensible: { Bool };

    ghost tree: { Self → Tree };

    /// Which errors the parts have under these rules, besides `OutOfMemory`.
    ghost errors: { Self → Codec → EncodeError → Type 0 };

    /// Whether each part that isn't a CHOICE has a tag of its own.
    ghost tags_known: { Bool };

    /// Writes each part alone, and returns the components in the order of their tags.
    ///
    /// # Errors
    /// The error of a part; `AnyInSet` if a CHOICE or an unknown value doesn't begin with an
    /// identifier; otherwise only `OutOfMemory`.
    fn encode_components(self, alloc: Global, rule: Codec) -> Result<Vec<SetComponent>, EncodeError>
        requires { tags_known ≡ true }
        ensures ok { IfOk result (λ v. HoldsParts extensible parts (tree self) rule v.items) }
        ensures refused { IfErr result (FailsAtComponents extensible parts (tree self) rule) }
        ensures errors { IfErr result (IsAllocErrorOr rule (errors self rule)) }
        ensures rules { IfErr result (λ e. e.codec ≡ rule) };
}

/// Returns whether a tag is below another (X.680 8.6).
fn is_below(tag: Tag, other: Tag) -> bool
    ensures { IsWhether result (IsTagBelow tag other) }
{
    tag < other
}

/// Returns the number of the first component whose tag isn't below this one, or the number of
/// components.
fn place_of(components: &[SetComponent], tag: Tag) -> usize
    ensures within { result ≤ length components.now }
    ensures is { (x : SetComponent) → x.tag ≡ tag → insert components.now result x ≡ with_component x components.now }
{
    let mut at = 0;
    while at < components.len() {
        if !is_below(components[at].tag, tag) {
            return at;
        }
        at += 1;
    }
    at
}

/// Puts a component before the first whose tag isn't below its own.
///
/// # Errors
/// Only `OutOfMemory`.
pub fn insert_component(
    components: &mut Vec<SetComponent>,
    component: SetComponent,
    rule: Codec,
) -> Result<(), EncodeError>
    ensures ok { OnOk result (components.new.items ≡ with_component component components.old.items) }
    ensures memory_alone { IfErr result (IsAllocError rule) }
{
    let at = place_of(components, component.tag);
    match components.insert(at, component) {
        Ok(()) => Ok(()),
        Err(_) => Err(out_of_memory(rule)),
    }
}

/// Writes parts alone, and returns their octets.
fn octets_of<P: EncodeParts>(alloc: Global, rule: Codec, parts: P) -> Result<Vec<u8>, EncodeError>
    ensures ok { IfOk result (λ v. IsWrittenAlone P.parts (P.tree parts) rule v.items) }
    ensures refused { IfErr result (EncodePartsFails P.parts (P.tree parts) (started rule false)) }
    ensures errors { IfErr result (IsAllocErrorOr rule (P.errors parts rule)) }
    ensures rules { IfErr result (λ e. e.codec ≡ rule) }
{
    let mut encoder = Encoder::empty(alloc, rule, Vec::new(alloc), false);
    parts.encode_parts(&mut encoder)?;
    encoder.rendered()
}

/// Writes one part, which begins with this tag, and then the others, and puts the one among them.
fn with_part<P: EncodeParts, R: EncodeSetParts>(
    alloc: Global,
    rule: Codec,
    tag: Tag,
    part: P,
    others: R,
) -> Result<Vec<SetComponent>, EncodeError>
    requires { R.tags_known ≡ true }
    ensures ok { IfOk result (λ v. (p : Presence) (s : Shape) (t : Tree) → IsPartAlone (HasOwn tag) p s t P.parts (P.tree part) → HoldsParts R.extensible (part_first p s R.parts) (joined t (R.tree others)) rule v.items) }
    ensures refused { IfErr result (λ e. (p : Presence) (s : Shape) (t : Tree) → IsPartAlone (HasOwn tag) p s t P.parts (P.tree part) → FailsAtComponents R.extensible (part_first p s R.parts) (joined t (R.tree others)) rule e) }
    ensures errors { IfErr result (λ e. (p : Presence) (s : Shape) (t : Tree) → IsPartAlone (HasOwn tag) p s t P.parts (P.tree part) → IsAllocErrorOr rule (IsErrorOfParts rule p s t (P.errors part rule) (R.errors others rule)) e) }
    ensures rules { IfErr result (λ e. e.codec ≡ rule) }
{
    let octets = octets_of(alloc, rule, part)?;
    let mut components = others.encode_components(alloc, rule)?;
    if octets.is_empty() {
        return Ok(components);
    }
    insert_component(&mut components, SetComponent { tag, octets }, rule)?;
    Ok(components)
}

/// Returns the tag that decides where a part without a tag of its own is, if it has these octets
/// and may begin with no tag below `least`: under CER `least` (X.690 9.3), otherwise the tag that
/// it begins with (10.3).
fn place_of_choice(rule: Codec, least: Tag, octets: &[u8]) -> Option<Tag>
    ensures { MatchOption result ((s : Shape) (tag : Tag) → HasLeast least s → IsPlacedBy rule (IsFirst s) octets.now tag → ⊥) (λ tag. (s : Shape) → HasLeast least s → IsPlacedBy rule (IsFirst s) octets.now tag) }
{
    if EncodingRules::of_codec(rule).is_cer() {
        return Some(least);
    }
    leading_tag(octets)
}

/// Writes one part, which may begin with no tag below `least`, and then the others, and puts the
/// one among them.
fn with_choice<P: EncodeParts, R: EncodeSetParts>(
    alloc: Global,
    rule: Codec,
    least: Tag,
    part: P,
    others: R,
) -> Result<Vec<SetComponent>, EncodeError>
    requires { R.tags_known ≡ true }
    ensures ok { IfOk result (λ v. (p : Presence) (s : Shape) (t : Tree) → IsPartAlone (HasLeast least) p s t P.parts (P.tree part) → HoldsParts R.extensible (part_first p s R.parts) (joined t (R.tree others)) rule v.items) }
    ensures refused { IfErr result (λ e. (p : Presence) (s : Shape) (t : Tree) → IsPartAlone (HasLeast least) p s t P.parts (P.tree part) → FailsAtComponents R.extensible (part_first p s R.parts) (joined t (R.tree others)) rule e) }
    ensures errors { IfErr result (λ e. (p : Presence) (s : Shape) (t : Tree) → IsPartAlone (HasLeast least) p s t P.parts (P.tree part) → IsAllocErrorOr rule (IsErrorOfParts rule p s t (λ x. P.errors part rule x ⊎ IsUntaggedInSetError rule x) (R.errors others rule)) e) }
    ensures rules { IfErr result (λ e. e.codec ≡ rule) }
{
    let octets = octets_of(alloc, rule, part)?;
    let mut components = others.encode_components(alloc, rule)?;
    if octets.is_empty() {
        return Ok(components);
    }
    let Some(tag) = place_of_choice(rule, least, &octets) else {
        return Err(any_in_set(rule));
    };
    insert_component(&mut components, SetComponent { tag, octets }, rule)?;
    Ok(components)
}

/// Returns an unknown value as a component.
///
/// # Errors
/// `AnyInSet` if the value doesn't begin with an identifier; otherwise only `OutOfMemory`.
fn unknown_component(alloc: Global, rule: Codec, value: &Any) -> Result<SetComponent, EncodeError>
    ensures ok { IfOk result (λ c. (c.octets.items ≡ value.now) × Begins value.now c.tag) }
    ensures refused { IfErr result (λ e. IsAllocError rule e ⊎ (IsUntaggedInSetError rule e × ((tag : Tag) → Begins value.now tag → ⊥))) }
{
    let Some(tag) = leading_tag(value.as_bytes()) else {
        return Err(any_in_set(rule));
    };
    match Vec::from_slice(alloc, value.as_bytes()) {
        Ok(octets) => Ok(SetComponent { tag, octets }),
        Err(_) => Err(out_of_memory(rule)),
    }
}

/// Returns unknown values as components, in their own order.
///
/// # Errors
/// `AnyInSet` if one of the values doesn't begin with an identifier; otherwise only `OutOfMemory`.
fn components_of(
    alloc: Global,
    rule: Codec,
    values: &[Any],
) -> Result<Vec<SetComponent>, EncodeError>
    ensures ok { IfOk result (λ v. Each IsUnknown values.now v.items) }
    ensures refused { IfErr result (λ e. IsAllocError rule e ⊎ (IsUntaggedInSetError rule e × LackTag values.now)) }
{
    let mut components = match Vec::with_capacity(alloc, values.len()) {
        Ok(empty) => empty,
        Err(_) => return Err(out_of_memory(rule)),
    };
    let mut at = 0;
    while at < values.len() {
        let component = unknown_component(alloc, rule, &values[at])?;
        match components.push(component) {
            Ok(()) => {}
            Err(_) => return Err(out_of_memory(rule)),
        }
        at += 1;
    }
    Ok(components)
}

/// Returns unknown values as components, in the order of their tags.
///
/// # Errors
/// `AnyInSet` if one of the values doesn't begin with an identifier; otherwise only `OutOfMemory`.
pub fn unknown_components(
    alloc: Global,
    rule: Codec,
    values: &[Any],
) -> Result<Vec<SetComponent>, EncodeError>
    ensures ok { IfOk result (λ v. HoldsUnknown values.now v.items) }
    ensures refused { IfErr result (λ e. IsAllocError rule e ⊎ (IsUntaggedInSetError rule e × LackTag values.now)) }
{
    let mut components = components_of(alloc, rule, values)?;
    match components.sort_by_key(|component| component.tag) {
        Ok(()) => Ok(components),
        Err(_) => Err(out_of_memory(rule)),
    }
}

impl EncodeSetParts for End {
    ghost use Rattle.std.specs.Prelude.{true, false};
    ghost use Rattle.rasn_types.specs.Shapes.{done};
    ghost use Rattle.rasn_types.specs.Shapes.Parts.{none};

    ghost parts = { none };

    ghost extensible = { false };

    ghost tree = { λ e. done };

    ghost errors = { λ e rule x. ⊥ };

    ghost tags_known = { true };

    fn encode_components(
        self,
        alloc: Global,
        _rule: Codec,
    ) -> Result<Vec<SetComponent>, EncodeError> {
        Ok(Vec::new(alloc))
    }
}

/// The components of a SET with an extension marker that its type doesn't name (X.680 27), written
/// as their octets.
impl<'a> EncodeSetParts for &'a Unknown {
    ghost use Rattle.std.specs.Prelude.{true};
    ghost use Rattle.rasn_types.specs.Shapes.{numbers, joined, done};
    ghost use Rattle.rasn_types.specs.Shapes.Parts.{none};
    ghost use Rattle.rasn_types.specs.Trees.{list_tree};
    ghost use Rattle.rasn_enc.specs.Any.{IsUntaggedInSetError};

    ghost parts = { none };

    ghost extensible = { true };

    ghost tree = { λ u. joined (list_tree numbers u.now.values.items) done };

    ghost errors = { λ u rule. IsUntaggedInSetError rule };

    ghost tags_known = { true };

    fn encode_components(
        self,
        alloc: Global,
        rule: Codec,
    ) -> Result<Vec<SetComponent>, EncodeError> {
        unknown_components(alloc, rule, &self.values)
    }
}

impl<'a, A: Encode, R: EncodeSetParts> EncodeSetParts for Put<'a, A, R> {
    ghost use Rattle.std.specs.Prelude.{◌&&◌};
    ghost use Rattle.rasn_types.specs.Shapes.{part, required, joined};
    ghost use Rattle.rasn_enc.specs.SortedSet.{is_own};
    ghost use Rattle.rasn_enc.specs.ValueErrors.{IsErrorOfParts};

    ghost parts = { part required A.shape R.parts };

    ghost extensible = { R.extensible };

    ghost tree = { λ p. joined (A.tree p.0.now) (R.tree p.1) };

    ghost errors = { λ p rule. IsErrorOfParts rule required A.shape (A.tree p.0.now) (A.errors A.TAG A.CONSTRAINTS p.0.now rule) (R.errors p.1 rule) };

    ghost tags_known = { is_own A.shape A.TAG && R.tags_known };

    fn encode_components(
        self,
        alloc: Global,
        rule: Codec,
    ) -> Result<Vec<SetComponent>, EncodeError> {
        let Put(value, others) = self;
        with_part(alloc, rule, A::TAG, Put(value, End), others)
    }
}

impl<'a, A: Encode, R: EncodeSetParts> EncodeSetParts for PutOptional<'a, A, R> {
    ghost use Rattle.std.specs.Prelude.{◌&&◌};
    ghost use Rattle.rasn_types.specs.Shapes.{part, optional, joined};
    ghost use Rattle.rasn_types.specs.Trees.{option_tree};
    ghost use Rattle.rasn_enc.specs.SortedSet.{is_own};
    ghost use Rattle.rasn_enc.specs.ValueErrors.{IsErrorOfOption, IsErrorOfParts};

    ghost parts = { part optional A.shape R.parts };

    ghost extensible = { R.extensible };

    ghost tree = { λ p. joined (option_tree A.tree p.0.now) (R.tree p.1) };

    ghost errors = { λ p rule. IsErrorOfParts rule optional A.shape (option_tree A.tree p.0.now) (IsErrorOfOption (λ v. A.errors A.TAG A.CONSTRAINTS v rule) p.0.now) (R.errors p.1 rule) };

    ghost tags_known = { is_own A.shape A.TAG && R.tags_known };

    fn encode_components(
        self,
        alloc: Global,
        rule: Codec,
    ) -> Result<Vec<SetComponent>, EncodeError> {
        let PutOptional(value, others) = self;
        with_part(alloc, rule, A::TAG, PutOptional(value, End), others)
    }
}

impl<'a, V: DefaultValue, R: EncodeSetParts> EncodeSetParts for PutDefault<'a, V, R>
where
    V::Value: Encode,
{
    ghost use Rattle.std.specs.Prelude.{◌&&◌};
    ghost use Rattle.rasn_types.specs.Shapes.{part, default, joined};
    ghost use Rattle.rasn_enc.specs.SortedSet.{is_own};
    ghost use Rattle.rasn_enc.specs.ValueErrors.{IsAllocErrorOr, IsErrorOfParts};

    ghost parts = { part (default V.default_tree) V.Value.shape R.parts };

    ghost extensible = { R.extensible };

    ghost tree = { λ p. joined (V.Value.tree p.0.now) (R.tree p.1) };

    ghost errors = { λ p rule. IsErrorOfParts rule (default V.default_tree) V.Value.shape (V.Value.tree p.0.now) (IsAllocErrorOr rule (V.Value.errors V.Value.TAG V.Value.CONSTRAINTS p.0.now rule)) (R.errors p.1 rule) };

    ghost tags_known = { is_own V.Value.shape V.Value.TAG && R.tags_known };

    fn encode_components(
        self,
        alloc: Global,
        rule: Codec,
    ) -> Result<Vec<SetComponent>, EncodeError> {
        let PutDefault(value, others) = self;
        with_part(
            alloc,
            rule,
            V::Value::TAG,
            PutDefault::<V, End>(value, End),
            others,
        )
    }
}

impl<'a, V: ExplicitDefault, R: EncodeSetParts> EncodeSetParts for PutDefaultExplicit<'a, V, R>
where
    V::Value: Encode,
{
    ghost use Rattle.rasn_types.specs.Shapes.{part, default, prefix, joined};
    ghost use Rattle.rasn_enc.specs.ValueErrors.{IsAllocErrorOr, IsErrorOfParts};

    ghost parts = { part (default V.default_tree) (prefix V.Prefix.TAG V.Value.shape) R.parts };

    ghost extensible = { R.extensible };

    ghost tree = { λ p. joined (V.Value.tree p.0.now) (R.tree p.1) };

    ghost errors = { λ p rule. IsErrorOfParts rule (default V.default_tree) (prefix V.Prefix.TAG V.Value.shape) (V.Value.tree p.0.now) (IsAllocErrorOr rule (V.Value.errors V.Value.TAG V.Value.CONSTRAINTS p.0.now rule)) (R.errors p.1 rule) };

    ghost tags_known = { R.tags_known };

    fn encode_components(
        self,
        alloc: Global,
        rule: Codec,
    ) -> Result<Vec<SetComponent>, EncodeError> {
        let PutDefaultExplicit(value, others) = self;
        with_part(
            alloc,
            rule,
            V::Prefix::TAG,
            PutDefaultExplicit::<V, End>(value, End),
            others,
        )
    }
}

impl<'a, A: Encode, R: EncodeSetParts> EncodeSetParts for PutAddition<'a, A, R> {
    ghost use Rattle.std.specs.Prelude.{◌&&◌};
    ghost use Rattle.rasn_types.specs.Shapes.{part, addition, joined};
    ghost use Rattle.rasn_types.specs.Trees.{option_tree};
    ghost use Rattle.rasn_enc.specs.SortedSet.{is_own};
    ghost use Rattle.rasn_enc.specs.ValueErrors.{IsErrorOfOption, IsErrorOfParts};

    ghost parts = { part addition A.shape R.parts };

    ghost extensible = { R.extensible };

    ghost tree = { λ p. joined (option_tree A.tree p.0.now) (R.tree p.1) };

    ghost errors = { λ p rule. IsErrorOfParts rule addition A.shape (option_tree A.tree p.0.now) (IsErrorOfOption (λ v. A.errors A.TAG A.CONSTRAINTS v rule) p.0.now) (R.errors p.1 rule) };

    ghost tags_known = { is_own A.shape A.TAG && R.tags_known };

    fn encode_components(
        self,
        alloc: Global,
        rule: Codec,
    ) -> Result<Vec<SetComponent>, EncodeError> {
        let PutAddition(value, others) = self;
        with_part(alloc, rule, A::TAG, PutAddition(value, End), others)
    }
}

impl<'a, A: Encode + LeastTag, R: EncodeSetParts> EncodeSetParts for PutChoice<'a, A, R> {
    ghost use Rattle.std.specs.Prelude.{◌⊎◌};
    ghost use Rattle.rasn_types.specs.Shapes.{part, required, joined};
    ghost use Rattle.rasn_enc.specs.ValueErrors.{IsErrorOfParts};
    ghost use Rattle.rasn_enc.specs.Any.{IsUntaggedInSetError};

    ghost parts = { part required A.shape R.parts };

    ghost extensible = { R.extensible };

    ghost tree = { λ p. joined (A.tree p.0.now) (R.tree p.1) };

    ghost errors = { λ p rule. IsErrorOfParts rule required A.shape (A.tree p.0.now) (λ x. A.errors A.TAG A.CONSTRAINTS p.0.now rule x ⊎ IsUntaggedInSetError rule x) (R.errors p.1 rule) };

    ghost tags_known = { R.tags_known };

    fn encode_components(
        self,
        alloc: Global,
        rule: Codec,
    ) -> Result<Vec<SetComponent>, EncodeError> {
        let PutChoice(value, others) = self;
        with_choice(alloc, rule, A::least_tag(), Put(value, End), others)
    }
}

impl<'a, A: Encode + LeastTag, R: EncodeSetParts> EncodeSetParts for PutOptionalChoice<'a, A, R> {
    ghost use Rattle.std.specs.Prelude.{◌⊎◌};
    ghost use Rattle.rasn_types.specs.Shapes.{part, optional_choice, joined};
    ghost use Rattle.rasn_types.specs.Trees.{option_tree};
    ghost use Rattle.rasn_enc.specs.ValueErrors.{IsErrorOfOption, IsErrorOfParts};
    ghost use Rattle.rasn_enc.specs.Any.{IsUntaggedInSetError};

    ghost parts = { part optional_choice A.shape R.parts };

    ghost extensible = { R.extensible };

    ghost tree = { λ p. joined (option_tree A.tree p.0.now) (R.tree p.1) };

    ghost errors = { λ p rule. IsErrorOfParts rule optional_choice A.shape (option_tree A.tree p.0.now) (λ x. IsErrorOfOption (λ v. A.errors A.TAG A.CONSTRAINTS v rule) p.0.now x ⊎ IsUntaggedInSetError rule x) (R.errors p.1 rule) };

    ghost tags_known = { R.tags_known };

    fn encode_components(
        self,
        alloc: Global,
        rule: Codec,
    ) -> Result<Vec<SetComponent>, EncodeError> {
        let PutOptionalChoice(value, others) = self;
        with_choice(
            alloc,
            rule,
            A::least_tag(),
            PutOptionalChoice(value, End),
            others,
        )
    }
}

impl<'a, V: DefaultValue, R: EncodeSetParts> EncodeSetParts for PutDefaultChoice<'a, V, R>
where
    V::Value: Encode + LeastTag,
{
    ghost use Rattle.std.specs.Prelude.{◌⊎◌};
    ghost use Rattle.rasn_types.specs.Shapes.{part, default_choice, joined};
    ghost use Rattle.rasn_enc.specs.ValueErrors.{IsAllocErrorOr, IsErrorOfParts};
    ghost use Rattle.rasn_enc.specs.Any.{IsUntaggedInSetError};

    ghost parts = { part (default_choice V.default_tree) V.Value.shape R.parts };

    ghost extensible = { R.extensible };

    ghost tree = { λ p. joined (V.Value.tree p.0.now) (R.tree p.1) };

    ghost errors = { λ p rule. IsErrorOfParts rule (default_choice V.default_tree) V.Value.shape (V.Value.tree p.0.now) (λ x. IsAllocErrorOr rule (V.Value.errors V.Value.TAG V.Value.CONSTRAINTS p.0.now rule) x ⊎ IsUntaggedInSetError rule x) (R.errors p.1 rule) };

    ghost tags_known = { R.tags_known };

    fn encode_components(
        self,
        alloc: Global,
        rule: Codec,
    ) -> Result<Vec<SetComponent>, EncodeError> {
        let PutDefaultChoice(value, others) = self;
        with_choice(
            alloc,
            rule,
            V::Value::least_tag(),
            PutDefaultChoice::<V, End>(value, End),
            others,
        )
    }
}

impl Encoder {
    /// Writes a SET (X.690 8.11) of these parts, in the order of their outermost tags
    /// (X.690 9.3, 10.3; X.680 8.6), whatever their own order. If they end with a reference to
    /// [`Unknown`], the SET has an extension marker (X.680 27), and each of the values is written
    /// where its tag belongs.
    ///
    /// # Errors
    /// The error of a part; `AnyInSet` if a CHOICE or an unknown value doesn't begin with an
    /// identifier; otherwise only `OutOfMemory`. On error, nothing is written.
    pub fn write_sorted_set<P: EncodeSetParts>(
        &mut self,
        tag: Tag,
        parts: P,
    ) -> Result<(), EncodeError>
        requires { P.tags_known ≡ true }
        ensures ok { OnOk result (AppendsEncoding (sorted_set P.extensible tag P.parts) (P.tree parts) self.old self.new) }
        ensures err { OnErr result (self.new ≡ self.old) }
        ensures refused { IfErr result (EncodeFails (sorted_set P.extensible tag P.parts) (P.tree parts) self.old) }
        ensures errors { IfErr result (IsAllocErrorOr self.old.rule (P.errors parts self.old.rule)) }
        ensures rules { IfErr result (λ e. e.codec ≡ self.old.rule) }
    {
        let components = parts.encode_components(self.alloc(), self.codec())?;
        self.append_set(tag, &components)
    }

    /// Writes a constructed value whose contents are these components, one after the other.
    fn append_set(&mut self, tag: Tag, components: &[SetComponent]) -> Result<(), EncodeError>
        ensures ok { OnOk result (Appends (ConstructedEncoding self.old.rule tag (joined_lists (octets_in components.now))) tag self.old self.new) }
        ensures err { OnErr result (self.new ≡ self.old) }
        ensures memory_alone { IfErr result (IsAllocError self.old.rule) }
    {
        self.open(false)?;
        let outcome = self.append_components(components);
        self.close(tag, outcome)
    }

    /// Appends the octets of the components to the last list.
    ///
    /// # Errors
    /// Only `OutOfMemory`.
    pub fn append_components(&mut self, components: &[SetComponent]) -> Result<(), EncodeError>
        ensures ok { OnOk result (self.new ≡ appended self.old (joined_lists (octets_in components.now)) []) }
        ensures extends { Extends self.old self.new }
        ensures memory_alone { IfErr result (IsAllocError self.old.rule) }
    {
        let mut rest = components;
        while let [component, after @ ..] = rest {
            self.append_encoded(&component.octets)?;
            rest = after;
        }
        Ok(())
    }
}
