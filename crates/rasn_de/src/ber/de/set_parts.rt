//! A SET whose parts are described by a type (X.690 8.11): nested to the right, read in any order,
//! each once.
ghost use Rattle.std.specs.Prelude.{◌≡◌, ◌≢◌, ℕ, zero, suc, true, [], length, List, Contains, IfOk, map, IfErr};
ghost use Rattle.rasn_types.specs.Framing.{NextTag};
ghost use Rattle.rasn_types.specs.Tags.{form};
ghost use Rattle.rasn_types.specs.Errors.{IsOutOfMemory};
ghost use Rattle.rasn_types.specs.Shapes.{sorted_set, presences};
ghost use Rattle.rasn_de.specs.Decodes.{Decodes};
ghost use Rattle.rasn_de.specs.SetPartTypes.{text, name_at, AreEmpty, IsPlaced, IsOrDefault, DecodesPlaced, FailsAtSetPart, DecodesOneOf, DecodesNext, HasGap, MakesParts, DecodesSetPartContents, DecodesSetParts, DecodesNamedContents, DecodesNamedParts, set_by, BeyondSet};
ghost use Rattle.rasn_de.specs.Beyond.{BeyondInside};
ghost use Rattle.rasn_de.specs.Constructed.{sequence_header};
ghost use Rattle.rasn_de.specs.State.{State};
ghost use Rattle.rasn_de.specs.SequenceOf.{RefusesElement};

use crate::ber::de::Decoder;
use crate::ber::de::constructed::ConstructedHeader;
use crate::ber::de::parser::ParseError;
use crate::ber::de::parts::{Defaulted, Optional, Required};
use crate::de::{Decode, Error};
use rasn_types::error::DecodeError;
use rasn_types::types::{AsnType, DefaultValue, End, Tag, Unknown};
use std::alloc::{AllocError, Global};

/// Parts that are read in any order, each of which has a tag of its own: [`Required`], [`Optional`]
/// and [`Defaulted`], each with those after it, and [`End`] after the last. If the SET has an
/// extension marker (X.680 27), the list ends with [`Unknown`] in place of `End`: the components
/// with the tag of no part, anywhere among the others.
pub trait DecodeSetParts: Drop {
    ghost use Rattle.std.specs.Prelude.{Bool, false, List, [], Option};
    ghost use Rattle.rasn_types.specs.declared.types.tag.Tag.{Tag};
    ghost use Rattle.rasn_de.specs.ValueErrors.{Errors};
    ghost use Rattle.rasn_types.specs.Shapes.{Parts, Tree};
    ghost use Rattle.rasn_de.specs.State.{State};

    /// A slot for each part, which is empty until the part is read.
    type Slots: Drop;

    ghost parts: { Parts };

    /// Whether the SET has an extension marker.
    ghost extensible: { Bool } = { false };

    ghost tree: { Self → Tree };

    ghost held: { Self.Slots → List (Option Tree) };

    /// The trees of the unknown components, in the order in which they are read.
    ghost others: { Self.Slots → List Tree } = { λ _. [] };

    /// What the values in the slots keep of the octets that were read at these states, beyond their
    /// trees.
    ghost kept: { List State → Self.Slots → Type 0 };

    /// What the parts keep of them.
    ghost beyond: { List State → Self → Type 0 };

    /// Which errors a call has that reads the part with this tag, besides what `fails` says.
    ghost errors: { Tag → Errors } = { λ _ _ _ _. Unit {0} };

    /// Whether each part has a tag of its own, which no other has.
    ghost tags_differ: { Bool };

    /// Returns empty slots.
    fn empty(alloc: Global) -> Self::Slots
        ensures empty { AreEmpty parts (held result) }
        ensures none { others result ≡ [] }
        ensures kept { (starts : List State) → kept starts result };

    /// Reads the component that has this tag, which must be the next tag, and puts it into the slot
    /// of its part. If the slot is filled already, drops the component and returns the name of the
    /// part.
    ///
    /// # Errors
    /// The error of the part. If no part has the tag, `NoValidChoice` with the name of the type, or
    /// with an extension marker the error of the unknown component, or `OutOfMemory`.
    fn decode_component<'names>(
        slots: &mut Self::Slots,
        decoder: &mut Decoder<'_>,
        tag: Tag,
        name: &str,
        names: &[&'names str],
    ) -> Result<Option<&'names str>, DecodeError>
        requires next { NextTag (form decoder.old.rule) decoder.old.rest tag }
        requires differ { tags_differ ≡ true }
        ensures reads { DecodesPlaced extensible parts (map text names.now) (held slots.old) (others slots.old) decoder.old result decoder.new (held slots.new) (others slots.new) }
        ensures fails { IfErr result (λ e. FailsAtSetPart extensible parts name.now tag decoder.old e decoder.new) }
        ensures errors { IfErr result (λ e. errors tag decoder.old e decoder.new) }
        ensures kept { (starts : List State) → Contains starts decoder.old → kept starts slots.old → length decoder.new.rest ≢ length decoder.old.rest → IfOk result (λ r. kept starts slots.new) }
        ensures rules { IfErr result (λ e. e.codec ≡ decoder.old.rule) };

    /// Returns the parts that the slots contain.
    ///
    /// # Errors
    /// `MissingField` with the name of the first required part whose slot is empty, or
    /// `OutOfMemory`, which is for that name or for the default of a part whose slot is empty.
    fn gather(
        slots: Self::Slots,
        decoder: &Decoder<'_>,
        names: &[&str],
    ) -> Result<Self, DecodeError>
        ensures makes { MakesParts extensible parts tree (map text names.now) decoder.now.rule (held slots) (others slots) result }
        ensures memory { IfErr result (λ e. IsOutOfMemory e.kind → HasGap (presences parts) (held slots)) }
        ensures beyond { (starts : List State) → kept starts slots → IfOk result (λ v. beyond starts v) }
        ensures rules { IfErr result (λ e. e.codec ≡ decoder.now.rule) };
}

/// Returns the name of the first of these parts, or an empty name if there are no names.
fn first_name<'names>(names: &[&'names str]) -> &'names str
    ensures { result.now ≡ name_at (map text names.now) zero }
{
    let Some(name) = names.first() else {
        return "";
    };
    *name
}

/// Returns the names of the parts after the first.
fn other_names<'a, 'names>(names: &'a [&'names str]) -> &'a [&'names str]
    ensures { (k : ℕ) → name_at (map text result.now) k ≡ name_at (map text names.now) (suc k) }
{
    let Some((_, others)) = names.split_first() else {
        return names;
    };
    others
}

/// Fills the slot of the first of these parts. If it is filled already, returns the name of the
/// part.
fn place<'names, A: Drop>(
    slot: &mut Option<A>,
    value: A,
    names: &[&'names str],
) -> Option<&'names str>
    ensures { IsPlaced slot.old value (name_at (map text names.now) zero) result slot.new }
{
    if slot.is_some() {
        return Some(first_name(names));
    }
    *slot = Some(value);
    None
}

/// Returns the value in the slot of a part, or the default if the slot is empty.
fn or_default<V: DefaultValue>(
    slot: Option<V::Value>,
    decoder: &Decoder<'_>,
) -> Result<V::Value, DecodeError>
    ensures made { IsOrDefault V.Value.tree V.default_tree slot result }
    ensures rules { IfErr result (λ e. e.codec ≡ decoder.now.rule) }
{
    let alloc = decoder.alloc();
    match slot {
        Some(value) => Ok(value),
        None => decoder.default_value(
            || -> Result<V::Value, AllocError>
                ensures { IfOk result (λ v. V.Value.tree v ≡ V.default_tree) }
            { V::default_value(alloc) },
        ),
    }
}

impl DecodeSetParts for End {
    ghost use Rattle.std.specs.Prelude.{true, []};
    ghost use Rattle.rasn_types.specs.Shapes.{done};
    ghost use Rattle.rasn_types.specs.Shapes.Parts.{none};

    type Slots = End;

    ghost parts = { none };

    ghost tree = { λ e. done };

    ghost held = { λ c. [] };

    ghost kept = { λ starts c. Unit {0} };

    ghost beyond = { λ starts p. Unit {0} };

    ghost tags_differ = { true };

    fn empty(_alloc: Global) -> End {
        End
    }

    fn decode_component<'names>(
        _slots: &mut End,
        decoder: &mut Decoder<'_>,
        _tag: Tag,
        name: &str,
        _names: &[&'names str],
    ) -> Result<Option<&'names str>, DecodeError> {
        Err(DecodeError::no_valid_choice(decoder.alloc(), name, decoder.codec()))
    }

    fn gather(_slots: End, _decoder: &Decoder<'_>, _names: &[&str]) -> Result<End, DecodeError> {
        Ok(End)
    }
}

/// The components of a SET with an extension marker that its type doesn't name (X.680 27), each
/// kept as its octets.
impl DecodeSetParts for Unknown {
    ghost use Rattle.std.specs.Prelude.{true, [], map};
    ghost use Rattle.rasn_types.specs.Shapes.{numbers, joined, done};
    ghost use Rattle.rasn_types.specs.Shapes.Parts.{none};
    ghost use Rattle.rasn_types.specs.Trees.{list_tree};

    type Slots = Unknown;

    ghost parts = { none };

    ghost extensible = { true };

    ghost tree = { λ u. joined (list_tree numbers u.values.items) done };

    ghost held = { λ u. [] };

    ghost others = { λ u. map numbers u.values.items };

    ghost kept = { λ starts u. Unit {0} };

    ghost beyond = { λ starts u. Unit {0} };

    ghost tags_differ = { true };

    fn empty(alloc: Global) -> Unknown {
        Unknown::new(alloc)
    }

    fn decode_component<'names>(
        slots: &mut Unknown,
        decoder: &mut Decoder<'_>,
        _tag: Tag,
        _name: &str,
        _names: &[&'names str],
    ) -> Result<Option<&'names str>, DecodeError> {
        let value = decoder.decode_any(Tag::EOC)?;
        match slots.values.push(value) {
            Ok(()) => Ok(None),
            Err(_) => Err(decoder.error(ParseError::OutOfMemory)),
        }
    }

    fn gather(
        slots: Unknown,
        _decoder: &Decoder<'_>,
        _names: &[&str],
    ) -> Result<Unknown, DecodeError> {
        Ok(slots)
    }
}

impl<A: Decode, R: DecodeSetParts> DecodeSetParts for Required<A, R> {
    ghost use Rattle.std.specs.Prelude.{◌&&◌, ◌∷◌, Some};
    ghost use Rattle.rasn_types.specs.Shapes.{part, required, joined};
    ghost use Rattle.rasn_de.specs.AlternativeTypes.{is_first_alone};
    ghost use Rattle.rasn_de.specs.SetPartTypes.{held_tree};
    ghost use Rattle.rasn_de.specs.Beyond.{got, BeyondSlot};
    ghost use Rattle.rasn_de.specs.ValueErrors.{IsErrorOfAlternative};

    type Slots = (Option<A>, R::Slots);

    ghost parts = { part required A.shape R.parts };

    ghost extensible = { R.extensible };

    ghost tree = { λ p. joined (A.tree p.0) (R.tree p.1) };

    ghost held = { λ c. held_tree A.tree c.0 ∷ R.held c.1 };

    ghost others = { λ c. R.others c.1 };

    ghost kept = { λ starts c. BeyondSlot (got (A.beyond A.TAG)) starts c.0 × R.kept starts c.1 };

    ghost beyond = { λ starts p. BeyondSlot (got (A.beyond A.TAG)) starts (Some p.0) × R.beyond starts p.1 };

    ghost errors = { IsErrorOfAlternative A.TAG (A.errors A.TAG A.CONSTRAINTS) R.errors };

    ghost tags_differ = { is_first_alone A.shape A.TAG R.parts && R.tags_differ };

    fn empty(alloc: Global) -> (Option<A>, R::Slots) {
        (None, R::empty(alloc))
    }

    fn decode_component<'names>(
        slots: &mut (Option<A>, R::Slots),
        decoder: &mut Decoder<'_>,
        tag: Tag,
        name: &str,
        names: &[&'names str],
    ) -> Result<Option<&'names str>, DecodeError> {
        if tag == A::TAG {
            let value = A::decode(decoder)?;
            return Ok(place(&mut slots.0, value, names));
        }
        R::decode_component(&mut slots.1, decoder, tag, name, other_names(names))
    }

    fn gather(
        slots: (Option<A>, R::Slots),
        decoder: &Decoder<'_>,
        names: &[&str],
    ) -> Result<Required<A, R>, DecodeError> {
        let (value, others) = slots;
        let Some(value) = value else {
            return Err(DecodeError::missing_field(
                decoder.alloc(),
                first_name(names),
                decoder.codec(),
            ));
        };
        let rest = R::gather(others, decoder, other_names(names))?;
        Ok(Required(value, rest))
    }
}

impl<A: Decode, R: DecodeSetParts> DecodeSetParts for Optional<A, R> {
    ghost use Rattle.std.specs.Prelude.{◌&&◌, ◌∷◌};
    ghost use Rattle.rasn_types.specs.Shapes.{part, optional, joined};
    ghost use Rattle.rasn_types.specs.Trees.{option_tree};
    ghost use Rattle.rasn_de.specs.AlternativeTypes.{is_first_alone};
    ghost use Rattle.rasn_de.specs.SetPartTypes.{held_tree};
    ghost use Rattle.rasn_de.specs.Beyond.{got, BeyondSlot};
    ghost use Rattle.rasn_de.specs.ValueErrors.{IsErrorOfAlternative};

    type Slots = (Option<A>, R::Slots);

    ghost parts = { part optional A.shape R.parts };

    ghost extensible = { R.extensible };

    ghost tree = { λ p. joined (option_tree A.tree p.0) (R.tree p.1) };

    ghost held = { λ c. held_tree A.tree c.0 ∷ R.held c.1 };

    ghost others = { λ c. R.others c.1 };

    ghost kept = { λ starts c. BeyondSlot (got (A.beyond A.TAG)) starts c.0 × R.kept starts c.1 };

    ghost beyond = { λ starts p. BeyondSlot (got (A.beyond A.TAG)) starts p.0 × R.beyond starts p.1 };

    ghost errors = { IsErrorOfAlternative A.TAG (A.errors A.TAG A.CONSTRAINTS) R.errors };

    ghost tags_differ = { is_first_alone A.shape A.TAG R.parts && R.tags_differ };

    fn empty(alloc: Global) -> (Option<A>, R::Slots) {
        (None, R::empty(alloc))
    }

    fn decode_component<'names>(
        slots: &mut (Option<A>, R::Slots),
        decoder: &mut Decoder<'_>,
        tag: Tag,
        name: &str,
        names: &[&'names str],
    ) -> Result<Option<&'names str>, DecodeError> {
        if tag == A::TAG {
            let value = A::decode(decoder)?;
            return Ok(place(&mut slots.0, value, names));
        }
        R::decode_component(&mut slots.1, decoder, tag, name, other_names(names))
    }

    fn gather(
        slots: (Option<A>, R::Slots),
        decoder: &Decoder<'_>,
        names: &[&str],
    ) -> Result<Optional<A, R>, DecodeError> {
        let rest = R::gather(slots.1, decoder, other_names(names))?;
        Ok(Optional(slots.0, rest))
    }
}

impl<V: DefaultValue, R: DecodeSetParts> DecodeSetParts for Defaulted<V, R>
where
    V::Value: Decode,
{
    ghost use Rattle.std.specs.Prelude.{◌&&◌, ◌∷◌, ◌≡◌, ◌⊎◌, Some, IfOk};
    ghost use Rattle.rasn_types.specs.Shapes.{part, default, joined};
    ghost use Rattle.rasn_de.specs.PartTypes.{is_looked_for};
    ghost use Rattle.rasn_de.specs.AlternativeTypes.{is_first_alone};
    ghost use Rattle.rasn_de.specs.SetPartTypes.{held_tree};
    ghost use Rattle.rasn_de.specs.Beyond.{got, BeyondSlot};
    ghost use Rattle.rasn_de.specs.Optional.{DecodesOrDefault};
    ghost use Rattle.rasn_de.specs.ValueErrors.{errors_of, DecodesOr, IsErrorOfAlternative};

    type Slots = (Option<V::Value>, R::Slots);

    ghost parts = { part (default V.default_tree) V.Value.shape R.parts };

    ghost extensible = { R.extensible };

    ghost tree = { λ p. joined (V.Value.tree p.0) (R.tree p.1) };

    ghost held = { λ c. held_tree V.Value.tree c.0 ∷ R.held c.1 };

    ghost others = { λ c. R.others c.1 };

    ghost kept = { λ starts c. BeyondSlot (got (V.Value.beyond V.Value.TAG)) starts c.0 × R.kept starts c.1 };

    ghost beyond = { λ starts p. (BeyondSlot (got (V.Value.beyond V.Value.TAG)) starts (Some p.0) ⊎ (V.Value.tree p.0 ≡ V.default_tree)) × R.beyond starts p.1 };

    ghost errors = { IsErrorOfAlternative V.Value.TAG (errors_of (DecodesOrDefault (DecodesOr V.Value.shape V.Value.tree (V.Value.errors V.Value.TAG V.Value.CONSTRAINTS)) V.Value.tree (λ made. IfOk made (λ v. V.Value.tree v ≡ V.default_tree)) V.Value.TAG)) R.errors };

    ghost tags_differ = { is_first_alone V.Value.shape V.Value.TAG R.parts && (is_looked_for V.Value.shape V.Value.TAG && R.tags_differ) };

    fn empty(alloc: Global) -> (Option<V::Value>, R::Slots) {
        (None, R::empty(alloc))
    }

    fn decode_component<'names>(
        slots: &mut (Option<V::Value>, R::Slots),
        decoder: &mut Decoder<'_>,
        tag: Tag,
        name: &str,
        names: &[&'names str],
    ) -> Result<Option<&'names str>, DecodeError> {
        if tag == V::Value::TAG {
            let alloc = decoder.alloc();
            let value = decoder.decode_default::<V::Value, _>(
                || -> Result<V::Value, AllocError>
                    ensures { IfOk result (λ v. V.Value.tree v ≡ V.default_tree) }
                { V::default_value(alloc) },
            )?;
            return Ok(place(&mut slots.0, value, names));
        }
        R::decode_component(&mut slots.1, decoder, tag, name, other_names(names))
    }

    fn gather(
        slots: (Option<V::Value>, R::Slots),
        decoder: &Decoder<'_>,
        names: &[&str],
    ) -> Result<Defaulted<V, R>, DecodeError> {
        let value = or_default::<V>(slots.0, decoder)?;
        let rest = R::gather(slots.1, decoder, other_names(names))?;
        Ok(Defaulted(value, rest))
    }
}

impl<'input> Decoder<'input> {
    /// Reads one more component, which must consume octets, and puts it into the slot of its part.
    /// If the slot is filled already, returns the name of the part.
    fn next_component<'names, P: DecodeSetParts>(
        &mut self,
        slots: &mut P::Slots,
        name: &str,
        names: &[&'names str],
    ) -> Result<Option<&'names str>, DecodeError>
        requires { P.tags_differ ≡ true }
        ensures exact { DecodesNext P.extensible P.parts (map text names.now) (P.held slots.old) (P.others slots.old) self.old result self.new (P.held slots.new) (P.others slots.new) }
        ensures fails { IfErr result (λ e. RefusesElement (DecodesOneOf P.extensible P.parts name.now P.errors) self.old e self.new) }
        ensures kept { (starts : List State) → Contains starts self.old → P.kept starts slots.old → IfOk result (λ r. P.kept starts slots.new) }
        ensures rules { IfErr result (λ e. e.codec ≡ self.old.rule) }
    {
        let left = self.rest.len();
        let tag = self.peek_tag()?;
        let twice = P::decode_component(slots, self, tag, name, names)?;
        if self.rest.len() == left {
            return Err(self.error(ParseError::UnexpectedExtraData { length: left }));
        }
        Ok(twice)
    }

    /// Reads components up to the end of the contents, and makes the parts from them. Under DER the
    /// tags of the components must be in ascending order (X.690 10.3).
    fn set_parts<P: DecodeSetParts>(&mut self, name: &str, names: &[&str]) -> Result<P, DecodeError>
        requires { P.tags_differ ≡ true }
        ensures exact { DecodesSetPartContents P.extensible P.parts P.tree (map text names.now) self.old result self.new }
        ensures fails { DecodesNamedContents P.extensible P.parts P.tree name.now (map text names.now) P.errors self.old result self.new }
        ensures beyond { IfOk result (λ v. BeyondSet P.extensible P.parts P.beyond self.old v self.new) }
        ensures rules { IfErr result (λ e. e.codec ≡ self.old.rule) }
    {
        let mut slots = P::empty(self.alloc);
        let mut twice = None;
        let mut last = None;
        while !self.has_ended() {
            last = self.peek_tag_in_order(last)?;
            let next = self.next_component::<P>(&mut slots, name, names)?;
            twice = twice.or(next);
        }
        if let Some(part) = twice {
            return Err(DecodeError::duplicate_field(self.alloc, part, self.codec()));
        }
        P::gather(slots, self, names)
    }

    /// Reads the parts of a SET (X.690 8.11), which are in any order, each once. Under DER the tag
    /// of a component must not be less than that of the one before it (X.690 10.3). `name` is the
    /// name of the type, and `names` are those of its parts, in their order; errors contain them.
    ///
    /// # Errors
    /// - `ExceedsMaxParseDepth`, which is checked before the header, and framing errors: nothing is
    ///   consumed.
    /// - `InvalidConstructedIdentifier`: the value is consumed.
    /// - The error of the first component that can't be read: an error in its identifier, under DER
    ///   `SetComponentsOutOfOrder`, `NoValidChoice` if no part has its tag and the SET has no
    ///   extension marker, the error of its part, or `UnexpectedExtraData` if it consumes nothing.
    ///   The header and the contents are consumed, or only the header if the length is indefinite.
    /// - If all components are read, `DuplicateField` for the first component whose part was read
    ///   before, or else `MissingField` for the first required part that is missing. `OutOfMemory`
    ///   is reported then only if a part was read before, or a required part or one with a default
    ///   is missing. The same octets are consumed.
    /// - Last, missing end-of-contents octets (`Incomplete`): what was read inside is consumed too.
    ///
    /// `decode_set` reports errors in the same order.
    ///
    /// If the parts end with [`Unknown`], the SET has an extension marker (X.680 27): a component
    /// with the tag of no part is kept as its octets, anywhere among the others.
    ///
    /// A SET without one is read in the same way whether its shape lists the parts in the order of
    /// their tags (`reads`) or is put in this order (`sorted`).
    pub fn read_set<P: DecodeSetParts>(
        &mut self,
        tag: Tag,
        name: &str,
        names: &[&str],
    ) -> Result<P, DecodeError>
        requires { P.tags_differ ≡ true }
        ensures exact { DecodesSetParts P.extensible P.parts P.tree (map text names.now) tag self.old result self.new }
        ensures fails { DecodesNamedParts P.extensible P.parts P.tree name.now (map text names.now) P.errors tag self.old result self.new }
        ensures reads { Decodes (set_by P.extensible tag P.parts) P.tree self.old result self.new }
        ensures sorted { Decodes (sorted_set P.extensible tag P.parts) P.tree self.old result self.new }
        ensures beyond { IfOk result (λ v. BeyondInside (BeyondSet P.extensible P.parts P.beyond) (sequence_header tag) self.old v) }
        ensures rules { IfErr result (λ e. e.codec ≡ self.old.rule) }
    {
        self.inside(
            ConstructedHeader::sequence(tag),
            |inner| -> Result<P, DecodeError>
                requires { P.tags_differ ≡ true }
                ensures exact { DecodesSetPartContents P.extensible P.parts P.tree (map text names.entry.now) inner.old result inner.new }
                ensures fails { DecodesNamedContents P.extensible P.parts P.tree name.entry.now (map text names.entry.now) P.errors inner.old result inner.new }
                ensures rules { IfErr result (λ e. e.codec ≡ inner.old.rule) }
                ensures beyond { IfOk result (λ v. BeyondSet P.extensible P.parts P.beyond inner.old v inner.new) }
            { inner.set_parts::<P>(name, names) },
        )
    }
}
