//! Constraints as octets.
ghost use Rattle.std.specs.Prelude.{◌≡◌};
ghost use Rattle.rasn_types.specs.Shapes.{number};
ghost use Rattle.rasn_types.specs.Trees.{option_tree};
ghost use Rattle.rasn_schema_octets.specs.Trees.{bound_tree, index_tree};

use rasn::error::{DecodeError, EncodeError};
use rasn::parts::OneOf::{Other, This};
use rasn::parts::{
    DecodeAlternatives, DecodeParts, End, Last, OneOf, Optional, Put, PutOptional, Required,
};
use rasn::types::{
    AsnType, Bound, Bounded, Constraints, ContextTag, Explicit, Identifier, Implicit, Tag,
};
use rasn::{Decode, Decoder, Encode, Encoder};

/// Both ends of a range: SEQUENCE { start \[0\] EXPLICIT INTEGER OPTIONAL, end \[1\] EXPLICIT
/// INTEGER OPTIONAL }.
#[derive(Drop)]
pub struct EndsForm<T> {
    /// The lower end, unless it is open.
    pub start: Option<Explicit<ContextTag<0>, T>>,
    /// The upper end, unless it is open.
    pub end: Option<Explicit<ContextTag<1>, T>>,
}

impl<T: AsnType> AsnType for EndsForm<T> {
    ghost use Rattle.std.specs.Prelude.{refl};
    ghost use Rattle.rasn_types.specs.Tags.{in_universal};
    ghost use Rattle.rasn_types.specs.Trees.{unconstrained};
    ghost use Rattle.std.specs.Prelude.{◌∷◌, []};
    ghost use Rattle.rasn_types.specs.Shapes.{seq, items};
    ghost use Rattle.rasn_types.specs.Trees.{option_tree};
    ghost use Rattle.rasn_schema_octets.specs.Shapes.{ends_parts};

    ghost TAG = { in_universal 16 };

    const TAG: Tag = Tag::SEQUENCE;

    ghost CONSTRAINTS = { unconstrained };

    const CONSTRAINTS: Constraints = Constraints::NONE;

    ghost shape = { seq (in_universal 16) (ends_parts T.shape) };

    ghost tree = { λ e. items (option_tree T.tree e.start ∷ option_tree T.tree e.end ∷ []) };

    ghost own = { refl };
}

/// The components of `EndsForm`, as they are read.
type EndsParts<T> = Optional<Explicit<ContextTag<0>, T>, Optional<Explicit<ContextTag<1>, T>, End>>;

impl<T: Decode> Decode for EndsForm<T> {
    ghost use Rattle.rasn_de.specs.PartTypes.{DecodesSequenceParts};
    ghost use Rattle.rasn_de.specs.ValueErrors.{errors_of};

    ghost errors = { λ tag _. errors_of (DecodesSequenceParts ⟦<EndsParts<T> as DecodeParts>⟧.parts ⟦<EndsParts<T> as DecodeParts>⟧.tree ⟦<EndsParts<T> as DecodeParts>⟧.errors tag) };

    fn decode_with_tag_and_constraints(
        decoder: &mut Decoder<'_>,
        tag: Tag,
        _constraints: &Constraints,
    ) -> Result<EndsForm<T>, DecodeError> {
        let parts = match decoder.read_sequence::<EndsParts<T>>(tag) {
            Ok(parts) => parts,
            Err(error) => return Err(error),
        };
        let Optional(start, Optional(end, End)) = parts;
        Ok(EndsForm { start, end })
    }
}

impl<T: Encode> Encode for EndsForm<T> {
    fn encode_with_tag_and_constraints(
        &self,
        encoder: &mut Encoder,
        tag: Tag,
        _constraints: &Constraints,
        _identifier: Identifier,
    ) -> Result<(), EncodeError> {
        encoder.write_sequence(tag, PutOptional(&self.start, PutOptional(&self.end, End)))
    }

    fn is_present(&self) -> bool {
        true
    }
}

/// A range: CHOICE { all \[0\] NULL, single \[1\] EXPLICIT INTEGER, ends \[2\] EndsForm }.
#[derive(Drop)]
pub struct RangeForm<T> {
    /// The range.
    pub range: Bounded<T>,
}

impl<T: AsnType> AsnType for RangeForm<T> {
    ghost use Rattle.std.specs.Prelude.{refl};
    ghost use Rattle.rasn_types.specs.Tags.{eoc};
    ghost use Rattle.rasn_types.specs.Trees.{unconstrained};
    ghost use Rattle.rasn_types.specs.Shapes.{choice};
    ghost use Rattle.rasn_schema_octets.specs.Shapes.{range_alternatives};
    ghost use Rattle.rasn_schema_octets.specs.Trees.{range_tree};

    ghost TAG = { eoc };

    const TAG: Tag = Tag::EOC;

    ghost CONSTRAINTS = { unconstrained };

    const CONSTRAINTS: Constraints = Constraints::NONE;

    ghost shape = { choice (range_alternatives T.shape) };

    ghost tree = { λ f. range_tree T.tree f.range };

    ghost own = { refl };
}

/// The alternatives, as they are read.
type Alternatives<T> = OneOf<
    Implicit<ContextTag<0>, ()>,
    OneOf<Explicit<ContextTag<1>, T>, Last<Implicit<ContextTag<2>, EndsForm<T>>>>,
>;

/// Returns the range between two ends.
fn between<T>(ends: EndsForm<T>) -> Bounded<T>
    ensures { result ≡ Bounded.Range ends.start ends.end }
{
    let EndsForm { start, end } = ends;
    Bounded::Range {
        start: start.map(|low| low.into_inner()),
        end: end.map(|high| high.into_inner()),
    }
}

impl<T: Decode> Decode for RangeForm<T> {
    ghost use Rattle.std.specs.Prelude.{codes};
    ghost use Rattle.rasn_de.specs.AlternativeTypes.{DecodesAlternativeBy};
    ghost use Rattle.rasn_de.specs.ValueErrors.{errors_of, IsErrorByTag};

    ghost errors = { λ _ _ old e new. errors_of (DecodesAlternativeBy ⟦<Alternatives<T> as DecodeAlternatives>⟧.extensible ⟦<Alternatives<T> as DecodeAlternatives>⟧.parts ⟦<Alternatives<T> as DecodeAlternatives>⟧.inner (codes "Range")) old e new × IsErrorByTag ⟦<Alternatives<T> as DecodeAlternatives>⟧.errors old e new };

    fn decode_with_tag_and_constraints(
        decoder: &mut Decoder<'_>,
        _tag: Tag,
        _constraints: &Constraints,
    ) -> Result<RangeForm<T>, DecodeError> {
        match decoder.read_choice::<Alternatives<T>>("Range") {
            Ok(This(_)) => Ok(RangeForm {
                range: Bounded::None,
            }),
            Ok(Other(This(single))) => Ok(RangeForm {
                range: Bounded::Single(single.into_inner()),
            }),
            Ok(Other(Other(Last(ends)))) => Ok(RangeForm {
                range: between(ends.into_inner()),
            }),
            Err(error) => Err(error),
        }
    }
}

/// The alternatives, as they are written.
type Written<'a, T> = OneOf<
    &'a Implicit<ContextTag<0>, ()>,
    OneOf<&'a Explicit<ContextTag<1>, T>, Last<&'a Implicit<ContextTag<2>, EndsForm<T>>>>,
>;

impl<T: Encode + Copy> Encode for RangeForm<T> {
    fn encode_with_tag_and_constraints(
        &self,
        encoder: &mut Encoder,
        _tag: Tag,
        _constraints: &Constraints,
        _identifier: Identifier,
    ) -> Result<(), EncodeError> {
        match self.range {
            Bounded::None => encoder.write_choice::<Written<'_, T>>(This(&Implicit::new(()))),
            Bounded::Single(single) => {
                encoder.write_choice::<Written<'_, T>>(Other(This(&Explicit::new(single))))
            }
            Bounded::Range { start, end } => {
                let ends = EndsForm {
                    start: start.map(Explicit::new),
                    end: end.map(Explicit::new),
                };
                encoder.write_choice::<Written<'_, T>>(Other(Other(Last(&Implicit::new(ends)))))
            }
        }
    }

    fn is_present(&self) -> bool {
        true
    }
}

/// A bound: SEQUENCE { extensible BOOLEAN, range RangeForm }.
#[derive(Drop)]
pub struct BoundForm<T> {
    /// The bound.
    pub bound: Bound<T>,
}

impl<T: AsnType> AsnType for BoundForm<T> {
    ghost use Rattle.std.specs.Prelude.{refl};
    ghost use Rattle.rasn_types.specs.Tags.{in_universal};
    ghost use Rattle.rasn_types.specs.Trees.{unconstrained};
    ghost use Rattle.rasn_types.specs.Shapes.{seq};
    ghost use Rattle.rasn_schema_octets.specs.Shapes.{bound_parts};
    ghost use Rattle.rasn_schema_octets.specs.Trees.{bound_tree};

    ghost TAG = { in_universal 16 };

    const TAG: Tag = Tag::SEQUENCE;

    ghost CONSTRAINTS = { unconstrained };

    const CONSTRAINTS: Constraints = Constraints::NONE;

    ghost shape = { seq (in_universal 16) (bound_parts T.shape) };

    ghost tree = { λ f. bound_tree T.tree f.bound };

    ghost own = { refl };
}

/// The components of `BoundForm`, as they are read.
type BoundParts<T> = Required<bool, Required<RangeForm<T>, End>>;

impl<T: Decode> Decode for BoundForm<T> {
    ghost use Rattle.rasn_de.specs.PartTypes.{DecodesSequenceParts};
    ghost use Rattle.rasn_de.specs.ValueErrors.{errors_of};

    ghost errors = { λ tag _. errors_of (DecodesSequenceParts ⟦<BoundParts<T> as DecodeParts>⟧.parts ⟦<BoundParts<T> as DecodeParts>⟧.tree ⟦<BoundParts<T> as DecodeParts>⟧.errors tag) };

    fn decode_with_tag_and_constraints(
        decoder: &mut Decoder<'_>,
        tag: Tag,
        _constraints: &Constraints,
    ) -> Result<BoundForm<T>, DecodeError> {
        let parts = match decoder.read_sequence::<BoundParts<T>>(tag) {
            Ok(parts) => parts,
            Err(error) => return Err(error),
        };
        let Required(extensible, Required(form, End)) = parts;
        let RangeForm { range } = form;
        Ok(BoundForm {
            bound: Bound {
                constraint: range,
                extensible,
            },
        })
    }
}

impl<T: Encode + Copy> Encode for BoundForm<T> {
    fn encode_with_tag_and_constraints(
        &self,
        encoder: &mut Encoder,
        tag: Tag,
        _constraints: &Constraints,
        _identifier: Identifier,
    ) -> Result<(), EncodeError> {
        let range = RangeForm {
            range: self.bound.constraint,
        };
        encoder.write_sequence(tag, Put(&self.bound.extensible, Put(&range, End)))
    }

    fn is_present(&self) -> bool {
        true
    }
}

/// The constraints of a type: SEQUENCE { value \[0\] BoundForm OPTIONAL, size \[1\] BoundForm
/// OPTIONAL }.
#[derive(Drop)]
pub struct ConstraintsForm {
    /// The constraints.
    pub constraints: Constraints,
}

impl AsnType for ConstraintsForm {
    ghost use Rattle.std.specs.Prelude.{refl};
    ghost use Rattle.rasn_types.specs.Tags.{in_universal};
    ghost use Rattle.rasn_types.specs.Trees.{unconstrained};
    ghost use Rattle.rasn_schema_octets.specs.Shapes.{constraints_shape};
    ghost use Rattle.rasn_schema_octets.specs.Trees.{constraints_tree};

    ghost TAG = { in_universal 16 };

    const TAG: Tag = Tag::SEQUENCE;

    ghost CONSTRAINTS = { unconstrained };

    const CONSTRAINTS: Constraints = Constraints::NONE;

    ghost shape = { constraints_shape };

    ghost tree = { λ f. constraints_tree f.constraints };

    ghost own = { refl };
}

/// The components of `ConstraintsForm`, as they are read.
type ConstraintsParts = Optional<
    Implicit<ContextTag<0>, BoundForm<i128>>,
    Optional<Implicit<ContextTag<1>, BoundForm<usize>>, End>,
>;

impl Decode for ConstraintsForm {
    ghost use Rattle.rasn_de.specs.PartTypes.{DecodesSequenceParts};
    ghost use Rattle.rasn_de.specs.ValueErrors.{errors_of};

    ghost errors = { λ tag _. errors_of (DecodesSequenceParts ⟦<ConstraintsParts as DecodeParts>⟧.parts ⟦<ConstraintsParts as DecodeParts>⟧.tree ⟦<ConstraintsParts as DecodeParts>⟧.errors tag) };

    fn decode_with_tag_and_constraints(
        decoder: &mut Decoder<'_>,
        tag: Tag,
        _constraints: &Constraints,
    ) -> Result<ConstraintsForm, DecodeError> {
        let parts = match decoder.read_sequence::<ConstraintsParts>(tag) {
            Ok(parts) => parts,
            Err(error) => return Err(error),
        };
        let Optional(value, Optional(size, End)) = parts;
        let constraints = Constraints {
            value: value_of(value),
            size: size_of(size),
        };
        Ok(ConstraintsForm { constraints })
    }
}

fn value_of(form: Option<Implicit<ContextTag<0>, BoundForm<i128>>>) -> Option<Bound<i128>>
    ensures { option_tree (bound_tree number) result ≡ option_tree (λ f. bound_tree number f.bound) form }
{
    match form {
        Some(form) => {
            let BoundForm { bound } = form.into_inner();
            Some(bound)
        }
        None => None,
    }
}

fn size_of(form: Option<Implicit<ContextTag<1>, BoundForm<usize>>>) -> Option<Bound<usize>>
    ensures { option_tree (bound_tree index_tree) result ≡ option_tree (λ f. bound_tree index_tree f.bound) form }
{
    match form {
        Some(form) => {
            let BoundForm { bound } = form.into_inner();
            Some(bound)
        }
        None => None,
    }
}

fn value_form(bound: Option<Bound<i128>>) -> Option<Implicit<ContextTag<0>, BoundForm<i128>>>
    ensures { option_tree (λ f. bound_tree number f.bound) result ≡ option_tree (bound_tree number) bound }
{
    match bound {
        Some(bound) => Some(Implicit::new(BoundForm { bound })),
        None => None,
    }
}

fn size_form(bound: Option<Bound<usize>>) -> Option<Implicit<ContextTag<1>, BoundForm<usize>>>
    ensures { option_tree (λ f. bound_tree index_tree f.bound) result ≡ option_tree (bound_tree index_tree) bound }
{
    match bound {
        Some(bound) => Some(Implicit::new(BoundForm { bound })),
        None => None,
    }
}

impl Encode for ConstraintsForm {
    fn encode_with_tag_and_constraints(
        &self,
        encoder: &mut Encoder,
        tag: Tag,
        _constraints: &Constraints,
        _identifier: Identifier,
    ) -> Result<(), EncodeError> {
        let value = value_form(self.constraints.value);
        let size = size_form(self.constraints.size);
        encoder.write_sequence(tag, PutOptional(&value, PutOptional(&size, End)))
    }

    fn is_present(&self) -> bool {
        true
    }
}
