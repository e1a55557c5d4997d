//! Reads a value of a type.
ghost use Rattle.std.specs.Prelude.{◌≡◌, ◌≢◌, ◌⊎◌, ◌<◌, ◌^◌, ◌++◌, ◌∷◌, List, [], length, reverse, true, false, slice_get, Some, None, Err, OnOk, IfOk, IfErr};
ghost use Rattle.rasn_types.specs.Framing.{Ended, NextTag};
ghost use Rattle.rasn_types.specs.Errors.{IsOutOfMemory};
ghost use Rattle.rasn_types.specs.Shapes.{any, unknown as unknown_values, items, sought_by};
ghost use Rattle.rasn_de.specs.State.{State};
ghost use Rattle.rasn_de.specs.Decodes.{Decodes, DecodesBy};
ghost use Rattle.rasn_de.specs.SequenceOf.{DecodesElements, DecodesElementsInOrder};
ghost use Rattle.rasn_de.specs.Optional.{NextIs};
ghost use Rattle.rasn_de.specs.PartTypes.{FailsAtPart, FailsAtOnePart};
ghost use Rattle.rasn_de.specs.SetPartTypes.{DecodesSetPartContents};
ghost use Rattle.rasn_dynamic.specs.Sets.{AreLawfulMembers, named_components as named_in};
ghost use Rattle.rasn_de.specs.Steps.{IsErrorOf};
ghost use Rattle.rasn_de.specs.declared.ber.de.parser.ParseError.TheVariants.{UnexpectedEmptyInput, OutOfMemory};
ghost use Rattle.rasn_schema.specs.declared.types.«Type».{«Type»};
ghost use Rattle.rasn_schema.specs.declared.types.Presence.TheVariants.{Default};
ghost use Rattle.rasn_schema.specs.declared.value.Value.{Items, Elements};
ghost use Rattle.rasn_types.specs.Tags.{IsStrict, eoc, form};
ghost use Rattle.rasn_types.specs.Trees.{unconstrained};
ghost use Rattle.rasn_schema.specs.declared.types.«Type».TheVariants.{Sequence, Set, SequenceOf, SetOf};
ghost use Rattle.rasn_schema.specs.Trees.{tree_of};
ghost use Rattle.rasn_schema.specs.Shapes.{shape_of_type, type_by, alternatives_by, choice_among, components_by, key_of, presence_in, presence_of, IsReadable, AreReadable};
ghost use Rattle.rasn_dynamic.specs.Inside.{ReadsSequence, DecodesTree, DecodesComponent};
ghost use Rattle.rasn_dynamic.specs.Parts.{IsHeaderOf};
ghost use Rattle.rasn_dynamic.specs.Readers.{count_of, IsSizedAs, DecodesCounted, DecodesHeld, ReadsContents, ReadsType};
ghost use Rattle.rasn_dynamic.specs.Nested.{ReadsPart, ReadsWithin};
ghost use Rattle.rasn_dynamic.specs.Making.{Making, Counting, IsLength, outcome, reported, trees_of, these};
ghost use Rattle.rasn_dynamic.specs.Typed.{HoldsOthers, IsSized, MayRunOut, DecodesContents};
ghost use Rattle.rasn_dynamic.specs.Calls.{Gathers, any_required, is_required, IsMade, AreSettled, nones, names_of, IsAppended, DecodesPresent, DecodesMember, IsNoAlternative, IsNoMember};
ghost use Rattle.rasn_schema.specs.Fitting.{IsChosen, AlternativeFits, ComponentFits, ComponentsFit, EachFits, AreOctets as AreOctetsValue};
ghost use Rattle.rasn_dynamic.specs.Found.{FoundFit, MembersFit};
ghost use Rattle.rasn_dynamic.specs.Faults.{IsFault, IsFaultIn, IsOnly, IsAlternativeAt, IsElementAt, IsComponentAt, IsMemberHere, IsMemberAfter, Told, TellsOf, FailsAt, StopsAtChoice, StopsInElements, StopsInOrder, StopsInSequence, StopsAtComponent, IsDefaultWritten, StopsInSet, StopsAtMember};
ghost use Rattle.rasn_dynamic.specs.Listed.{Lists, Inside, PartsInside, PartListed, UnknownListed, AlternativeListed, ElementsListed, ComponentsListed, ComponentListed, MembersListed, MemberListed};
ghost use Rattle.rasn_dynamic.specs.Times.{Covers, FitsFrom};

use crate::components::{is_always_there, leaves_all_out, missing};
use crate::made::Made;
use crate::nested::{Nested, NextPart, ascend, choice_at, choose, descend};
use crate::order::{is_less, octets_before};
use crate::read_leaf::{decode_any_value, put_any, put_leaf, put_number, put_unknown};
use crate::refuse::{
    refuse_choice, refuse_default, refuse_extra, refuse_memory, refuse_no_value, refuse_order,
    refuse_size,
};
use crate::set::{
    Members, all_absent, component_for, gather, last_type, named_components, no_components, put,
};
use crate::span::{finish, go_inside, go_outside, note};
use crate::trace::{mark, mark_part, octets_left, step};
use crate::types::Types;
use crate::walk::{Refused, Walk, count_after, kept, peek, peek_in_order};
use rasn_de::ber::de::{ConstructedHeader, Decoder};
use rasn_de::de::Error;
use rasn_schema::{
    Alternative, Component, Presence, Type, TypeId, Value, alternative_for, begins, is_choice_at,
    tag_at,
};
use rasn_types::error::DecodeError;
use rasn_types::types::{Constraints, Tag};

/// Moves a value to the end of a list, where values are kept.
#[inline(always)]
fn take<'input, M: Made>(
    decoder: &Decoder<'input>,
    error: &mut DecodeError,
    value: &mut Value<'input>,
    values: &mut Vec<Value<'input>>,
) -> Result<(), Refused>
    ensures ok { M.KEEP ≡ true → OnOk result (values.new.items ≡ values.old.items ++ value.old ∷ []) }
    ensures memory { IfErr (reported result error.new) (IsErrorOf OutOfMemory decoder.now) }
    ensures kind { IfErr (reported result error.new) (λ e. IsOutOfMemory e.kind) }
    ensures rules { IfErr (reported result error.new) (λ e. e.codec ≡ decoder.now.rule) }
{
    if !M::KEEP {
        return Ok(());
    }
    match values.push(std::mem::replace(value, Value::Absent)) {
        Ok(()) => Ok(()),
        Err(_) => {
            refuse_memory(error, decoder);
            Err(Refused)
        }
    }
}

/// Moves a value to the end of a list, where values are kept. It must have taken some of the input.
#[inline(always)]
fn keep<'input, M: Made>(
    decoder: &Decoder<'input>,
    error: &mut DecodeError,
    left: usize,
    value: &mut Value<'input>,
    values: &mut Vec<Value<'input>>,
) -> Result<(), Refused>
    ensures appended { IsAppended M.KEEP left decoder.now value.old values.old.items (reported result error.new) values.new.items }
    ensures rules { IfErr (reported result error.new) (λ e. e.codec ≡ decoder.now.rule) }
{
    if decoder.remaining().len() == left {
        refuse_extra(error, decoder, left);
        return Err(Refused);
    }
    take::<M>(decoder, error, value, values)
}

/// Returns an error if the number of elements isn't within the bound.
#[inline(always)]
fn check_bound(
    decoder: &Decoder<'_>,
    error: &mut DecodeError,
    constraints: &Constraints,
    count: usize,
) -> Result<(), Refused>
    ensures sized { IsSized constraints.now decoder.now count (reported result error.new) }
    ensures rules { IfErr (reported result error.new) (λ e. e.codec ≡ decoder.now.rule) }
{
    if constraints.admits_size(count) {
        return Ok(());
    }
    refuse_size(error, decoder, constraints, count);
    Err(Refused)
}

/// Returns an error if the type bounds the number of elements, and this isn't within the bound.
#[inline(always)]
fn check_size(
    decoder: &Decoder<'_>,
    error: &mut DecodeError,
    ty: &Type,
    count: usize,
) -> Result<(), Refused>
    ensures sized { IsSizedAs ty.now decoder.now count (reported result error.new) }
    ensures rules { IfErr (reported result error.new) (λ e. e.codec ≡ decoder.now.rule) }
{
    match ty {
        Type::SequenceOf { constraints, .. } => check_bound(decoder, error, constraints, count),
        Type::SetOf { constraints, .. } => check_bound(decoder, error, constraints, count),
        _ => Ok(()),
    }
}

/// Returns an empty list, with room for so many values where values are kept.
#[inline(always)]
fn list_for<'input, M: Made>(
    decoder: &Decoder<'input>,
    error: &mut DecodeError,
    count: usize,
) -> Result<Vec<Value<'input>>, Refused>
    ensures ok { IfOk (reported result error.new) (λ v. v.items ≡ []) }
    ensures kind { IfErr (reported result error.new) (λ e. IsOutOfMemory e.kind) }
    ensures rules { IfErr (reported result error.new) (λ e. e.codec ≡ decoder.now.rule) }
{
    if !M::KEEP {
        return Ok(Vec::new(decoder.alloc()));
    }
    match Vec::with_capacity(decoder.alloc(), count) {
        Ok(values) => Ok(values),
        Err(_) => {
            refuse_memory(error, decoder);
            Err(Refused)
        }
    }
}

/// Makes a value of those that it holds in order, where values are kept.
#[inline(always)]
fn put_items<'input, M: Made>(values: Vec<Value<'input>>, out: &mut Value<'input>)
    ensures { M.KEEP ≡ true → out.new ≡ Items values.entry }
{
    if M::KEEP {
        *out = Value::Items(values);
    }
}

/// Makes a value of those that it holds in any order, where values are kept.
#[inline(always)]
fn put_in_any_order<'input, M: Made>(values: Vec<Value<'input>>, out: &mut Value<'input>)
    ensures { M.KEEP ≡ true → out.new ≡ Elements values.entry }
{
    if M::KEEP {
        *out = Value::Elements(values);
    }
}

/// Returns the values of components that are all absent, where values are kept.
#[cold]
#[inline(never)]
fn put_all_absent<'input, M: Made>(
    decoder: &Decoder<'input>,
    error: &mut DecodeError,
    components: &[Component],
    values: &mut Vec<Value<'input>>,
) -> Result<(), Refused>
    requires { any_required components.now ≡ false }
    ensures settled { M.KEEP ≡ true → IfOk (outcome result values.new error.new) (λ v. AreSettled components.now (nones components.now) v.items) }
    ensures memory { IfErr (outcome result values.new error.new) (λ e. IsOutOfMemory e.kind) }
    ensures rules { IfErr (outcome result values.new error.new) (λ e. e.codec ≡ decoder.now.rule) }
{
    *values = kept(all_absent::<M>(decoder, components), error)?;
    Ok(())
}

/// Makes the value of a component that is absent, where values are kept.
#[inline(never)]
fn put_missing<'input, M: Made>(
    decoder: &Decoder<'input>,
    error: &mut DecodeError,
    component: &Component,
    out: &mut Value<'input>,
) -> Result<(), Refused>
    requires { is_required component.now.presence ≡ false }
    ensures made { IsMade M.KEEP (presence_of component.now.presence) decoder.now (outcome result out.new error.new) }
    ensures rules { IfErr (outcome result out.new error.new) (λ e. e.codec ≡ decoder.now.rule) }
{
    if !M::KEEP {
        return Ok(());
    }
    match missing::<M>(decoder, component) {
        Ok(value) => {
            *out = value;
            Ok(())
        }
        Err(fault) => {
            *error = fault;
            Err(Refused)
        }
    }
}

/// Reads an unknown component of a SET as one complete encoding (X.680 27), and notes it as a part
/// with this type and this index. If it can't be read, names it.
fn decode_unknown_component<'input>(
    decoder: &mut Decoder<'input>,
    walk: &mut Walk<'input>,
    levels: usize,
    id: TypeId,
    index: usize,
) -> Result<Value<'input>, Refused>
    requires clear { walk.old.fault ≡ None }
    requires more { Ended decoder.old.closing decoder.old.rest → ⊥ }
    ensures reads { Decodes (any None) tree_of decoder.old (reported result walk.new.error) decoder.new }
    ensures fits { IfOk (reported result walk.new.error) AreOctetsValue }
    ensures rules { IfErr (reported result walk.new.error) (λ e. e.codec ≡ decoder.old.rule) }
    ensures told { (types : List «Type») → shape_of_type types levels id.0 ≡ unknown_values → TellsOf (IsFaultIn types levels (IsOnly index id.0 decoder.old) decoder.old decoder.old) (reported result walk.new.error) walk.new.fault }
    ensures listed { IfOk (reported result walk.new.error) (λ v. Lists (λ b es. UnknownListed levels id.0 index b decoder.old decoder.new es) walk.old.spans walk.new.spans) }
{
    let start = decoder.remaining();
    let place = note(&mut walk.spans, id, index, levels, start);
    match decode_any_value(decoder, Tag::EOC) {
        Ok(value) => {
            finish(&mut walk.spans, place, decoder.remaining());
            Ok(value)
        }
        Err(error) => {
            mark_part(decoder.alloc(), &mut walk.fault, id, start.len(), index);
            walk.error = error;
            Err(Refused)
        }
    }
}

/// Returns the header of a value of the type, if the value holds others after one.
#[inline(always)]
pub fn header_for(ty: &Type) -> Option<ConstructedHeader>
    ensures { IsHeaderOf ty.now result }
{
    match ty {
        Type::Tagged { tag, .. } => Some(ConstructedHeader::prefix(*tag)),
        Type::Sequence { tag, .. } => Some(ConstructedHeader::sequence(*tag)),
        Type::Set { tag, .. } => Some(ConstructedHeader::sequence(*tag)),
        Type::SequenceOf { tag, .. } => Some(ConstructedHeader::list(*tag)),
        Type::SetOf { tag, .. } => Some(ConstructedHeader::list(*tag)),
        _ => None,
    }
}

/// Reads a value of the type with this number. If it can't be read, names the innermost value that
/// can't.
#[cycle(decode)]
#[inline(never)]
pub fn decode_at<'input, M: Made>(
    decoder: &mut Decoder<'input>,
    walk: &mut Walk<'input>,
    types: &Types<'_>,
    id: TypeId,
    out: &mut Value<'input>,
) -> Result<(), Refused>
    requires lawful { IsReadable (shape_of_type types.now.list.now types.now.levels id.0) }
    requires clear { walk.old.fault ≡ None }
    ensures reads { Making M.KEEP tree_of (DecodesTree (shape_of_type types.now.list.now types.now.levels id.0)) decoder.old (outcome result out.new walk.new.error) decoder.new }
    ensures nothing { IfErr (outcome result out.new walk.new.error) (λ e. None ≡ slice_get types.now.list.now id.0 → IsErrorOf UnexpectedEmptyInput decoder.old e × (decoder.new ≡ decoder.old)) }
    ensures fits { M.KEEP ≡ true → (s : State) → Covers s decoder.old → IfOk (outcome result out.new walk.new.error) (λ v. FitsFrom s types.now.list.now types.now.levels id.0 v) }
    ensures rules { IfErr (outcome result out.new walk.new.error) (λ e. e.codec ≡ decoder.old.rule) }
    ensures told { TellsOf (IsFault types.now.list.now types.now.levels id.0 decoder.old) (outcome result out.new walk.new.error) walk.new.fault }
    ensures listed { IfOk (outcome result out.new walk.new.error) (λ v. Lists (λ b es. PartsInside types.now.list.now types.now.levels id.0 b decoder.old es) walk.old.spans walk.new.spans) }
{
    let left = octets_left(decoder);
    let Some(ty) = types.get(id) else {
        refuse_no_value(&mut walk.error, decoder);
        mark(decoder.alloc(), &mut walk.fault, id, left);
        return Err(Refused);
    };
    let below = Types {
        list: types.list,
        levels: types.levels - 1,
    };
    match decode_type::<M>(decoder, walk, &below, ty, out) {
        Ok(()) => Ok(()),
        Err(refused) => {
            mark(decoder.alloc(), &mut walk.fault, id, left);
            Err(refused)
        }
    }
}

/// Reads such a value as the part with this index of the value that holds it, and notes it.
#[cycle(decode)]
#[inline(always)]
pub fn decode_part<'input, M: Made>(
    decoder: &mut Decoder<'input>,
    walk: &mut Walk<'input>,
    types: &Types<'_>,
    id: TypeId,
    index: usize,
    out: &mut Value<'input>,
) -> Result<(), Refused>
    requires lawful { IsReadable (shape_of_type types.now.list.now types.now.levels id.0) }
    requires clear { walk.old.fault ≡ None }
    ensures reads { Making M.KEEP tree_of (DecodesTree (shape_of_type types.now.list.now types.now.levels id.0)) decoder.old (outcome result out.new walk.new.error) decoder.new }
    ensures fits { M.KEEP ≡ true → (s : State) → Covers s decoder.old → IfOk (outcome result out.new walk.new.error) (λ v. FitsFrom s types.now.list.now types.now.levels id.0 v) }
    ensures rules { IfErr (outcome result out.new walk.new.error) (λ e. e.codec ≡ decoder.old.rule) }
    ensures told { TellsOf (IsFaultIn types.now.list.now types.now.levels (IsOnly index id.0 decoder.old) decoder.old decoder.old) (outcome result out.new walk.new.error) walk.new.fault }
    ensures listed { IfOk (outcome result out.new walk.new.error) (λ v. Lists (λ b es. PartListed (shape_of_type types.now.list.now types.now.levels) types.now.levels (Inside types.now.list.now types.now.levels) id.0 index b decoder.old decoder.new es) walk.old.spans walk.new.spans) }
{
    let start = decoder.remaining();
    let place = note(&mut walk.spans, id, index, types.levels, start);
    match decode_at::<M>(decoder, walk, types, id, out) {
        Ok(()) => {
            finish(&mut walk.spans, place, decoder.remaining());
            Ok(())
        }
        Err(refused) => {
            step(&mut walk.fault, index);
            Err(refused)
        }
    }
}

/// Reads such a part and makes its value, even if the reader makes none.
#[cycle(decode)]
#[inline(never)]
fn decode_compared<'input, M: Made>(
    decoder: &mut Decoder<'input>,
    walk: &mut Walk<'input>,
    types: &Types<'_>,
    id: TypeId,
    index: usize,
    out: &mut Value<'input>,
) -> Result<(), Refused>
    requires lawful { IsReadable (shape_of_type types.now.list.now types.now.levels id.0) }
    requires clear { walk.old.fault ≡ None }
    ensures reads { Making true tree_of (DecodesTree (shape_of_type types.now.list.now types.now.levels id.0)) decoder.old (outcome result out.new walk.new.error) decoder.new }
    ensures fits { (s : State) → Covers s decoder.old → IfOk (outcome result out.new walk.new.error) (λ v. FitsFrom s types.now.list.now types.now.levels id.0 v) }
    ensures rules { IfErr (outcome result out.new walk.new.error) (λ e. e.codec ≡ decoder.old.rule) }
    ensures told { TellsOf (IsFaultIn types.now.list.now types.now.levels (IsOnly index id.0 decoder.old) decoder.old decoder.old) (outcome result out.new walk.new.error) walk.new.fault }
    ensures listed { IfOk (outcome result out.new walk.new.error) (λ v. Lists (λ b es. PartListed (shape_of_type types.now.list.now types.now.levels) types.now.levels (Inside types.now.list.now types.now.levels) id.0 index b decoder.old decoder.new es) walk.old.spans walk.new.spans) }
{
    match M::decode_value(decoder, walk, types, id, index, out) {
        Some(read) => read,
        None => decode_part::<M>(decoder, walk, types, id, index, out),
    }
}

/// Reads a value of a type.
#[cycle(decode)]
#[inline(always)]
fn decode_type<'input, M: Made>(
    decoder: &mut Decoder<'input>,
    walk: &mut Walk<'input>,
    types: &Types<'_>,
    ty: &Type,
    out: &mut Value<'input>,
) -> Result<(), Refused>
    requires lawful { IsReadable (type_by (shape_of_type types.now.list.now types.now.levels) ty.now) }
    requires short { length decoder.old.rest < 2 ^ 64 }
    requires clear { walk.old.fault ≡ None }
    ensures { ReadsType types.now.list.now types.now.levels M.KEEP ty.now decoder.old walk.old.spans (outcome result out.new walk.new.error) decoder.new walk.new.fault walk.new.spans }
{
    if let Some(header) = header_for(ty) {
        return decode_enclosed::<M>(decoder, walk, types, ty, header, out);
    }
    match ty {
        Type::Leaf {
            kind,
            tag,
            constraints,
            ..
        } => put_leaf::<M>(decoder, &mut walk.error, *kind, *tag, constraints, out),
        Type::Enumerated { tag, numbers } => {
            put_number::<M>(decoder, &mut walk.error, *tag, numbers, out)
        }
        Type::Any { tag } => put_any::<M>(decoder, &mut walk.error, *tag, out),
        Type::Unknown => put_unknown::<M>(decoder, &mut walk.error, out),
        Type::Choice { name, alternatives } => {
            decode_choice::<M>(decoder, walk, types, name.as_str(), alternatives, out)
        }
        _ => unreachable!(),
    }
}

/// Reads a value that holds others: this header, what is inside, and its end (X.690 8.1).
///
/// # Errors
/// `SizeConstraintNotSatisfied` if the number of elements isn't within the bound, which consumes
/// the value.
#[cycle(decode)]
#[inline(never)]
fn decode_enclosed<'input, M: Made>(
    decoder: &mut Decoder<'input>,
    walk: &mut Walk<'input>,
    types: &Types<'_>,
    ty: &Type,
    header: ConstructedHeader,
    out: &mut Value<'input>,
) -> Result<(), Refused>
    requires lawful { IsReadable (type_by (shape_of_type types.now.list.now types.now.levels) ty.now) }
    requires header { IsHeaderOf ty.now (Some header) }
    requires short { length decoder.old.rest < 2 ^ 64 }
    requires clear { walk.old.fault ≡ None }
    ensures { ReadsType types.now.list.now types.now.levels M.KEEP ty.now decoder.old walk.old.spans (outcome result out.new walk.new.error) decoder.new walk.new.fault walk.new.spans }
{
    let (mut inner, contents) = match decoder.open(header) {
        Ok(opened) => opened,
        Err(error) => {
            walk.error = error;
            return Err(Refused);
        }
    };
    let after = go_inside(&mut walk.spans, decoder, &inner);
    let read = decode_inside::<M>(&mut inner, walk, types, ty, out);
    let count = count_after(decoder, &inner, &mut walk.fault, read)?;
    match decoder.close(contents, inner.remaining()) {
        Ok(()) => go_outside(&mut walk.spans, after),
        Err(error) => {
            walk.error = error;
            return Err(Refused);
        }
    }
    check_size(decoder, &mut walk.error, ty, count)
}

/// Reads what is inside a value that holds others. Returns the number of elements, if those are
/// what it holds.
#[cycle(decode)]
#[inline(always)]
fn decode_inside<'input, M: Made>(
    decoder: &mut Decoder<'input>,
    walk: &mut Walk<'input>,
    types: &Types<'_>,
    ty: &Type,
    out: &mut Value<'input>,
) -> Result<usize, Refused>
    requires lawful { IsReadable (type_by (shape_of_type types.now.list.now types.now.levels) ty.now) }
    requires holds { HoldsOthers ty.now }
    requires short { length decoder.old.rest < 2 ^ 64 }
    requires clear { walk.old.fault ≡ None }
    ensures { ReadsContents types.now.list.now types.now.levels M.KEEP ty.now (DecodesHeld (shape_of_type types.now.list.now types.now.levels) ty.now (count_of result)) decoder.old walk.old.spans (outcome result out.new walk.new.error) decoder.new walk.new.fault walk.new.spans }
{
    match ty {
        Type::Tagged { inner, .. } => {
            decode_part::<M>(decoder, walk, types, *inner, 0, out)?;
            Ok(0)
        }
        Type::Sequence { components, .. } => {
            put_components::<M>(decoder, walk, types, components, out)?;
            Ok(0)
        }
        Type::Set {
            name,
            components,
            ..
        } => {
            put_set_components::<M>(decoder, walk, types, name, components, out)?;
            Ok(0)
        }
        Type::SequenceOf { element, .. } => {
            put_elements::<M>(decoder, walk, types, *element, out)
        }
        Type::SetOf { element, .. } => {
            put_elements_in_order::<M>(decoder, walk, types, *element, out)
        }
        _ => unreachable!(),
    }
}

/// Reads the alternative to which the next tag belongs (X.690 8.13). An unknown one, which is the
/// last, has any tag that is no other's.
///
/// # Errors
/// `NoValidChoice` with the name of the CHOICE if the tag is no alternative's, which consumes
/// nothing.
#[cycle(decode)]
#[inline(never)]
fn decode_choice<'input, M: Made>(
    decoder: &mut Decoder<'input>,
    walk: &mut Walk<'input>,
    types: &Types<'_>,
    name: &str,
    alternatives: &[Alternative],
    out: &mut Value<'input>,
) -> Result<(), Refused>
    requires lawful { IsReadable (choice_among (alternatives_by (shape_of_type types.now.list.now types.now.levels) alternatives.now)) }
    requires clear { walk.old.fault ≡ None }
    ensures reads { Making M.KEEP tree_of (DecodesTree (choice_among (alternatives_by (shape_of_type types.now.list.now types.now.levels) alternatives.now))) decoder.old (outcome result out.new walk.new.error) decoder.new }
    ensures fits { M.KEEP ≡ true → (s : State) → Covers s decoder.old → IfOk (outcome result out.new walk.new.error) (λ v. IsChosen (AlternativeFits (FitsFrom s types.now.list.now types.now.levels) alternatives.now) v) }
    ensures unknown { IfErr (outcome result out.new walk.new.error) (λ e. IsNoAlternative (alternatives_by (shape_of_type types.now.list.now types.now.levels) alternatives.now) name.now decoder.old e decoder.new) }
    ensures rules { IfErr (outcome result out.new walk.new.error) (λ e. e.codec ≡ decoder.old.rule) }
    ensures told { Told (IsFaultIn types.now.list.now types.now.levels (IsAlternativeAt (shape_of_type types.now.list.now types.now.levels) alternatives.now decoder.old) decoder.old decoder.old) (outcome result out.new walk.new.error) walk.new.fault }
    ensures itself { IfErr (outcome result out.new walk.new.error) (λ e. walk.new.fault ≡ None → StopsAtChoice (shape_of_type types.now.list.now types.now.levels) name.now alternatives.now decoder.old e) }
    ensures listed { IfOk (outcome result out.new walk.new.error) (λ v. Lists (λ b es. AlternativeListed (shape_of_type types.now.list.now types.now.levels) types.now.levels (Inside types.now.list.now types.now.levels) alternatives.now b decoder.old es) walk.old.spans walk.new.spans) }
{
    let tag = peek(decoder, &mut walk.error)?;
    let Some(number) = alternative_for(types.list, types.levels, alternatives, tag) else {
        refuse_choice(&mut walk.error, decoder, name);
        return Err(Refused);
    };
    let part = NextPart {
        levels: types.levels,
        id: alternatives[number].type_id,
        index: number,
    };
    decode_alternative::<M>(decoder, walk, types.list, tag, part, out)?;
    choose::<M>(decoder, &mut walk.error, number, out)
}

/// Reads an alternative, with which the next tag may begin, as a part. If it is a CHOICE itself, no
/// call reads it and those directly in it.
#[cycle(decode)]
#[inline(always)]
fn decode_alternative<'input, M: Made>(
    decoder: &mut Decoder<'input>,
    walk: &mut Walk<'input>,
    types: &[Type],
    tag: Tag,
    part: NextPart,
    out: &mut Value<'input>,
) -> Result<(), Refused>
    requires lawful { IsReadable (shape_of_type types.now part.levels part.id.0) }
    requires clear { walk.old.fault ≡ None }
    requires next { NextTag (form decoder.old.rule) decoder.old.rest tag }
    ensures { ReadsPart types.now M.KEEP part decoder.old walk.old.spans (outcome result out.new walk.new.error) decoder.new walk.new.fault walk.new.spans }
{
    match choice_at(types, part) {
        Some(_) => decode_nested::<M>(decoder, walk, types, tag, part, out),
        None => {
            let types = Types {
                list: types,
                levels: part.levels,
            };
            decode_part::<M>(decoder, walk, &types, part.id, part.index, out)
        }
    }
}

/// Reads CHOICEs directly in one another, of which the outermost is the part.
#[cycle(decode)]
#[inline(never)]
fn decode_nested<'input, M: Made>(
    decoder: &mut Decoder<'input>,
    walk: &mut Walk<'input>,
    types: &[Type],
    tag: Tag,
    part: NextPart,
    out: &mut Value<'input>,
) -> Result<(), Refused>
    requires lawful { IsReadable (shape_of_type types.now part.levels part.id.0) }
    requires clear { walk.old.fault ≡ None }
    requires next { NextTag (form decoder.old.rule) decoder.old.rest tag }
    ensures { ReadsPart types.now M.KEEP part decoder.old walk.old.spans (outcome result out.new walk.new.error) decoder.new walk.new.fault walk.new.spans }
{
    let mut nested = Nested {
        choices: Vec::new(decoder.alloc()),
        part,
    };
    let innermost = decode_innermost::<M>(decoder, walk, types, tag, &mut nested, out);
    ascend::<M>(decoder, walk, nested, innermost, out)
}

/// Goes into CHOICEs directly in one another, and reads the part in the innermost.
#[cycle(decode)]
#[inline(always)]
fn decode_innermost<'input, M: Made>(
    decoder: &mut Decoder<'input>,
    walk: &mut Walk<'input>,
    types: &[Type],
    tag: Tag,
    nested: &mut Nested,
    out: &mut Value<'input>,
) -> Result<(), Refused>
    requires lawful { IsReadable (shape_of_type types.now nested.old.part.levels nested.old.part.id.0) }
    requires clear { walk.old.fault ≡ None }
    requires next { NextTag (form decoder.old.rule) decoder.old.rest tag }
    requires none { nested.old.choices.items ≡ [] }
    ensures { ReadsWithin types.now M.KEEP nested.old.part decoder.old walk.old.spans (reverse nested.new.choices.items) nested.new.part.index (outcome result out.new walk.new.error) decoder.new walk.new.fault walk.new.spans }
{
    let entered = descend(decoder, walk, types, tag, nested);
    let part = nested.part;
    match entered {
        Ok(()) => {
            let types = Types {
                list: types,
                levels: part.levels,
            };
            decode_part::<M>(decoder, walk, &types, part.id, part.index, out)
        }
        Err(refused) => {
            let left = decoder.remaining().len();
            mark_part(decoder.alloc(), &mut walk.fault, part.id, left, part.index);
            Err(refused)
        }
    }
}

/// Reads the components of a SEQUENCE as its value (X.690 8.9).
#[cycle(decode)]
#[inline(always)]
fn put_components<'input, M: Made>(
    decoder: &mut Decoder<'input>,
    walk: &mut Walk<'input>,
    types: &Types<'_>,
    components: &Vec<Component>,
    out: &mut Value<'input>,
) -> Result<(), Refused>
    requires lawful { AreReadable (components_by (shape_of_type types.now.list.now types.now.levels) components.now.items) }
    requires clear { walk.old.fault ≡ None }
    ensures { ReadsContents types.now.list.now types.now.levels M.KEEP (Sequence eoc components.now) (DecodesContents (shape_of_type types.now.list.now types.now.levels) (Sequence eoc components.now)) decoder.old walk.old.spans (outcome result out.new walk.new.error) decoder.new walk.new.fault walk.new.spans }
{
    let mut values = list_for::<M>(decoder, &mut walk.error, components.len())?;
    decode_components::<M>(decoder, walk, types, components, out, &mut values)?;
    put_items::<M>(values, out);
    Ok(())
}

/// Reads the components of a SET as its value (X.690 8.11).
#[cycle(decode)]
#[inline(never)]
fn put_set_components<'input, M: Made>(
    decoder: &mut Decoder<'input>,
    walk: &mut Walk<'input>,
    types: &Types<'_>,
    name: &String,
    components: &Vec<Component>,
    out: &mut Value<'input>,
) -> Result<(), Refused>
    requires lawful { AreLawfulMembers (components_by (shape_of_type types.now.list.now types.now.levels) (named_in (shape_of_type types.now.list.now types.now.levels) components.now.items)) }
    requires clear { walk.old.fault ≡ None }
    ensures { ReadsContents types.now.list.now types.now.levels M.KEEP (Set name.now eoc components.now) (DecodesContents (shape_of_type types.now.list.now types.now.levels) (Set name.now eoc components.now)) decoder.old walk.old.spans (outcome result out.new walk.new.error) decoder.new walk.new.fault walk.new.spans }
{
    let components: &[Component] = components;
    let (named, extensible) = named_components(types.list, types.levels, components);
    let members = Members {
        name: name.as_str(),
        components: named,
        extensible,
        other_id: last_type(components),
    };
    let found = kept(no_components(decoder, named), &mut walk.error)?;
    let values = decode_set_components::<M>(decoder, walk, types, &members, found)?;
    put_items::<M>(values, out);
    Ok(())
}

/// Reads the elements of a SEQUENCE OF as its value (X.690 8.10), and returns how many they are.
#[cycle(decode)]
#[inline(always)]
fn put_elements<'input, M: Made>(
    decoder: &mut Decoder<'input>,
    walk: &mut Walk<'input>,
    types: &Types<'_>,
    element: TypeId,
    out: &mut Value<'input>,
) -> Result<usize, Refused>
    requires lawful { IsReadable (shape_of_type types.now.list.now types.now.levels element.0) }
    requires short { length decoder.old.rest < 2 ^ 64 }
    requires clear { walk.old.fault ≡ None }
    ensures { ReadsContents types.now.list.now types.now.levels M.KEEP (SequenceOf eoc element unconstrained) (DecodesCounted (DecodesContents (shape_of_type types.now.list.now types.now.levels) (SequenceOf eoc element unconstrained)) (count_of result)) decoder.old walk.old.spans (outcome result out.new walk.new.error) decoder.new walk.new.fault walk.new.spans }
{
    let mut values = Vec::new(decoder.alloc());
    let count = decode_elements::<M>(decoder, walk, types, element, out, &mut values)?;
    put_items::<M>(values, out);
    Ok(count)
}

/// Reads the elements of a SET OF as its value (X.690 8.12), and returns how many they are.
#[cycle(decode)]
#[inline(always)]
fn put_elements_in_order<'input, M: Made>(
    decoder: &mut Decoder<'input>,
    walk: &mut Walk<'input>,
    types: &Types<'_>,
    element: TypeId,
    out: &mut Value<'input>,
) -> Result<usize, Refused>
    requires lawful { IsReadable (shape_of_type types.now.list.now types.now.levels element.0) }
    requires short { length decoder.old.rest < 2 ^ 64 }
    requires clear { walk.old.fault ≡ None }
    ensures { ReadsContents types.now.list.now types.now.levels M.KEEP (SetOf eoc element unconstrained) (DecodesCounted (DecodesContents (shape_of_type types.now.list.now types.now.levels) (SetOf eoc element unconstrained)) (count_of result)) decoder.old walk.old.spans (outcome result out.new walk.new.error) decoder.new walk.new.fault walk.new.spans }
{
    let mut values = Vec::new(decoder.alloc());
    let count = decode_elements_in_order::<M>(decoder, walk, types, element, out, &mut values)?;
    put_in_any_order::<M>(values, out);
    Ok(count)
}

/// Reads elements up to the end of the contents (X.690 8.10), and returns how many they are.
#[cycle(decode)]
#[inline(always)]
fn decode_elements<'input, M: Made>(
    decoder: &mut Decoder<'input>,
    walk: &mut Walk<'input>,
    types: &Types<'_>,
    element: TypeId,
    value: &mut Value<'input>,
    values: &mut Vec<Value<'input>>,
) -> Result<usize, Refused>
    requires lawful { IsReadable (shape_of_type types.now.list.now types.now.levels element.0) }
    requires empty { values.old.items ≡ [] }
    requires short { length decoder.old.rest < 2 ^ 64 }
    requires clear { walk.old.fault ≡ None }
    ensures reads { Counting M.KEEP trees_of IsLength (DecodesElements (DecodesTree (shape_of_type types.now.list.now types.now.levels element.0)) these) decoder.old (outcome result values.new walk.new.error) decoder.new (count_of result) }
    ensures fits { M.KEEP ≡ true → (s : State) → Covers s decoder.old → IfOk (outcome result values.new walk.new.error) (λ v. EachFits (FitsFrom s types.now.list.now types.now.levels element.0) v.items) }
    ensures rules { IfErr (outcome result values.new walk.new.error) (λ e. e.codec ≡ decoder.old.rule) }
    ensures told { Told (IsFaultIn types.now.list.now types.now.levels (IsElementAt (shape_of_type types.now.list.now types.now.levels) element.0 decoder.old) decoder.old decoder.old) (outcome result values.new walk.new.error) walk.new.fault }
    ensures itself { IfErr (outcome result values.new walk.new.error) (λ e. walk.new.fault ≡ None → StopsInElements (shape_of_type types.now.list.now types.now.levels) element.0 decoder.old e) }
    ensures listed { IfOk (outcome result values.new walk.new.error) (λ v. Lists (λ b es. ElementsListed (shape_of_type types.now.list.now types.now.levels) types.now.levels (Inside types.now.list.now types.now.levels) element.0 b decoder.old es) walk.old.spans walk.new.spans) }
{
    let mut count = 0;
    while !decoder.has_ended() {
        let left = decoder.remaining().len();
        decode_part::<M>(decoder, walk, types, element, count, value)?;
        keep::<M>(decoder, &mut walk.error, left, value, values)?;
        count += 1;
    }
    Ok(count)
}

/// Reads elements up to the end of the contents, and returns how many they are. Under DER their
/// octets have to be in ascending order (X.690 11.6).
#[cycle(decode)]
#[inline(always)]
fn decode_elements_in_order<'input, M: Made>(
    decoder: &mut Decoder<'input>,
    walk: &mut Walk<'input>,
    types: &Types<'_>,
    element: TypeId,
    value: &mut Value<'input>,
    values: &mut Vec<Value<'input>>,
) -> Result<usize, Refused>
    requires lawful { IsReadable (shape_of_type types.now.list.now types.now.levels element.0) }
    requires empty { values.old.items ≡ [] }
    requires short { length decoder.old.rest < 2 ^ 64 }
    requires clear { walk.old.fault ≡ None }
    ensures reads { Counting M.KEEP trees_of IsLength (DecodesElementsInOrder (DecodesTree (shape_of_type types.now.list.now types.now.levels element.0)) these) decoder.old (outcome result values.new walk.new.error) decoder.new (count_of result) }
    ensures fits { M.KEEP ≡ true → (s : State) → Covers s decoder.old → IfOk (outcome result values.new walk.new.error) (λ v. EachFits (FitsFrom s types.now.list.now types.now.levels element.0) v.items) }
    ensures rules { IfErr (outcome result values.new walk.new.error) (λ e. e.codec ≡ decoder.old.rule) }
    ensures told { Told (IsFaultIn types.now.list.now types.now.levels (IsElementAt (shape_of_type types.now.list.now types.now.levels) element.0 decoder.old) decoder.old decoder.old) (outcome result values.new walk.new.error) walk.new.fault }
    ensures itself { IfErr (outcome result values.new walk.new.error) (λ e. walk.new.fault ≡ None → StopsInOrder (shape_of_type types.now.list.now types.now.levels) element.0 decoder.old e) }
    ensures listed { IfOk (outcome result values.new walk.new.error) (λ v. Lists (λ b es. ElementsListed (shape_of_type types.now.list.now types.now.levels) types.now.levels (Inside types.now.list.now types.now.levels) element.0 b decoder.old es) walk.old.spans walk.new.spans) }
{
    let mut count = 0;
    let mut last: &[u8] = &[];
    while !decoder.has_ended() {
        let start = decoder.remaining();
        decode_part::<M>(decoder, walk, types, element, count, value)?;
        keep::<M>(decoder, &mut walk.error, start.len(), value, values)?;
        count += 1;
        let octets = octets_before(start, decoder.remaining());
        if decoder.is_strict() && is_less(octets, last) {
            refuse_order(&mut walk.error, decoder);
            return Err(Refused);
        }
        last = octets;
    }
    Ok(count)
}

/// Reads the components of a SEQUENCE, up to the end of the contents (X.690 8.9).
#[cycle(decode)]
#[inline(always)]
fn decode_components<'input, M: Made>(
    decoder: &mut Decoder<'input>,
    walk: &mut Walk<'input>,
    types: &Types<'_>,
    components: &[Component],
    value: &mut Value<'input>,
    values: &mut Vec<Value<'input>>,
) -> Result<(), Refused>
    requires lawful { AreReadable (components_by (shape_of_type types.now.list.now types.now.levels) components.now) }
    requires empty { values.old.items ≡ [] }
    requires clear { walk.old.fault ≡ None }
    ensures reads { Making M.KEEP trees_of (DecodesBy (ReadsSequence (components_by (shape_of_type types.now.list.now types.now.levels) components.now)) items) decoder.old (outcome result values.new walk.new.error) decoder.new }
    ensures fails { IfErr (outcome result values.new walk.new.error) (λ e. FailsAtPart (components_by (shape_of_type types.now.list.now types.now.levels) components.now) decoder.old e decoder.new ⊎ IsOutOfMemory e.kind) }
    ensures fits { M.KEEP ≡ true → (s : State) → Covers s decoder.old → IfOk (outcome result values.new walk.new.error) (λ v. ComponentsFit (FitsFrom s types.now.list.now types.now.levels) components.now v.items) }
    ensures rules { IfErr (outcome result values.new walk.new.error) (λ e. e.codec ≡ decoder.old.rule) }
    ensures told { Told (IsFaultIn types.now.list.now types.now.levels (IsComponentAt (shape_of_type types.now.list.now types.now.levels) components.now decoder.old) decoder.old decoder.old) (outcome result values.new walk.new.error) walk.new.fault }
    ensures itself { IfErr (outcome result values.new walk.new.error) (λ e. walk.new.fault ≡ None → StopsInSequence (shape_of_type types.now.list.now types.now.levels) components.now decoder.old e) }
    ensures listed { IfOk (outcome result values.new walk.new.error) (λ v. Lists (λ b es. ComponentsListed (shape_of_type types.now.list.now types.now.levels) types.now.levels (Inside types.now.list.now types.now.levels) components.now b decoder.old es) walk.old.spans walk.new.spans) }
{
    if leaves_all_out(decoder, components) {
        return put_all_absent::<M>(decoder, &mut walk.error, components, values);
    }
    let mut rest = components;
    while let [component, after @ ..] = rest {
        let index = components.len() - rest.len();
        decode_component::<M>(decoder, walk, types, component, index, value)?;
        take::<M>(decoder, &mut walk.error, value, values)?;
        rest = after;
    }
    Ok(())
}

/// Returns whether the next value is one of the type with this number: a CHOICE is recognized by
/// its first tags, and any other type by its own tag.
#[inline(always)]
pub(crate) fn is_next(
    decoder: &Decoder<'_>,
    types: &Types<'_>,
    id: TypeId,
) -> Result<bool, DecodeError>
    requires { IsReadable (shape_of_type types.now.list.now types.now.levels id.0) }
    ensures { NextIs (sought_by (key_of (shape_of_type types.now.list.now types.now.levels id.0)) (shape_of_type types.now.list.now types.now.levels id.0)) decoder.now result }
{
    if !is_choice_at(types.list, types.levels, id) {
        return decoder.next_tag_is(tag_at(types.list, id));
    }
    if decoder.has_ended() {
        return Ok(false);
    }
    let tag = decoder.peek_tag()?;
    Ok(begins(types.list, types.levels, id, tag))
}

/// Returns whether the next value is one of the type with this number, as [`is_next`] does.
#[inline(never)]
fn follows(
    decoder: &Decoder<'_>,
    error: &mut DecodeError,
    types: &Types<'_>,
    id: TypeId,
) -> Result<bool, Refused>
    requires { IsReadable (shape_of_type types.now.list.now types.now.levels id.0) }
    ensures { NextIs (sought_by (key_of (shape_of_type types.now.list.now types.now.levels id.0)) (shape_of_type types.now.list.now types.now.levels id.0)) decoder.now (reported result error.new) }
{
    match is_next(decoder, types, id) {
        Ok(found) => Ok(found),
        Err(fault) => {
            *error = fault;
            Err(Refused)
        }
    }
}

/// Reads a component of a SEQUENCE, unless it is absent.
#[cycle(decode)]
#[inline(always)]
pub fn decode_component<'input, M: Made>(
    decoder: &mut Decoder<'input>,
    walk: &mut Walk<'input>,
    types: &Types<'_>,
    component: &Component,
    index: usize,
    out: &mut Value<'input>,
) -> Result<(), Refused>
    requires lawful { IsReadable (shape_of_type types.now.list.now types.now.levels component.now.type_id.0) }
    requires clear { walk.old.fault ≡ None }
    ensures reads { Making M.KEEP tree_of (DecodesComponent (presence_in (shape_of_type types.now.list.now types.now.levels) component.now) (shape_of_type types.now.list.now types.now.levels component.now.type_id.0)) decoder.old (outcome result out.new walk.new.error) decoder.new }
    ensures fails { IfErr (outcome result out.new walk.new.error) (λ e. FailsAtOnePart (presence_in (shape_of_type types.now.list.now types.now.levels) component.now) (shape_of_type types.now.list.now types.now.levels component.now.type_id.0) decoder.old e decoder.new) }
    ensures fits { M.KEEP ≡ true → (s : State) → Covers s decoder.old → IfOk (outcome result out.new walk.new.error) (λ v. ComponentFits (FitsFrom s types.now.list.now types.now.levels) component.now v) }
    ensures rules { IfErr (outcome result out.new walk.new.error) (λ e. e.codec ≡ decoder.old.rule) }
    ensures told { Told (IsFaultIn types.now.list.now types.now.levels (IsOnly index component.now.type_id.0 decoder.old) decoder.old decoder.old) (outcome result out.new walk.new.error) walk.new.fault }
    ensures itself { IfErr (outcome result out.new walk.new.error) (λ e. walk.new.fault ≡ None → StopsAtComponent (shape_of_type types.now.list.now types.now.levels) component.now decoder.old e) }
    ensures listed { IfOk (outcome result out.new walk.new.error) (λ v. Lists (λ b es. ComponentListed (shape_of_type types.now.list.now types.now.levels) types.now.levels (Inside types.now.list.now types.now.levels) component.now index b decoder.old decoder.new es) walk.old.spans walk.new.spans) }
{
    if is_always_there(component) {
        return decode_present::<M>(decoder, walk, types, component, index, out);
    }
    match follows(decoder, &mut walk.error, types, component.type_id) {
        Ok(true) => decode_present::<M>(decoder, walk, types, component, index, out),
        Ok(false) => put_missing::<M>(decoder, &mut walk.error, component, out),
        Err(refused) => Err(refused),
    }
}

/// Reads a component that is present. Under DER it must not be its default (X.690 11.5).
#[cycle(decode)]
#[inline(always)]
pub fn decode_present<'input, M: Made>(
    decoder: &mut Decoder<'input>,
    walk: &mut Walk<'input>,
    types: &Types<'_>,
    component: &Component,
    index: usize,
    out: &mut Value<'input>,
) -> Result<(), Refused>
    requires lawful { IsReadable (shape_of_type types.now.list.now types.now.levels component.now.type_id.0) }
    requires clear { walk.old.fault ≡ None }
    ensures reads { Making M.KEEP tree_of (DecodesPresent (presence_in (shape_of_type types.now.list.now types.now.levels) component.now) (shape_of_type types.now.list.now types.now.levels component.now.type_id.0)) decoder.old (outcome result out.new walk.new.error) decoder.new }
    ensures fits { M.KEEP ≡ true → (s : State) → Covers s decoder.old → IfOk (outcome result out.new walk.new.error) (λ v. FitsFrom s types.now.list.now types.now.levels component.now.type_id.0 v) }
    ensures rules { IfErr (outcome result out.new walk.new.error) (λ e. e.codec ≡ decoder.old.rule) }
    ensures told { Told (IsFaultIn types.now.list.now types.now.levels (IsOnly index component.now.type_id.0 decoder.old) decoder.old decoder.old) (outcome result out.new walk.new.error) walk.new.fault }
    ensures itself { IfErr (outcome result out.new walk.new.error) (λ e. walk.new.fault ≡ None → IsDefaultWritten (shape_of_type types.now.list.now types.now.levels) component.now decoder.old e) }
    ensures listed { IfOk (outcome result out.new walk.new.error) (λ v. Lists (λ b es. PartListed (shape_of_type types.now.list.now types.now.levels) types.now.levels (Inside types.now.list.now types.now.levels) component.now.type_id.0 index b decoder.old decoder.new es) walk.old.spans walk.new.spans) }
{
    let Presence::Default(default) = &component.presence else {
        return decode_part::<M>(decoder, walk, types, component.type_id, index, out);
    };
    if !decoder.is_strict() {
        return decode_part::<M>(decoder, walk, types, component.type_id, index, out);
    }
    decode_compared::<M>(decoder, walk, types, component.type_id, index, out)?;
    if out.means_same(default) {
        refuse_default(&mut walk.error, decoder);
        return Err(Refused);
    }
    Ok(())
}

/// Reads the components of a SET, in any order, up to the end of the contents (X.690 8.11). None
/// was found yet. If the SET is extensible, the last value that is returned is the list of the
/// unknown components, and each of them is a part with the type `other_id`.
///
/// # Errors
/// Those of the first component that isn't read: `NoValidChoice` with the name of the SET for a tag
/// that is no component's, unless the SET is extensible. Once all are read, `DuplicateField` with
/// the name of the first component that was read before, else `MissingField` with that of the first
/// required one that is missing.
#[cycle(decode)]
fn decode_set_components<'input, M: Made>(
    decoder: &mut Decoder<'input>,
    walk: &mut Walk<'input>,
    types: &Types<'_>,
    members: &Members<'_>,
    mut found: Vec<Option<Value<'input>>>,
) -> Result<Vec<Value<'input>>, Refused>
    requires lawful { AreLawfulMembers (components_by (shape_of_type types.now.list.now types.now.levels) members.now.components.now) }
    requires none { found.items ≡ nones members.now.components.now }
    requires clear { walk.old.fault ≡ None }
    requires other { members.now.extensible ≡ true → shape_of_type types.now.list.now types.now.levels members.now.other_id.0 ≡ unknown_values }
    ensures exact { Making M.KEEP trees_of (MayRunOut (DecodesSetPartContents members.now.extensible (components_by (shape_of_type types.now.list.now types.now.levels) members.now.components.now) items (names_of members.now.components.now))) decoder.old (reported result walk.new.error) decoder.new }
    ensures fits { M.KEEP ≡ true → (s : State) → Covers s decoder.old → IfOk (reported result walk.new.error) (λ v. MembersFit (FitsFrom s types.now.list.now types.now.levels) members.now.extensible members.now.components.now v.items) }
    ensures rules { IfErr (reported result walk.new.error) (λ e. e.codec ≡ decoder.old.rule) }
    ensures told { Told (IsFaultIn types.now.list.now types.now.levels (IsMemberAfter (shape_of_type types.now.list.now types.now.levels) members.now.extensible members.now.components.now members.now.other_id.0 decoder.old) decoder.old decoder.old) (reported result walk.new.error) walk.new.fault }
    ensures itself { IfErr (reported result walk.new.error) (λ e. walk.new.fault ≡ None → StopsInSet (shape_of_type types.now.list.now types.now.levels) members.now.name.now members.now.extensible members.now.components.now decoder.old e) }
    ensures listed { IfOk (reported result walk.new.error) (λ v. Lists (λ b es. MembersListed (shape_of_type types.now.list.now types.now.levels) types.now.levels (Inside types.now.list.now types.now.levels) members.now.extensible members.now.components.now members.now.other_id.0 b decoder.old es) walk.old.spans walk.new.spans) }
{
    let mut unknown = Vec::new(decoder.alloc());
    let mut twice = None;
    let mut last = None;
    while !decoder.has_ended() {
        last = peek_in_order(decoder, &mut walk.error, last)?;
        let next = decode_set_component::<M>(
            decoder,
            walk,
            types,
            members,
            &mut found,
            &mut unknown,
        )?;
        twice = twice.or(next);
    }
    if let Some(repeated) = twice {
        walk.error = DecodeError::duplicate_field(decoder.alloc(), repeated, decoder.codec());
        return Err(Refused);
    }
    let mut values = kept(
        gather::<M>(decoder, members.components, found),
        &mut walk.error,
    )?;
    if !members.extensible {
        return Ok(values);
    }
    let mut others = Value::Items(unknown);
    take::<M>(decoder, &mut walk.error, &mut others, &mut values)?;
    Ok(values)
}

/// Reads one component of a SET, which must take some of the input, and puts it in its place. If
/// that isn't empty, returns the component's name. If the next tag is no component's and the SET is
/// extensible, reads an unknown value and appends it to those: a part with the type `other_id` and
/// the index after those of the components.
///
/// # Errors
/// `NoValidChoice` with the name of the SET if the next tag is no component's and the SET isn't
/// extensible, which consumes nothing.
#[cycle(decode)]
fn decode_set_component<'input, 'names, M: Made>(
    decoder: &mut Decoder<'input>,
    walk: &mut Walk<'input>,
    types: &Types<'_>,
    members: &Members<'names>,
    found: &mut Vec<Option<Value<'input>>>,
    unknown: &mut Vec<Value<'input>>,
) -> Result<Option<&'names str>, Refused>
    requires lawful { AreLawfulMembers (components_by (shape_of_type types.now.list.now types.now.levels) members.now.components.now) }
    requires room { length found.old.items ≡ length members.now.components.now }
    requires clear { walk.old.fault ≡ None }
    requires other { members.now.extensible ≡ true → shape_of_type types.now.list.now types.now.levels members.now.other_id.0 ≡ unknown_values }
    ensures next { DecodesMember M.KEEP members.now.extensible (components_by (shape_of_type types.now.list.now types.now.levels) members.now.components.now) (names_of members.now.components.now) found.old.items unknown.old.items decoder.old (reported result walk.new.error) decoder.new found.new.items unknown.new.items }
    ensures found { (s : State) → Covers s decoder.old → FoundFit (λ k v. M.KEEP ≡ true → FitsFrom s types.now.list.now types.now.levels k v) members.now.components.now found.old.items → FoundFit (λ k v. M.KEEP ≡ true → FitsFrom s types.now.list.now types.now.levels k v) members.now.components.now found.new.items }
    ensures octets { M.KEEP ≡ true → IfOk (reported result walk.new.error) (λ v. EachFits AreOctetsValue unknown.old.items → EachFits AreOctetsValue unknown.new.items) }
    ensures unknown { IfErr (reported result walk.new.error) (λ e. IsNoMember members.now.extensible (components_by (shape_of_type types.now.list.now types.now.levels) members.now.components.now) members.now.name.now decoder.old e decoder.new) }
    ensures rules { IfErr (reported result walk.new.error) (λ e. e.codec ≡ decoder.old.rule) }
    ensures told { Told (IsFaultIn types.now.list.now types.now.levels (IsMemberHere (shape_of_type types.now.list.now types.now.levels) members.now.extensible members.now.components.now members.now.other_id.0 decoder.old) decoder.old decoder.old) (reported result walk.new.error) walk.new.fault }
    ensures itself { IfErr (reported result walk.new.error) (λ e. walk.new.fault ≡ None → StopsAtMember (shape_of_type types.now.list.now types.now.levels) members.now.name.now members.now.extensible members.now.components.now decoder.old e) }
    ensures listed { IfOk (reported result walk.new.error) (λ v. Lists (λ b es. MemberListed (shape_of_type types.now.list.now types.now.levels) types.now.levels (Inside types.now.list.now types.now.levels) members.now.extensible members.now.components.now members.now.other_id.0 b decoder.old decoder.new es) walk.old.spans walk.new.spans) }
{
    let left = decoder.remaining().len();
    let tag = peek(decoder, &mut walk.error)?;
    let Some((number, component)) = component_for(types.list, types.levels, members.components, tag)
    else {
        if !members.extensible {
            refuse_choice(&mut walk.error, decoder, members.name);
            return Err(Refused);
        }
        let (id, index) = (members.other_id, members.components.len());
        let mut other = decode_unknown_component(decoder, walk, types.levels, id, index)?;
        take::<M>(decoder, &mut walk.error, &mut other, unknown)?;
        return Ok(None);
    };
    let mut value = Value::Absent;
    decode_present::<M>(decoder, walk, types, component, number, &mut value)?;
    if decoder.remaining().len() == left {
        refuse_extra(&mut walk.error, decoder, left);
        return Err(Refused);
    }
    Ok(put(found, number, value, component.name.as_str()))
}
