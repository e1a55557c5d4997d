//! CHOICEs directly in one another: each is gone into and left in a loop, so that however many they
//! are, they take no more of the stack than one.
ghost use Rattle.std.specs.Prelude.{◌≡◌, ◌≤◌, Option, List, [], reverse, true, slice_get, MatchOption, IfOk, IfErr};
ghost use Rattle.rasn_types.specs.Errors.{IsOutOfMemory};
ghost use Rattle.rasn_types.specs.Framing.{NextTag};
ghost use Rattle.rasn_types.specs.Tags.{form};
ghost use Rattle.rasn_schema.specs.declared.types.«Type».{«Type»};
ghost use Rattle.rasn_schema.specs.Shapes.{shape_of_type, IsReadable};
ghost use Rattle.rasn_schema.specs.Fitting.{IsChosen};
ghost use Rattle.rasn_de.specs.State.{State};
ghost use Rattle.rasn_dynamic.specs.declared.nested.NextPart.{NextPart};
ghost use Rattle.rasn_dynamic.specs.declared.span.Spans.{Spans};
ghost use Rattle.rasn_dynamic.specs.Making.{outcome, reported};
ghost use Rattle.rasn_dynamic.specs.Nested.{IsChoiceHere, IsNoChoice, GoesDown, Descends, Leaves, ReadsPart, ReadsWithin};
ghost use Rattle.rasn_dynamic.specs.Faults.{IsMarked, IsStepped};
ghost use Rattle.rasn_dynamic.specs.declared.trace.UnreadValue.{UnreadValue};

use crate::made::Made;
use crate::refuse::{refuse_choice, refuse_memory};
use crate::span::{finish, note};
use crate::trace::mark_part;
use crate::walk::{Refused, Walk};
use rasn_de::ber::de::Decoder;
use rasn_schema::{Alternative, Type, TypeId, Value, alternative_for, type_at};
use rasn_types::error::DecodeError;
use rasn_types::types::Tag;

/// A part that is read next.
#[derive(Clone, Copy)]
pub struct NextPart {
    /// How deep types are followed from it.
    pub levels: usize,
    /// The number of its type.
    pub id: TypeId,
    /// Its index in the value that holds it.
    pub index: usize,
}

/// A CHOICE whose alternative is being read, and which is itself a part.
#[derive(Clone, Copy)]
pub struct OuterChoice {
    /// The number of its type.
    pub id: TypeId,
    /// Its index in the value that holds it.
    pub index: usize,
    /// Its place in the list of parts.
    pub place: usize,
    /// How many octets there are from its start to the end of what its decoder sees.
    pub left: usize,
}

/// CHOICEs directly in one another, and the part that is read next in the innermost.
#[derive(Drop)]
pub struct Nested {
    /// The CHOICEs, each before the one in it.
    pub choices: Vec<OuterChoice>,
    /// The part.
    pub part: NextPart,
}

/// Returns the name and the alternatives of the part's type, if that is a CHOICE.
#[inline(always)]
pub fn choice_at(types: &[Type], part: NextPart) -> Option<(&str, &[Alternative])>
    ensures { MatchOption result (IsNoChoice types.now part) (λ found. IsChoiceHere types.now part found.0.now found.1.now) }
{
    if part.levels == 0 {
        return None;
    }
    match type_at(types, part.id) {
        Some(Type::Choice { name, alternatives }) => Some((name.as_str(), alternatives)),
        _ => None,
    }
}

/// Makes the value of a CHOICE, where values are kept.
#[inline(always)]
pub fn choose<'input, M: Made>(
    decoder: &Decoder<'input>,
    error: &mut DecodeError,
    number: usize,
    out: &mut Value<'input>,
) -> Result<(), Refused>
    ensures ok { M.KEEP ≡ true → IfOk (outcome result out.new error.new) (IsChosen (λ k v. (k ≡ number) × (v ≡ out.old))) }
    ensures kind { IfErr (outcome result out.new error.new) (λ e. IsOutOfMemory e.kind) }
    ensures rules { IfErr (outcome result out.new error.new) (λ e. e.codec ≡ decoder.now.rule) }
{
    if !M::KEEP {
        return Ok(());
    }
    match Box::new(decoder.alloc(), std::mem::replace(out, Value::Absent)) {
        Ok(value) => {
            *out = Value::Chosen(number, value);
            Ok(())
        }
        Err(_) => {
            refuse_memory(error, decoder);
            Err(Refused)
        }
    }
}

/// Goes into the part that is read next, if it is a CHOICE: its alternative to which the next tag
/// belongs is read next then. Returns whether it is one.
///
/// # Errors
/// `NoValidChoice` with the name of the CHOICE if the tag is no alternative's.
fn go_into<'input>(
    decoder: &Decoder<'input>,
    walk: &mut Walk<'input>,
    types: &[Type],
    tag: Tag,
    nested: &mut Nested,
) -> Result<bool, Refused>
    requires lawful { IsReadable (shape_of_type types.now nested.old.part.levels nested.old.part.id.0) }
    requires next { NextTag (form decoder.now.rule) decoder.now.rest tag }
    ensures goes { GoesDown types.now decoder.now nested.old walk.old.spans (reported result walk.new.error) nested.new walk.new.spans }
    ensures unnamed { walk.new.fault ≡ walk.old.fault }
{
    let part = nested.part;
    let Some((name, alternatives)) = choice_at(types, part) else {
        return Ok(false);
    };
    let below = part.levels - 1;
    let Some(index) = alternative_for(types, below, alternatives, tag) else {
        refuse_choice(&mut walk.error, decoder, name);
        return Err(Refused);
    };
    let inner = NextPart {
        levels: below,
        id: alternatives[index].type_id,
        index,
    };
    let octets = decoder.remaining();
    let place = note(&mut walk.spans, part.id, part.index, part.levels, octets);
    let choice = OuterChoice {
        id: part.id,
        index: part.index,
        place,
        left: octets.len(),
    };
    match nested.choices.push(choice) {
        Ok(()) => {
            nested.part = inner;
            Ok(true)
        }
        Err(_) => {
            refuse_memory(&mut walk.error, decoder);
            Err(Refused)
        }
    }
}

/// Goes into the part that is read next and into those in it, as long as they are CHOICEs.
///
/// # Errors
/// `NoValidChoice` with the name of the CHOICE that is the next part then, if the tag is no
/// alternative's.
pub fn descend<'input>(
    decoder: &Decoder<'input>,
    walk: &mut Walk<'input>,
    types: &[Type],
    tag: Tag,
    nested: &mut Nested,
) -> Result<(), Refused>
    requires lawful { IsReadable (shape_of_type types.now nested.old.part.levels nested.old.part.id.0) }
    requires next { NextTag (form decoder.now.rule) decoder.now.rest tag }
    requires none { nested.old.choices.items ≡ [] }
    ensures goes { Descends types.now decoder.now nested.old.part walk.old.spans (reported result walk.new.error) nested.new walk.new.spans }
    ensures unnamed { walk.new.fault ≡ walk.old.fault }
    ensures deeper { nested.new.part.levels ≤ nested.old.part.levels }
{
    while go_into(decoder, walk, types, tag, nested)? {}
    Ok(())
}

/// Names the part that a CHOICE is, unless something inside it is named.
fn name_part(decoder: &Decoder<'_>, walk: &mut Walk<'_>, choice: OuterChoice)
    ensures marked { (mid : Option UnreadValue) × IsMarked choice.id choice.left walk.old.fault mid × IsStepped choice.index mid walk.new.fault }
    ensures same { (walk.new.error ≡ walk.old.error) × (walk.new.spans ≡ walk.old.spans) }
{
    let alloc = decoder.alloc();
    mark_part(alloc, &mut walk.fault, choice.id, choice.left, choice.index);
}

/// Makes the value of a CHOICE whose alternative with this index was read, and ends its part. If
/// the alternative wasn't read, or memory runs out, names the part.
fn leave<'input, M: Made>(
    decoder: &Decoder<'input>,
    walk: &mut Walk<'input>,
    choice: OuterChoice,
    index: usize,
    read: Result<(), Refused>,
    out: &mut Value<'input>,
) -> Result<(), Refused>
    ensures { Leaves M.KEEP choice index decoder.now (outcome read out.old walk.old.error) walk.old.fault walk.old.spans (outcome result out.new walk.new.error) walk.new.fault walk.new.spans }
{
    if let Err(refused) = read {
        name_part(decoder, walk, choice);
        return Err(refused);
    }
    match choose::<M>(decoder, &mut walk.error, index, out) {
        Ok(()) => {
            finish(&mut walk.spans, choice.place, decoder.remaining());
            Ok(())
        }
        Err(refused) => {
            name_part(decoder, walk, choice);
            Err(refused)
        }
    }
}

/// Leaves the CHOICEs, from the innermost to the outermost, once the part in the innermost was read
/// or not.
pub fn ascend<'input, M: Made>(
    decoder: &Decoder<'input>,
    walk: &mut Walk<'input>,
    nested: Nested,
    innermost: Result<(), Refused>,
    out: &mut Value<'input>,
) -> Result<(), Refused>
    ensures { (types : List «Type») (s : State) (outer : NextPart) (before : Spans)
        → ReadsWithin types M.KEEP outer s before (reverse nested.choices.items) nested.part.index (outcome innermost out.old walk.old.error) decoder.now walk.old.fault walk.old.spans
        → ReadsPart types M.KEEP outer s before (outcome result out.new walk.new.error) decoder.now walk.new.fault walk.new.spans }
{
    let mut read = innermost;
    let mut index = nested.part.index;
    let mut choices = nested.choices;
    while let Some(choice) = choices.pop() {
        read = leave::<M>(decoder, walk, choice, index, read, out);
        index = choice.index;
    }
    read
}
