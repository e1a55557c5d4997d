//! The components of a SET that were read so far (X.690 8.11).
ghost use Rattle.std.specs.Prelude.{◌≡◌, ◌<◌, length, true, false, MatchOption, IfOk, IfErr};
ghost use Rattle.rasn_types.specs.Shapes.{IsFirstOf};
ghost use Rattle.rasn_types.specs.Errors.{IsOutOfMemory};
ghost use Rattle.rasn_schema.specs.Shapes.{shape_of_type, components_by, presence_of};
ghost use Rattle.rasn_dynamic.specs.Calls.{any_required, nones, IsPut, IsComponentFor, IsSettled, AreSettled, Gathers};
ghost use Rattle.rasn_dynamic.specs.Sets.{named_components as named_in, is_extensible, last_type as last_in};
ghost use Rattle.std.specs.String.{string_bytes};

use crate::components::missing;
use crate::made::Made;
use crate::read_leaf::{out_of_memory, push};
use rasn_de::ber::de::Decoder;
use rasn_de::de::Error;
use rasn_schema::{Component, Presence, Type, TypeId, Value, begins, is_unknown_at};
use rasn_types::error::DecodeError;
use rasn_types::types::Tag;

/// The components of a SET.
#[derive(Clone, Copy)]
pub struct Members<'names> {
    /// The name of the SET.
    pub name: &'names str,
    /// The components that it names.
    pub components: &'names [Component],
    /// Whether there may be unknown ones among them (X.680 27).
    pub extensible: bool,
    /// The type of those.
    pub other_id: TypeId,
}

/// Returns the components that a SET names, and whether there may be unknown ones among them: then
/// its last component is unknown values (X.680 27).
pub fn named_components<'components>(
    types: &[Type],
    levels: usize,
    components: &'components [Component],
) -> (&'components [Component], bool)
    ensures named { result.0.now ≡ named_in (shape_of_type types.now levels) components.now }
    ensures extensible { result.1 ≡ is_extensible (shape_of_type types.now levels) components.now }
{
    let Some(before) = components.len().checked_sub(1) else {
        return (components, false);
    };
    if levels == 0 || !is_unknown_at(types, components[before].type_id) {
        return (components, false);
    }
    (&components[..before], true)
}

/// Returns the number of the type of the last component, if there is one. If a SET is extensible,
/// its unknown components have this type.
pub fn last_type(components: &[Component]) -> TypeId
    ensures { result.0 ≡ last_in components.now }
{
    match components.len().checked_sub(1) {
        Some(last) => components[last].type_id,
        None => TypeId(0),
    }
}

/// Returns the component that may begin with the tag, and its index.
pub fn component_for<'components>(
    types: &[Type],
    levels: usize,
    components: &'components [Component],
    tag: Tag,
) -> Option<(usize, &'components Component)>
    ensures { let f = shape_of_type types.now levels in
        MatchOption result (IsFirstOf (components_by f components.now) tag → ⊥) (λ q. IsComponentFor f components.now tag q.0 q.1.now) }
{
    for (number, component) in components.iter().enumerate() {
        if begins(types, levels, component.type_id, tag) {
            return Some((number, component));
        }
    }
    None
}

/// Returns that no component was read yet.
pub fn no_components<'input>(
    decoder: &Decoder<'input>,
    components: &[Component],
) -> Result<Vec<Option<Value<'input>>>, DecodeError>
    ensures ok { IfOk result (λ v. v.items ≡ nones components.now) }
    ensures err { IfErr result (λ e. IsOutOfMemory e.kind) }
    ensures rules { IfErr result (λ e. e.codec ≡ decoder.now.rule) }
{
    let mut found = Vec::new(decoder.alloc());
    let mut rest = components;
    while let [_, after @ ..] = rest {
        if found.push(None).is_err() {
            return Err(out_of_memory(decoder));
        }
        rest = after;
    }
    Ok(found)
}

/// Puts a value in its place if that is empty; else returns the component's name and drops the
/// value.
pub fn put<'input, 'names>(
    found: &mut Vec<Option<Value<'input>>>,
    number: usize,
    value: Value<'input>,
    name: &'names str,
) -> Option<&'names str>
    requires { number < length found.old.items }
    ensures { IsPut number value.entry name.now found.old.items result found.new.items }
{
    if found[number].is_some() {
        return Some(name);
    }
    found[number] = Some(value);
    None
}

/// Returns the component that was read or, where values are kept, the value that it has if it is
/// absent.
fn settle<'input, M: Made>(
    decoder: &Decoder<'input>,
    component: &Component,
    found: Option<Value<'input>>,
) -> Result<Value<'input>, DecodeError>
    ensures settled { IsSettled M.KEEP (presence_of component.now.presence) (string_bytes component.now.name) decoder.now.rule found.entry result }
    ensures rules { IfErr result (λ e. e.codec ≡ decoder.now.rule) }
{
    if let Some(value) = found {
        return Ok(value);
    }
    if let Presence::Required = component.presence {
        let name = component.name.as_str();
        return Err(DecodeError::missing_field(decoder.alloc(), name, decoder.codec()));
    }
    missing::<M>(decoder, component)
}

/// Returns all components, those that are absent with the values that they have then, where values
/// are kept.
///
/// # Errors
/// `MissingField` with the name of the first required component that is missing.
pub fn gather<'input, M: Made>(
    decoder: &Decoder<'input>,
    components: &[Component],
    found: Vec<Option<Value<'input>>>,
) -> Result<Vec<Value<'input>>, DecodeError>
    requires { length found.items ≡ length components.now }
    ensures gathers { Gathers M.KEEP components.now decoder.now.rule found.entry.items result }
    ensures rules { IfErr result (λ e. e.codec ≡ decoder.now.rule) }
{
    let mut coming = found.into_iter();
    let mut values = Vec::new(decoder.alloc());
    let mut rest = components;
    while let [component, after @ ..] = rest {
        let Some(found) = coming.next() else {
            unreachable!();
        };
        let value = settle::<M>(decoder, component, found)?;
        push::<M>(decoder, &mut values, value)?;
        rest = after;
    }
    Ok(values)
}

/// Returns the values of components that are all absent: `Absent`, or their defaults. Empty if no
/// values are kept.
///
/// # Errors
/// `OutOfMemory` if there is no room for them.
pub fn all_absent<'input, M: Made>(
    decoder: &Decoder<'input>,
    components: &[Component],
) -> Result<Vec<Value<'input>>, DecodeError>
    requires { any_required components.now ≡ false }
    ensures settled { M.KEEP ≡ true → IfOk result (λ v. AreSettled components.now (nones components.now) v.items) }
    ensures memory { IfErr result (λ e. IsOutOfMemory e.kind) }
    ensures rules { IfErr result (λ e. e.codec ≡ decoder.now.rule) }
{
    if !M::KEEP {
        return Ok(Vec::new(decoder.alloc()));
    }
    let found = no_components(decoder, components)?;
    gather::<M>(decoder, components, found)
}
