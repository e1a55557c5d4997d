//! Whether a value fits its type.
ghost use Rattle.std.specs.Prelude.{◌≡◌, MatchOption};
ghost use Rattle.rasn_types.specs.Shapes.{absent};
ghost use Rattle.rasn_types.specs.Truth.{IsWhether};
ghost use Rattle.rasn_schema.specs.Trees.{tree_of};
ghost use Rattle.rasn_schema.specs.Shapes.{presence_of};
ghost use Rattle.rasn_schema.specs.Fitting.{IsLeftOutAs, IsListOf, IsNoList, IsSetOf, IsNoSet};

use crate::types::{Component, Presence};
use crate::value::Value;

/// Returns the components of a SEQUENCE or a SET, or the elements of a SEQUENCE OF: the values in
/// `Value::Items`. Returns `None` for any other value.
#[inline(always)]
pub fn items_of<'value, 'input>(value: &'value Value<'input>) -> Option<&'value [Value<'input>]>
    ensures { MatchOption result (IsNoList value.now) (λ l. IsListOf l.now value.now) }
{
    match value {
        Value::Items(values) => Some(values.as_slice()),
        _ => None,
    }
}

/// Returns the elements of a SET OF: the values in `Value::Elements`. Returns `None` for any other
/// value.
#[inline(always)]
pub fn elements_of<'value, 'input>(value: &'value Value<'input>) -> Option<&'value [Value<'input>]>
    ensures { MatchOption result (IsNoSet value.now) (λ l. IsSetOf l.now value.now) }
{
    match value {
        Value::Elements(values) => Some(values.as_slice()),
        _ => None,
    }
}

/// Returns whether a component with this value isn't written.
#[inline(always)]
pub fn is_left_out(component: &Component, value: &Value<'_>) -> bool
    ensures { IsWhether result (IsLeftOutAs (presence_of component.now.presence) (tree_of value.now)) }
{
    match &component.presence {
        Presence::Required => false,
        Presence::Optional | Presence::Addition => is_absent(value),
        Presence::Default(default) => value.means_same(default),
    }
}

/// Returns whether a value is that of a component that is absent.
#[inline(always)]
fn is_absent(value: &Value<'_>) -> bool
    ensures { IsWhether result (tree_of value.now ≡ absent) }
{
    matches!(value, Value::Absent)
}
