//! Where CHOICEs directly in one another lead.
ghost use Rattle.std.specs.Prelude.{◌<◌, IfSome, MatchOption};
ghost use Rattle.rasn_schema.specs.Schemas.{IsChoice};
ghost use Rattle.rasn_schema.specs.Fitting.{Fits};
ghost use Rattle.rasn_schema.specs.Reach.{Reaches};

use crate::type_id::TypeId;
use crate::types::{Type, type_at};
use crate::value::Value;

/// A type that isn't a CHOICE, and a value for it.
#[derive(Drop)]
pub struct Innermost<'types, 'value, 'input> {
    /// How deep the types that the type names are followed.
    pub below: usize,
    /// The type.
    pub ty: &'types Type,
    /// The value.
    pub value: &'value Value<'input>,
}

/// Returns the first type that isn't a CHOICE, on the way from the type with this number to those
/// of the alternatives that were chosen, and its value. Returns `None` if a type or an alternative
/// on the way isn't there, or a value isn't a CHOICE's. Types are followed `levels` deep.
pub fn innermost_at<'types, 'value, 'input>(
    types: &'types [Type],
    levels: usize,
    id: TypeId,
    value: &'value Value<'input>,
) -> Option<Innermost<'types, 'value, 'input>>
    ensures reaches { MatchOption result (Fits types.now levels id.0 value.now → ⊥) (λ p. Reaches types.now levels id.0 value.now p.below p.ty.now p.value.now) }
    ensures other { IfSome result (λ p. IsChoice p.ty.now → ⊥) }
    ensures below { IfSome result (λ p. p.below < levels) }
{
    let mut left = levels;
    let mut next = id;
    let mut inner = value;
    while left > 0 {
        left -= 1;
        let Some(ty) = type_at(types, next) else {
            return None;
        };
        let Type::Choice { alternatives, .. } = ty else {
            return Some(Innermost {
                below: left,
                ty,
                value: inner,
            });
        };
        let Value::Chosen(index, chosen) = inner else {
            return None;
        };
        let Some(alternative) = alternatives.get(*index) else {
            return None;
        };
        next = alternative.type_id;
        inner = chosen;
    }
    None
}
