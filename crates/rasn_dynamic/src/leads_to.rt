//! The component to which a path leads.
ghost use Rattle.std.specs.Prelude.{◌≡◌, option_copied, slice_get, MatchOption};
ghost use Rattle.rasn_schema.specs.declared.types.Component.{Component};
ghost use Rattle.rasn_schema.specs.Schemas.{components_in};
ghost use Rattle.rasn_dynamic.specs.LeadsTo.{LeadsTo};

use rasn_schema::{Component, Schema, Type, TypeId, components_of, part_type, type_at};

/// Returns the component with this index of a SEQUENCE or a SET.
fn component_of(ty: &Type, index: usize) -> Option<&Component>
    ensures { option_copied result ≡ slice_get (components_in ty.now) index }
{
    components_of(ty).get(index)
}

/// Returns the component to which a path, such as that of a part of a message
/// ([`MessageParts`](crate::MessageParts)), leads from the type with this number: its name, its
/// type, and whether it is required, optional, or has a default. Returns `None` if the path is
/// empty, or its last step leads to an element, an alternative, what an explicit tag holds, or
/// nothing.
pub fn component_at<'schema>(
    schema: &'schema Schema,
    id: TypeId,
    path: &[usize],
) -> Option<&'schema Component>
    ensures { MatchOption result ((p : Component) → LeadsTo schema.now.types.items id.0 path.now p → ⊥) (λ p. LeadsTo schema.now.types.items id.0 path.now p.now) }
{
    let mut id = id;
    let mut rest = path;
    while let [index, after @ ..] = rest {
        let ty = type_at(schema.types(), id)?;
        if after.is_empty() {
            return component_of(ty, *index);
        }
        id = part_type(ty, *index)?;
        rest = after;
    }
    None
}
