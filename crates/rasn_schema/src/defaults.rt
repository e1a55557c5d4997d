//! Defaults that aren't values of their component's type (X.680 25).
ghost use Rattle.std.specs.Prelude.{ℕ, MatchOption};
ghost use Rattle.rasn_types.specs.Truth.{IsWhether};
ghost use Rattle.rasn_schema.specs.Fitting.{Fits};
ghost use Rattle.rasn_schema.specs.Schemas.{IsUnfitDefault, HasUnfitDefault, HasFitDefaultsAt, HaveFitDefaults};
ghost use Rattle.rasn_schema.specs.Faults.{IsDefaultFault};

use crate::error::SchemaError;
use crate::fitting::fits_at;
use crate::type_id::TypeId;
use crate::types::{Component, Presence, Type, components_of, type_at};

/// Returns whether the component has a default that isn't a value of its type.
fn is_unfit_default(types: &[Type], component: &Component) -> bool
    ensures { IsWhether result (IsUnfitDefault (Fits types.now 18446744073709551615) component.now) }
{
    match &component.presence {
        Presence::Default(default) => !fits_at(types, usize::MAX, component.type_id, default),
        _ => false,
    }
}

/// Returns the index of the first component with a default that isn't a value of its type.
fn unfit_default(types: &[Type], ty: &Type) -> Option<usize>
    ensures { MatchOption result
        ((i : ℕ) → HasUnfitDefault (Fits types.now 18446744073709551615) ty.now i → ⊥)
        (λ i. HasUnfitDefault (Fits types.now 18446744073709551615) ty.now i) }
{
    for (index, component) in components_of(ty).iter().enumerate() {
        if is_unfit_default(types, component) {
            return Some(index);
        }
    }
    None
}

/// Returns the first default of the type with this number that isn't a value of its component's
/// type. All rules of [`broken_rule_at`] have to be kept, as [`first_unfit_default`] says.
///
/// [`broken_rule_at`]: crate::broken_rule_at
pub fn unfit_default_at(types: &[Type], id: TypeId) -> Option<SchemaError>
    ensures { MatchOption result (HasFitDefaultsAt types.now id.0) (λ e. IsDefaultFault types.now e) }
{
    let Some(ty) = type_at(types, id) else {
        return None;
    };
    match unfit_default(types, ty) {
        Some(index) => Some(SchemaError::UnfitDefault { id, index }),
        None => None,
    }
}

/// Returns the first default that isn't a value of its component's type. Values are compared with
/// their types until their parts end, so explicit tags may not follow one another without end, nor
/// CHOICEs: other rules are checked before.
pub fn first_unfit_default(types: &[Type]) -> Option<SchemaError>
    ensures { MatchOption result (HaveFitDefaults types.now) (λ e. IsDefaultFault types.now e) }
{
    for (number, ty) in types.iter().enumerate() {
        if let Some(index) = unfit_default(types, ty) {
            let id = TypeId(number);
            return Some(SchemaError::UnfitDefault { id, index });
        }
    }
    None
}
