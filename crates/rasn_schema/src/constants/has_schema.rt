//! Types whose schema is a constant.
use crate::constants::StaticType;
use rasn_types::types::AsnType;

/// A type whose schema is a constant: the shape that the constant says is the type's own, except
/// that the numbers that a type of Rattle holds, such as `u16`, are an INTEGER with their range.
pub trait HasSchema: AsnType {
    ghost use Rattle.std.specs.Prelude.{◌≡◌, ℕ, suc, length};
    ghost use Rattle.rasn_schema.specs.Statics.{static_shape};
    ghost use Rattle.rasn_schema.specs.Ranged.{ranged};

    ghost ID: { ℕ };

    /// The number of this type among the types of its schema, counted from 0.
    const ID: usize;

    /// Returns the types of the schema.
    fn types() -> &'static [StaticType]
        ensures { ranged (static_shape result.now (suc (length result.now)) ID) ≡ ranged Self.shape };
}
