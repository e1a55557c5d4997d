//! SEQUENCE and SET as types.
use crate::types::{AsnType, Fields};

/// A SEQUENCE or SET with `RC` root fields and `EC` fields after an extension marker. Contracts see
/// the parts of its shape.
pub trait Constructed<const RC: usize, const EC: usize>: AsnType {
    ghost use Rattle.std.specs.Prelude.{◌≡◌, Bool, true};
    ghost use Rattle.rasn_types.specs.Shapes.{Parts};
    ghost use Rattle.rasn_types.specs.Described.{describes};

    /// The root fields.
    const FIELDS: Fields<RC>;

    /// The fields after the extension marker, or `None` if there is no marker.
    const EXTENDED_FIELDS: Option<Fields<EC>>;

    ghost IS_EXTENSIBLE: { Bool };

    /// Whether there is an extension marker, that is, whether `EXTENDED_FIELDS` is `Some`. If there
    /// is none, a type without fields is read by an initializer.
    const IS_EXTENSIBLE: bool;

    ghost HAS_REQUIRED_FIELDS: { Bool };

    /// Whether a root field is required. If none is, empty contents are read by an initializer.
    const HAS_REQUIRED_FIELDS: bool;

    ghost parts: { Parts };

    /// The proof that `HAS_REQUIRED_FIELDS` says whether a part is required, that there are as many
    /// parts as fields in the root and after the marker together, and that a type with fields after
    /// a marker has one.
    ghost described: { describes RC EC IS_EXTENSIBLE HAS_REQUIRED_FIELDS parts ≡ true };
}
