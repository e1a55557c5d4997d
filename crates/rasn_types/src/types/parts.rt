//! What readers and writers of the parts of a SEQUENCE, a SET or a CHOICE have in common.
use crate::types::{AsnType, LawfulEq};
use std::alloc::{AllocError, Global};

/// The end of a list of parts.
#[derive(Debug, Drop)]
pub struct End;

/// The default of a part (X.680 25.8). A type that implements this trait identifies the part in
/// `Defaulted` and `PutDefault`.
pub trait DefaultValue {
    ghost use Rattle.std.specs.Prelude.{◌≡◌, IfOk};
    ghost use Rattle.rasn_types.specs.Shapes.{Tree};

    /// The type of the part.
    type Value: LawfulEq;

    ghost default_tree: { Tree };

    /// Returns the value of the part if it is left out, allocated in `alloc`.
    ///
    /// # Errors
    /// If an allocation fails.
    fn default_value(alloc: Global) -> Result<Self::Value, AllocError>
        ensures { IfOk result (λ v. Self.Value.tree v ≡ default_tree) };
}

/// The default of a part under an explicit tag (X.680 31.2.7), which isn't in the type of the
/// field. A type that implements this trait identifies the part in `DefaultedExplicit` and
/// `PutDefaultExplicit`.
pub trait ExplicitDefault: DefaultValue {
    /// The type that names the explicit tag.
    type Prefix: AsnType;
}

/// The first alternative of a CHOICE, or one of the others.
#[derive(Debug, Drop)]
pub enum OneOf<A, R> {
    This(A),
    Other(R),
}

/// The last alternative of a CHOICE.
#[derive(Debug, Drop)]
pub struct Last<A>(pub A);
