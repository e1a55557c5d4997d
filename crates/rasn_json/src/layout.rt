//! How JSON is laid out.

/// How JSON is laid out.
#[derive(Clone, Copy, Debug, PartialEq, Eq)]
pub enum Layout {
    /// Without a space or a line break.
    Compact,
    /// A line for each member and element, indented by two spaces for each array or object around.
    Indented,
}
