//! Errors and values as text, and comparisons.

mod compared;
mod texts;
