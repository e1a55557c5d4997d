//! Lexical items.
use crate::position::Position;

/// What an item of a module is (X.680 12).
#[derive(Clone, Copy, PartialEq, Eq)]
pub(crate) enum Kind {
    /// A name of a type, a module or a class (X.680 12.2).
    Upper,
    /// A name of a value or a component (X.680 12.3).
    Lower,
    /// A name of a class's field, with its `&` (X.681 7).
    Field,
    /// A whole number or one with a fraction (X.680 12.8, 12.9).
    Number,
    /// A string, with its quotation marks (X.680 12.14).
    Text,
    /// Bits or hexadecimal digits, with their apostrophes and letter (X.680 12.10, 12.12).
    Digits,
    /// A reserved word (X.680 12.38), a mark or a bracket, which its text names.
    Fixed,
    /// White space and comments (X.680 12.1.6, 12.6).
    Blank,
    /// A string or a comment that doesn't end.
    Unfinished,
    /// A character that no item begins with.
    Unknown,
    /// Where the items end.
    End,
}

/// A lexical item.
#[derive(Clone, Copy)]
pub(crate) struct Token<'text> {
    pub(crate) kind: Kind,
    pub(crate) text: &'text str,
    /// The octet that it begins at.
    pub(crate) offset: usize,
    pub(crate) position: Position,
}

impl<'text> Token<'text> {
    /// Returns whether it is a reserved word.
    pub(crate) fn is_word(&self) -> bool {
        self.kind == Kind::Fixed
            && self
                .text
                .starts_with(|letter: char| letter.is_ascii_uppercase())
    }

    /// Returns the octet after it.
    pub(crate) fn end(&self) -> usize {
        self.offset.saturating_add(self.text.len())
    }
}
