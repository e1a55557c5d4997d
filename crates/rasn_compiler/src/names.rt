//! Words that begin a notation.
use crate::parser::Parser;
use crate::token::Kind;

impl<'tokens, 'text> Parser<'tokens, 'text> {
    /// Returns whether the next item is a reserved word.
    pub(crate) fn is_reserved_word(&self) -> bool {
        match self.rest.first() {
            Some(token) => token.is_word(),
            None => false,
        }
    }

    /// Returns whether the next item is spelled as a macro's name: in capitals, digits and hyphens.
    pub(crate) fn is_capitals(&self) -> bool {
        match self.rest.first() {
            Some(token) => {
                token.kind == Kind::Upper
                    && !token
                        .text
                        .contains(|letter: char| letter.is_ascii_lowercase())
            }
            None => false,
        }
    }

    /// Returns whether a macro's notation is next in place of a type, as OPERATION or ERROR with
    /// arguments (X.219).
    pub(crate) fn begins_macro_use(&self) -> bool {
        let Some(token) = self.rest.first() else {
            return false;
        };
        let Some(next) = self.rest.get(1) else {
            return false;
        };
        is_macro(token.text) && is_macro_clause(next.text)
    }
}

/// Returns whether this is the name of a well-known macro.
fn is_macro(word: &str) -> bool {
    matches!(
        word,
        "OPERATION" | "ERROR" | "ABSTRACT-OPERATION" | "ABSTRACT-ERROR" | "BIND" | "UNBIND"
    )
}

/// Returns whether this word begins a clause of such a macro.
fn is_macro_clause(word: &str) -> bool {
    matches!(
        word,
        "ARGUMENT" | "RESULT" | "PARAMETER" | "ERRORS" | "LINKED"
    )
}
