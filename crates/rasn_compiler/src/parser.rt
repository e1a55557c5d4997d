//! The items that are left to read.
ghost use Rattle.std.specs.Prelude.{◌≡◌, ◌+◌, ◌<◌, length, IfOk};

use crate::fault::{Fault, Halt, Problem};
use crate::modules::Source;
use crate::position::Position;
use crate::token::{Kind, Token};
use crate::tree::{Type, Unread};
use std::alloc::Global;

/// How deep types may be nested.
pub(crate) const MAX_DEPTH: usize = 64;

/// The items of a text that are left, and the types that were read.
#[derive(Drop)]
pub(crate) struct Parser<'tokens, 'text> {
    pub(crate) alloc: Global,
    pub(crate) source: Source<'text>,
    pub(crate) rest: &'tokens [Token<'text>],
    /// Where the text ends.
    pub(crate) end: Position,
    pub(crate) types: Vec<Type<'text>>,
}

impl<'tokens, 'text> Parser<'tokens, 'text> {
    /// Returns the kind of the next item.
    pub(crate) fn peek(&self) -> Kind {
        self.peek_after(0)
    }

    /// Returns the kind of the item that so many others precede.
    pub(crate) fn peek_after(&self, count: usize) -> Kind {
        match self.rest.get(count) {
            Some(token) => token.kind,
            None => Kind::End,
        }
    }

    /// Returns whether the next item is spelled so.
    pub(crate) fn is(&self, text: &str) -> bool {
        self.is_after(0, text)
    }

    /// Returns whether the item that so many others precede is spelled so.
    pub(crate) fn is_after(&self, count: usize, text: &str) -> bool {
        match self.rest.get(count) {
            Some(token) => token.text == text,
            None => false,
        }
    }

    /// Returns where the next item begins.
    pub(crate) fn position(&self) -> Position {
        self.position_of(self.rest.first())
    }

    /// Returns where an item begins, or where the text ends.
    fn position_of(&self, token: Option<&Token<'text>>) -> Position {
        match token {
            Some(token) => token.position,
            None => self.end,
        }
    }

    /// Takes so many items.
    pub(crate) fn skip(&mut self, count: usize) {
        let rest = self.rest;
        let count = count.min(rest.len());
        self.rest = &rest[count..];
    }

    /// Returns the text of the next item.
    pub(crate) fn text(&self) -> &'text str {
        match self.rest.first() {
            Some(token) => token.text,
            None => "",
        }
    }

    /// Takes the next item and returns its text.
    pub(crate) fn take(&mut self) -> &'text str {
        let text = self.text();
        self.skip(1);
        text
    }

    /// Takes the next item if it is spelled so, and returns whether it was.
    pub(crate) fn eat(&mut self, text: &str) -> bool {
        let is_next = self.is(text);
        if is_next {
            self.skip(1);
        }
        is_next
    }

    /// Returns the fault of the next item, in whose place something else has to be.
    pub(crate) fn refuse(&self, expected: &'static str) -> Halt<'text> {
        self.refuse_item(self.rest.first(), expected)
    }

    /// Returns the fault of an item, or of the end of the text.
    fn refuse_item(&self, item: Option<&Token<'text>>, expected: &'static str) -> Halt<'text> {
        let found = match item {
            Some(token) => token.text,
            None => "",
        };
        self.refuse_at(
            self.position_of(item),
            Problem::Unexpected { expected, found },
        )
    }

    /// Returns a fault.
    pub(crate) fn refuse_at(&self, position: Position, problem: Problem<'text>) -> Halt<'text> {
        let fault = Fault {
            source: self.source.name,
            position,
            problem,
        };
        Halt::of(self.alloc, fault)
    }

    /// Takes the next item, which has to be spelled so.
    pub(crate) fn expect(&mut self, text: &'static str) -> Result<(), Halt<'text>> {
        if self.eat(text) {
            Ok(())
        } else {
            Err(self.refuse(text))
        }
    }

    /// Takes the next item, which has to be of this kind, and returns its text.
    pub(crate) fn expect_kind(
        &mut self,
        kind: Kind,
        what: &'static str,
    ) -> Result<&'text str, Halt<'text>> {
        if self.peek() == kind {
            Ok(self.take())
        } else {
            Err(self.refuse(what))
        }
    }

    /// Returns how deep types may be nested in what is read here.
    pub(crate) fn deeper(&self, depth: usize) -> Result<usize, Halt<'text>>
        ensures { IfOk result (λ d. d + 1 ≡ depth) }
    {
        if depth == 0 {
            let limit = Problem::Beyond("64 types in one another");
            return Err(self.refuse_at(self.position(), limit));
        }
        Ok(depth - 1)
    }

    /// Takes what is between a bracket and the one that closes it. No `::=` is between them, so that
    /// a bracket that isn't closed is looked for no farther than the next assignment.
    pub(crate) fn balanced(&mut self) -> Result<Unread<'text>, Halt<'text>> {
        let mut open = Vec::new(self.alloc);
        let mut end = None;
        for (at, token) in self.rest.iter().enumerate() {
            if token.text == "::=" {
                end = Some(token);
                break;
            }
            if let Some(closing) = closing_of(token.text) {
                open.push(closing)?;
            } else if let Some(closing) = closed_by(token.text) {
                if open.pop() != Some(closing) {
                    let expected = "the bracket that closes the last one";
                    return Err(self.refuse_item(Some(token), expected));
                }
            }
            if open.is_empty() {
                let inner = self.between(token.offset);
                self.skip(at.saturating_add(1));
                return Ok(inner);
            }
        }
        Err(self.refuse_item(end, "a closing bracket"))
    }

    /// Returns the text after the next item, up to this octet.
    fn between(&self, end: usize) -> Unread<'text> {
        let start = end_of(self.rest.first());
        let text = self.source.text.get(start..end).unwrap_or("");
        Unread {
            text: text.trim_start(),
            position: self.position_of(self.rest.get(1)),
        }
    }

    /// Takes what is in braces, if a brace is next.
    pub(crate) fn braces(&mut self) -> Result<Option<Unread<'text>>, Halt<'text>> {
        if self.is("{") {
            Ok(Some(self.balanced()?))
        } else {
            Ok(None)
        }
    }

    /// Takes the items up to the first that is spelled so, which isn't taken.
    pub(crate) fn skip_until(&mut self, text: &str) {
        let count = self
            .rest
            .iter()
            .position(|token| token.text == text)
            .unwrap_or(self.rest.len());
        self.skip(count);
    }

    /// Returns the text from the first of these items up to the next item of the parser.
    pub(crate) fn since(&self, start: &'tokens [Token<'text>]) -> Unread<'text> {
        let count = start.len().saturating_sub(self.rest.len());
        let end = end_of(start.get(count.saturating_sub(1)));
        let text = match start.first() {
            Some(token) => self.source.text.get(token.offset..end).unwrap_or(""),
            None => "",
        };
        Unread {
            text,
            position: self.position_of(start.first()),
        }
    }
}

/// Returns the octet after an item, or that at which a text begins.
fn end_of(token: Option<&Token<'_>>) -> usize {
    match token {
        Some(token) => token.end(),
        None => 0,
    }
}

/// Returns the bracket that closes this one.
fn closing_of(bracket: &str) -> Option<char> {
    match bracket {
        "{" => Some('}'),
        "(" => Some(')'),
        "[" => Some(']'),
        _ => None,
    }
}

/// Returns the closing bracket that is spelled so.
fn closed_by(bracket: &str) -> Option<char> {
    match bracket {
        "}" => Some('}'),
        ")" => Some(')'),
        "]" => Some(']'),
        _ => None,
    }
}
