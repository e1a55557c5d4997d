//! Where reading goes on after a fault.
ghost use Rattle.std.specs.Prelude.{◌<◌, length};

use crate::parser::Parser;
use crate::token::{Kind, Token};

/// How many items are looked at for the start of an assignment or a module.
const MAX_AHEAD: usize = 64;

impl<'tokens, 'text> Parser<'tokens, 'text> {
    /// Goes on after the first of these items, if none of them was taken.
    pub(crate) fn make_progress(&mut self, start: &'tokens [Token<'text>])
        requires { 0 < length start.now }
        ensures { length self.new.rest.now < length start.now }
    {
        if self.rest.len() >= start.len() {
            self.rest = &start[1..];
        }
    }

    /// Goes on to where an assignment seems to begin, or to END.
    pub(crate) fn skip_to_assignment(&mut self) {
        for _ in 0..self.rest.len() {
            if self.is("END") || self.begins_assignment() {
                return;
            }
            self.skip(1);
        }
    }

    /// Goes on to the next module's name.
    pub(crate) fn skip_to_module(&mut self) {
        for _ in 0..self.rest.len() {
            if self.begins_module() {
                return;
            }
            self.skip(1);
        }
    }

    /// Returns whether an assignment seems to begin here. A reserved word may not be assigned to,
    /// but the assignment after it is read.
    fn begins_assignment(&self) -> bool {
        if self.is_reserved_word() {
            return self.is_after(1, "::=");
        }
        if self.peek() != Kind::Upper && self.peek() != Kind::Lower {
            return false;
        }
        for ahead in 1..6 {
            if self.is_after(ahead, "::=") || self.is_after(ahead, "MACRO") {
                return true;
            }
            if self.is_after(ahead, "{") {
                return ahead == 1 && self.begins_parameterized();
            }
            if !self.may_govern(ahead) {
                return false;
            }
        }
        false
    }

    /// Returns whether the item that so many others precede may be a part of a type before `::=`.
    fn may_govern(&self, ahead: usize) -> bool {
        match self.rest.get(ahead) {
            Some(token) => token.kind == Kind::Upper || token.text == "." || token.is_word(),
            None => false,
        }
    }

    /// Returns whether a list of parameters follows the name, and `::=` or a governor follows that.
    fn begins_parameterized(&self) -> bool {
        match self.after_braces() {
            Some(next) => self.is_after(next, "::=") || self.peek_after(next) == Kind::Upper,
            None => false,
        }
    }

    /// Returns whether a name, an identifier and DEFINITIONS are next.
    fn begins_module(&self) -> bool {
        if self.peek() != Kind::Upper {
            return false;
        }
        if self.is_after(1, "DEFINITIONS") {
            return true;
        }
        if !self.is_after(1, "{") {
            return false;
        }
        match self.after_braces() {
            Some(next) => self.is_after(next, "DEFINITIONS"),
            None => false,
        }
    }

    /// Returns how many items there are up to the brace that closes the one after the next item, if
    /// that isn't far.
    fn after_braces(&self) -> Option<usize> {
        let mut depth = 0usize;
        for ahead in 1..MAX_AHEAD {
            if self.is_after(ahead, "{") {
                depth = depth.saturating_add(1);
            } else if self.is_after(ahead, "}") {
                depth = depth.saturating_sub(1);
                if depth == 0 {
                    return Some(ahead.saturating_add(1));
                }
            }
        }
        None
    }
}
