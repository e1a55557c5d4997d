//! Assignments (X.680 16, X.681 9 to 12, X.683 8).
use crate::fault::Halt;
use crate::parser::{MAX_DEPTH, Parser};
use crate::token::Kind;
use crate::tree::{Assigned, Assignment, Unread};

impl<'tokens, 'text> Parser<'tokens, 'text> {
    /// Reads an assignment.
    pub(crate) fn assignment(&mut self) -> Result<Assignment<'text>, Halt<'text>> {
        let position = self.position();
        let is_upper = self.peek() == Kind::Upper;
        if !is_upper && self.peek() != Kind::Lower {
            return Err(self.refuse("an assignment"));
        }
        let name = self.take();
        if self.eat("MACRO") {
            self.macro_body()?;
            return Ok(Assignment {
                name,
                position,
                parameters: None,
                assigned: Assigned::Macro,
            });
        }
        let parameters = self.braces()?;
        let assigned = self.assigned(is_upper)?;
        Ok(Assignment {
            name,
            position,
            parameters,
            assigned,
        })
    }

    /// Reads what follows the name and its parameters.
    fn assigned(&mut self, is_upper: bool) -> Result<Assigned<'text>, Halt<'text>> {
        if self.is(":") || self.is("=") {
            return Err(self.refuse("::="));
        }
        if !self.is("::=") {
            return self.governed(is_upper);
        }
        if !is_upper {
            return Err(self.refuse("a type"));
        }
        self.skip(1);
        self.type_or_class()
    }

    /// Reads what follows `::=` and no type governs.
    fn type_or_class(&mut self) -> Result<Assigned<'text>, Halt<'text>> {
        if self.eat("CLASS") {
            let fields = self.class()?;
            return Ok(Assigned::Class { fields });
        }
        if self.begins_macro_use() {
            self.skip_to_assignment();
            return Ok(Assigned::Macro);
        }
        Ok(Assigned::Type(self.read_type(MAX_DEPTH)?))
    }

    /// Takes what is in braces, which have to be next.
    pub(crate) fn expect_braces(
        &mut self,
        what: &'static str,
    ) -> Result<Unread<'text>, Halt<'text>> {
        match self.braces()? {
            Some(inner) => Ok(inner),
            None => Err(self.refuse(what)),
        }
    }

    /// Reads a value, an object or a set of them, with the type or the class before it.
    fn governed(&mut self, is_set: bool) -> Result<Assigned<'text>, Halt<'text>> {
        let start = self.rest;
        let may_be_macro = self.is_capitals();
        let governor = self.read_type(MAX_DEPTH);
        if may_be_macro && (governor.is_err() || !self.is("::=")) {
            self.rest = start;
            return self.macro_value();
        }
        let of = governor?;
        self.expect("::=")?;
        if is_set {
            let members = self.expect_braces("a set of values in braces")?;
            return Ok(Assigned::Values { of, members });
        }
        let value = self.value()?;
        Ok(Assigned::Value { of, value })
    }

    /// Takes what a macro is used for: its notation, and a value (X.208 A).
    fn macro_value(&mut self) -> Result<Assigned<'text>, Halt<'text>> {
        self.skip_until("::=");
        self.expect("::=")?;
        self.value()?;
        Ok(Assigned::Macro)
    }

    /// Takes a macro's body, from `::=` to END (X.208 A).
    fn macro_body(&mut self) -> Result<(), Halt<'text>> {
        self.expect("::=")?;
        if !self.is("BEGIN") {
            self.expect_kind(Kind::Upper, "BEGIN")?;
            return Ok(());
        }
        self.skip_until("END");
        self.expect("END")
    }
}
