//! Values (X.680 17.7).
use crate::fault::{Halt, Problem};
use crate::parser::Parser;
use crate::token::Kind;
use crate::tree::Value;

impl<'tokens, 'text> Parser<'tokens, 'text> {
    /// Reads a value. One that others precede, as `name : value` or `Type : value`, is kept unread.
    pub(crate) fn value(&mut self) -> Result<Value<'text>, Halt<'text>> {
        let start = self.rest;
        let mut is_governed = false;
        for _ in 0..self.rest.len() {
            if let Some(value) = self.plain_value()? {
                if is_governed {
                    return Ok(Value::Unread(self.since(start)));
                }
                return Ok(value);
            }
            self.governor()?;
            is_governed = true;
        }
        Err(self.refuse("a value"))
    }

    /// Takes what is before `:`, a type or the name of an alternative, and the colon.
    fn governor(&mut self) -> Result<(), Halt<'text>> {
        let mut count = 0usize;
        for token in self.rest {
            if token.text == ":" || token.text == "::=" {
                break;
            }
            count = count.saturating_add(1);
        }
        if count == 0 || !self.is_after(count, ":") {
            return Err(self.refuse("a value"));
        }
        self.skip(count.saturating_add(1));
        Ok(())
    }

    /// Reads a value that no other precedes, if one is next.
    fn plain_value(&mut self) -> Result<Option<Value<'text>>, Halt<'text>> {
        if self.is_after(1, ":") {
            return Ok(None);
        }
        match self.peek() {
            Kind::Number | Kind::Text | Kind::Digits => Ok(self.lone_value()),
            Kind::Lower => Ok(Some(self.named_value()?)),
            Kind::Upper if self.is_after(1, ".") && self.peek_after(2) == Kind::Lower => {
                Ok(Some(self.outside_value()?))
            }
            Kind::Fixed => self.fixed_value(),
            Kind::Unfinished => {
                let missing = "the end of a string or a comment";
                Err(self.refuse_at(self.position(), Problem::Expected(missing)))
            }
            Kind::Upper | Kind::Field | Kind::Blank | Kind::Unknown | Kind::End => Ok(None),
        }
    }

    /// Reads a value that is a single item, if one is next.
    fn lone_value(&mut self) -> Option<Value<'text>> {
        match self.peek() {
            Kind::Number => Some(Value::Number {
                is_negative: false,
                digits: self.take(),
            }),
            Kind::Text => Some(Value::Text(self.take())),
            Kind::Digits => Some(Value::Digits(self.take())),
            Kind::Upper
            | Kind::Lower
            | Kind::Field
            | Kind::Fixed
            | Kind::Blank
            | Kind::Unfinished
            | Kind::Unknown
            | Kind::End => None,
        }
    }

    /// Reads the name of a value, or `object.&field`.
    fn named_value(&mut self) -> Result<Value<'text>, Halt<'text>> {
        let start = self.rest;
        let name = self.take();
        if self.is("{") {
            self.balanced()?;
            return Ok(Value::Unread(self.since(start)));
        }
        if self.eat_path()? {
            return Ok(Value::Field(self.since(start)));
        }
        Ok(Value::Name { module: None, name })
    }

    /// Takes the fields after an object (X.681 15), and returns whether there are some.
    fn eat_path(&mut self) -> Result<bool, Halt<'text>> {
        Ok(!self.path()?.is_empty())
    }

    /// Reads `Module.value`, or `Module.object.&field`.
    fn outside_value(&mut self) -> Result<Value<'text>, Halt<'text>> {
        let start = self.rest;
        let module = Some(self.take());
        self.skip(1);
        let name = self.take();
        if self.is("{") {
            self.balanced()?;
            return Ok(Value::Unread(self.since(start)));
        }
        if self.eat_path()? {
            return Ok(Value::Field(self.since(start)));
        }
        Ok(Value::Name { module, name })
    }

    /// Reads a value that begins with a reserved word or a mark, if one is next.
    fn fixed_value(&mut self) -> Result<Option<Value<'text>>, Halt<'text>> {
        let start = self.rest;
        if self.is("{") {
            self.balanced()?;
            return Ok(Some(Value::Unread(self.since(start))));
        }
        if self.eat("-") {
            let digits = self.expect_kind(Kind::Number, "a number")?;
            return Ok(Some(Value::Number {
                is_negative: true,
                digits,
            }));
        }
        Ok(self.worded_value())
    }

    /// Reads a value that is a reserved word, if one is next.
    fn worded_value(&mut self) -> Option<Value<'text>> {
        if self.eat("TRUE") {
            Some(Value::Boolean(true))
        } else if self.eat("FALSE") {
            Some(Value::Boolean(false))
        } else if self.eat("NULL") {
            Some(Value::Null)
        } else if self.is("PLUS-INFINITY") || self.is("MINUS-INFINITY") || self.is("NOT-A-NUMBER") {
            Some(Value::Special(self.take()))
        } else {
            None
        }
    }
}
