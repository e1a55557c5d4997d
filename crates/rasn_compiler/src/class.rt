//! Classes and their fields (X.681 9, 14).
use crate::fault::Halt;
use crate::parser::{MAX_DEPTH, Parser};
use crate::position::Position;
use crate::token::Kind;
use crate::tree::{Base, Class, Field, Type, TypeIndex, Unread};
use std::alloc::AllocError;

impl<'tokens, 'text> Parser<'tokens, 'text> {
    /// Reads a class's fields, in braces, and the syntax of its objects (X.681 9.3).
    pub(crate) fn class(&mut self) -> Result<TypeIndex, Halt<'text>> {
        let position = self.position();
        let fields = self.fields()?;
        let syntax = self.class_syntax()?;
        Ok(self.push_type(position, Base::Class(Class { fields, syntax }))?)
    }

    /// Takes WITH SYNTAX of a class (X.681 10).
    fn class_syntax(&mut self) -> Result<Option<Unread<'text>>, Halt<'text>> {
        if !self.eat("WITH") {
            return Ok(None);
        }
        self.expect("SYNTAX")?;
        Ok(Some(self.expect_braces("{")?))
    }

    /// Reads fields in braces.
    fn fields(&mut self) -> Result<Vec<Field<'text>>, Halt<'text>> {
        let mut fields = Vec::new(self.alloc);
        self.expect("{")?;
        for _ in 0..self.rest.len() {
            fields.push(self.field()?)?;
            if !self.eat(",") {
                break;
            }
        }
        self.expect("}")?;
        Ok(fields)
    }

    /// Reads a field, with its type if it has one of its own (X.681 9.4).
    fn field(&mut self) -> Result<Field<'text>, Halt<'text>> {
        let name = self.expect_kind(Kind::Field, "a field")?;
        let of = if self.is_field_of_no_type() {
            None
        } else {
            Some(self.read_type(MAX_DEPTH)?)
        };
        let default = self.field_end()?;
        Ok(Field { name, of, default })
    }

    /// Returns whether a field ends here, or has the type that another field is (X.681 9.5, 9.8,
    /// 9.10).
    fn is_field_of_no_type(&self) -> bool {
        self.peek() == Kind::Field
            || self.is(",")
            || self.is("}")
            || self.is("OPTIONAL")
            || self.is("DEFAULT")
    }

    /// Takes what follows a field's type, up to a comma or the closing brace. Returns what follows
    /// DEFAULT.
    fn field_end(&mut self) -> Result<Option<Unread<'text>>, Halt<'text>> {
        let mut default = None;
        for _ in 0..self.rest.len() {
            if self.is(",") || self.is("}") {
                break;
            }
            if self.is("{") {
                self.balanced()?;
            } else if self.eat("DEFAULT") {
                default = Some(self.rest);
            } else {
                self.skip(1);
            }
        }
        match default {
            Some(start) => Ok(Some(self.since(start))),
            None => Ok(None),
        }
    }

    /// Reads the name of a type or a class, with its module if that is written (X.680 14.6).
    pub(crate) fn reference_name(&mut self) -> (Option<&'text str>, &'text str) {
        let first = self.take();
        if self.is(".") && self.peek_after(1) == Kind::Upper {
            self.skip(1);
            (Some(first), self.take())
        } else {
            (None, first)
        }
    }

    /// Reads the fields after a class or an object (X.681 14, 15).
    pub(crate) fn class_field(
        &mut self,
        position: Position,
        module: Option<&'text str>,
        name: &'text str,
    ) -> Result<Base<'text>, Halt<'text>> {
        let path = self.path()?;
        let actuals = Vec::new(self.alloc);
        let class = self.push_type(
            position,
            Base::Reference {
                module,
                name,
                actuals,
            },
        )?;
        Ok(Base::ClassField { class, path })
    }

    /// Takes the fields that dots precede (X.681 14).
    pub(crate) fn path(&mut self) -> Result<Vec<&'text str>, AllocError> {
        let mut path = Vec::new(self.alloc);
        for _ in 0..self.rest.len() {
            if !self.is(".") || self.peek_after(1) != Kind::Field {
                break;
            }
            self.skip(1);
            path.push(self.take())?;
        }
        Ok(path)
    }

    /// Adds a type without tags and constraints.
    fn push_type(
        &mut self,
        position: Position,
        base: Base<'text>,
    ) -> Result<TypeIndex, AllocError> {
        let index = TypeIndex(self.types.len());
        self.types.push(Type {
            position,
            tags: Vec::new(self.alloc),
            base,
            constraints: Vec::new(self.alloc),
        })?;
        Ok(index)
    }

    /// Returns whether an object is next whose field, or one of its fields, is a type or a set: the
    /// name of the last field begins with a capital letter (X.681 7, 15).
    fn is_field_of_type(&self) -> bool {
        let mut last = "";
        for (index, token) in self.rest.iter().enumerate() {
            let is_expected = match index % 2 {
                0 => index == 0 || token.kind == Kind::Field,
                _ => token.text == ".",
            };
            if !is_expected {
                break;
            }
            if index > 0 && token.kind == Kind::Field {
                last = token.text;
            }
        }
        !last.is_empty() && !is_of_values(last)
    }

    /// Returns whether a type is next rather than a value.
    pub(crate) fn begins_type(&self) -> bool {
        match self.peek() {
            Kind::Upper => !(self.is_after(1, ".") && self.peek_after(2) == Kind::Lower),
            Kind::Lower => self.is_after(1, "<") || self.is_field_of_type(),
            Kind::Fixed => {
                self.is("[") || (self.is_reserved_word() && !self.is("TRUE") && !self.is("FALSE"))
            }
            Kind::Field
            | Kind::Number
            | Kind::Text
            | Kind::Digits
            | Kind::Blank
            | Kind::Unfinished
            | Kind::Unknown
            | Kind::End => false,
        }
    }
}

/// Returns whether a field has a value or an object, and not a type or a set: its name begins with
/// a small letter (X.681 7).
pub(crate) fn is_of_values(field: &str) -> bool {
    match field.as_bytes() {
        [_, first, ..] => first.is_ascii_lowercase(),
        _ => false,
    }
}
