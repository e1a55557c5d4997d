//! Fields of objects (X.681 11, 15).
use crate::class::is_of_values;
use crate::fault::Halt;
use crate::lexer::tokens;
use crate::parser::{MAX_DEPTH, Parser};
use crate::resolver::field::field_named;
use crate::resolver::lookup::{MAX_NAMES, TOO_MANY_NAMES};
use crate::resolver::node::Place;
use crate::resolver::shape::Resolver;
use crate::resolver::value::Spelled;
use crate::token::{Kind, Token};
use crate::tree::{Class, Field, TypeIndex, Unread, Value as Written};

/// A value or an object, and the type or the class of it.
#[derive(Clone, Copy)]
pub(crate) struct Governed<'text> {
    /// The place of the type or the class.
    pub(crate) home: Place,
    /// None if it isn't known.
    pub(crate) of: Option<TypeIndex>,
    pub(crate) value: Spelled<'text>,
}

impl<'modules, 'text> Resolver<'modules, 'text> {
    /// Returns the value that a field of an object has (X.681 15).
    pub(crate) fn field_value(
        &mut self,
        spelled: &Spelled<'text>,
    ) -> Result<Governed<'text>, Halt<'text>> {
        let Written::Field(unread) = spelled.value else {
            return Err(self.expected(spelled.place, spelled.position, "a field of an object"));
        };
        self.step(unread.text.len(), spelled.place, spelled.position)?;
        let items = tokens(self.alloc, unread.text, unread.position)?;
        let mut parser = self.parser(spelled.place, unread, items.as_slice());
        let (module, name) = parser.object_name();
        let mut found = Governed {
            home: spelled.place,
            of: None,
            value: Spelled {
                value: Written::Name { module, name },
                ..*spelled
            },
        };
        for name in &parser.path()? {
            found = self.field_of(&found, name)?;
        }
        Ok(found)
    }

    /// Returns what an object has for the field of this name: what it gives it, or what its class
    /// has for objects that give it nothing (X.681 9.8).
    fn field_of(
        &mut self,
        object: &Governed<'text>,
        name: &'text str,
    ) -> Result<Governed<'text>, Halt<'text>> {
        let object = self.object_meant(object)?;
        let Spelled {
            place,
            position,
            ..
        } = object.value;
        let Some(of) = object.of else {
            return Err(self.expected(place, position, "an object of a class"));
        };
        let (home, class) = self.class_of(object.home, of.0, position)?;
        self.step(class.fields.len(), place, position)?;
        let Some(field) = field_named(class.fields.as_slice(), name) else {
            return Err(self.undefined(place, position, name));
        };
        let value = match self.given_field(&object.value, class, name)? {
            Some(value) => value,
            None => self.field_default(home, field, &object.value)?,
        };
        Ok(Governed {
            home,
            of: field.of,
            value: Spelled { position, ..value },
        })
    }

    /// Returns the object in braces that an object's name means, and its class.
    fn object_meant(&mut self, object: &Governed<'text>) -> Result<Governed<'text>, Halt<'text>> {
        let mut found = *object;
        let Spelled {
            place,
            position,
            ..
        } = object.value;
        for _ in 0..MAX_NAMES {
            let Written::Name { module, name } = found.value.value else {
                return Ok(found);
            };
            self.step(name.len().saturating_add(1), place, position)?;
            let at = found.value.place;
            let named = self.value_meant(at, module, name, position, "an object")?;
            found.value = Spelled {
                place: named.place,
                value: named.value,
                position,
            };
            if named.of.is_some() {
                found.home = named.place;
                found.of = named.of;
            }
        }
        Err(self.beyond(place, position, TOO_MANY_NAMES))
    }

    /// Returns what an object in braces gives the field of this name, if it gives it something
    /// (X.681 11.4).
    fn given_field(
        &mut self,
        object: &Spelled<'text>,
        class: &'modules Class<'text>,
        name: &'text str,
    ) -> Result<Option<Spelled<'text>>, Halt<'text>> {
        let Written::Unread(unread) = object.value else {
            return Err(self.expected(object.place, object.position, "an object in braces"));
        };
        self.step(unread.text.len(), object.place, object.position)?;
        let items = tokens(self.alloc, unread.text, unread.position)?;
        let mut parser = self.parser(object.place, unread, items.as_slice());
        parser.expect("{")?;
        let Some(syntax) = class.syntax else {
            return parser.listed_field(object.place, name);
        };
        self.step(syntax.text.len(), object.place, object.position)?;
        let syntax = tokens(self.alloc, syntax.text, syntax.position)?;
        parser.worded_field(object.place, syntax.as_slice(), name)
    }

    /// Returns what objects of a class have for a field that they give nothing (X.681 9.8).
    fn field_default(
        &mut self,
        home: Place,
        field: Field<'text>,
        object: &Spelled<'text>,
    ) -> Result<Spelled<'text>, Halt<'text>> {
        let Some(unread) = field.default else {
            return Err(self.undefined(object.place, object.position, field.name));
        };
        self.step(unread.text.len(), object.place, object.position)?;
        let items = tokens(self.alloc, unread.text, unread.position)?;
        let mut parser = self.parser(home, unread, items.as_slice());
        parser.spelled(home)
    }
}

impl<'tokens, 'text> Parser<'tokens, 'text> {
    /// Takes the name of an object, with its module if that is written.
    fn object_name(&mut self) -> (Option<&'text str>, &'text str) {
        let first = self.take();
        if self.is(".") && self.peek_after(1) == Kind::Lower {
            self.skip(1);
            (Some(first), self.take())
        } else {
            (None, first)
        }
    }

    /// Reads fields with what an object gives them, between commas, up to that of this name (X.681
    /// 11.5).
    fn listed_field(
        &mut self,
        place: Place,
        name: &str,
    ) -> Result<Option<Spelled<'text>>, Halt<'text>> {
        for _ in 0..self.rest.len() {
            if self.is("}") {
                break;
            }
            let field = self.expect_kind(Kind::Field, "a field")?;
            let found = self.given(place, field)?;
            if field == name {
                return Ok(found);
            }
            if !self.eat(",") {
                break;
            }
        }
        Ok(None)
    }

    /// Reads what an object gives its fields, as the syntax of its class says, up to the field of
    /// this name (X.681 11.6).
    fn worded_field(
        &mut self,
        place: Place,
        syntax: &[Token<'text>],
        name: &str,
    ) -> Result<Option<Spelled<'text>>, Halt<'text>> {
        let mut at = 0usize;
        for _ in 0..syntax.len() {
            let Some(item) = syntax.get(at) else {
                break;
            };
            at = at.saturating_add(1);
            match item.text {
                "]" => {}
                "[" => if !self.begins_group(syntax, at) {
                    at = end_of_group(syntax, at);
                },
                word if item.kind != Kind::Field => self.take_word(word)?,
                field => {
                    let found = self.given(place, field)?;
                    if field == name {
                        return Ok(found);
                    }
                }
            }
        }
        Ok(None)
    }

    /// Takes a word of the syntax of a class, which has to be next.
    fn take_word(&mut self, word: &str) -> Result<(), Halt<'text>> {
        if self.eat(word) {
            Ok(())
        } else {
            Err(self.refuse("a word of the syntax of the class (X.681 10)"))
        }
    }

    /// Returns whether what is next begins the optional group of a syntax that begins at this place:
    /// the first word of the group is next or, if a field is first in it, no word of the syntax is.
    fn begins_group(&self, syntax: &[Token<'text>], start: usize) -> bool {
        let mut within = 0usize;
        let mut is_passed = false;
        for item in syntax.get(start..).unwrap_or(&[]) {
            match item.text {
                "[" => within = within.saturating_add(1),
                "]" => {
                    if within == 0 {
                        return false;
                    }
                    within = within.saturating_sub(1);
                    is_passed = is_passed && within > 0;
                }
                _ if is_passed => {}
                _ if item.kind == Kind::Field => return !self.is_word_of(syntax),
                word if self.is(word) => return true,
                _ if within == 0 => return false,
                _ => is_passed = true,
            }
        }
        false
    }

    /// Returns whether a word of a syntax is next, or the end of an object.
    fn is_word_of(&self, syntax: &[Token<'text>]) -> bool {
        if self.is("}") {
            return true;
        }
        for item in syntax {
            if item.kind != Kind::Field && self.is(item.text) {
                return true;
            }
        }
        false
    }

    /// Reads what an object gives a field. A type, or a set, is none.
    fn given(&mut self, place: Place, field: &str) -> Result<Option<Spelled<'text>>, Halt<'text>> {
        if is_of_values(field) {
            return Ok(Some(self.spelled(place)?));
        }
        if self.is("{") {
            self.balanced()?;
        } else {
            self.read_type(MAX_DEPTH)?;
        }
        Ok(None)
    }
}

/// Returns the place after the group of a syntax that begins at this place.
fn end_of_group(syntax: &[Token<'_>], start: usize) -> usize {
    let mut within = 1usize;
    let mut at = start;
    for item in syntax.get(start..).unwrap_or(&[]) {
        at = at.saturating_add(1);
        match item.text {
            "[" => within = within.saturating_add(1),
            "]" => within = within.saturating_sub(1),
            _ => {}
        }
        if within == 0 {
            break;
        }
    }
    at
}
