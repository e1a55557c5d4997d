//! Tags (X.680 31.2) and what follows a type in parentheses (X.680 49).
use crate::fault::{Halt, Problem};
use crate::parser::Parser;
use crate::token::Kind;
use crate::tree::{Tag, TagClass, Tagging, Unread};

/// How many tags a type may have.
pub(crate) const MAX_TAGS: usize = 64;

/// What a type that has more tags has.
pub(crate) const TOO_MANY_TAGS: &str = "64 tags of one type";

/// How many constraints may follow a type.
const MAX_CONSTRAINTS: usize = 64;

impl<'tokens, 'text> Parser<'tokens, 'text> {
    /// Reads the tags that are next.
    pub(crate) fn tags(&mut self) -> Result<Vec<Tag<'text>>, Halt<'text>> {
        let mut tags = Vec::new(self.alloc);
        for _ in 0..self.rest.len() {
            if !self.is("[") {
                break;
            }
            self.refuse_beyond(tags.len(), MAX_TAGS, TOO_MANY_TAGS)?;
            tags.push(self.tag()?)?;
        }
        Ok(tags)
    }

    /// Refuses the next item if so many of its kind were read as there may be.
    fn refuse_beyond(
        &self,
        count: usize,
        limit: usize,
        what: &'static str,
    ) -> Result<(), Halt<'text>> {
        if count < limit {
            Ok(())
        } else {
            Err(self.refuse_at(self.position(), Problem::Beyond(what)))
        }
    }

    /// Reads a tag, with the word after it.
    fn tag(&mut self) -> Result<Tag<'text>, Halt<'text>> {
        let position = self.position();
        self.expect("[")?;
        let class = self.tag_class();
        if self.peek() == Kind::Fixed {
            return Err(self.refuse("a tag's number"));
        }
        let number = self.value()?;
        self.expect("]")?;
        Ok(Tag {
            position,
            class,
            number,
            tagging: self.tag_word(),
        })
    }

    /// Reads a tag's class.
    fn tag_class(&mut self) -> TagClass {
        if self.eat("UNIVERSAL") {
            TagClass::Universal
        } else if self.eat("APPLICATION") {
            TagClass::Application
        } else if self.eat("PRIVATE") {
            TagClass::Private
        } else {
            TagClass::Context
        }
    }

    /// Reads IMPLICIT or EXPLICIT.
    fn tag_word(&mut self) -> Option<Tagging> {
        if self.eat("IMPLICIT") {
            Some(Tagging::Implicit)
        } else if self.eat("EXPLICIT") {
            Some(Tagging::Explicit)
        } else {
            None
        }
    }

    /// Takes the constraints that are next.
    pub(crate) fn constraints(&mut self) -> Result<Vec<Unread<'text>>, Halt<'text>> {
        let mut constraints = Vec::new(self.alloc);
        for _ in 0..self.rest.len() {
            if !self.is("(") {
                break;
            }
            self.refuse_beyond(
                constraints.len(),
                MAX_CONSTRAINTS,
                "64 constraints of one type",
            )?;
            constraints.push(self.balanced()?)?;
        }
        Ok(constraints)
    }
}
