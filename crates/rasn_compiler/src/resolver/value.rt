//! Values that are made of others (X.680 17.7, 25, 26, 29).
ghost use Rattle.std.specs.Prelude.{◌≡◌, ◌+◌, IfOk};

use crate::fault::Halt;
use crate::lexer::tokens;
use crate::parser::Parser;
use crate::position::Position;
use crate::resolver::components::has_unknown;
use crate::resolver::included::Listed;
use crate::resolver::node::Place;
use crate::resolver::shape::{Resolver, is_open};
use crate::token::{Kind, Token};
use crate::tree::{Base, Component, Presence, TypeIndex, Unread, Value as Written};
use crate::types::Within;
use rasn_schema::Value;
use std::alloc::Global;

/// A value as it is written, and where.
#[derive(Clone, Copy)]
pub(crate) struct Spelled<'text> {
    pub(crate) place: Place,
    pub(crate) value: Written<'text>,
    pub(crate) position: Position,
}

impl<'text> Spelled<'text> {
    /// Returns the value that a component has where it is absent, if there is one.
    pub(crate) fn default(place: Place, presence: Presence<'text>) -> Option<Spelled<'text>> {
        match presence {
            Presence::Default(value, position) => Some(Spelled {
                place,
                value,
                position,
            }),
            _ => None,
        }
    }
}

/// The value of a component (X.680 25).
#[derive(Clone, Copy)]
pub(crate) struct Member<'text> {
    pub(crate) name: &'text str,
    position: Position,
    pub(crate) value: Spelled<'text>,
}

/// What a SEQUENCE or a SET has for a component.
#[derive(Clone, Copy)]
enum Wanted<'text> {
    /// A value of this type of a module, which is written for it or its default.
    Spelled(Place, TypeIndex, Spelled<'text>),
    Absent,
    /// Unknown values, of which there are none.
    NoValues,
}

impl<'modules, 'text> Resolver<'modules, 'text> {
    /// Returns a value of a type, in which others may be nested so deep, and so many are left.
    #[cycle(values)]
    pub(crate) fn value_of(
        &mut self,
        of: Place,
        index: usize,
        spelled: &Spelled<'text>,
        depth: usize,
        left: &mut usize,
    ) -> Result<Value<'static>, Halt<'text>> {
        let depth = self.deeper(spelled, depth, left)?;
        self.step(1, spelled.place, spelled.position)?;
        let (at, base) = self.base_of(of, index, spelled.position)?;
        match base {
            Base::Sequence(list) => {
                self.members(at, list.as_slice(), Within::Sequence, spelled, depth, left)
            }
            Base::Set(list) => self.members(at, list.as_slice(), Within::Set, spelled, depth, left),
            Base::Choice(list) => self.chosen(at, list.as_slice(), spelled, depth, left),
            Base::SequenceOf(list) => self.elements(at, list.element, false, spelled, depth, left),
            Base::SetOf(list) => self.elements(at, list.element, true, spelled, depth, left),
            other if is_open(other) => self.open_default(spelled, depth, left),
            other => self.simple_value(at, other, spelled),
        }
    }

    /// Returns a value of a SEQUENCE or a SET (X.680 25, 27).
    #[cycle(values)]
    fn members(
        &mut self,
        at: Place,
        list: &[Component<'text>],
        within: Within,
        spelled: &Spelled<'text>,
        depth: usize,
        left: &mut usize,
    ) -> Result<Value<'static>, Halt<'text>> {
        let mut values = Vec::new(self.alloc);
        for wanted in &self.wanted(at, list, within, spelled, left)? {
            values.push(match wanted {
                Wanted::Spelled(place, of, value) => {
                    self.value_of(*place, of.0, value, depth, left)?
                }
                Wanted::Absent => Value::Absent,
                Wanted::NoValues => no_values(self.alloc),
            })?;
        }
        Ok(Value::Items(values))
    }

    /// Returns a value of a CHOICE (X.680 29).
    #[cycle(values)]
    fn chosen(
        &mut self,
        at: Place,
        list: &[Component<'text>],
        spelled: &Spelled<'text>,
        depth: usize,
        left: &mut usize,
    ) -> Result<Value<'static>, Halt<'text>> {
        let (index, of, value) = self.choice(list, spelled)?;
        let value = self.value_of(at, of.0, &value, depth, left)?;
        Ok(Value::Chosen(index, Box::new(self.alloc, value)?))
    }

    /// Returns a value of SEQUENCE OF or SET OF (X.680 26, 28).
    #[cycle(values)]
    fn elements(
        &mut self,
        at: Place,
        of: TypeIndex,
        is_set: bool,
        spelled: &Spelled<'text>,
        depth: usize,
        left: &mut usize,
    ) -> Result<Value<'static>, Halt<'text>> {
        let mut values = Vec::new(self.alloc);
        for element in &self.listed_values(spelled)? {
            values.push(self.value_of(at, of.0, element, depth, left)?)?;
        }
        Ok(if is_set {
            Value::Elements(values)
        } else {
            Value::Items(values)
        })
    }
}

impl<'modules, 'text> Resolver<'modules, 'text> {
    /// Returns what a value of a SEQUENCE or a SET has for each component.
    fn wanted(
        &mut self,
        at: Place,
        list: &[Component<'text>],
        within: Within,
        spelled: &Spelled<'text>,
        left: &mut usize,
    ) -> Result<Vec<Wanted<'text>>, Halt<'text>> {
        let listed = self.listed(at, list, within, true)?;
        let members = self.members_of(listed.as_slice(), spelled, left)?;
        let mut wanted = Vec::new(self.alloc);
        for listed in &listed {
            if let Some(found) = wanted_for(listed, members.as_slice()) {
                wanted.push(found)?;
            }
        }
        if has_unknown(self.modules, at, listed.as_slice(), within) {
            wanted.push(Wanted::NoValues)?;
        }
        Ok(wanted)
    }

    /// Returns the values that are written for components of a list. Those of the list are among
    /// the values that are left.
    pub(crate) fn members_of(
        &mut self,
        listed: &[Listed<'text>],
        spelled: &Spelled<'text>,
        left: &mut usize,
    ) -> Result<Vec<Member<'text>>, Halt<'text>> {
        let members = self.member_values(spelled)?;
        let pairs = members.len().saturating_mul(listed.len());
        self.step(
            pairs.saturating_add(listed.len()),
            spelled.place,
            spelled.position,
        )?;
        self.check_members(members.as_slice(), listed)?;
        *left = left.saturating_sub(listed.len());
        Ok(members)
    }

    /// Returns the index and the type of the alternative that a value of a CHOICE names, and its
    /// value.
    pub(crate) fn choice(
        &mut self,
        list: &[Component<'text>],
        spelled: &Spelled<'text>,
    ) -> Result<(usize, TypeIndex, Spelled<'text>), Halt<'text>> {
        let member = self.alternative_value(spelled)?;
        self.step(list.len(), spelled.place, spelled.position)?;
        match alternative_named(list, member.name) {
            Some((index, of)) => Ok((index, of, member.value)),
            None => Err(self.undefined(member.value.place, member.position, member.name)),
        }
    }

    /// Returns how deep values may be nested in this one, which is one of those that are left.
    pub(crate) fn deeper(
        &self,
        spelled: &Spelled<'text>,
        depth: usize,
        left: &mut usize,
    ) -> Result<usize, Halt<'text>>
        ensures { IfOk result (λ d. d + 1 ≡ depth) }
    {
        *left = left.saturating_sub(1);
        if *left == 0 {
            let what = "100000 values in one default";
            return Err(self.beyond(spelled.place, spelled.position, what));
        }
        if depth == 0 {
            let what = "16 values in one another";
            return Err(self.beyond(spelled.place, spelled.position, what));
        }
        Ok(depth - 1)
    }

    /// Refuses the value of a component that isn't in a list.
    fn check_members(
        &self,
        members: &[Member<'text>],
        listed: &[Listed<'text>],
    ) -> Result<(), Halt<'text>> {
        for member in members {
            if !has_component(listed, member.name) {
                return Err(self.undefined(member.value.place, member.position, member.name));
            }
        }
        Ok(())
    }

    /// Returns what of a value isn't read yet, and is read now.
    pub(crate) fn unread(
        &mut self,
        spelled: &Spelled<'text>,
    ) -> Result<Unread<'text>, Halt<'text>> {
        let Written::Unread(unread) = spelled.value else {
            return Err(self.misfit(spelled));
        };
        self.step(unread.text.len(), spelled.place, spelled.position)?;
        Ok(unread)
    }

    /// Returns a parser of a part of a module's text, of which these are the items.
    pub(crate) fn parser<'tokens>(
        &self,
        place: Place,
        unread: Unread<'text>,
        items: &'tokens [Token<'text>],
    ) -> Parser<'tokens, 'text> {
        Parser {
            alloc: self.alloc,
            source: self.modules.source_of(place.module, unread.text),
            rest: items,
            end: unread.position.after(unread.text),
            types: Vec::new(self.alloc),
        }
    }

    /// Reads the values of components, in braces (X.680 25).
    fn member_values(
        &mut self,
        spelled: &Spelled<'text>,
    ) -> Result<Vec<Member<'text>>, Halt<'text>> {
        let meant = self.meant(spelled)?;
        let unread = self.unread(&meant)?;
        let items = tokens(self.alloc, unread.text, unread.position)?;
        let mut parser = self.parser(meant.place, unread, items.as_slice());
        parser.members(meant.place)
    }

    /// Reads values in braces (X.680 22, 26, 28).
    pub(crate) fn listed_values(
        &mut self,
        spelled: &Spelled<'text>,
    ) -> Result<Vec<Spelled<'text>>, Halt<'text>> {
        let meant = self.meant(spelled)?;
        let unread = self.unread(&meant)?;
        let items = tokens(self.alloc, unread.text, unread.position)?;
        let mut parser = self.parser(meant.place, unread, items.as_slice());
        parser.values(meant.place)
    }

    /// Reads the name of an alternative, and its value (X.680 29).
    fn alternative_value(
        &mut self,
        spelled: &Spelled<'text>,
    ) -> Result<Member<'text>, Halt<'text>> {
        let meant = self.meant(spelled)?;
        let unread = self.unread(&meant)?;
        let items = tokens(self.alloc, unread.text, unread.position)?;
        let mut parser = self.parser(meant.place, unread, items.as_slice());
        parser.alternative(meant.place)
    }
}

impl<'tokens, 'text> Parser<'tokens, 'text> {
    /// Reads a value that is at a place.
    pub(crate) fn spelled(&mut self, place: Place) -> Result<Spelled<'text>, Halt<'text>> {
        let position = self.position();
        Ok(Spelled {
            place,
            value: self.value()?,
            position,
        })
    }

    /// Reads values in braces.
    fn values(&mut self, place: Place) -> Result<Vec<Spelled<'text>>, Halt<'text>> {
        let mut values = Vec::new(self.alloc);
        if self.begins_empty()? {
            return Ok(values);
        }
        for _ in 0..self.rest.len() {
            values.push(self.spelled(place)?)?;
            if !self.eat(",") {
                break;
            }
        }
        self.expect("}")?;
        Ok(values)
    }

    /// Reads the values of components, in braces.
    fn members(&mut self, place: Place) -> Result<Vec<Member<'text>>, Halt<'text>> {
        let mut members = Vec::new(self.alloc);
        if self.begins_empty()? {
            return Ok(members);
        }
        for _ in 0..self.rest.len() {
            members.push(self.member(place)?)?;
            if !self.eat(",") {
                break;
            }
        }
        self.expect("}")?;
        Ok(members)
    }

    /// Reads the name of an alternative, a colon and its value.
    fn alternative(&mut self, place: Place) -> Result<Member<'text>, Halt<'text>> {
        let position = self.position();
        let name = self.expect_kind(Kind::Lower, "an alternative")?;
        self.expect(":")?;
        Ok(Member {
            name,
            position,
            value: self.spelled(place)?,
        })
    }

    /// Reads the name of a component, and its value.
    fn member(&mut self, place: Place) -> Result<Member<'text>, Halt<'text>> {
        let position = self.position();
        let name = self.expect_kind(Kind::Lower, "a component")?;
        Ok(Member {
            name,
            position,
            value: self.spelled(place)?,
        })
    }
}

/// Returns what a value with these members has for a component. A marker is none.
fn wanted_for<'text>(listed: &Listed<'text>, members: &[Member<'text>]) -> Option<Wanted<'text>> {
    let Component::Named {
        name,
        of,
        presence,
        ..
    } = listed.component
    else {
        return None;
    };
    let place = listed.place;
    match member_named(members, name).or(Spelled::default(place, presence)) {
        Some(value) => Some(Wanted::Spelled(place, of, value)),
        None => Some(Wanted::Absent),
    }
}

/// Returns the value of unknown values of which there are none.
fn no_values(alloc: Global) -> Value<'static> {
    Value::Items(Vec::new(alloc))
}

/// Returns the value of the component of this name.
pub(crate) fn member_named<'text>(members: &[Member<'text>], name: &str) -> Option<Spelled<'text>> {
    for member in members {
        if member.name == name {
            return Some(member.value);
        }
    }
    None
}

/// Returns whether a component of a list has this name.
fn has_component(listed: &[Listed<'_>], name: &str) -> bool {
    for listed in listed {
        if let Component::Named { name: found, .. } = listed.component {
            if found == name {
                return true;
            }
        }
    }
    false
}

/// Returns the index and the type of the alternative of this name.
pub(crate) fn alternative_named(list: &[Component<'_>], name: &str) -> Option<(usize, TypeIndex)> {
    let mut index = 0usize;
    for component in list {
        if let Component::Named {
            name: found,
            of,
            ..
        } = component
        {
            if *found == name {
                return Some((index, *of));
            }
            index = index.saturating_add(1);
        }
    }
    None
}
