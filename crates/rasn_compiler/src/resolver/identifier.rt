//! Values of OBJECT IDENTIFIER (X.680 32.3).
use crate::fault::Halt;
use crate::lexer::tokens;
use crate::parser::Parser;
use crate::resolver::lookup::{MAX_NAMES, TOO_MANY_NAMES};
use crate::resolver::node::Place;
use crate::resolver::shape::Resolver;
use crate::resolver::value::Spelled;
use crate::token::Kind;
use crate::tree::Value as Written;
use rasn_schema::Value;
use rasn_types::types::ObjectIdentifier;

/// A component of an OBJECT IDENTIFIER's value.
#[derive(Clone, Copy)]
struct Arc<'text> {
    spelled: Spelled<'text>,
    /// The name that is alone, neither before a number nor after the name of a module.
    name: Option<&'text str>,
}

impl<'modules, 'text> Resolver<'modules, 'text> {
    /// Returns a value of OBJECT IDENTIFIER.
    pub(crate) fn identifier_default(
        &mut self,
        spelled: &Spelled<'text>,
    ) -> Result<Value<'static>, Halt<'text>> {
        let mut arcs = Vec::new(self.alloc);
        let mut prefix = Some(*spelled);
        for _ in 0..MAX_NAMES {
            let Some(next) = prefix else {
                return self.identifier_of(arcs, spelled);
            };
            let (before, mut found) = self.arcs(&next)?;
            self.step(arcs.len(), spelled.place, spelled.position)?;
            found.extend_from_slice(arcs.as_slice())?;
            arcs = found;
            prefix = before;
        }
        Err(self.beyond(spelled.place, spelled.position, TOO_MANY_NAMES))
    }

    /// Returns the identifier of these numbers.
    fn identifier_of(
        &self,
        arcs: Vec<u32>,
        spelled: &Spelled<'text>,
    ) -> Result<Value<'static>, Halt<'text>> {
        if !may_begin(arcs.as_slice()) {
            return Err(self.misfit(spelled));
        }
        match ObjectIdentifier::new(arcs) {
            Some(identifier) => Ok(Value::Arcs(identifier)),
            None => Err(self.misfit(spelled)),
        }
    }

    /// Returns the numbers of a value's components, and the value that is before them if the first
    /// is the name of one.
    fn arcs(
        &mut self,
        spelled: &Spelled<'text>,
    ) -> Result<(Option<Spelled<'text>>, Vec<u32>), Halt<'text>> {
        let mut prefix = None;
        let mut numbers = Vec::new(self.alloc);
        for arc in &self.components_of(spelled)? {
            let known = known_number(prefix.is_some(), numbers.as_slice(), arc.name);
            let is_first = prefix.is_none() && numbers.is_empty();
            if is_first && known.is_none() && is_value_name(arc) {
                prefix = Some(arc.spelled);
            } else {
                numbers.push(self.arc_number(&arc.spelled, known)?)?;
            }
        }
        Ok((prefix, numbers))
    }

    /// Returns the number of a component (X.680 32.3), which may be known by its name.
    fn arc_number(&mut self, arc: &Spelled<'text>, known: Option<u32>) -> Result<u32, Halt<'text>> {
        if let Some(number) = known {
            return Ok(number);
        }
        let number = self.number(arc.place, arc.value, &[], arc.place, arc.position)?;
        match u32::try_from(number) {
            Ok(number) => Ok(number),
            Err(_) => Err(self.unsupported(arc.place, arc.position, "such a number")),
        }
    }

    /// Reads the components of a value, in braces.
    fn components_of(&mut self, spelled: &Spelled<'text>) -> Result<Vec<Arc<'text>>, Halt<'text>> {
        let meant = self.meant(spelled)?;
        let unread = self.unread(&meant)?;
        let items = tokens(self.alloc, unread.text, unread.position)?;
        let mut parser = self.parser(meant.place, unread, items.as_slice());
        parser.arcs(meant.place)
    }
}

impl<'tokens, 'text> Parser<'tokens, 'text> {
    /// Reads components in braces.
    fn arcs(&mut self, place: Place) -> Result<Vec<Arc<'text>>, Halt<'text>> {
        let mut arcs = Vec::new(self.alloc);
        self.expect("{")?;
        for _ in 0..self.rest.len() {
            if self.is("}") {
                break;
            }
            arcs.push(self.arc(place)?)?;
        }
        self.expect("}")?;
        Ok(arcs)
    }

    /// Reads a component: a name, a number, or both (X.680 32.3).
    fn arc(&mut self, place: Place) -> Result<Arc<'text>, Halt<'text>> {
        let position = self.position();
        let name = self.lone_name();
        let value = self.arc_value()?;
        Ok(Arc {
            spelled: Spelled {
                place,
                value,
                position,
            },
            name,
        })
    }

    /// Returns the name that is next and that no number follows.
    fn lone_name(&self) -> Option<&'text str> {
        if self.peek() == Kind::Lower && !self.is_after(1, "(") {
            Some(self.text())
        } else {
            None
        }
    }

    /// Reads a number with a name before it, or a value.
    fn arc_value(&mut self) -> Result<Written<'text>, Halt<'text>> {
        if self.peek() != Kind::Lower || !self.is_after(1, "(") {
            return self.value();
        }
        self.skip(2);
        let number = self.value()?;
        self.expect(")")?;
        Ok(number)
    }
}

/// Returns whether the first two numbers may be together: after 0 and 1 is one below 40 (X.660 A,
/// X.690 8.19.4).
fn may_begin(arcs: &[u32]) -> bool {
    match arcs {
        [0 | 1, second, ..] => *second < 40,
        _ => true,
    }
}

/// Returns whether a component is the name of a value, of another module if that is named.
fn is_value_name(arc: &Arc<'_>) -> bool {
    let Written::Name { module, .. } = arc.spelled.value else {
        return false;
    };
    module.is_some() || arc.name.is_some()
}

/// Names that need no number: the number before them, if there is one, and their own (X.660 A).
const KNOWN_ARCS: [(Option<u32>, &str, u32); 13] = [
    (None, "itu-t", 0),
    (None, "ccitt", 0),
    (None, "iso", 1),
    (None, "joint-iso-itu-t", 2),
    (None, "joint-iso-ccitt", 2),
    (Some(0), "recommendation", 0),
    (Some(0), "question", 1),
    (Some(0), "administration", 2),
    (Some(0), "network-operator", 3),
    (Some(0), "identified-organization", 4),
    (Some(1), "standard", 0),
    (Some(1), "member-body", 2),
    (Some(1), "identified-organization", 3),
];

/// Returns the number of the name that a component is, if it needs none after these numbers. After
/// the name of a value each needs one.
fn known_number(has_prefix: bool, before: &[u32], name: Option<&str>) -> Option<u32> {
    let name = name?;
    let parent = match before {
        [] if !has_prefix => None,
        [parent] if !has_prefix => Some(*parent),
        [0, 0] if !has_prefix => return series_number(name),
        _ => return None,
    };
    for (under, known, number) in &KNOWN_ARCS {
        if *under == parent && *known == name {
            return Some(*number);
        }
    }
    None
}

/// Returns the number of a series of recommendations, whose name is a letter (X.660 A).
fn series_number(name: &str) -> Option<u32> {
    let [letter] = name.as_bytes() else {
        return None;
    };
    let letter = *letter;
    match letter {
        b'a'..=b'z' => Some(u32::from(letter - b'a') + 1),
        _ => None,
    }
}
