//! Named numbers (X.680 19) and enumerations (X.680 20).
use crate::fault::Halt;
use crate::position::Position;
use crate::resolver::node::Place;
use crate::resolver::shape::Resolver;
use crate::tree::{NamedNumber, Value};
use rasn_schema::NamedNumber as Numbered;
use std::alloc::{AllocError, Global};
use std::collections::BTreeSet;

/// What is wrong with a number of an ENUMERATED that another name has.
const REPEATED: &str = "two of the numbers are the same (X.680 20.3)";

/// How many steps each name takes, beside those for its octets.
const STEPS: usize = 16;

/// The names of an ENUMERATED, with their numbers.
#[derive(Drop)]
pub(crate) struct Enumeration {
    pub(crate) numbers: Vec<Numbered>,
    /// True if a marker is among them, or the module implies one (X.680 13.4, 20.1).
    pub(crate) is_extensible: bool,
}

/// The numbers of an ENUMERATED that are known so far.
#[derive(Drop)]
struct Numbering {
    numbers: Vec<Numbered>,
    /// The numbers that no other name gets.
    used: BTreeSet<isize>,
    /// No lower number is free.
    free: isize,
}

impl Numbering {
    /// Adds a name with a number of its own. Returns whether no other has it.
    fn add(
        &mut self,
        alloc: Global,
        name: &str,
        written: Option<isize>,
        is_addition: bool,
    ) -> Result<bool, AllocError> {
        let number = match written {
            Some(number) => number,
            None => next_free(&self.used, self.free),
        };
        let mut is_new = true;
        if is_addition || written.is_none() {
            is_new = self.used.insert(number)?;
            self.free = self.free.max(number.saturating_add(1));
        }
        let name = String::from_str(alloc, name)?;
        self.numbers.push(Numbered { name, number })?;
        Ok(is_new)
    }
}

impl<'modules, 'text> Resolver<'modules, 'text> {
    /// Returns the names of an INTEGER's numbers (X.680 19).
    pub(crate) fn numbered(
        &mut self,
        place: Place,
        names: &[NamedNumber<'text>],
        position: Position,
    ) -> Result<Vec<Numbered>, Halt<'text>> {
        self.check_names(place, names)?;
        let mut used = BTreeSet::new(self.alloc);
        let mut numbers = Vec::new(self.alloc);
        for named in names {
            let found = self.name_with_number(place, named, position)?;
            if !used.insert(found.number)? {
                let rule = "two of the numbers are the same (X.680 19)";
                return Err(self.broken(place, named.position, rule));
            }
            numbers.push(found)?;
        }
        Ok(numbers)
    }

    /// Returns a name of an INTEGER's number.
    fn name_with_number(
        &mut self,
        place: Place,
        named: &NamedNumber<'text>,
        position: Position,
    ) -> Result<Numbered, Halt<'text>> {
        let (Some(name), Some(value)) = (named.name, named.number) else {
            return Err(self.expected(place, position, "a name with a number"));
        };
        let number = self.enumerated_number(place, value, named.position)?;
        Ok(Numbered {
            name: String::from_str(self.alloc, name)?,
            number,
        })
    }

    /// Returns the names of an ENUMERATED with their numbers (X.680 20). A name without a number
    /// has the lowest that is free; after the marker, the lowest that is free and above those of
    /// the other additions.
    pub(crate) fn enumeration(
        &mut self,
        place: Place,
        names: &[NamedNumber<'text>],
        position: Position,
    ) -> Result<Enumeration, Halt<'text>> {
        self.check_names(place, names)?;
        let root = root_length(names);
        self.broken_if(place, position, misplaced(names, root))?;
        let mut found = self.numbering(place, names.get(..root).unwrap_or(&[]))?;
        for (index, named) in names.iter().enumerate() {
            self.add_name(place, &mut found, named, index >= root)?;
        }
        let Numbering { numbers, .. } = found;
        Ok(Enumeration {
            numbers,
            is_extensible: root < names.len() || self.modules.is_extensible(place.module),
        })
    }

    /// Adds a name to those of an ENUMERATED. After the marker the lowest number is free again.
    fn add_name(
        &mut self,
        place: Place,
        found: &mut Numbering,
        named: &NamedNumber<'text>,
        is_addition: bool,
    ) -> Result<(), Halt<'text>> {
        let Some(name) = named.name else {
            found.free = 0;
            return Ok(());
        };
        let written = self.written_number(place, named)?;
        if found.add(self.alloc, name, written, is_addition)? {
            Ok(())
        } else {
            Err(self.broken(place, named.position, REPEATED))
        }
    }

    /// Refuses a name that is twice in a list (X.680 19, 20).
    fn check_names(
        &mut self,
        place: Place,
        names: &[NamedNumber<'text>],
    ) -> Result<(), Halt<'text>> {
        let mut seen = BTreeSet::new(self.alloc);
        for named in names {
            if let Some(name) = named.name {
                self.step(name.len().saturating_add(STEPS), place, named.position)?;
                if !seen.insert(name)? {
                    let rule = "two names are the same (X.680 19, 20)";
                    return Err(self.broken(place, named.position, rule));
                }
            }
        }
        Ok(())
    }

    /// Returns the numbers that are written in the root of an enumeration, which have to be
    /// distinct.
    fn numbering(
        &mut self,
        place: Place,
        names: &[NamedNumber<'text>],
    ) -> Result<Numbering, Halt<'text>> {
        let mut used = BTreeSet::new(self.alloc);
        for named in names {
            if let Some(number) = self.written_number(place, named)? {
                if !used.insert(number)? {
                    return Err(self.broken(place, named.position, REPEATED));
                }
            }
        }
        Ok(Numbering {
            numbers: Vec::new(self.alloc),
            used,
            free: 0,
        })
    }

    /// Returns the number that is written after a name.
    fn written_number(
        &mut self,
        place: Place,
        named: &NamedNumber<'text>,
    ) -> Result<Option<isize>, Halt<'text>> {
        match named.number {
            Some(value) => Ok(Some(self.enumerated_number(place, value, named.position)?)),
            None => Ok(None),
        }
    }

    /// Returns a number that has a name.
    fn enumerated_number(
        &mut self,
        place: Place,
        value: Value<'text>,
        position: Position,
    ) -> Result<isize, Halt<'text>> {
        let number = self.number(place, value, &[], place, position)?;
        match isize::try_from(number) {
            Ok(number) => Ok(number),
            Err(_) => { Err(self.unsupported(place, position, "a named number outside 64 bits")) }
        }
    }
}

/// Returns the rule that an ENUMERATED breaks by having no name, or none before the first marker,
/// or two markers. So many names are before the first marker.
fn misplaced(names: &[NamedNumber<'_>], root: usize) -> Option<&'static str> {
    if names.is_empty() {
        return Some("an ENUMERATED without names (X.680 20.1)");
    }
    if root == 0 {
        return Some("an ENUMERATED that begins with the marker (X.680 20.1)");
    }
    let rest = names.get(root.saturating_add(1)..).unwrap_or(&[]);
    if rest.iter().any(|named| named.name.is_none()) {
        return Some("an ENUMERATED with two markers (X.680 20.1)");
    }
    None
}

/// Returns how many names are before the marker.
fn root_length(names: &[NamedNumber<'_>]) -> usize {
    for (index, named) in names.iter().enumerate() {
        if named.name.is_none() {
            return index;
        }
    }
    names.len()
}

/// Returns the lowest number that isn't used, from this one on.
fn next_free(used: &BTreeSet<isize>, from: isize) -> isize {
    let mut free = from;
    for _ in 0..used.len() {
        if !used.contains(&free) {
            break;
        }
        free = free.saturating_add(1);
    }
    free
}
