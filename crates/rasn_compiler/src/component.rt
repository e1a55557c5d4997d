//! Components of SEQUENCE, SET and CHOICE (X.680 25, 27, 29).
use crate::fault::{Halt, Problem};
use crate::parser::Parser;
use crate::position::Position;
use crate::token::Kind;
use crate::tree::{Component, Presence, TypeIndex};
use crate::words::MARKER;

/// The version brackets that were seen in a list (X.680 25.1).
#[derive(Clone, Copy)]
struct Groups {
    is_open: bool,
    /// How many markers were seen.
    markers: usize,
    /// The number of the last ones that have one.
    version: u64,
}

impl Groups {
    /// Those of a list of which nothing is read.
    const NONE: Groups = Groups {
        is_open: false,
        markers: 0,
        version: 0,
    };

    /// Counts the last of the components that were read, if it is a marker.
    fn count(&mut self, read: &[Component<'_>]) {
        if let Some(Component::Marker(_)) = read.last() {
            self.markers = self.markers.saturating_add(1);
        }
    }
}

impl<'tokens, 'text> Parser<'tokens, 'text> {
    /// Reads components in braces, with the marker and version brackets among them.
    #[cycle(types)]
    pub(crate) fn components(
        &mut self,
        depth: usize,
    ) -> Result<Vec<Component<'text>>, Halt<'text>> {
        let mut found = Vec::new(self.alloc);
        if self.begins_empty()? {
            return Ok(found);
        }
        let mut groups = Groups::NONE;
        for _ in 0..self.rest.len() {
            self.group_start(&mut groups)?;
            found.push(self.component(depth)?)?;
            if self.ends_list(&mut groups, found.as_slice())? {
                return Ok(found);
            }
        }
        Err(self.refuse(", or }"))
    }

    /// Reads what is between two commas.
    #[cycle(types)]
    fn component(&mut self, depth: usize) -> Result<Component<'text>, Halt<'text>> {
        let position = self.position();
        match self.component_start()? {
            Start::Marker => Ok(Component::Marker(position)),
            Start::Of => Ok(Component::Of(self.read_type(depth)?)),
            Start::Named(name) => {
                let of = self.read_type(depth)?;
                self.named_component(position, name, of)
            }
        }
    }
}

/// What a component begins with.
#[derive(Clone, Copy)]
enum Start<'text> {
    Marker,
    /// COMPONENTS OF.
    Of,
    Named(&'text str),
}

impl<'tokens, 'text> Parser<'tokens, 'text> {
    /// Takes the brace that opens a list, and returns whether the list is empty. The brace that
    /// closes it is taken then.
    pub(crate) fn begins_empty(&mut self) -> Result<bool, Halt<'text>> {
        self.expect("{")?;
        Ok(self.eat("}"))
    }

    /// Takes what is before the type of a component, or the whole of a marker.
    fn component_start(&mut self) -> Result<Start<'text>, Halt<'text>> {
        if self.eat(MARKER) {
            self.exception()?;
            return Ok(Start::Marker);
        }
        if self.eat("COMPONENTS") {
            self.expect("OF")?;
            return Ok(Start::Of);
        }
        Ok(Start::Named(self.expect_kind(Kind::Lower, "a component")?))
    }

    /// Reads what follows the type of a component.
    fn named_component(
        &mut self,
        position: Position,
        name: &'text str,
        of: TypeIndex,
    ) -> Result<Component<'text>, Halt<'text>> {
        let presence = self.presence()?;
        Ok(Component::Named {
            position,
            name,
            of,
            presence,
        })
    }

    /// Takes version brackets that close after a component, and a comma or the brace that closes
    /// the list. Returns whether it was the brace.
    fn ends_list(
        &mut self,
        groups: &mut Groups,
        read: &[Component<'text>],
    ) -> Result<bool, Halt<'text>> {
        groups.count(read);
        self.group_end(groups)?;
        if self.eat(",") {
            return Ok(false);
        }
        if groups.is_open {
            return Err(self.refuse(", or ]]"));
        }
        if self.eat("}") {
            Ok(true)
        } else {
            Err(self.refuse(", or }"))
        }
    }

    /// Takes version brackets, with their number, if they open here. They are between the markers,
    /// or after the only one (X.680 25.1, 29.1).
    fn group_start(&mut self, groups: &mut Groups) -> Result<(), Halt<'text>> {
        if groups.is_open || !self.is("[") || !self.is_after(1, "[") {
            return Ok(());
        }
        if groups.markers != 1 {
            let rule = "version brackets outside the extension additions (X.680 25.1, 29.1)";
            return Err(self.refuse_at(self.position(), Problem::Broken(rule)));
        }
        self.skip(2);
        groups.is_open = true;
        if self.peek() == Kind::Number {
            groups.version = self.version(groups.version)?;
        }
        Ok(())
    }

    /// Takes the number of version brackets, which is above that of those before them, and the
    /// colon (X.680 25, 29).
    fn version(&mut self, before: u64) -> Result<u64, Halt<'text>> {
        let Ok(version) = self.text().parse::<u64>() else {
            return Err(self.refuse("the number of a version"));
        };
        if version <= before {
            let rule = "the number of a version isn't above that of the last one (X.680 25, 29)";
            return Err(self.refuse_at(self.position(), Problem::Broken(rule)));
        }
        self.skip(1);
        self.expect(":")?;
        Ok(version)
    }

    /// Takes version brackets, if they close here.
    fn group_end(&mut self, groups: &mut Groups) -> Result<(), Halt<'text>> {
        if groups.is_open && self.is("]") {
            self.skip(1);
            self.expect("]")?;
            groups.is_open = false;
        }
        Ok(())
    }

    /// Reads OPTIONAL or DEFAULT.
    fn presence(&mut self) -> Result<Presence<'text>, Halt<'text>> {
        if self.eat("OPTIONAL") {
            Ok(Presence::Optional)
        } else if self.eat("DEFAULT") {
            let position = self.position();
            Ok(Presence::Default(self.value()?, position))
        } else {
            Ok(Presence::Required)
        }
    }

    /// Takes what follows the marker after `!` (X.680 53.4).
    pub(crate) fn exception(&mut self) -> Result<(), Halt<'text>> {
        if self.eat("!") {
            self.value()?;
        }
        Ok(())
    }
}
