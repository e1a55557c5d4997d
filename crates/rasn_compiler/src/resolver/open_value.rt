//! Values of open types (X.681 14.6): a type, a colon and a value of the type.
use crate::fault::Halt;
use crate::lexer::tokens;
use crate::parser::{MAX_DEPTH, Parser};
use crate::resolver::digits::{Digits, read_digits};
use crate::resolver::node::{Place, Use};
use crate::resolver::shape::Resolver;
use crate::resolver::value::Spelled;
use crate::tree::{Base, Type, TypeIndex, Value as Written};
use rasn_schema::Value;
use std::borrow::CowSlice;

/// Holds a value of an open type.
#[derive(Drop)]
enum Opened<'text> {
    /// A value of a type that has a name.
    Value(Use, Spelled<'text>),
    /// The octets of a value.
    Octets(Vec<u8>),
}

impl<'modules, 'text> Resolver<'modules, 'text> {
    /// Returns a value of an open type, in which others may be nested so deep, and so many are
    /// left.
    pub(crate) fn open_default(
        &mut self,
        spelled: &Spelled<'text>,
        depth: usize,
        left: &mut usize,
    ) -> Result<Value<'static>, Halt<'text>> {
        let octets = self.open_octets(spelled, depth, left)?;
        Ok(Value::Octets(CowSlice::Owned(octets)))
    }

    /// Returns the octets of a value of an open type.
    #[cycle(octets)]
    pub(crate) fn open_octets(
        &mut self,
        spelled: &Spelled<'text>,
        depth: usize,
        left: &mut usize,
    ) -> Result<Vec<u8>, Halt<'text>> {
        match self.opened(spelled)? {
            Opened::Value(of, value) => self.octets_of(of, &value, depth, left),
            Opened::Octets(octets) => Ok(octets),
        }
    }
}

impl<'modules, 'text> Resolver<'modules, 'text> {
    /// Reads a value of an open type: a type and a value of it, or the octets of one, as a schema
    /// is shown.
    fn opened(&mut self, spelled: &Spelled<'text>) -> Result<Opened<'text>, Halt<'text>> {
        let meant = self.meant(spelled)?;
        if let Written::Digits(digits) = meant.value {
            return self.octets_in(digits, spelled);
        }
        let unread = self.unread(&meant)?;
        let items = tokens(self.alloc, unread.text, unread.position)?;
        let mut parser = self.parser(meant.place, unread, items.as_slice());
        let (of, value) = parser.governed_value(meant.place)?;
        match parser.types.get(of.0) {
            Some(ty) => self.opened_by(ty, &value),
            None => Err(self.unsupported_default(spelled)),
        }
    }

    /// Returns the octets that are written in hexadecimal.
    fn octets_in(
        &mut self,
        digits: &'text str,
        spelled: &Spelled<'text>,
    ) -> Result<Opened<'text>, Halt<'text>> {
        self.step(digits.len(), spelled.place, spelled.position)?;
        let Digits { octets, bits } = read_digits(self.alloc, digits)?;
        if bits == 0 || bits % 8 != 0 {
            return Err(self.misfit(spelled));
        }
        Ok(Opened::Octets(octets))
    }

    /// Returns the value of an open type that is one of the type before it. A type without a name
    /// is supported if it holds no others and no tag is before it.
    fn opened_by(
        &mut self,
        ty: &Type<'text>,
        value: &Spelled<'text>,
    ) -> Result<Opened<'text>, Halt<'text>> {
        if !ty.tags.is_empty() {
            return Err(self.unsupported_default(value));
        }
        match &ty.base {
            Base::Reference {
                module,
                name,
                actuals,
            } if actuals.is_empty() => {
                let next = self.type_meant(value.place, *module, name, &[], ty.position)?;
                let of = Use {
                    automatic: next.automatic,
                    ..Use::of(next.place, next.index)
                };
                Ok(Opened::Value(of, *value))
            }
            base => Ok(Opened::Octets(self.simple_octets(value.place, base, None, value)?)),
        }
    }
}

impl<'tokens, 'text> Parser<'tokens, 'text> {
    /// Reads a type, a colon and a value.
    fn governed_value(&mut self, place: Place) -> Result<(TypeIndex, Spelled<'text>), Halt<'text>> {
        let of = self.read_type(MAX_DEPTH)?;
        self.expect(":")?;
        Ok((of, self.spelled(place)?))
    }
}
