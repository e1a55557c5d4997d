//! Whole numbers that are written or named (X.680 19).
use crate::fault::Halt;
use crate::position::Position;
use crate::resolver::lookup::{MAX_NAMES, TOO_MANY_NAMES};
use crate::resolver::node::Place;
use crate::resolver::object::Governed;
use crate::resolver::shape::Resolver;
use crate::resolver::value::Spelled;
use crate::tree::{Base, NamedNumber, TypeIndex, Value};

impl<'modules, 'text> Resolver<'modules, 'text> {
    /// Returns the number that a value of an INTEGER or an ENUMERATED is. These names of numbers,
    /// of a type at the place `home`, come before the names of values (X.680 19.9).
    pub(crate) fn number(
        &mut self,
        place: Place,
        value: Value<'text>,
        names: &[NamedNumber<'text>],
        home: Place,
        position: Position,
    ) -> Result<i128, Halt<'text>> {
        self.step(names.len().saturating_add(1), place, position)?;
        let (mut at, mut value) = match number_named(names, value) {
            Some(number) => (home, number),
            None => (place, value),
        };
        for _ in 0..MAX_NAMES {
            match value {
                Value::Number {
                    is_negative,
                    digits,
                } => return self.digits(place, is_negative, digits, position),
                Value::Name { module, name } => {
                    (at, value) = self.number_meant(at, module, name, position)?;
                }
                Value::Field(_) => {
                    let spelled = Spelled {
                        place: at,
                        value,
                        position,
                    };
                    (at, value) = self.number_of_field(&spelled)?;
                }
                Value::Boolean(_)
                | Value::Null
                | Value::Special(_)
                | Value::Text(_)
                | Value::Digits(_)
                | Value::Unread(_) => return Err(self.expected(place, position, "a number")),
            }
        }
        Err(self.beyond(place, position, TOO_MANY_NAMES))
    }

    /// Returns what the name of a number means, with its place.
    fn number_meant(
        &mut self,
        place: Place,
        outside: Option<&'text str>,
        name: &'text str,
        position: Position,
    ) -> Result<(Place, Value<'text>), Halt<'text>> {
        let named = self.value_meant(place, outside, name, position, "a number")?;
        let spelled = Spelled {
            place: named.place,
            value: named.value,
            position,
        };
        self.governed(named.place, named.of, &spelled)
    }

    /// Returns what a field of an object means, with its place.
    fn number_of_field(
        &mut self,
        spelled: &Spelled<'text>,
    ) -> Result<(Place, Value<'text>), Halt<'text>> {
        let Governed { home, of, value } = self.field_value(spelled)?;
        self.governed(home, of, &value)
    }

    /// Returns the number of these digits.
    fn digits(
        &self,
        place: Place,
        is_negative: bool,
        digits: &str,
        position: Position,
    ) -> Result<i128, Halt<'text>> {
        let parsed = digits.parse::<i128>();
        match parsed {
            Ok(number) if is_negative => Ok(number.saturating_neg()),
            Ok(number) => Ok(number),
            Err(_) => Err(self.unsupported(place, position, "such a number")),
        }
    }

    /// Returns the number of the name that a value of a type is, if the type is known, or the value,
    /// with its place.
    fn governed(
        &mut self,
        place: Place,
        of: Option<TypeIndex>,
        spelled: &Spelled<'text>,
    ) -> Result<(Place, Value<'text>), Halt<'text>> {
        let position = spelled.position;
        let Some(of) = of else {
            return Ok((spelled.place, spelled.value));
        };
        let (home, base) = self.base_of(place, of.0, position)?;
        if !matches!(base, Base::Integer(_) | Base::Enumerated(_)) {
            return Err(self.expected(place, position, "a number"));
        }
        self.step(names_of(base).len(), place, position)?;
        match number_named(names_of(base), spelled.value) {
            Some(number) => Ok((home, number)),
            None => Ok((spelled.place, spelled.value)),
        }
    }
}

/// Returns the number of the name that a value is, if it is one of these.
fn number_named<'text>(names: &[NamedNumber<'text>], value: Value<'text>) -> Option<Value<'text>> {
    if let Value::Name { module: None, name } = value {
        for named in names {
            if named.name == Some(name) {
                return named.number;
            }
        }
    }
    None
}

/// Returns the names of numbers that an INTEGER or an ENUMERATED has.
fn names_of<'modules, 'text>(base: &'modules Base<'text>) -> &'modules [NamedNumber<'text>] {
    match base {
        Base::Integer(names) => names.as_slice(),
        Base::Enumerated(names) => names.as_slice(),
        _ => &[],
    }
}
