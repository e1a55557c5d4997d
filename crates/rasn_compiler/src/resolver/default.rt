//! Values after DEFAULT (X.680 25, 17.7).
use crate::fault::Halt;
use crate::position::Position;
use crate::resolver::digits::{Bits, Digits, read_digits};
use crate::resolver::enumerated::Enumeration;
use crate::resolver::lookup::{MAX_NAMES, TOO_MANY_NAMES};
use crate::resolver::node::Place;
use crate::resolver::shape::Resolver;
use crate::resolver::value::Spelled;
use crate::tree::{Base, Builtin, NamedNumber, TypeIndex, Value as Written};
use rasn_schema::{NamedNumber as Numbered, Value, index_named, is_time_text, time_digits};
use rasn_types::types::{BitString, CowBits, Integer};
use std::alloc::{AllocError, Global};
use std::borrow::{CowSlice, CowStr};

/// How deep values may be nested.
const MAX_VALUE_DEPTH: usize = 16;

/// How many values a default value may be made of.
const MAX_VALUES: usize = 100_000;

impl<'modules, 'text> Resolver<'modules, 'text> {
    /// Returns the value of a component that is absent.
    pub(crate) fn default_value(
        &mut self,
        place: Place,
        of: TypeIndex,
        value: Written<'text>,
        position: Position,
    ) -> Result<Value<'static>, Halt<'text>> {
        let spelled = Spelled {
            place,
            value,
            position,
        };
        let mut left = MAX_VALUES;
        self.value_of(place, of.0, &spelled, MAX_VALUE_DEPTH, &mut left)
    }

    /// Returns a value of a type that isn't made of others.
    pub(crate) fn simple_value(
        &mut self,
        at: Place,
        base: &Base<'text>,
        spelled: &Spelled<'text>,
    ) -> Result<Value<'static>, Halt<'text>> {
        match base {
            Base::Integer(names) => self.integer_default(at, names.as_slice(), spelled),
            Base::Enumerated(names) => self.enumerated_default(at, names.as_slice(), spelled),
            Base::BitString(names) => self.bits_default(at, base, names.as_slice(), spelled),
            Base::Builtin(Builtin::ObjectIdentifier) => self.identifier_default(spelled),
            _ => self.other_default(base, spelled),
        }
    }

    /// Returns a value of an INTEGER (X.680 19.9).
    fn integer_default(
        &mut self,
        at: Place,
        names: &[NamedNumber<'text>],
        spelled: &Spelled<'text>,
    ) -> Result<Value<'static>, Halt<'text>> {
        let number = self.number(spelled.place, spelled.value, names, at, spelled.position)?;
        self.number_default(number)
    }

    /// Returns a value of an ENUMERATED (X.680 20.8).
    fn enumerated_default(
        &mut self,
        at: Place,
        names: &[NamedNumber<'text>],
        spelled: &Spelled<'text>,
    ) -> Result<Value<'static>, Halt<'text>> {
        let Enumeration { numbers, .. } = self.enumeration(at, names, spelled.position)?;
        match self.enumerated_value(numbers.as_slice(), spelled)? {
            Some(number) => self.number_default(number as i128),
            None => Err(self.misfit(spelled)),
        }
    }

    /// Returns the number of the name that a value is, or that it means.
    fn enumerated_value(
        &mut self,
        numbers: &[Numbered],
        spelled: &Spelled<'text>,
    ) -> Result<Option<isize>, Halt<'text>> {
        if let Some(number) = number_of(numbers, spelled.value) {
            return Ok(Some(number));
        }
        let meant = self.named_once(spelled)?;
        Ok(number_of(numbers, meant.value))
    }

    /// Returns a number as a value.
    fn number_default(&self, number: i128) -> Result<Value<'static>, Halt<'text>> {
        Ok(Value::Integer(Integer::from_i128(self.alloc, number)?))
    }

    /// Returns a value of a BIT STRING, which may be a list of names of its bits (X.680 22.9).
    fn bits_default(
        &mut self,
        at: Place,
        base: &Base<'text>,
        names: &[NamedNumber<'text>],
        spelled: &Spelled<'text>,
    ) -> Result<Value<'static>, Halt<'text>> {
        let meant = self.meant(spelled)?;
        let Written::Unread(_) = meant.value else {
            return self.other_default(base, &meant);
        };
        match self.named_bits(at, names, &meant)?.into_string() {
            Some(bits) => Ok(Value::Bits(CowBits::Owned(bits))),
            None => Err(self.unsupported_default(spelled)),
        }
    }

    /// Returns the bits that are set by their names or numbers.
    fn named_bits(
        &mut self,
        at: Place,
        names: &[NamedNumber<'text>],
        spelled: &Spelled<'text>,
    ) -> Result<Bits, Halt<'text>> {
        let mut bits = Bits::new(self.alloc);
        for bit in &self.listed_values(spelled)? {
            let number = self.number(bit.place, bit.value, names, at, bit.position)?;
            if !bits.set(number)? {
                return Err(self.unsupported_default(bit));
            }
        }
        Ok(bits)
    }

    /// Returns a value of another type.
    fn other_default(
        &mut self,
        base: &Base<'text>,
        spelled: &Spelled<'text>,
    ) -> Result<Value<'static>, Halt<'text>> {
        let meant = self.meant(spelled)?;
        self.step(octets_of(meant.value), spelled.place, spelled.position)?;
        match plain_default(self.alloc, base, meant.value)? {
            Some(value) => Ok(value),
            None if is_misfit(base, meant.value) => Err(self.misfit(spelled)),
            None => Err(self.unsupported_default(spelled)),
        }
    }

    /// Returns the fault of a default value that a schema can't carry.
    pub(crate) fn unsupported_default(&self, spelled: &Spelled<'text>) -> Halt<'text> {
        self.unsupported(spelled.place, spelled.position, "such a default value")
    }

    /// Returns the fault of a value that isn't one of the type.
    pub(crate) fn misfit(&self, spelled: &Spelled<'text>) -> Halt<'text> {
        let rule = "the default isn't a value of the type (X.680 25)";
        self.broken(spelled.place, spelled.position, rule)
    }

    /// Returns the value that a name, or a field of an object, means.
    pub(crate) fn meant(
        &mut self,
        spelled: &Spelled<'text>,
    ) -> Result<Spelled<'text>, Halt<'text>> {
        let mut found = *spelled;
        for _ in 0..MAX_NAMES {
            match found.value {
                Written::Name { .. } | Written::Field(_) => found = self.named_once(&found)?,
                Written::Boolean(_)
                | Written::Null
                | Written::Number { .. }
                | Written::Special(_)
                | Written::Text(_)
                | Written::Digits(_)
                | Written::Unread(_) => return Ok(found),
            }
        }
        Err(self.beyond(spelled.place, spelled.position, TOO_MANY_NAMES))
    }

    /// Returns what a value means if it is the name of another, or a field of an object.
    fn named_once(&mut self, spelled: &Spelled<'text>) -> Result<Spelled<'text>, Halt<'text>> {
        if let Written::Field(_) = spelled.value {
            return Ok(self.field_value(spelled)?.value);
        }
        let Written::Name { module, name } = spelled.value else {
            return Ok(*spelled);
        };
        let position = spelled.position;
        self.step(name.len().saturating_add(1), spelled.place, position)?;
        let named = self.value_meant(spelled.place, module, name, position, "a value")?;
        Ok(Spelled {
            place: named.place,
            value: named.value,
            position,
        })
    }
}

/// Returns how many octets a string is written with.
fn octets_of(value: Written<'_>) -> usize {
    match value {
        Written::Text(text) | Written::Digits(text) => text.len(),
        _ => 0,
    }
}

/// Returns the number of the name that a value is.
fn number_of(numbers: &[Numbered], value: Written<'_>) -> Option<isize> {
    let Written::Name { module: None, name } = value else {
        return None;
    };
    let index = index_named(numbers, name)?;
    Some(numbers.get(index)?.number)
}

/// Returns whether a value can't be one of a type.
fn is_misfit(base: &Base<'_>, value: Written<'_>) -> bool {
    let is_unread = matches!(value, Written::Unread(_));
    match base {
        Base::Builtin(Builtin::Boolean | Builtin::Null | Builtin::OctetString)
        | Base::BitString(_) => !is_unread,
        _ => false,
    }
}

/// Returns a value of a type, if it is of a kind that is supported.
fn plain_default(
    alloc: Global,
    base: &Base<'_>,
    value: Written<'_>,
) -> Result<Option<Value<'static>>, AllocError> {
    match (base, value) {
        (Base::Builtin(Builtin::Boolean), Written::Boolean(truth)) => Ok(Some(Value::Boolean(
            truth,
        ))),
        (Base::Builtin(Builtin::Null), Written::Null) => Ok(Some(Value::Null)),
        (Base::Builtin(Builtin::OctetString), Written::Digits(digits)) => {
            let Digits { octets, .. } = read_digits(alloc, digits)?;
            Ok(Some(Value::Octets(CowSlice::Owned(octets))))
        }
        (Base::BitString(names), Written::Digits(digits)) => {
            let Digits { octets, bits } = read_digits(alloc, digits)?;
            match BitString::new(octets, bits) {
                Some(bits) => Ok(Some(bits_value(bits, !names.is_empty()))),
                None => Ok(None),
            }
        }
        (Base::Builtin(builtin), Written::Text(text)) => text_default(alloc, *builtin, text),
        _ => Ok(None),
    }
}

/// Returns bits as a value. If they have names, trailing 0 bits don't count (X.680 22.7).
fn bits_value(bits: BitString, have_names: bool) -> Value<'static> {
    let bits = CowBits::Owned(bits);
    if have_names {
        Value::Bits(bits.into_significant())
    } else {
        Value::Bits(bits)
    }
}

/// Returns a string of characters (X.680 41), or a time whose value notation is one (X.680 38.4).
fn text_default(
    alloc: Global,
    builtin: Builtin,
    quoted: &str,
) -> Result<Option<Value<'static>>, AllocError> {
    let text = unquoted(alloc, quoted)?;
    match builtin {
        Builtin::Utf8String | Builtin::UniversalString => {
            Ok(Some(Value::Text(CowStr::Owned(text))))
        }
        Builtin::TimeOfDay => Ok(octets_value(time_digits(alloc, 6, text.as_str())?)),
        Builtin::DateTime => Ok(octets_value(time_digits(alloc, 14, text.as_str())?)),
        Builtin::Time | Builtin::Duration if is_time_text(text.as_str().as_bytes()) => {
            Ok(octets_value(Some(text.into_bytes())))
        }
        Builtin::NumericString
        | Builtin::PrintableString
        | Builtin::VisibleString
        | Builtin::Ia5String
            if text.is_ascii() => { Ok(Some(Value::Octets(CowSlice::Owned(text.into_bytes())))) }
        _ => Ok(None),
    }
}

/// Returns octets as a value, if there are some.
fn octets_value(octets: Option<Vec<u8>>) -> Option<Value<'static>> {
    octets.map(|octets| Value::Octets(CowSlice::Owned(octets)))
}

/// Returns a text without its quotation marks, of which two within it are one (X.680 12.14).
fn unquoted(alloc: Global, quoted: &str) -> Result<String, AllocError> {
    let opened = quoted.strip_prefix('"').unwrap_or(quoted);
    let inner = opened.strip_suffix('"').unwrap_or(opened);
    let mut text = String::new(alloc);
    let mut is_second = false;
    for character in inner.chars() {
        is_second = character == '"' && !is_second;
        if !is_second {
            text.push(character)?;
        }
    }
    Ok(text)
}
