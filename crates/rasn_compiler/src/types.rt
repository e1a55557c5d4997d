//! Types (X.680 17).
use crate::fault::{Halt, Problem};
use crate::parser::Parser;
use crate::position::Position;
use crate::token::Kind;
use crate::tree::{
    Actual, Base, Builtin, Component, Given, ListOf, NamedNumber, Tag, Type, TypeIndex, Unread,
    Value,
};
use crate::words::MARKER;

impl<'tokens, 'text> Parser<'tokens, 'text> {
    /// Reads a type in which others may be nested so deep.
    #[cycle(types)]
    pub(crate) fn read_type(&mut self, depth: usize) -> Result<TypeIndex, Halt<'text>> {
        let depth = self.deeper(depth)?;
        let position = self.position();
        let tags = self.tags()?;
        let base = self.base(depth)?;
        self.add_type(position, tags, base)
    }

    /// Reads what follows the tags.
    #[cycle(types)]
    fn base(&mut self, depth: usize) -> Result<Base<'text>, Halt<'text>> {
        match self.made_of() {
            Made::Components(within) => Ok(within.base(self.components(depth)?)),
            Made::Elements { is_set } => {
                let list = self.element(depth)?;
                Ok(if is_set {
                    Base::SetOf(list)
                } else {
                    Base::SequenceOf(list)
                })
            }
            Made::Selected(name) => {
                let of = self.read_type(depth)?;
                Ok(Base::Selection { name, of })
            }
            Made::Reference => self.reference(depth),
            Made::Simple => self.simple_type(),
        }
    }

    /// Reads the name of a type with what it is given, or a class's field (X.680 16.3, X.681 14,
    /// X.683 9).
    #[cycle(types)]
    fn reference(&mut self, depth: usize) -> Result<Base<'text>, Halt<'text>> {
        let position = self.position();
        let (module, name) = self.reference_name();
        if self.is(".") && self.peek_after(1) == Kind::Field {
            return self.class_field(position, module, name);
        }
        let actuals = self.actuals(depth)?;
        Ok(Base::Reference {
            module,
            name,
            actuals,
        })
    }

    /// Reads what is given for parameters, in braces, if a brace is next (X.683 9.5).
    #[cycle(types)]
    fn actuals(&mut self, depth: usize) -> Result<Vec<Actual<'text>>, Halt<'text>> {
        let mut actuals = Vec::new(self.alloc);
        if !self.eat("{") {
            return Ok(actuals);
        }
        for _ in 0..self.rest.len() {
            actuals.push(self.actual(depth)?)?;
            if !self.eat(",") {
                break;
            }
        }
        self.expect("}")?;
        Ok(actuals)
    }

    /// Reads what is given for a parameter.
    #[cycle(types)]
    fn actual(&mut self, depth: usize) -> Result<Actual<'text>, Halt<'text>> {
        let position = self.position();
        let given = if self.begins_type() {
            Given::Type(self.read_type(depth)?)
        } else {
            self.given_value()?
        };
        Ok(Actual { position, given })
    }

    /// Reads the elements of SEQUENCE OF or SET OF, whose size may be before OF (X.680 26, 28).
    #[cycle(types)]
    fn element(&mut self, depth: usize) -> Result<ListOf<'text>, Halt<'text>> {
        let (size, name) = self.element_start()?;
        let element = self.read_type(depth)?;
        Ok(ListOf {
            size,
            name,
            element,
        })
    }
}

/// What a type is made of, as the words that it begins with say.
#[derive(Clone, Copy)]
enum Made<'text> {
    Components(Within),
    Elements { is_set: bool },
    /// The alternative of this name (X.680 30).
    Selected(&'text str),
    Reference,
    /// No other types.
    Simple,
}

/// What a list of components or alternatives is that of.
#[derive(Clone, Copy, PartialEq, Eq)]
pub(crate) enum Within {
    Sequence,
    Set,
    Choice,
}

impl Within {
    /// Returns the type that a list is that of.
    fn base<'text>(self, list: Vec<Component<'text>>) -> Base<'text> {
        match self {
            Within::Sequence => Base::Sequence(list),
            Within::Set => Base::Set(list),
            Within::Choice => Base::Choice(list),
        }
    }
}

impl<'tokens, 'text> Parser<'tokens, 'text> {
    /// Takes the words that a type begins with, if it is made of others and isn't a reference.
    fn made_of(&mut self) -> Made<'text> {
        if self.eat("SEQUENCE") {
            return self.listed(Within::Sequence);
        }
        if self.eat("SET") {
            return self.listed(Within::Set);
        }
        if self.eat("CHOICE") {
            return Made::Components(Within::Choice);
        }
        match self.peek() {
            Kind::Lower if self.is_after(1, "<") => {
                let name = self.take();
                self.skip(1);
                Made::Selected(name)
            }
            Kind::Upper => Made::Reference,
            Kind::Lower
            | Kind::Field
            | Kind::Number
            | Kind::Text
            | Kind::Digits
            | Kind::Fixed
            | Kind::Blank
            | Kind::Unfinished
            | Kind::Unknown
            | Kind::End => Made::Simple,
        }
    }

    /// Returns what a SEQUENCE or a SET is made of: components, in braces, or elements.
    fn listed(&self, within: Within) -> Made<'text> {
        if self.is("{") {
            Made::Components(within)
        } else {
            Made::Elements {
                is_set: within == Within::Set,
            }
        }
    }

    /// Reads the constraints of a type and adds it.
    fn add_type(
        &mut self,
        position: Position,
        tags: Vec<Tag<'text>>,
        base: Base<'text>,
    ) -> Result<TypeIndex, Halt<'text>> {
        let constraints = self.constraints()?;
        let index = TypeIndex(self.types.len());
        self.types.push(Type {
            position,
            tags,
            base,
            constraints,
        })?;
        Ok(index)
    }

    /// Reads what is given for a parameter and isn't a type.
    fn given_value(&mut self) -> Result<Given<'text>, Halt<'text>> {
        if self.is("{") {
            Ok(Given::Members(self.balanced()?))
        } else {
            Ok(Given::Value(self.value()?))
        }
    }

    /// Takes a size, OF and the name of an element.
    fn element_start(
        &mut self,
    ) -> Result<(Option<Unread<'text>>, Option<&'text str>), Halt<'text>> {
        let size = self.size()?;
        if !self.eat("OF") {
            return Err(self.refuse("{ or OF"));
        }
        Ok((size, self.element_name()))
    }

    /// Takes a size before OF, in parentheses or not.
    fn size(&mut self) -> Result<Option<Unread<'text>>, Halt<'text>> {
        if self.is("(") {
            return Ok(Some(self.balanced()?));
        }
        if self.is("SIZE") && self.is_after(1, "(") {
            let start = self.rest;
            self.skip(1);
            self.balanced()?;
            return Ok(Some(self.since(start)));
        }
        Ok(None)
    }

    /// Takes the name of an element (X.680 26.1).
    fn element_name(&mut self) -> Option<&'text str> {
        if self.peek() == Kind::Lower && !self.is_after(1, "<") && !self.is_after(1, ".") {
            Some(self.take())
        } else {
            None
        }
    }

    /// Reads a type that holds no other.
    fn simple_type(&mut self) -> Result<Base<'text>, Halt<'text>> {
        match self.peek() {
            Kind::Lower if self.is_after(1, ".") => {
                let position = self.position();
                let object = self.take();
                self.class_field(position, None, object)
            }
            Kind::Fixed => self.worded_type(),
            Kind::Upper
            | Kind::Lower
            | Kind::Field
            | Kind::Number
            | Kind::Text
            | Kind::Digits
            | Kind::Blank
            | Kind::Unfinished
            | Kind::Unknown
            | Kind::End => Err(self.refuse("a type")),
        }
    }

    /// Reads a type that a reserved word begins.
    fn worded_type(&mut self) -> Result<Base<'text>, Halt<'text>> {
        let word = self.text();
        if let Some(builtin) = builtin(word) {
            self.skip(1);
            return Ok(Base::Builtin(builtin));
        }
        match word {
            "INTEGER" | "ENUMERATED" | "BIT" => self.type_with_names(word),
            "OCTET" => self.pair("STRING", Builtin::OctetString),
            "OBJECT" => self.pair("IDENTIFIER", Builtin::ObjectIdentifier),
            "EMBEDDED" => self.pair("PDV", Builtin::EmbeddedPdv),
            "CHARACTER" => self.pair("STRING", Builtin::CharacterString),
            "ANY" => self.any(),
            "INSTANCE" => self.instance_of(),
            _ => Err(self.refuse("a type")),
        }
    }

    /// Reads an INTEGER, an ENUMERATED or a BIT STRING, whose first word this is.
    fn type_with_names(&mut self, word: &str) -> Result<Base<'text>, Halt<'text>> {
        self.skip(1);
        if word == "BIT" {
            self.expect("STRING")?;
        }
        let names = self.named_numbers()?;
        if word == "BIT" {
            self.check_bits(names.as_slice())?;
        }
        Ok(match word {
            "INTEGER" => Base::Integer(names),
            "ENUMERATED" => Base::Enumerated(names),
            _ => Base::BitString(names),
        })
    }

    /// Refuses the number of a bit that is below 0 (X.680 22.4).
    fn check_bits(&self, names: &[NamedNumber<'text>]) -> Result<(), Halt<'text>> {
        for named in names {
            if let Some(
                Value::Number {
                    is_negative: true,
                    ..
                },
            ) = named.number
            {
                let rule = "the number of a bit is below 0 (X.680 22.4)";
                return Err(self.refuse_at(named.position, Problem::Broken(rule)));
            }
        }
        Ok(())
    }

    /// Reads INSTANCE OF (X.681 C).
    fn instance_of(&mut self) -> Result<Base<'text>, Halt<'text>> {
        self.skip(1);
        self.expect("OF")?;
        Ok(Base::InstanceOf(self.expect_kind(Kind::Upper, "a class")?))
    }

    /// Reads a type of two words.
    fn pair(&mut self, second: &'static str, builtin: Builtin) -> Result<Base<'text>, Halt<'text>> {
        self.skip(1);
        self.expect(second)?;
        Ok(Base::Builtin(builtin))
    }

    /// Reads ANY or ANY DEFINED BY (X.208).
    fn any(&mut self) -> Result<Base<'text>, Halt<'text>> {
        self.skip(1);
        if !self.eat("DEFINED") {
            return Ok(Base::Builtin(Builtin::Any));
        }
        self.expect("BY")?;
        Ok(Base::AnyDefinedBy(self.expect_kind(Kind::Lower, "a component's name")?))
    }

    /// Reads names with numbers, if a brace is next (X.680 19.1, 20.1, 22.1).
    fn named_numbers(&mut self) -> Result<Vec<NamedNumber<'text>>, Halt<'text>> {
        let mut numbers = Vec::new(self.alloc);
        if !self.eat("{") {
            return Ok(numbers);
        }
        for _ in 0..self.rest.len() {
            numbers.push(self.named_number()?)?;
            if self.eat("}") {
                return Ok(numbers);
            }
            if !self.eat(",") {
                break;
            }
        }
        Err(self.refuse(", or }"))
    }

    /// Reads a name with a number, or the marker.
    fn named_number(&mut self) -> Result<NamedNumber<'text>, Halt<'text>> {
        let position = self.position();
        if self.eat(MARKER) {
            self.exception()?;
            return Ok(NamedNumber {
                position,
                name: None,
                number: None,
            });
        }
        let name = Some(self.expect_kind(Kind::Lower, "a name")?);
        let number = self.number_of_name()?;
        Ok(NamedNumber {
            position,
            name,
            number,
        })
    }

    /// Reads a number in parentheses, if one is next.
    fn number_of_name(&mut self) -> Result<Option<Value<'text>>, Halt<'text>> {
        if !self.eat("(") {
            return Ok(None);
        }
        let number = self.value()?;
        self.expect(")")?;
        Ok(Some(number))
    }
}

/// The types that one word names.
pub(crate) const BUILTINS: [(&str, Builtin); 28] = [
    ("BMPString", Builtin::BmpString),
    ("BOOLEAN", Builtin::Boolean),
    ("DATE", Builtin::Date),
    ("DATE-TIME", Builtin::DateTime),
    ("DURATION", Builtin::Duration),
    ("EXTERNAL", Builtin::External),
    ("GeneralString", Builtin::GeneralString),
    ("GeneralizedTime", Builtin::GeneralizedTime),
    ("GraphicString", Builtin::GraphicString),
    ("IA5String", Builtin::Ia5String),
    ("NULL", Builtin::Null),
    ("NumericString", Builtin::NumericString),
    ("ObjectDescriptor", Builtin::ObjectDescriptor),
    ("OID-IRI", Builtin::ObjectIdentifierIri),
    ("PrintableString", Builtin::PrintableString),
    ("REAL", Builtin::Real),
    ("RELATIVE-OID", Builtin::RelativeObjectIdentifier),
    ("RELATIVE-OID-IRI", Builtin::RelativeObjectIdentifierIri),
    ("T61String", Builtin::TeletexString),
    ("TeletexString", Builtin::TeletexString),
    ("TIME", Builtin::Time),
    ("TIME-OF-DAY", Builtin::TimeOfDay),
    ("UTCTime", Builtin::UtcTime),
    ("UTF8String", Builtin::Utf8String),
    ("UniversalString", Builtin::UniversalString),
    ("VideotexString", Builtin::VideotexString),
    ("VisibleString", Builtin::VisibleString),
    ("ISO646String", Builtin::VisibleString),
];

/// The words that other types begin with.
pub(crate) const OTHER_TYPES: [&str; 10] = [
    "BIT STRING",
    "CHARACTER STRING",
    "CHOICE",
    "EMBEDDED PDV",
    "ENUMERATED",
    "INTEGER",
    "OBJECT IDENTIFIER",
    "OCTET STRING",
    "SEQUENCE",
    "SET",
];

/// Returns the type that the word names alone.
fn builtin(word: &str) -> Option<Builtin> {
    for (name, builtin) in &BUILTINS {
        if *name == word {
            return Some(*builtin);
        }
    }
    None
}
