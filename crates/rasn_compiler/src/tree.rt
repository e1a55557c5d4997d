//! What a module says, as it is written.
//!
//! Types are in a list of their module and name one another by [`TypeIndex`], so that no tree is
//! deeper than one level. Values, constraints and what is in braces are read further once their
//! type is known (X.680 17.7).
use crate::position::Position;
use std::collections::BTreeMap;

/// A part of a text that isn't read yet.
#[derive(Clone, Copy)]
pub struct Unread<'text> {
    /// The part, without the brackets around it.
    pub text: &'text str,
    /// Where it begins.
    pub position: Position,
}

/// A module (X.680 13).
#[derive(Drop)]
pub struct Module<'text> {
    /// The name of the text that it is in.
    pub source: &'text str,
    pub name: &'text str,
    /// The place of its name.
    pub position: Position,
    /// What is in braces after its name.
    pub identifier: Option<Unread<'text>>,
    /// What a tag without IMPLICIT or EXPLICIT is.
    pub tagging: Tagging,
    /// Whether EXTENSIBILITY IMPLIED is in its head.
    pub is_extensible: bool,
    /// What EXPORTS names, or None if it names all.
    pub exports: Option<Vec<Symbol<'text>>>,
    pub imports: Vec<Import<'text>>,
    /// The types in its assignments, also within other types.
    pub types: Vec<Type<'text>>,
    pub assignments: Vec<Assignment<'text>>,
    /// What each name means in the module.
    pub(crate) meanings: BTreeMap<String, Meaning>,
}

/// What a name of a module is: the index of an assignment or of what imports it.
#[derive(Clone, Copy)]
pub(crate) enum Meaning {
    Assigned(usize),
    Imported(usize),
}

/// The index of a type in its module's list.
#[derive(Clone, Copy, Debug, PartialEq, Eq)]
pub struct TypeIndex(pub usize);

/// How tags are meant that neither IMPLICIT nor EXPLICIT precedes (X.680 31.2.7).
#[derive(Clone, Copy, Debug, PartialEq, Eq)]
pub enum Tagging {
    Explicit,
    Implicit,
    /// AUTOMATIC TAGS: as [`Tagging::Implicit`], and components get tags (X.680 25.7, 29.2).
    Automatic,
}

/// A name in EXPORTS or IMPORTS (X.680 13.1).
#[derive(Clone, Copy)]
pub struct Symbol<'text> {
    pub name: &'text str,
    /// Where it begins.
    pub position: Position,
}

/// Names that another module gives (X.680 13.16).
#[derive(Drop)]
pub struct Import<'text> {
    pub symbols: Vec<Symbol<'text>>,
    pub module: &'text str,
}

/// A name and what it means (X.680 16).
#[derive(Clone, Copy)]
pub struct Assignment<'text> {
    pub name: &'text str,
    /// The place of its name.
    pub position: Position,
    /// The parameters of a parameterized assignment (X.683 8).
    pub parameters: Option<Unread<'text>>,
    pub assigned: Assigned<'text>,
}

/// What a name means.
#[derive(Clone, Copy)]
pub enum Assigned<'text> {
    Type(TypeIndex),
    /// A value, or an object of a class (X.681 11): its governor says which.
    Value {
        of: TypeIndex,
        value: Value<'text>,
    },
    /// A set of values, or of objects (X.681 12).
    Values {
        of: TypeIndex,
        members: Unread<'text>,
    },
    /// A class (X.681 9), as the index of its fields in the list of types.
    Class {
        fields: TypeIndex,
    },
    /// A macro of X.208, or what one was used for.
    Macro,
}

/// A type with its tags, the outermost first, and its constraints.
#[derive(Drop)]
pub struct Type<'text> {
    /// Where it begins.
    pub position: Position,
    pub tags: Vec<Tag<'text>>,
    pub base: Base<'text>,
    /// What is in parentheses after it (X.680 49).
    pub constraints: Vec<Unread<'text>>,
}

/// A tag (X.680 31.2).
#[derive(Clone, Copy)]
pub struct Tag<'text> {
    /// Where it begins.
    pub position: Position,
    pub class: TagClass,
    pub number: Value<'text>,
    /// Whether IMPLICIT or EXPLICIT follows it.
    pub tagging: Option<Tagging>,
}

/// The class of a tag (X.680 31.2.1).
#[derive(Clone, Copy, Debug, PartialEq, Eq)]
pub enum TagClass {
    Universal,
    Application,
    Context,
    Private,
}

/// A type without its tags and constraints (X.680 17).
#[derive(Drop)]
pub enum Base<'text> {
    Builtin(Builtin),
    /// INTEGER, with the names of numbers (X.680 19).
    Integer(Vec<NamedNumber<'text>>),
    /// BIT STRING, with the names of bits (X.680 22).
    BitString(Vec<NamedNumber<'text>>),
    /// ENUMERATED (X.680 20).
    Enumerated(Vec<NamedNumber<'text>>),
    Sequence(Vec<Component<'text>>),
    Set(Vec<Component<'text>>),
    /// CHOICE, whose alternatives are components that are required.
    Choice(Vec<Component<'text>>),
    SequenceOf(ListOf<'text>),
    SetOf(ListOf<'text>),
    /// ANY DEFINED BY the component of this name (X.208).
    AnyDefinedBy(&'text str),
    /// A type that has a name (X.680 16.3), of another module if that is named.
    Reference {
        module: Option<&'text str>,
        name: &'text str,
        /// What it is given for its parameters (X.683 9).
        actuals: Vec<Actual<'text>>,
    },
    /// A class (X.681 9), which isn't a type.
    Class(Class<'text>),
    /// `CLASS.&field` or `object.&Type`, or a field of such a field (X.681 14, 15).
    ClassField {
        /// The class or the object, as a reference.
        class: TypeIndex,
        path: Vec<&'text str>,
    },
    /// INSTANCE OF a class (X.681 C).
    InstanceOf(&'text str),
    /// `name < Type` (X.680 30).
    Selection {
        name: &'text str,
        of: TypeIndex,
    },
}

/// What is given for a parameter (X.683 9.5).
#[derive(Clone, Copy)]
pub struct Actual<'text> {
    /// Where it begins.
    pub position: Position,
    pub given: Given<'text>,
}

/// What a parameter can be (X.683 9.5).
#[derive(Clone, Copy)]
pub enum Given<'text> {
    /// A type, or a class or a set that a name or a notation of types means.
    Type(TypeIndex),
    /// A value or an object.
    Value(Value<'text>),
    /// What is in braces: a set of values or of objects.
    Members(Unread<'text>),
}

/// The fields of a class, and how its objects are written (X.681 9.3).
#[derive(Drop)]
pub struct Class<'text> {
    pub fields: Vec<Field<'text>>,
    /// Holds what WITH SYNTAX has in braces (X.681 10), or None if objects name their fields.
    pub syntax: Option<Unread<'text>>,
}

/// A field of a class (X.681 9.4).
#[derive(Clone, Copy)]
pub struct Field<'text> {
    /// Its name, with the `&`.
    pub name: &'text str,
    /// The type of its values, or the class of its objects. None if it is a type, or has the type
    /// that another field is.
    pub of: Option<TypeIndex>,
    /// Holds what follows DEFAULT, which an object has that doesn't name the field.
    pub default: Option<Unread<'text>>,
}

/// What SEQUENCE OF or SET OF says of its elements (X.680 26, 28).
#[derive(Clone, Copy)]
pub struct ListOf<'text> {
    /// A constraint that is before OF.
    pub size: Option<Unread<'text>>,
    pub name: Option<&'text str>,
    pub element: TypeIndex,
}

/// A type that reserved words name.
#[derive(Clone, Copy, Debug, PartialEq, Eq)]
pub enum Builtin {
    Any,
    BmpString,
    Boolean,
    CharacterString,
    Date,
    DateTime,
    Duration,
    EmbeddedPdv,
    External,
    GeneralString,
    GeneralizedTime,
    GraphicString,
    Ia5String,
    Null,
    NumericString,
    ObjectDescriptor,
    ObjectIdentifier,
    ObjectIdentifierIri,
    OctetString,
    PrintableString,
    Real,
    RelativeObjectIdentifier,
    RelativeObjectIdentifierIri,
    /// TeletexString or T61String.
    TeletexString,
    Time,
    TimeOfDay,
    UniversalString,
    Utf8String,
    UtcTime,
    VideotexString,
    /// VisibleString or ISO646String.
    VisibleString,
}

/// A name of a number, of a bit or of an ENUMERATED, or the marker `...` between those.
#[derive(Clone, Copy)]
pub struct NamedNumber<'text> {
    /// Where it begins.
    pub position: Position,
    /// Its name, or None if it is the marker.
    pub name: Option<&'text str>,
    pub number: Option<Value<'text>>,
}

/// What is between the commas of SEQUENCE, SET or CHOICE (X.680 25, 27, 29). Version brackets
/// aren't kept.
#[derive(Clone, Copy)]
pub enum Component<'text> {
    Named {
        /// The place of its name.
        position: Position,
        name: &'text str,
        of: TypeIndex,
        presence: Presence<'text>,
    },
    /// COMPONENTS OF (X.680 25.5).
    Of(TypeIndex),
    /// The marker `...`, and its place.
    Marker(Position),
}

/// Whether a component may be absent (X.680 25).
#[derive(Clone, Copy)]
pub enum Presence<'text> {
    Required,
    Optional,
    /// DEFAULT, with the place of the value.
    Default(Value<'text>, Position),
}

/// A value (X.680 17.7).
#[derive(Clone, Copy)]
pub enum Value<'text> {
    Boolean(bool),
    Null,
    Number {
        is_negative: bool,
        digits: &'text str,
    },
    /// PLUS-INFINITY, MINUS-INFINITY or NOT-A-NUMBER (X.680 21).
    Special(&'text str),
    /// A string, with its quotation marks.
    Text(&'text str),
    /// Bits or hexadecimal digits, with their apostrophes and letter.
    Digits(&'text str),
    /// A value that has a name, of another module if that is named.
    Name {
        module: Option<&'text str>,
        name: &'text str,
    },
    /// A field of an object (X.681 15), `object.&field`, in which other fields may be between.
    Field(Unread<'text>),
    /// Any other: what is in braces, `name : value`, `Type : value`.
    Unread(Unread<'text>),
}
