//! What is wrong with types that aren't a schema.
ghost use Rattle.std.specs.Fmt.{WritesOnOk};
ghost use Rattle.rasn_schema.specs.Shown.{about, with_index, with_indices};

use crate::type_id::TypeId;
use std::error::Error;
use std::fmt;

/// The rule that a type breaks. Components and alternatives are counted from 0.
#[derive(Clone, Copy, Debug, PartialEq, Eq)]
pub enum SchemaError {
    /// The tag is universal 0, which is reserved for end-of-contents octets (X.690 8.1.5).
    ReservedTag {
        id: TypeId,
    },
    /// A string or a time has the tag of a type that is always constructed.
    ConstructedTag {
        id: TypeId,
    },
    /// A type with an explicit tag refers to another one whose number isn't lower, so that tags
    /// could follow one another without end.
    LateInner {
        id: TypeId,
    },
    /// Two numbers of an ENUMERATED are the same (X.680 20.3).
    NumbersClash {
        id: TypeId,
        index: usize,
        other: usize,
    },
    /// An ENUMERATED has no numbers (X.680 20.1).
    NoNumbers {
        id: TypeId,
    },
    /// A CHOICE has no alternatives (X.680 29.1).
    NoAlternatives {
        id: TypeId,
    },
    /// An alternative's number isn't below that of its CHOICE.
    LateAlternative {
        id: TypeId,
        index: usize,
    },
    /// An alternative may begin with any tag, and isn't an open type at the end of the CHOICE,
    /// after others (X.680 29.3).
    UntaggedAlternative {
        id: TypeId,
        index: usize,
    },
    /// Two alternatives may begin with the same tag (X.680 29.3).
    AlternativesClash {
        id: TypeId,
        index: usize,
        other: usize,
    },
    /// A component of a SEQUENCE may be absent, and one that may follow it then may begin with the
    /// same tag (X.680 25.6).
    ComponentsClash {
        id: TypeId,
        index: usize,
        other: usize,
    },
    /// A component of a SEQUENCE has no tag of its own, may be absent, and another one follows it
    /// (X.680 25.6).
    UntaggedComponent {
        id: TypeId,
        index: usize,
    },
    /// A component of a SET is an extension addition.
    AdditionInSet {
        id: TypeId,
        index: usize,
    },
    /// A component of a SET may begin with any tag, and isn't unknown values (X.680 27.3).
    UntaggedInSet {
        id: TypeId,
        index: usize,
    },
    /// Two components of a SET may begin with the same tag (X.680 27.3).
    SetClash {
        id: TypeId,
        index: usize,
        other: usize,
    },
    /// A part is unknown values, which only the last component of a SEQUENCE or a SET may be, where
    /// it is required (X.680 25, 27).
    MisplacedUnknown {
        id: TypeId,
        index: usize,
    },
    /// The default of a component isn't a value of the component's type (X.680 25).
    UnfitDefault {
        id: TypeId,
        index: usize,
    },
}

/// Writes the number of the type, and the rule that it breaks.
impl fmt::Display for SchemaError {
    ghost use Rattle.std.specs.Prelude.{Some};
    ghost use Rattle.rasn_schema.specs.Shown.{shown_fault};

    ghost output = { λ e. Some (shown_fault e) };

    fn fmt<W: fmt::Write>(&self, f: &mut fmt::Formatter<W>) -> fmt::Result {
        match *self {
            SchemaError::ReservedTag { id } => {
                write_about(
                    f,
                    id,
                    "its tag is universal 0, which is reserved (X.690 8.1.5)",
                )
            }
            SchemaError::ConstructedTag { id } => {
                write_about(
                    f,
                    id,
                    "a string or a time has the tag of a SEQUENCE or a SET",
                )
            }
            SchemaError::LateInner { id } => {
                let text = "its inner type has an explicit tag too, and its number isn't lower";
                write_about(f, id, text)
            }
            SchemaError::NumbersClash { id, index, other } => {
                let back = " of an ENUMERATED are the same (X.680 20.3)";
                write_both(f, id, "numbers ", index, " and ", other, back)
            }
            SchemaError::NoNumbers { id } => {
                write_about(f, id, "an ENUMERATED without numbers (X.680 20.1)")
            }
            SchemaError::NoAlternatives { id } => {
                write_about(f, id, "a CHOICE without alternatives (X.680 29.1)")
            }
            SchemaError::LateAlternative { id, index } => {
                let back = " isn't below that of the CHOICE";
                write_one(f, id, "the number of alternative ", index, back)
            }
            SchemaError::UntaggedAlternative { id, index } => {
                let back = " may begin with any tag (X.680 29.3)";
                write_one(f, id, "alternative ", index, back)
            }
            SchemaError::AlternativesClash { id, index, other } => {
                let back = " may begin with the same tag (X.680 29.3)";
                write_both(f, id, "alternatives ", index, " and ", other, back)
            }
            SchemaError::ComponentsClash { id, index, other } => {
                let between = " may be absent, and component ";
                let back = " may begin with the same tag (X.680 25.6)";
                write_both(f, id, "component ", index, between, other, back)
            }
            SchemaError::UntaggedComponent { id, index } => {
                let back = " may be absent, has no tag of its own and isn't the last (X.680 25.6)";
                write_one(f, id, "component ", index, back)
            }
            SchemaError::AdditionInSet { id, index } => {
                write_one(
                    f,
                    id,
                    "component ",
                    index,
                    " of a SET is an extension addition",
                )
            }
            SchemaError::UntaggedInSet { id, index } => {
                let back = " of a SET may begin with any tag (X.680 27.3)";
                write_one(f, id, "component ", index, back)
            }
            SchemaError::SetClash { id, index, other } => {
                let back = " of a SET may begin with the same tag (X.680 27.3)";
                write_both(f, id, "components ", index, " and ", other, back)
            }
            SchemaError::MisplacedUnknown { id, index } => {
                let back =
                    " is unknown values, and not the last, required component of a SEQUENCE or a SET (X.680 25, 27)";
                write_one(f, id, "part ", index, back)
            }
            SchemaError::UnfitDefault { id, index } => {
                let back = " isn't a value of its type (X.680 25)";
                write_one(f, id, "the default of component ", index, back)
            }
        }
    }
}

impl Error for SchemaError {}

/// Writes a text about a type.
fn write_about<W: fmt::Write>(f: &mut fmt::Formatter<W>, id: TypeId, what: &str) -> fmt::Result
    ensures { WritesOnOk W.write_str_gives f.old result (about id what.now) f.new }
{
    write!(f, "type {id}: {what}")
}

/// Writes a text about a type, with the index of a part.
fn write_one<W: fmt::Write>(
    f: &mut fmt::Formatter<W>,
    id: TypeId,
    front: &str,
    index: usize,
    back: &str,
) -> fmt::Result
    ensures { WritesOnOk W.write_str_gives f.old result (about id (with_index front.now index back.now)) f.new }
{
    write!(f, "type {id}: {front}{index}{back}")
}

/// Writes a text about a type, with the indices of two parts.
fn write_both<W: fmt::Write>(
    f: &mut fmt::Formatter<W>,
    id: TypeId,
    front: &str,
    index: usize,
    between: &str,
    other: usize,
    back: &str,
) -> fmt::Result
    ensures { WritesOnOk W.write_str_gives f.old result (about id (with_indices front.now index between.now other back.now)) f.new }
{
    write!(f, "type {id}: {front}{index}{between}{other}{back}")
}
