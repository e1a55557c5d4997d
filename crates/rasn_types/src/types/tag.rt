//! Tags (X.680 8).
ghost use Rattle.std.specs.Prelude.{◌≡◌};

use std::fmt;

/// The class of a tag (X.680 8.1), in the order that tags are sorted by (8.6).
#[derive(Clone, Copy, Debug, PartialEq, Eq, PartialOrd, Ord, Hash)]
pub enum Class {
    /// Types of X.680.
    Universal,
    /// `[APPLICATION n]`.
    Application,
    /// `[n]`.
    Context,
    /// `[PRIVATE n]`.
    Private,
}

/// A tag, ordered by its class and then by its number (X.680 8.6).
#[derive(Clone, Copy, Debug, PartialEq, Eq, PartialOrd, Ord, Hash)]
pub struct Tag {
    /// The class.
    pub class: Class,
    /// The number within the class.
    pub value: u32,
}

impl Tag {
    /// The tag of end-of-contents octets (X.690 8.1.5), which no value has.
    pub const EOC: Tag = Tag {
        class: Class::Universal,
        value: 0,
    };

    /// The tag of BOOLEAN (X.690 8.2).
    pub const BOOL: Tag = Tag {
        class: Class::Universal,
        value: 1,
    };

    /// The tag of INTEGER (X.690 8.3).
    pub const INTEGER: Tag = Tag {
        class: Class::Universal,
        value: 2,
    };

    /// The tag of BIT STRING (X.690 8.6).
    pub const BIT_STRING: Tag = Tag {
        class: Class::Universal,
        value: 3,
    };

    /// The tag of OCTET STRING (X.690 8.7).
    pub const OCTET_STRING: Tag = Tag {
        class: Class::Universal,
        value: 4,
    };

    /// The tag of NULL (X.690 8.8).
    pub const NULL: Tag = Tag {
        class: Class::Universal,
        value: 5,
    };

    /// The tag of OBJECT IDENTIFIER (X.690 8.19).
    pub const OBJECT_IDENTIFIER: Tag = Tag {
        class: Class::Universal,
        value: 6,
    };

    /// The tag of EXTERNAL (X.690 8.18). No call reads or writes it.
    pub const EXTERNAL: Tag = Tag {
        class: Class::Universal,
        value: 8,
    };

    /// The tag of ENUMERATED (X.690 8.4).
    pub const ENUMERATED: Tag = Tag {
        class: Class::Universal,
        value: 10,
    };

    /// The tag of UTF8String (X.690 8.23).
    pub const UTF8_STRING: Tag = Tag {
        class: Class::Universal,
        value: 12,
    };

    /// The tag of SEQUENCE and SEQUENCE OF (X.690 8.9, 8.10).
    pub const SEQUENCE: Tag = Tag {
        class: Class::Universal,
        value: 16,
    };

    /// The tag of SET and SET OF (X.690 8.11, 8.12).
    pub const SET: Tag = Tag {
        class: Class::Universal,
        value: 17,
    };

    /// The tag of NumericString (X.690 8.23).
    pub const NUMERIC_STRING: Tag = Tag {
        class: Class::Universal,
        value: 18,
    };

    /// The tag of PrintableString (X.690 8.23).
    pub const PRINTABLE_STRING: Tag = Tag {
        class: Class::Universal,
        value: 19,
    };

    /// The tag of TeletexString (X.690 8.23).
    pub const TELETEX_STRING: Tag = Tag {
        class: Class::Universal,
        value: 20,
    };

    /// The tag of IA5String (X.690 8.23).
    pub const IA5_STRING: Tag = Tag {
        class: Class::Universal,
        value: 22,
    };

    /// The tag of UTCTime (X.690 8.25).
    pub const UTC_TIME: Tag = Tag {
        class: Class::Universal,
        value: 23,
    };

    /// The tag of GeneralizedTime (X.690 8.25).
    pub const GENERALIZED_TIME: Tag = Tag {
        class: Class::Universal,
        value: 24,
    };

    /// The tag of GraphicString (X.690 8.23).
    pub const GRAPHIC_STRING: Tag = Tag {
        class: Class::Universal,
        value: 25,
    };

    /// The tag of VisibleString (X.690 8.23).
    pub const VISIBLE_STRING: Tag = Tag {
        class: Class::Universal,
        value: 26,
    };

    /// The tag of GeneralString (X.690 8.23).
    pub const GENERAL_STRING: Tag = Tag {
        class: Class::Universal,
        value: 27,
    };

    /// The tag of BMPString (X.690 8.23).
    pub const BMP_STRING: Tag = Tag {
        class: Class::Universal,
        value: 30,
    };

    /// The tag of DATE (X.690 8.26).
    pub const DATE: Tag = Tag {
        class: Class::Universal,
        value: 31,
    };

    /// Returns the tag with this class and number.
    pub const fn new(class: Class, value: u32) -> Tag
        ensures { result ≡ record { class = class; value = value } }
    {
        Tag { class, value }
    }

    /// Returns the tag with this class and another number.
    pub const fn set_value(self, value: u32) -> Tag
        ensures { result ≡ record { class = self.class; value = value } }
    {
        Tag {
            class: self.class,
            value,
        }
    }
}

/// Writes the number in brackets for a context-specific tag, as in `[2]`, and otherwise the class
/// and the number, as in `universal 16`.
impl fmt::Display for Tag {
    ghost use Rattle.std.specs.Prelude.{Some};
    ghost use Rattle.rasn_types.specs.Text.{shown_tag};

    ghost output = { λ tag. Some (shown_tag tag) };

    fn fmt<W: fmt::Write>(&self, f: &mut fmt::Formatter<W>) -> fmt::Result {
        let value = self.value;
        match self.class {
            Class::Universal => write!(f, "universal {value}"),
            Class::Application => write!(f, "application {value}"),
            Class::Context => write!(f, "[{value}]"),
            Class::Private => write!(f, "private {value}"),
        }
    }
}
