//! Tags and constraints in a constant: macros, since the value of a constant can't call functions.

/// A tag by its class and its number: `tag!(Context, 3)`.
#[macro_export]
macro_rules! tag {
    ($class:ident, $number:literal) => {
        $crate::constants::prelude::Tag {
            class: $crate::constants::prelude::Class::$class,
            value: $number,
        }
    };
}

/// A constraint on numbers: `value!(0..=127)`, `value!(0..)` or, if it is extensible and so isn't
/// checked, `value!(0.., extensible)`.
#[macro_export]
macro_rules! value {
    ($($range:tt)+) => {
        $crate::constants::prelude::Constraints {
            value: Some($crate::bound!($($range)+)),
            size: None,
        }
    };
}

/// A constraint on sizes, with a range as in [`value`]: `size!(1..)`.
#[macro_export]
macro_rules! size {
    ($($range:tt)+) => {
        $crate::constants::prelude::Constraints {
            value: None,
            size: Some($crate::bound!($($range)+)),
        }
    };
}

/// A range of a constraint: a part of [`value`] and [`size`], not called by itself.
#[macro_export]
macro_rules! bound {
    ($($start:literal)? .. $(, $word:ident)?) => {
        $crate::bound!($($start)? ..= $(, $word)?)
    };
    ($($start:literal)? ..= $($end:literal)? $(, $word:ident)?) => {
        $crate::constants::prelude::Bound {
            constraint: $crate::constants::prelude::Bounded::Range {
                start: $crate::end!($($start)?),
                end: $crate::end!($($end)?),
            },
            extensible: $crate::is_extensible!($($word)?),
        }
    };
}

/// An end of a range, which is open if there is none: a part of [`value`] and [`size`].
#[macro_export]
macro_rules! end {
    () => { None };
    ($end:literal) => { Some($end) };
}

/// Whether a constraint is extensible: a part of [`value`] and [`size`].
#[macro_export]
macro_rules! is_extensible {
    () => { false };
    (extensible) => { true };
}
