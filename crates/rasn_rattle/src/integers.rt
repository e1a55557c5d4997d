//! The types of numbers.
ghost use Rattle.std.specs.Prelude.{◌≤ℤ◌, IfSome};

use rasn_types::types::{Bound, Bounded, Constraints};

/// A type of numbers.
#[derive(Clone, Copy)]
struct Word {
    name: &'static str,
    least: i128,
    greatest: i128,
}

/// The types of numbers, smaller ones first.
const WORDS: &[Word] = &[
    Word {
        name: "u8",
        least: 0,
        greatest: 255,
    },
    Word {
        name: "u16",
        least: 0,
        greatest: 65535,
    },
    Word {
        name: "u32",
        least: 0,
        greatest: 4294967295,
    },
    Word {
        name: "u64",
        least: 0,
        greatest: 18446744073709551615,
    },
    Word {
        name: "i8",
        least: -128,
        greatest: 127,
    },
    Word {
        name: "i16",
        least: -32768,
        greatest: 32767,
    },
    Word {
        name: "i32",
        least: -2147483648,
        greatest: 2147483647,
    },
    Word {
        name: "i64",
        least: -9223372036854775808,
        greatest: 9223372036854775807,
    },
];

/// Returns the type of the numbers that the constraints of an INTEGER admit (X.680 51.4), and
/// whether it holds no others.
pub(crate) fn integer_word(constraints: &Constraints) -> (&'static str, bool) {
    let Some(
        Bound {
            constraint: Bounded::Range {
                start: Some(low),
                end: Some(high),
            },
            extensible: false,
        },
    ) = constraints.value
    else {
        return ("Integer", false);
    };
    match word_of(low, high) {
        Some(word) => (word.name, word.least == low && word.greatest == high),
        None => ("Integer", false),
    }
}

/// Returns the smallest type that has all numbers from `low` to `high`, if there is one.
fn word_of(low: i128, high: i128) -> Option<Word>
    ensures { IfSome result (λ word. (word.least ≤ℤ low) × (high ≤ℤ word.greatest)) }
{
    for word in WORDS {
        if word.least <= low && high <= word.greatest {
            return Some(*word);
        }
    }
    None
}
