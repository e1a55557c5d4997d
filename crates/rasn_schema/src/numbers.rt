//! Values that mean a list of numbers: octets, characters, units or arcs.
ghost use Rattle.std.specs.Prelude.{◌≡◌, ◌≢◌, [], ◌∷◌, MatchOption, chars};
ghost use Rattle.std.specs.Bool.{Decides};
ghost use Rattle.rasn_types.specs.Shapes.{numbers};
ghost use Rattle.rasn_schema.specs.Trees.{tree_of};
ghost use Rattle.rasn_schema.specs.Kinds.{kind};
ghost use Rattle.rasn_schema.specs.Numbers.{numbers_left};

use crate::value::Value;
use rasn_types::types::Units;

/// Numbers that are left to be compared.
#[derive(Drop)]
pub enum Numbers<'value> {
    /// Those of octets.
    Octets(&'value [u8]),
    /// Those of characters.
    Characters(&'value str),
    /// The units of a BMPString.
    Units(Units<'value>),
    /// The arcs of an OBJECT IDENTIFIER.
    Arcs(&'value [u32]),
}

/// Returns the first character of a text and what is after it.
fn next_character(text: &str) -> Option<(char, &str)>
    ensures { MatchOption result (chars text.now ≡ []) (λ r. chars text.now ≡ r.0 ∷ chars r.1.now) }
{
    let mut characters = text.chars();
    match characters.next() {
        Some(character) => Some((character, characters.as_str())),
        None => None,
    }
}

impl Numbers<'_> {
    /// Returns the next number, if one is left.
    fn next(&mut self) -> Option<u32>
        ensures { MatchOption result (numbers_left self.old ≡ []) (λ n. numbers_left self.old ≡ n ∷ numbers_left self.new) }
    {
        match self {
            Numbers::Octets(octets) => {
                let [octet, rest @ ..] = *octets else {
                    return None;
                };
                *octets = rest;
                Some(u32::from(*octet))
            }
            Numbers::Characters(text) => {
                let (character, rest) = next_character(text)?;
                *text = rest;
                Some(u32::from(character))
            }
            Numbers::Units(units) => match units.next() {
                Some(unit) => Some(u32::from(unit)),
                None => None,
            },
            Numbers::Arcs(arcs) => {
                let [arc, rest @ ..] = *arcs else {
                    return None;
                };
                *arcs = rest;
                Some(*arc)
            }
        }
    }
}

/// Returns the numbers that a value means, if it means such.
pub fn numbers_of<'value>(value: &'value Value<'_>) -> Option<Numbers<'value>>
    ensures { MatchOption result (kind (tree_of value.now) ≢ 2) (λ n. tree_of value.now ≡ numbers (numbers_left n)) }
{
    match value {
        Value::Octets(octets) => Some(Numbers::Octets(octets.as_slice())),
        Value::Text(text) => Some(Numbers::Characters(text.as_str())),
        Value::Units(units) => Some(Numbers::Units(units.units())),
        Value::Arcs(arcs) => Some(Numbers::Arcs(arcs.arcs())),
        _ => None,
    }
}

/// Returns whether the numbers are the same.
pub fn are_same_numbers(mut these: Numbers<'_>, mut others: Numbers<'_>) -> bool
    ensures { Decides result (numbers_left these.entry ≡ numbers_left others.entry) }
{
    loop {
        match (these.next(), others.next()) {
            (Some(number), Some(other)) if number == other => {}
            (None, None) => return true,
            _ => return false,
        }
    }
}
