//! Constraints that a schema checks: a single range of values or of sizes (X.680 51.4, 51.5).
use crate::fault::Halt;
use crate::lexer::tokens;
use crate::parser::Parser;
use crate::position::Position;
use crate::resolver::node::{Place, Unfolded};
use crate::resolver::shape::Resolver;
use crate::tree::{NamedNumber, Unread, Value};
use crate::words::MARKER;
use rasn_types::types::{Bound, Bounded, Constraints};

/// A range, open at an end that is None.
#[derive(Clone, Copy)]
struct Range {
    low: Option<i128>,
    high: Option<i128>,
    is_extensible: bool,
}

impl Range {
    /// Returns what is in this range and in one that was known before, which counts without its
    /// marker (X.680 50.8). An extensible one checks nothing.
    fn within(self, known: Option<Range>) -> Range {
        let Some(known) = known else {
            return self;
        };
        let (low, high) = if self.is_extensible {
            (known.low, known.high)
        } else {
            (greater(self.low, known.low), lesser(self.high, known.high))
        };
        Range {
            low,
            high,
            is_extensible: false,
        }
    }

    /// Returns the rule that the range breaks.
    fn broken(self, is_size: bool) -> Option<&'static str> {
        if is_size && self.low.unwrap_or(0) < 0 {
            return Some("a size below 0 (X.680 51.5)");
        }
        match (self.low, self.high) {
            (Some(low), Some(high)) if low > high => {
                Some("a range whose end is before its start (X.680 51.4)")
            }
            _ => None,
        }
    }

    /// Returns the range if nothing follows it but the parenthesis that closes SIZE, or the marker.
    fn ended(self, parser: &mut Parser<'_, '_>, is_size: bool) -> Option<Range> {
        let is_marked = eat_marker(parser);
        if is_size && !parser.eat(")") && !is_marked {
            return None;
        }
        let is_extensible = is_marked || (is_size && eat_marker(parser));
        if !parser.rest.is_empty() && !is_extensible {
            return None;
        }
        Some(Range {
            low: self.low,
            high: self.high,
            is_extensible,
        })
    }
}

/// Takes SIZE and a parenthesis, and returns whether they were there.
fn eat_size(parser: &mut Parser<'_, '_>) -> bool {
    parser.eat("SIZE") && parser.eat("(")
}

/// Takes the marker that a comma precedes, and returns whether it was there.
fn eat_marker(parser: &mut Parser<'_, '_>) -> bool {
    parser.eat(",") && parser.eat(MARKER)
}

impl<'modules, 'text> Resolver<'modules, 'text> {
    /// Returns the bounds of an INTEGER's values.
    pub(crate) fn value_bounds(
        &mut self,
        unfolded: &Unfolded<'text>,
        names: &[NamedNumber<'text>],
    ) -> Result<Constraints, Halt<'text>> {
        let mut range = None;
        for (place, constraint) in unfolded.constraints.iter().rev() {
            match self.constraint(*place, *constraint, names, unfolded.place, false)? {
                Some(found) => range = Some(found.within(range)),
                None => self.count_unchecked(1),
            }
        }
        Ok(Constraints {
            value: value_bound(range),
            size: None,
        })
    }

    /// Returns the bounds of sizes. One of them is before OF.
    pub(crate) fn size_bounds(
        &mut self,
        unfolded: &Unfolded<'text>,
        before_of: Option<Unread<'text>>,
    ) -> Result<Constraints, Halt<'text>> {
        let mut range = None;
        if let Some(constraint) = before_of {
            range = self.size_within(unfolded.place, constraint, range)?;
        }
        for (place, constraint) in unfolded.constraints.iter().rev() {
            range = self.size_within(*place, *constraint, range)?;
        }
        Ok(Constraints {
            value: None,
            size: size_bound(range),
        })
    }

    /// Returns what a constraint leaves of sizes.
    fn size_within(
        &mut self,
        place: Place,
        constraint: Unread<'text>,
        known: Option<Range>,
    ) -> Result<Option<Range>, Halt<'text>> {
        match self.constraint(place, constraint, &[], place, true)? {
            Some(found) => Ok(Some(found.within(known))),
            None => {
                self.count_unchecked(1);
                Ok(known)
            }
        }
    }

    /// Returns the range of a constraint, if it is a single one.
    fn constraint(
        &mut self,
        place: Place,
        constraint: Unread<'text>,
        names: &[NamedNumber<'text>],
        home: Place,
        is_size: bool,
    ) -> Result<Option<Range>, Halt<'text>> {
        self.step(constraint.text.len(), place, constraint.position)?;
        let items = tokens(self.alloc, constraint.text, constraint.position)?;
        let mut parser = self.parser(place, constraint, items.as_slice());
        if is_size && !eat_size(&mut parser) {
            return Ok(None);
        }
        self.whole_range(&mut parser, place, names, home, is_size)
    }

    /// Reads a range that keeps the rules, if nothing follows it.
    fn whole_range(
        &mut self,
        parser: &mut Parser<'_, 'text>,
        place: Place,
        names: &[NamedNumber<'text>],
        home: Place,
        is_size: bool,
    ) -> Result<Option<Range>, Halt<'text>> {
        let position = parser.position();
        let Some(range) = self.range(parser, place, names, home)? else {
            return Ok(None);
        };
        self.broken_if(place, position, range.broken(is_size))?;
        Ok(range.ended(parser, is_size))
    }

    /// Reads a value or a range of values (X.680 51.2, 51.4).
    fn range(
        &mut self,
        parser: &mut Parser<'_, 'text>,
        place: Place,
        names: &[NamedNumber<'text>],
        home: Place,
    ) -> Result<Option<Range>, Halt<'text>> {
        let start = parser.position();
        let Some(low) = read_end(parser, "MIN") else {
            return Ok(None);
        };
        let low = self.end_number(place, low, names, home, start)?;
        if !parser.eat("..") {
            return Ok(single(low));
        }
        let end = parser.position();
        let Some(high) = read_end(parser, "MAX") else {
            return Ok(None);
        };
        let high = self.end_number(place, high, names, home, end)?;
        Ok(Some(Range {
            low,
            high,
            is_extensible: false,
        }))
    }

    /// Returns the number at an end of a range.
    fn end_number(
        &mut self,
        place: Place,
        end: End<'text>,
        names: &[NamedNumber<'text>],
        home: Place,
        position: Position,
    ) -> Result<Option<i128>, Halt<'text>> {
        match end {
            End::Open => Ok(None),
            End::At(value) => {
                let number = self.number(place, value, names, home, position)?;
                Ok(Some(number))
            }
        }
    }
}

/// An end of a range.
#[derive(Clone, Copy)]
enum End<'text> {
    Open,
    At(Value<'text>),
}

/// Reads an end of a range, if it is a number, a name or this word.
fn read_end<'text>(parser: &mut Parser<'_, 'text>, open: &str) -> Option<End<'text>> {
    if parser.eat(open) {
        return Some(End::Open);
    }
    match parser.value() {
        Ok(
            Value::Number {
                is_negative,
                digits,
            },
        ) => Some(End::At(Value::Number {
            is_negative,
            digits,
        })),
        Ok(Value::Name { module, name }) => Some(End::At(Value::Name { module, name })),
        Ok(Value::Field(field)) => Some(End::At(Value::Field(field))),
        _ => None,
    }
}

fn greater(one: Option<i128>, other: Option<i128>) -> Option<i128> {
    match (one, other) {
        (Some(one), Some(other)) => Some(one.max(other)),
        (None, end) | (end, None) => end,
    }
}

fn lesser(one: Option<i128>, other: Option<i128>) -> Option<i128> {
    match (one, other) {
        (Some(one), Some(other)) => Some(one.min(other)),
        (None, end) | (end, None) => end,
    }
}

/// Returns bounds of values.
fn value_bound(range: Option<Range>) -> Option<Bound<i128>> {
    let range = range?;
    Some(Bound {
        constraint: Bounded::Range {
            start: range.low,
            end: range.high,
        },
        extensible: range.is_extensible,
    })
}

/// Returns the range of a single number, which MIN isn't.
fn single(only: Option<i128>) -> Option<Range> {
    if only.is_none() {
        return None;
    }
    Some(Range {
        low: only,
        high: only,
        is_extensible: false,
    })
}

/// Returns bounds of sizes.
fn size_bound(range: Option<Range>) -> Option<Bound<usize>> {
    let range = range?;
    Some(Bound {
        constraint: Bounded::Range {
            start: size(range.low),
            end: size(range.high),
        },
        extensible: range.is_extensible,
    })
}

/// Returns an end of a range of sizes, which are whole numbers from 0 to 18446744073709551615.
fn size(end: Option<i128>) -> Option<usize> {
    match usize::try_from(end?.max(0)) {
        Ok(size) => Some(size),
        Err(_) => Some(usize::MAX),
    }
}
