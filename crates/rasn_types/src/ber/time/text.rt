//! The parts of a time's text.
ghost use Rattle.std.specs.Prelude.{◌≡◌, ◌+◌, ◌*◌, ◌<◌, IfSome};
ghost use Rattle.rasn_types.specs.TimeParsing.{ParsesOption, starts_decimal, two_at, four_at, clock_at, digits_at, fraction_at, offset_at, zone_at, fields_at, short_at, long_at, date_at};
ghost use Rattle.rasn_types.specs.TimeSpelling.{IsZone, billionths};
ghost use Rattle.rasn_types.specs.Time.{short_form, canonical_form};

/// The minutes and seconds after the hour in a time's text.
#[derive(Clone, Copy, Debug)]
pub enum Clock {
    Hours,
    Minutes(u8),
    Seconds(u8, u8),
}

/// The end of a time's text: nothing, `Z`, or an offset in hours and minutes.
#[derive(Clone, Copy, Debug)]
pub enum Zone {
    Unnamed,
    Utc,
    East(u8, u8),
    West(u8, u8),
}

/// The parts of a time's text after its year. A fraction is kept as its separator and its value in
/// billionths.
#[derive(Clone, Copy, Debug)]
pub struct Fields {
    pub month: u8,
    pub day: u8,
    pub hour: u8,
    pub clock: Clock,
    pub fraction: Option<(u8, u32)>,
    pub zone: Zone,
}

/// Reads two digits.
#[tactic(auto, unfolding(crate::specs::TimeParsing::two_at))]
#[inline(always)]
fn two_digits(text: &[u8]) -> Option<(u8, &[u8])>
    ensures exact { ParsesOption (λ x. (x.0, x.1.now)) result (two_at text.now) }
    ensures below { IfSome result (λ x. x.0 < 100) }
{
    match text {
        [high, low, rest @ ..] => {
            if high.is_ascii_digit() && low.is_ascii_digit() {
                Some((10 * (*high - b'0') + (*low - b'0'), rest))
            } else {
                None
            }
        }
        _ => None,
    }
}

/// Reads four digits.
#[tactic(auto, unfolding(crate::specs::TimeParsing::four_at))]
#[inline(always)]
fn four_digits(text: &[u8]) -> Option<(u16, &[u8])>
    ensures exact { ParsesOption (λ x. (x.0, x.1.now)) result (four_at text.now) }
    ensures below { IfSome result (λ x. x.0 < 10000) }
{
    let (high, rest) = two_digits(text)?;
    let (low, rest) = two_digits(rest)?;
    Some((100 * u16::from(high) + u16::from(low), rest))
}

#[inline(always)]
fn starts_with_digit(text: &[u8]) -> bool
    ensures { result ≡ starts_decimal text.now }
{
    match text {
        [first, ..] => first.is_ascii_digit(),
        [] => false,
    }
}

/// Reads minutes and seconds, if they are given.
#[tactic(auto, unfolding(crate::specs::TimeParsing::clock_at))]
#[inline(always)]
fn read_clock(text: &[u8]) -> Option<(Clock, &[u8])>
    ensures { ParsesOption (λ x. (x.0, x.1.now)) result (clock_at text.now) }
{
    if !starts_with_digit(text) {
        return Some((Clock::Hours, text));
    }
    let (minute, rest) = two_digits(text)?;
    if !starts_with_digit(rest) {
        return Some((Clock::Minutes(minute), rest));
    }
    let (second, rest) = two_digits(rest)?;
    Some((Clock::Seconds(minute, second), rest))
}

/// Reads the leading digits as a fraction, in billionths. Digits after the ninth are skipped.
#[tactic(auto, unfolding(crate::specs::TimeParsing::digits_at))]
#[inline(always)]
fn read_digits(text: &[u8]) -> (u32, &[u8])
    ensures exact { digits_at 9 text.now ≡ (result.0, result.1.now) }
    ensures below { result.0 < 1000000000 }
{
    let mut place = 9u32;
    let mut total = 0u32;
    let mut rest = text;
    while let [digit, tail @ ..] = rest {
        if !digit.is_ascii_digit() {
            break;
        }
        if place > 0 {
            place -= 1;
            total += u32::from(*digit - b'0') * 10u32.pow(place);
        }
        rest = tail;
    }
    (total, rest)
}

/// Reads a fraction with its separator, if one is given.
#[tactic(auto, unfolding(crate::specs::TimeParsing::fraction_at))]
#[inline(always)]
fn read_fraction(text: &[u8]) -> Option<(Option<(u8, u32)>, &[u8])>
    ensures exact { ParsesOption (λ x. (x.0, x.1.now)) result (fraction_at text.now) }
    ensures below { IfSome result (λ x. billionths x.0 < 1000000000) }
{
    match text {
        [separator, rest @ ..] if *separator == b'.' || *separator == b',' => {
            if !starts_with_digit(rest) {
                return None;
            }
            let (billionths, rest) = read_digits(rest);
            Some((Some((*separator, billionths)), rest))
        }
        _ => Some((None, text)),
    }
}

/// Reads the hours and minutes of an offset, which nothing may follow.
#[tactic(auto, unfolding(crate::specs::TimeParsing::offset_at))]
#[inline(always)]
fn read_offset(text: &[u8]) -> Option<(u8, u8)>
    ensures exact { ParsesOption (λ x. x) result (offset_at text.now) }
    ensures below { IfSome result (λ x. (x.1 < 100) × (60 * x.0 + x.1 < 1440)) }
{
    let (hours, rest) = two_digits(text)?;
    let (minutes, rest) = two_digits(rest)?;
    if rest.is_empty() && 60 * u16::from(hours) + u16::from(minutes) < 1440 {
        Some((hours, minutes))
    } else {
        None
    }
}

/// Reads the remaining text, which is a zone or empty.
#[tactic(auto, unfolding(crate::specs::TimeParsing::zone_at))]
#[inline(always)]
fn read_zone(text: &[u8]) -> Option<Zone>
    ensures exact { ParsesOption (λ x. x) result (zone_at text.now) }
    ensures below { IfSome result (λ z. IsZone z) }
{
    match text {
        [] => Some(Zone::Unnamed),
        [b'Z', rest @ ..] => {
            if rest.is_empty() {
                Some(Zone::Utc)
            } else {
                None
            }
        }
        [b'+', rest @ ..] => {
            let (hours, minutes) = read_offset(rest)?;
            Some(Zone::East(hours, minutes))
        }
        [b'-', rest @ ..] => {
            let (hours, minutes) = read_offset(rest)?;
            Some(Zone::West(hours, minutes))
        }
        _ => None,
    }
}

/// Reads everything after the year.
#[tactic(auto, unfolding(crate::specs::TimeParsing::fields_at))]
#[inline(always)]
fn read_fields(text: &[u8]) -> Option<Fields>
    ensures exact { ParsesOption (λ x. x) result (fields_at text.now) }
    ensures zone { IfSome result (λ f. IsZone f.zone) }
    ensures below { IfSome result (λ f. billionths f.fraction < 1000000000) }
{
    let (month, rest) = two_digits(text)?;
    let (day, rest) = two_digits(rest)?;
    let (hour, rest) = two_digits(rest)?;
    let (clock, rest) = read_clock(rest)?;
    let (fraction, rest) = read_fraction(rest)?;
    let zone = read_zone(rest)?;
    Some(Fields {
        month,
        day,
        hour,
        clock,
        fraction,
        zone,
    })
}

/// Reads a year of four digits, and everything after it.
#[tactic(auto, unfolding(crate::specs::TimeParsing::long_at))]
#[inline(always)]
pub fn long_parts(text: &[u8]) -> Option<(u16, Fields)>
    ensures exact { ParsesOption (λ x. x) result (long_at text.now) }
    ensures year { IfSome result (λ x. x.0 < 10000) }
    ensures zone { IfSome result (λ x. IsZone x.1.zone) }
    ensures below { IfSome result (λ x. billionths x.1.fraction < 1000000000) }
{
    let (year, rest) = four_digits(text)?;
    let fields = read_fields(rest)?;
    Some((year, fields))
}

/// Reads a year of two digits, and everything after it.
#[tactic(auto, unfolding(crate::specs::TimeParsing::short_at))]
#[inline(always)]
pub fn short_parts(text: &[u8]) -> Option<(u8, Fields)>
    ensures exact { ParsesOption (λ x. x) result (short_at text.now) }
    ensures year { IfSome result (λ x. x.0 < 100) }
    ensures zone { IfSome result (λ x. IsZone x.1.zone) }
    ensures below { IfSome result (λ x. billionths x.1.fraction < 1000000000) }
{
    let (year, rest) = two_digits(text)?;
    let fields = read_fields(rest)?;
    Some((year, fields))
}

impl Fields {
    /// Returns whether this is the form of a UTCTime: with minutes, without a fraction, and with a
    /// zone.
    #[inline(always)]
    pub fn is_short(&self) -> bool
        ensures { result ≡ short_form self.now }
    {
        !matches!(self.clock, Clock::Hours)
            && self.fraction.is_none()
            && !matches!(self.zone, Zone::Unnamed)
    }

    /// Returns whether this is the canonical form (X.690 11.7, 11.8).
    #[inline(always)]
    pub fn is_canonical(&self) -> bool
        ensures { result ≡ canonical_form self.now }
    {
        let point = match self.fraction {
            None => true,
            Some((separator, _)) => separator == b'.',
        };
        matches!(self.clock, Clock::Seconds(_, _)) && point && matches!(self.zone, Zone::Utc)
    }
}

/// Reads the year, month and day of a DATE.
#[tactic(auto, unfolding(crate::specs::TimeParsing::date_at))]
pub fn date_parts(text: &[u8]) -> Option<(u16, u8, u8)>
    ensures exact { ParsesOption (λ x. x) result (date_at text.now) }
    ensures year { IfSome result (λ x. x.0 < 10000) }
{
    let (year, rest) = four_digits(text)?;
    let (month, rest) = two_digits(rest)?;
    let (day, rest) = two_digits(rest)?;
    if rest.is_empty() {
        Some((year, month, day))
    } else {
        None
    }
}
