//! Bits and hexadecimal digits between apostrophes (X.680 12.10, 12.12).
use rasn_types::types::BitString;
use std::alloc::{AllocError, Global};

/// No named bit of a default value has a higher number.
const MAX_BIT: i128 = 65_535;

/// Bits in octets, of which the last is filled up with zeros.
#[derive(Drop)]
pub(crate) struct Digits {
    pub(crate) octets: Vec<u8>,
    pub(crate) bits: usize,
}

impl Digits {
    /// Adds the four bits of a hexadecimal digit.
    fn push_digit(&mut self, digit: u8) -> Result<(), AllocError> {
        self.push_bit(digit & 8 != 0)?;
        self.push_bit(digit & 4 != 0)?;
        self.push_bit(digit & 2 != 0)?;
        self.push_bit(digit & 1 != 0)
    }

    /// Adds a bit.
    fn push_bit(&mut self, is_set: bool) -> Result<(), AllocError> {
        let place = self.bits % 8;
        if place == 0 {
            self.octets.push(0)?;
        }
        if is_set {
            let mask = 0x80u8 >> place;
            if let Some(last) = self.octets.last_mut() {
                *last |= mask;
            }
        }
        self.bits = self.bits.saturating_add(1);
        Ok(())
    }

    /// Adds what a character between the apostrophes means. White space means nothing.
    fn push(&mut self, octet: u8, is_hexadecimal: bool) -> Result<(), AllocError> {
        match octet {
            b'0' | b'1' if !is_hexadecimal => self.push_bit(octet == b'1'),
            b'0'..=b'9' if is_hexadecimal => self.push_digit(octet - b'0'),
            b'A'..=b'F' if is_hexadecimal => self.push_digit(octet - b'A' + 10),
            _ => Ok(()),
        }
    }
}

/// Reads bits or hexadecimal digits, between apostrophes and before a letter.
pub(crate) fn read_digits(alloc: Global, written: &str) -> Result<Digits, AllocError> {
    let mut digits = Digits {
        octets: Vec::new(alloc),
        bits: 0,
    };
    let inner = written.strip_suffix("'H");
    let is_hexadecimal = inner.is_some();
    for octet in inner.unwrap_or(written).bytes() {
        digits.push(octet, is_hexadecimal)?;
    }
    Ok(digits)
}

/// Bits of a string that are set by their numbers (X.680 22.9).
#[derive(Drop)]
pub(crate) struct Bits {
    octets: Vec<u8>,
    length: usize,
}

impl Bits {
    pub(crate) fn new(alloc: Global) -> Bits {
        Bits {
            octets: Vec::new(alloc),
            length: 0,
        }
    }

    /// Sets a bit, and returns whether there can be one of this number.
    pub(crate) fn set(&mut self, number: i128) -> Result<bool, AllocError> {
        if number > MAX_BIT {
            return Ok(false);
        }
        let Ok(number) = usize::try_from(number) else {
            return Ok(false);
        };
        let octet = number / 8;
        for _ in self.octets.len()..octet.saturating_add(1) {
            self.octets.push(0)?;
        }
        let mask = 0x80u8 >> (number % 8);
        if let Some(found) = self.octets.get_mut(octet) {
            *found |= mask;
        }
        self.length = self.length.max(number.saturating_add(1));
        Ok(true)
    }

    /// Returns the bits.
    pub(crate) fn into_string(self) -> Option<BitString> {
        let Bits { octets, length } = self;
        BitString::new(octets, length)
    }
}
