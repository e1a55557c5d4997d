//! Writing times in their canonical forms (X.680 38.4.1; X.690 11.7, 11.8).
ghost use Rattle.std.specs.Prelude.{◌≡◌, ◌<◌, ◌≤◌, ◌≤ℤ◌, length, pos, negsuc, IfOk, IfErr, OnErr};
ghost use Rattle.rasn_types.specs.Calendar.{IsDay, IsMoment};
ghost use Rattle.rasn_types.specs.Shapes.{utc_time, generalized_time, date, instant, on_day};
ghost use Rattle.rasn_types.specs.Time.{written_utc, written_generalized, written_date, written_year, written_fraction};
ghost use Rattle.rasn_types.specs.declared.types.codec.Codec.TheVariants.{Ber};
ghost use Rattle.rasn_enc.specs.Primitive.{IsAllocError};
ghost use Rattle.rasn_enc.specs.Encoding.{AppendsLeaf};

use crate::ber::enc::writer::contents::{Contents, append_contents};
use crate::ber::enc::{Encoder, out_of_memory};
use crate::enc::Encode;
use rasn_types::ber::time::{write_date, write_generalized_time, write_utc_time};
use rasn_types::error::EncodeError;
use rasn_types::types::{Codec, Constraints, Date, GeneralizedTime, Identifier, Tag, UtcTime};
use std::alloc::{AllocError, Global};

impl Contents for UtcTime {
    ghost IsWritten = { λ value text. (text ≡ written_utc value) × IsMoment value };

    fn count(&self) -> usize {
        13
    }

    fn append(&self, octets: &mut Vec<u8>) -> Result<(), AllocError> {
        write_utc_time(octets, self)
    }
}

impl Contents for GeneralizedTime {
    ghost IsWritten = { λ value text. (text ≡ written_generalized value.moment) × IsMoment value.moment };

    fn count(&self) -> usize {
        let value = self.utc();
        year_len(value.date().year()) + 11 + fraction_len(value.nanosecond() % 1_000_000_000)
    }

    fn append(&self, octets: &mut Vec<u8>) -> Result<(), AllocError> {
        write_generalized_time(octets, self)
    }
}

impl Contents for Date {
    ghost IsWritten = { λ value text. (text ≡ written_date value) × IsDay value };

    fn count(&self) -> usize {
        year_len(self.year()) + 4
    }

    fn append(&self, octets: &mut Vec<u8>) -> Result<(), AllocError> {
        write_date(octets, self)
    }
}

/// Returns the number of octets of a year: at least four digits, and a sign outside 0 to 9999.
fn year_len(year: i32) -> usize
    requires from { negsuc 99998 ≤ℤ year }
    requires to { year ≤ℤ pos 99999 }
    ensures exact { result ≡ length (written_year year) }
    ensures few { result ≤ 6 }
{
    match year {
        0..=9999 => 4,
        -9999..=-1 => 5,
        _ => 6,
    }
}

/// Returns the number of octets of a fraction: the point, and the digits without zeros at the end.
/// A fraction of zero has no octets.
fn fraction_len(billionths: u32) -> usize
    requires { billionths < 1000000000 }
    ensures exact { result ≡ length (written_fraction billionths) }
    ensures few { result ≤ 10 }
{
    if billionths == 0 {
        return 0;
    }
    let mut place = 9u32;
    let mut left = billionths;
    while left > 0 {
        place -= 1;
        left %= 10u32.pow(place);
    }
    10 - place as usize
}

/// Returns the text of a time for the public calls, which report a failed allocation under
/// `Codec::Ber`.
fn canonical_text<T: Contents>(alloc: Global, value: &T) -> Result<Vec<u8>, EncodeError>
    ensures ok { IfOk result (λ v. T.IsWritten value.now v.items) }
    ensures memory_alone { IfErr result (IsAllocError Ber) }
{
    let mut text = Vec::new(alloc);
    match append_contents(&mut text, value) {
        Ok(()) => Ok(text),
        Err(_) => Err(out_of_memory(Codec::Ber)),
    }
}

impl Encoder {
    /// Writes a UTCTime (X.690 11.8): the year without its century, and no fraction.
    ///
    /// # Errors
    /// Only `OutOfMemory`.
    pub fn encode_utc_time(
        &mut self,
        tag: Tag,
        value: &UtcTime,
        _identifier: Identifier,
    ) -> Result<(), EncodeError>
        ensures ok { AppendsLeaf utc_time tag (instant value.now) result self.old self.new }
        ensures err { OnErr result (self.new ≡ self.old) }
        ensures memory_alone { IfErr result (IsAllocError self.old.rule) }
        ensures rules { IfErr result (λ e. e.codec ≡ self.old.rule) }
    {
        self.leaf(tag, value)
    }

    /// Writes a GeneralizedTime (X.690 11.7) in UTC, whatever its offset. A year outside 0 to 9999
    /// has a sign.
    ///
    /// # Errors
    /// Only `OutOfMemory`.
    pub fn encode_generalized_time(
        &mut self,
        tag: Tag,
        value: &GeneralizedTime,
        _identifier: Identifier,
    ) -> Result<(), EncodeError>
        ensures ok { AppendsLeaf generalized_time tag (instant value.now.moment) result self.old self.new }
        ensures err { OnErr result (self.new ≡ self.old) }
        ensures memory_alone { IfErr result (IsAllocError self.old.rule) }
        ensures rules { IfErr result (λ e. e.codec ≡ self.old.rule) }
    {
        self.leaf(tag, value)
    }

    /// Writes a DATE (X.680 38.4.1). A year outside 0 to 9999 has a sign.
    ///
    /// # Errors
    /// Only `OutOfMemory`.
    pub fn encode_date(
        &mut self,
        tag: Tag,
        value: &Date,
        _identifier: Identifier,
    ) -> Result<(), EncodeError>
        ensures ok { AppendsLeaf date tag (on_day value.now) result self.old self.new }
        ensures err { OnErr result (self.new ≡ self.old) }
        ensures memory_alone { IfErr result (IsAllocError self.old.rule) }
        ensures rules { IfErr result (λ e. e.codec ≡ self.old.rule) }
    {
        self.leaf(tag, value)
    }

    /// Returns the text of a GeneralizedTime (X.690 11.7).
    ///
    /// # Errors
    /// Only `OutOfMemory`, under `Codec::Ber`.
    pub fn datetime_to_canonical_generalized_time_bytes(
        alloc: Global,
        value: &GeneralizedTime,
    ) -> Result<Vec<u8>, EncodeError>
        ensures ok { IfOk result (λ v. v.items ≡ written_generalized value.now.moment) }
        ensures memory_alone { IfErr result (IsAllocError Ber) }
    {
        canonical_text(alloc, value)
    }

    /// Returns the text of a UTCTime (X.690 11.8).
    ///
    /// # Errors
    /// Only `OutOfMemory`, under `Codec::Ber`.
    pub fn datetime_to_canonical_utc_time_bytes(
        alloc: Global,
        value: &UtcTime,
    ) -> Result<Vec<u8>, EncodeError>
        ensures ok { IfOk result (λ v. v.items ≡ written_utc value.now) }
        ensures memory_alone { IfErr result (IsAllocError Ber) }
    {
        canonical_text(alloc, value)
    }

    /// Returns the text of a DATE (X.680 38.4.1).
    ///
    /// # Errors
    /// Only `OutOfMemory`, under `Codec::Ber`.
    pub fn naivedate_to_date_bytes(alloc: Global, value: &Date) -> Result<Vec<u8>, EncodeError>
        ensures ok { IfOk result (λ v. v.items ≡ written_date value.now) }
        ensures memory_alone { IfErr result (IsAllocError Ber) }
    {
        canonical_text(alloc, value)
    }
}

impl Encode for UtcTime {
    ghost use Rattle.rasn_enc.specs.Primitive.{IsAllocError};

    ghost errors = { λ tag c v rule e. IsAllocError rule e };

    fn encode_with_tag_and_constraints(
        &self,
        encoder: &mut Encoder,
        tag: Tag,
        _constraints: &Constraints,
        identifier: Identifier,
    ) -> Result<(), EncodeError> {
        encoder.encode_utc_time(tag, self, identifier)
    }

    fn is_present(&self) -> bool {
        true
    }
}

impl Encode for GeneralizedTime {
    ghost use Rattle.rasn_enc.specs.Primitive.{IsAllocError};

    ghost errors = { λ tag c v rule e. IsAllocError rule e };

    fn encode_with_tag_and_constraints(
        &self,
        encoder: &mut Encoder,
        tag: Tag,
        _constraints: &Constraints,
        identifier: Identifier,
    ) -> Result<(), EncodeError> {
        encoder.encode_generalized_time(tag, self, identifier)
    }

    fn is_present(&self) -> bool {
        true
    }
}

impl Encode for Date {
    ghost use Rattle.rasn_enc.specs.Primitive.{IsAllocError};

    ghost errors = { λ tag c v rule e. IsAllocError rule e };

    fn encode_with_tag_and_constraints(
        &self,
        encoder: &mut Encoder,
        tag: Tag,
        _constraints: &Constraints,
        identifier: Identifier,
    ) -> Result<(), EncodeError> {
        encoder.encode_date(tag, self, identifier)
    }

    fn is_present(&self) -> bool {
        true
    }
}
