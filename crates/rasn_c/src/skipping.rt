//! Skipping one whole encoding.
ghost use Rattle.rasn_c.specs.Status.{IsNumberOf};
ghost use Rattle.rasn_c.specs.Skipping.{AnswersSkip};

use crate::rules::rule_numbered;
use crate::status::Status;
use rasn::Decoder;
use rasn::ber::de::DecoderOptions;
use std::alloc::Global;

/// One whole encoding that was skipped: `soq_passed` of the header.
#[repr(C)]
#[derive(Clone, Copy, Debug, PartialEq, Eq)]
pub struct Passed {
    /// The number of octets of the encoding.
    pub consumed: usize,
    /// The number of steps that skipping the encoding took.
    pub steps: usize,
}

/// Skips the one whole encoding at the front of the octets under the rules of this number, as
/// `Decoder::skip_value` does.
#[unsafe(no_mangle)]
pub extern "C" fn soq_proved_skip(
    alloc: Global,
    rule: u32,
    octets: &[u8],
    passed: &mut Passed,
) -> u32
    ensures { IsNumberOf (AnswersSkip rule octets.now passed.new) result }
{
    skip(alloc, rule, octets, passed).number()
}

fn skip(alloc: Global, rule: u32, octets: &[u8], passed: &mut Passed) -> Status
    ensures { AnswersSkip rule octets.now passed.new result }
{
    *passed = Passed {
        consumed: 0,
        steps: 0,
    };
    let Some(rule) = rule_numbered(rule) else {
        return Status::UnknownRule;
    };
    let mut decoder = Decoder::new(alloc, octets, DecoderOptions::of(rule));
    match decoder.skip_value() {
        Ok(steps) => {
            *passed = Passed {
                consumed: decoder.decoded_len(),
                steps,
            };
            Status::Ok
        }
        Err(_error) => Status::Refused,
    }
}
