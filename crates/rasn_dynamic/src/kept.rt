//! Outcomes of calls whose error is kept in one place.
//!
//! An `EncodeError` is large. So that none is moved for each value, the functions that write values
//! return only whether they did, and put the error where their caller keeps it.
ghost use Rattle.std.specs.Prelude.{◌≡◌, ◌<◌, ◌≤◌, length, Err, OnOk, IfErr};
ghost use Rattle.rasn_types.specs.Shapes.{Admits};
ghost use Rattle.rasn_enc.specs.Errors.{FailsAtSize};
ghost use Rattle.rasn_enc.specs.View.{View, IsBelow};
ghost use Rattle.rasn_dynamic.specs.Making.{reported};
ghost use Rattle.rasn_dynamic.specs.Written.{IsFormError};

use crate::walk::Refused;
use crate::write_leaf::other_form;
use rasn_enc::ber::enc::Encoder;
use rasn_types::error::EncodeError;
use rasn_types::types::{Constraints, Tag};

/// Keeps this error.
#[cold]
#[inline(never)]
pub fn keep(fault: EncodeError, error: &mut EncodeError) -> Result<(), Refused>
    ensures { reported result error.new ≡ Err fault }
{
    *error = fault;
    Err(Refused)
}

/// Keeps the error of an outcome, if it is one.
#[inline(always)]
pub fn kept(outcome: Result<(), EncodeError>, error: &mut EncodeError) -> Result<(), Refused>
    ensures { reported result error.new ≡ outcome }
{
    match outcome {
        Ok(()) => Ok(()),
        Err(fault) => keep(fault, error),
    }
}

/// Keeps the error that a value is of another form than its type's.
#[cold]
#[inline(never)]
pub fn refuse_form(encoder: &Encoder, error: &mut EncodeError) -> Result<(), Refused>
    ensures { IsFormError encoder.now.rule (reported result error.new) }
{
    keep(other_form(encoder), error)
}

/// Checks that a size is within the bounds of the constraints, and keeps the error if it isn't.
#[inline(always)]
pub fn check_size(
    encoder: &Encoder,
    constraints: &Constraints,
    size: usize,
    error: &mut EncodeError,
) -> Result<(), Refused>
    ensures ok { OnOk result (Admits ◌≤◌ constraints.now.size size) }
    ensures fails { IfErr (reported result error.new) (FailsAtSize constraints.now size encoder.now.rule) }
{
    if constraints.admits_size(size) {
        return Ok(());
    }
    refuse_size(encoder, constraints, size, error)
}

/// Keeps the error that a size is outside the bounds of the constraints.
#[cold]
#[inline(never)]
fn refuse_size(
    encoder: &Encoder,
    constraints: &Constraints,
    size: usize,
    error: &mut EncodeError,
) -> Result<(), Refused>
    ensures ok { OnOk result (Admits ◌≤◌ constraints.now.size size) }
    ensures fails { IfErr (reported result error.new) (FailsAtSize constraints.now size encoder.now.rule) }
{
    kept(encoder.check_size(constraints, size), error)
}

/// Drops the value that was opened last, with its contents.
#[cold]
#[inline(never)]
pub fn drop_open(encoder: &mut Encoder)
    requires { 0 < length encoder.old.below }
    ensures { (v : View) → IsBelow v encoder.old → encoder.new ≡ v }
{
    let dropped = Err(other_form(encoder));
    let _ = encoder.close(Tag::EOC, dropped);
}
