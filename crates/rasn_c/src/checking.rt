//! The check of a message by a schema.
ghost use Rattle.std.specs.Prelude.{◌≡◌, MatchOption, MatchResult};
ghost use Rattle.rasn_types.specs.declared.types.codec.Codec.TheVariants.{Der};
ghost use Rattle.rasn_lint.specs.Shown.{indices_of};
ghost use Rattle.rasn_c.specs.Status.{IsNumberOf};
ghost use Rattle.rasn_c.specs.Checking.{AnswersCheckBy, IsCheckedBy, IsStopped, IsChecked, IsUncheckedBy, IsWhole, IsRefusedAt, IsUnreadBy, opens_of, status_of};

use crate::reasons::{CallStop, Reason, report};
use crate::schemas::{Query, query_of};
use crate::status::Status;
use rasn::refuse_remainder;
use rasn::types::Codec;
use rasn_dynamic::{Refusal, check_or_locate};
use rasn_lint::{OpenTypes, check};
use rasn_schema::{Schema, TypeId};
use std::alloc::Global;

/// Checks that all of the octets are one value of the type under the rules of this number. Under
/// DER the octets of open types are also looked into, if `open_types` isn't 0.
#[unsafe(no_mangle)]
pub extern "C" fn soq_proved_check_by(
    alloc: Global,
    schema: &[u8],
    rule: u32,
    open_types: u32,
    octets: &[u8],
    reason: &mut Reason,
    text: &mut [u8],
) -> u32
    ensures { IsNumberOf (AnswersCheckBy schema.now rule open_types octets.now reason.new text.old text.new) result }
{
    let checked = check_by(alloc, schema, rule, open_types, octets);
    status_of(report(checked, reason, text)).number()
}

fn status_of(checked: Result<(), Status>) -> Status
    ensures { result ≡ status_of checked }
{
    match checked {
        Ok(()) => Status::Ok,
        Err(status) => status,
    }
}

fn check_by(
    alloc: Global,
    schema: &[u8],
    rule: u32,
    open_types: u32,
    octets: &[u8],
) -> Result<(), CallStop>
    ensures { MatchResult result (λ u. IsCheckedBy schema.now rule open_types octets.now) (IsStopped schema.now rule open_types octets.now) }
{
    let asked = query_of(alloc, schema, rule)?;
    let Query { schema, root, rule } = asked;
    match rule {
        Codec::Der => check_der(alloc, &schema, root, open_types, octets),
        Codec::Ber => check_whole(alloc, Codec::Ber, &schema, root, octets),
        Codec::Cer => check_whole(alloc, Codec::Cer, &schema, root, octets),
    }
}

/// Checks a message by DER.
fn check_der(
    alloc: Global,
    schema: &Schema,
    root: TypeId,
    open_types: u32,
    octets: &[u8],
) -> Result<(), CallStop>
    ensures { MatchResult result (λ u. IsChecked Der (opens_of open_types) schema.now.types.items root.0 octets.now) (λ stop. IsUncheckedBy Der (opens_of open_types) schema.now root octets.now stop stop.status) }
{
    match check(alloc, schema, root, octets, open_types_of(open_types)) {
        Ok(()) => Ok(()),
        Err(departure) => {
            let inner = indices_of(&departure.inner);
            let refusal = &departure.refusal;
            Err(CallStop::of_refusal(alloc, schema, root, inner, refusal))
        }
    }
}

/// Returns the index of each encoding on the way inside an open type; none if it isn't in one.
fn indices_of(inner: &Option<Vec<usize>>) -> &[usize]
    ensures { result.now ≡ indices_of inner.now }
{
    match inner {
        Some(indices) => indices.as_slice(),
        None => &[],
    }
}

/// Checks that all of the octets are one value of the type.
fn check_whole(
    alloc: Global,
    rule: Codec,
    schema: &Schema,
    root: TypeId,
    octets: &[u8],
) -> Result<(), CallStop>
    ensures { MatchResult result (λ u. IsWhole rule schema.now.types.items root.0 octets.now) (λ stop. IsUnreadBy rule schema.now root octets.now stop stop.status) }
{
    match refusal_of(alloc, rule, schema, root, octets) {
        None => Ok(()),
        Some(refusal) => Err(CallStop::of_refusal(alloc, schema, root, &[], &refusal)),
    }
}

/// Returns whether a call looks into open types.
fn open_types_of(open_types: u32) -> OpenTypes
    ensures { result ≡ opens_of open_types }
{
    if open_types == 0 {
        OpenTypes::Unexamined
    } else {
        OpenTypes::Examined
    }
}

/// Returns why the octets aren't exactly one value of the type, if they aren't.
pub(crate) fn refusal_of(
    alloc: Global,
    rule: Codec,
    schema: &Schema,
    root: TypeId,
    octets: &[u8],
) -> Option<Refusal>
    ensures { MatchOption result (IsWhole rule schema.now.types.items root.0 octets.now) (IsRefusedAt rule schema.now.types.items root.0 octets.now) }
{
    match check_or_locate(alloc, rule, schema, root, octets) {
        Ok(rest) => match refuse_remainder(rule, rest) {
            Ok(()) => None,
            Err(error) => Some(Refusal {
                error,
                offset: octets.len().saturating_sub(rest.len()),
                id: root,
                steps: Vec::new(alloc),
                is_cut: false,
            }),
        },
        Err(refusal) => Some(refusal),
    }
}

/// Returns the end for octets that the reader refuses: why, and where.
pub(crate) fn unread_stop(
    alloc: Global,
    rule: Codec,
    schema: &Schema,
    root: TypeId,
    octets: &[u8],
) -> CallStop
    ensures { IsUnreadBy rule schema.now root octets.now result result.status }
{
    match refusal_of(alloc, rule, schema, root, octets) {
        Some(refusal) => CallStop::of_refusal(alloc, schema, root, &[], &refusal),
        // Only memory was missing.
        None => CallStop::plain(alloc, Status::OutOfMemory),
    }
}
