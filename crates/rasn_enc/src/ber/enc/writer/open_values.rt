//! The open values: the innermost one, and those around it.
ghost use Rattle.std.specs.Prelude.{◌≡◌, ◌++◌, ◌∷◌, [], None, IsSome, OnOk, OnErr};
ghost use Rattle.rasn_enc.specs.Buffer.OpenValues.{opens, IsInnermost};

use crate::ber::enc::writer::Open;
use std::alloc::AllocError;
use std::mem;

/// Moves the innermost open value, if there is one, to the end of those around it.
#[inline(always)]
pub fn push_innermost(
    around: &mut Vec<Open>,
    innermost: &mut Option<Open>,
) -> Result<(), AllocError>
    ensures ok { OnOk result ((around.new.items ≡ opens around.old.items innermost.old) × (innermost.new ≡ None)) }
    ensures err { OnErr result ((around.new.items ≡ around.old.items) × (innermost.new ≡ innermost.old)) }
{
    match innermost.take() {
        None => Ok(()),
        Some(value) => match around.push(value) {
            Ok(()) => Ok(()),
            Err(back) => {
                *innermost = Some(back.value);
                Err(AllocError)
            }
        },
    }
}

/// Removes and returns the innermost open value. The last of those around it becomes the innermost.
#[inline(always)]
pub fn pop_innermost(around: &mut Vec<Open>, innermost: &mut Option<Open>) -> Open
    requires { IsSome innermost.old }
    ensures all { opens around.old.items innermost.old ≡ opens around.new.items innermost.new ++ result ∷ [] }
    ensures innermost { IsInnermost around.new.items innermost.new }
{
    let next = around.pop();
    mem::replace(innermost, next).unwrap()
}
