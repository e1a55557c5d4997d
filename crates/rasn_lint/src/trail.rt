//! The parts on the way to a part.
ghost use Rattle.std.specs.Prelude.{◌≡◌, OnOk, slice_get};
ghost use Rattle.rasn_dynamic.specs.Walk.{path_at_depth, path_after};
ghost use Rattle.rasn_lint.specs.Trail.{trail_after, step_before, holder_in, before_in};

use rasn_dynamic::Span;
use rasn_schema::TypeId;
use std::alloc::AllocError;

/// A part on the way to another.
#[derive(Clone, Copy)]
pub struct Step<'input> {
    /// The number of its type.
    pub id: TypeId,
    /// Its index in the part that holds it.
    pub index: usize,
    /// All of its octets.
    pub octets: &'input [u8],
}

/// Moves the trail to a part.
pub fn extend_trail<'input>(
    trail: &mut Vec<Step<'input>>,
    part: &Span<'input>,
) -> Result<(), AllocError>
    ensures { OnOk result (trail.new.items ≡ trail_after trail.old.items part.now) }
{
    trail.truncate(part.depth);
    trail.push(Step {
        id: part.id,
        index: part.index,
        octets: part.octets,
    })?;
    Ok(())
}

/// Makes the path of the one before a path to what is in so many others, with this index.
pub fn go_along(path: &mut Vec<usize>, depth: usize, index: usize) -> Result<(), AllocError>
    ensures { OnOk result (path.new.items ≡ path_at_depth depth path.old.items index) }
{
    if depth == 0 {
        path.truncate(0);
        return Ok(());
    }
    path.truncate(depth - 1);
    path.push(index)?;
    Ok(())
}

/// Goes on to a part: the path is the index of each part on the way to it then.
pub fn extend_path(path: &mut Vec<usize>, part: &Span<'_>) -> Result<(), AllocError>
    ensures { OnOk result (path.new.items ≡ path_after path.old.items part.now) }
{
    go_along(path, part.depth, part.index)
}

fn step_at<'input>(trail: &[Step<'input>], place: usize) -> Option<Step<'input>>
    ensures { result ≡ slice_get trail.now place }
{
    trail.get(place).copied()
}

/// Returns the part that holds this one, where the trail leads to the part before it.
pub fn holder_of<'input>(trail: &[Step<'input>], part: &Span<'input>) -> Option<Step<'input>>
    ensures { result ≡ holder_in trail.now part.now }
{
    if part.depth == 0 {
        return None;
    }
    step_at(trail, part.depth - 1)
}

/// Returns the part before this one in the part that holds both.
pub fn before<'input>(trail: &[Step<'input>], part: &Span<'input>) -> Option<Step<'input>>
    ensures { result ≡ before_in trail.now part.now }
{
    step_at(trail, part.depth)
}
