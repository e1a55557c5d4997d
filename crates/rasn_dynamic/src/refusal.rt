//! Why an input is refused, and where.
ghost use Rattle.std.specs.Prelude.{◌≡◌, [], true, option_copied, slice_get, MatchOption};
ghost use Rattle.std.specs.List.{flat_map};
ghost use Rattle.std.specs.Fmt.{WritesOnOk};
ghost use Rattle.rasn_dynamic.specs.Shown.{name_text, step_text, part_text, step_from, stays_first, bracketed, end_text, way_text};

use rasn_schema::{Schema, Type, TypeId, is_unknown_at, part_name, part_type, type_at};
use rasn_types::error::DecodeError;
use std::error::Error;
use std::fmt;

/// Why an input is refused, and where: the innermost value that can't be read.
///
/// It is shown as `byte 187: DER: ..`, and by [`Refusal::with_names`] as
/// `tbsCertificate.validity, byte 187: DER: ..`.
#[derive(Debug, Drop)]
pub struct Refusal {
    /// Why it is refused.
    pub error: DecodeError,
    /// Where the value begins, in octets from the start of the input: at its identifier octets.
    pub offset: usize,
    /// The number of its type.
    pub id: TypeId,
    /// The index of each part on the way to it, the outermost first: of a component, an alternative
    /// or an element, counted from 0. An explicit tag is a step of its own, with the index 0.
    pub steps: Vec<usize>,
    /// Whether the outer steps are missing, since memory ran out for them.
    pub is_cut: bool,
}

impl Refusal {
    /// Returns the refusal to be shown with the names of the components and alternatives on the
    /// way. `id` is the number of the type that was asked for.
    pub fn with_names<'a>(&'a self, schema: &'a Schema, id: TypeId) -> NamedRefusal<'a>
        ensures { (result.refusal.now ≡ self.now) × (result.schema.now ≡ schema.now) × (result.id ≡ id) × (result.inner.now ≡ []) }
    {
        NamedRefusal {
            schema,
            id,
            refusal: self,
            inner: &[],
        }
    }
}

/// The offset, and what is wrong.
impl fmt::Display for Refusal {
    ghost use Rattle.rasn_dynamic.specs.Shown.{shown_refusal};

    ghost output = { shown_refusal };

    fn fmt<W: fmt::Write>(&self, f: &mut fmt::Formatter<W>) -> fmt::Result {
        write!(f, "byte {}: {}", self.offset, self.error)
    }
}

impl Error for Refusal {}

/// A refusal that is shown with the names of a schema.
#[derive(Drop)]
pub struct NamedRefusal<'a> {
    /// The schema.
    pub schema: &'a Schema,
    /// The number of the type that was asked for.
    pub id: TypeId,
    /// The refusal.
    pub refusal: &'a Refusal,
    /// If it is one inside an open type: the index of each encoding on the way there.
    pub inner: &'a [usize],
}

/// The names, the indices on the way inside an open type in brackets, the offset, and what is
/// wrong.
impl fmt::Display for NamedRefusal<'_> {
    ghost use Rattle.rasn_dynamic.specs.Shown.{shown_named};

    ghost output = { shown_named };

    fn fmt<W: fmt::Write>(&self, f: &mut fmt::Formatter<W>) -> fmt::Result {
        if self.refusal.is_cut {
            return fmt::Display::fmt(self.refusal, f);
        }
        let steps = self.refusal.steps.as_slice();
        write_steps(f, self.schema.types(), self.id, steps, self.inner)?;
        fmt::Display::fmt(self.refusal, f)
    }
}

/// Returns the type with this number, and the number of the type of its part with this index.
fn step_from(types: &[Type], id: TypeId, index: usize) -> Option<(&Type, TypeId)>
    ensures { MatchOption result (step_from types.now id.0 index ≡ None) (λ s. step_from types.now id.0 index ≡ Some (s.0.now, s.1)) }
{
    let ty = type_at(types, id)?;
    Some((ty, part_type(ty, index)?))
}

/// Writes a name, after a point unless it is the first.
fn write_name<W: fmt::Write>(
    f: &mut fmt::Formatter<W>,
    name: Option<&str>,
    is_first: bool,
) -> fmt::Result
    ensures { WritesOnOk W.write_str_gives f.old result (name_text is_first (option_copied name.entry)) f.new }
{
    let Some(name) = name else {
        return Ok(());
    };
    if !is_first {
        f.write_str(".")?;
    }
    f.write_str(name)
}

/// Writes the step to the part with this index: its name, of an element its index in brackets, and
/// of what an explicit tag holds nothing.
fn write_step<W: fmt::Write>(
    f: &mut fmt::Formatter<W>,
    ty: &Type,
    index: usize,
    is_first: bool,
) -> fmt::Result
    ensures { WritesOnOk W.write_str_gives f.old result (step_text is_first ty.now index) f.new }
{
    match ty {
        Type::Tagged { .. } => Ok(()),
        Type::SequenceOf { .. } => write!(f, "[{index}]"),
        Type::SetOf { .. } => write!(f, "[{index}]"),
        _ => write_name(f, part_name(ty, index), is_first),
    }
}

/// Writes the same, or the index of unknown values in brackets.
fn write_part<W: fmt::Write>(
    f: &mut fmt::Formatter<W>,
    types: &[Type],
    ty: &Type,
    index: usize,
    next: TypeId,
    is_first: bool,
) -> fmt::Result
    ensures { WritesOnOk W.write_str_gives f.old result (part_text is_first ty.now index (slice_get types.now next.0)) f.new }
{
    if is_unknown_at(types, next) {
        return write!(f, "[{index}]");
    }
    write_step(f, ty, index, is_first)
}

/// Returns whether no name was written up to the part of a value of this type.
fn stays_first(is_first: bool, ty: &Type) -> bool
    ensures { result ≡ stays_first is_first ty.now }
{
    match ty {
        Type::Tagged { .. } => is_first,
        _ => false,
    }
}

/// Writes each index in brackets.
fn write_indices<W: fmt::Write>(f: &mut fmt::Formatter<W>, indices: &[usize]) -> fmt::Result
    ensures { WritesOnOk W.write_str_gives f.old result (flat_map bracketed indices.now) f.new }
{
    for index in indices {
        write!(f, "[{index}]")?;
    }
    Ok(())
}

/// Writes the inner indices, and a comma after them and the names, if there are some.
fn write_end<W: fmt::Write>(
    f: &mut fmt::Formatter<W>,
    is_first: bool,
    inner: &[usize],
) -> fmt::Result
    ensures { WritesOnOk W.write_str_gives f.old result (end_text inner.now is_first) f.new }
{
    write_indices(f, inner)?;
    let is_none = is_first && inner.is_empty();
    f.write_str(if is_none { "" } else { ", " })
}

/// Writes the steps from the type with this number and the inner indices, and a comma after them,
/// unless there are none.
fn write_steps<W: fmt::Write>(
    f: &mut fmt::Formatter<W>,
    types: &[Type],
    from: TypeId,
    steps: &[usize],
    inner: &[usize],
) -> fmt::Result
    ensures { WritesOnOk W.write_str_gives f.old result (way_text types.now inner.now true from.0 steps.now) f.new }
{
    let mut id = from;
    let mut is_first = true;
    for step in steps {
        let Some((ty, next)) = step_from(types, id, *step) else {
            return write_end(f, is_first, inner);
        };
        write_part(f, types, ty, *step, next, is_first)?;
        is_first = stays_first(is_first, ty);
        id = next;
    }
    write_end(f, is_first, inner)
}
