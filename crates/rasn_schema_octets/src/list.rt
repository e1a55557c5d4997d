//! Lists of parts of a schema.
ghost use Rattle.std.specs.Prelude.{map};
ghost use Rattle.rasn_schema_octets.specs.Mirrors.{MakesAll, FormsAll};
ghost use Rattle.rasn_schema_octets.specs.Shallow.{Every};

use crate::fault::Stop;
use crate::mirrored::Mirrored;
use rasn::types::AsnType;
use std::alloc::Global;

/// Returns the parts that were read.
///
/// # Errors
/// As of the first part that isn't one, with its index.
pub(crate) fn parts_of<F: AsnType, T: Mirrored<F>>(
    alloc: Global,
    forms: Vec<F>,
) -> Result<Vec<T>, Stop>
    ensures { MakesAll T.says T.is_shallow (map F.tree forms.items) result }
{
    let mut parts = Vec::with_capacity(alloc, forms.len())?;
    let mut coming = forms.into_iter();
    while let Some(form) = coming.next() {
        match T::from_form(alloc, form) {
            Ok(part) => parts.push(part)?,
            Err(stop) => return Err(T::placed(stop, parts.len())),
        }
    }
    Ok(parts)
}

/// Returns what is written of the parts.
///
/// # Errors
/// As of the first part that can't be written, with its index.
pub(crate) fn forms_of<F: AsnType, T: Mirrored<F>>(
    alloc: Global,
    parts: &[T],
) -> Result<Vec<F>, Stop>
    ensures { FormsAll F.tree (map T.says parts.now) (Every T.is_shallow parts.now) result }
{
    let mut forms = Vec::with_capacity(alloc, parts.len())?;
    for part in parts {
        match part.form(alloc) {
            Ok(form) => forms.push(form)?,
            Err(stop) => return Err(T::placed(stop, forms.len())),
        }
    }
    Ok(forms)
}
