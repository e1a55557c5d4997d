//! Values of parts that are asked for by their paths.
ghost use Rattle.std.specs.Prelude.{◌≡◌, ◌≢◌, ◌⊎◌, IfOk, IfSome, OnOk};
ghost use Rattle.rasn_schema.specs.declared.value.Value.{Absent};
ghost use Rattle.rasn_schema.specs.declared.view.View.{View};
ghost use Rattle.rasn_print.specs.Queries.{IsStepTo, LeadTo, Holds, IsAskedFor, IsAmong};

use crate::command_line::Call;
use crate::printer::inside;
use rasn_dynamic::{Step, steps_of};
use rasn_schema::{Value, View};
use std::alloc::{AllocError, Global};

/// Returns the part of a value to which a path leads: from the value, or else from the outermost of
/// its parts from which the path leads anywhere, the first of these in the order of the message.
/// Returns `None` if there is none.
///
/// # Errors
/// `AllocError` if memory runs out.
pub(crate) fn part_at<'view, 'input>(
    alloc: Global,
    view: &View<'view, 'input>,
    path: &str,
) -> Result<Option<View<'view, 'input>>, AllocError>
    ensures { IfOk result (λ found. IfSome found (IsAskedFor view.now path.now)) }
{
    let Some(steps) = steps_of(alloc, path)? else {
        return Ok(None);
    };
    let mut views = Vec::new(alloc);
    views.push(view.schema.view(view.type_id, view.value))?;
    for next in 0..usize::MAX {
        let Some(view) = views.get(next) else {
            break;
        };
        if let Some(part) = part_after(view, steps.as_slice()) {
            return Ok(Some(part));
        }
        let view = view.schema.view(view.type_id, view.value);
        push_parts(&mut views, &view)?;
    }
    Ok(None)
}

/// Returns the part of a value to which a step leads.
fn part_by<'view, 'input>(
    view: &View<'view, 'input>,
    step: &Step<'_>,
) -> Option<View<'view, 'input>>
    ensures part { IfSome result (λ part. IsStepTo view.now.schema.now.types.items step.now view.now.type_id.0 view.now.value.now part.type_id part.value.now) }
    ensures schema { IfSome result (λ part. part.schema.now ≡ view.now.schema.now) }
{
    match step {
        Step::Name(name) => view.get(name),
        Step::Index(index) => view.at(*index),
    }
}

/// Returns the part of a value to which steps lead, if it is present.
fn part_after<'view, 'input>(
    view: &View<'view, 'input>,
    steps: &[Step<'_>],
) -> Option<View<'view, 'input>>
    ensures part { IfSome result (λ part. LeadTo view.now.schema.now.types.items steps.now view.now.type_id.0 view.now.value.now part.type_id.0 part.value.now) }
    ensures present { IfSome result (λ part. part.value.now ≢ Absent) }
    ensures schema { IfSome result (λ part. part.schema.now ≡ view.now.schema.now) }
{
    let mut part = view.schema.view(view.type_id, view.value);
    for step in steps {
        part = part_by(&part, step)?;
    }
    if matches!(part.value, Value::Absent) {
        None
    } else {
        Some(part)
    }
}

/// Appends the parts of a value that hold others, in their order.
fn push_parts<'view, 'input>(
    views: &mut Vec<View<'view, 'input>>,
    view: &View<'view, 'input>,
) -> Result<(), AllocError>
    ensures { OnOk result ((part : View) → IsAmong views.new.items part → IsAmong views.old.items part
        ⊎ ((part.schema.now ≡ view.now.schema.now) × Holds view.now.schema.now.types.items view.now.type_id.0 view.now.value.now part.type_id part.value.now)) }
{
    if let Value::Items(values) | Value::Elements(values) = view.value {
        for index in 0..values.len() {
            if let Some(part) = view.at(index) {
                push_part(views, part)?;
            }
        }
    } else if let Some((_, part)) = inside(view) {
        push_part(views, part)?;
    }
    Ok(())
}

/// Appends a part, if it holds others.
fn push_part<'view, 'input>(
    views: &mut Vec<View<'view, 'input>>,
    part: View<'view, 'input>,
) -> Result<(), AllocError>
    ensures { OnOk result ((view : View) → IsAmong views.new.items view → IsAmong views.old.items view ⊎ (view ≡ part.entry)) }
{
    match part.value {
        Value::Items(_) | Value::Elements(_) | Value::Chosen(_, _) => {
            views.push(part)?;
            Ok(())
        }
        Value::Boolean(_)
        | Value::Null
        | Value::Integer(_)
        | Value::Bits(_)
        | Value::Octets(_)
        | Value::Text(_)
        | Value::Units(_)
        | Value::Arcs(_)
        | Value::Instant(_)
        | Value::Day(_)
        | Value::Absent => Ok(()),
    }
}

/// Returns these cells of a row of a table, each after a tab or, if the call asks for it, after a
/// comma, and the end of the line.
///
/// # Errors
/// `AllocError` if memory runs out.
pub(crate) fn row_text(alloc: Global, call: &Call, cells: &[String]) -> Result<String, AllocError> {
    let mut row = String::new(alloc);
    for cell in cells {
        row.push(if call.is_csv { ',' } else { '\t' })?;
        row.push_str(cell_text(alloc, call, cell.as_str())?.as_str())?;
    }
    row.push('\n')?;
    Ok(row)
}

/// Returns a text without control characters as it is in a table: between commas in quotation marks
/// if it has one of these or a comma (RFC 4180 2).
///
/// # Errors
/// `AllocError` if memory runs out.
pub(crate) fn cell_text(alloc: Global, call: &Call, text: &str) -> Result<String, AllocError> {
    if !call.is_csv || !text.contains([',', '"'].as_slice()) {
        return String::from_str(alloc, text);
    }
    let doubled = text.replace(alloc, "\"", "\"\"")?;
    format!(in alloc; "\"{doubled}\"")
}
