//! Finds the departures of one part from DER.
ghost use Rattle.std.specs.Prelude.{◌≡◌, ◌++◌, OnOk, IfOk, List};
ghost use Rattle.rasn_lint.specs.Judged.{IsSiteAt, IsCopied, AreNoted, IsAnyRefusal, IsOpenFault, AreHeaderFaults, AreFaultsOf, AreListed};
ghost use Rattle.rasn_lint.specs.Header.{has_own_header};
ghost use Rattle.rasn_lint.specs.declared.departure.Departure.{Departure};

use crate::by_schema::OpenTypes;
use crate::departure::{Aspect, Departure};
use crate::der::encoding::decoder_of;
use crate::header::{form_fault, has_own_header, is_constructed, length_fault, tag_fault};
use crate::leaf::contents_fault;
use crate::place::{default_fault, order_fault};
use crate::trail::Step;
use rasn_dynamic::{Refusal, Span};
use rasn_schema::{Schema, Type, TypeId};
use rasn_types::error::DecodeError;
use rasn_types::types::Tag;
use std::alloc::{AllocError, Global};

/// The errors of a part.
#[derive(Drop)]
pub struct Faults {
    /// That it isn't where it has to be (X.690 10.3, 11.6).
    pub order: Option<DecodeError>,
    /// That it is a default (X.690 11.5).
    pub default: Option<DecodeError>,
    /// Of its tag number (X.690 8.1.2.4).
    pub tag: Option<DecodeError>,
    /// Of its constructed bit (X.690 8.1.2.5, 10.2).
    pub form: Option<DecodeError>,
    /// Of its length (X.690 10.1).
    pub length: Option<DecodeError>,
    /// The error in its contents octets.
    pub contents: Option<DecodeError>,
}

/// A part of a message, and the way to it.
#[derive(Clone, Copy)]
pub struct Way<'a, 'input> {
    /// The part.
    pub part: &'a Span<'input>,
    /// The index of each part on the way to it.
    pub path: &'a [usize],
    /// The number of octets of the message.
    pub len: usize,
}

/// Where something departs.
#[derive(Clone, Copy)]
pub struct Site<'a> {
    /// The place, in octets from the start of the message.
    pub offset: usize,
    /// The number of the type of the part.
    pub id: TypeId,
    /// The index of each part on the way to it.
    pub path: &'a [usize],
    /// In an open type, the index of each encoding on the way to the one that departs.
    pub inner: Option<&'a [usize]>,
}

/// Returns the site of a part, or of an encoding inside it, that begins `left` octets before the end
/// of the message.
pub fn site_at<'a>(way: Way<'a, '_>, left: usize, inner: Option<&'a [usize]>) -> Site<'a>
    ensures { IsSiteAt way.entry.len left way.entry.part.now way.entry.path.now inner.entry result }
{
    Site {
        offset: way.len.saturating_sub(left),
        id: way.part.id,
        path: way.path,
        inner,
    }
}

/// Returns the error with which DER refuses a value of an open type of any tag.
fn any_refusal(alloc: Global, octets: &[u8]) -> Option<DecodeError>
    ensures { IsAnyRefusal octets.now result }
{
    match decoder_of(alloc, octets).decode_open(Tag::EOC) {
        Ok(_) => None,
        Err(error) => Some(error),
    }
}

/// Returns the same if the type is open, unless open types are looked into: then it is found there.
fn open_fault(alloc: Global, opens: OpenTypes, ty: &Type, octets: &[u8]) -> Option<DecodeError>
    ensures { IsOpenFault opens ty.now octets.now result }
{
    match (ty, opens) {
        (Type::Any { .. }, OpenTypes::Unexamined) => any_refusal(alloc, octets),
        _ => None,
    }
}

/// The errors of a header.
#[derive(Drop)]
struct HeaderFaults {
    tag: Option<DecodeError>,
    form: Option<DecodeError>,
    length: Option<DecodeError>,
}

/// Returns the errors of the header of a value of this type.
fn header_faults(
    alloc: Global,
    opens: OpenTypes,
    ty: &Type,
    octets: &[u8],
) -> Result<HeaderFaults, AllocError>
    ensures { IfOk result (λ h. AreHeaderFaults (has_own_header ty.now) opens ty.now octets.now h.tag h.form h.length) }
{
    if !has_own_header(ty) {
        return Ok(HeaderFaults {
            tag: None,
            form: None,
            length: open_fault(alloc, opens, ty, octets),
        });
    }
    let length = length_fault(alloc, octets)?;
    Ok(HeaderFaults {
        tag: tag_fault(alloc, octets),
        form: form_fault(ty, is_constructed(octets)),
        length,
    })
}

/// Returns the errors of a part of this type. The trail leads to the part before it.
pub fn faults_of(
    alloc: Global,
    schema: &Schema,
    opens: OpenTypes,
    trail: &[Step<'_>],
    part: &Span<'_>,
    ty: &Type,
) -> Result<Faults, AllocError>
    ensures { IfOk result (AreFaultsOf opens schema.now.types.items trail.now part.now ty.now) }
{
    let default = default_fault(alloc, schema, trail, part)?;
    let contents = contents_fault(alloc, schema, part.id, ty, part.octets)?;
    let header = header_faults(alloc, opens, ty, part.octets)?;
    Ok(Faults {
        order: order_fault(alloc, schema.types(), trail, part),
        default,
        tag: header.tag,
        form: header.form,
        length: header.length,
        contents,
    })
}

/// Returns the same path, in memory of its own.
fn copied(alloc: Global, path: Option<&[usize]>) -> Result<Option<Vec<usize>>, AllocError>
    ensures { IfOk result (IsCopied path.entry) }
{
    match path {
        Some(path) => Ok(Some(Vec::from_slice(alloc, path)?)),
        None => Ok(None),
    }
}

/// Appends the departure at a site, if there is an error.
pub fn note(
    alloc: Global,
    list: &mut Vec<Departure>,
    site: Site<'_>,
    aspect: Aspect,
    fault: Option<DecodeError>,
) -> Result<(), AllocError>
    ensures { OnOk result ((ds : List Departure) × (list.new.items ≡ list.old.items ++ ds) × AreNoted site.entry aspect fault ds) }
{
    let Some(error) = fault else {
        return Ok(());
    };
    let steps = Vec::from_slice(alloc, site.path)?;
    let inner = copied(alloc, site.inner)?;
    list.push(Departure {
        refusal: Refusal {
            error,
            offset: site.offset,
            id: site.id,
            steps,
            is_cut: false,
        },
        aspect,
        inner,
    })?;
    Ok(())
}

/// Appends the departures at a site.
pub fn note_faults(
    alloc: Global,
    list: &mut Vec<Departure>,
    site: Site<'_>,
    faults: Faults,
) -> Result<(), AllocError>
    ensures { OnOk result ((ds : List Departure) × (list.new.items ≡ list.old.items ++ ds) × AreListed site.entry faults ds) }
{
    // The errors are handed on before one of the calls may end this one.
    let order = note(alloc, list, site, Aspect::Place, faults.order);
    let default = note(alloc, list, site, Aspect::Place, faults.default);
    let tag = note(alloc, list, site, Aspect::Header, faults.tag);
    let form = note(alloc, list, site, Aspect::Header, faults.form);
    let length = note(alloc, list, site, Aspect::Header, faults.length);
    let contents = note(alloc, list, site, Aspect::Contents, faults.contents);
    order?;
    default?;
    tag?;
    form?;
    length?;
    contents?;
    Ok(())
}
