//! Where octets that can't be read are damaged.
ghost use Rattle.std.specs.Prelude.{◌≡◌, ◌⊎◌, ◌≤◌, length};
ghost use Rattle.rasn_types.specs.declared.types.codec.Codec.TheVariants.{Der};
ghost use Rattle.rasn_types.specs.Errors.{IsOutOfMemory};
ghost use Rattle.rasn_schema_octets.specs.Octets.{HasError, IsNoValue, IsReadFault};
ghost use Rattle.rasn_schema_octets.specs.Stopped.{IsStopped};

use crate::entry::VERSION;
use crate::fault::{Part, ReadFault};
use crate::name::NameForm;
use crate::types::TypeForm;
use rasn::ber::de::{ConstructedHeader, DecoderOptions};
use rasn::error::DecodeError;
use rasn::types::{Codec, ContextTag, Implicit, Tag};
use rasn::{Decode, Decoder};
use rasn_schema::TypeId;
use std::alloc::Global;

/// Why reading octets stops.
enum Stopped {
    /// This part can't be read, which begins at this octet.
    At(Part, usize),
    /// They are of another version.
    Version(u32),
}

/// Returns why the octets aren't read, where the error is that of reading them.
pub(crate) fn read_fault(alloc: Global, octets: &[u8], error: DecodeError) -> ReadFault
    requires refused { IsOutOfMemory error.kind ⊎ IsNoValue octets.now }
    requires rules { error.codec ≡ Der }
    ensures fault { IsReadFault octets.now result }
    ensures error { HasError (λ e. e ≡ error) result }
{
    if error.is_out_of_memory() {
        return ReadFault::OutOfMemory;
    }
    match first_part(alloc, octets) {
        Stopped::At(part, offset) => ReadFault::Octets {
            part,
            offset,
            error,
        },
        Stopped::Version(version) => ReadFault::Version { version },
    }
}

/// Returns the first part that can't be read.
fn first_part(alloc: Global, octets: &[u8]) -> Stopped
    ensures { IsStopped (length octets.now) result }
{
    let mut decoder = Decoder::new(alloc, octets, DecoderOptions::of(Codec::Der));
    let Ok((mut inner, _)) = decoder.open(ConstructedHeader::sequence(Tag::SEQUENCE)) else {
        return Stopped::At(Part::Whole, 0);
    };
    let end = octets.len().saturating_sub(decoder.remaining().len());
    let begin = place(end, &inner);
    match u32::decode(&mut inner) {
        Ok(VERSION) => first_after_version(end, &mut inner),
        Ok(version) => Stopped::Version(version),
        Err(_) => Stopped::At(Part::Version, begin),
    }
}

/// Returns the first part after the version that can't be read.
fn first_after_version(end: usize, inner: &mut Decoder<'_>) -> Stopped
    ensures { IsStopped end result }
{
    let begin = place(end, inner);
    if usize::decode(inner).is_err() {
        return Stopped::At(Part::Root, begin);
    }
    let begin = place(end, inner);
    if usize::decode(inner).is_err() {
        return Stopped::At(Part::Unchecked, begin);
    }
    let begin = place(end, inner);
    if inner
        .decode_optional::<Implicit<ContextTag<0>, Vec<NameForm>>>()
        .is_err()
    {
        return Stopped::At(Part::Names, begin);
    }
    first_type(end, inner)
}

/// Returns the first type that can't be read.
fn first_type(end: usize, inner: &mut Decoder<'_>) -> Stopped
    ensures { IsStopped end result }
{
    let begin = place(end, inner);
    let Ok((mut types, _)) = inner.open(ConstructedHeader::list(Tag::SEQUENCE)) else {
        return Stopped::At(Part::Types, begin);
    };
    let after = place(end, inner);
    for index in 0..types.remaining().len() {
        if types.has_ended() {
            break;
        }
        let begin = place(after, &types);
        if TypeForm::decode(&mut types).is_err() {
            return Stopped::At(Part::Type(TypeId(index)), begin);
        }
    }
    Stopped::At(Part::End, after)
}

/// Returns the offset of what is next, where what the decoder reads ends at this offset.
fn place(end: usize, decoder: &Decoder<'_>) -> usize
    ensures { result ≤ end }
{
    end.saturating_sub(decoder.remaining().len())
}
