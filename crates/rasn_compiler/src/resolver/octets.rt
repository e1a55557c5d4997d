//! The octets of values by DER, which are those of open types (X.690 8.15).
use crate::fault::Halt;
use crate::resolver::components::{Seen, count_roots};
use crate::resolver::field::automatic_tag;
use crate::resolver::included::Listed;
use crate::resolver::leaf::{Plain, plain_type, universal};
use crate::resolver::node::{Place, Unfolded, Use};
use crate::resolver::shape::{Resolver, is_open, is_untagged, own_tag};
use crate::resolver::value::{Member, Spelled, member_named};
use crate::tree::{Base, Builtin, Component, Presence, TypeIndex};
use crate::types::Within;
use rasn_enc::ber::enc::{Encoder, EncoderOptions, object_identifier_as_bytes};
use rasn_schema::Value;
use rasn_types::error::EncodeError;
use rasn_types::types::{BitStr, Tag};
use std::alloc::{AllocError, Global};

/// The value of a component, and the one that it has where it is absent.
#[derive(Clone, Copy)]
struct Valued<'text> {
    of: Use,
    value: Spelled<'text>,
    default: Option<Spelled<'text>>,
}

impl<'modules, 'text> Resolver<'modules, 'text> {
    /// Returns the octets of a value of a type, in which others may be nested so deep, and so many
    /// are left.
    #[cycle(octets)]
    pub(crate) fn octets_of(
        &mut self,
        of: Use,
        spelled: &Spelled<'text>,
        depth: usize,
        left: &mut usize,
    ) -> Result<Vec<u8>, Halt<'text>> {
        let depth = self.deeper(spelled, depth, left)?;
        self.step(1, spelled.place, spelled.position)?;
        let unfolded = self.unfold(of)?;
        let at = unfolded.place;
        let modules = self.modules;
        let written = modules.type_at(at.module, unfolded.index)?;
        let octets = match &written.base {
            Base::Sequence(list) => {
                let contents = self.member_octets(at, list.as_slice(), spelled, depth, left)?;
                constructed(self.alloc, own_tag(&unfolded, 16), contents.as_slice())?
            }
            Base::SequenceOf(list) => {
                let contents = self.element_octets(at, list.element, spelled, depth, left)?;
                constructed(self.alloc, own_tag(&unfolded, 16), contents.as_slice())?
            }
            Base::Choice(list) => self.chosen_octets(at, list.as_slice(), spelled, depth, left)?,
            base if is_open(base) => self.open_octets(spelled, depth, left)?,
            base => self.simple_octets(at, base, unfolded.tags.implicit, spelled)?,
        };
        Ok(within_tags(self.alloc, &unfolded, is_untagged(written), octets)?)
    }

    /// Returns the octets of the components of a SEQUENCE (X.690 8.9).
    #[cycle(octets)]
    fn member_octets(
        &mut self,
        at: Place,
        list: &[Component<'text>],
        spelled: &Spelled<'text>,
        depth: usize,
        left: &mut usize,
    ) -> Result<Vec<u8>, Halt<'text>> {
        let mut octets = Vec::new(self.alloc);
        for valued in &self.valued(at, list, spelled, left)? {
            let found = self.valued_octets(valued, depth, left)?;
            octets.extend_from_slice(found.as_slice())?;
        }
        Ok(octets)
    }

    /// Returns the octets of the value of a component: none if it is the one that it has where it is
    /// absent (X.690 11.5).
    #[cycle(octets)]
    fn valued_octets(
        &mut self,
        valued: &Valued<'text>,
        depth: usize,
        left: &mut usize,
    ) -> Result<Vec<u8>, Halt<'text>> {
        let found = self.octets_of(valued.of, &valued.value, depth, left)?;
        let Some(default) = &valued.default else {
            return Ok(found);
        };
        let other = self.octets_of(valued.of, default, depth, left)?;
        if other.as_slice() == found.as_slice() {
            Ok(Vec::new(self.alloc))
        } else {
            Ok(found)
        }
    }

    /// Returns the octets of the elements of a SEQUENCE OF (X.690 8.10).
    #[cycle(octets)]
    fn element_octets(
        &mut self,
        at: Place,
        of: TypeIndex,
        spelled: &Spelled<'text>,
        depth: usize,
        left: &mut usize,
    ) -> Result<Vec<u8>, Halt<'text>> {
        let mut octets = Vec::new(self.alloc);
        for element in &self.listed_values(spelled)? {
            let found = self.octets_of(Use::of(at, of.0), element, depth, left)?;
            octets.extend_from_slice(found.as_slice())?;
        }
        Ok(octets)
    }

    /// Returns the octets of the chosen alternative (X.690 8.13).
    #[cycle(octets)]
    fn chosen_octets(
        &mut self,
        at: Place,
        list: &[Component<'text>],
        spelled: &Spelled<'text>,
        depth: usize,
        left: &mut usize,
    ) -> Result<Vec<u8>, Halt<'text>> {
        let (index, of, value) = self.choice(list, spelled)?;
        let of = Use {
            automatic: automatic_tag(self.is_automatic(at, list)?, index),
            ..Use::of(at, of.0)
        };
        self.octets_of(of, &value, depth, left)
    }
}

impl<'modules, 'text> Resolver<'modules, 'text> {
    /// Returns the components of a SEQUENCE for which a value is written.
    fn valued(
        &mut self,
        at: Place,
        list: &[Component<'text>],
        spelled: &Spelled<'text>,
        left: &mut usize,
    ) -> Result<Vec<Valued<'text>>, Halt<'text>> {
        let is_automatic = self.is_automatic(at, list)?;
        let listed = self.listed(at, list, Within::Sequence, is_automatic)?;
        let members = self.members_of(listed.as_slice(), spelled, left)?;
        let roots = count_roots(listed.as_slice());
        let mut seen = Seen::new(self.alloc, Within::Sequence, is_automatic, roots);
        let mut found = Vec::new(self.alloc);
        for listed in &listed {
            match valued_for(listed, members.as_slice(), &mut seen) {
                Ok(Some(valued)) => found.push(valued)?,
                Ok(None) => {}
                Err(Missing) => return Err(self.misfit(spelled)),
            }
        }
        Ok(found)
    }

    /// Returns the octets of a value of a type that holds no others, whose universal tag this one
    /// replaces.
    pub(crate) fn simple_octets(
        &mut self,
        at: Place,
        base: &Base<'text>,
        tag: Option<Tag>,
        spelled: &Spelled<'text>,
    ) -> Result<Vec<u8>, Halt<'text>> {
        let Some(number) = number_of(base) else {
            return Err(self.unsupported_default(spelled));
        };
        let value = self.simple_value(at, base, spelled)?;
        match contents_of(self.alloc, &value)? {
            Some(contents) => {
                let tag = tag.unwrap_or(universal(number));
                Ok(primitive(self.alloc, tag, contents.as_slice())?)
            }
            None => Err(self.unsupported_default(spelled)),
        }
    }
}

/// Says that a value has nothing for a component that it must have.
struct Missing;

/// Returns the value that is written for a component of a list, of which so many were seen. A marker
/// has none.
fn valued_for<'text>(
    listed: &Listed<'text>,
    members: &[Member<'text>],
    seen: &mut Seen<'text>,
) -> Result<Option<Valued<'text>>, Missing> {
    let Component::Named {
        name,
        of,
        presence,
        ..
    } = listed.component
    else {
        seen.add_marker();
        return Ok(None);
    };
    let is_needed = matches!(presence, Presence::Required) && !seen.is_addition();
    let automatic = seen.count();
    let place = listed.place;
    match member_named(members, name) {
        Some(value) => Ok(Some(Valued {
            of: Use {
                automatic,
                ..Use::of(place, of.0)
            },
            value,
            default: Spelled::default(place, presence),
        })),
        None if is_needed => Err(Missing),
        None => Ok(None),
    }
}

/// Returns the number of the universal tag of a type, if it holds no others and its characters have
/// one octet each or are in UTF-8.
fn number_of(base: &Base<'_>) -> Option<u32> {
    match base {
        Base::Integer(_) => Some(2),
        Base::BitString(_) => Some(3),
        Base::Enumerated(_) => Some(10),
        Base::Builtin(Builtin::UniversalString) => None,
        Base::Builtin(builtin) => match plain_type(*builtin) {
            Plain::Leaf(kind) => Some(kind.names().number),
            Plain::Octets(number) | Plain::Unparsed(_, number) => Some(number),
            Plain::Unseen(_) | Plain::Open => None,
        },
        _ => None,
    }
}

/// Returns the contents octets of a value that holds no others, if they are those of its octets.
fn contents_of(alloc: Global, value: &Value<'_>) -> Result<Option<Vec<u8>>, AllocError> {
    match value {
        Value::Boolean(truth) => octets_in(alloc, &[if *truth { 0xFF } else { 0 }]),
        Value::Null => octets_in(alloc, &[]),
        Value::Integer(number) => octets_in(alloc, number.as_octets()),
        Value::Octets(octets) => octets_in(alloc, octets.as_slice()),
        Value::Text(text) => octets_in(alloc, text.as_str().as_bytes()),
        Value::Bits(bits) => Ok(Some(bits_in(alloc, &bits.as_bitstr())?)),
        Value::Arcs(identifier) => arcs_in(alloc, identifier.arcs()),
        Value::Units(_)
        | Value::Instant(_)
        | Value::Day(_)
        | Value::Items(_)
        | Value::Elements(_)
        | Value::Chosen(_, _)
        | Value::Absent => Ok(None),
    }
}

fn octets_in(alloc: Global, octets: &[u8]) -> Result<Option<Vec<u8>>, AllocError> {
    Ok(Some(Vec::from_slice(alloc, octets)?))
}

/// Returns how many bits of the last octet are unused, and the octets (X.690 8.6.2).
fn bits_in(alloc: Global, bits: &BitStr<'_>) -> Result<Vec<u8>, AllocError> {
    let mut octets = Vec::new(alloc);
    octets.push(bits.unused())?;
    bits.append_to(&mut octets)?;
    Ok(octets)
}

/// Returns the contents octets of an OBJECT IDENTIFIER, if it has some (X.690 8.19).
fn arcs_in(alloc: Global, arcs: &[u32]) -> Result<Option<Vec<u8>>, AllocError> {
    let mut octets = Vec::new(alloc);
    match object_identifier_as_bytes(alloc, arcs, &mut octets) {
        Ok(()) => Ok(Some(octets)),
        Err(error) if error.is_out_of_memory() => Err(AllocError),
        Err(_) => Ok(None),
    }
}

/// Returns the octets of a value within the explicit tags of its type, and within an implicit one
/// that it has no tag for (X.680 31.2.7).
fn within_tags(
    alloc: Global,
    unfolded: &Unfolded<'_>,
    is_untagged: bool,
    octets: Vec<u8>,
) -> Result<Vec<u8>, AllocError> {
    let mut octets = octets;
    if is_untagged {
        if let Some(tag) = unfolded.tags.implicit {
            octets = constructed(alloc, tag, octets.as_slice())?;
        }
    }
    for tag in unfolded.tags.explicit.iter().rev() {
        octets = constructed(alloc, *tag, octets.as_slice())?;
    }
    Ok(octets)
}

/// Returns a primitive value with these contents octets.
fn primitive(alloc: Global, tag: Tag, contents: &[u8]) -> Result<Vec<u8>, AllocError> {
    let mut encoder = Encoder::over(alloc, EncoderOptions::der(), Vec::new(alloc));
    let outcome = encoder.encode_contents(tag, contents);
    output_of(encoder, outcome)
}

/// Returns a constructed value with these contents octets.
fn constructed(alloc: Global, tag: Tag, contents: &[u8]) -> Result<Vec<u8>, AllocError> {
    let mut encoder = Encoder::over(alloc, EncoderOptions::der(), Vec::new(alloc));
    let outcome = if contents.is_empty() {
        without_contents(&mut encoder, tag)
    } else {
        encoder.encode_open(tag, contents)
    };
    output_of(encoder, outcome)
}

/// Writes a constructed value without contents octets.
fn without_contents(encoder: &mut Encoder, tag: Tag) -> Result<(), EncodeError> {
    encoder.open(false)?;
    encoder.close(tag, Ok(()))
}

/// Returns what was written. Only memory may have run out.
fn output_of(encoder: Encoder, outcome: Result<(), EncodeError>) -> Result<Vec<u8>, AllocError> {
    if outcome.is_err() {
        return Err(AllocError);
    }
    match encoder.output() {
        Ok(octets) => Ok(octets),
        Err(_) => Err(AllocError),
    }
}
