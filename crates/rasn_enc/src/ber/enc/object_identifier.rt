//! Writing OBJECT IDENTIFIER (X.690 8.19).
ghost use Rattle.std.specs.Prelude.{◌≡◌, ◌≢◌, ◌⊎◌, [], ◌∷◌, MatchOption, OnOk, OnErr, IfErr};
ghost use Rattle.rasn_types.specs.Errors.{IsEncodeOutOfMemory};
ghost use Rattle.rasn_types.specs.declared.types.codec.Codec.TheVariants.{Ber};
ghost use Rattle.rasn_enc.specs.ObjectIdentifier.{AreEncodable, AreSubidentifiers, AppendsContents, FailsAtArcs};
ghost use Rattle.rasn_enc.specs.Primitive.{IsAllocError};
ghost use Rattle.rasn_types.specs.Shapes.{object_identifier, numbers};
ghost use Rattle.rasn_enc.specs.Encoding.{AppendsLeaf};

use crate::ber::enc::writer::base_128::{count_groups, write_groups};
use crate::ber::enc::writer::contents::{Contents, append_contents};
use crate::ber::enc::{Encoder, out_of_memory};
use crate::enc::Encode;
use rasn_types::error::{BerEncodeErrorKind, CodecEncodeError, EncodeError, EncodeErrorKind};
use rasn_types::types::{Codec, Constraints, Identifier, ObjectIdentifier, Tag};
use std::alloc::{AllocError, Global};

/// Appends the contents octets of an object identifier (X.690 8.19) in the fewest octets.
///
/// # Errors
/// The errors are under `Codec::Ber`, and leave the vector unchanged: `InvalidObjectIdentifier` if
/// there are fewer than two arcs, if the first is above 2, if the first is below 2 and the second
/// above 39, or if the first is 2 and the second above 4294967215; `OutOfMemory` if an allocation
/// fails.
pub fn object_identifier_as_bytes(
    alloc: Global,
    oid: &[u32],
    buffer: &mut Vec<u8>,
) -> Result<(), EncodeError>
    ensures ok { OnOk result (AppendsContents oid.now buffer.old.items buffer.new.items) }
    ensures err { OnErr result (buffer.new.items ≡ buffer.old.items) }
    ensures fails { IfErr result (λ e. FailsAtArcs oid.now Ber e ⊎ IsAllocError Ber e) }
    ensures memory { IfErr result (λ e. IsEncodeOutOfMemory e.kind → oid.now ≢ []) }
{
    let Some(subidentifiers) = Subidentifiers::of_arcs(oid) else {
        return Err(refused_arcs(alloc, Codec::Ber, oid));
    };
    match append_contents(buffer, &subidentifiers) {
        Ok(()) => Ok(()),
        Err(_) => Err(out_of_memory(Codec::Ber)),
    }
}

/// The subidentifiers of arcs (X.690 8.19.4): the first one holds the first two arcs, and each
/// other one is a single arc.
#[derive(Clone, Copy, Drop)]
struct Subidentifiers<'a> {
    first: u32,
    others: &'a [u32],
}

impl<'a> Subidentifiers<'a> {
    /// Returns the subidentifiers of the arcs, or `None` if the arcs have no octets.
    fn of_arcs(arcs: &'a [u32]) -> Option<Subidentifiers<'a>>
        ensures { MatchOption result (AreEncodable arcs.now → ⊥) (λ s. AreEncodable arcs.now × AreSubidentifiers (s.first ∷ s.others.now) arcs.now) }
    {
        match arcs {
            [first, second, others @ ..] if *first < 2 && *second < 40 => Some(Subidentifiers {
                first: 40 * first + second,
                others,
            }),
            [2, second, others @ ..] => {
                let first = second.checked_add(80)?;
                Some(Subidentifiers { first, others })
            }
            _ => None,
        }
    }
}

/// The octets of the subidentifiers, one after the other, each in the fewest octets (X.690 8.19.2).
impl Contents for Subidentifiers<'_> {
    ghost use Rattle.std.specs.Prelude.{◌≡◌, ◌∷◌};
    ghost use Rattle.rasn_enc.specs.ObjectIdentifier.{subidentifier_octets};

    ghost IsWritten = { λ value l. l ≡ subidentifier_octets (value.first ∷ value.others.now) };

    #[inline(always)]
    fn count(&self) -> usize {
        let mut count = count_groups(self.first);
        let mut rest = self.others;
        while let [number, after @ ..] = rest {
            count += count_groups(*number);
            rest = after;
        }
        count
    }

    #[inline(always)]
    fn append(&self, octets: &mut Vec<u8>) -> Result<(), AllocError> {
        write_groups(octets, self.first);
        let mut rest = self.others;
        while let [number, after @ ..] = rest {
            write_groups(octets, *number);
            rest = after;
        }
        Ok(())
    }
}

/// Returns the error for arcs that have no octets, with a copy of the arcs, or `OutOfMemory` if the
/// copy can't be allocated.
fn refused_arcs(alloc: Global, codec: Codec, arcs: &[u32]) -> EncodeError
    requires { AreEncodable arcs.now → ⊥ }
    ensures fails { FailsAtArcs arcs.now codec result ⊎ IsAllocError codec result }
    ensures memory { IsEncodeOutOfMemory result.kind → arcs.now ≢ [] }
{
    let mut oid = Vec::new(alloc);
    match oid.extend_from_slice(arcs) {
        Ok(()) => EncodeError {
            kind: EncodeErrorKind::CodecSpecific {
                inner: CodecEncodeError::Ber(BerEncodeErrorKind::InvalidObjectIdentifier { oid }),
            },
            codec,
        },
        Err(_) => out_of_memory(codec),
    }
}

impl Encoder {
    /// Writes an OBJECT IDENTIFIER of these arcs (X.690 8.19) in the fewest octets.
    ///
    /// # Errors
    /// `InvalidObjectIdentifier` with a copy of the arcs if they have no octets; `OutOfMemory` if
    /// an allocation fails, including that of the copy.
    #[inline(always)]
    pub fn encode_object_identifier(
        &mut self,
        tag: Tag,
        value: &[u32],
        _identifier: Identifier,
    ) -> Result<(), EncodeError>
        ensures ok { AppendsLeaf object_identifier tag (numbers value.now) result self.old self.new }
        ensures err { OnErr result (self.new ≡ self.old) }
        ensures fails { IfErr result (λ e. FailsAtArcs value.now self.old.rule e ⊎ IsAllocError self.old.rule e) }
        ensures memory { IfErr result (λ e. IsEncodeOutOfMemory e.kind → value.now ≢ []) }
        ensures rules { IfErr result (λ e. e.codec ≡ self.old.rule) }
    {
        match Subidentifiers::of_arcs(value) {
            Some(subidentifiers) => self.leaf(tag, &subidentifiers),
            None => Err(refused_arcs(self.alloc(), self.codec(), value)),
        }
    }
}

impl Encode for ObjectIdentifier {
    ghost use Rattle.std.specs.Prelude.{◌⊎◌};
    ghost use Rattle.rasn_enc.specs.ObjectIdentifier.{FailsAtArcs};
    ghost use Rattle.rasn_enc.specs.Primitive.{IsAllocError};

    ghost errors = { λ tag c v rule e. FailsAtArcs v rule e ⊎ IsAllocError rule e };

    #[inline(always)]
    fn encode_with_tag_and_constraints(
        &self,
        encoder: &mut Encoder,
        tag: Tag,
        _constraints: &Constraints,
        identifier: Identifier,
    ) -> Result<(), EncodeError> {
        encoder.encode_object_identifier(tag, self.arcs(), identifier)
    }

    fn is_present(&self) -> bool {
        true
    }
}
