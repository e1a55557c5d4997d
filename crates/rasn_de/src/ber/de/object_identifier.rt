//! OBJECT IDENTIFIER (X.690 8.19).
ghost use Rattle.std.specs.Prelude.{Err, ◌≡◌, IfErr};
ghost use Rattle.rasn_types.specs.Shapes.{leaf, object_identifier, numbers};
ghost use Rattle.rasn_types.specs.Trees.{unconstrained};
ghost use Rattle.rasn_types.specs.declared.types.codec.Codec.TheVariants.{Ber};
ghost use Rattle.rasn_types.specs.Errors.{IsOutOfMemory};
ghost use Rattle.rasn_de.specs.Decodes.{Decodes};
ghost use Rattle.rasn_de.specs.Checks.{Checks, ChecksBy};
ghost use Rattle.rasn_de.specs.ObjectIdentifier.{DecodesArcs, DecodesOnlyArcs, DecodesObjectIdentifier};

use crate::ber::de::Decoder;
use crate::ber::de::parser::object_identifier::{check_object_identifier, read_object_identifier};
use crate::de::Decode;
use rasn_types::error::DecodeError;
use rasn_types::types::{Codec, Constraints, ObjectIdentifier, Tag};

impl<'input> Decoder<'input> {
    /// Reads an OBJECT IDENTIFIER (X.690 8.19).
    ///
    /// # Errors
    /// A framing error. With the value consumed: `Incomplete` if octets of a subidentifier are
    /// missing, `UnsupportedObjectIdentifierArc` if one is 2^32 or more, under DER `NonMinimalArc`
    /// if one begins with the octet 80, whatever follows that octet, and `OutOfMemory`.
    #[inline(always)]
    pub fn decode_object_identifier(&mut self, tag: Tag) -> Result<ObjectIdentifier, DecodeError>
        ensures reads { Decodes (leaf object_identifier tag unconstrained) numbers self.old result self.new }
        ensures exact { DecodesObjectIdentifier tag self.old result self.new }
        ensures rules { IfErr result (λ e. e.codec ≡ self.old.rule) }
    {
        let rules = self.codec();
        let contents = self.contents(tag)?;
        self.object_identifier(rules, contents)
    }

    /// Checks and consumes an OBJECT IDENTIFIER without building a value. Nothing is allocated.
    ///
    /// # Errors
    /// As `decode_object_identifier`, except `OutOfMemory`.
    pub fn check_object_identifier(&mut self, tag: Tag) -> Result<(), DecodeError>
        ensures reads { Checks (leaf object_identifier tag unconstrained) self.old result self.new }
        ensures exact { ChecksBy (DecodesObjectIdentifier tag) self.old result self.new }
        ensures memory { IfErr result (λ e. IsOutOfMemory e.kind → ⊥) }
        ensures rules { IfErr result (λ e. e.codec ≡ self.old.rule) }
    {
        let rules = self.codec();
        let contents = self.contents(tag)?;
        match check_object_identifier(rules, contents) {
            Ok(()) => Ok(()),
            Err(fault) => Err(self.error(fault)),
        }
    }

    /// Returns the object identifier that contents octets encode under these rules.
    #[tactic(auto, using(crate::proofs::Leaves::ObjectIdentifier::arcs_told))]
    #[inline(always)]
    fn object_identifier(
        &self,
        rules: Codec,
        contents: &[u8],
    ) -> Result<ObjectIdentifier, DecodeError>
        ensures { DecodesArcs self.now.rule rules contents.now result }
    {
        match read_object_identifier(self.alloc(), rules, contents) {
            Ok(identifier) => Ok(identifier),
            Err(fault) => Err(self.error(fault)),
        }
    }

    /// Returns the object identifier that contents octets encode (X.690 8.19). They are read as
    /// under BER whatever the decoder's rules are, so that a subidentifier may begin with
    /// octets 80. The remaining input isn't changed.
    ///
    /// # Errors
    /// As `decode_object_identifier` under BER, except framing errors. The errors name the
    /// decoder's rules.
    #[tactic(auto, using(crate::proofs::Leaves::ObjectIdentifier::arcs_held))]
    pub fn decode_object_identifier_from_bytes(
        &self,
        contents: &[u8],
    ) -> Result<ObjectIdentifier, DecodeError>
        ensures reads { DecodesOnlyArcs contents.now result }
        ensures exact { DecodesArcs self.now.rule Ber contents.now result }
    {
        self.object_identifier(Codec::Ber, contents)
    }
}

impl Decode for ObjectIdentifier {
    ghost use Rattle.rasn_de.specs.ObjectIdentifier.{DecodesObjectIdentifier};
    ghost use Rattle.rasn_de.specs.ValueErrors.{errors_of};

    ghost errors = { λ tag c. errors_of (DecodesObjectIdentifier tag) };

    #[tactic(auto, unfolding(rasn_types::specs::Grammar::Reads))]
    #[inline(always)]
    fn decode_with_tag_and_constraints(
        decoder: &mut Decoder<'_>,
        tag: Tag,
        _constraints: &Constraints,
    ) -> Result<ObjectIdentifier, DecodeError> {
        decoder.decode_object_identifier(tag)
    }
}
