// Written by `soqavise generate` from the ASN.1 of LDAP: change that, and write it again.
//! `SaslCredentials ::= SEQUENCE`
use crate::LdapString;
use rasn::prelude::*;

/// `SaslCredentials ::= SEQUENCE`
#[derive(Debug, PartialEq, Eq, Drop)]
pub struct SaslCredentials {
    /// `mechanism LDAPString`
    pub mechanism: LdapString,
    /// `credentials OCTET STRING OPTIONAL`
    pub credentials: Option<OctetString>,
    /// `...`
    pub unknown: Unknown,
}

/// The components, as they are read.
type Parts = Required<LdapString, Parts1>;

type Parts1 = Optional<OctetString, Parts2>;

type Parts2 = Required<Unknown, End>;

impl AsnType for SaslCredentials {
    ghost use Rattle.std.specs.Prelude.{refl};
    ghost use Rattle.rasn_types.specs.Tags.{in_universal};
    ghost use Rattle.rasn_types.specs.Shapes.{seq};
    ghost use Rattle.rasn_types.specs.Trees.{unconstrained};

    ghost TAG = { in_universal 16 };

    const TAG: Tag = Tag::SEQUENCE;

    ghost CONSTRAINTS = { unconstrained };

    const CONSTRAINTS: Constraints = Constraints::NONE;

    ghost shape = { seq (in_universal 16) ⟦<Parts as DecodeParts>⟧.parts };

    ghost tree = { λ a. ⟦<Parts as DecodeParts>⟧.tree (record { 0 = a.mechanism; 1 = record { 0 = a.credentials; 1 = record { 0 = a.unknown; 1 = record {} } } }) };

    ghost own = { refl };
}

impl LawfulEq for SaslCredentials {
    ghost use Rattle.rasn_types.specs.Deciding.{deciding};

    ghost decides = { Prim.search deciding depth 64 };
}

impl Present for SaslCredentials {
    ghost use Rattle.rasn_types.specs.Equality.{parts_not_absent};

    ghost present = { λ _. parts_not_absent };
}

impl Decode for SaslCredentials {
    ghost use Rattle.rasn_de.specs.PartTypes.{DecodesSequenceParts};
    ghost use Rattle.rasn_de.specs.ValueErrors.{errors_of};

    ghost errors = { λ tag _. errors_of (DecodesSequenceParts ⟦<Parts as DecodeParts>⟧.parts ⟦<Parts as DecodeParts>⟧.tree ⟦<Parts as DecodeParts>⟧.errors tag) };

    fn decode_with_tag_and_constraints(
        decoder: &mut Decoder<'_>,
        tag: Tag,
        _constraints: &Constraints,
    ) -> Result<SaslCredentials, DecodeError> {
        let parts = match decoder.read_sequence::<Parts>(tag) {
            Ok(parts) => parts,
            Err(error) => return Err(error),
        };
        let Required(mechanism, rest) = parts;
        let Optional(credentials, rest) = rest;
        let Required(unknown, End) = rest;
        Ok(SaslCredentials {
            mechanism,
            credentials,
            unknown,
        })
    }
}

impl Encode for SaslCredentials {
    fn encode_with_tag_and_constraints(
        &self,
        encoder: &mut Encoder,
        tag: Tag,
        _constraints: &Constraints,
        _identifier: Identifier,
    ) -> Result<(), EncodeError> {
        let rest = Put(&self.unknown, End);
        let rest = PutOptional(&self.credentials, rest);
        encoder.write_sequence(tag, Put(&self.mechanism, rest))
    }

    fn is_present(&self) -> bool {
        true
    }
}
