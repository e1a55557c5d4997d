//! `Both ::= SEQUENCE { first A, second B }`, of any two types.
ghost use Rattle.std.specs.Prelude.{◌≡◌, IfOk, IfErr};
ghost use Rattle.rasn_de.specs.Decodes.{DecodesParts};
ghost use Rattle.rasn_enc.specs.Sequence.{EncodesParts};
ghost use Rattle.rasn_de.specs.Beyond.{Held};
ghost use Rattle.rasn_de.specs.PartTypes.{DecodesInParts};
ghost use Rattle.rasn_examples.specs.Both.{both_parts, both_tree, both_inside, both_part_errors};

use rasn::ber::de::Decoder;
use rasn::ber::enc::Encoder;
use rasn::de::Decode;
use rasn::enc::Encode;
use rasn::error::{DecodeError, EncodeError};
use rasn::types::{
    AsnType, Constraints, Constructed, Field, FieldPresence, Fields, Identifier, LawfulEq, Present,
    Tag,
};
use std::alloc::AllocError;

/// SEQUENCE { first A, second B }
#[derive(Debug, PartialEq, Eq, Drop)]
pub struct Both<A, B> {
    pub first: A,
    pub second: B,
}

impl<A: AsnType, B: AsnType> AsnType for Both<A, B> {
    ghost use Rattle.std.specs.Prelude.{refl};
    ghost use Rattle.rasn_types.specs.Tags.{in_universal};
    ghost use Rattle.rasn_types.specs.Trees.{unconstrained};
    ghost use Rattle.rasn_examples.specs.Both.{both_shape, both_tree};

    ghost TAG = { in_universal 16 };

    const TAG: Tag = Tag::SEQUENCE;

    ghost CONSTRAINTS = { unconstrained };

    const CONSTRAINTS: Constraints = Constraints::NONE;

    ghost shape = { both_shape A.shape B.shape };

    ghost tree = { both_tree A.tree B.tree };

    ghost own = { refl };
}

impl<A: LawfulEq, B: LawfulEq> LawfulEq for Both<A, B> {
    ghost use Rattle.rasn_types.specs.Deciding.{deciding};

    ghost decides = { Prim.search (A.decides, B.decides, deciding) depth 64 };
}

impl<A: AsnType, B: AsnType> Present for Both<A, B> {
    ghost use Rattle.rasn_types.specs.Equality.{parts_not_absent};

    ghost present = { λ _. parts_not_absent };
}

impl<A: AsnType, B: AsnType> Constructed<2, 0> for Both<A, B> {
    ghost use Rattle.std.specs.Prelude.{refl, true, false};
    ghost use Rattle.rasn_examples.specs.Both.{both_parts};

    const FIELDS: Fields<2> = Fields {
        fields: [
            Field {
                index: 0,
                tag: A::TAG,
                presence: FieldPresence::Required,
                name: "first",
            },
            Field {
                index: 1,
                tag: B::TAG,
                presence: FieldPresence::Required,
                name: "second",
            },
        ],
    };

    const EXTENDED_FIELDS: Option<Fields<0>> = None;

    ghost IS_EXTENSIBLE = { false };

    const IS_EXTENSIBLE: bool = false;

    ghost HAS_REQUIRED_FIELDS = { true };

    const HAS_REQUIRED_FIELDS: bool = true;

    ghost parts = { both_parts A.shape B.shape };

    ghost described = { refl };
}

impl<A: Decode, B: Decode> Decode for Both<A, B> {
    ghost use Rattle.std.specs.Prelude.{IfOk};
    ghost use Rattle.rasn_de.specs.Beyond.{Held};
    ghost use Rattle.rasn_examples.specs.Both.{both_beyond, both_errors};

    ghost beyond = { λ tag old result _. IfOk result (both_beyond (Held A.shape A.tree (A.beyond A.TAG)) (Held B.shape B.tree (B.beyond B.TAG)) tag old) };

    ghost errors = { λ tag _. both_errors A.shape B.shape A.tree B.tree (A.errors A.TAG A.CONSTRAINTS) (B.errors B.TAG B.CONSTRAINTS) tag };

    fn decode_with_tag_and_constraints(
        decoder: &mut Decoder<'_>,
        tag: Tag,
        _constraints: &Constraints,
    ) -> Result<Both<A, B>, DecodeError> {
        decoder.decode_sequence::<2, 0, Both<A, B>, _, _>(
            tag,
            Some(
                || -> Result<Both<A, B>, AllocError>
                    ensures { IfOk result (λ _. ⊥) }
                { Err(AllocError) },
            ),
            |decoder|
                ensures reads { DecodesParts (both_parts A.shape B.shape) (both_tree A.tree B.tree) decoder.old result decoder.new }
                ensures beyond { IfOk result (λ v. both_inside (Held A.shape A.tree (A.beyond A.TAG)) (Held B.shape B.tree (B.beyond B.TAG)) decoder.old v decoder.new) }
                ensures rules { IfErr result (λ e. e.codec ≡ decoder.old.rule) }
                ensures exact { DecodesInParts (both_parts A.shape B.shape) (both_tree A.tree B.tree) (both_part_errors A.shape B.shape (A.errors A.TAG A.CONSTRAINTS) (B.errors B.TAG B.CONSTRAINTS)) decoder.old result decoder.new }
            {
                let first = A::decode(decoder)?;
                let second = B::decode(decoder)?;
                Ok(Both { first, second })
            },
        )
    }
}

impl<A: Encode, B: Encode> Encode for Both<A, B> {
    fn encode_with_tag_and_constraints(
        &self,
        encoder: &mut Encoder,
        tag: Tag,
        _constraints: &Constraints,
        identifier: Identifier,
    ) -> Result<(), EncodeError> {
        encoder.encode_sequence::<2, 0, Both<A, B>, _>(
            tag,
            |inner: &mut Encoder| -> Result<(), EncodeError>
                ensures writes { EncodesParts (both_parts A.shape B.shape) (both_tree A.tree B.tree self.entry.now) inner.old result inner.new }
                ensures rules { IfErr result (λ e. e.codec ≡ inner.old.rule) }
            {
                self.first.encode(inner)?;
                self.second.encode(inner)
            },
            identifier,
        )
    }

    fn is_present(&self) -> bool {
        true
    }
}
