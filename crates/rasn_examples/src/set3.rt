//! `Set3 ::= SET { zero [0] IMPLICIT INTEGER (0..255), one [1] IMPLICIT INTEGER (0..255), two [2]
//! IMPLICIT INTEGER (0..255) }`
use rasn::error::{DecodeError, EncodeError};
use rasn::parts::{DecodeSetParts, End, Put, Required};
use rasn::types::{
    AsnType, Class, Constraints, Constructed, ContextTag, Field, FieldPresence, Fields, Identifier,
    Implicit, LawfulEq, Present, Tag,
};
use rasn::{Decode, Decoder, Encode, Encoder};

const ZERO: Tag = Tag {
    class: Class::Context,
    value: 0,
};

const ONE: Tag = Tag {
    class: Class::Context,
    value: 1,
};

const TWO: Tag = Tag {
    class: Class::Context,
    value: 2,
};

/// \[N\] INTEGER (0..255)
type At<const N: u32> = Implicit<ContextTag<N>, u8>;

type Components = Required<At<0>, Required<At<1>, Required<At<2>, End>>>;

/// SET { zero \[0\] INTEGER (0..255), one \[1\] INTEGER (0..255), two \[2\] INTEGER (0..255) },
/// with implicit tags.
#[derive(Debug, PartialEq, Eq, Drop)]
pub struct Set3 {
    pub zero: u8,
    pub one: u8,
    pub two: u8,
}

impl AsnType for Set3 {
    ghost use Rattle.std.specs.Prelude.{refl};
    ghost use Rattle.rasn_types.specs.Tags.{in_universal};
    ghost use Rattle.rasn_types.specs.Trees.{unconstrained};
    ghost use Rattle.rasn_examples.specs.Set3.{set3_shape, set3_tree};

    ghost TAG = { in_universal 17 };

    const TAG: Tag = Tag::SET;

    ghost CONSTRAINTS = { unconstrained };

    const CONSTRAINTS: Constraints = Constraints::NONE;

    ghost shape = { set3_shape };

    ghost tree = { set3_tree };

    ghost own = { refl };
}

impl LawfulEq for Set3 {
    ghost use Rattle.rasn_types.specs.Deciding.{deciding};

    ghost decides = { Prim.search deciding depth 64 };
}

impl Present for Set3 {
    ghost use Rattle.rasn_types.specs.Equality.{parts_not_absent};

    ghost present = { λ _. parts_not_absent };
}

impl Constructed<3, 0> for Set3 {
    ghost use Rattle.std.specs.Prelude.{refl, true, false};
    ghost use Rattle.rasn_examples.specs.Set3.{set3_parts};

    const FIELDS: Fields<3> = Fields {
        fields: [
            Field {
                index: 0,
                tag: ZERO,
                presence: FieldPresence::Required,
                name: "zero",
            },
            Field {
                index: 1,
                tag: ONE,
                presence: FieldPresence::Required,
                name: "one",
            },
            Field {
                index: 2,
                tag: TWO,
                presence: FieldPresence::Required,
                name: "two",
            },
        ],
    };

    const EXTENDED_FIELDS: Option<Fields<0>> = None;

    ghost IS_EXTENSIBLE = { false };

    const IS_EXTENSIBLE: bool = false;

    ghost HAS_REQUIRED_FIELDS = { true };

    const HAS_REQUIRED_FIELDS: bool = true;

    ghost parts = { set3_parts };

    ghost described = { refl };
}

impl Decode for Set3 {
    ghost use Rattle.std.specs.Prelude.{[], ◌∷◌, codes};
    ghost use Rattle.rasn_de.specs.SetPartTypes.{DecodesNamedParts};
    ghost use Rattle.rasn_de.specs.ValueErrors.{errors_of};

    ghost errors = { λ tag _. errors_of (DecodesNamedParts ⟦<Components as DecodeSetParts>⟧.extensible ⟦<Components as DecodeSetParts>⟧.parts ⟦<Components as DecodeSetParts>⟧.tree (codes "Set3") (codes "zero" ∷ codes "one" ∷ codes "two" ∷ []) ⟦<Components as DecodeSetParts>⟧.errors tag) };

    fn decode_with_tag_and_constraints(
        decoder: &mut Decoder<'_>,
        tag: Tag,
        _constraints: &Constraints,
    ) -> Result<Set3, DecodeError> {
        let parts = match decoder.read_set::<Components>(tag, "Set3", &["zero", "one", "two"]) {
            Ok(parts) => parts,
            Err(error) => return Err(error),
        };
        let Required(zero, Required(one, Required(two, End))) = parts;
        Ok(Set3 {
            zero: *zero,
            one: *one,
            two: *two,
        })
    }
}

impl Encode for Set3 {
    fn encode_with_tag_and_constraints(
        &self,
        encoder: &mut Encoder,
        tag: Tag,
        _constraints: &Constraints,
        _identifier: Identifier,
    ) -> Result<(), EncodeError> {
        let zero: At<0> = Implicit::new(self.zero);
        let one: At<1> = Implicit::new(self.one);
        let two: At<2> = Implicit::new(self.two);
        encoder.write_set(tag, Put(&zero, Put(&one, Put(&two, End))))
    }

    fn is_present(&self) -> bool {
        true
    }
}
