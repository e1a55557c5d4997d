//! `Time ::= CHOICE { utcTime UTCTime, generalTime GeneralizedTime }` (RFC 5280, 4.1).

use rasn::error::{DecodeError, EncodeError};
use rasn::parts::{DecodeAlternatives, Last, OneOf};
use rasn::types::{
    AsnType, Constraints, FirstTags, GeneralizedTime, Identifier, LawfulEq, Present, Tag, UtcTime,
};
use rasn::{Decode, Decoder, Encode, Encoder};

/// CHOICE { utcTime UTCTime, generalTime GeneralizedTime }
#[derive(Debug, PartialEq, Eq, Drop)]
pub enum Time {
    Utc(UtcTime),
    General(GeneralizedTime),
}

impl AsnType for Time {
    ghost use Rattle.std.specs.Prelude.{refl};
    ghost use Rattle.rasn_types.specs.Tags.{eoc};
    ghost use Rattle.rasn_types.specs.Trees.{unconstrained};
    ghost use Rattle.rasn_examples.specs.Times.{time_shape, time_tree};

    ghost TAG = { eoc };

    const TAG: Tag = Tag::EOC;

    ghost CONSTRAINTS = { unconstrained };

    const CONSTRAINTS: Constraints = Constraints::NONE;

    ghost shape = { time_shape };

    ghost tree = { time_tree };

    ghost own = { refl };
}

/// The alternatives, as they are read.
type Times = OneOf<UtcTime, Last<GeneralizedTime>>;

impl FirstTags for Time {
    fn is_first_tag(tag: Tag) -> bool {
        <Times as DecodeAlternatives>::has_tag(tag)
    }
}

impl LawfulEq for Time {
    ghost use Rattle.rasn_types.specs.Equality.{choice_decided, alternative, instant_decided};
    ghost use Rattle.rasn_examples.specs.contracts.time.Time.{enum as time_enum};
    ghost use Rattle.rasn_examples.specs.Times.{time_tree};

    ghost decides = { choice_decided time_enum _ time_tree (alternative (λ x. x.0) instant_decided, (alternative (λ x. x.0) (λ s t. instant_decided s.moment t.moment), tt)) };
}

impl Present for Time {
    ghost use Rattle.rasn_examples.specs.Times.{time_not_absent};

    ghost present = { time_not_absent };
}

impl Decode for Time {
    ghost use Rattle.std.specs.Prelude.{◌≡◌, IfOk, IfErr, Err};
    ghost use Rattle.rasn_de.specs.Decodes.{Decodes};
    ghost use Rattle.rasn_de.specs.AlternativeTypes.{DecodesAlternative};
    ghost use Rattle.rasn_de.specs.ValueErrors.{IsErrorByTag};
    ghost use Rattle.rasn_examples.specs.Times.{time_alternatives, time_shape, time_tree, time_name, time_beyond};

    ghost beyond = { λ _ old result new. IfOk result (λ v. time_beyond old v new) };

    ghost errors = { λ _ _ old e new. DecodesAlternative time_alternatives time_tree time_name old (Err e) new × IsErrorByTag ⟦<Times as DecodeAlternatives>⟧.errors old e new };

    fn decode_with_tag_and_constraints(
        decoder: &mut Decoder<'_>,
        _tag: Tag,
        _constraints: &Constraints,
    ) -> Result<Time, DecodeError>
        ensures reads { Decodes time_shape time_tree decoder.old result decoder.new }
        ensures beyond { IfOk result (λ v. time_beyond decoder.old v decoder.new) }
        ensures rules { IfErr result (λ e. e.codec ≡ decoder.old.rule) }
        ensures fails { IfErr result (λ e. DecodesAlternative time_alternatives time_tree time_name decoder.old (Err e) decoder.new) }
        ensures errors { IfErr result (λ e. DecodesAlternative time_alternatives time_tree time_name decoder.old (Err e) decoder.new × IsErrorByTag ⟦<Times as DecodeAlternatives>⟧.errors decoder.old e decoder.new) }
    {
        match decoder.read_choice::<Times>("Time")? {
            OneOf::This(time) => Ok(Time::Utc(time)),
            OneOf::Other(Last(time)) => Ok(Time::General(time)),
        }
    }
}

/// The alternatives, as they are written.
type Alternatives<'a> = OneOf<&'a UtcTime, Last<&'a GeneralizedTime>>;

impl Encode for Time {
    fn encode_with_tag_and_constraints(
        &self,
        encoder: &mut Encoder,
        _tag: Tag,
        _constraints: &Constraints,
        _identifier: Identifier,
    ) -> Result<(), EncodeError> {
        match self {
            Time::Utc(time) => encoder.write_choice::<Alternatives<'_>>(OneOf::This(time)),
            Time::General(time) => {
                encoder.write_choice::<Alternatives<'_>>(OneOf::Other(Last(time)))
            }
        }
    }

    fn is_present(&self) -> bool {
        true
    }
}
