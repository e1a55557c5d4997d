// Written by `soqavise generate` from the ASN.1 of SNMP: change that, and write it again.
//! `VarBindValue ::= CHOICE`
use crate::{
    Counter32, Counter64, IpAddress, Opaque, SimpleSyntaxStringValue, TimeTicks, Unsigned32,
};
use rasn::parts::OneOf::{Other, This};
use rasn::prelude::*;

/// `VarBindValue ::= CHOICE`
///
/// An alternative that is a CHOICE is written as its alternatives: `simple`, `application-wide`.
#[derive(Debug, PartialEq, Eq, Drop)]
pub enum VarBindValue {
    /// `integer-value INTEGER (-2147483648..2147483647)`
    IntegerValue(i32),
    /// `string-value SimpleSyntax-string-value`
    StringValue(SimpleSyntaxStringValue),
    /// `objectID-value OBJECT IDENTIFIER`
    ObjectIdValue(ObjectIdentifier),
    /// `ipAddress-value IpAddress`
    IpAddressValue(IpAddress),
    /// `counter-value Counter32`
    CounterValue(Counter32),
    /// `timeticks-value TimeTicks`
    TimeticksValue(TimeTicks),
    /// `arbitrary-value Opaque`
    ArbitraryValue(Opaque),
    /// `big-counter-value Counter64`
    BigCounterValue(Counter64),
    /// `unsigned-integer-value Unsigned32`
    UnsignedIntegerValue(Unsigned32),
    /// `unSpecified NULL`
    UnSpecified(()),
    /// `noSuchObject [0] IMPLICIT NULL`
    NoSuchObject(Implicit<ContextTag<0>, ()>),
    /// `noSuchInstance [1] IMPLICIT NULL`
    NoSuchInstance(Implicit<ContextTag<1>, ()>),
    /// `endOfMibView [2] IMPLICIT NULL`
    EndOfMibView(Implicit<ContextTag<2>, ()>),
}

/// The alternatives, as they are read.
type Alternatives = OneOf<i32, Alternatives1>;

type Alternatives1 = OneOf<SimpleSyntaxStringValue, Alternatives2>;

type Alternatives2 = OneOf<ObjectIdentifier, Alternatives3>;

type Alternatives3 = OneOf<IpAddress, Alternatives4>;

type Alternatives4 = OneOf<Counter32, Alternatives5>;

type Alternatives5 = OneOf<TimeTicks, Alternatives6>;

type Alternatives6 = OneOf<Opaque, Alternatives7>;

type Alternatives7 = OneOf<Counter64, Alternatives8>;

type Alternatives8 = OneOf<Unsigned32, Alternatives9>;

type Alternatives9 = OneOf<(), Alternatives10>;

type Alternatives10 = OneOf<Implicit<ContextTag<0>, ()>, Alternatives11>;

type Alternatives11 = OneOf<Implicit<ContextTag<1>, ()>, Alternatives12>;

type Alternatives12 = Last<Implicit<ContextTag<2>, ()>>;

impl AsnType for VarBindValue {
    ghost use Rattle.std.specs.Prelude.{refl};
    ghost use Rattle.rasn_types.specs.Shapes.{choice, chosen};
    ghost use Rattle.rasn_types.specs.Tags.{eoc};
    ghost use Rattle.rasn_types.specs.Trees.{unconstrained};
    ghost use Rattle.rasn_snmp.specs.declared.var_bind_value.VarBindValue.TheVariants.{IntegerValue, StringValue, ObjectIdValue, IpAddressValue, CounterValue, TimeticksValue, ArbitraryValue, BigCounterValue, UnsignedIntegerValue, UnSpecified, NoSuchObject, NoSuchInstance, EndOfMibView};

    ghost TAG = { eoc };

    const TAG: Tag = Tag::EOC;

    ghost CONSTRAINTS = { unconstrained };

    const CONSTRAINTS: Constraints = Constraints::NONE;

    ghost shape = { choice ⟦<Alternatives as DecodeAlternatives>⟧.parts };

    ghost tree = { elim [ IntegerValue x ↦ chosen 0 (⟦<i32 as AsnType>⟧.tree x) | StringValue x ↦ chosen 1 (⟦<SimpleSyntaxStringValue as AsnType>⟧.tree x) | ObjectIdValue x ↦ chosen 2 (⟦<ObjectIdentifier as AsnType>⟧.tree x) | IpAddressValue x ↦ chosen 3 (⟦<IpAddress as AsnType>⟧.tree x) | CounterValue x ↦ chosen 4 (⟦<Counter32 as AsnType>⟧.tree x) | TimeticksValue x ↦ chosen 5 (⟦<TimeTicks as AsnType>⟧.tree x) | ArbitraryValue x ↦ chosen 6 (⟦<Opaque as AsnType>⟧.tree x) | BigCounterValue x ↦ chosen 7 (⟦<Counter64 as AsnType>⟧.tree x) | UnsignedIntegerValue x ↦ chosen 8 (⟦<Unsigned32 as AsnType>⟧.tree x) | UnSpecified x ↦ chosen 9 (⟦<() as AsnType>⟧.tree x) | NoSuchObject x ↦ chosen 10 (⟦<Implicit<ContextTag<0>, ()> as AsnType>⟧.tree x) | NoSuchInstance x ↦ chosen 11 (⟦<Implicit<ContextTag<1>, ()> as AsnType>⟧.tree x) | EndOfMibView x ↦ chosen 12 (⟦<Implicit<ContextTag<2>, ()> as AsnType>⟧.tree x) ] };

    ghost own = { refl };
}

impl LawfulEq for VarBindValue {
    ghost use Rattle.rasn_types.specs.Deciding.{deciding};
    ghost use Rattle.rasn_types.specs.Equality.{choice_decided, alternative};
    ghost use Rattle.rasn_snmp.specs.contracts.var_bind_value.VarBindValue.{enum as own_enum};
    ghost use Rattle.rasn_snmp.specs.contracts.ip_address.IpAddressLawfulEq.TheImpl.Laws.{decides-law as ip_address_law};
    ghost use Rattle.rasn_snmp.specs.contracts.simple_syntax_string_value.SimpleSyntaxStringValueLawfulEq.TheImpl.Laws.{decides-law as simple_syntax_string_value_law};

    ghost decides = { choice_decided own_enum _ _ (alternative (λ x. x.0) (Prim.search (ip_address_law, simple_syntax_string_value_law, deciding) depth 64), (alternative (λ x. x.0) (Prim.search (ip_address_law, simple_syntax_string_value_law, deciding) depth 64), (alternative (λ x. x.0) (Prim.search (ip_address_law, simple_syntax_string_value_law, deciding) depth 64), (alternative (λ x. x.0) (Prim.search (ip_address_law, simple_syntax_string_value_law, deciding) depth 64), (alternative (λ x. x.0) (Prim.search (ip_address_law, simple_syntax_string_value_law, deciding) depth 64), (alternative (λ x. x.0) (Prim.search (ip_address_law, simple_syntax_string_value_law, deciding) depth 64), (alternative (λ x. x.0) (Prim.search (ip_address_law, simple_syntax_string_value_law, deciding) depth 64), (alternative (λ x. x.0) (Prim.search (ip_address_law, simple_syntax_string_value_law, deciding) depth 64), (alternative (λ x. x.0) (Prim.search (ip_address_law, simple_syntax_string_value_law, deciding) depth 64), (alternative (λ x. x.0) (Prim.search (ip_address_law, simple_syntax_string_value_law, deciding) depth 64), (alternative (λ x. x.0) (Prim.search (ip_address_law, simple_syntax_string_value_law, deciding) depth 64), (alternative (λ x. x.0) (Prim.search (ip_address_law, simple_syntax_string_value_law, deciding) depth 64), (alternative (λ x. x.0) (Prim.search (ip_address_law, simple_syntax_string_value_law, deciding) depth 64), tt))))))))))))) };
}

impl Present for VarBindValue {
    ghost use Rattle.rasn_types.specs.Equality.{chosen_not_absent};
    ghost use Rattle.rasn_snmp.specs.declared.var_bind_value.VarBindValue.TheVariants.{IntegerValue, StringValue, ObjectIdValue, IpAddressValue, CounterValue, TimeticksValue, ArbitraryValue, BigCounterValue, UnsignedIntegerValue, UnSpecified, NoSuchObject, NoSuchInstance, EndOfMibView};

    ghost present = { elim [ IntegerValue x ↦ chosen_not_absent | StringValue x ↦ chosen_not_absent | ObjectIdValue x ↦ chosen_not_absent | IpAddressValue x ↦ chosen_not_absent | CounterValue x ↦ chosen_not_absent | TimeticksValue x ↦ chosen_not_absent | ArbitraryValue x ↦ chosen_not_absent | BigCounterValue x ↦ chosen_not_absent | UnsignedIntegerValue x ↦ chosen_not_absent | UnSpecified x ↦ chosen_not_absent | NoSuchObject x ↦ chosen_not_absent | NoSuchInstance x ↦ chosen_not_absent | EndOfMibView x ↦ chosen_not_absent ] };
}

impl FirstTags for VarBindValue {
    fn is_first_tag(tag: Tag) -> bool {
        <Alternatives as DecodeAlternatives>::has_tag(tag)
    }
}

impl Decode for VarBindValue {
    ghost use Rattle.std.specs.Prelude.{codes};
    ghost use Rattle.rasn_de.specs.AlternativeTypes.{DecodesAlternativeBy};
    ghost use Rattle.rasn_de.specs.ValueErrors.{errors_of, IsErrorByTag};

    ghost errors = { λ _ _ old e new. errors_of (DecodesAlternativeBy ⟦<Alternatives as DecodeAlternatives>⟧.extensible ⟦<Alternatives as DecodeAlternatives>⟧.parts ⟦<Alternatives as DecodeAlternatives>⟧.inner (codes "VarBindValue")) old e new × IsErrorByTag ⟦<Alternatives as DecodeAlternatives>⟧.errors old e new };

    fn decode_with_tag_and_constraints(
        decoder: &mut Decoder<'_>,
        _tag: Tag,
        _constraints: &Constraints,
    ) -> Result<VarBindValue, DecodeError> {
        match decoder.read_choice::<Alternatives>("VarBindValue") {
            Ok(This(value)) => Ok(VarBindValue::IntegerValue(value)),
            Ok(Other(This(value))) => Ok(VarBindValue::StringValue(value)),
            Ok(Other(Other(This(value)))) => Ok(VarBindValue::ObjectIdValue(value)),
            Ok(Other(Other(Other(This(value))))) => Ok(VarBindValue::IpAddressValue(value)),
            Ok(Other(Other(Other(Other(This(value)))))) => Ok(VarBindValue::CounterValue(value)),
            Ok(Other(Other(Other(Other(Other(This(value))))))) => Ok(VarBindValue::TimeticksValue(
                value,
            )),
            Ok(Other(Other(Other(Other(Other(Other(This(value)))))))) => Ok(
                VarBindValue::ArbitraryValue(value),
            ),
            Ok(Other(Other(Other(Other(Other(Other(Other(This(value))))))))) => Ok(
                VarBindValue::BigCounterValue(value),
            ),
            Ok(Other(Other(Other(Other(Other(Other(Other(Other(This(value)))))))))) => Ok(
                VarBindValue::UnsignedIntegerValue(value),
            ),
            Ok(Other(Other(Other(Other(Other(Other(Other(Other(Other(This(value))))))))))) => Ok(
                VarBindValue::UnSpecified(value),
            ),
            Ok(Other(Other(Other(Other(Other(Other(Other(Other(Other(Other(This(value)))))))))))) =>
                Ok(VarBindValue::NoSuchObject(value)),
            Ok(
                Other(
                    Other(
                        Other(Other(Other(Other(Other(Other(Other(Other(Other(This(value)))))))))),
                    ),
                ),
            ) => Ok(VarBindValue::NoSuchInstance(value)),
            Ok(
                Other(
                    Other(
                        Other(
                            Other(
                                Other(Other(Other(Other(Other(Other(Other(Other(Last(value))))))))),
                            ),
                        ),
                    ),
                ),
            ) => Ok(VarBindValue::EndOfMibView(value)),
            Err(error) => Err(error),
        }
    }
}

/// The alternatives, as they are written.
type Written<'a> = OneOf<&'a i32, Written1<'a>>;

type Written1<'a> = OneOf<&'a SimpleSyntaxStringValue, Written2<'a>>;

type Written2<'a> = OneOf<&'a ObjectIdentifier, Written3<'a>>;

type Written3<'a> = OneOf<&'a IpAddress, Written4<'a>>;

type Written4<'a> = OneOf<&'a Counter32, Written5<'a>>;

type Written5<'a> = OneOf<&'a TimeTicks, Written6<'a>>;

type Written6<'a> = OneOf<&'a Opaque, Written7<'a>>;

type Written7<'a> = OneOf<&'a Counter64, Written8<'a>>;

type Written8<'a> = OneOf<&'a Unsigned32, Written9<'a>>;

type Written9<'a> = OneOf<&'a (), Written10<'a>>;

type Written10<'a> = OneOf<&'a Implicit<ContextTag<0>, ()>, Written11<'a>>;

type Written11<'a> = OneOf<&'a Implicit<ContextTag<1>, ()>, Written12<'a>>;

type Written12<'a> = Last<&'a Implicit<ContextTag<2>, ()>>;

impl Encode for VarBindValue {
    fn encode_with_tag_and_constraints(
        &self,
        encoder: &mut Encoder,
        _tag: Tag,
        _constraints: &Constraints,
        _identifier: Identifier,
    ) -> Result<(), EncodeError> {
        match self {
            VarBindValue::IntegerValue(value) => encoder.write_choice::<Written<'_>>(This(value)),
            VarBindValue::StringValue(value) => encoder.write_choice::<Written<'_>>(Other(This(
                value,
            ))),
            VarBindValue::ObjectIdValue(value) => encoder.write_choice::<Written<'_>>(Other(Other(
                This(value),
            ))),
            VarBindValue::IpAddressValue(value) => encoder.write_choice::<Written<'_>>(Other(Other(
                Other(This(value)),
            ))),
            VarBindValue::CounterValue(value) => encoder.write_choice::<Written<'_>>(Other(Other(
                Other(Other(This(value))),
            ))),
            VarBindValue::TimeticksValue(value) => encoder.write_choice::<Written<'_>>(Other(Other(
                Other(Other(Other(This(value)))),
            ))),
            VarBindValue::ArbitraryValue(value) => encoder.write_choice::<Written<'_>>(Other(Other(
                Other(Other(Other(Other(This(value))))),
            ))),
            VarBindValue::BigCounterValue(value) => encoder.write_choice::<Written<'_>>(Other(Other(
                Other(Other(Other(Other(Other(This(value)))))),
            ))),
            VarBindValue::UnsignedIntegerValue(value) => encoder.write_choice::<Written<'_>>(Other(
                Other(Other(Other(Other(Other(Other(Other(This(value)))))))),
            )),
            VarBindValue::UnSpecified(value) => encoder.write_choice::<Written<'_>>(Other(Other(
                Other(Other(Other(Other(Other(Other(Other(This(value)))))))),
            ))),
            VarBindValue::NoSuchObject(value) => encoder.write_choice::<Written<'_>>(Other(Other(
                Other(Other(Other(Other(Other(Other(Other(Other(This(value))))))))),
            ))),
            VarBindValue::NoSuchInstance(value) => encoder.write_choice::<Written<'_>>(Other(Other(
                Other(Other(Other(Other(Other(Other(Other(Other(Other(This(value)))))))))),
            ))),
            VarBindValue::EndOfMibView(value) => encoder.write_choice::<Written<'_>>(Other(Other(
                Other(Other(Other(Other(Other(Other(Other(Other(Other(Other(Last(value))))))))))),
            ))),
        }
    }

    fn is_present(&self) -> bool {
        true
    }
}
