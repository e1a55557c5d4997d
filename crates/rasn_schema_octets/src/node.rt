//! Defaults as octets: the nodes of a value, each before those that it holds.
use rasn::error::{DecodeError, EncodeError};
use rasn::parts::OneOf::{Other, This};
use rasn::parts::{DecodeAlternatives, Last, OneOf};
use rasn::types::{
    AsnType, BitString, BmpString, Constraints, ContextTag, Date, GeneralizedTime, Identifier,
    Implicit, Integer, ObjectIdentifier, OctetString, Tag, Utf8String,
};
use rasn::{Decode, Decoder, Encode, Encoder};

/// A node of a value.
#[derive(Drop)]
pub enum NodeForm {
    /// A BOOLEAN.
    Boolean(bool),
    /// A NULL.
    Null(()),
    /// A number.
    Integer(Integer),
    /// The bits of a BIT STRING.
    Bits(BitString),
    /// Octets.
    Octets(OctetString),
    /// The characters of a UTF8String.
    Text(Utf8String),
    /// The units of a BMPString.
    Units(BmpString),
    /// The arcs of an OBJECT IDENTIFIER.
    Arcs(ObjectIdentifier),
    /// An instant.
    Instant(GeneralizedTime),
    /// A day.
    Day(Date),
    /// A list of so many values, whose nodes follow.
    Items(Implicit<ContextTag<0>, usize>),
    /// A SET OF so many values, whose nodes follow.
    Elements(Implicit<ContextTag<1>, usize>),
    /// The alternative of a CHOICE with this index. The nodes of its value follow.
    Chosen(Implicit<ContextTag<2>, usize>),
    /// A component that is absent.
    Absent(Implicit<ContextTag<3>, ()>),
}

impl AsnType for NodeForm {
    ghost use Rattle.std.specs.Prelude.{refl};
    ghost use Rattle.rasn_types.specs.Tags.{eoc};
    ghost use Rattle.rasn_types.specs.Trees.{unconstrained};
    ghost use Rattle.rasn_schema_octets.specs.Shapes.{node_shape};
    ghost use Rattle.rasn_schema_octets.specs.Forms.{node_form_tree};

    ghost TAG = { eoc };

    const TAG: Tag = Tag::EOC;

    ghost CONSTRAINTS = { unconstrained };

    const CONSTRAINTS: Constraints = Constraints::NONE;

    ghost shape = { node_shape };

    ghost tree = { node_form_tree };

    ghost own = { refl };
}

/// The last alternatives of `NodeForm`, as they are read.
type NodeFormLastAlternatives = OneOf<
    ObjectIdentifier,
    OneOf<
        GeneralizedTime,
        OneOf<
            Date,
            OneOf<
                Implicit<ContextTag<0>, usize>,
                OneOf<
                    Implicit<ContextTag<1>, usize>,
                    OneOf<Implicit<ContextTag<2>, usize>, Last<Implicit<ContextTag<3>, ()>>>,
                >,
            >,
        >,
    >,
>;

/// All alternatives of `NodeForm`, as they are read.
type NodeFormAlternatives = OneOf<
    bool,
    OneOf<
        (),
        OneOf<
            Integer,
            OneOf<
                BitString,
                OneOf<OctetString, OneOf<Utf8String, OneOf<BmpString, NodeFormLastAlternatives>>>,
            >,
        >,
    >,
>;

impl Decode for NodeForm {
    ghost use Rattle.std.specs.Prelude.{codes};
    ghost use Rattle.rasn_de.specs.AlternativeTypes.{DecodesAlternativeBy};
    ghost use Rattle.rasn_de.specs.ValueErrors.{errors_of, IsErrorByTag};

    ghost errors = { λ _ _ old e new. errors_of (DecodesAlternativeBy ⟦<NodeFormAlternatives as DecodeAlternatives>⟧.extensible ⟦<NodeFormAlternatives as DecodeAlternatives>⟧.parts ⟦<NodeFormAlternatives as DecodeAlternatives>⟧.inner (codes "Node")) old e new × IsErrorByTag ⟦<NodeFormAlternatives as DecodeAlternatives>⟧.errors old e new };

    fn decode_with_tag_and_constraints(
        decoder: &mut Decoder<'_>,
        _tag: Tag,
        _constraints: &Constraints,
    ) -> Result<NodeForm, DecodeError> {
        match decoder.read_choice::<NodeFormAlternatives>("Node") {
            Ok(This(part)) => Ok(NodeForm::Boolean(part)),
            Ok(Other(This(part))) => Ok(NodeForm::Null(part)),
            Ok(Other(Other(This(part)))) => Ok(NodeForm::Integer(part)),
            Ok(Other(Other(Other(This(part))))) => Ok(NodeForm::Bits(part)),
            Ok(Other(Other(Other(Other(This(part)))))) => Ok(NodeForm::Octets(part)),
            Ok(Other(Other(Other(Other(Other(This(part))))))) => Ok(NodeForm::Text(part)),
            Ok(Other(Other(Other(Other(Other(Other(This(part)))))))) => Ok(NodeForm::Units(part)),
            Ok(Other(Other(Other(Other(Other(Other(Other(This(part))))))))) => Ok(NodeForm::Arcs(
                part,
            )),
            Ok(Other(Other(Other(Other(Other(Other(Other(Other(This(part)))))))))) => Ok(
                NodeForm::Instant(part),
            ),
            Ok(Other(Other(Other(Other(Other(Other(Other(Other(Other(This(part))))))))))) => Ok(
                NodeForm::Day(part),
            ),
            Ok(Other(Other(Other(Other(Other(Other(Other(Other(Other(Other(This(part)))))))))))) =>
                Ok(NodeForm::Items(part)),
            Ok(
                Other(
                    Other(
                        Other(Other(Other(Other(Other(Other(Other(Other(Other(This(part)))))))))),
                    ),
                ),
            ) => Ok(NodeForm::Elements(part)),
            Ok(
                Other(
                    Other(
                        Other(
                            Other(
                                Other(Other(Other(Other(Other(Other(Other(Other(This(part))))))))),
                            ),
                        ),
                    ),
                ),
            ) => Ok(NodeForm::Chosen(part)),
            Ok(
                Other(
                    Other(
                        Other(
                            Other(
                                Other(
                                    Other(
                                        Other(Other(Other(Other(Other(Other(Other(Last(part)))))))),
                                    ),
                                ),
                            ),
                        ),
                    ),
                ),
            ) => Ok(NodeForm::Absent(part)),
            Err(error) => Err(error),
        }
    }
}

/// The last alternatives of `NodeForm`, as they are written.
type NodeFormLastWritten<'a> = OneOf<
    &'a ObjectIdentifier,
    OneOf<
        &'a GeneralizedTime,
        OneOf<
            &'a Date,
            OneOf<
                &'a Implicit<ContextTag<0>, usize>,
                OneOf<
                    &'a Implicit<ContextTag<1>, usize>,
                    OneOf<
                        &'a Implicit<ContextTag<2>, usize>,
                        Last<&'a Implicit<ContextTag<3>, ()>>,
                    >,
                >,
            >,
        >,
    >,
>;

/// All alternatives of `NodeForm`, as they are written.
type NodeFormWritten<'a> = OneOf<
    &'a bool,
    OneOf<
        &'a (),
        OneOf<
            &'a Integer,
            OneOf<
                &'a BitString,
                OneOf<
                    &'a OctetString,
                    OneOf<&'a Utf8String, OneOf<&'a BmpString, NodeFormLastWritten<'a>>>,
                >,
            >,
        >,
    >,
>;

impl Encode for NodeForm {
    fn encode_with_tag_and_constraints(
        &self,
        encoder: &mut Encoder,
        _tag: Tag,
        _constraints: &Constraints,
        _identifier: Identifier,
    ) -> Result<(), EncodeError> {
        match self {
            NodeForm::Boolean(part) => encoder.write_choice::<NodeFormWritten<'_>>(This(part)),
            NodeForm::Null(part) => encoder.write_choice::<NodeFormWritten<'_>>(Other(This(part))),
            NodeForm::Integer(part) => encoder.write_choice::<NodeFormWritten<'_>>(Other(Other(This(
                part,
            )))),
            NodeForm::Bits(part) => encoder.write_choice::<NodeFormWritten<'_>>(Other(Other(Other(
                This(part),
            )))),
            NodeForm::Octets(part) => encoder.write_choice::<NodeFormWritten<'_>>(Other(Other(Other(
                Other(This(part)),
            )))),
            NodeForm::Text(part) => encoder.write_choice::<NodeFormWritten<'_>>(Other(Other(Other(
                Other(Other(This(part))),
            )))),
            NodeForm::Units(part) => encoder.write_choice::<NodeFormWritten<'_>>(Other(Other(Other(
                Other(Other(Other(This(part)))),
            )))),
            NodeForm::Arcs(part) => encoder.write_choice::<NodeFormWritten<'_>>(Other(Other(Other(
                Other(Other(Other(Other(This(part))))),
            )))),
            NodeForm::Instant(part) => encoder.write_choice::<NodeFormWritten<'_>>(Other(Other(
                Other(Other(Other(Other(Other(Other(This(part))))))),
            ))),
            NodeForm::Day(part) => encoder.write_choice::<NodeFormWritten<'_>>(Other(Other(Other(
                Other(Other(Other(Other(Other(Other(This(part))))))),
            )))),
            NodeForm::Items(part) => encoder.write_choice::<NodeFormWritten<'_>>(Other(Other(Other(
                Other(Other(Other(Other(Other(Other(Other(This(part)))))))),
            )))),
            NodeForm::Elements(part) => encoder.write_choice::<NodeFormWritten<'_>>(Other(Other(
                Other(Other(Other(Other(Other(Other(Other(Other(Other(This(part)))))))))),
            ))),
            NodeForm::Chosen(part) => encoder.write_choice::<NodeFormWritten<'_>>(Other(Other(Other(
                Other(Other(Other(Other(Other(Other(Other(Other(Other(This(part)))))))))),
            )))),
            NodeForm::Absent(part) => encoder.write_choice::<NodeFormWritten<'_>>(Other(Other(Other(
                Other(Other(Other(Other(Other(Other(Other(Other(Other(Other(Last(part))))))))))),
            )))),
        }
    }

    fn is_present(&self) -> bool {
        true
    }
}
