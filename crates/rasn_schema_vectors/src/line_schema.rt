//! Results of the lines of `rasn-vectors`, by a schema.
ghost use Rattle.std.specs.Prelude.{◌≡◌, IfOk, IfErr};
ghost use Rattle.rasn_types.specs.Bytes.{Bytes};
ghost use Rattle.rasn_types.specs.declared.types.codec.Codec.TheVariants.{Der};
ghost use Rattle.rasn.specs.Headline.{Answered, AnsweredAlone, EncodingFails};
ghost use Rattle.rasn.specs.Normal.{IsNormal, IsNoNormal};
ghost use Rattle.rasn_bench.specs.Answers.{IsAnswer, IsAnswerBy};
ghost use Rattle.rasn_bench.specs.Lines.{type_word};
ghost use Rattle.rasn_bench.specs.NormalAnswers.{IsNormalAnswer, IsNormalAnswerBy};
ghost use Rattle.rasn_schema.specs.Trees.{tree_of};
ghost use Rattle.rasn_types.specs.Errors.{IsOutOfMemory};
ghost use Rattle.rasn_dynamic.specs.Entry.{IsReadBack, IsNormalOf, IsNoNormalOf};
ghost use Rattle.rasn_schema_vectors.specs.LineShapes.{line_shape, FitsLine, LooksAhead};

use crate::line_types::{LINE_TYPES, type_id};
use rasn::{NormaliseError, refuse_remainder};
use rasn_bench::{Answer, NormalAnswer, Request, ValueType};
use rasn_de::ber::de::{Decoder, DecoderOptions};
use rasn_dynamic::{WriteError, decode_with_remainder, encode};
use rasn_schema::constants::types_of;
use rasn_schema::{Schema, SchemaError, Value};
use rasn_types::error::{DecodeError, EncodeError};
use rasn_types::types::{Codec, Tag};
use std::alloc::{AllocError, Global};
use thiserror::Error;

/// Why there is no schema of the lines' types.
#[derive(Clone, Copy, Debug, PartialEq, Eq, Drop, Error)]
pub enum LineSchemaError {
    /// Memory runs out.
    #[error("out of memory")]
    Memory,
    /// The types break a rule.
    #[error(transparent)]
    Schema(SchemaError),
}

/// The schema of the types that a line may name.
#[derive(Drop)]
pub struct LineSchema {
    pub schema: Schema,
}

impl LineSchema {
    /// Returns the schema.
    ///
    /// # Errors
    /// Returns an error if memory runs out.
    pub fn new(alloc: Global) -> Result<LineSchema, LineSchemaError> {
        let Ok(types) = types_of(alloc, LINE_TYPES) else {
            return Err(LineSchemaError::Memory);
        };
        match Schema::new(types) {
            Ok(schema) => Ok(LineSchema { schema }),
            Err(error) => Err(LineSchemaError::Schema(error)),
        }
    }

    /// Returns the answer to a line of `rasn-vectors`.
    ///
    /// # Errors
    /// Returns an error if memory runs out while the digits are read.
    pub fn answer_to(&self, alloc: Global, line: &str) -> Result<Answer, AllocError>
        ensures { IfOk result (IsAnswerBy (line_shape self.now.schema.types.items) line.now) }
    {
        match Request::asked(alloc, line)? {
            Some((request, octets)) => {
                Ok(self.answer_of(alloc, request.rule, request.value_type, &octets))
            }
            None => Ok(Answer::Malformed),
        }
    }

    /// Returns the answer to a line of `rasn-vectors --normalise`.
    ///
    /// # Errors
    /// Returns an error if memory runs out while the digits are read.
    pub fn normal_answer_to(&self, alloc: Global, line: &str) -> Result<NormalAnswer, AllocError>
        ensures { IfOk result (IsNormalAnswerBy (line_shape self.now.schema.types.items) line.now) }
    {
        match Request::asked(alloc, line)? {
            Some((request, octets)) => {
                Ok(self.normal_answer_of(alloc, request.rule, request.value_type, &octets))
            }
            None => Ok(NormalAnswer::Malformed),
        }
    }

    /// Returns the answer to octets that are read by these rules as the type.
    fn answer_of(&self, alloc: Global, rule: Codec, value_type: ValueType, input: &[u8]) -> Answer
        ensures { IsAnswer rule (line_shape self.now.schema.types.items value_type) (type_word value_type) input.now result }
    {
        match self.read(alloc, rule, value_type, input) {
            Ok((value, rest)) => {
                let written = self.written(alloc, value_type, &value);
                Answer::read(value_type.word(), rest.len(), written)
            }
            Err(error) => Answer::refused(&error),
        }
    }

    /// Returns the answer to octets that are read by these rules as the type, and nothing follows.
    fn normal_answer_of(
        &self,
        alloc: Global,
        rule: Codec,
        value_type: ValueType,
        input: &[u8],
    ) -> NormalAnswer
        ensures { IsNormalAnswer rule (line_shape self.now.schema.types.items value_type) input.now result }
    {
        NormalAnswer::of_normalised(self.normalised(alloc, rule, value_type, input))
    }

    /// Reads the value with which the input begins. It is absent if the type may be absent and its
    /// tag doesn't come next.
    fn read<'input>(
        &self,
        alloc: Global,
        rule: Codec,
        value_type: ValueType,
        input: &'input [u8],
    ) -> Result<(Value<'input>, &'input [u8]), DecodeError>
        ensures exact { Answered rule (line_shape self.now.schema.types.items value_type) tree_of input.now result }
        ensures fits { IfOk result (λ read. FitsLine self.now.schema.types.items value_type read.0) }
    {
        match is_present(alloc, rule, value_type, input) {
            Ok(present) => {
                if present {
                    decode_with_remainder(alloc, rule, &self.schema, type_id(value_type), input)
                } else {
                    Ok((Value::Absent, input))
                }
            }
            Err(error) => Err(error),
        }
    }

    /// Reads the value that is all of the input.
    fn read_alone<'input>(
        &self,
        alloc: Global,
        rule: Codec,
        value_type: ValueType,
        input: &'input [u8],
    ) -> Result<Value<'input>, DecodeError>
        ensures exact { AnsweredAlone rule (line_shape self.now.schema.types.items value_type) tree_of input.now result }
        ensures fits { IfOk result (λ value. FitsLine self.now.schema.types.items value_type value) }
    {
        match self.read(alloc, rule, value_type, input) {
            Ok((value, remainder)) => match refuse_remainder(rule, remainder) {
                Ok(()) => Ok(value),
                Err(error) => Err(error),
            },
            Err(error) => Err(error),
        }
    }

    /// Returns the DER octets of a value of the type, none if it is absent.
    fn written(
        &self,
        alloc: Global,
        value_type: ValueType,
        value: &Value<'_>,
    ) -> Result<Vec<u8>, EncodeError>
        requires { FitsLine self.now.schema.types.items value_type value.now }
        ensures ok { IfOk result (λ octets. Bytes Der (line_shape self.now.schema.types.items value_type) (tree_of value.now) octets.items) }
        ensures fails { IfErr result (EncodingFails Der (line_shape self.now.schema.types.items value_type) (tree_of value.now)) }
    {
        if let Value::Absent = value {
            return Ok(Vec::new(alloc));
        }
        match encode(alloc, Codec::Der, &self.schema, type_id(value_type), value) {
            Ok(octets) => Ok(octets),
            Err(WriteError::Encode(error)) => Err(error),
            Err(WriteError::Unfit { .. }) => unreachable!(),
        }
    }

    /// Returns the DER octets of what all of the input is by these rules.
    fn normalised(
        &self,
        alloc: Global,
        rule: Codec,
        value_type: ValueType,
        input: &[u8],
    ) -> Result<Vec<u8>, NormaliseError>
        ensures normal { IfOk result (λ octets. IsNormal rule (line_shape self.now.schema.types.items value_type) input.now octets.items) }
        ensures fails { IfErr result (IsNoNormal rule (line_shape self.now.schema.types.items value_type) input.now) }
    {
        match self.read_alone(alloc, rule, value_type, input) {
            Ok(value) => self.write_normal(alloc, value_type, &value),
            Err(error) => Err(NormaliseError::Decode(error)),
        }
    }

    /// Returns the DER octets of a value, if DER reads them as the same value.
    fn write_normal(
        &self,
        alloc: Global,
        value_type: ValueType,
        value: &Value<'_>,
    ) -> Result<Vec<u8>, NormaliseError>
        requires { FitsLine self.now.schema.types.items value_type value.now }
        ensures normal { IfOk result (λ octets. IsNormalOf (line_shape self.now.schema.types.items value_type) (tree_of value.now) octets.items) }
        ensures fails { IfErr result (IsNoNormalOf (line_shape self.now.schema.types.items value_type) (tree_of value.now)) }
    {
        match self.written(alloc, value_type, value) {
            Ok(octets) => match self.is_read_back(alloc, value_type, value, &octets) {
                Ok(is_same) => {
                    if is_same {
                        return Ok(octets);
                    }
                    Err(NormaliseError::NotCanonical)
                }
                Err(error) => Err(NormaliseError::Decode(error)),
            },
            Err(error) => Err(NormaliseError::Encode(error)),
        }
    }

    /// Returns whether DER reads the octets, alone, as this value.
    ///
    /// # Errors
    /// Returns an error only if memory runs out.
    fn is_read_back(
        &self,
        alloc: Global,
        value_type: ValueType,
        value: &Value<'_>,
        octets: &[u8],
    ) -> Result<bool, DecodeError>
        ensures ok { IfOk result (λ answer. IsReadBack answer (line_shape self.now.schema.types.items value_type) (tree_of value.now) octets.now) }
        ensures memory_alone { IfErr result (λ e. IsOutOfMemory e.kind) }
    {
        match self.read_alone(alloc, Codec::Der, value_type, octets) {
            Ok(again) => Ok(again.means_same(value)),
            Err(error) if error.is_out_of_memory() => Err(error),
            Err(_) => Ok(false),
        }
    }
}

/// Returns whether octets begin with a value of the type. One that may be absent has to begin with
/// its tag.
fn is_present(
    alloc: Global,
    rule: Codec,
    value_type: ValueType,
    input: &[u8],
) -> Result<bool, DecodeError>
    ensures { LooksAhead rule value_type input.now result }
{
    match value_type {
        ValueType::OptionalBool => {
            Decoder::new(alloc, input, DecoderOptions::of(rule)).next_tag_is(Tag::BOOL)
        }
        _ => Ok(true),
    }
}
