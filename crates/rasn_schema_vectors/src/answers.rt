//! The answers of the program: those to lines, and the texts of rows.
ghost use Rattle.rasn_schema_vectors.specs.LineShapes.{line_shape};

use crate::line_schema::LineSchema;
use crate::row_answer::text_of_row;
use rasn_bench::{Answer, Answers, LineAnswer, NormalAnswer};
use std::alloc::{AllocError, Global};
use std::fmt;

/// What is answered to a line.
#[derive(Drop)]
pub enum SchemaAnswer {
    /// The answer that `rasn-vectors` has.
    Line(Answer),
    /// A row or a comment, which isn't a line of `rasn-vectors`.
    Row(String),
}

impl fmt::Display for SchemaAnswer {
    fn fmt<W: fmt::Write>(&self, f: &mut fmt::Formatter<W>) -> fmt::Result {
        match self {
            SchemaAnswer::Line(answer) => write!(f, "{answer}"),
            SchemaAnswer::Row(text) => f.write_str(text.as_str()),
        }
    }
}

impl LineAnswer for SchemaAnswer {
    fn has_good_form(&self) -> bool {
        match self {
            SchemaAnswer::Line(answer) => answer.is_well_formed(),
            SchemaAnswer::Row(_) => true,
        }
    }
}

impl Answers for LineSchema {
    ghost use Rattle.rasn_schema_vectors.specs.SchemaAnswers.{IsSchemaAnswer};
    ghost use Rattle.rasn_bench.specs.NormalAnswers.{IsNormalAnswerBy};

    type Answer = SchemaAnswer;

    ghost IsAnswer = { λ lines line answer. IsSchemaAnswer (line_shape lines.schema.types.items) line answer };

    ghost IsNormalAnswer = { λ lines line answer. IsNormalAnswerBy (line_shape lines.schema.types.items) line answer };

    fn answer(&self, alloc: Global, line: &str) -> Result<SchemaAnswer, AllocError> {
        match self.answer_to(alloc, line)? {
            Answer::Malformed => match text_of_row(alloc, line)? {
                Some(text) => Ok(SchemaAnswer::Row(text)),
                None => Ok(SchemaAnswer::Line(Answer::Malformed)),
            },
            answer => Ok(SchemaAnswer::Line(answer)),
        }
    }

    fn normal_answer(&self, alloc: Global, line: &str) -> Result<NormalAnswer, AllocError> {
        self.normal_answer_to(alloc, line)
    }
}
