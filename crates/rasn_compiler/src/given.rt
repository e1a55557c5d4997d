//! What every module may use without defining it.
use crate::fault::{Fault, Halt};
use crate::lexer::tokens;
use crate::modules::Source;
use crate::parser::Parser;
use crate::position::Position;
use crate::tree::Module;
use std::alloc::{AllocError, Global};

/// EXTERNAL (X.690 8.18), INSTANCE OF (X.681 C.7) and the classes of X.681 A and B.
const TEXT: &str = "Given DEFINITIONS EXPLICIT TAGS ::= BEGIN
External ::= [UNIVERSAL 8] IMPLICIT SEQUENCE {
direct-reference OBJECT IDENTIFIER OPTIONAL,
indirect-reference INTEGER OPTIONAL,
data-value-descriptor ObjectDescriptor OPTIONAL,
encoding CHOICE {
single-ASN1-type [0] ANY,
octet-aligned [1] IMPLICIT OCTET STRING,
arbitrary [2] IMPLICIT BIT STRING } }
InstanceOf ::= [UNIVERSAL 8] IMPLICIT SEQUENCE { type-id OBJECT IDENTIFIER, value [0] ANY }
TYPE-IDENTIFIER ::= CLASS { &id OBJECT IDENTIFIER UNIQUE, &Type } WITH SYNTAX { &Type IDENTIFIED BY &id }
ABSTRACT-SYNTAX ::= CLASS { &id OBJECT IDENTIFIER, &Type, &property BIT STRING { handles-invalid-encodings(0) } DEFAULT {} } WITH SYNTAX { &Type IDENTIFIED BY &id [HAS PROPERTY &property] }
END";

/// Returns whether a name is one of the classes that every module may use (X.681 A, B).
pub(crate) fn is_given(name: &str) -> bool {
    matches!(name, "TYPE-IDENTIFIER" | "ABSTRACT-SYNTAX")
}

/// Returns the module of what every module may use. It has no fault.
pub(crate) fn given<'text>(alloc: Global) -> Result<Option<Module<'text>>, AllocError> {
    let source = Source {
        name: "",
        text: TEXT,
    };
    let tokens = tokens(alloc, TEXT, Position::START)?;
    let mut parser = Parser {
        alloc,
        source,
        rest: tokens.as_slice(),
        end: Position::START,
        types: Vec::new(alloc),
    };
    let mut faults: Vec<Fault<'text>> = Vec::new(alloc);
    match parser.module("", &mut faults) {
        Ok(module) => Ok(Some(module)),
        Err(Halt::Fault(_)) => Ok(None),
        Err(Halt::OutOfMemory) => Err(AllocError),
    }
}
