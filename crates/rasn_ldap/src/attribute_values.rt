// Written by `soqavise generate` from the ASN.1 of LDAP: change that, and write it again.
//! `AttributeValues ::= [UNIVERSAL 17] IMPLICIT SEQUENCE OF AttributeValue`
use crate::AttributeValue;
use rasn::prelude::*;

/// `AttributeValues ::= [UNIVERSAL 17] IMPLICIT SEQUENCE OF AttributeValue`
pub type AttributeValues = Implicit<SetOf<bool>, Vec<AttributeValue>>;
