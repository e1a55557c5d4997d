// Written by `soqavise generate` from the ASN.1 of LDAP: change that, and write it again.
//! `AttributeList ::= SEQUENCE OF Attribute`
use crate::Attribute;
use rasn::prelude::*;

/// `AttributeList ::= SEQUENCE OF Attribute`
pub type AttributeList = Vec<Attribute>;
