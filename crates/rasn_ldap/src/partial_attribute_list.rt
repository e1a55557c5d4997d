// Written by `soqavise generate` from the ASN.1 of LDAP: change that, and write it again.
//! `PartialAttributeList ::= SEQUENCE OF PartialAttribute`
use crate::PartialAttribute;
use rasn::prelude::*;

/// `PartialAttributeList ::= SEQUENCE OF PartialAttribute`
pub type PartialAttributeList = Vec<PartialAttribute>;
