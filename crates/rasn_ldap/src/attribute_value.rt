// Written by `soqavise generate` from the ASN.1 of LDAP: change that, and write it again.
//! `AttributeValue ::= OCTET STRING`
use rasn::prelude::*;

/// `AttributeValue ::= OCTET STRING`
pub type AttributeValue = OctetString;
