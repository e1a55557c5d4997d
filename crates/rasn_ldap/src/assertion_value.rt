// Written by `soqavise generate` from the ASN.1 of LDAP: change that, and write it again.
//! `AssertionValue ::= OCTET STRING`
use rasn::prelude::*;

/// `AssertionValue ::= OCTET STRING`
pub type AssertionValue = OctetString;
