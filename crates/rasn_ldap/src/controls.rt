// Written by `soqavise generate` from the ASN.1 of LDAP: change that, and write it again.
//! `Controls ::= SEQUENCE OF Control`
use crate::Control;
use rasn::prelude::*;

/// `Controls ::= SEQUENCE OF Control`
pub type Controls = Vec<Control>;
