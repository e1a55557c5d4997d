// Written by `soqavise generate` from the ASN.1 of SNMP: change that, and write it again.
//! `ObjectName ::= OBJECT IDENTIFIER`
use rasn::prelude::*;

/// `ObjectName ::= OBJECT IDENTIFIER`
pub type ObjectName = ObjectIdentifier;
