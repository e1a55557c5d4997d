// Written by `soqavise generate` from the ASN.1 of SNMP: change that, and write it again.
//! `Unsigned32 ::= [APPLICATION 2] IMPLICIT INTEGER (0..4294967295)`
use rasn::prelude::*;

/// `Unsigned32 ::= [APPLICATION 2] IMPLICIT INTEGER (0..4294967295)`
pub type Unsigned32 = Implicit<ApplicationTag<2>, u32>;
