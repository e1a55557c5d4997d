// Written by `soqavise generate` from the ASN.1 of SNMP: change that, and write it again.
//! `TimeTicks ::= [APPLICATION 3] IMPLICIT INTEGER (0..4294967295)`
use rasn::prelude::*;

/// `TimeTicks ::= [APPLICATION 3] IMPLICIT INTEGER (0..4294967295)`
pub type TimeTicks = Implicit<ApplicationTag<3>, u32>;
