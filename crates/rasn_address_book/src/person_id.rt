// Written by `soqavise generate` from the ASN.1 of AddressBook: change that, and write it again.
//! `PersonId ::= INTEGER`
use rasn::prelude::*;

/// `PersonId ::= INTEGER`
pub type PersonId = Integer;
