// Written by `soqavise generate` from the ASN.1 of AddressBook: change that, and write it again.
//! `Titles ::= SEQUENCE OF Title`
use crate::Title;
use rasn::prelude::*;

/// `Titles ::= SEQUENCE OF Title`
pub type Titles = Vec<Title>;
