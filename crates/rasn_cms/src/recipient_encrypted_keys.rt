// Written by `soqavise generate` from the ASN.1 of CmsMessages, CMS: change that, and write it
// again.
//! `RecipientEncryptedKeys ::= SEQUENCE OF RecipientEncryptedKey`
use crate::RecipientEncryptedKey;
use rasn::prelude::*;

/// `RecipientEncryptedKeys ::= SEQUENCE OF RecipientEncryptedKey`
pub type RecipientEncryptedKeys = Vec<RecipientEncryptedKey>;
