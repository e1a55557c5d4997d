//! Types whose values hold no others, with a module for each ASN.1 type (BOOLEAN, INTEGER, NULL,
//! OBJECT IDENTIFIER); headers, which all values have (X.690 8.1); and constraints (X.680 51).

mod constraints;
mod headers;
mod identifier;
mod integer_octets;
mod object_identifier;
