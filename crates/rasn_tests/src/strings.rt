//! BIT STRING (X.690 8.6), OCTET STRING (8.7) and the character strings (8.23).

mod alphabets;
mod bit_string;
mod character_string;
mod octet_string;
mod packing;
