//! Encodings that DER alone refuses, since it writes others (X.690 10, 11).

mod rules;
