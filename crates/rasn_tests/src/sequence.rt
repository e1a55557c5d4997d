//! SEQUENCE (X.690 8.9): what is read and written inside, and what a refusal reports and consumes.

mod closures;
mod fieldless;
mod fields;
mod lengths;
mod nested;
mod settings;
