//! The tests of all crates: values from the examples of the standard and from the behaviour of the
//! public crate. They are in a separate crate, since a crate with tests is proved twice.
#![tactic(auto)]

#[cfg(test)]
mod any;
#[cfg(test)]
mod conversions;
#[cfg(test)]
mod errors;
#[cfg(test)]
mod hostile;
#[cfg(test)]
mod parts;
#[cfg(test)]
mod program;
#[cfg(test)]
mod reading;
#[cfg(test)]
mod sequence;
#[cfg(test)]
mod set;
#[cfg(test)]
mod strict;
#[cfg(test)]
mod strings;
#[cfg(test)]
mod time;
#[cfg(test)]
mod types;
#[cfg(test)]
mod values;
#[cfg(test)]
mod whole;
#[cfg(test)]
mod writing;
