//! The tests of types as data: schemas and values by them, schemas as octets, octets that are
//! checked against DER without a type, and `rasn_address_book`, whose types are also constants.
//! What octets mean by a schema is in the rows of `rasn_schema_vectors`.
#![tactic(auto)]

#[cfg(test)]
mod address_book;
#[cfg(test)]
mod choices;
#[cfg(test)]
mod damaged;
#[cfg(test)]
mod faults;
#[cfg(test)]
mod kinds;
#[cfg(test)]
mod names;
#[cfg(test)]
mod nested_choices;
#[cfg(test)]
mod parts;
#[cfg(test)]
mod reached;
#[cfg(test)]
mod sizes;
#[cfg(test)]
mod small_schemas;
#[cfg(test)]
mod times;
#[cfg(test)]
mod types;
#[cfg(test)]
mod values;
#[cfg(test)]
mod well_formed;
