// Written by `soqavise generate` from the ASN.1 of AddressBook: change that, and write it again.
//! Types of the ASN.1 of AddressBook.
#![tactic(auto)]

mod availability;
mod change;
mod contact;
mod department;
mod elevation;
mod greeting;
mod members;
mod open_sequence;
mod percent;
mod person;
mod person_home;
mod person_id;
mod relation;
mod reply;
mod review;
mod rights;
mod roles;
mod schema;
mod team;
mod title;
mod titles;

pub use availability::{Availability, AvailabilityName};
pub use change::Change;
pub use contact::Contact;
pub use department::Department;
pub use elevation::Elevation;
pub use greeting::Greeting;
pub use members::Members;
pub use open_sequence::OpenSequence;
pub use percent::Percent;
pub use person::Person;
pub use person_home::PersonHome;
pub use person_id::PersonId;
pub use relation::Relation;
pub use reply::Reply;
pub use review::Review;
pub use rights::Rights;
pub use roles::Roles;
pub use schema::TYPES;
pub use team::Team;
pub use title::Title;
pub use titles::Titles;
