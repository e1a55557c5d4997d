//! The types of `rasn_address_book`, which is what is written of a module.

use crate::kinds::{both, named, unknown};
use crate::row::Row;
use rasn_address_book::{
    Availability, AvailabilityName, Change, Department, Elevation, Greeting, Members, Percent,
    Person, Relation, Reply, Review, Rights, Roles, Team, Title, Titles,
};
use std::alloc::{AllocError, Global};

/// Returns the result of a row of a type of the module with components or alternatives.
pub fn of_book(alloc: Global, row: &Row<'_>) -> Result<String, AllocError> {
    match row.name {
        "Person" => both::<Person>(alloc, row),
        "Team" => both::<Team>(alloc, row),
        "Change" => both::<Change>(alloc, row),
        "Reply" => both::<Reply>(alloc, row),
        "Review" => both::<Review>(alloc, row),
        "Department" => both::<Department>(alloc, row),
        "Greeting" => both::<Greeting>(alloc, row),
        _ => of_entry(alloc, row),
    }
}

/// Returns the result of a row of another type of the module.
fn of_entry(alloc: Global, row: &Row<'_>) -> Result<String, AllocError> {
    match row.name {
        "Title" => both::<Title>(alloc, row),
        "Titles" => both::<Titles>(alloc, row),
        "Roles" => both::<Roles>(alloc, row),
        "Members" => both::<Members>(alloc, row),
        "Percent" => both::<Percent>(alloc, row),
        "Elevation" => both::<Elevation>(alloc, row),
        "Rights" => both::<Rights>(alloc, row),
        "Relation" => both::<Relation>(alloc, row),
        "Availability" => both::<Availability>(alloc, row),
        "AvailabilityName" => named::<AvailabilityName>(alloc, row),
        _ => unknown(alloc),
    }
}
