//! User-defined types, for tests.

mod amended;
mod counted;
mod eight;
mod graded;
mod lamp;
mod levelled;
mod padding;
mod profile;
mod renewed;
mod reply;

pub use amended::Amended;
pub use counted::Counted;
pub use eight::Eight;
pub use graded::Graded;
pub use lamp::{Lamp, Level};
pub use levelled::Levelled;
pub use padding::Padding;
pub use profile::Profile;
pub use renewed::Renewed;
pub use reply::Reply;
