//! Types that several tests share.

mod fieldless;
mod signal;
mod signal_component;
mod three;

pub use fieldless::{Closed, Extensible};
use rasn_bench::Both;
pub use signal::Signal;
pub use signal_component::decode_signal;
pub use three::Three;

/// SEQUENCE { first INTEGER, second BOOLEAN }, the value that closures of the tests return.
pub type NumberAndTruth = Both<i32, bool>;
