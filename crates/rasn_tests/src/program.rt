//! The tests of the program `rasn-vectors`: lines and their results, its arguments, and readers and
//! writers that fail.

mod faults;
mod lines;
mod normal;
