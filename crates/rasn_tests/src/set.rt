//! SET (X.690 8.11) and SET OF (8.12), which are written in order only (9.3, 10.3, 11.6), and the
//! calls that write into a vector or with a closure.

mod components;
mod elements;
mod faults;
mod order;
mod outputs;
mod parts;
mod reads_set;
mod set_of;
