//! The shapes in which associations are answered, and the lines that a stream answers of itself.
#![tactic(auto)]

// how an association is answered
mod shape;

pub use shape::Shape;

// what a stack answers of itself
mod stream;

pub use stream::{push_aborted, push_fault, push_frame, push_released};

// numbers and octets, wherever a line has them
mod number;

pub use number::{push_hex, push_number};
