//! The replay of a made record without its text: each line is applied to a bay, and of the answers only their number is kept.
#![tactic(auto)]

// the numbers
mod summary;

pub use summary::Summary;

// the lines one after another
mod load;
mod loading;

pub use load::load_made;
