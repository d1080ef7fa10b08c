//! Tests of the edges: threads that make turns of one history, and readers and writers that fail in mid-stream.
#![tactic(auto)]

#[cfg(test)]
mod crowd;
#[cfg(test)]
mod ends;
#[cfg(test)]
mod example;
#[cfg(test)]
mod threads;
