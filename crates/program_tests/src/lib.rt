//! Tests of what no run of a program shows: ends that fail, the statuses of such, and actors that wait for each other.
#![tactic(auto)]

#[cfg(test)]
mod ends;
#[cfg(test)]
mod meeting;
