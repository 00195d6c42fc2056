//! Tests of the outside as the system has it: real files, streams, and both ends of a link over loopback.
//!
//! They stand in a crate of their own, so that the program, which stands on ob_system, doesn't wait for their proof.
#![tactic(auto)]

#[cfg(test)]
mod disk;
#[cfg(test)]
mod links;
#[cfg(test)]
mod streams;
