//! Tests over the public calls of the commands and of the loops in the guide, and over the texts of their faults: what
//! no contract, no conformance row and no test of the programs says.
//! They are in a crate of their own, as a crate that has tests is proved once more with them.
#![tactic(auto)]

#[cfg(test)]
mod commands;
#[cfg(test)]
mod faults;
#[cfg(test)]
mod loops;
#[cfg(test)]
mod slow;
