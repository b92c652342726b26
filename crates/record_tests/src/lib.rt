//! Tests over the public calls of fields, records and messages: what no contract, no conformance row and no test of the
//! programs says.
//! They are in a crate of their own, as a crate that has tests is proved once more with them.
#![tactic(auto)]

#[cfg(test)]
mod borrowed;
#[cfg(test)]
mod faults;
#[cfg(test)]
mod memory;
#[cfg(test)]
mod message;
#[cfg(test)]
mod message_table;
#[cfg(test)]
mod parts;
#[cfg(test)]
mod record;
#[cfg(test)]
mod records;
#[cfg(test)]
mod without_memory;
