//! Tests over the public calls of ports, texts, frames, the link and captures: what no contract, no conformance row and
//! no test of the programs says.
//! They are in a crate of their own, as a crate that has tests is proved once more with them.
#![tactic(auto)]

#[cfg(test)]
mod borrowed;
#[cfg(test)]
mod capture;
#[cfg(test)]
mod faltering;
#[cfg(test)]
mod faults;
#[cfg(test)]
mod link_text;
#[cfg(test)]
mod ports_in_memory;
#[cfg(test)]
mod receiving;
#[cfg(test)]
mod scanning;
#[cfg(test)]
mod splitting;
#[cfg(test)]
mod station;
#[cfg(test)]
mod text;
#[cfg(test)]
mod without_memory;
