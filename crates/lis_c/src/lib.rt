//! Frames, the sender and the receiver of LIS01-A2, and the records of LIS02-A2, for programs in C. Each state is
//! in a block of the caller's, held by a handle that C passes back as it got it; no call owes a length, a number or an
//! order of calls.
#![tactic(auto)]

mod borrowed;
mod feed;
mod frames;
mod handle_state;
mod next;
mod out;
mod parts;
mod places;
mod reader;
mod receiver;
mod receiving;
mod record_builder;
mod records;
mod scanner;
mod scanning;
mod sender;
mod sending;
mod station;
mod station_state;
mod stationing;
mod status;
mod writer;
