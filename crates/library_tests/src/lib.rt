//! What no contract says of a library: the tests of those below the top call.
//!
//! A contract here speaks of a call that had its memory. So a call that always answers want of memory meets every
//! contract; each test here, which has ample memory, refuses it. Expected values come from the format's rules and from
//! the manuals, never from the program.
//!
//! They stand here, and not in their crates, because a crate with tests is proved twice.
#![tactic(auto)]

#[cfg(test)]
mod consumers;
#[cfg(test)]
mod counters;
#[cfg(test)]
mod faults;
#[cfg(test)]
mod groups;
#[cfg(test)]
mod rings;
#[cfg(test)]
mod selections;
#[cfg(test)]
mod support;
#[cfg(test)]
mod tables;
#[cfg(test)]
mod trees;
#[cfg(test)]
mod units;
#[cfg(test)]
mod varnish_logs;
#[cfg(test)]
mod words;
#[cfg(test)]
mod world;
