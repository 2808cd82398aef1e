//! Rings as they run: one set of rows over the ring on one thread and the ring that threads share, calls that are
//! stopped between two of their steps, and threads.
#![tactic(auto)]

#[cfg(test)]
mod both;
#[cfg(test)]
mod pauses;
#[cfg(test)]
mod rows;
#[cfg(test)]
mod support;
#[cfg(test)]
mod threads;
#[cfg(test)]
mod writers;
