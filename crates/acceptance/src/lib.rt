//! Whole runs of the top call over a world in memory: log files that are cut, changed and large, and a feed that a worker
//! puts. Whole command lines are data, in `cases/`; calls that fail are those of `fault_tests`, threads those of
//! `live_tests`, and the libraries' own tests stand in `library_tests`.
//!
//! A contract here speaks of a call that had its memory. So a program that always answers want of
//! memory meets every contract; the cases refuse it, and so does each test here, which has ample memory, and
//! compares the whole answer: the status, the fault, the run record, and what stands on standard output and
//! standard error.
//!
//! Expected values come from the format's rules and from the manuals, never from the program.
#![tactic(auto)]

#[cfg(test)]
mod comparing;
#[cfg(test)]
mod feeds;
#[cfg(test)]
mod files;
