//! Calls of the world that fail: what a whole run of the top call then answers, writes and leaves.
//!
//! Each call of a run fails in turn, alone and with the one behind it, for each tool and each kind of input; what comes out
//! is compared with the same run in which none fails. Nothing here is retried, and nothing is called in vain: that counts
//! may rise in a call that goes well is said by no contract.
#![tactic(auto)]

#[cfg(test)]
mod comparing;
#[cfg(test)]
mod each_call;
#[cfg(test)]
mod runs;
#[cfg(test)]
mod tables;
#[cfg(test)]
mod watched;
