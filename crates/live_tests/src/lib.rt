//! Live runs of the tools: what no contract says of workers on threads beside a reader.
//!
//! A contract says what comes out whatever the schedule is. That two threads run at once, that a tool prints before the
//! last unit is put, and that a run ends at all, a test alone shows. Each test ends by itself, and passes whatever the
//! schedule is; where one has to be met, a gate holds threads.
#![tactic(auto)]

#[cfg(test)]
mod beside;
#[cfg(test)]
mod comparing;
#[cfg(test)]
mod kept;
#[cfg(test)]
mod overruns;
#[cfg(test)]
mod support;
#[cfg(test)]
mod sweep;
