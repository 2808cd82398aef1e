//! Each call of a run fails in turn, alone and with the one behind it, for each tool and input.

use crate::comparing::same;
use crate::runs::{count_calls, expect_faults};
use crate::tables::{
    ASKED, CONVERTED, FAULTS, FEEDS, Input, LATE_READER, LOG, MADE, MORE_UNITS, NAMED,
    ONE_ON_A_THREAD, OPEN, OVERRUN, OVERRUN_IN_TURNS, PING, RAW, RAW_UNITS, STREAM, TOOLS,
    TRANSACTION_UNITS, TRANSACTIONS, TURNS, TWO_ON_THREADS, Tool,
};
use std::alloc::Global;
use std::process::Abort;
use std::sync::Wait;
use std::thread::Threads;

/// Lets each call fail of the runs of all tools over an input.
fn expect_all<R: Abort + Threads + Wait + Sync>(rt: &R, alloc: Global, input: &Input) {
    for tool in &TOOLS {
        if tool.groups || !input.is_log {
            expect_faults(rt, alloc, input, tool);
        }
    }
}

#[test]
fn each_failing_call_ends_a_run_over_a_log(rt: HostRuntime) {
    expect_all(&rt, rt.alloc(), &LOG);
}

#[test]
fn each_failing_call_ends_a_run_over_an_open_transaction(rt: HostRuntime) {
    expect_all(&rt, rt.alloc(), &OPEN);
}

#[test]
fn each_failing_call_ends_a_run_over_standard_input(rt: HostRuntime) {
    expect_all(&rt, rt.alloc(), &STREAM);
}

#[test]
fn each_failing_call_ends_a_run_over_a_log_that_queries_ask(rt: HostRuntime) {
    expect_all(&rt, rt.alloc(), &ASKED);
}

#[test]
fn each_failing_call_ends_a_log_file_that_is_written_anew(rt: HostRuntime) {
    for input in &NAMED {
        expect_faults(&rt, rt.alloc(), input, &CONVERTED);
    }
}

#[test]
fn each_failing_call_ends_a_run_over_feeds_one_after_the_other(rt: HostRuntime) {
    expect_all(&rt, rt.alloc(), &FEEDS);
}

#[test]
fn each_failing_call_ends_a_run_over_feeds_in_turns(rt: HostRuntime) {
    expect_all(&rt, rt.alloc(), &TURNS);
}

#[test]
fn each_failing_call_ends_a_run_over_made_requests(rt: HostRuntime) {
    for input in &MADE {
        expect_all(&rt, rt.alloc(), input);
    }
}

#[test]
fn each_failing_call_ends_a_run_over_a_feed_that_overran_its_reader(rt: HostRuntime) {
    expect_all(&rt, rt.alloc(), &OVERRUN);
}

#[test]
fn each_failing_call_ends_a_run_over_feeds_in_turns_that_overrun_their_reader(rt: HostRuntime) {
    expect_all(&rt, rt.alloc(), &OVERRUN_IN_TURNS);
}

#[test]
fn each_failing_call_ends_a_run_over_a_feed_on_a_thread(rt: HostRuntime) {
    expect_all(&rt, rt.alloc(), &ONE_ON_A_THREAD);
}

#[test]
fn each_failing_call_ends_a_run_over_feeds_on_threads(rt: HostRuntime) {
    expect_all(&rt, rt.alloc(), &TWO_ON_THREADS);
}

#[test]
fn each_failing_call_ends_a_run_over_a_feed_on_a_thread_that_overruns_its_reader(rt: HostRuntime) {
    expect_all(&rt, rt.alloc(), &LATE_READER);
}

#[test]
fn a_message_that_fails_changes_nothing_else(rt: HostRuntime) {
    for input in &FAULTS {
        expect_all(&rt, rt.alloc(), input);
    }
}

/// A log, a tool, and how many calls their run makes, each of three bytes at most.
const COUNTS: [(Input, Tool, usize); 7] = [
    // an open, 11 reads and one at the end, and 12 writes
    (PING, RAW, 25),
    // an open, 40 reads and one at the end, 24 writes for the first unit and 37 for the second
    (LOG, RAW, 103),
    // the same reads, 28 writes for the first transaction and 39 for the second
    (LOG, TRANSACTIONS, 109),
    // an open, 27 reads and one at the end, 28 writes for the second unit and 38 for the flush
    (OPEN, TRANSACTIONS, 95),
    // an open, a creation, 3 writes for the header, 11 reads and one at the end, and 8 writes
    (PING, RAW_UNITS, 25),
    // the same without a header, but with an open and 3 reads of the one that is there
    (PING, MORE_UNITS, 26),
    // an open, a creation, 3 writes for the header, 27 reads and one at the end, 15 writes for the second unit and 23 for
    // the flush
    (OPEN, TRANSACTION_UNITS, 71),
];

#[test]
fn a_run_makes_no_call_that_its_bytes_do_not_take(rt: HostRuntime) {
    for (log, tool, calls) in COUNTS {
        let input = Input { piece: 3, ..log };
        let made = count_calls(&rt, rt.alloc(), &input, &tool);
        same(&rt, (tool.name, made), (tool.name, calls), input.name);
    }
}
