//! What faults say of themselves where they are printed.

use crate::support::same;
use counter_segments::AddFault;
use feed_files::FeedFault;
use log_model::{NoMemory, Text, or_cut_back};
use ncsa_format::FormatFault;
use query_parser::QueryFault;
use ring_layout::PutFault;
use std::alloc::Global;
use std::fmt::Display;
use std::process::Abort;
use tool_words::{UsageFault, WordsFault};
use traffic_feed::ListFault;
use vio::{Failed, NamedFault, WholeFault, WorldFault};
use vsl_pattern::NoGoodPattern;
use vsl_record::{RecordFault, UnitFault, WordFault};
use vsl_select::SelectFault;
use vsl_tags::TagFault;

/// The fault says this.
fn says<T: Display + Drop>(rt: &impl Abort, alloc: Global, fault: T, text: &str) {
    let said = fault.to_string(alloc).expect(rt, "memory");
    same(rt, said.as_str(), text);
}

#[test]
fn want_of_memory_is_told_as_that(rt: HostRuntime) {
    let (rt, alloc, text) = (&rt, rt.alloc(), "out of memory");
    says(rt, alloc, NoMemory, text);
    says(rt, alloc, WorldFault::NoMemory, text);
    says(rt, alloc, WholeFault::NoMemory, text);
    says(rt, alloc, RecordFault::NoMemory, text);
    says(rt, alloc, WordFault::NoMemory, text);
    says(rt, alloc, ListFault::NoMemory, text);
    says(rt, alloc, QueryFault::NoMemory, text);
    says(rt, alloc, FormatFault::NoMemory, text);
    says(rt, alloc, SelectFault::NoMemory, text);
    says(rt, alloc, WordsFault::NoMemory, text);
}

#[test]
fn faults_of_records_and_units_say_how_long_they_are(rt: HostRuntime) {
    let (rt, alloc) = (&rt, rt.alloc());
    says(
        rt,
        alloc,
        RecordFault::TooLong { bytes: 4001 },
        "payload of 4001 bytes",
    );
    says(rt, alloc, UnitFault::Empty, "unit without a record");
    says(
        rt,
        alloc,
        UnitFault::TooLong { words: 1048577 },
        "unit of 1048577 words",
    );
}

#[test]
fn faults_of_words_say_which_word(rt: HostRuntime) {
    let (rt, alloc, at) = (&rt, rt.alloc(), 7);
    says(rt, alloc, WordFault::Short, "too few words");
    says(rt, alloc, WordFault::BadTag { at }, "word 7: bad tag");
    says(rt, alloc, WordFault::BadLength { at }, "word 7: bad length");
    says(rt, alloc, WordFault::BadMark { at }, "word 7: bad mark");
    let other = "word 7: another transaction or mark than the first record's";
    says(rt, alloc, WordFault::Mixed { at }, other);
    says(
        rt,
        alloc,
        WordFault::BadPadding { at },
        "word 7: bad padding",
    );
}

#[test]
fn faults_of_queries_say_which_byte(rt: HostRuntime) {
    let (rt, alloc, at) = (&rt, rt.alloc(), 9);
    says(
        rt,
        alloc,
        QueryFault::Syntax { at },
        "query syntax at byte 9",
    );
    says(
        rt,
        alloc,
        QueryFault::UnknownTag { at },
        "unknown tag at byte 9",
    );
    says(rt, alloc, QueryFault::Number { at }, "bad number at byte 9");
    says(
        rt,
        alloc,
        QueryFault::Pattern { at },
        "bad pattern at byte 9",
    );
    says(
        rt,
        alloc,
        QueryFault::Deep { at },
        "query too deep at byte 9",
    );
}

#[test]
fn faults_of_rules_and_formats_say_where(rt: HostRuntime) {
    let (rt, alloc, word) = (&rt, rt.alloc(), 3);
    says(
        rt,
        alloc,
        TagFault::Empty { at: 4 },
        "taglist element at byte 4 is empty",
    );
    says(
        rt,
        alloc,
        TagFault::Unknown { at: 4 },
        "taglist element at byte 4 is no tag",
    );
    says(
        rt,
        alloc,
        SelectFault::BadTags { word },
        "taglist of word 3 is refused",
    );
    says(
        rt,
        alloc,
        SelectFault::BadPattern { word },
        "pattern of word 3 is refused",
    );
    says(rt, alloc, NoGoodPattern, "no good pattern");
    says(
        rt,
        alloc,
        FormatFault::BadFormat { at: 5 },
        "no formatter at byte 5",
    );
}

#[test]
fn faults_of_a_command_line_say_which_word(rt: HostRuntime) {
    let (rt, alloc, word) = (&rt, rt.alloc(), 2);
    says(
        rt,
        alloc,
        UsageFault::UnknownTool { word },
        "unknown tool at word 2",
    );
    says(
        rt,
        alloc,
        UsageFault::UnknownOption { word },
        "unknown option at word 2",
    );
    says(
        rt,
        alloc,
        UsageFault::NoValue { word },
        "option needs a value at word 2",
    );
    says(
        rt,
        alloc,
        UsageFault::BadValue { word },
        "bad value at word 2",
    );
    says(
        rt,
        alloc,
        UsageFault::NotHere { word },
        "not supported here at word 2",
    );
    says(
        rt,
        alloc,
        WordsFault::Usage(UsageFault::BadValue { word }),
        "bad value at word 2",
    );
}

#[test]
fn faults_of_a_whole_command_line_say_what_it_lacks(rt: HostRuntime) {
    let (rt, alloc) = (&rt, rt.alloc());
    says(rt, alloc, UsageFault::NoTool, "no tool given");
    says(
        rt,
        alloc,
        UsageFault::NoOnce,
        "the tool needs an option that ends it",
    );
    says(rt, alloc, UsageFault::NoLog, "no log given");
    says(rt, alloc, UsageFault::TwoLogs, "two logs given");
}

#[test]
fn faults_of_files_say_what_failed(rt: HostRuntime) {
    let (rt, alloc) = (&rt, rt.alloc());
    says(rt, alloc, Failed, "the call failed");
    says(rt, alloc, WorldFault::Failed, "the call failed");
    says(rt, alloc, WholeFault::Failed, "a read failed");
    says(rt, alloc, WholeFault::TooLarge, "more bytes than the limit");
    says(rt, alloc, NamedFault::NoOpen, "the file can't be opened");
    says(rt, alloc, NamedFault::Failed, "a read failed");
    says(rt, alloc, NamedFault::TooLarge, "more bytes than the limit");
}

#[test]
fn faults_of_feeds_say_what_failed(rt: HostRuntime) {
    let (rt, alloc, limit) = (&rt, rt.alloc(), 16);
    let name = Text::new(alloc, "f").expect(rt, "memory");
    says(
        rt,
        alloc,
        FeedFault::NoOpen { name },
        "a feed can't be opened",
    );
    let name = Text::new(alloc, "f").expect(rt, "memory");
    says(
        rt,
        alloc,
        FeedFault::ReadFault { name },
        "a feed can't be read",
    );
    let name = Text::new(alloc, "f").expect(rt, "memory");
    says(
        rt,
        alloc,
        FeedFault::TooLarge { name, limit },
        "a feed has more than 16 bytes",
    );
    says(
        rt,
        alloc,
        FeedFault::BadListing { feed: 2, line: 5 },
        "bad line 5 of feed 2",
    );
    says(rt, alloc, ListFault::BadLine { line: 5 }, "bad line 5");
}

#[test]
fn faults_of_a_ring_and_its_counters_say_why(rt: HostRuntime) {
    let (rt, alloc) = (&rt, rt.alloc());
    let long = "unit of 65 words is longer than a segment";
    says(rt, alloc, PutFault::TooLong { words: 65 }, long);
    says(
        rt,
        alloc,
        PutFault::Busy,
        "another writer is putting a unit",
    );
    says(
        rt,
        alloc,
        PutFault::Exhausted { tail: 99 },
        "ring ends at place 99",
    );
    says(
        rt,
        alloc,
        AddFault::Ceiling,
        "counter would pass its ceiling",
    );
}

/// What is cut back below.
const LIST: &[u8] = &[7, 8, 9];

/// What a call answered, how many elements there were before it, and how many are left.
const CUTS: [(Result<(), NoMemory>, usize, usize); 4] = [
    (Ok(()), 2, 3),
    (Ok(()), 4, 3),
    (Err(NoMemory), 2, 2),
    (Err(NoMemory), 4, 3),
];

#[test]
fn a_list_is_cut_back_where_a_call_failed_alone(rt: HostRuntime) {
    for (put, before, left) in CUTS {
        let mut list = Vec::from_slice(rt.alloc(), LIST).expect(&rt, "memory");
        same(&rt, or_cut_back(put, before, &mut list), put);
        same(&rt, Some(list.as_slice()), LIST.get(..left));
    }
}
