//! That words are read at all, with characters of more than a byte; what they say is proved.

use crate::support::same;
use std::alloc::Global;
use std::process::Abort;
use tool_words::{Job, Order, Tool, UsageFault, WordsFault, read_words};
use txn_rows::Grouping;

/// A command line, and what is wrong with it.
struct Refused {
    words: &'static [&'static str],
    fault: UsageFault,
}

const REFUSED: [Refused; 12] = [
    Refused {
        words: &[],
        fault: UsageFault::NoTool,
    },
    Refused {
        words: &["vlog"],
        fault: UsageFault::UnknownTool { word: 0 },
    },
    Refused {
        words: &["varnishlog", "-é"],
        fault: UsageFault::UnknownOption { word: 1 },
    },
    Refused {
        words: &["varnishlog", "-"],
        fault: UsageFault::UnknownOption { word: 1 },
    },
    Refused {
        words: &["varnishlog", "-qr", "f"],
        fault: UsageFault::UnknownOption { word: 2 },
    },
    Refused {
        words: &["varnishlog", "-r"],
        fault: UsageFault::NoValue { word: 1 },
    },
    Refused {
        words: &["varnishlog", "-k0", "-r", "f"],
        fault: UsageFault::BadValue { word: 1 },
    },
    Refused {
        words: &["--gen", "4", "varnishlog"],
        fault: UsageFault::BadValue { word: 1 },
    },
    Refused {
        words: &["varnishlog", "-n", "x"],
        fault: UsageFault::NotHere { word: 1 },
    },
    Refused {
        words: &["varnishtop", "-r", "f"],
        fault: UsageFault::NoOnce,
    },
    Refused {
        words: &["varnishlog"],
        fault: UsageFault::NoLog,
    },
    Refused {
        words: &["--feed", "a", "varnishlog", "-rf"],
        fault: UsageFault::TwoLogs,
    },
];

fn read(rt: &impl Abort, alloc: Global, texts: &[&str]) -> Result<Job, WordsFault> {
    let mut words = Vec::new(alloc);
    for text in texts {
        let word = String::from_str(alloc, text).expect(rt, "memory");
        words.push(word).expect(rt, "memory");
    }
    read_words(alloc, words.as_slice())
}

/// A command line with two characters of more than a byte.
const ASKED: &[&str] = &[
    "--feed",
    "é",
    "--turns",
    "7",
    "varnishlog",
    "-dgraw",
    "-q",
    "End",
    "-Iä:ö",
];

#[test]
fn a_command_line_has_its_job(rt: HostRuntime) {
    let job = read(&rt, rt.alloc(), ASKED).expect(&rt, "a job");
    same(&rt, job.tool, Tool::Log);
    same(&rt, job.order, Order::Turns(7));
    same(&rt, job.grouping, Grouping::Raw);
    let feeds = job.feeds.as_slice();
    let feed = feeds.first().expect(&rt, "a feed");
    same(&rt, (feeds.len(), feed.as_str()), (1, "é"));
    same(&rt, job.queries.as_slice().len(), 1);
    let rules = job.rules.as_slice();
    let rule = rules.first().expect(&rt, "a rule");
    let told = (rules.len(), rule.text.as_str(), rule.word);
    same(&rt, told, (1, "ä:ö", 8));
}

#[test]
fn a_refused_command_line_has_its_fault(rt: HostRuntime) {
    for case in &REFUSED {
        let answer = read(&rt, rt.alloc(), case.words);
        same(&rt, answer.err(), Some(WordsFault::Usage(case.fault)));
    }
}
