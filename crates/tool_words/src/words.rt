//! Reading the words, one after the other.

ghost use Rattle.std.specs.Prelude.{◌≡◌, Ok, IfOk, map, count_by};
ghost use Rattle.std.specs.String.{string_bytes};
ghost use Rattle.tool_words.specs.Answers.{Gives};
ghost use Rattle.tool_words.specs.Job.{job_of};
ghost use Rattle.tool_words.specs.Sound.{IsSound};
ghost use Rattle.tool_words.specs.Reading.{is_feed, read_all, read_given, read_operand, takes, with_given};

use crate::fault::{UsageFault, WordsFault};
use crate::fold::{add_options, new_job};
use crate::job::Job;
use crate::lookup::option_number;
use crate::number::{read_count_and_seed, read_grouping};
use crate::options::{Choice, Form, Meaning};
use crate::reading::{Given, Reading};
use crate::rows::{ToolRows, tool_of};
use crate::whole::{is_ended, test_job};
use log_model::{Listed, Text};
use std::alloc::Global;
use word_forms::Words;

/// Whether an option names a listing.
fn names_listing(choice: Choice) -> bool
    ensures { result ≡ is_feed choice }
{
    match choice {
        Choice::Feed => true,
        _ => false,
    }
}

/// How many of the given options name a listing.
fn listings(given: &[Given]) -> usize
    ensures { result ≡ count_by (λ g. is_feed g.choice) given.now }
{
    given.iter().filter(|g| names_listing(g.choice)).count()
}

/// Whether an option takes this value, after those given.
fn takes_value(given: &[Given], choice: Choice, form: Form, value: &str) -> bool
    ensures { result ≡ takes given.now choice form value.now }
{
    match form {
        Form::Text => true,
        Form::FeedName(most) => listings(given) < most as usize,
        Form::Number => option_number(choice, value.as_bytes()).is_some(),
        Form::CountAndSeed => read_count_and_seed(value.as_bytes()).is_some(),
        Form::AnyGrouping => read_grouping(value).is_some(),
        Form::AccessGrouping => value == "vxid" || value == "request",
    }
}

/// An option is given, with its value.
fn add_given(
    alloc: Global,
    choice: Choice,
    reading: Reading,
    at: u32,
    value: &str,
) -> Result<Reading, WordsFault>
    ensures { Gives result (Ok (with_given choice reading at value.now)) }
{
    let Reading { tool, given } = reading;
    let mut given = given;
    let value = Text::new(alloc, value)?;
    let one = Given {
        choice,
        word: at,
        value,
    };
    given.push(one)?;
    Ok(Reading { tool, given })
}

/// An operand is the name of the tool.
fn take_operand(reading: Reading, at: u32, word: &str) -> Result<Reading, WordsFault>
    ensures { Gives result (read_operand reading at word.now) }
{
    let Reading { tool: _, given } = reading;
    if word == "-" {
        return Err(WordsFault::Usage(UsageFault::UnknownOption { word: at }));
    }
    match tool_of(word) {
        None => Err(WordsFault::Usage(UsageFault::UnknownTool { word: at })),
        Some(tool) => Ok(Reading {
            tool: Some(tool),
            given,
        }),
    }
}

/// An option, or the tool's name, after those before it.
fn take_given(
    alloc: Global,
    meaning: Option<Meaning>,
    reading: Reading,
    at: u32,
    value: &str,
) -> Result<Reading, WordsFault>
    ensures { Gives result (read_given meaning reading at value.now) }
{
    match meaning {
        None => take_operand(reading, at, value),
        Some(Meaning::Flag(choice)) => add_given(alloc, choice, reading, at, value),
        Some(Meaning::Value(choice, form)) => {
            if !takes_value(reading.given.as_slice(), choice, form, value) {
                return Err(WordsFault::Usage(UsageFault::BadValue { word: at }));
            }
            add_given(alloc, choice, reading, at, value)
        }
        Some(Meaning::NotHere) => Err(WordsFault::Usage(UsageFault::NotHere { word: at })),
    }
}

/// What all words give. A place that doesn't fit 32 bits counts as want of memory.
fn take_words(alloc: Global, words: &[String]) -> Result<Reading, WordsFault>
    ensures { Gives result (read_all (map string_bytes words.now)) }
{
    let mut left = Words::new(ToolRows { tool: None }, words, 0);
    let mut reading = Reading {
        tool: None,
        given: Listed::new(alloc),
    };
    while let Some(one) = left.next()? {
        let Ok(at) = u32::try_from(one.place) else {
            return Err(WordsFault::NoMemory);
        };
        reading = take_given(alloc, one.choice, reading, at, one.value)?;
    }
    Ok(reading)
}

/// The job of the words.
fn read_job(alloc: Global, words: &[String]) -> Result<Job, WordsFault>
    ensures { Gives result (job_of (map string_bytes words.now)) }
{
    let Reading { tool, given } = take_words(alloc, words)?;
    let Some(tool) = tool else {
        return Err(WordsFault::Usage(UsageFault::NoTool));
    };
    let ends = is_ended(given.as_slice());
    let job = add_options(new_job(alloc, tool), given.into_vec())?;
    test_job(ends, job)
}

/// The job that the words of a command line state, without the program's name, or what is wrong with them.
///
/// The first fault from the left is answered; then those that no word has, as that no log is named.
/// A place of a word that doesn't fit 32 bits counts as want of memory.
///
/// Source: varnishlog(1), varnishncsa(1), varnishtop(1), varnishstat(1), "OPTIONS"; options before the
/// tool and the order of faults are this project's choice.
pub fn read_words(alloc: Global, words: &[String]) -> Result<Job, WordsFault>
    ensures job { Gives result (job_of (map string_bytes words.now)) }
    ensures sound { IfOk result (λ job. IsSound job) }
{
    read_job(alloc, words)
}
