//! The messages of faults, and their statuses.

ghost use Rattle.std.specs.Prelude.{◌≡◌, ◌++◌, map, IfOk};
ghost use Rattle.std.specs.String.{string_bytes};
ghost use Rattle.one_command.specs.Messages.{numbered};
ghost use Rattle.fan_output.specs.Messages.{told};
ghost use Rattle.varnish_tools.specs.Faults.{message, query_message, status_of, usage_message, word_at};

use fan_output::tell_both;
use job_steps::ToolFault;
use log_model::Text;
use one_command::numbered;
use query_parser::QueryFault;
use std::alloc::{AllocError, Global};
use tool_words::UsageFault;

/// A line of two texts, after the program's name.
fn tell_bytes(alloc: Global, first: &str, second: &[u8]) -> Result<Vec<u8>, AllocError>
    ensures { IfOk result (λ v. v.items ≡ told (first.now ++ second.now)) }
{
    tell_both(alloc, first.as_bytes(), second)
}

/// A line of two texts, after the program's name.
fn tell(alloc: Global, first: &str, second: &str) -> Result<Vec<u8>, AllocError>
    ensures { IfOk result (λ v. v.items ≡ told (first.now ++ second.now)) }
{
    tell_bytes(alloc, first, second.as_bytes())
}

/// A line of a log's name and a text with a number in it, after the program's name.
fn tell_number(
    alloc: Global,
    name: &Text,
    before: &str,
    number: u64,
    after: &str,
) -> Result<Vec<u8>, AllocError>
    ensures { IfOk result (λ v. v.items ≡ told (name.now ++ numbered before.now number after.now)) }
{
    let text = numbered(alloc, before, number, after)?;
    tell_bytes(alloc, name.as_str(), &text)
}

/// The word at a place.
fn word_named(words: &[String], place: u32) -> &str
    ensures { result.now ≡ word_at (map string_bytes words.now) place }
{
    match words.get(place as usize) {
        Some(word) => word.as_str(),
        None => "",
    }
}

/// The message of what is wrong with the words.
fn usage_message(alloc: Global, words: &[String], fault: UsageFault) -> Result<Vec<u8>, AllocError>
    ensures { IfOk result (λ v. v.items ≡ usage_message (map string_bytes words.now) fault) }
{
    match fault {
        UsageFault::UnknownTool { word } => tell(alloc, "unknown tool: ", word_named(words, word)),
        UsageFault::UnknownOption { word } => {
            tell(alloc, "unknown option: ", word_named(words, word))
        }
        UsageFault::NoValue { word } => {
            tell(alloc, "option needs a value: ", word_named(words, word))
        }
        UsageFault::BadValue { word } => tell(alloc, "bad value: ", word_named(words, word)),
        UsageFault::NotHere { word } => {
            tell(alloc, "not supported here: ", word_named(words, word))
        }
        UsageFault::NoTool => tell(alloc, "no tool", ""),
        UsageFault::NoOnce => tell(alloc, "give -1 to run once", ""),
        UsageFault::NoLog => tell(alloc, "no log", ""),
        UsageFault::TwoLogs => tell(alloc, "two logs", ""),
    }
}

/// What is wrong with a query's text, and the byte.
fn query_message(alloc: Global, fault: QueryFault) -> Result<Vec<u8>, AllocError>
    ensures { IfOk result (λ v. v.items ≡ query_message fault) }
{
    match fault {
        QueryFault::Syntax { at } => numbered(alloc, "syntax at ", at, ""),
        QueryFault::UnknownTag { at } => numbered(alloc, "unknown tag at ", at, ""),
        QueryFault::Number { at } => numbered(alloc, "number at ", at, ""),
        QueryFault::Pattern { at } => numbered(alloc, "pattern at ", at, ""),
        QueryFault::Deep { at } => numbered(alloc, "too deep at ", at, ""),
        QueryFault::NoMemory => Vec::from_slice(alloc, b"out of memory"),
    }
}

/// The message of a fault of these words, a line for standard error.
pub fn message_of(alloc: Global, words: &[String], fault: &ToolFault) -> Result<Vec<u8>, AllocError>
    ensures { IfOk result (λ v. v.items ≡ message (map string_bytes words.now) fault.now) }
{
    match fault {
        ToolFault::Usage(fault) => usage_message(alloc, words, *fault),
        ToolFault::BadPattern { word } => {
            tell(alloc, "pattern refused: ", word_named(words, *word))
        }
        ToolFault::BadQuery { query, fault } => {
            let number = numbered(alloc, "query ", u64::from(*query), ": ")?;
            tell_both(alloc, &number, &query_message(alloc, *fault)?)
        }
        ToolFault::BadFormat { at } => {
            tell_bytes(alloc, "", &numbered(alloc, "format: syntax at ", *at, "")?)
        }
        ToolFault::BadListing { feed, line } => {
            let feed = numbered(alloc, "feed ", u64::from(*feed), ": bad line ")?;
            tell_both(alloc, &feed, &numbered(alloc, "", *line, "")?)
        }
        ToolFault::NoOpen { name } => tell(alloc, name.as_str(), ": cannot open"),
        ToolFault::ReadFault { name } => tell(alloc, name.as_str(), ": read failed"),
        ToolFault::WriteFault { name } => tell(alloc, name.as_str(), ": write failed"),
        ToolFault::NotALog { name, at } => tell_number(alloc, name, ": not a log at ", *at, ""),
        ToolFault::Damaged { name, at } => tell_number(alloc, name, ": damaged at ", *at, ""),
        ToolFault::TooLarge { name, limit } => {
            tell_number(alloc, name, ": larger than ", *limit, " bytes")
        }
        ToolFault::OldLog { name } => tell(alloc, name.as_str(), ": cannot append"),
    }
}

/// The exit status: 0 without a fault, 2 where the words, a pattern, a format or the text of a query was refused, else 1.
pub fn status_of(fault: &Option<ToolFault>) -> u8
    ensures { result ≡ status_of fault.now }
{
    match fault {
        None => 0,
        Some(ToolFault::Usage(_)) => 2,
        Some(ToolFault::BadPattern { .. }) => 2,
        Some(ToolFault::BadQuery { .. }) => 2,
        Some(ToolFault::BadFormat { .. }) => 2,
        Some(ToolFault::BadListing { .. }) => 1,
        Some(ToolFault::NoOpen { .. }) => 1,
        Some(ToolFault::ReadFault { .. }) => 1,
        Some(ToolFault::WriteFault { .. }) => 1,
        Some(ToolFault::NotALog { .. }) => 1,
        Some(ToolFault::Damaged { .. }) => 1,
        Some(ToolFault::TooLarge { .. }) => 1,
        Some(ToolFault::OldLog { .. }) => 1,
    }
}
