//! The words of the command line, and the job that they state.

ghost use Rattle.std.specs.Prelude.{◌≡◌, ℕ, List, map};
ghost use Rattle.std.specs.String.{string_bytes};
ghost use Rattle.vslog.specs.Words.{first_job, job_as, job_of, stated_as, with_given, word_of};
ghost use Rattle.word_forms.specs.Lookup.{first_name};

use crate::options::{Choice, LETTERS, WORDS};
use varnish_log::Asked;
use vio::STREAM;
use word_forms::{Rows, WordFault, Words, letter_in, name_in};

/// What is to be copied, how, and to where.
#[derive(Clone, Copy)]
pub struct Job<'a> {
    pub asked: Asked,
    /// Whether what is written keeps what it has.
    pub append: bool,
    /// Whether nothing is said of what was left out.
    pub quiet: bool,
    /// The name of the file that is written, or `-`.
    pub output: &'a str,
    /// The name of the log that is read, or `-`.
    pub input: &'a str,
}

/// What is wrong with the words. A place of a word counts from 0.
#[derive(Clone, Copy, Debug, PartialEq, Eq)]
pub enum UsageFault {
    /// The word has an option that there isn't.
    UnknownOption { word: usize },
    /// `-w` is the last word, or its last letter.
    NoValue,
    /// The word names a second log.
    TwoLogs { word: usize },
}

impl From<WordFault> for UsageFault {
    ghost use Rattle.vslog.specs.Words.{usage_of};

    ghost from_gives = { λ fault e. e ≡ usage_of fault };

    fn from(fault: WordFault) -> UsageFault {
        match fault {
            WordFault::UnknownOption { word } => UsageFault::UnknownOption { word },
            WordFault::NoValue { .. } => UsageFault::NoValue,
            WordFault::BadOperand { word } => UsageFault::TwoLogs { word },
        }
    }
}

/// The rows of the options that are words.
fn word_rows() -> &'static [(&'static str, Choice)]
    ensures { (word : List ℕ) →
        first_name (λ row. row.0.now) (λ row. row.1) result.now word ≡ word_of word }
{
    &WORDS
}

/// The rows of `vslog`.
#[derive(Clone, Copy)]
pub struct LogRows {
    /// Whether a log was named.
    pub named: bool,
}

impl Rows for LogRows {
    type Choice = Choice;

    ghost use Rattle.vslog.specs.Words.{log_rows};

    ghost rows = { log_rows };

    fn letter(&self, letter: u8) -> Option<Choice> {
        letter_in(&LETTERS, letter)
    }

    fn name(&self, word: &str) -> Option<Choice> {
        name_in(word_rows(), word)
    }

    fn wants(&self, choice: Choice) -> bool {
        match choice {
            Choice::Write => true,
            _ => false,
        }
    }

    fn behind(&self, _operand: &str) -> Option<LogRows> {
        if self.named {
            return None;
        }
        Some(LogRows { named: true })
    }
}

/// Before the first word.
fn first_job() -> Job<'static>
    ensures { job_as result ≡ first_job }
{
    let asked = Asked {
        text: false,
        strict: false,
    };
    Job {
        asked,
        append: false,
        quiet: false,
        output: STREAM,
        input: STREAM,
    }
}

/// Behind an option, or behind the name of the log, which is of no choice.
fn with_given<'a>(choice: Option<Choice>, value: &'a str, job: Job<'a>) -> Job<'a>
    ensures { job_as result ≡ with_given choice value.now (job_as job.entry) }
{
    let mut job = job;
    match choice {
        None => job.input = value,
        Some(Choice::Text) => job.asked.text = true,
        Some(Choice::Append) => job.append = true,
        Some(Choice::Quiet) => job.quiet = true,
        Some(Choice::Strict) => job.asked.strict = true,
        Some(Choice::Write) => job.output = value,
    }
    job
}

/// The job that the words of a command line state, or the first that is wrong with them.
pub fn read_job(words: &[String]) -> Result<Job<'_>, UsageFault>
    ensures { stated_as result ≡ job_of (map string_bytes words.now) }
{
    let mut left = Words::new(LogRows { named: false }, words, 0);
    let mut job = first_job();
    while let Some(one) = left.next()? {
        job = with_given(one.choice, one.value, job);
    }
    Ok(job)
}
