//! The options of vslog: a row for each, and above it all that is said of it. `tools/options.py`, which says what the lines
//! above a row are, makes of them the help, the usage and the options of the man page, and the completion.

// usage: vslog [t] [a] [q] [--strict] [w] [FILE]
// does: reads Varnish's binary log, as its varnishlog -w writes it, from FILE, or from standard input without it, and
//   writes a log file that vtools reads with -r, to standard output
// behind: What has come is written before more is read, so that
// example: varnishlog -g raw -w - | vslog | vtools varnishncsa -T 1000000 -r -
//   prints the line of a request when its records have come
/// The program's name, with which its messages begin.
pub const PROGRAM: &str = "vslog";

/// What an option says.
#[derive(Clone, Copy, Debug, PartialEq, Eq)]
pub enum Choice {
    /// The log is a text.
    Text,
    /// The name of what is written follows.
    Write,
    /// What is written keeps what it has.
    Append,
    /// Nothing is said of what was left out.
    Quiet,
    /// Copying stops before what would be left out or cut.
    Strict,
}

/// The options that are letters.
pub static LETTERS: [(u8, Choice); 4] = [
    // `-t` reads a text, as varnishlog -g raw prints it
    // page: Read a text, as `varnishlog -g raw` prints it.
    (b't', Choice::Text),
    // `-w OUT` writes to OUT, which is emptied; - is standard output
    // page: Write to *OUT*, which is created, or emptied; `-` is standard output. Of several the last counts.
    (b'w', Choice::Write),
    // `-a` appends to OUT
    // page: Append to the file of `-w`, and write the header only where it has no bytes. What it has is not read, nor
    //   checked.
    (b'a', Choice::Append),
    // `-q` says nothing of what was left out
    // page: Say nothing of what was left out or cut.
    (b'q', Choice::Quiet),
];

/// The options that are words.
pub static WORDS: [(&str, Choice); 1] = [
    // `--strict` stops before the first record or line that would be left out or cut
    // page: Stop before the first record or line that would be left out or cut, with its place and status 1; all before
    //   it was written. An end that cuts a record or a line has status 1 too.
    ("--strict", Choice::Strict),
];
