//! The first bytes of a log.

ghost use Rattle.std.specs.Prelude.{◌≡◌, ◌≤◌, length, take, IfOk, OnErr};
ghost use Rattle.std.specs.List.{list_all};
ghost use Rattle.vio.specs.Calls.{Called};
ghost use Rattle.varnish_log.specs.First.{IsFirst, IsUnread, as_text, form_marked, form_of, is_text, kept_of, looks_of};

use crate::form::{BinaryForm, LogForm};
use vio::{Failed, World};
use vsl_file::read_behind;

/// How many bytes tell what a file looks like.
const FIRST_BYTES: usize = 4;

/// What a file looks like.
#[derive(Clone, Copy, Debug, PartialEq, Eq)]
pub enum Looks {
    /// It has no bytes.
    Empty,
    /// Varnish's binary log, of a form that is read.
    VarnishLog,
    /// A log file of this project.
    LogFile,
    /// A binary log of another version of Varnish, of a form that isn't read.
    OtherVersion,
    /// A file that gzip packed.
    Gzip,
    /// A text.
    Text,
    /// Something else.
    Unknown,
}

/// Whether a byte is one of a text.
fn is_text(b: u8) -> bool
    ensures { result ≡ is_text b }
{
    b >= b' ' && b != 0x7f || b == b'\t' || b == b'\n' || b == b'\r'
}

/// Whether all bytes are those of a text.
fn is_all_text(bytes: &[u8]) -> bool
    ensures { result ≡ list_all is_text bytes.now }
{
    bytes.iter().all(|b| is_text(*b))
}

/// The form of the binary log that begins so, if one does.
fn form_marked(first: &[u8]) -> Option<BinaryForm>
    ensures { result ≡ form_marked first.now }
{
    if first == b"VSL\0".as_slice() {
        return Some(BinaryForm::Narrow);
    }
    if first == b"VSL2".as_slice() {
        return Some(BinaryForm::Wide);
    }
    None
}

/// What a file looks like that begins so.
fn looks_of(first: &[u8]) -> Looks
    ensures { result ≡ looks_of first.now }
{
    if first.is_empty() {
        return Looks::Empty;
    }
    if form_marked(first).is_some() {
        return Looks::VarnishLog;
    }
    if first == b"VSLO".as_slice() {
        return Looks::LogFile;
    }
    if first.starts_with(b"VSL".as_slice()) {
        return Looks::OtherVersion;
    }
    if first.starts_with([0x1f, 0x8b].as_slice()) {
        return Looks::Gzip;
    }
    if is_all_text(first) {
        return Looks::Text;
    }
    Looks::Unknown
}

/// A file is a text, unless it looks like what is none.
fn as_text(looks: Looks) -> Result<LogForm, Looks>
    ensures { result ≡ as_text looks }
{
    match looks {
        Looks::LogFile | Looks::VarnishLog | Looks::OtherVersion | Looks::Gzip => Err(looks),
        Looks::Empty | Looks::Text | Looks::Unknown => Ok(LogForm::Text),
    }
}

/// The form of a log that begins so, or what it looks like that makes it none.
pub(crate) fn form_of(text: bool, first: &[u8]) -> Result<LogForm, Looks>
    ensures { result ≡ form_of text first.now }
{
    if text {
        return as_text(looks_of(first));
    }
    match form_marked(first) {
        Some(form) => Ok(LogForm::Binary(form)),
        None => Err(looks_of(first)),
    }
}

/// What of the first bytes belongs to a log's parts.
pub(crate) fn kept_of(form: LogForm, first: &[u8]) -> &[u8]
    ensures kept { result.now ≡ kept_of form first.now }
    ensures within { length result.now ≤ length first.now }
{
    match form {
        LogForm::Binary(_) => &[],
        LogForm::Text => first,
    }
}

/// Reads the first four bytes of a log, or as many as there are.
pub(crate) fn read_first<W: World>(
    world: &mut W,
    input: u32,
    first: &mut [u8; 4],
) -> Result<usize, Failed>
    ensures first { IfOk result
        (λ n. Called (IsFirst input (take n first.new)) (W.seen world.old) (W.seen world.new)) }
    ensures within { IfOk result (λ n. n ≤ 4) }
    ensures failed { OnErr result (Called (IsUnread input) (W.seen world.old) (W.seen world.new)) }
{
    let mut size = 0;
    while size < FIRST_BYTES {
        let n = read_behind(first, size, input, world)?;
        if n == 0 {
            return Ok(size);
        }
        size += n;
    }
    Ok(size)
}
