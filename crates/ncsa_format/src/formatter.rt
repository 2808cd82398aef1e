//! What a format is made of.

ghost use Rattle.std.specs.Prelude.{◌≡◌, IfOk};

use log_model::Listed;
use std::alloc::{AllocError, Global};
use std::marker::Model;
use vsl_tags::Tag;

/// A name in a format. Contracts see its bytes.
#[derive(Debug, Drop)]
pub struct Label {
    bytes: Vec<u8>,
}

impl Model for Label {
    ghost use Rattle.std.specs.Prelude.{List, ℕ};

    ghost Value = { List ℕ };

    ghost view = { λ l. l.bytes.items };
}

impl Label {
    /// A copy of the bytes.
    pub(crate) fn new(alloc: Global, name: &[u8]) -> Result<Label, AllocError>
        ensures { IfOk result (λ l. l ≡ name.now) }
    {
        let bytes = Vec::from_slice(alloc, name)?;
        Ok(Label { bytes })
    }

    pub(crate) fn as_slice(&self) -> &[u8]
        ensures { result.now ≡ self.now }
    {
        &self.bytes
    }
}

/// A part of a time that is printed.
///
/// Source: varnishncsa(1), `%{X}t`; strftime(3).
#[derive(Clone, Copy, Debug)]
pub enum TimePart {
    /// A byte of text.
    Byte(u8),
    /// `%Y`, as `2023`.
    Year,
    /// `%m`, as `01`.
    Month,
    /// `%d`, as `02`.
    Day,
    /// `%e`, the day with a space in place of a zero.
    SpacedDay,
    /// `%H`.
    Hour,
    /// `%M`.
    Minute,
    /// `%S`.
    Second,
    /// `%b`, as `Jan`.
    MonthName,
    /// `%F`, as `2023-01-02`.
    Date,
    /// `%T`, as `03:04:05`.
    Clock,
    /// `%z`, which is `+0000`.
    Zone,
}

/// How a time is printed.
///
/// Source: varnishncsa(1), `%{X}t`.
#[derive(Debug, Drop)]
pub enum TimeForm {
    /// `sec`, seconds since the epoch.
    Seconds,
    /// `msec`, milliseconds since the epoch.
    Millis,
    /// `usec`, microseconds since the epoch.
    Micros,
    /// `msec_frac`, the milliseconds in the second, in three digits.
    MillisPart,
    /// `usec_frac`, the microseconds in the second, in six digits.
    MicrosPart,
    /// A text with directives.
    Text(Listed<TimePart>),
}

/// What is printed of a transaction in its place.
///
/// Source: varnishncsa(1), "FORMAT".
#[derive(Debug, Drop)]
pub enum Formatter {
    /// `%h`, the address of the client or the backend.
    Host,
    /// `%l`, which is always missing.
    LogName,
    /// `%u`, the user that authorized.
    User,
    /// `%t`, when the transaction started.
    Stamp,
    /// `%{X}t`, when the transaction started, in a form.
    Time(TimeForm),
    /// `%r`, the request line.
    RequestLine,
    /// `%m`.
    Method,
    /// `%U`, the URL up to its query.
    Path,
    /// `%q`, the query of the URL with its question mark.
    Query,
    /// `%H`.
    Protocol,
    /// `%s`.
    Status,
    /// `%b`, bytes of the response's body.
    Bytes,
    /// `%I`, bytes received.
    Received,
    /// `%O`, bytes sent.
    Sent,
    /// `%{X}i`, a header of the request.
    RequestHeader(Label),
    /// `%{X}o`, a header of the response.
    ResponseHeader(Label),
    /// `%D`, how long it took, in microseconds.
    Micros,
    /// `%T`, how long it took, in seconds.
    Seconds,
    /// `%{Varnish:time_firstbyte}x`.
    FirstByte,
    /// `%{Varnish:hitmiss}x`.
    HitMiss,
    /// `%{Varnish:handling}x`.
    Handling,
    /// `%{Varnish:side}x`.
    Mark,
    /// `%{Varnish:vxid}x`.
    Vxid,
    /// `%{VCL_Log:key}x`.
    LogKey(Label),
    /// `%{VSL:tag:prefix[field]}x`.
    TagPart {
        tag: Tag,
        prefix: Option<Label>,
        field: Option<u32>,
    },
}

/// A piece of a format: a byte of text, or a formatter.
#[derive(Debug, Drop)]
pub enum Piece {
    Byte(u8),
    Value(Formatter),
}
