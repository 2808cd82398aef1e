//! What is said of each request that is made: a row for each record, in order.

use Number::{Item, Nothing, Seconds, SizesFetched, SizesSent, VxidOf};
use Whose::{Fetch, Hit, Miss, Request, Session};
use vsl_tags::named::{
    BACKEND_OPEN, BEGIN, BEREQ_ACCT, BEREQ_METHOD, BEREQ_URL, BERESP_STATUS, END, HIT, LINK,
    REQ_ACCT, REQ_HEADER, REQ_METHOD, REQ_PROTOCOL, REQ_START, REQ_URL, RESP_STATUS, SESS_CLOSE,
    SESS_OPEN, TIMESTAMP, VCL_CALL,
};

/// Whose record it is, and of which requests.
#[derive(Clone, Copy)]
pub enum Whose {
    /// That of the request to the backend, of a miss.
    Fetch,
    /// The request's.
    Request,
    /// The request's, of a miss.
    Miss,
    /// The request's, of a hit.
    Hit,
    /// The session's.
    Session,
}

/// What stands between two texts.
#[derive(Clone, Copy)]
pub enum Number {
    Nothing,
    /// A VXID.
    VxidOf(Whose),
    /// When the request comes, in seconds.
    Seconds,
    /// The number of what is asked for.
    Item,
    /// How many bytes the body has of the backend's answer, and how many all of it has.
    SizesFetched,
    /// The same of the answer to the client.
    SizesSent,
}

/// A record: whose it is, its tag, and its payload, which is a text, a number and a text.
pub type Row = (Whose, u8, &'static [u8], Number, &'static [u8]);

/// The records of a request, with its session and the request to the backend.
pub static ROWS: [Row; 27] = [
    (Fetch, BEGIN, b"bereq ", VxidOf(Request), b" fetch"),
    (Fetch, BEREQ_METHOD, b"GET", Nothing, b""),
    (Fetch, BEREQ_URL, b"/item/", Item, b""),
    (
        Fetch,
        BACKEND_OPEN,
        b"25 main 10.0.0.9 8080 10.0.0.1 40000",
        Nothing,
        b"",
    ),
    (Fetch, BERESP_STATUS, b"200", Nothing, b""),
    (Fetch, BEREQ_ACCT, b"90 0 90 180 ", SizesFetched, b""),
    (Fetch, END, b"", Nothing, b""),
    (Request, BEGIN, b"req ", VxidOf(Session), b" rxreq"),
    (
        Request,
        TIMESTAMP,
        b"Start: ",
        Seconds,
        b".000000 0.000000 0.000000",
    ),
    (Request, REQ_START, b"10.0.0.7 41000 a0", Nothing, b""),
    (Request, REQ_METHOD, b"GET", Nothing, b""),
    (Request, REQ_URL, b"/item/", Item, b""),
    (Request, REQ_PROTOCOL, b"HTTP/1.1", Nothing, b""),
    (Request, REQ_HEADER, b"Host: example.com", Nothing, b""),
    (Miss, VCL_CALL, b"MISS", Nothing, b""),
    (Miss, LINK, b"bereq ", VxidOf(Fetch), b" fetch"),
    (Hit, VCL_CALL, b"HIT", Nothing, b""),
    (Hit, HIT, b"1", Nothing, b""),
    (Request, RESP_STATUS, b"200", Nothing, b""),
    (
        Request,
        TIMESTAMP,
        b"Resp: ",
        Seconds,
        b".001000 0.001000 0.001000",
    ),
    (Request, REQ_ACCT, b"80 0 80 200 ", SizesSent, b""),
    (Request, END, b"", Nothing, b""),
    (Session, BEGIN, b"sess 0 HTTP/1", Nothing, b""),
    (
        Session,
        SESS_OPEN,
        b"10.0.0.7 41000 a0 10.0.0.1 80",
        Nothing,
        b"",
    ),
    (Session, LINK, b"req ", VxidOf(Request), b" rxreq"),
    (Session, SESS_CLOSE, b"REM_CLOSE 0.010", Nothing, b""),
    (Session, END, b"", Nothing, b""),
];
