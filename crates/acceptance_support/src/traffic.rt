//! Feeds of requests, as `varnishlog -g raw` prints them. No two feeds have a VXID in common.

use std::alloc::{AllocError, Global};
use vio::NoMemory;

/// How many VXIDs a feed may have; those of the feed f begin at f + 1 times as many.
pub const VXIDS: u32 = 1000;

/// Adds lines.
fn put_lines(listing: &mut Vec<u8>, lines: Result<String, AllocError>) -> Result<(), NoMemory> {
    listing.extend_from_slice(lines?.as_bytes())?;
    Ok(())
}

/// Adds the unit of a request to a backend.
fn put_fetch(
    alloc: Global,
    listing: &mut Vec<u8>,
    fetch: u32,
    request: u32,
) -> Result<(), NoMemory> {
    let lines = format!(in alloc;
        "{fetch:>10} Begin          b bereq {request} fetch\n{fetch:>10} End            b \n"
    );
    put_lines(listing, lines)
}

/// Adds the first lines of the unit of a request.
fn put_begin(
    alloc: Global,
    listing: &mut Vec<u8>,
    session: u32,
    request: u32,
) -> Result<(), NoMemory> {
    let lines = format!(in alloc;
        "{request:>10} Begin          c req {session} rxreq\n{request:>10} ReqURL         c /{request}\n"
    );
    put_lines(listing, lines)
}

/// Adds the link of a request to that to a backend.
fn put_link(
    alloc: Global,
    listing: &mut Vec<u8>,
    request: u32,
    fetch: u32,
) -> Result<(), NoMemory> {
    let line = format!(in alloc; "{request:>10} Link           c bereq {fetch} fetch\n");
    put_lines(listing, line)
}

/// Adds the last lines of the unit of a request.
fn put_end(alloc: Global, listing: &mut Vec<u8>, request: u32) -> Result<(), NoMemory> {
    let lines = format!(in alloc;
        "{request:>10} RespStatus     c 200\n{request:>10} End            c \n"
    );
    put_lines(listing, lines)
}

/// Adds the unit of a session.
fn put_session(
    alloc: Global,
    listing: &mut Vec<u8>,
    session: u32,
    request: u32,
) -> Result<(), NoMemory> {
    let lines = format!(in alloc;
        "{session:>10} Begin          c sess 0 HTTP/1\n{session:>10} Link           c req {request} rxreq\n{session:>10} End            c \n"
    );
    put_lines(listing, lines)
}

/// Adds the units of a request and its session, and of a request to a backend where it is a miss.
fn put_request(
    alloc: Global,
    listing: &mut Vec<u8>,
    session: u32,
    is_miss: bool,
) -> Result<(), NoMemory> {
    let (request, fetch) = (session.saturating_add(1), session.saturating_add(2));
    if is_miss {
        put_fetch(alloc, listing, fetch, request)?;
    }
    put_begin(alloc, listing, session, request)?;
    if is_miss {
        put_link(alloc, listing, request, fetch)?;
    }
    put_end(alloc, listing, request)?;
    put_session(alloc, listing, session, request)
}

/// The listing of the feed of this number with so many requests, each with its session. The first of four is a miss.
/// The units of a miss have 56 words: 11 of its backend's, 27 of its own and 18 of its session's. Those of others have 38.
fn listing_of(alloc: Global, feed: u8, requests: u8) -> Result<Vec<u8>, NoMemory> {
    let mut listing = Vec::new(alloc);
    for number in 0..requests {
        let session = VXIDS * (u32::from(feed) + 1) + 3 * u32::from(number);
        put_request(alloc, &mut listing, session, number % 4 == 0)?;
    }
    Ok(listing)
}

/// The listings of so many feeds, each with so many requests.
pub fn listings_of(alloc: Global, feeds: u8, requests: u8) -> Result<Vec<Vec<u8>>, NoMemory> {
    let mut listings = Vec::new(alloc);
    for feed in 0..feeds {
        listings.push(listing_of(alloc, feed, requests)?)?;
    }
    Ok(listings)
}

/// What fills a record that is as long as a segment of 64 words.
const FILLING: [u8; 240] = [b'a'; 240];

/// A listing of twelve units of a record, each as long as a segment of 64 words.
pub fn twelve_units(alloc: Global) -> Result<Vec<u8>, NoMemory> {
    let mut listing = Vec::new(alloc);
    for unit in 1..=12u8 {
        put_lines(
            &mut listing,
            format!(in alloc; "{unit:>10} VCL_Log        c "),
        )?;
        listing.extend_from_slice(&FILLING)?;
        listing.push(b'\n')?;
    }
    Ok(listing)
}
