//! Texts that tools print, in parts: lines, or groups, each of which ends with a blank line.

use crate::traffic::VXIDS;
use std::alloc::Global;
use vio::NoMemory;

/// What a schedule leaves as it is of a text.
#[derive(Clone, Copy)]
pub enum Kept {
    /// The lines of each feed, in their order.
    FeedLines,
    /// The lines.
    Lines,
    /// The groups, each of which ends with a blank line.
    Groups,
    /// The header of a log file, and its units.
    Units,
    /// All.
    Whole,
    /// The lines of all counters but those of waits for another writer and of laps, in their order.
    Counters,
}

/// Whether a byte ends a line.
pub fn ends_line(byte: &u8) -> bool {
    *byte == b'\n'
}

/// A text in two: so many bytes, or all that there are, and the rest.
fn cut(text: &[u8], size: usize) -> (&[u8], &[u8]) {
    text.split_at(size.min(text.len()))
}

/// The groups of a text, each with its lines. A last one that no blank line ends is a part of a group.
pub fn groups_of(alloc: Global, text: &[u8]) -> Result<Vec<&[u8]>, NoMemory> {
    let mut groups = Vec::new(alloc);
    let mut rest = text;
    let mut size: usize = 0;
    for line in text.split_inclusive(ends_line) {
        size = size.saturating_add(line.len());
        if line == b"\n".as_slice() {
            let (group, behind) = cut(rest, size);
            groups.push(group)?;
            rest = behind;
            size = 0;
        }
    }
    if !rest.is_empty() {
        groups.push(rest)?;
    }
    Ok(groups)
}

/// The lines of a text.
pub fn lines_of(alloc: Global, text: &[u8]) -> Result<Vec<&[u8]>, NoMemory> {
    let mut lines = Vec::new(alloc);
    for line in text.split_inclusive(ends_line) {
        lines.push(line)?;
    }
    Ok(lines)
}

/// The whole lines of a text.
fn whole_lines(text: &[u8]) -> &[u8] {
    let mut whole = text;
    for byte in text.iter().rev() {
        if *byte == b'\n' {
            break;
        }
        if let Some((_, before)) = whole.split_last() {
            whole = before;
        }
    }
    whole
}

/// How many bytes the unit has that begins here: four times what the three low bytes of its header count.
fn size_of_unit(text: &[u8]) -> usize {
    let mut words: usize = 0;
    for byte in text.get(..3).unwrap_or(text).iter().rev() {
        words = words.wrapping_mul(256).wrapping_add(usize::from(*byte));
    }
    words.wrapping_mul(4)
}

/// The header of a log file, and its units. A last one whose bytes aren't all there is a part of one.
fn units_of(alloc: Global, text: &[u8]) -> Result<Vec<&[u8]>, NoMemory> {
    let mut units = Vec::new(alloc);
    let mut rest = text;
    let mut size: usize = 8;
    for _ in text {
        if rest.is_empty() {
            break;
        }
        let (unit, behind) = cut(rest, size);
        units.push(unit)?;
        rest = behind;
        size = size_of_unit(rest);
    }
    Ok(units)
}

/// A text as its only part.
fn whole_of(alloc: Global, text: &[u8]) -> Result<Vec<&[u8]>, NoMemory> {
    Ok(Vec::from_array(alloc, [text])?)
}

/// The parts of a text that a schedule leaves as they are.
fn parts_of(alloc: Global, kept: Kept, text: &[u8]) -> Result<Vec<&[u8]>, NoMemory> {
    match kept {
        Kept::Groups => groups_of(alloc, text),
        Kept::Units => units_of(alloc, text),
        Kept::Lines | Kept::FeedLines => lines_of(alloc, text),
        Kept::Whole | Kept::Counters => whole_of(alloc, text),
    }
}

/// What a schedule leaves as it is of a text, but for the order of its parts.
fn kept_of(alloc: Global, kept: Kept, text: &[u8]) -> Result<Vec<u8>, NoMemory> {
    match kept {
        Kept::Counters => without_waits_and_wraps(alloc, text),
        _ => Ok(Vec::from_slice(alloc, text)?),
    }
}

/// The parts of a text, sorted.
fn sorted_parts(alloc: Global, kept: Kept, text: &[u8]) -> Result<Vec<&[u8]>, NoMemory> {
    let mut parts = parts_of(alloc, kept, text)?;
    parts.sort_unstable();
    Ok(parts)
}

/// Whether two lists have the same parts, in the same order.
fn are_same(parts: &[&[u8]], others: &[&[u8]]) -> bool {
    parts == others
}

/// Whether two texts have the same parts, in any order.
pub fn have_same_parts(
    alloc: Global,
    kept: Kept,
    text: &[u8],
    other: &[u8],
) -> Result<bool, NoMemory> {
    let text = kept_of(alloc, kept, text)?;
    let other = kept_of(alloc, kept, other)?;
    let others = sorted_parts(alloc, kept, &other)?;
    Ok(are_same(&sorted_parts(alloc, kept, &text)?, &others))
}

/// Whether each of these parts is the first part of one of the others.
fn are_parts_of(parts: &[&[u8]], all: &[&[u8]]) -> bool {
    for part in parts {
        if !all.iter().any(|one| one.starts_with(*part)) {
            return false;
        }
    }
    true
}

/// Whether a text has parts of another one alone, of which one may be cut.
pub fn has_parts_of(
    alloc: Global,
    kept: Kept,
    text: &[u8],
    whole: &[u8],
) -> Result<bool, NoMemory> {
    let there = match kept {
        Kept::Counters => whole_lines(text),
        _ => text,
    };
    let text = kept_of(alloc, kept, there)?;
    let whole = kept_of(alloc, kept, whole)?;
    let all = parts_of(alloc, kept, &whole)?;
    Ok(are_parts_of(&parts_of(alloc, kept, &text)?, &all))
}

/// Whether these are the first lines of two feeds, each feed's in their order, and at last a first part of a next one.
pub fn are_first_lines(text: &[u8], first: &[u8], second: &[u8]) -> bool {
    let mut first = first;
    let mut second = second;
    for line in text.split_inclusive(ends_line) {
        if let Some(rest) = first.strip_prefix(line) {
            first = rest;
        } else if let Some(rest) = second.strip_prefix(line) {
            second = rest;
        } else {
            return false;
        }
    }
    true
}

/// The value of the digits of a line, up to the first byte behind them.
fn first_number(line: &[u8]) -> u32 {
    let mut number: u32 = 0;
    for byte in line {
        match *byte {
            b' ' => {
                if number > 0 {
                    return number;
                }
            }
            b'0'..=b'9' => number = number
                .wrapping_mul(10)
                .wrapping_add(u32::from(*byte - b'0')),
            _ => return number,
        }
    }
    number
}

/// The number of the feed that has a raw line.
pub fn feed_of(line: &[u8]) -> usize {
    (first_number(line) / VXIDS).saturating_sub(1) as usize
}

/// The raw lines of a feed, of those of all.
pub fn lines_of_feed(alloc: Global, text: &[u8], feed: usize) -> Result<Vec<u8>, NoMemory> {
    let mut lines = Vec::new(alloc);
    for line in text.split_inclusive(ends_line) {
        if feed_of(line) == feed {
            lines.extend_from_slice(line)?;
        }
    }
    Ok(lines)
}

/// The lines of all counters but those of waits for another writer and of laps of the ring.
fn without_waits_and_wraps(alloc: Global, text: &[u8]) -> Result<Vec<u8>, NoMemory> {
    let mut lines = Vec::new(alloc);
    for line in text.split_inclusive(ends_line) {
        if !line.starts_with(b"MAIN.shm_cont ") && !line.starts_with(b"MAIN.shm_cycles ") {
            lines.extend_from_slice(line)?;
        }
    }
    Ok(lines)
}

/// The number at the beginning of a text, and what is behind it. A text without digits there has 0.
fn read_number(text: &[u8]) -> (u64, &[u8]) {
    let mut number: u64 = 0;
    let mut rest = text;
    for byte in text {
        if !byte.is_ascii_digit() {
            break;
        }
        number = number
            .wrapping_mul(10)
            .wrapping_add(u64::from(*byte - b'0'));
        if let Some((_, behind)) = rest.split_first() {
            rest = behind;
        }
    }
    (number, rest)
}

/// The two segments that a line with the message of an overrun tells: that of the reader, and that of the writers.
pub fn read_overrun(line: &[u8]) -> Option<(u64, u64)> {
    let (at, behind) = read_number(line.strip_prefix(b"vtools: log overrun at segment ")?);
    let (seen, end) = read_number(behind.strip_prefix(b", counter ")?);
    if end == b"\n".as_slice() {
        Some((at, seen))
    } else {
        None
    }
}

/// How many units a line tells as missed, if it has that message.
pub fn read_missed(line: &[u8]) -> Option<u64> {
    let (units, end) = read_number(line.strip_prefix(b"vtools: missed ")?);
    if end == b" units\n".as_slice() {
        Some(units)
    } else {
        None
    }
}

/// How many raw lines have the tag End, which is the last of each unit that feeds of requests have.
pub fn count_ends(text: &[u8]) -> u64 {
    let mut ends: u64 = 0;
    for line in text.split_inclusive(ends_line) {
        if line.get(11..15) == Some(b"End ") {
            ends = ends.saturating_add(1);
        }
    }
    ends
}
