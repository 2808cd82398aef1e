//! Writers of the ring that threads share.

use crate::support::{one_writer, open, open_trio, same, unit_of};
use ring_layout::{PutFault, Step};

/// The second writer is refused a unit of a word more than a segment has, once the first one has put a whole segment.
#[test]
fn a_writer_is_refused_a_longer_unit_than_another_put(rt: HostRuntime) {
    let alloc = rt.alloc();
    let mut opened = open(&rt, alloc, 2, 0);
    let mut second = one_writer(&rt, &mut opened);
    let mut first = one_writer(&rt, &mut opened);
    let ring = opened.ring;
    let fits = unit_of(&rt, alloc, 1, 64);
    same(&rt, first.try_put(&ring, &fits), Ok(()));
    let longer = unit_of(&rt, alloc, 2, 65);
    let refused = Err(PutFault::TooLong { words: 65 });
    same(&rt, second.try_put(&ring, &longer), refused);
}

#[test]
fn a_log_ends_once_both_writers_left(rt: HostRuntime) {
    let (ring, first, second, mut reader) = open_trio(&rt, rt.alloc());
    second.leave(&ring);
    same(&rt, reader.next(&ring), Step::NotYet { place: 0 });
    first.leave(&ring);
    same(&rt, reader.next(&ring), Step::Ended);
}

#[test]
fn eight_whole_segments_wrap_once(rt: HostRuntime) {
    let alloc = rt.alloc();
    let mut opened = open(&rt, alloc, 1, 0);
    let mut writer = one_writer(&rt, &mut opened);
    let ring = opened.ring;
    let unit = unit_of(&rt, alloc, 1, 64);
    for _ in 0..8 {
        same(&rt, writer.try_put(&ring, &unit), Ok(()));
    }
    same(&rt, writer.leave(&ring).wraps(), 1);
}
