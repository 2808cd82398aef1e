//! Feeds that workers put.

use crate::comparing::same;
use acceptance_support::{Answer, Ending, Took, differs, refused};
use vio::MemWorld;

/// The listing of the feed, and what is printed of it.
const LINE: &[u8] = b"         0 CLI            - Rd ping\n";

#[test]
fn a_feed_that_a_worker_puts_is_printed_and_leaves_a_closed_ring(rt: HostRuntime) {
    let words = &["--feed", "a", "varnishlog", "-g", "raw"];
    let mut world = MemWorld::new(rt.alloc()).expect(&rt, "memory");
    world.file("a", LINE).expect(&rt, "memory");
    let want = Answer {
        took: Took::Closed,
        output: LINE,
        ..refused(Ending::Done)
    };
    let differs = differs(&rt, rt.alloc(), words, &mut world, &want);
    same(&rt, differs, Ok(""));
}
