//! Reading feeds.

ghost use Rattle.std.specs.Prelude.{◌≡◌, ◌≤◌, IfOk};
ghost use Rattle.vio.specs.Calls.{Called};
ghost use Rattle.vio.specs.Steps.{TookSteps};
ghost use Rattle.vsl_record.specs.Payload.{most_payload};
ghost use Rattle.feed_files.specs.Feeds.{FeedPasses, FeedStops, feeds_from};
ghost use Rattle.feed_files.specs.inside.Answers.{TookFeed, file_fault};

use crate::fault::FeedFault;
use log_model::Text;
use ring_layout::Shape;
use std::alloc::{AllocError, Global};
use traffic_feed::{ListFault, Listing, read_listing};
use vio::{Halt, NamedFault, World, read_named};

/// The most bytes of a feed that are read.
const FEED_LIMIT: u64 = 16_777_216;

/// How it is answered that the file of this name isn't read whole.
fn answer(alloc: Global, name: &str, fault: NamedFault) -> Result<FeedFault, AllocError>
    ensures { IfOk result (λ answer. answer ≡ file_fault name.now fault) }
{
    let name = Text::new(alloc, name)?;
    Ok(match fault {
        NamedFault::NoOpen => FeedFault::NoOpen { name },
        NamedFault::Failed => FeedFault::ReadFault { name },
        NamedFault::TooLarge => FeedFault::TooLarge {
            name,
            limit: FEED_LIMIT,
        },
    })
}

/// Reads the feed at this place, whose file has this name.
#[tactic(auto, using(crate::proofs::FeedLemmas::took_refused))]
fn read_feed<W: World>(
    alloc: Global,
    name: &str,
    place: usize,
    reclen: u32,
    shape: Shape,
    world: &mut W,
) -> Result<Listing, Halt<FeedFault>>
    requires { reclen ≤ most_payload }
    ensures took { Called (TookFeed reclen shape place name.now result) (W.seen world.old)
        (W.seen world.new) }
{
    let Ok(feed) = u32::try_from(place) else {
        return Err(Halt::NoMemory);
    };
    let bytes = match read_named(alloc, world, name, FEED_LIMIT) {
        Ok(bytes) => bytes,
        Err(Halt::Fault(fault)) => return Err(Halt::Fault(answer(alloc, name, fault)?)),
        Err(Halt::NoMemory) => return Err(Halt::NoMemory),
    };
    match read_listing(alloc, &bytes, reclen, shape) {
        Ok(listing) => Ok(listing),
        Err(ListFault::BadLine { line }) => {
            Err(Halt::Fault(FeedFault::BadListing { feed, line }))
        }
        Err(ListFault::NoMemory) => Err(Halt::NoMemory),
    }
}

/// Reads feeds in the order of their names, each whole before the next is opened: at most 16,777,216 bytes of each, and
/// at most `reclen` bytes of a payload. A feed whose number is no `u32` is answered as want of memory.
#[tactic(auto, using(crate::proofs::FeedLemmas::until_more, crate::proofs::FeedLemmas::until_all))]
pub fn read_feeds<W: World>(
    alloc: Global,
    names: &[Text],
    reclen: u32,
    shape: Shape,
    world: &mut W,
) -> Result<Vec<Listing>, Halt<FeedFault>>
    requires { reclen ≤ most_payload }
    ensures took { Called (TookSteps (FeedPasses reclen shape) FeedStops
        (λ listings found. found ≡ listings.items)
        names.now (feeds_from 0 names.now) result) (W.seen world.old) (W.seen world.new) }
{
    let mut listings = Vec::new(alloc);
    for (index, name) in names.iter().enumerate() {
        let listing = read_feed(alloc, name.as_str(), index, reclen, shape, world)?;
        listings.push(listing)?;
    }
    Ok(listings)
}
