//! Reading the feeds of a job.

ghost use Rattle.std.specs.Prelude.{◌≡◌, [], map, IfOk};
ghost use Rattle.vio.specs.Calls.{Called};
ghost use Rattle.vio.specs.Steps.{TookSteps};
ghost use Rattle.tool_words.specs.Sound.{IsSound};
ghost use Rattle.job_steps.specs.Fits.{HasFitFeeds};
ghost use Rattle.job_steps.specs.Steps.{FoundListing, Passes, Stops, feed_answer, feed_steps, opens_of};

use crate::fault::ToolFault;
use feed_files::{FeedFault, read_feeds};
use log_model::Halt;
use ring_layout::Shape;
use std::alloc::Global;
use tool_words::Job;
use traffic_feed::Listing;
use vio::World;

/// How the fault of a feed is answered.
fn feed_fault(fault: FeedFault) -> ToolFault
    ensures { result ≡ feed_answer fault }
{
    match fault {
        FeedFault::NoOpen { name } => ToolFault::NoOpen { name },
        FeedFault::ReadFault { name } => ToolFault::ReadFault { name },
        FeedFault::TooLarge { name, limit } => ToolFault::TooLarge { name, limit },
        FeedFault::BadListing { feed, line } => ToolFault::BadListing { feed, line },
    }
}

/// Reads the feeds of a job, one after the other.
pub fn take_feeds<W: World>(
    alloc: Global,
    job: &Job,
    world: &mut W,
) -> Result<Vec<Listing>, Halt<ToolFault>>
    requires sound { IsSound job.now }
    ensures took { Called (TookSteps Passes Stops
        (λ listings found. found ≡ map FoundListing listings.items)
        (opens_of (feed_steps job.now)) (feed_steps job.now) result) (W.seen world.old)
        (W.seen world.new) }
    ensures fit { IfOk result (λ listings. HasFitFeeds job.now listings.items) }
{
    let Some(shape) = Shape::new(job.seg) else {
        unreachable!()
    };
    match read_feeds(alloc, job.feeds.as_slice(), job.reclen, shape, world) {
        Ok(listings) => Ok(listings),
        Err(Halt::Fault(fault)) => Err(Halt::Fault(feed_fault(fault))),
        Err(Halt::NoMemory) => Err(Halt::NoMemory),
    }
}
