//! Laws: functions that do nothing, for what their clauses say.

ghost use Rattle.std.specs.Prelude.{◌≡◌, ◌⊎◌, ℕ, List, length};
ghost use Rattle.vio.specs.World.{Seen};
ghost use Rattle.vio.specs.Calls.{Call, Did};
ghost use Rattle.traffic_feed.specs.declared.listing.Listing.{Listing};
ghost use Rattle.feed_files.specs.declared.fault.FeedFault.{FeedFault};
ghost use Rattle.feed_files.specs.Feeds.{AreFeedsRead, AreListings, CallFailed, FeedsHold, HasContentFault, StoppedByFeed};

use traffic_feed::{every_listing, one_listing};

/// The contents of feeds are listings, or one is the first that has a fault, and never both; and they are one list of listings at most.
pub fn feeds_are_listings_or_have_a_fault()
    ensures either { (reclen seg : ℕ) (names contents : List (List ℕ)) →
        length contents ≡ length names →
        ((listings : List Listing) × AreListings reclen seg contents listings)
        ⊎ ((fault : FeedFault) × HasContentFault reclen seg names contents fault) }
    ensures apart { (reclen seg : ℕ) (names contents : List (List ℕ)) (listings : List Listing)
        (fault : FeedFault) →
        AreListings reclen seg contents listings →
        ¬ (HasContentFault reclen seg names contents fault) }
    ensures one { (reclen seg : ℕ) (contents : List (List ℕ)) (first second : List Listing) →
        AreListings reclen seg contents first → AreListings reclen seg contents second →
        first ≡ second }
{
    every_listing();
    one_listing();
}

/// Where the world tells what the files of feeds hold, what was read are their listings, and what stopped the reading is a
/// call that failed or the first fault of their contents.
pub fn told_feeds_are_read()
    ensures read { (reclen seg : ℕ) (names contents : List (List ℕ)) (listings : List Listing)
        (calls : List Call) (before now : Seen) →
        FeedsHold before names contents → Did calls before now →
        AreFeedsRead reclen seg names listings calls → AreListings reclen seg contents listings }
    ensures stopped { (reclen seg : ℕ) (names contents : List (List ℕ)) (fault : FeedFault)
        (calls : List Call) (before now : Seen) →
        FeedsHold before names contents → Did calls before now →
        StoppedByFeed reclen seg names fault calls →
        CallFailed fault before now ⊎ HasContentFault reclen seg names contents fault }
{}
