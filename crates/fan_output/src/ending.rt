//! How a run ends with one text.

use log_model::Text;

/// How a run ends with an output of text.
#[derive(Debug, Drop)]
pub enum TextEnding {
    /// With all that the source has.
    Whole,
    /// With the item that completes the last group that is kept.
    Kept,
    /// A write to the sink of this name failed.
    Unwritten(Text),
    /// The message of an overrun, or of how many units it cost, couldn't be written.
    Unreported,
}
