//! Where an output writes.

use log_model::Text;

/// Where a text is written: the handle, its name in faults, and what stands there before all items.
#[derive(Drop)]
pub struct Sink {
    pub handle: u32,
    pub name: Text,
    pub head: Vec<u8>,
}
