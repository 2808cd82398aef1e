//! What each tool makes of groups: a consumer for each, and the layouts of varnishlog.
//!
//! A job and what it shows go in, and out comes the consumer of its tool: varnishlog's writes groups as lines or as
//! the units of a log file, varnishncsa's a line for each request, varnishtop's the report of what it counted.
//!
//! Start with `specs/Output.antt`. Source: varnishlog(1), varnishncsa(1), varnishtop(1).
#![tactic(auto)]

mod consumers;
mod layout;
mod log_consumer;

pub use consumers::{ToolConsumer, consumer_of, head_of};
pub use layout::{Layout, Look};
pub use log_consumer::LogConsumer;
