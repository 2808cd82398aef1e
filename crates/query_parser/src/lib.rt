//! Queries: a query's text becomes its tests and operators, or the first fault and its byte.
//!
//! A text such as `RespStatus >= 500 or ReqURL ~ "item"` goes in, and a `Query` comes out whose tests mean what the
//! text says. What a text is, and its first fault, are stated in `query_grammar`; here stands what a test
//! means as it is written. The text is read once, a token at a time, and without recursion.
//!
//! Start with `specs/Parsed.antt`, then `specs/Meant.antt`. Source: vsl-query(7).
#![tactic(auto)]

mod check;
mod criterion;
mod draft;
mod fault;
mod literal;
mod operator;
mod parser;
mod query;
mod stack;
mod test;
mod token;

pub use fault::QueryFault;
pub use literal::Literal;
pub use operator::Comparison;
pub use parser::parse_query;
pub use query::Query;
pub use test::{Bound, Check, Criterion, Level, Test};
