//! How the words of a command line are read, whatever they mean to a command.
//!
//! A command's rows say which option a letter is and which a whole word is, and whether an option has a value. `Words`
//! goes through the words and gives the options and the operands one after the other, each with the place of its
//! word, or what is wrong with a word. It takes no memory. What an option does, and which values it takes, is the
//! command's: its job is a fold of what is given.
//!
//! Start with `specs/Items.antt`. Source: the Utility Syntax Guidelines of POSIX, 3 to 9 without 10; options that are
//! whole words, and operands between options, are this project's choice.
#![tactic(auto)]

mod fault;
mod lookup;
mod rows;
mod words;

pub use fault::WordFault;
pub use lookup::{letter_in, name_in};
pub use rows::Rows;
pub use words::{Given, Words};
