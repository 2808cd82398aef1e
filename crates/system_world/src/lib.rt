//! What a program needs of the system: its files and streams as a world, and the words of its command line.
//!
//! `RealWorld` makes the system's files and standard streams a `vio::World`. `read_words` gives the arguments as texts,
//! `is_help` says whether one asks for help, and `read_question` what they ask of a program without tools: `--help`, `-h` or
//! `--version` alone. `answer` prints a text of the program's own, and `no_memory` and `not_text` say why it did nothing, each
//! with the exit status.
//!
//! No file's bytes are told: what a real file holds is in no clause. Nothing here knows a tool or an option, or starts a thread.
//!
//! Start with `specs/Questions.antt`, `specs/Printed.antt` and `specs/RealWorld.antt`. All of it is this project's choice.
#![tactic(auto)]

mod answers;
mod edge;
mod real_world;
mod words;

pub use answers::{answer, no_memory, not_text};
pub use real_world::RealWorld;
pub use words::{Question, WordFault, is_help, read_question, read_words};
