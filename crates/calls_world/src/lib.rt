//! The world of the program `calls`, and what its lines do with any object.
//!
//! - `memory`, `text`: lists and texts that grow while memory may be refused.
//! - `words`, `line`: the words of a line, and lines that stand for many.
//! - `step`, `world`: how values act in each poll, and what polls and drops left to be told.
//! - `script`, `values`: the values, which are futures and streams both for slots and of the kit, and the stream of an
//!   adaptor.
//! - `reply`, `subject`: `Subject`, the object under test, and what it replies.
//! - `counter`, `report`: what calls ask of memory, and which replies differ.
//! - `session`: all that lasts from line to line, and what a line says of it; `cores`: ready cores and machines.
//! - `calls`, `lines`: `run_lines`, which goes through a file and makes the calls of each object.
#![tactic(auto)]

mod calls;
mod cores;
pub mod counter;
pub mod line;
pub mod lines;
pub mod memory;
pub mod reply;
pub mod report;
mod script;
pub mod session;
pub mod step;
pub mod subject;
pub mod text;
pub mod values;
pub mod words;
pub mod world;
