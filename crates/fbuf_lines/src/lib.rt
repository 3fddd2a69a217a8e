//! The lines of a script for `fbuf`: how a text is cut into lines, what a line asks for, what it
//! does to the target that was begun last, and how the reply is written. No call reads a file, writes
//! one, or needs a thread.
//!
//! In the order in which to read them:
//!
//! - `lines`: `first_line`, which cuts the first line off a text.
//! - `ready_after`: `ReadyAfter`, the future of a script, pending a number of times and then a number.
//! - `command`: `Command`, what a line asks for, and `parse`, which reads it.
//! - `reply`: `Reply`, the reply to a line, and how it is written.
//! - `bounded_lines`, `ordered_lines`, `growing_lines`, `machine_lines`: commands to targets of each kind.
//! - `session`: `Session`, how far a script has come, and `answer`, what one line does to it.
#![tactic(auto)]

pub mod bounded_lines;
pub mod command;
pub mod growing_lines;
pub mod lines;
mod machine_lines;
pub mod ordered_lines;
pub mod ready_after;
pub mod reply;
pub mod session;
