//! What the program `fbuf` does for its words: it reads a script and writes the replies to it, or runs
//! threads that wake the slots of a set.
//!
//! In the order in which to read them:
//!
//! - `watched`: `Watched`, a reader or a writer that remembers whether it failed.
//! - `script`: `script`, which reads a whole script and writes a reply for each of its lines.
//! - `counting_waker`: `CountingWaker`, which counts each wake that it makes, and `MadeWakes`.
//! - `waking_thread`: `WakingThread`, which makes wakes and has to be joined.
//! - `threads`: `threads_run`, in which threads wake the slots of one set.
//! - `program_words`: `run_words`, the program as a function of its words.
#![tactic(auto)]

pub mod counting_waker;
pub mod program_words;
pub mod script;
pub mod threads;
pub mod waking_thread;
pub mod watched;
