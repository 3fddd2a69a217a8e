//! Tests of what `fbuf` does that no run of it shows: failing reads and writes, flushes, and threads past a gate.
#![tactic(auto)]

#[cfg(test)]
mod fakes;
#[cfg(test)]
mod same;
#[cfg(test)]
mod scripts;
#[cfg(test)]
mod threads;
