//! Readers and writers that a test can foresee.
use std::alloc::Global;
use std::io;
use std::io::{ErrorKind, Read, Write};

/// How many bytes a call reads or writes at most, and how many calls are left before one fails.
pub type Limits = (usize, usize);

/// No call fails.
pub const ROOMY: Limits = (usize::MAX, usize::MAX);

/// Gives the bytes.
#[derive(Drop)]
pub struct Source<'a> {
    bytes: &'a [u8],
    limits: Limits,
}

impl<'a> Source<'a> {
    pub fn new(bytes: &'a [u8], limits: Limits) -> Source<'a> {
        Source { bytes, limits }
    }
}

impl<'a> Read for Source<'a> {
    fn read(&mut self, buf: &mut [u8]) -> io::Result<usize> {
        let (at_most, left) = self.limits;
        if left == 0 {
            return Err(io::Error::from(ErrorKind::Interrupted));
        }
        self.limits.1 = left - 1;
        let count = at_most.min(self.bytes.len()).min(buf.len());
        buf[..count].copy_from_slice(&self.bytes[..count]);
        self.bytes = &self.bytes[count..];
        Ok(count)
    }
}

/// Keeps what is written, and counts the flushes.
#[derive(Drop)]
pub struct Sink {
    pub bytes: Vec<u8>,
    pub limits: Limits,
    pub flushes: u8,
}

impl Sink {
    pub fn new(alloc: Global, limits: Limits) -> Sink {
        Sink {
            bytes: Vec::new(alloc),
            limits,
            flushes: 0,
        }
    }
}

impl Write for Sink {
    fn write(&mut self, buf: &[u8]) -> io::Result<usize> {
        let (at_most, left) = self.limits;
        if left == 0 {
            return Err(io::Error::from(ErrorKind::BrokenPipe));
        }
        self.limits.1 = left - 1;
        let count = at_most.min(buf.len());
        self.bytes.extend_from_slice(&buf[..count])?;
        Ok(count)
    }

    fn flush(&mut self) -> io::Result<()> {
        self.flushes = self.flushes.wrapping_add(1);
        Ok(())
    }
}
