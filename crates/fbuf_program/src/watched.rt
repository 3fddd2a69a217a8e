//! A reader or a writer that remembers whether it failed.
ghost use Rattle.std.specs.Prelude.{◌≡◌, ◌||◌, false, is_err};
ghost use Rattle.std.specs.Io.{ReadsAtMost, WritesAtMost};
ghost use Rattle.std.specs.Io.KnownBytes.{ReadConsumes, WriteAppends, Keeps};
ghost use Rattle.fbuf_program.specs.Watched.{write_failed};

use std::io;
use std::io::{Read, Write};
use std::marker::Model;

/// Passes reads, writes and flushes on to the value that it wraps, and remembers whether one failed. No
/// call of its own allocates.
#[derive(Drop)]
pub struct Watched<T: Drop> {
    inner: T,
    failed: bool,
}

impl<T: Drop> Model for Watched<T> {
    ghost use Rattle.fbuf_program.specs.Watched.{Watch};

    ghost Value = { Watch T };

    ghost view = { λ w. record { inner = w.inner; failed = w.failed } };
}

impl<T: Drop> Watched<T> {
    /// Wraps a value. No call has failed yet.
    pub fn new(inner: T) -> Self
        ensures { result ≡ record { inner = inner; failed = false } }
    {
        Watched {
            inner,
            failed: false,
        }
    }

    /// Returns the wrapped value.
    pub fn into_inner(self) -> T
        ensures { result ≡ self.inner }
    {
        let Watched { inner, failed: _ } = self;
        inner
    }

    /// Returns whether a read, a write or a flush failed. A write of some bytes that wrote none counts.
    pub fn failed(&self) -> bool
        ensures { result ≡ self.now.failed }
    {
        self.failed
    }
}

impl<R: Read + Drop> Read for Watched<R> {
    ghost remaining = { λ w. R.remaining w.inner };

    fn read(&mut self, buf: &mut [u8]) -> io::Result<usize>
        ensures bound { ReadsAtMost result buf.new }
        ensures bytes { ReadConsumes (R.remaining self.old.inner) (R.remaining self.new.inner)
            result buf.new }
        ensures failed { self.new.failed ≡ (self.old.failed || is_err result) }
    {
        let result = self.inner.read(buf);
        self.failed = self.failed || result.is_err();
        result
    }
}

impl<W: Write + Drop> Write for Watched<W> {
    ghost contents = { λ w. W.contents w.inner };

    fn write(&mut self, buf: &[u8]) -> io::Result<usize>
        ensures bound { WritesAtMost result buf.now }
        ensures bytes { WriteAppends (W.contents self.old.inner) (W.contents self.new.inner)
            result buf.now }
        ensures failed { self.new.failed ≡ (self.old.failed || write_failed result buf.now) }
    {
        let result = self.inner.write(buf);
        self.failed = self.failed
            || matches!(result, Err(_))
            || (matches!(result, Ok(0)) && !buf.is_empty());
        result
    }

    fn flush(&mut self) -> io::Result<()>
        ensures bytes { Keeps (W.contents self.old.inner) (W.contents self.new.inner) }
        ensures failed { self.new.failed ≡ (self.old.failed || is_err result) }
    {
        let result = self.inner.flush();
        self.failed = self.failed || result.is_err();
        result
    }
}
