//! What an output means to a drain: `()` does not end the drain, and a `Result` ends the drain if it is an error.

/// What the futures of a drain return, and what the drain returns.
pub trait DrainOutput: Drop {
    ghost use Rattle.std.specs.Prelude.{◌≡◌, Option, IsTrue, IsFalse, Some, None};

    // What a drain returns at its end. An output that equals it does not end the drain.
    ghost done: { Self };

    // What a buffer returned last if its drain returns this: `None`, or this output.
    ghost last_of: { Self → Option Self };

    /// Returns what a drain returns at its end.
    fn done() -> Self
        ensures value { result ≡ done }
        ensures ends { last_of result ≡ None };

    /// Returns whether a drain continues after this output. Otherwise the drain returns this output.
    fn is_done(&self) -> bool
        ensures goes { IsTrue result → self.now ≡ done }
        ensures ends { IsFalse result → last_of self.now ≡ Some self.now };

    /// Returns the name under which a drain of such outputs is printed.
    fn drain_name() -> &'static str {
        "Drain"
    }
}

impl DrainOutput for () {
    ghost use Rattle.std.specs.Prelude.{None};

    ghost done = { tt };

    ghost last_of = { λ _. None };

    fn done() {}

    fn is_done(&self) -> bool {
        true
    }
}

impl<E: Drop> DrainOutput for Result<(), E> {
    ghost use Rattle.std.specs.Prelude.{Ok};
    ghost use Rattle.futures_buffered.specs.DrainOutput.{last_of_result};

    ghost done = { Ok tt };

    ghost last_of = { last_of_result };

    fn done() -> Self {
        Ok(())
    }

    fn is_done(&self) -> bool {
        self.is_ok()
    }

    fn drain_name() -> &'static str {
        "TryDrain"
    }
}
