//! What an ordered queue requires of the set that holds its futures in progress.
ghost use Rattle.std.specs.Prelude.{◌≡◌, ◌↔◌, ℕ, Option, OnOk, OnErr, IfErr, IsErr, IsTrue};
ghost use Rattle.futures_buffered_ordered.specs.Numbered.{PollsNumberedSet, PushesInto};

use crate::numbered::Numbered;
use crate::numbered_polls::NumberedPolls;
use futures::task::{Context, Poll};
use futures_buffered_unordered::poll_one::PollFuture;

/// A set that takes a number with each future.
///
/// In addition to the calls, an impl says what they may do, by relations between the set before and after.
pub trait NumberedSet: Drop {
    /// The futures that the set holds.
    type Future: Drop;

    // How many futures the set holds.
    ghost count: { Self → ℕ };

    // How many futures with this number the set holds.
    ghost with_number: { ℕ → Self → ℕ };

    // What a push of a future with a number makes of the set.
    ghost pushes: { Self → Self.Future → ℕ → Self → Type 0 };

    // The set may refuse a push.
    ghost may_refuse: { Self → Type 0 };

    // The set refuses each push, even if no allocation fails.
    ghost refuses: { Self → Type 0 };

    // What each call keeps of the set.
    ghost keeps: { Self → Self → Type 0 };

    // The set can take pushes.
    ghost takes: { Self → Type 0 };

    // The futures that may be pushed.
    ghost is_fit: { Self.Future → Type 0 };

    // For how many entries a queue over the set has a place from the start. By default for none.
    ghost places: { Self → ℕ } = { λ _. 0 };

    /// Whether the set refuses each push, even if no allocation fails.
    fn refuses_all(&self) -> bool
        ensures { IsTrue result ↔ refuses self.now };

    /// Adds the future, with its number. If the set refuses it, returns it, and changes nothing.
    fn push_numbered(&mut self, value: Numbered<Self::Future>) -> Result<(), Numbered<Self::Future>>
        requires held { takes self.old }
        requires fit { is_fit value.future }
        ensures pushed { OnOk result
            (PushesInto pushes count with_number keeps self.old value self.new) }
        ensures back { IfErr result (λ back. (back ≡ value) × (self.new ≡ self.old)) }
        ensures room { OnErr result (may_refuse self.old) }
        ensures full { refuses self.old → IsErr result }
        ensures again { takes self.new };

    ghost keeps_self: { (a : Self) → keeps a a };

    ghost keeps_on: { (a b c : Self) → keeps a b → keeps b c → keeps a c };

    ghost keeps_places: { (a b : Self) → keeps a b → places b ≡ places a };
}

/// A numbered set that can be polled, under a rule that polls one held future, as its `NumberedPolls` says.
pub trait PollNumberedSet<R>: NumberedSet + NumberedPolls<R> {
    /// Polls the set once. Returns `Ready(None)` only if the set is empty. Allocates what the set's own poll allocates.
    fn poll_numbered(
        &mut self,
        rule: &R,
        cx: &mut Context<'_>,
    ) -> Poll<Option<(usize, Self::Output)>>
        requires { Self.can_poll self.old }
        ensures { PollsNumberedSet Self.NumberedPolls Self.count Self.with_number Self.keeps
            self.old result self.new cx.old cx.new };
}

/// A numbered set whose futures poll themselves (`PollFuture`), so that a queue over the set is a stream.
pub trait StreamedSet: PollNumberedSet<PollFuture> {
    ghost use Rattle.std.specs.Prelude.{Some};
    ghost use Rattle.futures.specs.declared.task.Poll.{Poll};
    ghost use Rattle.futures.specs.declared.task.Poll.TheVariants.{Ready};
    ghost use Rattle.futures.specs.declared.task.context.Context.{Context};

    // The set may give this output, with this number.
    ghost may_give: { Self → ℕ × Self.Output → Type 0 };

    // An output of a poll is one that the set might give before.
    ghost came: { (old new : Self) (out : ℕ × Self.Output) (cx left : Context)
        → Self.gives old (Ready (Some out)) new cx left → may_give old out };

    // What the set may give after a poll it might give before.
    ghost narrows: { (old new : Self) (answer : Poll (Option (ℕ × Self.Output))) (cx left : Context)
        → Self.gives old answer new cx left
        → (out : ℕ × Self.Output) → may_give new out → may_give old out };
}
