//! The rule of a join: what the join keeps of each output, which output ends it at once, and what it is ready with.
ghost use Rattle.std.specs.Prelude.{◌≡◌};

/// A rule for joins of futures with outputs `O`. It says what a join keeps of an output, which output ends the join at
/// once, and what the join is ready with.
pub trait JoinRule<O> {
    ghost use Rattle.std.specs.Prelude.{Result};
    ghost use Rattle.futures_buffered_joins.specs.JoinRule.{Outcome, shown_by_result};

    /// What the join keeps of an output until the join is ready.
    type Kept: Drop;

    /// The error with which an output ends the join at once. It has no values if no output ends a join.
    type Error;

    /// The value that the join is ready with.
    type Answer;

    // The inverse of `keep`: the output of which this is kept, or the output that ends the join with this error.
    ghost output_of: { Result Self.Kept Self.Error → O };

    // What an answer shows: all that was kept, or the error.
    ghost seen: { Self.Answer → Outcome Self.Kept Self.Error };

    /// Returns what the join keeps of an output, or the error with which the output ends the join.
    fn keep(output: O) -> Result<Self::Kept, Self::Error>
        ensures { output_of result ≡ output };

    /// Returns the answer of a join that has all outputs, or that an error ended. Each later poll returns the answer of
    /// no outputs.
    fn answer(outcome: Result<Vec<Self::Kept>, Self::Error>) -> Self::Answer
        ensures { seen result ≡ shown_by_result outcome };
}

/// A rule whose joins are printed under a name of their own.
pub trait JoinName {
    /// The name under which a join by this rule is printed: the name that a caller writes.
    fn join_name() -> &'static str;
}
