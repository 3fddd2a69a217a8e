//! The object under test.
use crate::line::Line;
use crate::reply::Reply;
use crate::session::Session;
use crate::text::Text;
use crate::world::SharedWorld;
use futures::task::Context;
use futures_buffered_core::ready_core::NewFault;

/// An object under test. The crate that implements it names itself by the type `L`, since the objects are of crates
/// below.
pub trait Subject<L>: Drop {
    /// What a poll requires.
    ghost can_poll: { Type 0 } = { Unit {0} };

    /// One poll. The outputs of a join go to `outputs`.
    fn poll(&mut self, cx: &mut Context<'_>, outputs: &mut Vec<u64>) -> Reply
        requires { can_poll };

    /// The call of that word, with the values of these numbers: `Nothing` if the type does not have it. What `Debug`
    /// prints goes to `text`.
    fn call(&mut self, word: &str, ids: &[usize], world: &SharedWorld, text: &mut Text) -> Reply;
}

/// No object.
#[derive(Clone, Copy)]
pub struct Nothing;

impl Subject<()> for Nothing {
    fn poll(&mut self, _cx: &mut Context<'_>, _outputs: &mut Vec<u64>) -> Reply {
        Reply::Nothing
    }

    fn call(&mut self, _: &str, _: &[usize], _: &SharedWorld, _: &mut Text) -> Reply {
        Reply::Nothing
    }
}

/// What a constructor returns.
pub type NewResult<T> = Result<T, NewFault>;

/// An object that a line begins.
#[derive(Clone, Copy)]
pub struct Begun<'a> {
    pub word: &'a str,
    /// It is made of the futures that the line names, behind the word `of`.
    pub is_of_values: bool,
    /// The numbers of the line.
    pub numbers: &'a [usize],
    /// The line, and all those behind it.
    pub lines: &'a [Line<'a>],
}

/// The objects that lines begin.
pub trait Library {
    /// Begins an object, and makes the calls of its lines. How many lines that took, 0 if the numbers name no such
    /// object.
    fn run_kind(session: &mut Session, begun: Begun<'_>) -> NewResult<usize>;
}
