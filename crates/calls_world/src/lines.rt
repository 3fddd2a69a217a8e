//! Goes through the lines of a file: those of an object, from its begin to its end, and those between.
ghost use Rattle.std.specs.Prelude.{◌<◌};

use crate::line::Line;
use crate::reply::Reply;
use crate::session::{Options, Session, first_of};
use crate::subject::{Begun, Library, NewResult, Nothing, Subject};
use crate::words::{push_words, split_word};
use futures_buffered_core::ready_core::NewFault;

impl Session {
    fn begin_line(&mut self, line: &Line<'_>) {
        self.reply.clear();
        self.counter.begin_line(line.within);
    }

    fn end_line(&mut self, line: &Line<'_>) {
        self.append_faults();
        self.report.compare(line, self.reply.string.as_str());
    }

    fn line<L, O: Subject<L>>(&mut self, object: &mut O, line: &Line<'_>)
        requires { O.can_poll }
    {
        if line.word == "test" {
            self.begin_test(line.rest);
        } else if !self.report.test_is_over {
            self.begin_line(line);
            self.obey(object, line.word, line.rest);
            self.end_line(line);
        }
    }

    // The first line has begun the object. How many lines it has.
    fn run_object<L, O: Subject<L>>(&mut self, object: &mut O, lines: &[Line<'_>]) -> usize
        requires { O.can_poll }
    {
        let Some((first, rest)) = lines.split_first() else {
            return 0;
        };
        self.counter.end();
        self.options = Options::default();
        self.had_object = true;
        self.reply.append("ok");
        self.end_line(first);
        let mut done = 1usize;
        for line in rest {
            if line.ends_object() {
                break;
            }
            done = done.saturating_add(1);
            self.line(object, line);
        }
        self.world.forget_effects();
        done
    }
}

/// Makes the calls of the object that the first of these lines begins, up to its end, and drops it. How many lines that
/// took.
pub fn run_made<L, O: Subject<L>>(
    session: &mut Session,
    made: NewResult<O>,
    begun: Begun<'_>,
) -> NewResult<usize>
    requires { O.can_poll }
{
    let mut object = made?;
    Ok(session.run_object(&mut object, begun.lines))
}

/// The same of an object that is made of the numbers of the first line.
pub fn run<L, O: Subject<L>, F: FnOnce(&Session, &[usize]) -> NewResult<O>>(
    session: &mut Session,
    make: F,
    begun: Begun<'_>,
) -> NewResult<usize>
    requires polls { O.can_poll }
    requires makes { F.IsAlwaysCallable make }
{
    let made = make(session, begun.numbers);
    run_made(session, made, begun)
}

/// The same of an object with room for as many as the line says. 0 if that is none.
pub fn run_with_room<L, O: Subject<L>, F: FnOnce(&Session, usize) -> NewResult<O>>(
    session: &mut Session,
    make: F,
    begun: Begun<'_>,
) -> NewResult<usize>
    requires polls { O.can_poll }
    requires makes { (session : _) (n : _) → 0 < n → F.pre make session n }
{
    let n = first_of(begun.numbers);
    if n == 0 {
        return Ok(0);
    }
    let made = make(session, n);
    run_made(session, made, begun)
}

// If memory is refused, and no value is left of those that the constructor was given, the object is asked for once
// more. One that is refused for good is no more than a reply.
fn run_twice<L: Library>(session: &mut Session, begun: Begun<'_>) -> NewResult<usize> {
    session.counter.begin(None);
    match L::run_kind(session, begun) {
        Err(NewFault::Memory) => {}
        done => return done,
    }
    session.world.forget_effects();
    if !session.world.is_empty() {
        return Err(NewFault::Memory);
    }
    session.counter.begin(None);
    let done = L::run_kind(session, begun);
    session.report.count_again(done.is_ok());
    done
}

// The object before is gone. How many lines were gone through. A future of the kit waits for memory, and asks for it in
// a poll.
fn begin<L: Library>(session: &mut Session, line: &Line<'_>, lines: &[Line<'_>]) -> usize {
    let mut numbers = Vec::new(session.alloc);
    let (is_of_values, words) = match split_word(line.rest) {
        ("of", values) => (true, values),
        _ => (false, line.rest),
    };
    session.had_object = false;
    session.world.forget_effects();
    session.begin_line(line);
    session.counter.of_polls = if line.word.starts_with("in_flight") {
        None
    } else {
        Some(0)
    };
    let mut done = Ok(0);
    if push_words(&mut numbers, words, " ").is_some() {
        let begun = Begun {
            word: line.word,
            is_of_values,
            numbers: numbers.as_slice(),
            lines,
        };
        done = run_twice::<L>(session, begun);
    }
    let reply = match done {
        Ok(0) => Reply::Nothing,
        Ok(done) => return done,
        Err(fault) => Reply::from(fault),
    };
    session.reply.append(reply);
    session.end_line(line);
    1
}

/// Makes the calls of all lines.
pub fn run_lines<L: Library>(session: &mut Session, lines: &[Line<'_>]) {
    let mut rest = lines;
    for _ in 0..lines.len() {
        let Some(line) = rest.first() else {
            return;
        };
        let mut done = 1usize;
        if !line.begins_object() {
            session.line(&mut Nothing, line);
        } else if !session.report.test_is_over {
            done = begin::<L>(session, line, rest);
        }
        rest = rest.get(done..).unwrap_or(&[]);
    }
}
