//! The calls of an object. If memory is refused to one that gives it values, it must be as before and the values must
//! be back; then the call is made once more.
use crate::memory;
use crate::reply::Reply;
use crate::session::{Session, task_of};
use crate::subject::Subject;
use crate::text::Text;
use crate::words::push_words;
use crate::world::SharedWorld;
use futures::test::MockTask;

// More polls than any line needs.
const MOST_POLLS: u64 = 1_000_000;

// What an object is asked before and behind a call that may be refused.
const QUERIES: [&str; 7] = [
    "len",
    "capacity",
    "limit",
    "is_full",
    "size_hint",
    "is_terminated",
    "debug",
];

// How many bytes a line with this word may ask for, if it does not say. What takes values grows, and so does a text.
fn most_of(word: &str) -> Option<usize> {
    match word {
        "push" | "push_back" | "push_front" | "extend" | "debug" | "drop" => None,
        "future" | "stream" | "source" | "core" | "run" | "steps" => None,
        _ => Some(0),
    }
}

// Makes so many polls at most, up to a reply that is no output and leaves the task unwoken: the last reply. The outputs
// are gathered.
fn poll_up_to<L, O: Subject<L>>(
    task: &MockTask,
    object: &mut O,
    most: u64,
    drained: &mut Vec<u64>,
    outputs: &mut Vec<u64>,
) -> Reply
    requires { O.can_poll }
{
    let mut reply = Reply::Nothing;
    for _ in 0..most {
        reply = task.enter(|cx| object.poll(cx, outputs));
        match reply {
            Reply::Some(number) | Reply::SomeOk(number) => {
                if !memory::push(drained, number) {
                    return Reply::Nothing;
                }
            }
            Reply::Pending if task.is_woken() => {}
            reply => return reply,
        }
    }
    reply
}

// What the object says of itself.
fn describe<L, O: Subject<L>>(object: &mut O, world: &SharedWorld, text: &mut Text) {
    text.clear();
    for query in &QUERIES {
        let reply = object.call(*query, &[], world, text);
        text.append(format_args!("{reply} "));
    }
}

impl Session {
    // Polls in the task that the line names, or in the first.
    fn poll_in_task<L, O: Subject<L>>(&mut self, object: &mut O, most: u64, rest: &str) -> Reply
        requires { O.can_poll }
    {
        self.task = task_of(rest, 0);
        self.outputs.clear();
        self.drained.clear();
        self.world.forget_effects();
        let usual = self.counter.of_polls;
        self.counter.begin(usual);
        let reply = match self.tasks.get(self.task) {
            Some(task) => poll_up_to(task, object, most, &mut self.drained, &mut self.outputs),
            None => Reply::Nothing,
        };
        // A call that had a value made which asks a receiver asked for that memory too.
        if !self.world.has_made_ends() {
            self.counter.end();
        }
        reply
    }

    // One poll: the reply is what it gave, and what it did besides.
    fn poll<L, O: Subject<L>>(&mut self, object: &mut O, rest: &str) -> Reply
        requires { O.can_poll }
    {
        let reply = self.poll_in_task(object, 1, rest);
        if matches!(reply, Reply::Nothing) {
            return reply;
        }
        let woken = self.woken(self.task);
        self.reply.append(reply);
        self.reply.append_numbers(self.outputs.as_slice());
        self.reply.append(" | ");
        self.world.append_events(&mut self.reply);
        self.reply.append(format_args!(" | {woken} | "));
        self.world.append_dropped(&mut self.reply);
        Reply::Written
    }

    // Polls to the first reply that is no output and leaves the task unwoken: the reply is the outputs and this.
    fn drain<L, O: Subject<L>>(&mut self, object: &mut O, rest: &str) -> Reply
        requires { O.can_poll }
    {
        let reply = self.poll_in_task(object, MOST_POLLS, rest);
        if self.drained.is_empty() {
            self.reply.append("-");
        }
        self.reply.append_numbers(self.drained.as_slice());
        self.reply.append(format_args!(" | {reply}"));
        self.reply.append_numbers(self.outputs.as_slice());
        Reply::Written
    }

    fn call<L, O: Subject<L>>(&mut self, object: &mut O, word: &str, ids: &[usize]) -> Reply {
        self.counter.begin(most_of(word));
        let reply = object.call(word, ids, &self.world, &mut self.reply);
        self.counter.end();
        reply
    }

    // How many entries the object says that it has.
    fn len_of<L, O: Subject<L>>(&mut self, object: &mut O) -> usize {
        match self.call(object, "len", &[]) {
            Reply::Number(len) => len,
            _ => 0,
        }
    }

    // Memory was refused. What was taken before that stays; if that is nothing, the object is as before.
    fn give_again<L, O: Subject<L>>(
        &mut self,
        object: &mut O,
        word: &str,
        ids: &[usize],
        taken: usize,
    ) -> Reply {
        let back = ids.get(taken..).unwrap_or(&[]);
        describe(object, &self.world, &mut self.after);
        let is_as_before = self.before.string.as_str() == self.after.string.as_str();
        if (taken == 0 && !is_as_before) || !self.world.has_dropped(back) {
            return Reply::Changed;
        }
        self.world.forget_effects();
        let reply = self.call(object, word, back);
        self.report.count_again(!matches!(reply, Reply::Refused));
        reply
    }

    // Gives the values with these numbers in one call.
    fn give<L, O: Subject<L>>(&mut self, object: &mut O, word: &str, ids: &[usize]) -> Reply {
        describe(object, &self.world, &mut self.before);
        let len = self.len_of(object);
        let reply = self.call(object, word, ids);
        if !matches!(reply, Reply::Refused) {
            return reply;
        }
        let taken = match word {
            "extend" => self.len_of(object).saturating_sub(len),
            _ => 0,
        };
        self.give_again(object, word, ids, taken)
    }

    // Gives each in a call of its own: the first reply that is not that it was taken.
    fn give_each<L, O: Subject<L>>(&mut self, object: &mut O, word: &str, ids: &[usize]) -> Reply {
        for id in ids {
            match self.give(object, word, &[*id]) {
                Reply::Done(()) => {}
                reply => return reply,
            }
        }
        Reply::Done(())
    }

    // None of the values that are cancelled is dropped in these calls.
    fn call_with<L, O: Subject<L>>(&mut self, object: &mut O, word: &str, ids: &[usize]) -> Reply {
        self.world.forget_effects();
        let reply = match word {
            "extend" => self.give(object, word, ids),
            "push" | "push_back" | "push_front" | "cancel" => self.give_each(object, word, ids),
            _ => self.call(object, word, ids),
        };
        match (word, reply) {
            ("clear", Reply::Done(())) => {
                self.world.append_dropped(&mut self.reply);
                Reply::Written
            }
            ("cancel", _) if !self.world.has_dropped(&[]) => Reply::Changed,
            _ => reply,
        }
    }

    fn call_line<L, O: Subject<L>>(&mut self, object: &mut O, word: &str, rest: &str) -> Reply {
        let mut ids = Vec::new(self.alloc);
        match push_words(&mut ids, rest, " ") {
            Some(()) => self.call_with(object, word, ids.as_slice()),
            None => Reply::Nothing,
        }
    }

    /// Does what the line says, and writes the reply.
    pub fn obey<L, O: Subject<L>>(&mut self, object: &mut O, word: &str, rest: &str)
        requires { O.can_poll }
    {
        self.counter.begin(most_of(word));
        let done = self.set(word, rest);
        self.counter.end();
        let reply = match (word, done) {
            ("poll", _) => self.poll(object, rest),
            ("drain", _) => self.drain(object, rest),
            (_, Some(reply)) => reply,
            (_, None) => self.call_line(object, word, rest),
        };
        self.reply.append(reply);
    }
}
