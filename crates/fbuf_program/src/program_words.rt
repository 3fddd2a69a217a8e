//! The program as a function of its words: what it reads, what it writes, and its exit status.
ghost use Rattle.std.specs.Prelude.{◌≡◌, ◌≢◌, ◌≤◌, ◌↔◌, ◌⊎◌, ℕ, map, Some, None, Err};
ghost use Rattle.std.specs.Prelude.{IfSome, IfNone, IfOk, IfErr, OnOk};
ghost use Rattle.std.specs.IoError.{error_kind};
ghost use Rattle.std.specs.declared.io.ErrorKind.TheVariants.{OutOfMemory};
ghost use Rattle.std.specs.Vec.Iter.{into_iter_items};
ghost use Rattle.std.specs.String.{string_bytes};
ghost use Rattle.std.specs.Fmt.{decimal};
ghost use Rattle.fbuf_program.specs.ProgramWords.{WordsAskFor, ProgramEnds, EndsScript};
ghost use Rattle.fbuf_program.specs.ProgramWords.{status_of, ended_status};
ghost use Rattle.fbuf_program.specs.Threads.{AppendsThreadsLine};

use crate::script::{ScriptFault, script};
use crate::threads::{MAX_THREADS, MAX_WAKES, OpenGate, ThreadsFault, threads_run};
use crate::watched::Watched;
use fbuf_lines::command::number;
use futures::task::{Doorbell, Solo};
use std::alloc::AllocGlobal;
use std::env::Args;
use std::io;
use std::io::{ErrorKind, Read, Write};
use std::random::RandomSource;
use std::sync::Wait;
use std::thread::Threads;

// Why the program ends with a status other than 0.
#[derive(Clone, Copy, Debug, PartialEq, Eq)]
enum Fault {
    Usage,
    Memory,
    Read,
    Write,
    Start,
}

impl Fault {
    ghost use Rattle.fbuf_program.specs.ProgramWords.{message_of, status_of};

    fn message(self) -> &'static str
        ensures { result.now ≡ message_of self }
    {
        match self {
            Fault::Usage => "usage: fbuf, or fbuf threads N M",
            Fault::Memory => "out of memory",
            Fault::Read => "read failed",
            Fault::Write => "write failed",
            Fault::Start => "thread failed",
        }
    }

    fn status(self) -> u8
        ensures { result ≡ status_of self }
    {
        match self {
            Fault::Usage => 2,
            _ => 1,
        }
    }
}

impl From<ScriptFault> for Fault {
    ghost use Rattle.std.specs.Prelude.{◌≡◌};
    ghost use Rattle.fbuf_program.specs.ProgramWords.{fault_of_script};

    ghost from_gives = { λ fault given. given ≡ fault_of_script fault };

    fn from(fault: ScriptFault) -> Fault {
        match fault {
            ScriptFault::Read => Fault::Read,
            ScriptFault::Write => Fault::Write,
            ScriptFault::Memory => Fault::Memory,
        }
    }
}

impl From<ThreadsFault> for Fault {
    ghost use Rattle.std.specs.Prelude.{◌≡◌};
    ghost use Rattle.fbuf_program.specs.ProgramWords.{fault_of_threads};

    ghost from_gives = { λ fault given. given ≡ fault_of_threads fault };

    fn from(fault: ThreadsFault) -> Fault {
        match fault {
            ThreadsFault::Memory => Fault::Memory,
            ThreadsFault::Thread => Fault::Start,
            ThreadsFault::Write => Fault::Write,
        }
    }
}

// What the words ask for.
#[derive(Clone, Copy, Debug, PartialEq, Eq)]
enum Call {
    Script,
    Threads { threads: usize, wakes: usize },
}

// Returns what the words ask for, of which the first is the program's name, or `None` if they are no
// call.
fn call_of(mut words: Args) -> Option<Call>
    ensures { WordsAskFor (map string_bytes (into_iter_items words)) result }
{
    let Some(_name) = words.next() else {
        return Some(Call::Script);
    };
    let Some(first) = words.next() else {
        return Some(Call::Script);
    };
    let threads = up_to(words.next()?.as_bytes(), MAX_THREADS)?;
    let wakes = up_to(words.next()?.as_bytes(), MAX_WAKES)?;
    if first.as_bytes() == b"threads".as_slice() && words.next().is_none() {
        return Some(Call::Threads { threads, wakes });
    }
    None
}

// Returns the number that the word writes, if it is from 1 to `most`.
fn up_to(word: &[u8], most: usize) -> Option<usize>
    ensures some { IfSome result (λ n. (1 ≤ n) × (n ≤ most) × (word.now ≡ decimal n)) }
    ensures none { IfNone result ((n : ℕ) → 1 ≤ n → n ≤ most → word.now ≢ decimal n) }
{
    let n = number(word)? as usize;
    if n == 0 || n > most {
        return None;
    }
    Some(n)
}

/// Does what the words of a call ask for, and returns the exit status.
///
/// `words` are the words of the program's call, first its name, as `std::env::args` returns them. An
/// error there, except of a failed allocation, says that a word was no text.
///
/// - Without a word after the name, writes the replies to the script on `input` to `output`.
/// - `threads N M` runs N threads, each of which wakes a slot M times, and writes a line.
/// - For any other words, writes the usage text to `errors`, and returns 2.
///
/// Returns 0 if that succeeds, and 1 with a line on `errors` if an allocation, the start of a thread, a
/// read or a write failed. A failed write to `errors` changes nothing. Takes the time, and allocates
/// the memory, of the script or of the run of threads.
pub fn run_words<T, R, W, E>(
    rt: &T,
    words: io::Result<Args>,
    input: &mut Watched<R>,
    output: &mut Watched<W>,
    errors: &mut E,
) -> u8
where
    T: Threads + Wait + RandomSource + AllocGlobal + Copy + Send + Sync + 'static,
    R: Read + Drop,
    W: Write + Drop,
    E: Write,
    ensures low { result ≤ 2 }
    ensures usage { IfOk words (λ given.
        (result ≡ 2) ↔ WordsAskFor (map string_bytes (into_iter_items given)) None) }
    ensures untouched { result ≡ 2 → (input.new ≡ input.old) × (output.new ≡ output.old) }
    ensures ends { IfOk words (λ given. (call : Call) →
        WordsAskFor (map string_bytes (into_iter_items given)) (Some call) →
        ProgramEnds call result (R.remaining input.old.inner) (W.contents output.old.inner)
        (W.contents output.new.inner)) }
    ensures words { IfErr words (λ _. (1 ≤ result) × (input.new ≡ input.old)
        × (output.new ≡ output.old)) }
    ensures quiet { result ≡ 0 → errors.new ≡ errors.old }
{
    let ended = match words {
        Ok(given) => do_call(rt, given, input, output),
        Err(error) => Err(start_fault(&error, Fault::Usage)),
    };
    match ended {
        Ok(()) => 0,
        Err(fault) => {
            let text = fault.message();
            let _ = writeln!(errors, "fbuf: {text}");
            fault.status()
        }
    }
}

// Carries out the call.
#[tactic(auto, using(crate::proofs::ProgramWordsLemmas::threads_end, crate::proofs::ProgramWordsLemmas::done_at_zero))]
fn do_call<T, R, W>(
    rt: &T,
    words: Args,
    input: &mut Watched<R>,
    output: &mut Watched<W>,
) -> Result<(), Fault>
where
    T: Threads + Wait + RandomSource + AllocGlobal + Copy + Send + Sync + 'static,
    R: Read + Drop,
    W: Write + Drop,
    ensures usage { (result ≡ Err Fault.Usage)
        ↔ WordsAskFor (map string_bytes (into_iter_items words)) None }
    ensures untouched { result ≡ Err Fault.Usage →
        (input.new ≡ input.old) × (output.new ≡ output.old) }
    ensures ends { (call : Call) →
        WordsAskFor (map string_bytes (into_iter_items words)) (Some call) →
        ProgramEnds call (ended_status result) (R.remaining input.old.inner)
        (W.contents output.old.inner) (W.contents output.new.inner) }
{
    match call_of(words) {
        None => Err(Fault::Usage),
        Some(Call::Script) => answer_script(rt, input, output),
        Some(Call::Threads { threads, wakes }) => run_threads(rt, threads, wakes, output),
    }
}

fn run_threads<T, W>(
    rt: &T,
    threads: usize,
    wakes: usize,
    output: &mut Watched<W>,
) -> Result<(), Fault>
where
    T: Threads + Wait + RandomSource + AllocGlobal + Copy + Send + Sync + 'static,
    W: Write + Drop,
    requires threads { threads ≤ MAX_THREADS }
    requires wakes { wakes ≤ MAX_WAKES }
    ensures ok { OnOk result (AppendsThreadsLine threads wakes (W.contents output.old.inner)
        (W.contents output.new.inner)) }
    ensures fault { IfErr result (λ fault. status_of fault ≡ 1) }
{
    Ok(threads_run(*rt, rt.alloc(), threads, wakes, OpenGate, output)?)
}

// Replies to the script in one poll of a task of its own, which nothing wakes.
fn answer_script<T, R, W>(
    rt: &T,
    input: &mut Watched<R>,
    output: &mut Watched<W>,
) -> Result<(), Fault>
where
    T: RandomSource + AllocGlobal,
    R: Read + Drop,
    W: Write + Drop,
    ensures ends { IfSome (R.remaining input.old.inner) (λ bytes. EndsScript (ended_status result)
        bytes (W.contents output.old.inner) (W.contents output.new.inner)) }
    ensures fault { IfErr result (λ fault. status_of fault ≡ 1) }
{
    let solo = match Solo::new(rt, Doorbell::spinning()) {
        Ok(solo) => solo,
        Err(error) => return Err(start_fault(&error, Fault::Start)),
    };
    let mut cx = solo.begin();
    let answered = script(rt.alloc(), &mut cx, input, output);
    cx.cancel();
    match answered {
        Ok(()) => Ok(()),
        Err(fault) => Err(Fault::from(fault)),
    }
}

// Returns the fault of a call that did not begin: a failed allocation, or `other`.
fn start_fault(error: &io::Error, other: Fault) -> Fault
    ensures memory { error_kind error.now ≡ OutOfMemory → result ≡ Fault.Memory }
    ensures other { error_kind error.now ≢ OutOfMemory → result ≡ other }
    ensures either { (result ≡ Fault.Memory) ⊎ (result ≡ other) }
{
    match error.kind() {
        ErrorKind::OutOfMemory => Fault::Memory,
        _ => other,
    }
}
