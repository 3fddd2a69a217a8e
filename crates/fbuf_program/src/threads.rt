//! A run in which threads wake the slots of one set.
ghost use Rattle.std.specs.Prelude.{◌≡◌, ◌≢◌, ℕ, ◌+◌, ◌*◌, ◌<◌, ◌≤◌, ⊤, sum};
ghost use Rattle.std.specs.Prelude.{IfOk, IfErr, OnOk, length, vec_len, vec_capacity};
ghost use Rattle.std.specs.Arc.{arc_value};
ghost use Rattle.std.specs.IoError.{error_kind};
ghost use Rattle.std.specs.declared.io.ErrorKind.TheVariants.{OutOfMemory};
ghost use Rattle.std.specs.Io.KnownBytes.{Appends};
ghost use Rattle.futures_buffered_core.specs.SlotMap.{no_slots};
ghost use Rattle.futures_buffered_unordered.specs.Held.{AllHeld};
ghost use Rattle.std.specs.List.{range_with_len};
ghost use Rattle.std.specs.List.Sorted.{IsNonDecreasing};
ghost use Rattle.std.specs.Option.{option_to_list};
ghost use Rattle.fbuf_program.specs.Threads.{AppendsThreadsLine, threads_line, times_in};
ghost use Rattle.fbuf_program.specs.Threads.{HoldsNumbers, GaveNumber};

use crate::counting_waker::{CountingWaker, MadeWakes, WakeCount};
use crate::waking_thread::{WakingThread, join_each};
use futures::executor::block_on;
use futures::task::{Context, Doorbell, Poll, Solo};
use futures::{Stream, StreamExt};
use futures_buffered_core::ready_core::NewFault;
use futures_buffered_core::ready_shared::{SharedReady, SharedWaker};
use futures_buffered_sets::futures_unordered_bounded::FuturesUnorderedBounded;
use futures_buffered_sets::poll_one::PollFuture;
use futures_buffered_sets::slot_future::SlotFuture;
use std::alloc::{AllocError, AllocFailed, AllocGlobal, Global};
use std::io;
use std::random::RandomSource;
use std::sync::{Arc, Mutex, Wait};
use std::thread::Threads;
use thiserror::Error;

/// How many threads a run has at most.
pub const MAX_THREADS: usize = 32;

/// How many wakes each of its threads makes at most.
pub const MAX_WAKES: usize = 1000000;

const _: () = prove!(MAX_THREADS == 32);

const _: () = prove!(MAX_WAKES == 1000000);

/// Why a run did not print its line, or may not have printed all of it.
#[derive(Clone, Copy, Debug, PartialEq, Eq, Error)]
pub enum ThreadsFault {
    /// An allocation failed, or a future left no waker; nothing was written.
    #[error("out of memory")]
    Memory,
    /// A thread, or the run itself, could not be started; nothing was written.
    #[error("thread failed")]
    Thread,
    /// A write failed; a beginning of the line was written.
    #[error("write failed")]
    Write,
}

impl From<AllocError> for ThreadsFault {
    ghost use Rattle.fbuf_program.specs.declared.threads.ThreadsFault.TheVariants.{Memory};

    ghost from_gives = { λ _ fault. fault ≡ Memory };

    fn from(_error: AllocError) -> ThreadsFault {
        ThreadsFault::Memory
    }
}

impl<T: Drop> From<AllocFailed<T>> for ThreadsFault {
    ghost use Rattle.std.specs.Prelude.{◌≡◌};
    ghost use Rattle.fbuf_program.specs.declared.threads.ThreadsFault.TheVariants.{Memory};

    ghost from_gives = { λ _ fault. fault ≡ Memory };

    fn from(_failed: AllocFailed<T>) -> ThreadsFault {
        ThreadsFault::Memory
    }
}

/// What a thread passes before and after each of its wakes.
pub trait Gate {
    // At which wakes a thread may pass the gate.
    ghost opens: { Self → ℕ → ℕ → Type 0 } = { λ _ _ _. ⊤ };

    fn before(&self, thread: usize, wake: usize)
        requires { opens self.now thread wake };

    fn after(&self, thread: usize, wake: usize)
        requires { opens self.now thread wake };
}

/// Lets each wake pass at once.
#[derive(Drop)]
pub struct OpenGate;

impl Gate for OpenGate {
    fn before(&self, _thread: usize, _wake: usize) {}

    fn after(&self, _thread: usize, _wake: usize) {}
}

// What a future and the thread that wakes it share.
#[derive(Drop)]
struct Seat {
    count: WakeCount,
    waker: Mutex<Option<SharedWaker>>,
}

// A future that is ready with its number once its seat has counted all wakes.
#[derive(Drop)]
struct AllWakes<R> {
    rt: R,
    number: usize,
    goal: u64,
    seat: Arc<Seat>,
}

impl<R: Wait + Drop> SlotFuture<SharedWaker> for AllWakes<R> {
    ghost use Rattle.fbuf_program.specs.Threads.{AnswersNumber};

    type Output = usize;

    ghost polled = { AnswersNumber };

    fn poll(&mut self, waker: &SharedWaker) -> Poll<usize> {
        if self.seat.count.wakes() >= self.goal {
            return Poll::Ready(self.number);
        }
        let mut kept = self.seat.waker.lock(&self.rt);
        if kept.is_none() {
            *kept = waker.try_clone().ok();
        }
        Poll::Pending
    }
}

type Set<R> = FuturesUnorderedBounded<AllWakes<R>, SharedReady>;

// The outputs of the futures of a set, as a stream of numbers.
#[derive(Drop)]
struct Numbers<R: Wait + Drop> {
    set: Set<R>,
}

impl<R: Wait + Drop> Stream for Numbers<R> {
    ghost use Rattle.fbuf_program.specs.Threads.{GiveNumbers};

    type Item = usize;

    ghost yields = { λ numbers. GiveNumbers numbers.set.slots };

    #[tactic(auto, using(crate::proofs::ThreadsLemmas::first_given, crate::proofs::ThreadsLemmas::rest_given, crate::proofs::ThreadsLemmas::same_given))]
    fn poll_next(&mut self, cx: &mut Context<'_>) -> Poll<Option<usize>> {
        self.set.poll_next(cx)
    }
}

// Makes the wakes of one thread.
fn wake_slot<G: Gate>(
    gate: &G,
    thread: usize,
    m: usize,
    waker: CountingWaker<'_, SharedWaker>,
) -> MadeWakes
    requires opens { (wake : ℕ) → wake < m → G.opens gate.now thread wake }
    requires first { waker ≡ 0 }
    ensures { result ≡ m }
{
    let mut waker = waker;
    for wake in 0..m {
        gate.before(thread, wake);
        waker.wake();
        gate.after(thread, wake);
    }
    waker.made()
}

// Makes a seat for each future, in order. The set then holds a future of each number below n.
fn seated<R: Wait + Clone + Drop>(
    rt: &R,
    alloc: Global,
    n: usize,
    m: usize,
    set: &mut Set<R>,
) -> Result<Vec<Arc<Seat>>, ThreadsFault>
    requires { set.old.slots ≡ no_slots n }
    ensures seats { IfOk result (λ seats. vec_len seats ≡ n) }
    ensures numbers { OnOk result (HoldsNumbers set.new.slots (range_with_len 0 n)) }
    ensures goals { OnOk result (AllHeld (λ future. future.goal ≡ m) set.new.slots) }
    ensures fault { IfErr result (λ fault. fault ≡ ThreadsFault.Memory) }
{
    let mut seats = Vec::with_capacity(alloc, n)?;
    for number in 0..n {
        let seat = Seat {
            count: WakeCount::new(),
            waker: Mutex::new(None),
        };
        let seat = Arc::new(alloc, seat)?;
        let future = AllWakes {
            rt: rt.clone()?,
            number,
            goal: m as u64,
            seat: Arc::try_clone(&seat)?,
        };
        seats.push_reserved(seat);
        match set.try_push(future) {
            Ok(()) => {}
            Err(_) => unreachable!(),
        }
    }
    Ok(seats)
}

// Starts a thread for each seat. The threads that did start are in `started`, also at a fault.
fn start<R, G>(
    rt: R,
    m: usize,
    gate: &Arc<G>,
    seats: &[Arc<Seat>],
    started: &mut Vec<WakingThread>,
) -> Result<(), ThreadsFault>
where
    R: Threads + Wait + Copy + Send + Sync + 'static,
    G: Gate + Drop + Send + Sync + 'static,
    requires room { vec_len started.old + length seats.now ≤ vec_capacity started.old }
    requires opens { (thread wake : ℕ) → thread < length seats.now → wake < m →
        G.opens (arc_value gate.now) thread wake }
    ensures wakes { OnOk result (sum started.new.items ≡ sum started.old.items + length seats.now * m) }
    ensures fault { IfErr result (λ fault. fault ≢ ThreadsFault.Write) }
{
    for (thread, seat) in seats.iter().enumerate() {
        let Some(waker) = seat.waker.lock(&rt).take() else {
            return Err(ThreadsFault::Memory);
        };
        let gate = Arc::try_clone(gate)?;
        let seat = Arc::try_clone(seat)?;
        let wakes = move ||
            requires { (wake : ℕ) → wake < m → G.opens (arc_value gate) thread wake }
            ensures { result ≡ m }
        { wake_slot(&*gate, thread, m, CountingWaker::new(waker, &seat.count)) };
        let Some(one) = WakingThread::start(&rt, m, wakes) else {
            return Err(ThreadsFault::Thread);
        };
        started.push_reserved(one);
    }
    Ok(())
}

fn new_set<R: Wait + Drop>(alloc: Global, n: usize) -> Result<Set<R>, ThreadsFault>
    requires { n ≤ MAX_THREADS }
    ensures set { IfOk result (λ set. set.slots ≡ no_slots n) }
    ensures fault { IfErr result (λ fault. fault ≡ ThreadsFault.Memory) }
{
    match FuturesUnorderedBounded::new(alloc, n) {
        Ok(set) => Ok(set),
        Err(NewFault::Memory) => Err(ThreadsFault::Memory),
        Err(NewFault::TooLarge) => unreachable!(),
    }
}

// Returns why a task of the run could not be begun.
fn fault_of(error: io::Error) -> ThreadsFault
    ensures memory { error_kind error ≡ OutOfMemory → result ≡ ThreadsFault.Memory }
    ensures other { error_kind error ≢ OutOfMemory → result ≡ ThreadsFault.Thread }
{
    match error.kind() {
        io::ErrorKind::OutOfMemory => ThreadsFault::Memory,
        _ => ThreadsFault::Thread,
    }
}

// Polls the set once. If no future is done, the poll reaches each future, which keeps its waker.
// Otherwise returns the first output.
fn poll_once<R: Wait + RandomSource + AllocGlobal + Drop>(
    rt: &R,
    set: &mut Set<R>,
) -> Result<Option<usize>, ThreadsFault>
    ensures numbers { IfOk result (λ first. GaveNumber set.old.slots first set.new.slots) }
    ensures fault { IfErr result (λ fault. fault ≢ ThreadsFault.Write) }
{
    let solo = match Solo::new(rt, Doorbell::spinning()) {
        Ok(solo) => solo,
        Err(error) => return Err(fault_of(error)),
    };
    let mut cx = solo.begin();
    let polled = set.poll_with(&PollFuture, &mut cx);
    cx.cancel();
    match polled {
        Poll::Ready(first) => Ok(first),
        Poll::Pending => Ok(None),
    }
}

// Returns the outputs of all futures of the set.
fn outputs_of<R: Wait + RandomSource + AllocGlobal + Drop>(
    rt: &R,
    alloc: Global,
    set: Set<R>,
) -> Result<Vec<usize>, ThreadsFault>
    ensures numbers { IfOk result (λ outputs. HoldsNumbers set.slots outputs.items) }
    ensures fault { IfErr result (λ fault. fault ≢ ThreadsFault.Write) }
{
    match block_on(rt, Numbers { set }.collect(alloc)) {
        Ok(Ok(outputs)) => Ok(outputs),
        Ok(Err(_)) => Err(ThreadsFault::Memory),
        Err(error) => Err(fault_of(error)),
    }
}

// Starts the threads, and returns the outputs of all futures of the set.
fn run_started<R, G>(
    rt: R,
    alloc: Global,
    m: usize,
    gate: &Arc<G>,
    seats: &[Arc<Seat>],
    set: Set<R>,
    started: &mut Vec<WakingThread>,
) -> Result<Vec<usize>, ThreadsFault>
where
    R: Threads + Wait + RandomSource + AllocGlobal + Copy + Send + Sync + 'static,
    G: Gate + Drop + Send + Sync + 'static,
    requires room { vec_len started.old + length seats.now ≤ vec_capacity started.old }
    requires opens { (thread wake : ℕ) → thread < length seats.now → wake < m →
        G.opens (arc_value gate.now) thread wake }
    ensures numbers { IfOk result (λ outputs. HoldsNumbers set.slots outputs.items) }
    ensures wakes { OnOk result (sum started.new.items ≡ sum started.old.items + length seats.now * m) }
    ensures fault { IfErr result (λ fault. fault ≢ ThreadsFault.Write) }
{
    start(rt, m, gate, seats, started)?;
    outputs_of(&rt, alloc, set)
}

// Returns all outputs in rising order: the outputs after the first poll, and its own, if any.
fn in_rising_order(outputs: Vec<usize>, first: Option<usize>) -> Result<Vec<usize>, ThreadsFault>
    ensures all { IfOk result (λ all. (k : ℕ) → times_in all.items k
        ≡ times_in outputs.items k + times_in (option_to_list first) k) }
    ensures rising { IfOk result (λ all. IsNonDecreasing all.items) }
    ensures fault { IfErr result (λ fault. fault ≡ ThreadsFault.Memory) }
{
    let mut all = outputs;
    if let Some(number) = first {
        all.push(number)?;
    }
    all.sort_unstable();
    Ok(all)
}

// Runs the threads to their end, and returns the outputs and the wakes that the threads made.
fn outputs_after_all<R, G>(
    rt: R,
    alloc: Global,
    n: usize,
    m: usize,
    gate: G,
) -> Result<(Vec<usize>, MadeWakes), ThreadsFault>
where
    R: Threads + Wait + RandomSource + AllocGlobal + Copy + Send + Sync + 'static,
    G: Gate + Drop + Send + Sync + 'static,
    requires threads { n ≤ MAX_THREADS }
    requires wakes { m ≤ MAX_WAKES }
    requires opens { (thread wake : ℕ) → thread < n → wake < m → G.opens gate thread wake }
    ensures outputs { IfOk result (λ ended. ended.0.items ≡ range_with_len 0 n) }
    ensures wakes { IfOk result (λ ended. ended.1 ≡ n * m) }
    ensures fault { IfErr result (λ fault. fault ≢ ThreadsFault.Write) }
{
    let mut set = new_set(alloc, n)?;
    let seats = seated(&rt, alloc, n, m, &mut set)?;
    let gate = Arc::new(alloc, gate)?;
    let first = poll_once(&rt, &mut set)?;
    let mut started = Vec::with_capacity(alloc, n)?;
    let outputs = run_started(rt, alloc, m, &gate, &seats, set, &mut started);
    let made = join_each(&rt, started);
    Ok((in_rising_order(outputs?, first)?, made))
}

#[tactic(auto, using(crate::proofs::ThreadsLemmas::line_begins, crate::proofs::ThreadsLemmas::line_grows, crate::proofs::ThreadsLemmas::line_ends))]
fn write_line<W: io::Write>(
    output: &mut W,
    n: usize,
    made: &MadeWakes,
    outputs: &[usize],
) -> io::Result<()>
    ensures { OnOk result (Appends (W.contents output.old) (W.contents output.new)
        (threads_line n made.now outputs.now)) }
{
    write!(output, "threads {n} wakes {} outputs", made.count())?;
    for number in outputs {
        write!(output, " {number}")?;
    }
    writeln!(output)?;
    output.flush()?;
    Ok(())
}

/// Holds `n` futures in a set, and starts as many threads. Thread i adds one to the counter of future i
/// and wakes its slot, `m` times, and passes the gate before and after each of these wakes. Future i is
/// ready with i once its counter is `m`. Writes a line with the outputs in rising order, and flushes it.
/// If `m` is 0 and `n` is not, fails with `Memory`: the futures are done before they leave a waker.
///
/// Each thread that was started has ended when the call returns, also at a fault. Allocates for `n`
/// threads, slots and counters. A wake waits for no thread.
pub fn threads_run<R, G, W>(
    rt: R,
    alloc: Global,
    n: usize,
    m: usize,
    gate: G,
    output: &mut W,
) -> Result<(), ThreadsFault>
where
    R: Threads + Wait + RandomSource + AllocGlobal + Copy + Send + Sync + 'static,
    G: Gate + Drop + Send + Sync + 'static,
    W: io::Write,
    requires threads { n ≤ MAX_THREADS }
    requires wakes { m ≤ MAX_WAKES }
    requires opens { (thread wake : ℕ) → thread < n → wake < m → G.opens gate thread wake }
    ensures ok { OnOk result
        (AppendsThreadsLine n m (W.contents output.old) (W.contents output.new)) }
    ensures unwritten { IfErr result (λ fault.
        fault ≢ ThreadsFault.Write → output.new ≡ output.old) }
{
    let (outputs, made) = outputs_after_all(rt, alloc, n, m, gate)?;
    match write_line(output, n, &made, &outputs) {
        Ok(()) => Ok(()),
        Err(_) => Err(ThreadsFault::Write),
    }
}
