//! Scripts that are answered over readers and writers that take a few bytes at a time, or that fail.
use crate::fakes::{Limits, ROOMY, Sink, Source};
use crate::same::assert_same;
use fbuf_program::script::{ScriptFault, script};
use fbuf_program::watched::Watched;
use futures::test::MockTask;
use std::alloc::{AllocGlobal, Global};
use std::io;
use std::io::Write;
use std::process::Abort;
use std::random::RandomSource;
use std::test::Fail;

// A script and its replies.
type Lines<'a> = (&'a [u8], &'a [u8]);

const TEXT: &[u8] = b"unordered 2\npush 7 0\npoll\nlen\n";

const REPLIES: &[u8] = b"ok\nok\nsome 7\n0\n";

// How it ended, whether its reader and its writer failed, how many bytes were written, and in how many writes.
type Ended = (Result<(), ScriptFault>, (bool, bool), usize, usize);

// What was written is a beginning of the replies.
fn ends(
    rt: &(impl Abort + RandomSource + AllocGlobal),
    (text, replies): Lines<'_>,
    reads: Limits,
    writes: Limits,
) -> Result<Ended, Fail> {
    let task = MockTask::new(rt)?;
    let mut input = Watched::new(Source::new(text, reads));
    let mut output = Watched::new(Sink::new(rt.alloc(), writes));
    let answer = task.enter(|cx| script(rt.alloc(), cx, &mut input, &mut output));
    let failed = (input.failed(), output.failed());
    let Sink { bytes, limits, .. } = output.into_inner();
    assert!(rt; replies.starts_with(bytes.as_slice()));
    Ok((
        answer,
        failed,
        bytes.len(),
        writes.1.saturating_sub(limits.1),
    ))
}

#[test]
fn reads_and_writes_a_byte_at_a_time(rt: HostRuntime) -> Result<(), Fail> {
    let ended = ends(&rt, (TEXT, REPLIES), (1, usize::MAX), (1, usize::MAX))?;
    let length = REPLIES.len();
    assert_same(&rt, ended, (Ok(()), (false, false), length, length));
    Ok(())
}

#[test]
fn writes_nothing_where_a_read_fails(rt: HostRuntime) -> Result<(), Fail> {
    for reads in 0..=TEXT.len() {
        let ended = ends(&rt, (TEXT, REPLIES), (1, reads), ROOMY)?;
        assert_same(&rt, ended, (Err(ScriptFault::Read), (true, false), 0, 0));
    }
    Ok(())
}

// The write behind so many writes of a byte fails.
fn assert_beginning(
    rt: &(impl Abort + RandomSource + AllocGlobal),
    lines: Lines<'_>,
    writes: usize,
) -> Result<(), Fail> {
    let ended = ends(rt, lines, ROOMY, (1, writes))?;
    assert_same(
        rt,
        ended,
        (Err(ScriptFault::Write), (false, true), writes, writes),
    );
    Ok(())
}

#[test]
fn writes_a_beginning_where_a_write_fails(rt: HostRuntime) -> Result<(), Fail> {
    for writes in 0..REPLIES.len() {
        assert_beginning(&rt, (TEXT, REPLIES), writes)?;
    }
    Ok(())
}

#[test]
fn a_write_that_takes_nothing_fails(rt: HostRuntime) -> Result<(), Fail> {
    let ended = ends(&rt, (TEXT, REPLIES), ROOMY, (0, usize::MAX))?;
    assert_same(&rt, ended, (Err(ScriptFault::Write), (false, true), 0, 1));
    Ok(())
}

// It is one line that does not stand, and those around it are answered as ever.
#[test]
fn a_line_of_a_million_bytes_is_one_bad(rt: HostRuntime) -> Result<(), Fail> {
    let line = vec![in rt.alloc(); b'7'; 1_000_000]?;
    let mut text = Vec::new(rt.alloc());
    text.extend_from_slice(b"unordered 1\n")?;
    text.extend_from_slice(line.as_slice())?;
    text.extend_from_slice(b"\nlen\n")?;
    let ended = ends(
        &rt,
        (text.as_slice(), b"ok\nbad\n0\n".as_slice()),
        ROOMY,
        ROOMY,
    )?;
    assert_same(&rt, ended, (Ok(()), (false, false), 9, 1));
    Ok(())
}

// Replies are written as soon as they have so many bytes.
const PART: usize = 8_192;

// The longest reply line of a long script.
const LONGEST: usize = 10;

// A script that pushes and polls numbers, and its replies, which have a little over three parts.
#[derive(Drop)]
struct Long {
    text: Vec<u8>,
    replies: Vec<u8>,
}

impl Long {
    fn add_number(&mut self, number: u64) -> io::Result<()> {
        writeln!(self.text, "push {number} 0\npoll")?;
        writeln!(self.replies, "ok\nsome {number}")
    }

    fn add_numbers(&mut self) -> io::Result<()> {
        writeln!(self.text, "unordered 1")?;
        writeln!(self.replies, "ok")?;
        for number in 0..2_000 {
            self.add_number(number)?;
        }
        Ok(())
    }

    fn lines(&self) -> Lines<'_> {
        (self.text.as_slice(), self.replies.as_slice())
    }
}

fn new_long(alloc: Global) -> io::Result<Long> {
    let mut long = Long {
        text: Vec::new(alloc),
        replies: Vec::new(alloc),
    };
    long.add_numbers()?;
    Ok(long)
}

// Three parts, and then the rest.
#[test]
fn writes_long_replies_in_parts(rt: HostRuntime) -> Result<(), Fail> {
    let long = new_long(rt.alloc())?;
    let ended = ends(&rt, long.lines(), ROOMY, ROOMY)?;
    assert_same(&rt, ended, (Ok(()), (false, false), long.replies.len(), 4));
    Ok(())
}

fn assert_beginnings(
    rt: &(impl Abort + RandomSource + AllocGlobal),
    lines: Lines<'_>,
) -> Result<(), Fail> {
    for writes in [1, PART - 1, PART, PART + LONGEST, 12_345, 20_000] {
        assert_beginning(rt, lines, writes)?;
    }
    Ok(())
}

// A write in the midst fails, before, at and after the end of a part: every byte taken until then is one of the
// replies, in their order.
#[test]
fn writes_a_beginning_of_long_replies(rt: HostRuntime) -> Result<(), Fail> {
    let long = new_long(rt.alloc())?;
    assert_beginnings(&rt, long.lines())
}

// So many writes take whatever they are given, and the next fails: whole lines were written, and of the last part no
// line more than it needs.
fn assert_parts(
    rt: &(impl Abort + RandomSource + AllocGlobal),
    lines: Lines<'_>,
    writes: usize,
) -> Result<(), Fail> {
    let (answer, failed, bytes, made) = ends(rt, lines, ROOMY, (usize::MAX, writes))?;
    assert_same(
        rt,
        (answer, failed, made),
        (Err(ScriptFault::Write), (false, true), writes),
    );
    let least = writes.saturating_mul(PART);
    assert!(rt; bytes >= least);
    assert!(rt; bytes < least.saturating_add(writes.saturating_mul(LONGEST)));
    let last = lines.1.get(bytes.saturating_sub(1));
    assert_same(rt, last.copied(), Some(b'\n'));
    Ok(())
}

#[test]
fn writes_a_part_once_it_is_long_enough(rt: HostRuntime) -> Result<(), Fail> {
    let long = new_long(rt.alloc())?;
    assert_parts(&rt, long.lines(), 1)?;
    assert_parts(&rt, long.lines(), 3)
}

// The input is read to its end before a line is answered, so what fails after many lines leaves nothing written.
#[test]
fn writes_nothing_where_a_read_fails_after_many_lines(rt: HostRuntime) -> Result<(), Fail> {
    let long = new_long(rt.alloc())?;
    let wanted = (Err(ScriptFault::Read), (true, false), 0, 0);
    assert_same(&rt, ends(&rt, long.lines(), (1_000, 1), ROOMY)?, wanted);
    assert_same(&rt, ends(&rt, long.lines(), (1_000, 9), ROOMY)?, wanted);
    assert_same(&rt, ends(&rt, long.lines(), (1_000, 30), ROOMY)?, wanted);
    Ok(())
}
