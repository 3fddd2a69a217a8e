//! A whole script: its bytes are read to the end, and a line is written for each of its lines.
ghost use Rattle.std.specs.Prelude.{◌≡◌, ◌≢◌, [], ◌++◌, ◌⊎◌, ℕ, true, take};
ghost use Rattle.std.specs.Prelude.{IfOk, IfErr, OnOk, OnErr, IfSome};
ghost use Rattle.std.specs.Io.KnownBytes.{Appends};
ghost use Rattle.futures.specs.Task.{Keeps};
ghost use Rattle.fbuf_program.specs.Script.{AppendsReplies, AppendsFirstReplies};
ghost use Rattle.fbuf_program.specs.Script.{AppendsPartOfReplies};
ghost use Rattle.fbuf_lines.specs.Session.{LineGives, first_session};
ghost use Rattle.fbuf_lines.specs.Reply.{reply_line};
ghost use Rattle.fbuf_lines.specs.declared.reply.Reply.{Reply};

use crate::watched::Watched;
use fbuf_lines::lines::first_line;
use fbuf_lines::session::Session;
use futures::task::Context;
use std::alloc::{AllocError, Global};
use std::io::{Read, Write};
use thiserror::Error;

/// Why a script did not get all its replies.
#[derive(Clone, Copy, Debug, PartialEq, Eq, Error)]
pub enum ScriptFault {
    /// A read failed, and nothing was written.
    #[error("read failed")]
    Read,
    /// A write failed or wrote no byte: a beginning of the replies was written.
    #[error("write failed")]
    Write,
    /// An allocation failed: the replies to the lines before were written, or nothing if it failed in a
    /// read.
    #[error("out of memory")]
    Memory,
}

// How many bytes one read asks for, at most.
const READ_SIZE: usize = 4096;

// Replies are written once they have this many bytes.
const WRITE_SIZE: usize = 8192;

/// Reads a script to its end, and writes one line of reply for each of its lines.
///
/// The futures are polled in the task of `cx`, and leave no waker there. An error of a read or a write
/// of any kind ends the script, and no call is made again. Does not flush.
///
/// Keeps in memory the whole input, up to 8,192 bytes of replies, and the target that was begun last.
/// Takes time in proportion to the input's bytes, and the time of the targets' calls.
pub fn script<R: Read + Drop, W: Write + Drop>(
    alloc: Global,
    cx: &mut Context<'_>,
    input: &mut Watched<R>,
    output: &mut Watched<W>,
) -> Result<(), ScriptFault>
    ensures ok { OnOk result (IfSome (R.remaining input.old.inner) (λ bytes.
        AppendsReplies bytes (W.contents output.old.inner) (W.contents output.new.inner))) }
    ensures unfailed { OnOk result ((input.new.failed ≡ input.old.failed)
        × (output.new.failed ≡ output.old.failed)) }
    ensures read { result ≡ Err ScriptFault.Read →
        (output.new ≡ output.old) × (input.new.failed ≡ true) }
    ensures write { result ≡ Err ScriptFault.Write → (output.new.failed ≡ true)
        × IfSome (R.remaining input.old.inner) (λ bytes.
        AppendsPartOfReplies bytes (W.contents output.old.inner) (W.contents output.new.inner)) }
    ensures memory { result ≡ Err ScriptFault.Memory → (output.new ≡ output.old)
        ⊎ IfSome (R.remaining input.old.inner) (λ bytes.
        AppendsFirstReplies bytes (W.contents output.old.inner) (W.contents output.new.inner)) }
    ensures kept { Keeps cx.old cx.new }
{
    let bytes = read_to_end(alloc, input)?;
    let mut session = Session::new();
    let mut replies = Vec::new(alloc);
    answer_all(alloc, cx, &bytes, &mut session, &mut replies, output)
}

fn read_to_end<R: Read + Drop>(
    alloc: Global,
    input: &mut Watched<R>,
) -> Result<Vec<u8>, ScriptFault>
    ensures ok { IfOk result (λ bytes.
        IfSome (R.remaining input.old.inner) (λ known. bytes.items ≡ known)) }
    ensures unfailed { OnOk result (input.new.failed ≡ input.old.failed) }
    ensures fault { IfErr result (λ fault.
        ((fault ≡ ScriptFault.Read) × (input.new.failed ≡ true)) ⊎ (fault ≡ ScriptFault.Memory)) }
{
    let mut bytes = Vec::new(alloc);
    let mut chunk = [0; READ_SIZE];
    for _ in 0..u64::MAX {
        let Ok(count) = input.read(&mut chunk) else {
            return Err(ScriptFault::Read);
        };
        if count == 0 {
            return Ok(bytes);
        }
        let Ok(()) = bytes.extend_from_slice(&chunk[..count]) else {
            return Err(ScriptFault::Memory);
        };
    }
    unreachable!()
}

// Carries out each line on a new session. Replies that are not written yet are in `replies`.
fn answer_all<W: Write + Drop>(
    alloc: Global,
    cx: &mut Context<'_>,
    bytes: &[u8],
    session: &mut Session,
    replies: &mut Vec<u8>,
    output: &mut Watched<W>,
) -> Result<(), ScriptFault>
    requires begins { session.old ≡ first_session }
    requires none { replies.old.items ≡ [] }
    ensures ok { OnOk result
        (AppendsReplies bytes.now (W.contents output.old.inner) (W.contents output.new.inner)) }
    ensures unfailed { OnOk result (output.new.failed ≡ output.old.failed) }
    ensures write { result ≡ Err ScriptFault.Write → (output.new.failed ≡ true)
        × AppendsPartOfReplies bytes.now (W.contents output.old.inner)
        (W.contents output.new.inner) }
    ensures memory { result ≡ Err ScriptFault.Memory →
        AppendsFirstReplies bytes.now (W.contents output.old.inner) (W.contents output.new.inner) }
    ensures read { result ≢ Err ScriptFault.Read }
    ensures kept { Keeps cx.old cx.new }
{
    let mut rest = bytes;
    while let Some((line, after)) = first_line(rest) {
        let Ok(()) = append_reply(alloc, session, line, cx, replies) else {
            write_all(output, replies)?;
            return Err(ScriptFault::Memory);
        };
        rest = after;
        if replies.len() < WRITE_SIZE {
            continue;
        }
        write_all(output, replies)?;
        replies.clear();
    }
    write_all(output, replies)
}

// Carries out one line, and appends the reply. If an allocation fails, the text does not change.
fn append_reply(
    alloc: Global,
    session: &mut Session,
    line: &[u8],
    cx: &mut Context<'_>,
    replies: &mut Vec<u8>,
) -> Result<(), AllocError>
    ensures ok { OnOk result ((reply : Reply) × LineGives session.old line.now reply session.new
        × (replies.new.items ≡ replies.old.items ++ reply_line reply)) }
    ensures err { OnErr result (replies.new.items ≡ replies.old.items) }
    ensures kept { Keeps cx.old cx.new }
{
    let reply = session.answer(alloc, line, cx)?;
    reply.append_to(replies)
}

#[tactic(auto, using(crate::proofs::ScriptLemmas::write_advances, crate::proofs::ScriptLemmas::write_unfailed))]
fn write_all<W: Write + Drop>(output: &mut Watched<W>, text: &[u8]) -> Result<(), ScriptFault>
    ensures ok { OnOk result
        (Appends (W.contents output.old.inner) (W.contents output.new.inner) text.now) }
    ensures unfailed { OnOk result (output.new.failed ≡ output.old.failed) }
    ensures fault { IfErr result (λ fault. (fault ≡ ScriptFault.Write)
        × (output.new.failed ≡ true)
        × ((count : ℕ) × Appends (W.contents output.old.inner) (W.contents output.new.inner)
        (take count text.now))) }
{
    let mut rest = text;
    while !rest.is_empty() {
        let Ok(count) = output.write(rest) else {
            return Err(ScriptFault::Write);
        };
        if count == 0 {
            return Err(ScriptFault::Write);
        }
        rest = &rest[count..];
    }
    Ok(())
}
