// The clerk's program: the trace on standard input is answered on standard output. Blocks of up to 65,536 bytes are read, and the answers to
// the lines that a block completes are written before the next is read.
#![tactic(auto)]

ghost use Rattle.std.specs.Prelude.{◌≤◌, ◌<◌, ◌-◌, ◌^◌, length, ◌≡◌, IfOk, IfSome, OnErr, OnOk};
ghost use Rattle.std.specs.Io.KnownBytes.{Appends};
ghost use Rattle.lines.specs.Said.{longest_answer};
ghost use Rattle.trace.specs.Feeding.{begun, after_all, answers_all};
ghost use Rattle.trace.specs.Traced.{traced};
ghost use Rattle.clerk.specs.Answered.{Answered, AppendsSome};

use std::io;
use std::io::{Error, ErrorKind, Read, Write};
use trace::Trace;

// Writes all of some bytes, as `write_all` does, and says what an error leaves: a beginning of them is written, and nothing else.
fn write_out<W: Write>(to: &mut W, bytes: &[u8]) -> io::Result<()>
    ensures ok { OnOk result (Appends (W.contents to.old) (W.contents to.new) bytes.now) }
    ensures err { OnErr result (AppendsSome (W.contents to.old) (W.contents to.new) bytes.now) }
{
    let mut rest = bytes;
    for _ in 0..u64::MAX {
        if rest.is_empty() {
            return Ok(());
        }
        match to.write(rest) {
            Ok(0) => {
                let message = "failed to write whole buffer";
                return Err(Error::new(ErrorKind::WriteZero, message));
            }
            Ok(n) => rest = &rest[n..],
            Err(e) => {
                if e.kind() != ErrorKind::Interrupted {
                    return Err(e);
                }
            }
        }
    }
    let message = "gave up reading or writing after 2^64 tries";
    Err(Error::new(ErrorKind::TimedOut, message))
}

// Feeds a block, and writes the answers by way of a buffer. It stops at the first that cannot be written: none is left out, and a beginning
// of the answers is written.
fn answer<W: Write>(trace: Trace, block: &[u8], out: &mut [u8], to: &mut W) -> io::Result<Trace>
    requires { longest_answer ≤ length out.old }
    ensures trace { IfOk result (λ t. t ≡ after_all trace block.now) }
    ensures written { OnOk result (Appends (W.contents to.old) (W.contents to.new) (answers_all trace block.now)) }
    ensures err { OnErr result (length out.new ≡ length out.old) }
    ensures err_written { OnErr result (AppendsSome (W.contents to.old) (W.contents to.new) (answers_all trace block.now)) }
{
    let mut t = trace;
    let mut rest = block;
    while !rest.is_empty() {
        let f = trace::feed_into(t, rest, out);
        write_out(to, &out[..f.written])?;
        t = f.trace;
        rest = &rest[f.taken..];
    }
    Ok(t)
}

// Answers the input block by block to its end, or until it cannot be read or an answer cannot be written. A proved loop has to end, and nothing
// says that the input does: so the turns are counted up to a number that no run reaches.
fn answer_all<R: Read, W: Write>(
    block: &mut [u8],
    out: &mut [u8],
    from: &mut R,
    to: &mut W,
) -> io::Result<Trace>
    requires { longest_answer ≤ length out.old }
    ensures ok { IfOk result (λ t. 0 < length block.old → Answered (R.remaining from.old) (R.remaining from.new) (W.contents to.old) (W.contents to.new) t) }
    ensures err { OnErr result (length out.new ≡ length out.old) }
    ensures err_block { OnErr result (length block.new ≡ length block.old) }
    ensures err_written { OnErr result (IfSome (R.remaining from.old) (λ input. AppendsSome (W.contents to.old) (W.contents to.new) (answers_all begun input))) }
{
    let mut t = trace::begin();
    for _ in 0..u64::MAX {
        let n = from.read(block)?;
        if n == 0 {
            return Ok(t);
        }
        t = answer(t, &block[..n], out, to)?;
    }
    Ok(t)
}

// Answers all that the input gives, and its end: where the bytes are known, what is written is the trace's whole output, and at an error a
// beginning of it.
fn run<R: Read, W: Write>(from: &mut R, to: &mut W) -> io::Result<()>
    ensures ok { OnOk result (IfSome (R.remaining from.old) (λ input. length input < 2 ^ 64 - 1 → Appends (W.contents to.old) (W.contents to.new) (traced input))) }
    ensures err { OnErr result (IfSome (R.remaining from.old) (λ input. length input < 2 ^ 64 - 1 → AppendsSome (W.contents to.old) (W.contents to.new) (traced input))) }
{
    let mut block = [0; 65536];
    let mut out = [0; 65536];
    let t = answer_all(&mut block, &mut out, from, to)?;
    let last = trace::end(t);
    write_out(to, &last.answer[..last.count as usize])
}

fn main(rt: HostRuntime) -> io::Result<()> {
    run(&mut rt.stdin(), &mut rt.stdout())
}
