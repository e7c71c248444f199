// The clerk's trace: lines of frames, each answered by a line; fed in parts of any length.
#![tactic(auto)]

ghost use Rattle.std.specs.Prelude.{◌≡◌, ◌+◌, ◌≤◌, length};
ghost use Rattle.std.proofs.Math.Seq.{paste};
ghost use Rattle.card.specs.Record.{masters};
ghost use Rattle.card.specs.Words.{FitAll};
ghost use Rattle.lines.specs.Said.{longest_answer};
ghost use Rattle.trace.specs.Feeding.{begun, fed, completed, ended, filling, Fills};
ghost use Rattle.trace.specs.Inner.{Holds, Ready, left_of, Turns};

use card::Card;
use derive::KEPT_WORDS;
use frames::{Held, KEPT, LONGEST, LONGEST_ANSWER};

// A trace read so far: the record, and the current line up to one sign more than the longest.
#[derive(Clone, Copy)]
pub struct Trace {
    pub held: Held,
    pub line: [u8; KEPT],
    pub count: usize,
}

// What a part gives: the trace after it, how many bytes were taken, and the answer's line; its count is 0 where no line was completed.
#[derive(Clone, Copy)]
pub struct Fed {
    pub trace: Trace,
    pub taken: usize,
    pub count: u8,
    pub answer: [u8; LONGEST_ANSWER],
}

// What a part gives that is fed into a buffer: the trace after it, how many bytes were taken, and how many were written.
#[derive(Clone, Copy)]
pub struct Filled {
    pub trace: Trace,
    pub taken: usize,
    pub written: usize,
}

// Of each master key how many words are kept: all or none.
#[derive(Clone, Copy)]
struct Words {
    ac: usize,
    smi: usize,
    smc: usize,
}

const NO_WORDS: Words = Words {
    ac: 0,
    smi: 0,
    smc: 0,
};

// A line fed, and the words left after it.
#[derive(Clone, Copy)]
struct Turned {
    fed: Fed,
    have: Words,
}

// The line of a trace is completed and answered, by the words of its record's keys that are lent.
fn complete(t: Trace, ac: &[u64], smi: &[u64], smc: &[u64], taken: usize) -> Fed
    requires { FitAll ac.now smi.now smc.now (masters t.held.card) }
    ensures { result ≡ completed t taken }
{
    let line = t.line;
    let s = frames::answer_kept(t.held, ac, smi, smc, line, t.count);
    let answer = s.answer;
    Fed {
        trace: Trace {
            held: s.held,
            line,
            count: 0,
        },
        taken,
        count: s.count,
        answer,
    }
}

// A trace before its first byte.
pub fn begin() -> Trace
    ensures { result ≡ begun }
{
    Trace {
        held: frames::none(),
        line: [0; KEPT],
        count: 0,
    }
}

// Feeds bytes up to and including the first line feed, which completes a line.
pub fn feed(t: Trace, input: &[u8]) -> Fed
    ensures { result ≡ fed t input.now }
{
    feed_kept(t, &[], &[], &[], input)
}

// The same, by the words of the record's keys that are lent.
fn feed_kept(t: Trace, ac: &[u64], smi: &[u64], smc: &[u64], input: &[u8]) -> Fed
    requires { FitAll ac.now smi.now smc.now (masters t.held.card) }
    ensures { result ≡ fed t input.now }
{
    let held = t.held;
    let mut line = t.line;
    let mut count = t.count;
    for (i, &b) in input.iter().enumerate() {
        if b == 10 {
            return complete(Trace { held, line, count }, ac, smi, smc, i + 1);
        }
        if count <= LONGEST {
            line[count] = b;
            count += 1;
        }
    }
    Fed {
        trace: Trace { held, line, count },
        taken: input.len(),
        count: 0,
        answer: [0; LONGEST_ANSWER],
    }
}

// Ends a trace: a last line without a line feed is completed unless it is empty.
pub fn end(t: Trace) -> Fed
    ensures { result ≡ ended t }
{
    if t.count == 0 {
        return Fed {
            trace: t,
            taken: 0,
            count: 0,
            answer: [0; LONGEST_ANSWER],
        };
    }
    complete(t, &[], &[], &[], 0)
}

// Copies the first n bytes of an answer into a buffer from a place on.
fn put(out: &mut [u8], at: usize, answer: [u8; LONGEST_ANSWER], n: usize)
    requires { (at + n ≤ length out.old) × (n ≤ longest_answer) }
    ensures { out.new ≡ paste out.old at answer n }
{
    out[at..at + n].copy_from_slice(&answer[..n]);
}

// The sign of a text at a place; 0 past its end.
fn sign(text: &[u8], at: usize) -> u8 {
    text.get(at).copied().unwrap_or(0)
}

// The words of a master key, made where they are used and there are none; and how many there are.
fn keep(words: &mut [u64], have: usize, used: bool, key: [u8; 32]) -> usize
    requires { Holds words.old have key }
    ensures { Holds words.new result key }
{
    if have != 0 {
        return have;
    }
    if !used {
        return 0;
    }
    words.copy_from_slice(&derive::keep(key));
    KEPT_WORDS
}

// Whether frame 0f uses AC: Open, Issuer answer and Counters do.
fn uses_ac(f: u8) -> bool {
    matches!(f, b'1' | b'2' | b'6')
}

// Whether a line uses SMC: a PIN check does, and a script with instruction 2x.
fn uses_smc(line: &[u8]) -> bool {
    sign(line, 1) == b'7' || sign(line, 1) == b'3' && sign(line, 4) == b'2'
}

// The words of the keys that a line uses, by its first signs. A wrong guess costs time alone.
fn keep_used(
    card: Card,
    ac: &mut [u64],
    smi: &mut [u64],
    smc: &mut [u64],
    have: Words,
    line: &[u8],
) -> Words
    requires { Ready ac.old smi.old smc.old have (masters card) }
    ensures { Ready ac.new smi.new smc.new result (masters card) }
{
    let frame = sign(line, 1);
    Words {
        ac: keep(ac, have.ac, uses_ac(frame), card.ac),
        smi: keep(smi, have.smi, frame == b'3', card.smi),
        smc: keep(smc, have.smc, uses_smc(line), card.smc),
    }
}

// What is left of the words after a line of two first signs: none where it may be a new record.
fn left(have: Words, high: u8, low: u8) -> Words
    ensures { result ≡ left_of have high low }
{
    if lines::octet_of(high, low) == 0 {
        NO_WORDS
    } else {
        have
    }
}

// Feeds a line, by the words of the keys that it uses; they are made where there are none, and what is left of them is kept.
fn turn(
    t: Trace,
    ac: &mut [u64],
    smi: &mut [u64],
    smc: &mut [u64],
    have: Words,
    input: &[u8],
) -> Turned
    requires { Ready ac.old smi.old smc.old have (masters t.held.card) }
    ensures { Turns (fed t input.now) ac.new smi.new smc.new result }
{
    let used = keep_used(t.held.card, ac, smi, smc, have, input);
    let fed = feed_kept(t, &ac[..used.ac], &smi[..used.smi], &smc[..used.smc], input);
    let have = left(used, fed.trace.line[0], fed.trace.line[1]);
    Turned { fed, have }
}

// Feeds bytes while there is room for the longest answer, and writes the answers at the start of a lent buffer; the rest of it stays. The master keys that
// its lines use are kept from line to line.
pub fn feed_into(t: Trace, input: &[u8], out: &mut [u8]) -> Filled
    ensures { Fills (filling (length out.old) t input.now) out.old result out.new }
{
    let mut ac = [0; KEPT_WORDS];
    let mut smi = [0; KEPT_WORDS];
    let mut smc = [0; KEPT_WORDS];
    let mut have = NO_WORDS;
    let mut after = t;
    let mut taken = 0;
    let mut written = 0;
    while taken < input.len() {
        if out.len() - written < LONGEST_ANSWER {
            break;
        }
        let r = turn(after, &mut ac, &mut smi, &mut smc, have, &input[taken..]);
        let n = r.fed.count as usize;
        put(out, written, r.fed.answer, n);
        have = r.have;
        after = r.fed.trace;
        taken += r.fed.taken;
        written += n;
    }
    Filled {
        trace: after,
        taken,
        written,
    }
}
