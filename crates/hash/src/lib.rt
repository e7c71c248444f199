// The hash of GOST R 34.11-2012 with 256 bits (RFC 6986), of a message at once or in parts of any length.
#![tactic(auto)]

ghost use Rattle.std.specs.Prelude.{◌≡◌, ◌+◌, ◌*◌, ◌≤◌, length, take, drop};
ghost use Rattle.std.proofs.Math.Seq.{paste};
ghost use Rattle.octets.specs.Numbers.{le};
ghost use Rattle.blocks.specs.Blocks.{absorbed};
ghost use Rattle.lps.specs.Vectors.{words, bytes};
ghost use Rattle.hash.specs.Hash.{after_block, advanced, block_step, hash256};
ghost use Rattle.hash.specs.States.{begun, poured_into, fed, ended};
ghost use Rattle.hash.specs.Ahead.{ahead_of, core_in, closed_over, last_block, ended_block};

use answers::Refusal;
use blocks::fits;
use rounds::{
    add, compress_block, compress_block_over, compress_over, compress_upper, compress_with,
    iteration_constants, lay, round_keys, vector,
};

// What the whole blocks so far have made: h, and the numbers N and Sigma.
#[derive(Clone, Copy)]
pub struct Core {
    pub h: [u64; 8],
    pub n: [u64; 8],
    pub sigma: [u64; 8],
}

// A hash under way: the first fill bytes of the buffer are not yet a block, and total bytes were fed.
#[derive(Clone, Copy)]
pub struct State {
    pub core: Core,
    pub buffer: [u8; 64],
    pub fill: usize,
    pub total: u32,
}

// The word of eight bytes from p on, lowest first.
fn word_at(m: &[u8], p: usize) -> u64
    requires { p + 8 ≤ length m.now }
    ensures { result ≡ le (take 8 (drop p m.now)) }
{
    let mut b = [0; 8];
    b.copy_from_slice(&m[p..p + 8]);
    u64::from_le_bytes(b)
}

// The block of 64 bytes from p on, as a vector.
fn load(m: &[u8], p: usize) -> [u64; 8]
    requires { p + 64 ≤ length m.now }
    ensures { result ≡ words (take 64 (drop p m.now)) }
{
    [
        word_at(m, p),
        word_at(m, p + 8),
        word_at(m, p + 16),
        word_at(m, p + 24),
        word_at(m, p + 32),
        word_at(m, p + 40),
        word_at(m, p + 48),
        word_at(m, p + 56),
    ]
}

// The words of a block's bytes.
pub fn words_of(b: [u8; 64]) -> [u64; 8]
    ensures { result ≡ words b }
{
    load(&b, 0)
}

// The bytes of words, written over all of r.
fn put_words(r: &mut [u8], v: &[u64])
    requires { length r.old ≡ 8 * length v.now }
    ensures { r.new ≡ bytes v.now }
{
    for (i, w) in v.iter().enumerate() {
        r[8 * i..8 * i + 8].copy_from_slice(&w.to_le_bytes());
    }
}

// The bytes of a block's words.
pub fn bytes_of(v: [u64; 8]) -> [u8; 64]
    ensures { result ≡ bytes v }
{
    let mut r = [0; 64];
    put_words(&mut r, &v);
    r
}

// After a block m that makes h, of which so many bits are of the message.
fn after_block(c: Core, h: [u64; 8], bits: u64, m: [u64; 8]) -> Core
    ensures { result ≡ after_block c h bits m }
{
    Core {
        h,
        n: add(c.n, [bits, 0, 0, 0, 0, 0, 0, 0]),
        sigma: add(c.sigma, m),
    }
}

// A block m, of which so many bits are of the message.
fn advance(c: Core, bits: u64, m: [u64; 8]) -> Core
    ensures { result ≡ advanced c bits m }
{
    after_block(c, compress_block(c.n, c.h, m), bits, m)
}

// The whole blocks of m from a place on. The constants are made once for them.
fn absorb(c: Core, m: &[u8], from: usize) -> Core
    requires { from ≤ length m.now }
    ensures { result ≡ absorbed 64 block_step c (drop from m.now) }
{
    let blocks = (m.len() - from) / 64;
    if blocks == 0 {
        return c;
    }
    let cs = iteration_constants();
    let mut core = c;
    for i in 0..blocks {
        let b = load(m, from + 64 * i);
        core = after_block(core, compress_over(&cs, core.n, core.h, b), 512, b);
    }
    core
}

// b, with the n bytes from a place on replaced by those of m from a place on.
fn put(b: [u8; 64], at: usize, m: &[u8], from: usize, n: usize) -> [u8; 64]
    requires { (at + n ≤ 64) × (from + n ≤ length m.now) }
    ensures { result ≡ paste b at (drop from m.now) n }
{
    let mut out = b;
    out[at..at + n].copy_from_slice(&m[from..from + n]);
    out
}

// A hash of no bytes so far.
pub fn begin() -> State
    ensures { result ≡ begun }
{
    State {
        core: Core {
            h: [0x0101010101010101; 8],
            n: [0; 8],
            sigma: [0; 8],
        },
        buffer: [0; 64],
        fill: 0,
        total: 0,
    }
}

// Bytes of any number more, which no total counts: for the crates above. What the buffer has after the bytes held is cleared.
pub fn pour(s: State, m: &[u8]) -> State
    ensures { result ≡ poured_into s m.now }
{
    let at = s.fill % 64;
    let kept = put([0; 64], 0, &s.buffer, 0, at);
    let need = 64 - at;
    if m.len() < need {
        let b = put(kept, at, m, 0, m.len());
        return State {
            core: s.core,
            buffer: b,
            fill: at + m.len(),
            total: s.total,
        };
    }
    let full = put(kept, at, m, 0, need);
    let core1 = advance(s.core, 512, load(&full, 0));
    let core2 = absorb(core1, m, need);
    let left = (m.len() - need) % 64;
    let b = put([0; 64], 0, m, m.len() - left, left);
    State {
        core: core2,
        buffer: b,
        fill: left,
        total: s.total,
    }
}

// One part of the message more, of any length. 1: the total would pass 4,294,967,295 bytes.
pub fn feed(s: State, m: &[u8]) -> Result<State, Refusal>
    ensures { result ≡ fed s m.now }
{
    if !fits(s.total, m.len()) {
        return Err(Refusal::Input);
    }
    let total = s.total + m.len() as u32;
    let mut state = pour(s, m);
    state.total = total;
    Ok(state)
}

// The last block of a message of less than a block, padded; of another, zeros.
pub fn last_block(m: &[u8]) -> [u64; 8]
    ensures { result ≡ last_block m.now }
{
    if 64 <= m.len() {
        return [0; 8];
    }
    let mut last = put([0; 64], 0, m, 0, m.len());
    last[m.len()] = 1;
    load(&last, 0)
}

// The count and the sum taken in with the constants cs, and the upper half.
fn close(cs: &[[u64; 8]], c: Core) -> [u8; 32]
    ensures { result ≡ closed_over cs.now c }
{
    let v = compress_upper(cs, [0; 8], compress_over(cs, [0; 8], c.h, c.n), c.sigma);
    let mut r = [0; 32];
    put_words(&mut r, &v);
    r
}

// The hash of all the bytes fed. The constants are made once for its last three compressions.
pub fn end(s: State) -> [u8; 32]
    ensures { result ≡ ended s }
{
    let core = s.core;
    let at = s.fill % 64;
    let m = last_block(&s.buffer[..at]);
    let cs = iteration_constants();
    let c = after_block(
        core,
        compress_block_over(&cs, core.n, core.h, m),
        at as u64 * 8,
        m,
    );
    close(&cs, c)
}

// The hash of a message at once.
pub fn hash(m: &[u8]) -> [u8; 32]
    ensures { result ≡ hash256 m.now }
{
    end(pour(begin(), m))
}

// A core and the round keys of its next block, as 128 words, for many messages.
pub fn keep(c: Core) -> [u64; 128]
    ensures { result ≡ ahead_of c }
{
    let mut r = [0; 128];
    lay(&mut r, 0, &c.h);
    lay(&mut r, 8, &c.n);
    lay(&mut r, 16, &c.sigma);
    lay(&mut r, 24, &round_keys(c.n, c.h));
    r
}

// The core that kept words begin with.
fn core_in(a: &[u64]) -> Core
    ensures { result ≡ core_in a.now }
{
    Core {
        h: vector(a, 0),
        n: vector(a, 8),
        sigma: vector(a, 16),
    }
}

// The hash that a last block ends after kept words, with the constants cs; 32 zeros where the words are not 128.
pub fn end_block(cs: &[[u64; 8]], a: &[u64], bits: u64, m: [u64; 8]) -> [u8; 32]
    ensures { result ≡ ended_block cs.now a.now bits m }
{
    if a.len() != 128 {
        return [0; 32];
    }
    let core = core_in(a);
    close(
        cs,
        after_block(core, compress_with(&a[24..], core.h, m), bits, m),
    )
}
