// Hash, HMAC and code of a message that comes in parts, over states that the caller lends as bytes: what include/box.h gives to C. A lent
// state or answer of another length is 1, and a refusal leaves both as they were.
#![tactic(auto)]

ghost use Rattle.std.specs.Prelude.{◌≡◌, ℕ, List, ◌∷◌, ◌++◌, ◌+◌, ◌%◌, ◌<◌, ◌≤◌, length, take, drop, get_or, Result, Ok};
ghost use Rattle.std.proofs.Math.Seq.{paste};
ghost use Rattle.answers.specs.Answers.{number_told};
ghost use Rattle.octets.specs.Numbers.{le, le_octets};
ghost use Rattle.lps.specs.Vectors.{bytes};
ghost use Rattle.gost.specs.Gost.{block};
ghost use Rattle.hash.specs.States.{hash_way, begun, ended};
ghost use Rattle.derive.specs.Macing.{mac_way, mac_begun, mac_ended};
ghost use Rattle.cipher.specs.Coding.{code_way, code_begun, code_ended};
ghost use Rattle.answers.specs.declared.Refusal.{Refusal};
ghost use Rattle.blocks.specs.Parts.{Way};
ghost use Rattle.parts.specs.Forms.{Form, hash_in, hash_out, hash_form, mac_in, mac_out, mac_form, octets_of, code_in, code_out, code_form};
ghost use Rattle.parts.specs.Lent.{part_answer, begun_number, begun_after, fed_number, fed_after, ended_number, ended_after};

use answers::Refusal;
use cipher::{Coding, Halves};
use derive::Started;
use hash::{Core, State};

// The lengths of lent states: a hash, an HMAC (two hashes), a code.
pub const HASH_STATE: usize = 261;

pub const HMAC_STATE: usize = 522;

pub const CODE_STATE: usize = 53;

// A message under way whose state a caller lends as bytes: how many they are, the state that they are, and the bytes of a state; how a part is taken,
// and what its end answers.
pub trait UnderWay<const N: usize>: Copy {
    type Made;

    ghost form: { Form Self };

    ghost way: { Way Self Self.Made };

    ghost ended: { Self → Result (List ℕ) Refusal };

    fn size() -> usize
        ensures { result ≡ form.size };

    fn read(lent: &[u8]) -> Self
        requires { length lent.now ≡ form.size }
        ensures { result ≡ form.into lent.now };

    fn write(self, lent: &mut [u8])
        requires { length lent.old ≡ form.size }
        ensures { lent.new ≡ form.out self };

    fn fed(self, part: &[u8]) -> Result<Self, Refusal>
        ensures { result ≡ part_answer way self part.now };

    fn end(self) -> Result<[u8; N], Refusal>
        ensures { result ≡ ended self };
}

// A state begun, or why its key is refused, written as a lent state. 1: the state's length.
pub fn begin<const N: usize, S: UnderWay<N>>(
    begun: Result<S, Refusal>,
    state: &mut [u8],
) -> Result<(), Refusal>
    ensures { (number_told result ≡ begun_number S.form begun state.old) × (state.new ≡ begun_after S.form begun state.old) }
{
    if state.len() != S::size() {
        return Err(Refusal::Input);
    }
    begun?.write(state);
    Ok(())
}

// A lent state fed. 1: the state's length, or the total.
pub fn feed<const N: usize, S: UnderWay<N>>(state: &mut [u8], part: &[u8]) -> Result<(), Refusal>
    ensures { (number_told result ≡ fed_number S.form S.way state.old part.now) × (state.new ≡ fed_after S.form S.way state.old part.now) }
{
    if state.len() != S::size() {
        return Err(Refusal::Input);
    }
    S::read(state).fed(part)?.write(state);
    Ok(())
}

// A lent state ended. 1: a length; and what its end is refused for.
pub fn end<const N: usize, S: UnderWay<N>>(state: &[u8], out: &mut [u8]) -> Result<(), Refusal>
    ensures { (number_told result ≡ ended_number S.form N state.now out.old (S.ended (S.form.into state.now)))
        × (out.new ≡ ended_after S.form N state.now out.old (S.ended (S.form.into state.now))) }
{
    if state.len() != S::size() || out.len() != N {
        return Err(Refusal::Input);
    }
    out.copy_from_slice(&S::read(state).end()?);
    Ok(())
}

// The bytes w, written from p on.
fn lay(b: &mut [u8], p: usize, w: &[u8])
    requires { p + length w.now ≤ length b.old }
    ensures { b.new ≡ paste b.old p w.now (length w.now) }
{
    b[p..p + w.len()].copy_from_slice(w);
}

// The N bytes from p on.
fn bytes_at<const N: usize>(b: &[u8], p: usize) -> [u8; N]
    requires { p + N ≤ length b.now }
    ensures { result ≡ take N (drop p b.now) }
{
    let mut r = [0; N];
    r.copy_from_slice(&b[p..p + N]);
    r
}

// The word of four bytes from p on.
fn word_at(b: &[u8], p: usize) -> u32
    requires { p + 4 ≤ length b.now }
    ensures { result ≡ le (take 4 (drop p b.now)) }
{
    u32::from_le_bytes(bytes_at(b, p))
}

// Byte p, as a number of bytes.
fn fill_at(b: &[u8], p: usize) -> usize
    requires { p < length b.now }
    ensures { result ≡ get_or b.now p 0 }
{
    b[p] as usize
}

// A fill and a total, written from p on.
fn lay_end(b: &mut [u8], p: usize, fill: usize, total: u32)
    requires { p + 5 ≤ length b.old }
    ensures { b.new ≡ paste b.old p (fill % 256 ∷ le_octets 4 total) 5 }
{
    let f = (fill % 256) as u8;
    let t = octets::word_octets(total);
    lay(b, p, &[f, t[0], t[1], t[2], t[3]]);
}

// The hash that a lent state is.
fn hash_in(b: &[u8]) -> State
    requires { length b.now ≡ 261 }
    ensures { result ≡ hash_in b.now }
{
    let core = Core {
        h: hash::words_of(bytes_at(b, 0)),
        n: hash::words_of(bytes_at(b, 64)),
        sigma: hash::words_of(bytes_at(b, 128)),
    };
    State {
        core,
        buffer: bytes_at(b, 192),
        fill: fill_at(b, 256),
        total: word_at(b, 257),
    }
}

// The words of a hash, written from p on.
fn lay_core(b: &mut [u8], p: usize, c: Core)
    requires { p + 192 ≤ length b.old }
    ensures { b.new ≡ paste b.old p (bytes c.h ++ (bytes c.n ++ bytes c.sigma)) 192 }
{
    lay(b, p, &hash::bytes_of(c.h));
    lay(b, p + 64, &hash::bytes_of(c.n));
    lay(b, p + 128, &hash::bytes_of(c.sigma));
}

// A hash, written as a lent state from p on.
fn lay_hash(b: &mut [u8], p: usize, s: State)
    requires { p + 261 ≤ length b.old }
    ensures { b.new ≡ paste b.old p (hash_out s) 261 }
{
    lay_core(b, p, s.core);
    lay(b, p + 192, &s.buffer);
    lay_end(b, p + 256, s.fill, s.total);
}

// A hash, written as a lent state.
fn hash_out(s: State, b: &mut [u8])
    requires { length b.old ≡ 261 }
    ensures { b.new ≡ hash_out s }
{
    lay_hash(b, 0, s);
}

impl UnderWay<32> for State {
    type Made = Core;

    ghost form = { hash_form };

    ghost way = { hash_way };

    ghost ended = { λ s. Ok (ended s) };

    fn size() -> usize {
        HASH_STATE
    }

    fn read(lent: &[u8]) -> State {
        hash_in(lent)
    }

    fn write(self, lent: &mut [u8]) {
        hash_out(self, lent);
    }

    fn fed(self, part: &[u8]) -> Result<State, Refusal> {
        hash::feed(self, part)
    }

    fn end(self) -> Result<[u8; 32], Refusal> {
        Ok(hash::end(self))
    }
}

// A hash begun. 1: the state's length.
pub fn hash_begin(state: &mut [u8]) -> Result<(), Refusal>
    ensures { (number_told result ≡ begun_number hash_form (Ok begun) state.old)
        × (state.new ≡ begun_after hash_form (Ok begun) state.old) }
{
    if state.len() != HASH_STATE {
        return Err(Refusal::Input);
    }
    begin(Ok(hash::begin()), state)
}

// A hash fed. 1: the state's length, or the total.
pub fn hash_feed(state: &mut [u8], part: &[u8]) -> Result<(), Refusal>
    ensures { (number_told result ≡ fed_number hash_form hash_way state.old part.now)
        × (state.new ≡ fed_after hash_form hash_way state.old part.now) }
{
    feed::<32, State>(state, part)
}

// A hash ended. 1: a length.
pub fn hash_end(state: &[u8], out: &mut [u8]) -> Result<(), Refusal>
    ensures { (number_told result ≡ ended_number hash_form 32 state.now out.old (Ok (ended (hash_in state.now))))
        × (out.new ≡ ended_after hash_form 32 state.now out.old (Ok (ended (hash_in state.now)))) }
{
    end::<32, State>(state, out)
}

// The HMAC that a lent state is.
fn mac_in(b: &[u8]) -> Started
    requires { length b.now ≡ 522 }
    ensures { result ≡ mac_in b.now }
{
    Started {
        inner: hash_in(&b[0..HASH_STATE]),
        outer: hash_in(&b[HASH_STATE..]),
    }
}

// An HMAC, written as a lent state.
fn mac_out(s: Started, b: &mut [u8])
    requires { length b.old ≡ 522 }
    ensures { b.new ≡ mac_out s }
{
    lay_hash(b, 0, s.inner);
    lay_hash(b, HASH_STATE, s.outer);
}

impl UnderWay<32> for Started {
    type Made = Core;

    ghost form = { mac_form };

    ghost way = { mac_way };

    ghost ended = { λ s. Ok (mac_ended s) };

    fn size() -> usize {
        HMAC_STATE
    }

    fn read(lent: &[u8]) -> Started {
        mac_in(lent)
    }

    fn write(self, lent: &mut [u8]) {
        mac_out(self, lent);
    }

    fn fed(self, part: &[u8]) -> Result<Started, Refusal> {
        derive::hmac_feed(self, part)
    }

    fn end(self) -> Result<[u8; 32], Refusal> {
        Ok(derive::hmac_end(self))
    }
}

// An HMAC begun under a key of 32 bytes. 1: a length. The state's is looked at first: of a call that it refuses the key is not read.
pub fn hmac_begin(key: &[u8], state: &mut [u8]) -> Result<(), Refusal>
    ensures { (number_told result ≡ begun_number mac_form (mac_begun key.now) state.old)
        × (state.new ≡ begun_after mac_form (mac_begun key.now) state.old) }
{
    if state.len() != HMAC_STATE {
        return Err(Refusal::Input);
    }
    begin(derive::hmac_begin(key), state)
}

// An HMAC fed. 1: the state's length, or the total.
pub fn hmac_feed(state: &mut [u8], part: &[u8]) -> Result<(), Refusal>
    ensures { (number_told result ≡ fed_number mac_form mac_way state.old part.now)
        × (state.new ≡ fed_after mac_form mac_way state.old part.now) }
{
    feed::<32, Started>(state, part)
}

// An HMAC ended. 1: a length.
pub fn hmac_end(state: &[u8], out: &mut [u8]) -> Result<(), Refusal>
    ensures { (number_told result ≡ ended_number mac_form 32 state.now out.old (Ok (mac_ended (mac_in state.now))))
        × (out.new ≡ ended_after mac_form 32 state.now out.old (Ok (mac_ended (mac_in state.now)))) }
{
    end::<32, Started>(state, out)
}

// The code that a lent state is.
fn code_in(b: &[u8]) -> Coding
    requires { length b.now ≡ 53 }
    ensures { result ≡ code_in b.now }
{
    Coding {
        subkeys: cipher::expand(bytes_at(b, 0)),
        halves: Halves {
            n1: word_at(b, 32),
            n2: word_at(b, 36),
        },
        buffer: bytes_at(b, 40),
        fill: fill_at(b, 48),
        total: word_at(b, 49),
    }
}

// Subkeys, written as the key that they are of.
fn lay_subkeys(b: &mut [u8], ks: [u32; 8])
    requires { 32 ≤ length b.old }
    ensures { b.new ≡ paste b.old 0 (octets_of ks) 32 }
{
    for i in 0..8 {
        lay(b, 4 * i, &octets::word_octets(ks[i]));
    }
}

// N1 and N2, written from p on.
fn lay_halves(b: &mut [u8], p: usize, h: Halves)
    requires { p + 8 ≤ length b.old }
    ensures { b.new ≡ paste b.old p (block h) 8 }
{
    let x = octets::word_octets(h.n1);
    let y = octets::word_octets(h.n2);
    lay(b, p, &[x[0], x[1], x[2], x[3], y[0], y[1], y[2], y[3]]);
}

// A code, written as a lent state.
fn code_out(s: Coding, b: &mut [u8])
    requires { length b.old ≡ 53 }
    ensures { b.new ≡ code_out s }
{
    lay_subkeys(b, s.subkeys);
    lay_halves(b, 32, s.halves);
    lay(b, 40, &s.buffer);
    lay_end(b, 48, s.fill, s.total);
}

impl UnderWay<4> for Coding {
    type Made = Halves;

    ghost form = { code_form };

    ghost way = { code_way };

    ghost ended = { code_ended };

    fn size() -> usize {
        CODE_STATE
    }

    fn read(lent: &[u8]) -> Coding {
        code_in(lent)
    }

    fn write(self, lent: &mut [u8]) {
        code_out(self, lent);
    }

    fn fed(self, part: &[u8]) -> Result<Coding, Refusal> {
        cipher::code_feed(self, part)
    }

    fn end(self) -> Result<[u8; 4], Refusal> {
        cipher::code_end(self)
    }
}

// A code begun under a key of 32 bytes. 1: a length, the state's first.
pub fn code_begin(key: &[u8], state: &mut [u8]) -> Result<(), Refusal>
    ensures { (number_told result ≡ begun_number code_form (code_begun key.now) state.old)
        × (state.new ≡ begun_after code_form (code_begun key.now) state.old) }
{
    if state.len() != CODE_STATE {
        return Err(Refusal::Input);
    }
    begin(cipher::code_begin(key), state)
}

// A code fed. 1: the state's length, or the total.
pub fn code_feed(state: &mut [u8], part: &[u8]) -> Result<(), Refusal>
    ensures { (number_told result ≡ fed_number code_form code_way state.old part.now)
        × (state.new ≡ fed_after code_form code_way state.old part.now) }
{
    feed::<4, Coding>(state, part)
}

// A code ended. 1: a length, no whole block, or bytes after the last one.
pub fn code_end(state: &[u8], out: &mut [u8]) -> Result<(), Refusal>
    ensures { (number_told result ≡ ended_number code_form 4 state.now out.old (code_ended (code_in state.now)))
        × (out.new ≡ ended_after code_form 4 state.now out.old (code_ended (code_in state.now))) }
{
    end::<4, Coding>(state, out)
}
