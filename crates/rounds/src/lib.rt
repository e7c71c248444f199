// The round functions of GOST R 34.11-2012 (RFC 6986, section 8) and its sums modulo 2 to the 512, on vectors of eight words, lowest first.
#![tactic(auto)]

ghost use Rattle.std.specs.Prelude.{◌≡◌, ◌+◌, ◌*◌, ◌^◌, ◌<◌, ◌≤◌, drop};
ghost use Rattle.lps.specs.Vectors.{X};
ghost use Rattle.rounds.specs.Sums.{◌⊞◌};
ghost use Rattle.rounds.specs.Rounds.{constants, g_over, g};
ghost use Rattle.rounds.specs.Lent.{vector_at, laid_words};
ghost use Rattle.rounds.specs.Keys.{keys_of, g_with, is_first, g_first, g_block};

mod constants;

use constants::{FIRST_KEYS, ITERATION};
use lps::{turn, turn_upper};

// X[a](b).
fn xor(a: [u64; 8], b: [u64; 8]) -> [u64; 8]
    ensures { result ≡ X a b }
{
    let mut r = [0; 8];
    for i in 0..8 {
        r[i] = a[i] ^ b[i];
    }
    r
}

// The vector from word p on; where the words end before, zeros. Of a loop LLVM makes reads in place, of copy_from_slice a copy for each round.
pub fn vector(b: &[u64], p: usize) -> [u64; 8]
    ensures { result ≡ vector_at b.now p }
{
    if b.len() < 8 || b.len() - 8 < p {
        return [0; 8];
    }
    let mut r = [0; 8];
    for i in 0..8 {
        r[i] = b[p + i];
    }
    r
}

// Words written from word p on; where they do not fit, none is.
pub fn lay(b: &mut [u64], p: usize, w: &[u64])
    ensures { b.new ≡ laid_words b.old p w.now }
{
    if w.len() <= b.len() && p <= b.len() - w.len() {
        b[p..p + w.len()].copy_from_slice(w);
    }
}

// The iteration constants as vectors.
pub fn iteration_constants() -> [[u64; 8]; 12]
    ensures { result ≡ constants }
{
    ITERATION
}

// The round keys of g_n(h, m), for any m.
pub fn round_keys(n: [u64; 8], h: [u64; 8]) -> [u64; 104]
    ensures { result ≡ keys_of n h }
{
    let c = iteration_constants();
    let mut b = [0; 104];
    let mut k = h;
    turn(&mut k, &n);
    for i in 0..12 {
        lay(&mut b, 8 * i, &k);
        turn(&mut k, &c[i]);
    }
    lay(&mut b, 96, &k);
    b
}

// g_n(h, m) by the 104 words of its round keys; by another number of words, zeros.
pub fn compress_with(keys: &[u64], h: [u64; 8], m: [u64; 8]) -> [u64; 8]
    ensures { result ≡ g_with keys.now h m }
{
    if keys.len() != 104 {
        return [0; 8];
    }
    let mut s = m;
    for i in 0..12 {
        turn(&mut s, &vector(keys, 8 * i));
    }
    xor(xor(xor(vector(keys, 96), s), h), m)
}

// g_n(h, m), with a round for each of the constants c: whoever has many blocks makes the constants once. The state goes by a key before the next
// key is made of it, so that neither waits for the other.
pub fn compress_over(c: &[[u64; 8]], n: [u64; 8], h: [u64; 8], m: [u64; 8]) -> [u64; 8]
    ensures { result ≡ g_over c.now n h m }
{
    let mut k = h;
    let mut s = m;
    turn(&mut k, &n);
    for x in c {
        turn(&mut s, &k);
        turn(&mut k, x);
    }
    xor(xor(xor(k, s), h), m)
}

// The upper four words of what the rounds have made of key and state, of h and of m, summed.
fn upper_sum(k: [u64; 8], s: [u64; 8], h: [u64; 8], m: [u64; 8]) -> [u64; 4]
    ensures { result ≡ drop 4 (X (X (X k s) h) m) }
{
    let x = xor(k, s);
    let y = xor(xor(x, h), m);
    [y[4], y[5], y[6], y[7]]
}

// The upper four words of g_n(h, m), with a round for each of the constants c: in the last round the upper half is made, and no more.
pub fn compress_upper(c: &[[u64; 8]], n: [u64; 8], h: [u64; 8], m: [u64; 8]) -> [u64; 4]
    ensures { result ≡ drop 4 (g_over c.now n h m) }
{
    let mut k = h;
    let mut s = m;
    turn(&mut k, &n);
    let Some((last, others)) = c.split_last() else {
        return upper_sum(k, s, h, m);
    };
    for x in others {
        turn(&mut s, &k);
        turn(&mut k, x);
    }
    turn_upper(&mut s, &k);
    turn_upper(&mut k, last);
    upper_sum(k, s, h, m)
}

// Whether n and h are those that every hash starts from.
fn is_first(n: [u64; 8], h: [u64; 8]) -> bool
    ensures { result ≡ is_first n h }
{
    n == [0; 8] && h == [0x0101010101010101; 8]
}

// g_n(h, m) of the first block of a hash, whose round keys are constants.
fn compress_first(h: [u64; 8], m: [u64; 8]) -> [u64; 8]
    ensures { result ≡ g_first h m }
{
    let keys = FIRST_KEYS;
    compress_with(&keys, h, m)
}

// g_n(h, m), of a block that may be the first.
pub fn compress_block(n: [u64; 8], h: [u64; 8], m: [u64; 8]) -> [u64; 8]
    ensures { result ≡ g n h m }
{
    if is_first(n, h) {
        return compress_first(h, m);
    }
    let c = iteration_constants();
    compress_over(&c, n, h, m)
}

// The same, with the constants c where it is not the first.
pub fn compress_block_over(c: &[[u64; 8]], n: [u64; 8], h: [u64; 8], m: [u64; 8]) -> [u64; 8]
    ensures { result ≡ g_block c.now n h m }
{
    if is_first(n, h) {
        return compress_first(h, m);
    }
    compress_over(c, n, h, m)
}

#[derive(Clone, Copy)]
struct Sum {
    value: u64,
    carry: u64,
}

// x + y + c, as a word and a carry.
fn add_word(x: u64, y: u64, c: u64) -> Sum
    requires { c ≤ 1 }
    ensures { (result.value + result.carry * 2 ^ 64 ≡ x + y + c) × (result.carry ≤ 1) × (result.value < 2 ^ 64) }
{
    let s = std::num::wrapping_add_u64(x, y);
    let v = std::num::wrapping_add_u64(s, c);
    Sum {
        value: v,
        carry: (s < x || v < s) as u64,
    }
}

// a ⊞ b.
pub fn add(a: [u64; 8], b: [u64; 8]) -> [u64; 8]
    ensures { result ≡ a ⊞ b }
{
    let mut r = [0; 8];
    let mut carry = 0;
    for i in 0..8 {
        let s = add_word(a[i], b[i], carry);
        r[i] = s.value;
        carry = s.carry;
    }
    r
}
