// GOST 28147-89 (RFC 5830) with the substitution of RFC 7836 (id-tc26-gost-28147-param-Z): simple replacement both ways and
// the 16-round code, by the rounds of `gost`. The compiled program has no branch on a key or on data.
#![tactic(auto)]

ghost use Rattle.std.specs.Prelude.{◌≡◌, ◌+◌, ◌<◌, ◌≤◌, length, take, drop, [], ◌∷◌, ◌++◌};
ghost use Rattle.octets.specs.Numbers.{le};
ghost use Rattle.blocks.specs.Blocks.{absorbed};
ghost use Rattle.gost.specs.Gost.{rounds, halves, block, through, forth, back, subkeys};
ghost use Rattle.cipher.specs.Code.{added, code_step};
ghost use Rattle.blocks.specs.Parts.{filled, poured};
ghost use Rattle.cipher.specs.Answers.{enciphered, deciphered, coded, coded_with};
ghost use Rattle.cipher.specs.Coding.{held, code_way, coding_begun, code_begun, code_fed, code_ended};

use answers::{Refusal, exactly};
use blocks::fits;
pub use gost::Halves;
use gost::{eight, reversed};

// The code under way: the first fill bytes of the buffer are not yet a block, and total bytes were fed.
#[derive(Clone, Copy)]
pub struct Coding {
    pub subkeys: [u32; 8],
    pub halves: Halves,
    pub buffer: [u8; 8],
    pub fill: usize,
    pub total: u32,
}

// The word of the four octets from i on.
fn word_at(s: &[u8], i: usize) -> u32
    requires { i + 4 ≤ length s.now }
    ensures { result ≡ le (take 4 (drop i s.now)) }
{
    octets::word(s[i], s[i + 1], s[i + 2], s[i + 3])
}

// The halves of a block.
fn halves_of(b: &[u8]) -> Halves
    requires { length b.now ≡ 8 }
    ensures { result ≡ halves b.now }
{
    Halves {
        n1: word_at(b, 0),
        n2: word_at(b, 4),
    }
}

// The octets of a block.
fn block_of(s: Halves) -> [u8; 8]
    ensures { result ≡ block s }
{
    let mut b = [0; 8];
    b[..4].copy_from_slice(&octets::word_octets(s.n1));
    b[4..].copy_from_slice(&octets::word_octets(s.n2));
    b
}

// A key, expanded to its eight subkeys once for many blocks.
pub fn expand(key: [u8; 32]) -> [u32; 8]
    ensures { result ≡ subkeys 8 key }
{
    let mut k = [0; 8];
    for i in 0..8 {
        k[i] = word_at(&key, i * 4);
    }
    k
}

// A block enciphered under an expanded key.
pub fn encipher_with(k: [u32; 8], b: [u8; 8]) -> [u8; 8]
    ensures { result ≡ through (forth k) b }
{
    let s = eight(reversed(k), eight(k, eight(k, eight(k, halves_of(&b)))));
    block_of(Halves { n1: s.n2, n2: s.n1 })
}

// A block deciphered under an expanded key.
pub fn decipher_with(k: [u32; 8], b: [u8; 8]) -> [u8; 8]
    ensures { result ≡ through (back k) b }
{
    let r = reversed(k);
    let s = eight(r, eight(r, eight(r, eight(k, halves_of(&b)))));
    block_of(Halves { n1: s.n2, n2: s.n1 })
}

// The state of the code after one block more.
fn absorb(k: [u32; 8], s: Halves, m: Halves) -> Halves
    ensures { result ≡ rounds (k ++ k) (added s m) }
{
    let x = Halves {
        n1: s.n1 ^ m.n1,
        n2: s.n2 ^ m.n2,
    };
    eight(k, eight(k, x))
}

// The state of the code after the whole blocks of m.
pub fn absorb_all(k: [u32; 8], s: Halves, m: &[u8]) -> Halves
    ensures { result ≡ absorbed 8 (code_step k) s m.now }
{
    let mut t = s;
    for b in m.chunks_exact(8) {
        t = absorb(k, t, halves_of(b));
    }
    t
}

// The code of one or more whole blocks under an expanded key; else 1.
pub fn code_with(k: [u32; 8], string: &[u8]) -> Result<[u8; 4], Refusal>
    ensures { result ≡ coded_with k string.now }
{
    if string.len() == 0 || string.len() % 8 != 0 {
        return Err(Refusal::Input);
    }
    let s = absorb_all(k, Halves { n1: 0, n2: 0 }, string);
    Ok(octets::word_octets(s.n1))
}

// A block of 8 bytes enciphered under a key of 32; other lengths: 1.
pub fn encipher(key: &[u8], block: &[u8]) -> Result<[u8; 8], Refusal>
    ensures { result ≡ enciphered key.now block.now }
{
    Ok(encipher_with(expand(exactly(key)?), exactly(block)?))
}

// A block of 8 bytes deciphered under a key of 32; other lengths: 1.
pub fn decipher(key: &[u8], block: &[u8]) -> Result<[u8; 8], Refusal>
    ensures { result ≡ deciphered key.now block.now }
{
    Ok(decipher_with(expand(exactly(key)?), exactly(block)?))
}

// The code of one or more whole blocks under a key of 32 bytes; else 1.
pub fn code(key: &[u8], string: &[u8]) -> Result<[u8; 4], Refusal>
    ensures { result ≡ coded key.now string.now }
{
    code_with(expand(exactly(key)?), string)
}

// A byte more, after bytes that the buffer holds with zeros after them. A block that it fills is taken. The buffer is a local: written in the state, at a
// place that is not known before, it would have LLVM copy the whole state for each byte.
fn push(s: Coding, b: u8) -> Coding
    requires { (s.fill < 8) × (s.buffer ≡ filled 8 (held s)) }
    ensures { result ≡ poured code_way s (b ∷ []) s.total }
{
    let mut buffer = s.buffer;
    buffer[s.fill] = b;
    if s.fill < 7 {
        return Coding {
            buffer,
            fill: s.fill + 1,
            ..s
        };
    }
    Coding {
        halves: absorb(s.subkeys, s.halves, halves_of(&buffer)),
        buffer: [0; 8],
        fill: 0,
        ..s
    }
}

// The bytes of m more, one by one.
fn push_all(s: Coding, m: &[u8]) -> Coding
    requires { (s.fill < 8) × (s.buffer ≡ filled 8 (held s)) }
    ensures { result ≡ poured code_way s m.now s.total }
{
    let mut t = s;
    for b in m {
        t = push(t, *b);
    }
    t
}

// The bytes of m more, whole blocks at once: those up to a block's edge, the whole blocks after it, and the rest.
fn pour(s: Coding, m: &[u8]) -> Coding
    ensures { result ≡ poured code_way s m.now s.total }
{
    let buffer = s.buffer;
    let at = s.fill % 8;
    let empty = Coding {
        buffer: [0; 8],
        fill: 0,
        ..s
    };
    let begun = push_all(empty, &buffer[..at]);
    let need = (8 - at) % 8;
    if m.len() < need {
        return push_all(begun, m);
    }
    let mut edge = push_all(begun, &m[..need]);
    let left = (m.len() - need) % 8;
    let end = m.len() - left;
    edge.halves = absorb_all(s.subkeys, edge.halves, &m[need..end]);
    push_all(edge, &m[end..])
}

// The code of no bytes so far, under an expanded key.
fn begun_with(subkeys: [u32; 8]) -> Coding
    ensures { result ≡ coding_begun subkeys }
{
    Coding {
        subkeys,
        halves: Halves { n1: 0, n2: 0 },
        buffer: [0; 8],
        fill: 0,
        total: 0,
    }
}

// The code begun under a key of 32 bytes; another length: 1.
pub fn code_begin(key: &[u8]) -> Result<Coding, Refusal>
    ensures { result ≡ code_begun key.now }
{
    Ok(begun_with(expand(exactly(key)?)))
}

// One part of the string more, of any length. 1: the total would pass 4,294,967,295 bytes.
pub fn code_feed(s: Coding, m: &[u8]) -> Result<Coding, Refusal>
    ensures { result ≡ code_fed s m.now }
{
    if !fits(s.total, m.len()) {
        return Err(Refusal::Input);
    }
    let total = s.total + m.len() as u32;
    Ok(Coding {
        total,
        ..pour(s, m)
    })
}

// The code of all the bytes fed. 1: no whole block, or bytes after the last one.
pub fn code_end(s: Coding) -> Result<[u8; 4], Refusal>
    ensures { result ≡ code_ended s }
{
    if s.total < 8 || s.fill % 8 != 0 {
        return Err(Refusal::Input);
    }
    Ok(octets::word_octets(s.halves.n1))
}
