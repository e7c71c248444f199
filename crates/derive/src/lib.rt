// HMAC with GOST R 34.11-2012 (RFC 7836), and the one derivation of keys on it.
#![tactic(auto)]

ghost use Rattle.std.specs.Prelude.{◌≡◌};
ghost use Rattle.derive.specs.Hmac.{key_pad};
ghost use Rattle.derive.specs.Derivation.{string as stringOf, card_label};
ghost use Rattle.derive.specs.Started.{started, hmac_with};
ghost use Rattle.derive.specs.Macing.{mac_begun, mac_fed, mac_ended};
ghost use Rattle.derive.specs.Kept.{kept_words};
ghost use Rattle.derive.specs.Answers.{maced, derivation as derivationOf, card_derivation, derivation_kept, derivation_over, key_of};

use answers::{Refusal, exactly};
use hash::State;
use rounds::lay;

// The inner and the outer hash of a key, started.
#[derive(Clone, Copy)]
pub struct Started {
    pub inner: State,
    pub outer: State,
}

// The words of a kept key: 128 of the inner hash, and 128 of the outer.
pub const KEPT_WORDS: usize = 256;

// The label of card and session keys.
pub fn card_label() -> [u8; 4]
    ensures { result ≡ card_label }
{
    [0x21, 0x07, 0x22, 0xe6]
}

// The 32 bytes of a key; zeros for another length.
pub fn key_of(key: &[u8]) -> [u8; 32]
    ensures { result ≡ key_of key.now }
{
    let mut out = [0; 32];
    if key.len() == 32 {
        out.copy_from_slice(key);
    }
    out
}

// The key with zeros up to 64 bytes, each byte xored with p.
fn pad(p: u8, key: [u8; 32]) -> [u8; 64]
    ensures { result ≡ key_pad p key }
{
    let mut out = [p; 64];
    for i in 0..32 {
        out[i] = key[i] ^ p;
    }
    out
}

// A key, its two hashes started once for many messages.
pub fn start(key: [u8; 32]) -> Started
    ensures { result ≡ started key }
{
    Started {
        inner: hash::pour(hash::begin(), &pad(0x36, key)),
        outer: hash::pour(hash::begin(), &pad(0x5c, key)),
    }
}

// HMAC of a message under a started key.
pub fn hmac_with(k: Started, m: &[u8]) -> [u8; 32]
    ensures { result ≡ hmac_with k m.now }
{
    let x = hash::end(hash::pour(k.inner, m));
    hash::end(hash::pour(k.outer, &x))
}

// HMAC of a message under a key of 32 bytes; another length: 1.
pub fn hmac(key: &[u8], m: &[u8]) -> Result<[u8; 32], Refusal>
    ensures { result ≡ maced key.now m.now }
{
    Ok(hmac_with(start(exactly(key)?), m))
}

// HMAC begun under a key of 32 bytes; another length: 1.
pub fn hmac_begin(key: &[u8]) -> Result<Started, Refusal>
    ensures { result ≡ mac_begun key.now }
{
    Ok(start(exactly(key)?))
}

// One part of the message more, of any length. 1: the total would pass 4,294,967,295 bytes.
pub fn hmac_feed(s: Started, m: &[u8]) -> Result<Started, Refusal>
    ensures { result ≡ mac_fed s m.now }
{
    Ok(Started {
        inner: hash::feed(s.inner, m)?,
        outer: s.outer,
    })
}

// HMAC of all the bytes fed.
pub fn hmac_end(s: Started) -> [u8; 32]
    ensures { result ≡ mac_ended s }
{
    let x = hash::end(s.inner);
    hash::end(hash::pour(s.outer, &x))
}

// The key derived from a key of 32 bytes, a label and a seed of any length; another key: 1.
pub fn derivation(key: &[u8], label: &[u8], seed: &[u8]) -> Result<[u8; 32], Refusal>
    ensures { result ≡ derivationOf key.now label.now seed.now }
{
    let s = start(exactly(key)?);
    let a = hash::pour(hash::pour(s.inner, &[0x01]), label);
    let b = hash::pour(hash::pour(a, &[0x00]), seed);
    let x = hash::end(hash::pour(b, &[0x01, 0x00]));
    Ok(hash::end(hash::pour(s.outer, &x)))
}

// What the derivation takes the HMAC of, for a label of 4 bytes and a seed of 8.
fn string(label: [u8; 4], seed: [u8; 8]) -> [u8; 16]
    ensures { result ≡ stringOf label seed }
{
    [
        0x01, label[0], label[1], label[2], label[3], 0x00, seed[0], seed[1], seed[2], seed[3],
        seed[4], seed[5], seed[6], seed[7], 0x01, 0x00,
    ]
}

// The key derived from a key of 32 bytes and a seed of 8, under the label of card keys; other lengths: 1.
pub fn derive(key: &[u8], seed: &[u8]) -> Result<[u8; 32], Refusal>
    ensures { result ≡ card_derivation key.now seed.now }
{
    hmac(key, &string(card_label(), exactly(seed)?))
}

// A key, kept for many seeds: its first blocks and the round keys after them are paid for once.
pub fn keep(key: [u8; 32]) -> [u64; KEPT_WORDS]
    ensures { result ≡ kept_words key }
{
    let s = start(key);
    let mut r = [0; KEPT_WORDS];
    lay(&mut r, 0, &hash::keep(s.inner.core));
    lay(&mut r, 128, &hash::keep(s.outer.core));
    r
}

// The key derived from the words of a kept key, a label and a seed, with the constants cs, which are made once for many; another number of words: 1.
pub fn derive_kept_over(
    cs: &[[u64; 8]],
    kept: &[u64],
    label: [u8; 4],
    seed: [u8; 8],
) -> Result<[u8; 32], Refusal>
    ensures { result ≡ derivation_over cs.now kept.now label seed }
{
    if kept.len() != KEPT_WORDS {
        return Err(Refusal::Input);
    }
    let m = string(label, seed);
    let x = hash::end_block(cs, &kept[0..128], 128, hash::last_block(&m));
    Ok(hash::end_block(cs, &kept[128..], 256, hash::last_block(&x)))
}

// The key derived from the words of a kept key, a label and a seed; another number of words: 1.
pub fn derive_kept(kept: &[u64], label: [u8; 4], seed: [u8; 8]) -> Result<[u8; 32], Refusal>
    ensures { result ≡ derivation_kept kept.now label seed }
{
    let cs = rounds::iteration_constants();
    derive_kept_over(&cs, kept, label, seed)
}
