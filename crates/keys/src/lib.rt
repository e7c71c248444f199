// Card, session and counter keys (R 1323565.1.010, 008) and the IDN (016), each by the one derivation, the hash or the cipher.
#![tactic(auto)]

ghost use Rattle.std.specs.Prelude.{◌≡◌, true, ◌++◌, ◌-◌, ◌≤◌, take, replicate};
ghost use Rattle.octets.specs.Digits.{digits, pairs};
ghost use Rattle.keys.specs.CardNumber.{card_fits, X, sixteen as lastSixteen};
ghost use Rattle.keys.specs.Seeds.{session_seed};
ghost use Rattle.keys.specs.Answers.{card_answer, card_key, card_key_packed, seed_answer, counter_key, idn_answer};
ghost use Rattle.keys.specs.Answers.{session_key, script_key, session_key_kept, script_key_kept};

use answers::Refusal;

// Whether card number and sequence number have the form that 01 asks for.
pub fn card_fits(pan: &[u8], sequence: u8) -> bool
    ensures { result ≡ card_fits pan.now sequence }
{
    12 <= pan.len() && pan.len() <= 19 && sequence <= 99 && octets::digits(pan, pan.len(), 0)
}

// The last sixteen digits of X, with zeros before it where it is shorter.
fn sixteen(pan: &[u8], sequence: u8) -> [u8; 16]
    ensures { result ≡ lastSixteen (X pan.now sequence) }
{
    let last = &pan[pan.len().saturating_sub(14)..];
    let mut out = [0; 16];
    out[14 - last.len()..14].copy_from_slice(last);
    out[14] = sequence / 10;
    out[15] = sequence % 10;
    out
}

// Each pair of sixteen digits as one byte.
fn pair_up(base: u8, s: [u8; 16]) -> [u8; 8]
    requires { (base ≤ 16) × (digits 0 16 s ≡ true) }
    ensures { result ≡ pairs base s }
{
    let mut out = [0; 8];
    for i in 0..8 {
        out[i] = base * s[2 * i] + s[2 * i + 1];
    }
    out
}

// A card master key with the pairs of digits in a base.
fn card_key_by(base: u8, key: &[u8], pan: &[u8], sequence: u8) -> Result<[u8; 32], Refusal>
    requires { base ≤ 16 }
    ensures { result ≡ card_answer key.now pan.now sequence (pairs base (lastSixteen (X pan.now sequence))) }
{
    if key.len() != 32 {
        return Err(Refusal::Input);
    }
    if !card_fits(pan, sequence) {
        return Err(Refusal::CardNumber);
    }
    derive::derive(key, &pair_up(base, sixteen(pan, sequence)))
}

// The card master key of an issuer's key, a card number (one digit a byte) and a sequence number (0 where there is none).
pub fn card_key(issuer: &[u8], pan: &[u8], sequence: u8) -> Result<[u8; 32], Refusal>
    ensures { result ≡ card_key issuer.now pan.now sequence }
{
    card_key_by(10, issuer, pan, sequence)
}

// The same with the card digits as packed decimal, as the published master keys of 003 are made.
pub fn card_key_packed(issuer: &[u8], pan: &[u8], sequence: u8) -> Result<[u8; 32], Refusal>
    ensures { result ≡ card_key_packed issuer.now pan.now sequence }
{
    card_key_by(16, issuer, pan, sequence)
}

// The seed Y of a card's master keys, for whoever keeps the issuer's key; 2: the card.
pub fn card_seed(pan: &[u8], sequence: u8) -> Result<[u8; 8], Refusal>
    ensures { result ≡ seed_answer pan.now sequence }
{
    if !card_fits(pan, sequence) {
        return Err(Refusal::CardNumber);
    }
    Ok(pair_up(10, sixteen(pan, sequence)))
}

// The seed of a session key for cryptograms: the counter, f0, five 00.
fn session_seed(counter: u16) -> [u8; 8]
    ensures { result ≡ session_seed counter }
{
    let c = octets::high_first(counter);
    [c[0], c[1], 0xf0, 0, 0, 0, 0, 0]
}

// The session key for cryptograms, from the master key and the transaction counter.
pub fn session_key(master: &[u8], counter: u16) -> Result<[u8; 32], Refusal>
    ensures { result ≡ session_key master.now counter }
{
    derive::derive(master, &session_seed(counter))
}

// The session key for scripts, from the master key (SMI or SMC) and the cryptogram of 8 bytes.
pub fn script_key(master: &[u8], cryptogram: &[u8]) -> Result<[u8; 32], Refusal>
    ensures { result ≡ script_key master.now cryptogram.now }
{
    derive::derive(master, cryptogram)
}

// The session key for cryptograms, from the words of a kept master key; another number of words: 1.
pub fn session_key_kept(kept: &[u64], counter: u16) -> Result<[u8; 32], Refusal>
    ensures { result ≡ session_key_kept kept.now counter }
{
    derive::derive_kept(kept, derive::card_label(), session_seed(counter))
}

// The session key for scripts, from the words of a kept master key; another number of words, or a cryptogram not of 8 bytes: 1.
pub fn script_key_kept(kept: &[u64], cryptogram: &[u8]) -> Result<[u8; 32], Refusal>
    ensures { result ≡ script_key_kept kept.now cryptogram.now }
{
    derive::derive_kept(kept, derive::card_label(), answers::exactly(cryptogram)?)
}

// The key for counter blocks, from the session key for cryptograms.
pub fn counter_key(session: &[u8]) -> Result<[u8; 32], Refusal>
    ensures { result ≡ counter_key session.now }
{
    if session.len() != 32 {
        return Err(Refusal::Input);
    }
    Ok(hash::hash(session))
}

// The first n octets, and zeros in the other places.
fn first(b: [u8; 8], n: u8) -> [u8; 8]
    requires { n ≤ 8 }
    ensures { result ≡ take n b ++ replicate (8 - n) 0 }
{
    let mut out = [0; 8];
    let m = n as usize;
    out[..m].copy_from_slice(&b[..m]);
    out
}

// The IDN of n bytes, n from 2 to 8, under an IDN key, with zeros after it; else 1.
pub fn idn(key: &[u8], counter: u16, n: u8) -> Result<[u8; 8], Refusal>
    ensures { result ≡ idn_answer key.now counter n }
{
    if n < 2 || n > 8 {
        return Err(Refusal::Input);
    }
    let c = octets::high_first(counter);
    let b = cipher::encipher(key, &[c[0], c[1], 0, 0, 0, 0, 0, 0])?;
    Ok(first(b, n))
}
