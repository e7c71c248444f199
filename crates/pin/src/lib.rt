// PIN blocks and counter blocks (R 1323565.1.008, clauses 4.2 and 4.3). Digits of a PIN stand one to a byte.
#![tactic(auto)]

ghost use Rattle.std.specs.Prelude.{◌≡◌, true, ◌++◌, map, ◌+◌, ◌-◌, ◌*◌, ◌%◌, ◌≤◌, length, take, drop, replicate};
ghost use Rattle.octets.specs.Digits.{pairs};
ghost use Rattle.pin.specs.PinBlock.{pin_fits, nibbles, fields, pin_block, well_formed};
ghost use Rattle.pin.specs.CounterBlock.{counter_block, counters_of};
ghost use Rattle.pin.specs.Answers.{write_pin, read_block, read_pin, encipher_pin, decipher_pin};

use answers::{Refusal, exactly};

// A PIN in twelve places, zeros in the unused ones, and its count. The count stands first, where a `Result` has the refusal of an `Err`: with the digits
// there they would be taken apart after their first byte.
#[derive(Clone, Copy, Debug, PartialEq, Eq)]
pub struct Pin {
    pub count: u8,
    pub digits: [u8; 12],
}

// The counters of a counter block, by their names in 002.
#[derive(Clone, Copy, Debug, PartialEq, Eq)]
pub struct Counters {
    // AC Session Counter
    pub session: u16,
    // SMI Session Key Counter: script failures
    pub failures: u16,
    // PIN Decipherment Counter
    pub decipherments: u16,
    // Terminal Mutual Authentication Counter
    pub authentications: u16,
}

// Whether s is a PIN of n digits, n from 4 to 12, and then fillers.
#[tactic(auto, unfolding(crate::specs::PinBlock::pin_fits))]
pub fn pin_fits(s: &[u8], n: usize, filler: u8) -> bool
    ensures { result ≡ pin_fits filler n s.now }
{
    matches!(n, 4..=12) && octets::digits(s, n, filler)
}

// The half-bytes of the block of a PIN.
fn fields_of(pin: &[u8]) -> [u8; 16]
    requires { length pin.now ≤ 12 }
    ensures { result ≡ fields pin.now }
{
    let mut h = [0xf; 16];
    h[0] = 2;
    h[1] = pin.len() as u8;
    h[2..2 + pin.len()].copy_from_slice(pin);
    h
}

// Half-bytes to bytes.
fn join(h: [u8; 16]) -> [u8; 8]
    ensures { result ≡ pairs 16 (map (λ x. x % 16) h) }
{
    let mut r = [0; 8];
    for i in 0..8 {
        r[i] = 16 * (h[2 * i] % 16) + h[2 * i + 1] % 16;
    }
    r
}

// Bytes to half-bytes.
fn split(b: [u8; 8]) -> [u8; 16]
    ensures { result ≡ nibbles b }
{
    let mut r = [0; 16];
    for i in 0..8 {
        r[2 * i] = b[i] / 16;
        r[2 * i + 1] = b[i] % 16;
    }
    r
}

// The block of a PIN.
fn block_of(pin: &[u8]) -> [u8; 8]
    requires { pin_fits 0 (length pin.now) pin.now ≡ true }
    ensures { result ≡ pin_block pin.now }
{
    join(fields_of(pin))
}

// A PIN's block; 12 where it is not 4 to 12 digits.
pub fn write_pin(digits: &[u8]) -> Result<[u8; 8], Refusal>
    ensures { result ≡ write_pin digits.now }
{
    if !pin_fits(digits, digits.len(), 0) {
        return Err(Refusal::PinDigits);
    }
    Ok(block_of(digits))
}

// Whether half-bytes are those of a PIN block.
#[tactic(auto, unfolding(crate::specs::PinBlock::well_formed))]
fn well_formed(h: [u8; 16]) -> bool
    ensures { result ≡ well_formed h }
{
    h[0] == 2 && pin_fits(&h[2..], h[1] as usize, 0xf)
}

// The first n digits of a block's half-bytes, and zeros to twelve.
fn twelve(h: [u8; 16], n: u8) -> [u8; 12]
    requires { n ≤ 12 }
    ensures { result ≡ take n (drop 2 h) ++ replicate (12 - n) 0 }
{
    let m = n as usize;
    let mut pin = [0; 12];
    for i in 0..m {
        pin[i] = h[2 + i];
    }
    pin
}

// The PIN of a block; 9 where its format is wrong.
pub fn read_block(block: [u8; 8]) -> Result<Pin, Refusal>
    ensures { result ≡ read_block block }
{
    let h = split(block);
    if !well_formed(h) {
        return Err(Refusal::PinFormat);
    }
    let count = h[1];
    Ok(Pin {
        digits: twelve(h, count),
        count,
    })
}

// The PIN of a block of 8 bytes; other lengths: 1, a wrong format: 9.
pub fn read_pin(block: &[u8]) -> Result<Pin, Refusal>
    ensures { result ≡ read_pin block.now }
{
    read_block(exactly(block)?)
}

// A PIN's block enciphered under a key of 32 bytes, else 1; 12 where the PIN is not 4 to 12 digits.
pub fn encipher_pin(key: &[u8], digits: &[u8]) -> Result<[u8; 8], Refusal>
    ensures { result ≡ encipher_pin key.now digits.now }
{
    let k = cipher::expand(exactly(key)?);
    Ok(cipher::encipher_with(k, write_pin(digits)?))
}

// The PIN of an enciphered block of 8 bytes under a key of 32; other lengths: 1, a wrong format: 9.
pub fn decipher_pin(key: &[u8], block: &[u8]) -> Result<Pin, Refusal>
    ensures { result ≡ decipher_pin key.now block.now }
{
    read_block(cipher::decipher(key, block)?)
}

// The block of the counters, each high byte first.
pub fn write_counters(c: Counters) -> [u8; 8]
    ensures { result ≡ counter_block c }
{
    let s = octets::high_first(c.session);
    let f = octets::high_first(c.failures);
    let d = octets::high_first(c.decipherments);
    let a = octets::high_first(c.authentications);
    [s[0], s[1], f[0], f[1], d[0], d[1], a[0], a[1]]
}

// The counters of a block.
pub fn read_counters(block: [u8; 8]) -> Counters
    ensures { result ≡ counters_of block }
{
    Counters {
        session: octets::high_low(block[0], block[1]),
        failures: octets::high_low(block[2], block[3]),
        decipherments: octets::high_low(block[4], block[5]),
        authentications: octets::high_low(block[6], block[7]),
    }
}
