// Application cryptograms ARQC, TC and AAC, and the issuer's ARPC (R 1323565.1.009).
#![tactic(auto)]

ghost use Rattle.std.specs.Prelude.{◌≡◌, ◌∷◌, ◌++◌, replicate};
ghost use Rattle.cryptogram.specs.Data.{marked};
ghost use Rattle.cryptogram.specs.Cryptogram.{twice as written_twice, double_code, string, cryptogram_of, arpc_string, arpc_of};
ghost use Rattle.cryptogram.specs.Answers.{cryptogram_answer, arpc_answer, kind_number, ReadsKind};

use answers::{Refusal, exactly};

// The kind of a cryptogram that answers the first command.
#[derive(Clone, Copy, Debug, PartialEq, Eq)]
pub enum Kind {
    Arqc = 0x80,
    Tc = 0x40,
    Aac = 0x00,
}

// A kind's number, as a card tells it to a terminal.
#[tactic(auto, unfolding(crate::specs::Answers::kind_number))]
pub fn kind_number(kind: Kind) -> u8
    ensures { result ≡ kind_number kind }
{
    kind as u8
}

// The kind of a number; a number of none is refusal 1.
pub fn kind_of(n: u8) -> Option<Kind>
    ensures { ReadsKind result n }
{
    match n {
        0x80 => Some(Kind::Arqc),
        0x40 => Some(Kind::Tc),
        0x00 => Some(Kind::Aac),
        _ => None,
    }
}

// A byte with the kind in its upper half.
fn mark(kind: Kind, b: u8) -> u8
    ensures { result ≡ marked kind b }
{
    match kind {
        Kind::Arqc => 0xa0 + b % 16,
        Kind::Tc => 0x90 + b % 16,
        Kind::Aac => 0x80 + b % 16,
    }
}

// Data with 80 and zeros after them.
fn pad(d: [u8; 65]) -> [u8; 72]
    ensures { result ≡ d ++ 0x80 ∷ replicate 6 0 }
{
    let mut s = [0; 72];
    s[..65].copy_from_slice(&d);
    s[65] = 0x80;
    s
}

// The string under a cryptogram: the data with the card's counter and the kind, padded.
fn string_of(kind: Kind, counter: u16, d: [u8; 65]) -> [u8; 72]
    ensures { result ≡ string kind counter d }
{
    let c = octets::high_first(counter);
    let mut s = pad(d);
    s[31] = c[0];
    s[32] = c[1];
    s[36] = mark(kind, s[36]);
    s
}

// The string under an ARPC.
fn arpc_string(cryptogram: [u8; 8], csu: [u8; 4]) -> [u8; 72]
    ensures { result ≡ arpc_string cryptogram csu }
{
    let mut s = [0; 72];
    s[..8].copy_from_slice(&cryptogram);
    s[8..12].copy_from_slice(&csu);
    s[16] = 0x80;
    s
}

// A code written twice.
fn twice(c: [u8; 4]) -> [u8; 8]
    ensures { result ≡ written_twice c }
{
    [c[0], c[1], c[2], c[3], c[0], c[1], c[2], c[3]]
}

// The code of a string, written twice, under an expanded key.
fn double_code(k: [u32; 8], s: [u8; 72]) -> [u8; 8]
    ensures { result ≡ double_code k s }
{
    twice(cipher::code_with(k, &s).unwrap())
}

// A cryptogram under an expanded session key.
pub fn cryptogram_with(k: [u32; 8], kind: Kind, counter: u16, d: [u8; 65]) -> [u8; 8]
    ensures { result ≡ cryptogram_of k kind counter d }
{
    double_code(k, string_of(kind, counter, d))
}

// An ARPC under an expanded session key.
pub fn arpc_with(k: [u32; 8], cryptogram: [u8; 8], csu: [u8; 4]) -> [u8; 8]
    ensures { result ≡ arpc_of k cryptogram csu }
{
    double_code(k, arpc_string(cryptogram, csu))
}

// A cryptogram under a session key of 32 bytes, of 65 bytes of data; other lengths: 1.
pub fn cryptogram(key: &[u8], kind: Kind, counter: u16, d: &[u8]) -> Result<[u8; 8], Refusal>
    ensures { result ≡ cryptogram_answer key.now kind counter d.now }
{
    let k = cipher::expand(exactly(key)?);
    Ok(cryptogram_with(k, kind, counter, exactly(d)?))
}

// The ARPC under a session key of 32 bytes, of a cryptogram of 8 and a CSU of 4; other lengths: 1.
pub fn arpc(key: &[u8], cryptogram: &[u8], csu: &[u8]) -> Result<[u8; 8], Refusal>
    ensures { result ≡ arpc_answer key.now cryptogram.now csu.now }
{
    let k = cipher::expand(exactly(key)?);
    Ok(arpc_with(k, exactly(cryptogram)?, exactly(csu)?))
}
