// Lines of the clerk's trace: whether a line's signs are read, and the line that answers it.
#![tactic(auto)]

ghost use Rattle.std.specs.Prelude.{◌≡◌, ◌≤◌, length};
ghost use Rattle.answers.specs.Refusals.{number};
ghost use Rattle.lines.specs.Lines.{legible, hexadecimal, octet_of};
ghost use Rattle.lines.specs.Answers.{holding, nothing, numbered, replied as repliedWith};
ghost use Rattle.lines.specs.Said.{said};

use answers::Refusal;
use card::{Card, Reply};

// The most bytes of an answer's line.
pub const LONGEST_ANSWER: usize = 21;

// Whether a record exists, and the record; a blank one where none does.
#[derive(Clone, Copy)]
pub struct Held {
    pub exists: bool,
    pub card: Card,
}

// The answer to a line: the record after it, and the answer's line.
#[derive(Clone, Copy)]
pub struct Said {
    pub held: Held,
    pub count: u8,
    pub answer: [u8; LONGEST_ANSWER],
}

// A record that exists, and none.
pub fn one(card: Card) -> Held
    ensures { result ≡ holding card }
{
    Held { exists: true, card }
}

pub fn none() -> Held
    ensures { result ≡ nothing }
{
    let refused = Card::personalise([0; 32], [0; 32], [0; 32], 0, [0; 8], 2, [0; 8], 0);
    Held {
        exists: false,
        card: refused.card,
    }
}

// Whether all signs are hexadecimal digits.
fn is_legible(text: &[u8]) -> bool
    ensures { result ≡ legible text.now }
{
    text.iter().all(|&sign| octets::hex_value(sign) < 16)
}

// The octet of two digits.
pub fn octet_of(high: u8, low: u8) -> u8
    ensures { result ≡ octet_of high low }
{
    octets::hex_value(high) % 16 * 16 + octets::hex_value(low) % 16
}

// Whether a line is digits, an even number of them and not none.
pub fn is_hexadecimal(text: &[u8]) -> bool
    ensures { result ≡ hexadecimal text.now }
{
    !text.is_empty() && text.len() % 2 == 0 && is_legible(text)
}

// The answer of some octets: their digits, and a line feed.
fn told(held: Held, octets: &[u8]) -> Said
    requires { length octets.now ≤ 10 }
    ensures { result ≡ said (record { after = held; octets = octets.now }) }
{
    let mut answer = [0u8; LONGEST_ANSWER];
    for (i, &x) in octets.iter().enumerate() {
        answer[2 * i..2 * i + 2].copy_from_slice(&octets::hex(x));
    }
    answer[2 * octets.len()] = b'\n';
    Said {
        held,
        count: 2 * octets.len() as u8 + 1,
        answer,
    }
}

// An answer of one octet.
pub fn short(held: Held, code: u8) -> Said
    ensures { result ≡ said (numbered held code) }
{
    told(held, &[code])
}

// A refusal: its number alone.
pub fn refused(held: Held, why: Refusal) -> Said
    ensures { result ≡ said (numbered held (number why)) }
{
    short(held, why.number())
}

// The answer to a frame that the card judged.
pub fn replied(tag: u8, reply: Reply) -> Said
    ensures { result ≡ said (repliedWith tag reply) }
{
    let held = one(reply.card);
    if reply.code != 0 {
        return short(held, reply.code);
    }
    let [a, b, c, d, e, f, g, h] = reply.bytes;
    match tag {
        1 => told(held, &[0, reply.kind, a, b, c, d, e, f, g, h]),
        6 => told(held, &[0, a, b, c, d, e, f, g, h]),
        _ => short(held, 0),
    }
}
