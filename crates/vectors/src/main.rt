// Runs the published vectors. A line of the input names document, clause and operation and gives the inputs in hexadecimal;
// a line of the output repeats the three names and gives what the box computes. The file stdout has the published values.
#![tactic(auto)]

mod readings;

ghost use Rattle.std.specs.Prelude.{◌≡◌, ◌≤◌, ◌<◌, length, OnErr};
ghost use Rattle.std.specs.Io.{ReadsAtMost};

use answers::Refusal;
use cryptogram::Kind;
use std::io;
use std::io::{Read, Write};

// A word of a line: its first place, and the place after its last.
#[derive(Clone, Copy)]
pub struct Word {
    pub from: usize,
    pub to: usize,
}

// The place at or after `from` that holds the sign, or the end.
fn find(text: &[u8], from: usize, sign: u8) -> usize
    requires { from ≤ length text.now }
    ensures { (from ≤ result) × (result ≤ length text.now) }
{
    match text[from..].iter().position(|b| *b == sign) {
        Some(i) => from + i,
        None => text.len(),
    }
}

// The word after another, up to the next blank; none at the end.
fn after(line: &[u8], w: Word) -> Word {
    if line.len() <= w.to {
        return w;
    }
    let from = w.to + 1;
    Word {
        from,
        to: find(line, from, b' '),
    }
}

// The text of a word.
fn part(line: &[u8], w: Word) -> &[u8] {
    line.get(w.from..w.to).unwrap_or(line)
}

// The first n of some bytes, or all of them.
fn first(bytes: &[u8], n: usize) -> &[u8] {
    bytes.get(..n).unwrap_or(bytes)
}

// The bytes of hexadecimal digits, put at the start of out; none where there is no room.
fn unhex(digits: &[u8], out: &mut [u8]) -> usize {
    let n = digits.len() / 2;
    if out.len() < n {
        return 0;
    }
    for i in 0..n {
        let high = octets::hex_value(digits[2 * i]) % 16;
        let low = octets::hex_value(digits[2 * i + 1]) % 16;
        out[i] = high * 16 + low;
    }
    n
}

// Writes bytes as hexadecimal digits.
fn put<W: Write>(to: &mut W, bytes: &[u8]) -> io::Result<()> {
    for b in bytes {
        to.write_all(&octets::hex(*b))?;
    }
    Ok(())
}

// What an operation answers: its bytes, or its refusal's number.
fn answer<W: Write>(to: &mut W, r: Result<&[u8], Refusal>) -> io::Result<()> {
    to.write_all(b" ")?;
    match r {
        Ok(bytes) => put(to, bytes),
        Err(why) => {
            to.write_all(b"refused ")?;
            put(to, &[why.number()])
        }
    }
}

fn answer_all<W: Write, const N: usize>(to: &mut W, r: Result<[u8; N], Refusal>) -> io::Result<()> {
    match r {
        Ok(bytes) => answer(to, Ok(&bytes)),
        Err(why) => answer(to, Err(why)),
    }
}

// A number of one or two bytes, high first.
fn number(b: &[u8]) -> u16 {
    match b {
        [x] => *x as u16,
        [high, low] => octets::high_low(*high, *low),
        _ => 0,
    }
}

// The IDN of as many bytes as n says.
fn idn<W: Write>(to: &mut W, key: &[u8], counter: &[u8], n: &[u8]) -> io::Result<()> {
    if n.len() != 1 {
        return Ok(());
    }
    match keys::idn(key, number(counter), n[0]) {
        Ok(bytes) => answer(to, Ok(first(&bytes, n[0] as usize))),
        Err(why) => answer(to, Err(why)),
    }
}

fn card_key<W: Write>(
    to: &mut W,
    packed: bool,
    key: &[u8],
    digits: &[u8],
    sequence: &[u8],
) -> io::Result<()> {
    if sequence.len() != 1 {
        return Ok(());
    }
    if packed {
        return answer_all(to, keys::card_key_packed(key, digits, sequence[0]));
    }
    answer_all(to, keys::card_key(key, digits, sequence[0]))
}

// Whether the key kept gives the same answer, where key, label and seed have the lengths for it.
fn agrees_kept(key: &[u8], label: &[u8], seed: &[u8], given: Result<[u8; 32], Refusal>) -> bool {
    let (Ok(k), Ok(l), Ok(s)) = (
        answers::exactly(key),
        answers::exactly(label),
        answers::exactly(seed),
    ) else {
        return true;
    };
    derive::derive_kept(&derive::keep(k), l, s) == given
}

// The derivation with a label of its own; where the key kept gives another, no answer.
fn labelled<W: Write>(to: &mut W, key: &[u8], label: &[u8], seed: &[u8]) -> io::Result<()> {
    let r = derive::derivation(key, label, seed);
    if !agrees_kept(key, label, seed, r) {
        return Ok(());
    }
    answer_all(to, r)
}

// The operations of `pin` and `cryptogram`.
fn run_blocks<W: Write>(to: &mut W, name: &[u8], a: &[u8], b: &[u8], c: &[u8]) -> io::Result<()> {
    match name {
        b"write-pin" => answer_all(to, pin::write_pin(a)),
        b"encipher-pin" => answer_all(to, pin::encipher_pin(a, b)),
        b"arqc" => answer_all(to, cryptogram::cryptogram(a, Kind::Arqc, number(b), c)),
        b"tc" => answer_all(to, cryptogram::cryptogram(a, Kind::Tc, number(b), c)),
        b"aac" => answer_all(to, cryptogram::cryptogram(a, Kind::Aac, number(b), c)),
        b"arpc" => answer_all(to, cryptogram::arpc(a, b, c)),
        _ => to.write_all(b" unknown"),
    }
}

// The operations of `hash`, `derive` and `keys`.
fn run_keys<W: Write>(to: &mut W, name: &[u8], a: &[u8], b: &[u8], c: &[u8]) -> io::Result<()> {
    match name {
        b"hash" => answer(to, Ok(&hash::hash(a))),
        b"hmac" => answer_all(to, derive::hmac(a, b)),
        b"derive" => labelled(to, a, b, c),
        b"card-key" => card_key(to, false, a, b, c),
        b"card-key-packed" => card_key(to, true, a, b, c),
        b"session-key" => answer_all(to, keys::session_key(a, number(b))),
        b"script-key" => answer_all(to, keys::script_key(a, b)),
        b"counter-key" => answer_all(to, keys::counter_key(a)),
        b"idn" => idn(to, a, b, c),
        _ => run_blocks(to, name, a, b, c),
    }
}

// The operations of `cipher`, the readings of the octet order, and the others.
fn run<W: Write>(to: &mut W, name: &[u8], a: &[u8], b: &[u8], c: &[u8]) -> io::Result<()> {
    match name {
        b"code" => answer_all(to, cipher::code(a, b)),
        b"encipher" => answer_all(to, cipher::encipher(a, b)),
        b"decipher" => answer_all(to, cipher::decipher(a, b)),
        b"readings.code" => readings::code(to, a, b, c),
        b"readings.idn" => readings::idn(to, a, b, c),
        _ => run_keys(to, name, a, b, c),
    }
}

// The inputs after the operation's name, and the operation on them.
fn operation<W: Write>(to: &mut W, line: &[u8], name: Word) -> io::Result<()> {
    let w1 = after(line, name);
    let w2 = after(line, w1);
    let w3 = after(line, w2);
    let mut a = [0u8; 1024];
    let mut b = [0u8; 1024];
    let mut c = [0u8; 1024];
    let n1 = unhex(part(line, w1), &mut a);
    let n2 = unhex(part(line, w2), &mut b);
    let n3 = unhex(part(line, w3), &mut c);
    run(
        to,
        part(line, name),
        first(&a, n1),
        first(&b, n2),
        first(&c, n3),
    )
}

// One line: three names, then up to three inputs.
fn line_of<W: Write>(to: &mut W, line: &[u8]) -> io::Result<()> {
    let document = Word {
        from: 0,
        to: find(line, 0, b' '),
    };
    let name = after(line, after(line, document));
    to.write_all(first(line, name.to))?;
    operation(to, line, name)?;
    to.write_all(b"\n")
}

// The lines of a text, one after the other.
fn lines_of<W: Write>(to: &mut W, text: &[u8]) -> io::Result<()> {
    for line in text.split_inclusive(|b| *b == b'\n') {
        line_of(to, line.strip_suffix(b"\n").unwrap_or(line))?;
    }
    Ok(())
}

// Reads until a buffer is full or the input ends, and says how many bytes it put at its start.
fn read_full<R: Read>(from: &mut R, text: &mut [u8]) -> io::Result<usize>
    ensures ok { ReadsAtMost result text.new }
    ensures err { OnErr result (length text.new ≡ length text.old) }
{
    let mut n = 0;
    while n < text.len() {
        let got = from.read(&mut text[n..])?;
        if got == 0 {
            return Ok(n);
        }
        n += got;
    }
    Ok(n)
}

fn main(rt: HostRuntime) -> io::Result<()> {
    let mut text = [0; 65536];
    let n = read_full(&mut rt.stdin(), &mut text)?;
    lines_of(&mut rt.stdout(), &text[..n])
}
