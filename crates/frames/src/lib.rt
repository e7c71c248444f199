// The clerk's trace, one line: a hexadecimal frame, and what answers it.
#![tactic(auto)]

ghost use Rattle.std.specs.Prelude.{◌≡◌, true, ◌+◌, ◌≤◌, ◌/◌, length, take, drop};
ghost use Rattle.answers.specs.declared.Refusal.TheVariants.{Input};
ghost use Rattle.answers.specs.Refusals.{number};
ghost use Rattle.card.specs.Calls.{plain, step, IssuerAnswer, Script, Close, Withdraw, Counters};
ghost use Rattle.card.specs.Record.{masters};
ghost use Rattle.card.specs.Words.{Fits, FitAll};
ghost use Rattle.lines.specs.Lines.{longest, hexadecimal, octets_of};
ghost use Rattle.lines.specs.Said.{said};
ghost use Rattle.frames.specs.Frames.{part as bytesAt, tries_in, personalised_by, starts, overlong, bare, called, framed, answer_to};

use answers::Refusal;
use card::{Card, FULL_TRIES, Reply};
pub use lines::{Held, LONGEST_ANSWER, Said, none};

// The most digits of a line, how many signs of one are kept, how many octets it has, and the last frame.
pub const LONGEST: usize = 538;

pub const KEPT: usize = LONGEST + 1;

const OCTETS: usize = LONGEST / 2;

const LAST_FRAME: u8 = 7;

// The octets of a line's digits, at the start of the array.
fn octets_of(text: &[u8]) -> [u8; OCTETS]
    requires { length text.now ≤ longest }
    ensures { take (length text.now / 2) result ≡ octets_of text.now }
{
    let mut bytes = [0u8; OCTETS];
    for i in 0..text.len() / 2 {
        bytes[i] = lines::octet_of(text[2 * i], text[2 * i + 1]);
    }
    bytes
}

// The N bytes of a frame from a place on.
fn part<const N: usize>(frame: &[u8], at: usize) -> [u8; N]
    requires { at + N ≤ length frame.now }
    ensures { result ≡ bytesAt at N frame.now }
{
    let mut bytes = [0; N];
    bytes.copy_from_slice(&frame[at..at + N]);
    bytes
}

// The tries that frame 00 ends in, or all.
fn tries_in(rest: &[u8]) -> u8
    ensures { result ≡ tries_in rest.now }
{
    if rest.len() == 116 {
        rest[115]
    } else {
        FULL_TRIES
    }
}

// The record that frame 00 makes of the 115 or 116 bytes after its first.
fn fresh(rest: &[u8]) -> Reply
    requires { (115 ≤ length rest.now) × (length rest.now ≤ 116) }
    ensures { result ≡ personalised_by rest.now }
{
    let ac = part(rest, 0);
    let smi = part(rest, 32);
    let smc = part(rest, 64);
    let atc = octets::high_low(rest[96], rest[97]);
    let counters = part(rest, 98);
    let block = part(rest, 107);
    let tries = tries_in(rest);
    Card::personalise(ac, smi, smc, atc, counters, rest[106], block, tries)
}

// Frame 00 after its first byte: a new record, or the old one and 1, 9.
fn personalise(held: Held, rest: &[u8]) -> Said
    ensures { result ≡ said (starts held (personalised_by rest.now)) }
{
    if rest.len() < 115 || rest.len() > 116 {
        return lines::refused(held, Refusal::Input);
    }
    let made = fresh(rest);
    if made.code != 0 {
        return lines::short(held, made.code);
    }
    lines::short(lines::one(made.card), 0)
}

// A refusal without bytes.
fn refused(card: Card, why: Refusal) -> Reply
    ensures { result ≡ plain card (number why) }
{
    Reply {
        card,
        code: why.number(),
        kind: 0,
        bytes: [0; 8],
    }
}

// Frame 04 or 06 with bytes after its first: 6, 1.
fn too_long(card: Card) -> Reply
    ensures { result ≡ overlong card }
{
    if card.close().code == Refusal::PhaseWrong.number() {
        return refused(card, Refusal::PhaseWrong);
    }
    refused(card, Refusal::Input)
}

// Frame 02 after its first byte: ARPC and CSU.
fn issuer_answer(card: Card, ac: &[u64], rest: &[u8]) -> Reply
    ensures { Fits ac.now card.ac → result ≡ step card (IssuerAnswer (take 8 rest.now) (drop 8 rest.now)) }
{
    if rest.len() < 8 {
        return card.issuer_answer_kept(ac, rest, &[]);
    }
    card.issuer_answer_kept(ac, &rest[..8], &rest[8..])
}

// Frame 03 after its first byte: header and message.
fn script(card: Card, smi: &[u64], smc: &[u64], rest: &[u8]) -> Reply
    ensures { Fits smi.now card.smi → Fits smc.now card.smc → result ≡ step card (Script (take 4 rest.now) (drop 4 rest.now)) }
{
    if rest.len() < 4 {
        return card.script_kept(smi, smc, rest, &[]);
    }
    card.script_kept(smi, smc, &rest[..4], &rest[4..])
}

// Frames 04 to 06 after their first byte.
fn close(card: Card, rest: &[u8]) -> Reply
    ensures { result ≡ bare rest.now (step card Close) (overlong card) }
{
    if !rest.is_empty() {
        return too_long(card);
    }
    card.close()
}

fn withdraw(card: Card, rest: &[u8]) -> Reply
    ensures { result ≡ bare rest.now (step card Withdraw) (plain card (number Input)) }
{
    if !rest.is_empty() {
        return refused(card, Refusal::Input);
    }
    card.withdraw()
}

fn counter_block(card: Card, ac: &[u64], rest: &[u8]) -> Reply
    ensures { Fits ac.now card.ac → result ≡ bare rest.now (step card Counters) (overlong card) }
{
    if !rest.is_empty() {
        return too_long(card);
    }
    card.counter_block_kept(ac)
}

// What the card answers to a frame 01 to 07.
fn call(card: Card, ac: &[u64], smi: &[u64], smc: &[u64], tag: u8, rest: &[u8]) -> Reply
    ensures { FitAll ac.now smi.now smc.now (masters card) → result ≡ called card tag rest.now }
{
    match tag {
        1 => card.open_kept(ac, rest),
        2 => issuer_answer(card, ac, rest),
        3 => script(card, smi, smc, rest),
        4 => close(card, rest),
        5 => withdraw(card, rest),
        6 => counter_block(card, ac, rest),
        _ => card.check_pin_kept(smc, rest),
    }
}

// The answer to a frame: its first byte, and the rest.
fn frame(held: Held, ac: &[u64], smi: &[u64], smc: &[u64], tag: u8, rest: &[u8]) -> Said
    ensures { FitAll ac.now smi.now smc.now (masters held.card) → result ≡ said (framed held tag rest.now) }
{
    if tag == 0 {
        return personalise(held, rest);
    }
    if !held.exists {
        return lines::refused(held, Refusal::PhaseWrong);
    }
    lines::replied(tag, call(held.card, ac, smi, smc, tag, rest))
}

// The answer to a line of digits.
fn read(held: Held, ac: &[u64], smi: &[u64], smc: &[u64], text: &[u8]) -> Said
    requires { (length text.now ≤ longest) × (hexadecimal text.now ≡ true) }
    ensures { FitAll ac.now smi.now smc.now (masters held.card) → result ≡ said (answer_to held text.now) }
{
    let bytes = octets_of(text);
    let tag = bytes[0];
    if tag > LAST_FRAME {
        return lines::refused(held, Refusal::Unreadable);
    }
    frame(held, ac, smi, smc, tag, &bytes[1..text.len() / 2])
}

// The answer to a line of n signs.
pub fn answer(held: Held, line: [u8; KEPT], n: usize) -> Said
    ensures { result ≡ said (answer_to held (take n line)) }
{
    answer_kept(held, &[], &[], &[], line, n)
}

// The same for whoever keeps the record's master keys: their words are lent, or none.
pub fn answer_kept(
    held: Held,
    ac: &[u64],
    smi: &[u64],
    smc: &[u64],
    line: [u8; KEPT],
    n: usize,
) -> Said
    ensures { FitAll ac.now smi.now smc.now (masters held.card) → result ≡ said (answer_to held (take n line)) }
{
    if n > LONGEST {
        return lines::refused(held, Refusal::Unreadable);
    }
    let text = &line[..n];
    if !lines::is_hexadecimal(text) {
        return lines::refused(held, Refusal::Unreadable);
    }
    read(held, ac, smi, smc, text)
}
