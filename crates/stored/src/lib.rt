// The desk over a table that the caller lends as bytes, with the issuer's keys lent beside it: what include/box.h gives to C. A lent slice of another
// length is 1, and a refusal leaves every lent byte as it was.
#![tactic(auto)]

ghost use Rattle.std.specs.Prelude.{◌≡◌, ◌+◌, ◌≤◌, length, take, drop};
ghost use Rattle.answers.specs.Answers.{number_told};
ghost use Rattle.message.specs.Answers.{Wrote};
ghost use Rattle.stored.specs.Form.{entry_at, entry_out, table_in, table_out};
ghost use Rattle.stored.specs.Lent.{lent_desk, AddedIn, ForgottenIn, CheckedIn, wraps_in};

use answers::Refusal;
use desk::Desk;
use table::{CardId, Entry};

// The length of a lent table, and of an entry of it.
pub const TABLE: usize = 1600;

pub const ENTRY: usize = 25;

// In the place of a key that a call does not look at.
const NO_KEY: [u8; 32] = [0; 32];

// The digits of the entry at p.
fn digits_at(b: &[u8], p: usize) -> [u8; 19]
    requires { p + 25 ≤ length b.now }
    ensures { result ≡ take 19 (drop (p + 2) b.now) }
{
    let mut digits = [0; 19];
    digits.copy_from_slice(&b[p + 2..p + 21]);
    digits
}

// The entry at p.
fn entry_at(b: &[u8], p: usize) -> Entry
    requires { p + 25 ≤ length b.now }
    ensures { result ≡ entry_at b.now p }
{
    let digits = digits_at(b, p);
    let id = CardId {
        digits,
        count: b[p + 1],
        sequence: b[p + 21],
    };
    Entry {
        held: b[p] != 0,
        id,
        known: b[p + 22] != 0,
        last: octets::high_low(b[p + 23], b[p + 24]),
    }
}

// The entries of a lent table.
fn table_in(b: &[u8]) -> [Entry; 64]
    requires { length b.now ≡ 1600 }
    ensures { result ≡ table_in b.now }
{
    std::array::from_fn(|i| entry_at(b, ENTRY * i))
}

// The bytes of an entry.
fn entry_out(e: Entry) -> [u8; 25]
    ensures { result ≡ entry_out e }
{
    let mut b = [0; 25];
    b[0] = e.held as u8;
    b[1] = e.id.count;
    b[2..21].copy_from_slice(&e.id.digits);
    b[21] = e.id.sequence;
    b[22] = e.known as u8;
    b[23..].copy_from_slice(&octets::high_first(e.last));
    b
}

// Writes the entries over a lent table.
fn table_out(places: [Entry; 64], b: &mut [u8])
    requires { length b.old ≡ 1600 }
    ensures { b.new ≡ table_out places }
{
    for (i, e) in places.iter().enumerate() {
        b[ENTRY * i..ENTRY * i + ENTRY].copy_from_slice(&entry_out(*e));
    }
}

// The desk of a lent table and of keys.
fn desk_of(b: &[u8], ac: [u8; 32], smi: [u8; 32], smc: [u8; 32], packed: bool) -> Desk
    requires { length b.now ≡ 1600 }
    ensures { result ≡ lent_desk ac smi smc packed b.now }
{
    let places = table_in(b);
    Desk {
        ac,
        smi,
        smc,
        packed,
        places,
    }
}

// Adds a card. 1: the table's length; 2, 20, 21.
pub fn add(table: &mut [u8], pan: &[u8], sequence: u8) -> Result<(), Refusal>
    ensures { AddedIn table.old pan.now sequence (number_told result) table.new }
{
    if table.len() != TABLE {
        return Err(Refusal::Input);
    }
    let lent = desk_of(table, NO_KEY, NO_KEY, NO_KEY, false);
    let d = desk::add(lent, pan, sequence)?;
    table_out(d.places, table);
    Ok(())
}

// Forgets a card. 1: the table's length; 2, 19.
pub fn forget(table: &mut [u8], pan: &[u8], sequence: u8) -> Result<(), Refusal>
    ensures { ForgottenIn table.old pan.now sequence (number_told result) table.new }
{
    if table.len() != TABLE {
        return Err(Refusal::Input);
    }
    let lent = desk_of(table, NO_KEY, NO_KEY, NO_KEY, false);
    let d = desk::forget(lent, pan, sequence)?;
    table_out(d.places, table);
    Ok(())
}

// Checks an ARQC over the data sent, keeps the counter, and gives the ARPC for a CSU. 1: a length, or digits above 1; 2, 19, 22, 23.
pub fn check(
    table: &mut [u8],
    issuer: &[u8],
    digits: u8,
    pan: &[u8],
    sequence: u8,
    data: &[u8],
    arqc: &[u8],
    csu: &[u8],
    out: &mut [u8],
) -> Result<(), Refusal>
    ensures { CheckedIn table.old issuer.now digits pan.now sequence «data».now arqc.now csu.now out.old
        (number_told result) table.new out.new }
{
    let ac = answers::exactly(issuer)?;
    if table.len() != TABLE || digits > 1 || out.len() != 8 {
        return Err(Refusal::Input);
    }
    let lent = desk_of(table, ac, NO_KEY, NO_KEY, digits == 1);
    let x = desk::check(lent, pan, sequence, data, arqc, csu)?;
    table_out(x.desk.places, table);
    out.copy_from_slice(&x.arpc);
    Ok(())
}

// Writes header and message of a command at a place of the buffer. 1: a length, the instruction, or digits above 1; 2, 19, 12, 3.
pub fn wrap(
    table: &[u8],
    smi: &[u8],
    smc: &[u8],
    digits: u8,
    pan: &[u8],
    sequence: u8,
    instruction: u8,
    cryptogram: &[u8],
    pin: &[u8],
    buffer: &mut [u8],
    place: usize,
) -> Result<(), Refusal>
    ensures { Wrote
        (wraps_in table.now smi.now smc.now digits pan.now sequence instruction cryptogram.now pin.now
        buffer.old place)
        (number_told result) buffer.new }
{
    let smi = answers::exactly(smi)?;
    let smc = answers::exactly(smc)?;
    if table.len() != TABLE || digits > 1 {
        return Err(Refusal::Input);
    }
    let lent = desk_of(table, NO_KEY, smi, smc, digits == 1);
    desk::wrap(
        lent,
        pan,
        sequence,
        instruction,
        cryptogram,
        pin,
        buffer,
        place,
    )
}
