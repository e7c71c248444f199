// The issuer's desk (Wish 7): the issuer's master keys, how card digits are taken, and the table of the cards that it holds. It is built on what the crates
// below promise and on nothing else of them. Adding, forgetting and checking take the desk and hand back the desk after them.
#![tactic(auto)]

mod script;

ghost use Rattle.std.specs.Prelude.{◌≡◌, true, ◌≤◌, length};
ghost use Rattle.keys.specs.CardNumber.{card_fits};
ghost use Rattle.answers.specs.Answers.{number_told};
ghost use Rattle.desk.specs.Desk.{id_of, master_key, adds, forgets};
ghost use Rattle.desk.specs.Check.{counter_in, session_of, above_last, checks, checks_known, checks_right};
ghost use Rattle.desk.specs.Wrap.{script_of, wraps};
ghost use Rattle.message.specs.Answers.{Wrote};
ghost use Rattle.gost.specs.Gost.{subkeys};
ghost use Rattle.cryptogram.specs.declared.Kind.TheVariants.{Arqc};
ghost use Rattle.cryptogram.specs.Cryptogram.{cryptogram_of};

use answers::Refusal;
use cryptogram::Kind;
use table::{CardId, Entry};

#[derive(Clone, Copy)]
pub struct Desk {
    // the issuer's master keys
    pub ac: [u8; 32],
    pub smi: [u8; 32],
    pub smc: [u8; 32],
    // whether card digits are taken as packed decimal, and not by pairs
    pub packed: bool,
    pub places: [Entry; 64],
}

// The desk after a checking, and the ARPC.
#[derive(Clone, Copy)]
pub struct Checked {
    pub desk: Desk,
    pub arpc: [u8; 8],
}

// A card's number and sequence number as its entry has them.
fn id_of(pan: &[u8], sequence: u8) -> CardId
    requires { length pan.now ≤ 19 }
    ensures { result ≡ id_of pan.now sequence }
{
    let mut digits = [0; 19];
    digits[..pan.len()].copy_from_slice(pan);
    CardId {
        digits,
        count: pan.len() as u8,
        sequence,
    }
}

// The desk after an adding: 2, 20, 21.
pub fn add(d: Desk, pan: &[u8], sequence: u8) -> Result<Desk, Refusal>
    ensures { result ≡ adds d pan.now sequence }
{
    if !keys::card_fits(pan, sequence) {
        return Err(Refusal::CardNumber);
    }
    let places = table::add(d.places, id_of(pan, sequence))?;
    Ok(Desk { places, ..d })
}

// The desk after a forgetting: 2, 19.
pub fn forget(d: Desk, pan: &[u8], sequence: u8) -> Result<Desk, Refusal>
    ensures { result ≡ forgets d pan.now sequence }
{
    if !keys::card_fits(pan, sequence) {
        return Err(Refusal::CardNumber);
    }
    let places = table::forget(d.places, id_of(pan, sequence))?;
    Ok(Desk { places, ..d })
}

// A card's master key, from the issuer's.
fn master_key(packed: bool, issuer: [u8; 32], pan: &[u8], sequence: u8) -> [u8; 32]
    requires { card_fits pan.now sequence ≡ true }
    ensures { result ≡ master_key packed issuer pan.now sequence }
{
    if packed {
        keys::card_key_packed(&issuer, pan, sequence).unwrap()
    } else {
        keys::card_key(&issuer, pan, sequence).unwrap()
    }
}

// The counter in the data sent.
fn counter_in(data: &[u8]) -> u16
    requires { length «data».now ≡ 65 }
    ensures { result ≡ counter_in «data».now }
{
    octets::high_low(data[31], data[32])
}

// The session key for cryptograms of a card at a counter.
fn session_of(d: Desk, pan: &[u8], sequence: u8, counter: u16) -> [u8; 32]
    requires { card_fits pan.now sequence ≡ true }
    ensures { result ≡ session_of d pan.now sequence counter }
{
    let m = master_key(d.packed, d.ac, pan, sequence);
    keys::session_key(&m, counter).unwrap()
}

// Whether a counter is above the last one of a card, if it has one.
fn above_last(places: [Entry; 64], c: CardId, counter: u16) -> bool
    ensures { result ≡ above_last places c counter }
{
    match table::last_of(places, c) {
        Ok(l) => !l.known || l.last < counter,
        Err(_) => true,
    }
}

// A right ARQC of a held card: 23, or the counter is kept and the ARPC given.
fn check_right(
    d: Desk,
    c: CardId,
    key: [u8; 32],
    counter: u16,
    arqc: &[u8],
    csu: &[u8],
) -> Result<Checked, Refusal>
    requires { (length arqc.now ≡ 8) × (length csu.now ≡ 4) }
    ensures { result ≡ checks_right d c key counter arqc.now csu.now }
{
    if !above_last(d.places, c, counter) {
        return Err(Refusal::CounterNotAbove);
    }
    let places = table::keep(d.places, c, counter)?;
    let desk = Desk { places, ..d };
    let arpc = cryptogram::arpc(&key, arqc, csu).unwrap();
    Ok(Checked { desk, arpc })
}

// 01's ARQC for the data and a counter, under a session key.
fn arqc_of(key: [u8; 32], counter: u16, data: &[u8]) -> [u8; 8]
    requires { length «data».now ≡ 65 }
    ensures { result ≡ cryptogram_of (subkeys 8 key) Arqc counter «data».now }
{
    cryptogram::cryptogram(&key, Kind::Arqc, counter, data).unwrap()
}

// A held card's check: 22, 23.
fn check_known(
    d: Desk,
    c: CardId,
    key: [u8; 32],
    counter: u16,
    data: &[u8],
    arqc: &[u8],
    csu: &[u8],
) -> Result<Checked, Refusal>
    requires { (length «data».now ≡ 65) × (length arqc.now ≡ 8) × (length csu.now ≡ 4) }
    ensures { result ≡ checks_known d c key counter «data».now arqc.now csu.now }
{
    let own = arqc_of(key, counter, data);
    if !octets::same(&own, arqc) {
        return Err(Refusal::ArqcDiffers);
    }
    check_right(d, c, key, counter, arqc, csu)
}

// Checks an ARQC over the data sent, and gives the ARPC for a CSU: 1, 2, 19, 22, 23.
pub fn check(
    d: Desk,
    pan: &[u8],
    sequence: u8,
    data: &[u8],
    arqc: &[u8],
    csu: &[u8],
) -> Result<Checked, Refusal>
    ensures { result ≡ checks d pan.now sequence «data».now arqc.now csu.now }
{
    if data.len() != 65 || arqc.len() != 8 || csu.len() != 4 {
        return Err(Refusal::Input);
    }
    if !keys::card_fits(pan, sequence) {
        return Err(Refusal::CardNumber);
    }
    let c = id_of(pan, sequence);
    if !table::is_held(d.places, c) {
        return Err(Refusal::UnknownCard);
    }
    let counter = counter_in(data);
    let key = session_of(d, pan, sequence, counter);
    check_known(d, c, key, counter, data, arqc, csu)
}

// A card's session key for scripts under a cryptogram, from the issuer's master key.
fn script_of(
    packed: bool,
    issuer: [u8; 32],
    pan: &[u8],
    sequence: u8,
    cryptogram: &[u8],
) -> [u8; 32]
    requires { (card_fits pan.now sequence ≡ true) × (length cryptogram.now ≡ 8) }
    ensures { result ≡ script_of packed issuer pan.now sequence cryptogram.now }
{
    let m = master_key(packed, issuer, pan, sequence);
    keys::script_key(&m, cryptogram).unwrap()
}

// Writes header and message of a command for a held card at a place of the buffer; or refuses by 1, 2, 19, 12 or 3, and writes nothing. The
// instruction is the command's; a PIN is looked at where it sets one.
pub fn wrap(
    d: Desk,
    pan: &[u8],
    sequence: u8,
    instruction: u8,
    cryptogram: &[u8],
    pin: &[u8],
    buffer: &mut [u8],
    place: usize,
) -> Result<(), Refusal>
    ensures { Wrote (wraps d pan.now sequence instruction cryptogram.now pin.now buffer.old place)
        (number_told result) buffer.new }
{
    let command = script::ordered(instruction)?;
    if cryptogram.len() != 8 {
        return Err(Refusal::Input);
    }
    if !keys::card_fits(pan, sequence) {
        return Err(Refusal::CardNumber);
    }
    if !table::is_held(d.places, id_of(pan, sequence)) {
        return Err(Refusal::UnknownCard);
    }
    let smi = script_of(d.packed, d.smi, pan, sequence, cryptogram);
    let smc = script_of(d.packed, d.smc, pan, sequence, cryptogram);
    script::wrap_command(command, smi, smc, pin, buffer, place)
}
