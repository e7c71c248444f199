// The soft card: its record, and the calls, each of which takes the record and hands back the record after it.
#![tactic(auto)]

ghost use Rattle.std.specs.Prelude.{◌≡◌, ◌<◌, length, Ok};
ghost use Rattle.answers.specs.Refusals.{number};
ghost use Rattle.derive.specs.Derivation.{derived, card_label};
ghost use Rattle.pin.specs.Answers.{decipher_pin};
ghost use Rattle.shapes.specs.Shape.{data_of};
ghost use Rattle.message.specs.Code.{code_fits};
ghost use Rattle.shapes.specs.declared.command.Command.TheVariants.{SetPin};
ghost use Rattle.transaction.specs.Transaction.{none, spoilt as spoiltOf};
ghost use Rattle.card.specs.Record.{sound, with_transaction};
ghost use Rattle.card.specs.Keys.{session_key_of, smi_key, smc_key};
ghost use Rattle.card.specs.Calls.{plain, arpc_for, counters_for, new_mark, pend, settled_record, is_kept, accepted, gives, reply, read, step, Open, IssuerAnswer, Script, Close, Withdraw, Counters as CountersCall, CheckPin};
ghost use Rattle.card.specs.Inner.{taken_as, obeyed_as, judged_as, compared_as};
ghost use Rattle.card.specs.Words.{Fits};
ghost use Rattle.card.specs.Personalise.{blank as blankAs, personalised};

use answers::Refusal;
use derive::KEPT_WORDS;
use message::Command;
use pin::{Counters, Pin};
pub use transaction::{PendingMark, Phase, Transaction};

// The tries that a PIN has.
pub const FULL_TRIES: u8 = 3;

// The record.
#[derive(Clone, Copy)]
pub struct Card {
    // the master keys
    pub ac: [u8; 32],
    pub smi: [u8; 32],
    pub smc: [u8; 32],
    // the kept PIN and its count, and the block mark
    pub pin: [u8; 12],
    pub count: u8,
    pub mark: bool,
    // the tries left for a PIN
    pub tries: u8,
    // the transaction counter
    pub atc: u16,
    pub counters: Counters,
    pub transaction: Transaction,
}

// What a call hands back: the record after it, its number, and for an accepted Open the kind's number (80 or 00) and the cryptogram, for
// accepted Counters the enciphered block; zeros otherwise.
#[derive(Clone, Copy)]
pub struct Reply {
    pub card: Card,
    pub code: u8,
    pub kind: u8,
    pub bytes: [u8; 8],
}

// Whether a record is sound.
#[tactic(auto, unfolding(crate::specs::Record::sound))]
fn is_sound(c: Card) -> bool
    ensures { result ≡ sound c }
{
    pin::pin_fits(&c.pin, c.count as usize, 0)
        && c.tries <= FULL_TRIES
        && transaction::pending_fits(c.transaction.pin, c.transaction.count)
        && transaction::rest_fits(c.transaction)
}

// A refusal.
fn refused(card: Card, why: Refusal) -> Reply
    ensures { result ≡ plain card (number why) }
{
    Reply {
        card,
        code: why.number(),
        kind: 0,
        bytes: [0; 8],
    }
}

// An acceptance without bytes.
fn accepted(card: Card) -> Reply
    ensures { result ≡ plain card 0 }
{
    Reply {
        card,
        code: 0,
        kind: 0,
        bytes: [0; 8],
    }
}

// A refusal of a script, which spoils the transaction.
fn spoiled(mut c: Card, why: Refusal) -> Reply
    ensures { result ≡ plain (with_transaction c (spoiltOf c.transaction)) (number why) }
{
    c.transaction.spoilt = true;
    refused(c, why)
}

// The session key for cryptograms, by the words of its master key where they are lent.
fn session_key(c: Card, ac: &[u64]) -> [u8; 32]
    ensures { Fits ac.now c.ac → result ≡ session_key_of c }
{
    if ac.len() == KEPT_WORDS {
        return keys::session_key_kept(ac, c.atc).unwrap();
    }
    keys::session_key(&c.ac, c.atc).unwrap()
}

// The key of a script, for its code or for secrecy, by its master key, or by the words of that key.
fn script_key(master: [u8; 32], words: &[u64], cryptogram: [u8; 8]) -> [u8; 32]
    ensures { Fits words.now master → result ≡ derived master card_label cryptogram }
{
    if words.len() == KEPT_WORDS {
        return keys::script_key_kept(words, &cryptogram).unwrap();
    }
    keys::script_key(&master, &cryptogram).unwrap()
}

// The ARPC that the card expects, under its session key.
fn arpc_for(c: Card, key: [u8; 32], csu: &[u8]) -> [u8; 8]
    requires { length csu.now ≡ 4 }
    ensures { key ≡ session_key_of c → result ≡ arpc_for c csu.now }
{
    cryptogram::arpc(&key, &c.transaction.cryptogram, csu).unwrap()
}

// The enciphered counter block.
fn counters_for(c: Card, ac: &[u64]) -> [u8; 8]
    ensures { Fits ac.now c.ac → result ≡ counters_for c }
{
    let session = session_key(c, ac);
    let key = keys::counter_key(&session).unwrap();
    cipher::encipher_with(cipher::expand(key), pin::write_counters(c.counters))
}

// What is pending laid over what is kept: the mark, and the PIN with all its tries.
fn lay(mut c: Card, t: Transaction) -> Card
    ensures { result ≡ settled_record c t }
{
    c.mark = transaction::mark_after(t.mark, c.mark);
    if t.count != 0 {
        let pin = t.pin;
        c.pin = pin;
        c.count = t.count;
        c.tries = FULL_TRIES;
    }
    c
}

// With no transaction open.
fn dropped(mut c: Card) -> Card
    ensures { result ≡ with_transaction c none }
{
    c.transaction = transaction::no_transaction();
    c
}

// An accepted Open, of a record whose counters can grow.
fn opening(mut c: Card, ac: &[u64], input: &[u8]) -> Reply
    requires { (c.atc < 65535) × ((c.counters.session < 65535) × (length input.now ≡ 65)) }
    ensures { Fits ac.now c.ac → result ≡ reply (accepted c (Open input.now)) (gives c (Open input.now)) }
{
    c.atc += 1;
    c.counters.session += 1;
    let key = session_key(c, ac);
    let kind = transaction::kind_for(c.mark);
    let bytes = cryptogram::cryptogram(&key, kind, c.atc, input).unwrap();
    c.transaction = transaction::begun(c.mark, bytes);
    Reply {
        card: c,
        code: 0,
        kind: cryptogram::kind_number(kind),
        bytes,
    }
}

// A mark becomes the pending one.
fn take_mark(mut c: Card, set: bool) -> Reply
    ensures { result ≡ plain (with_transaction c (pend (new_mark set) c.transaction)) 0 }
{
    c.transaction.mark = transaction::mark_for(set);
    accepted(c)
}

// The PIN of an enciphered block becomes the pending one; or 9.
fn take_pin(mut c: Card, smc: &[u64], block: &[u8]) -> Reply
    ensures { Fits smc.now c.smc → result ≡ taken_as c (Ok SetPin) (decipher_pin (smc_key c) block.now) }
{
    let key = script_key(c.smc, smc, c.transaction.cryptogram);
    let Ok(found) = pin::decipher_pin(&key, block) else {
        return spoiled(c, Refusal::PinFormat);
    };
    let digits = found.digits;
    c.transaction.pin = digits;
    c.transaction.count = found.count;
    accepted(c)
}

// What a command orders becomes pending; the block is the message's data.
fn take(c: Card, smc: &[u64], command: Command, block: &[u8]) -> Reply
    ensures { Fits smc.now c.smc → result ≡ taken_as c (Ok command) (decipher_pin (smc_key c) block.now) }
{
    match command {
        Command::SetPin => take_pin(c, smc, block),
        Command::SetMark => take_mark(c, true),
        Command::ClearMark => take_mark(c, false),
    }
}

// The checks of a listed command. The fresh SMI key is counted before the code is looked at, and uncounted on a match.
fn obey(
    mut c: Card,
    smi: &[u64],
    smc: &[u64],
    command: Command,
    header: &[u8],
    message: &[u8],
    block: &[u8],
) -> Reply
    requires { block.now ≡ data_of message.now }
    ensures { Fits smi.now c.smi → Fits smc.now c.smc → result ≡ obeyed_as c (Ok command) (code_fits (smi_key c) header.now message.now) (decipher_pin (smc_key c) (data_of message.now)) }
{
    if c.counters.failures == 65535 {
        return spoiled(c, Refusal::CounterFull);
    }
    let key = script_key(c.smi, smi, c.transaction.cryptogram);
    c.counters.failures += 1;
    if !message::code_fits(&key, header, message) {
        return spoiled(c, Refusal::CodeDiffers);
    }
    c.counters.failures -= 1;
    take(c, smc, command, block)
}

// The checks of a script in an open transaction.
fn judge(c: Card, smi: &[u64], smc: &[u64], header: &[u8], message: &[u8]) -> Reply
    ensures { Fits smi.now c.smi → Fits smc.now c.smc → result ≡ judged_as c header.now (read c header.now message.now) }
{
    if header.len() != 4 {
        return spoiled(c, Refusal::Input);
    }
    let Ok(found) = message::shape(message) else {
        return spoiled(c, Refusal::ShapeWrong);
    };
    let end = found.place + found.length;
    match Command::listed(header, found.tag, found.length) {
        Ok(command) => {
            obey(
                c,
                smi,
                smc,
                command,
                header,
                message,
                &message[found.place..end],
            )
        }
        Err(why) => spoiled(c, why),
    }
}

// Whether a block that was read holds the kept PIN.
fn is_kept(c: Card, found: Pin) -> bool
    ensures { result ≡ is_kept c (Ok found) }
{
    found.count == c.count && octets::same(&found.digits, &c.pin)
}

// The PIN of an enciphered block against the kept one, of a record with a try left and whose counter can grow: 9, 14.
fn compare(mut c: Card, smc: &[u64], block: &[u8]) -> Reply
    requires { (0 < c.tries) × (c.counters.decipherments < 65535) }
    ensures { Fits smc.now c.smc → result ≡ compared_as c (decipher_pin (smc_key c) block.now) }
{
    let key = script_key(c.smc, smc, c.transaction.cryptogram);
    let Ok(found) = pin::decipher_pin(&key, block) else {
        c.counters.decipherments += 1;
        return refused(c, Refusal::PinFormat);
    };
    if !is_kept(c, found) {
        c.tries -= 1;
        return refused(c, Refusal::WrongPin);
    }
    c.tries = FULL_TRIES;
    accepted(c)
}

// No record: every call refuses it.
fn blank() -> Card
    ensures { result ≡ blankAs }
{
    Card {
        ac: [0; 32],
        smi: [0; 32],
        smc: [0; 32],
        pin: [0; 12],
        count: 0,
        mark: false,
        tries: 0,
        atc: 0,
        counters: Counters {
            session: 0,
            failures: 0,
            decipherments: 0,
            authentications: 0,
        },
        transaction: transaction::no_transaction(),
    }
}

impl Card {
    // A fresh record of keys, transaction counter, counter block, block mark (0 or 1), PIN block in clear and tries left (at most 3); or 1, 9 and
    // a blank record.
    pub fn personalise(
        ac: [u8; 32],
        smi: [u8; 32],
        smc: [u8; 32],
        atc: u16,
        counters: [u8; 8],
        mark: u8,
        block: [u8; 8],
        tries: u8,
    ) -> Reply
        ensures { result ≡ personalised ac smi smc atc counters mark block tries }
    {
        if mark > 1 || tries > FULL_TRIES {
            return refused(blank(), Refusal::Input);
        }
        let Ok(found) = pin::read_block(block) else {
            return refused(blank(), Refusal::PinFormat);
        };
        let digits = found.digits;
        let card = Card {
            ac,
            smi,
            smc,
            pin: digits,
            count: found.count,
            mark: mark == 1,
            tries,
            atc,
            counters: pin::read_counters(counters),
            transaction: transaction::no_transaction(),
        };
        accepted(card)
    }

    // Open, of the terminal's 65 bytes: 6, 1, 7.
    pub fn open(self, input: &[u8]) -> Reply
        ensures { result ≡ step self (Open input.now) }
    {
        self.open_kept(&[], input)
    }

    // The same for whoever keeps the master key: its words are lent, or none.
    pub fn open_kept(self, ac: &[u64], input: &[u8]) -> Reply
        ensures { Fits ac.now self.ac → result ≡ step self (Open input.now) }
    {
        if !is_sound(self) {
            return refused(self, Refusal::Input);
        }
        if transaction::is_open(self.transaction.phase) {
            return refused(self, Refusal::PhaseWrong);
        }
        if input.len() != 65 {
            return refused(self, Refusal::Input);
        }
        if self.atc == 65535 || self.counters.session == 65535 {
            return refused(self, Refusal::CounterFull);
        }
        opening(self, ac, input)
    }

    // The issuer's answer, ARPC and CSU: 6, 1, 11.
    pub fn issuer_answer(self, arpc: &[u8], csu: &[u8]) -> Reply
        ensures { result ≡ step self (IssuerAnswer arpc.now csu.now) }
    {
        self.issuer_answer_kept(&[], arpc, csu)
    }

    pub fn issuer_answer_kept(mut self, ac: &[u64], arpc: &[u8], csu: &[u8]) -> Reply
        ensures { Fits ac.now self.ac → result ≡ step self (IssuerAnswer arpc.now csu.now) }
    {
        if !is_sound(self) {
            return refused(self, Refusal::Input);
        }
        if !transaction::is_arqc(self.transaction.phase) {
            return refused(self, Refusal::PhaseWrong);
        }
        if arpc.len() != 8 || csu.len() != 4 {
            return refused(self, Refusal::Input);
        }
        let own = arpc_for(self, session_key(self, ac), csu);
        if !octets::same(arpc, &own) {
            return refused(self, Refusal::ArpcDiffers);
        }
        self.counters.session = 0;
        accepted(self)
    }

    // A script command, header and message: 6, 1, 4, 5, 7, 8, 9.
    pub fn script(self, header: &[u8], message: &[u8]) -> Reply
        ensures { result ≡ step self (Script header.now message.now) }
    {
        self.script_kept(&[], &[], header, message)
    }

    pub fn script_kept(self, smi: &[u64], smc: &[u64], header: &[u8], message: &[u8]) -> Reply
        ensures { Fits smi.now self.smi → Fits smc.now self.smc → result ≡ step self (Script header.now message.now) }
    {
        if !is_sound(self) {
            return refused(self, Refusal::Input);
        }
        if !transaction::is_open(self.transaction.phase) {
            return refused(self, Refusal::PhaseWrong);
        }
        judge(self, smi, smc, header, message)
    }

    // Close: 6, 1, 10. What is pending becomes what is kept, or is dropped.
    pub fn close(self) -> Reply
        ensures { result ≡ step self Close }
    {
        if !is_sound(self) {
            return refused(self, Refusal::Input);
        }
        if !transaction::is_open(self.transaction.phase) {
            return refused(self, Refusal::PhaseWrong);
        }
        if self.transaction.spoilt {
            return refused(dropped(self), Refusal::SpoiltClosed);
        }
        accepted(dropped(lay(self, self.transaction)))
    }

    // A PIN check, of a block under the transaction's key: 6, 1, 15, 7, 9, 14. The kept PIN is compared, not the pending one.
    pub fn check_pin(self, block: &[u8]) -> Reply
        ensures { result ≡ step self (CheckPin block.now) }
    {
        self.check_pin_kept(&[], block)
    }

    pub fn check_pin_kept(self, smc: &[u64], block: &[u8]) -> Reply
        ensures { Fits smc.now self.smc → result ≡ step self (CheckPin block.now) }
    {
        if !is_sound(self) {
            return refused(self, Refusal::Input);
        }
        if !transaction::is_open(self.transaction.phase) {
            return refused(self, Refusal::PhaseWrong);
        }
        if block.len() != 8 {
            return refused(self, Refusal::Input);
        }
        if self.tries == 0 {
            return refused(self, Refusal::NoTries);
        }
        if self.counters.decipherments == 65535 {
            return refused(self, Refusal::CounterFull);
        }
        compare(self, smc, block)
    }

    // Withdraw, which drops what is pending.
    pub fn withdraw(self) -> Reply
        ensures { result ≡ step self Withdraw }
    {
        if !is_sound(self) {
            return refused(self, Refusal::Input);
        }
        accepted(dropped(self))
    }

    // Counters: 6, 1. The enciphered counter block.
    pub fn counter_block(self) -> Reply
        ensures { result ≡ step self CountersCall }
    {
        self.counter_block_kept(&[])
    }

    pub fn counter_block_kept(self, ac: &[u64]) -> Reply
        ensures { Fits ac.now self.ac → result ≡ step self CountersCall }
    {
        if !is_sound(self) {
            return refused(self, Refusal::Input);
        }
        if !transaction::is_open(self.transaction.phase) {
            return refused(self, Refusal::PhaseWrong);
        }
        let bytes = counters_for(self, ac);
        Reply {
            card: self,
            code: 0,
            kind: 0,
            bytes,
        }
    }
}
