// A transaction of the soft card: whether one is open, what is pending in it, and whether its fields are sound.
#![tactic(auto)]

ghost use Rattle.std.specs.Prelude.{◌≡◌};
ghost use Rattle.transaction.specs.Transaction.{is_open, none, pending_fits, rest_fits, kind_for, phase_for, just_opened as begunAs, is_arqc, mark_for, mark_after};

use cryptogram::Kind;

// Whether a transaction is open, and of what kind.
#[derive(Clone, Copy, Debug, PartialEq, Eq)]
pub enum Phase {
    Idle,
    Arqc,
    Aac,
}

// What is pending for the block mark.
#[derive(Clone, Copy, Debug, PartialEq, Eq)]
pub enum PendingMark {
    Nothing,
    Set,
    Clear,
}

// A transaction: all zero where none is open.
#[derive(Clone, Copy)]
pub struct Transaction {
    pub phase: Phase,
    pub cryptogram: [u8; 8],
    // the pending PIN and its count, zero where none is pending
    pub pin: [u8; 12],
    pub count: u8,
    pub mark: PendingMark,
    pub spoilt: bool,
}

// Whether a transaction is open.
pub fn is_open(phase: Phase) -> bool
    ensures { result ≡ is_open phase }
{
    phase != Phase::Idle
}

// A transaction that is not open.
pub fn no_transaction() -> Transaction
    ensures { result ≡ none }
{
    Transaction {
        phase: Phase::Idle,
        cryptogram: [0; 8],
        pin: [0; 12],
        count: 0,
        mark: PendingMark::Nothing,
        spoilt: false,
    }
}

// Whether a pending PIN is a PIN of n digits, or all zero where there are none.
#[tactic(auto, unfolding(crate::specs::Transaction::pending_fits))]
pub fn pending_fits(p: [u8; 12], n: u8) -> bool
    ensures { result ≡ pending_fits n p }
{
    if n == 0 {
        octets::same(&p, &[0; 12])
    } else {
        pin::pin_fits(&p, n as usize, 0)
    }
}

// Whether the fields of a transaction are all zero where none is open; its pending PIN is looked at elsewhere.
#[tactic(auto, unfolding(crate::specs::Transaction::rest_fits))]
pub fn rest_fits(t: Transaction) -> bool
    ensures { result ≡ rest_fits t }
{
    is_open(t.phase)
        || octets::same(&t.cryptogram, &[0; 8])
            && t.count == 0
            && t.mark == PendingMark::Nothing
            && !t.spoilt
}

// The kind of the cryptogram that a card answers with, by its block mark.
pub fn kind_for(mark: bool) -> Kind
    ensures { result ≡ kind_for mark }
{
    if mark { Kind::Aac } else { Kind::Arqc }
}

// The phase of the transaction that it opens.
fn phase_for(mark: bool) -> Phase
    ensures { result ≡ phase_for mark }
{
    if mark { Phase::Aac } else { Phase::Arqc }
}

// A transaction just opened.
pub fn begun(mark: bool, cryptogram: [u8; 8]) -> Transaction
    ensures { result ≡ begunAs mark cryptogram }
{
    Transaction {
        phase: phase_for(mark),
        cryptogram,
        pin: [0; 12],
        count: 0,
        mark: PendingMark::Nothing,
        spoilt: false,
    }
}

// Whether an ARQC transaction is open.
pub fn is_arqc(phase: Phase) -> bool
    ensures { result ≡ is_arqc phase }
{
    phase == Phase::Arqc
}

// The pending mark that a command orders.
pub fn mark_for(set: bool) -> PendingMark
    ensures { result ≡ mark_for set }
{
    if set {
        PendingMark::Set
    } else {
        PendingMark::Clear
    }
}

// The mark after what is pending for it.
pub fn mark_after(mark: PendingMark, b: bool) -> bool
    ensures { result ≡ mark_after mark b }
{
    match mark {
        PendingMark::Nothing => b,
        PendingMark::Set => true,
        PendingMark::Clear => false,
    }
}
