// The table of an issuer's desk (Wish 7): 64 places for cards, each with its last transaction counter. No cryptography.
#![tactic(auto)]

ghost use Rattle.std.specs.Prelude.{◌≡◌};
ghost use Rattle.table.specs.Table.{names, held as heldIn};
ghost use Rattle.table.specs.Calls.{fresh as freshFor, cleared_entry, kept_entry, adding, forgetting, reading, keeping};

use answers::Refusal;

// A card by number and sequence: its digits and zeros after them, how many digits there are, and the sequence number (0 where there is none).
#[derive(Clone, Copy, PartialEq, Eq)]
pub struct CardId {
    pub digits: [u8; 19],
    pub count: u8,
    pub sequence: u8,
}

// A place: whether it holds a card, which, whether a counter was accepted, and the last one.
#[derive(Clone, Copy)]
pub struct Entry {
    pub held: bool,
    pub id: CardId,
    pub known: bool,
    pub last: u16,
}

// Whether a card has a last counter, and which.
#[derive(Clone, Copy)]
pub struct Last {
    pub known: bool,
    pub last: u16,
}

// Whether a place holds a card.
fn is_for(e: Entry, c: CardId) -> bool
    ensures { result ≡ names c e }
{
    e.held && c == e.id
}

// Whether a card is held.
pub fn is_held(places: [Entry; 64], c: CardId) -> bool
    ensures { result ≡ heldIn c places }
{
    places.iter().any(|e| is_for(*e, c))
}

// An empty place.
const EMPTY: Entry = Entry {
    held: false,
    id: CardId {
        digits: [0; 19],
        count: 0,
        sequence: 0,
    },
    known: false,
    last: 0,
};

// A card's place when it is added: no last counter.
fn fresh(c: CardId) -> Entry
    ensures { result ≡ freshFor c }
{
    Entry {
        held: true,
        id: c,
        known: false,
        last: 0,
    }
}

// A place after a card is forgotten: empty if it held the card.
fn without(e: Entry, c: CardId) -> Entry
    ensures { result ≡ cleared_entry c e }
{
    if is_for(e, c) { EMPTY } else { e }
}

// A place after a counter is kept for a card.
fn with(mut e: Entry, c: CardId, counter: u16) -> Entry
    ensures { result ≡ kept_entry c counter e }
{
    if is_for(e, c) {
        e.known = true;
        e.last = counter;
    }
    e
}

// Adds a card: 20 if it is held, 21 if there is no room.
pub fn add(mut places: [Entry; 64], c: CardId) -> Result<[Entry; 64], Refusal>
    ensures { result ≡ adding c places }
{
    if is_held(places, c) {
        return Err(Refusal::AlreadyHeld);
    }
    let i = places
        .iter()
        .position(|e| !e.held)
        .ok_or(Refusal::TableFull)?;
    places[i] = fresh(c);
    Ok(places)
}

// Forgets a card, at every place that holds it: 19 if none does.
pub fn forget(mut places: [Entry; 64], c: CardId) -> Result<[Entry; 64], Refusal>
    ensures { result ≡ forgetting c places }
{
    if !is_held(places, c) {
        return Err(Refusal::UnknownCard);
    }
    for e in places.iter_mut() {
        *e = without(*e, c);
    }
    Ok(places)
}

// The last counter of a card, at the first place that holds it: 19 if none does.
pub fn last_of(places: [Entry; 64], c: CardId) -> Result<Last, Refusal>
    ensures { result ≡ reading c places }
{
    match places.iter().find(|e| is_for(**e, c)) {
        Some(e) => Ok(Last {
            known: e.known,
            last: e.last,
        }),
        None => Err(Refusal::UnknownCard),
    }
}

// Keeps a counter for a card, at every place that holds it: 19 if none does.
pub fn keep(mut places: [Entry; 64], c: CardId, counter: u16) -> Result<[Entry; 64], Refusal>
    ensures { result ≡ keeping c counter places }
{
    if !is_held(places, c) {
        return Err(Refusal::UnknownCard);
    }
    for e in places.iter_mut() {
        *e = with(*e, c, counter);
    }
    Ok(places)
}
