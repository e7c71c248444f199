// A day's cards: the master keys of many cards under one issuer's key, which is kept for all of them (R 1323565.1.010, clause 4.1).
#![tactic(auto)]

ghost use Rattle.std.specs.Prelude.{◌≡◌, ◌+◌, ◌*◌, ◌≤◌, length, take, drop};
ghost use Rattle.answers.specs.Answers.{number_told};
ghost use Rattle.cards.specs.Cards.{all_fit, cards_number, cards_after};
ghost use Rattle.cards.specs.Inner.{seed_of, keys_by};

use answers::Refusal;

// The seed of the card at a place.
fn seed_at(cards: &[u8], p: usize) -> Result<[u8; 8], Refusal>
    requires { p + 21 ≤ length cards.now }
    ensures { result ≡ seed_of (take 21 (drop p cards.now)) }
{
    let n = cards[p] as usize;
    if n > 19 {
        return Err(Refusal::CardNumber);
    }
    keys::card_seed(&cards[p + 1..p + 1 + n], cards[p + 20])
}

// Whether the first n cards have the form that 01 asks for.
fn all_fit(cards: &[u8], n: usize) -> bool
    requires { 21 * n ≤ length cards.now }
    ensures { result ≡ all_fit n cards.now }
{
    for i in 0..n {
        if seed_at(cards, 21 * i).is_err() {
            return false;
        }
    }
    true
}

// The keys of the first n cards under the words of a kept key; for a card that has not the form, of a seed of zeros. The constants are made once for them.
fn put_keys(kept: &[u64], cards: &[u8], n: usize, out: &mut [u8])
    requires { (length kept.now ≡ 256) × (21 * n ≤ length cards.now) × (length out.old ≡ 32 * n) }
    ensures { out.new ≡ keys_by kept.now n cards.now }
{
    let cs = rounds::iteration_constants();
    for i in 0..n {
        let seed = seed_at(cards, 21 * i).unwrap_or([0; 8]);
        let key = derive::derive_kept_over(&cs, kept, derive::card_label(), seed).unwrap();
        out[32 * i..32 * i + 32].copy_from_slice(&key);
    }
}

// The card master keys of an issuer's key and of many cards, each of 21 bytes: the number of digits, nineteen places for them, and the
// sequence number (0: none). Each key goes to 32 bytes of the slice lent. 1: a length; 2: a card; then nothing is written.
pub fn card_keys(issuer: &[u8], cards: &[u8], out: &mut [u8]) -> Result<(), Refusal>
    ensures { (number_told result ≡ cards_number issuer.now cards.now out.old)
        × (out.new ≡ cards_after issuer.now cards.now out.old) }
{
    let n = cards.len() / 21;
    if issuer.len() != 32 || cards.len() % 21 != 0 || out.len() % 32 != 0 || out.len() / 32 != n {
        return Err(Refusal::Input);
    }
    if !all_fit(cards, n) {
        return Err(Refusal::CardNumber);
    }
    put_keys(&derive::keep(derive::key_of(issuer)), cards, n, out);
    Ok(())
}
