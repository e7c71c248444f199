// The desk's library for C (include/box.h): each function returns 01's number, 0 accepted, and gives its bytes to a slice that the
// caller lends. A lent slice of another length than the answer's is 1, and a refusal leaves it as it was.
#![tactic(auto)]

ghost use Rattle.std.specs.Prelude.{◌≡◌, length, Ok};
ghost use Rattle.cipher.specs.Answers.{enciphered, deciphered, coded};
ghost use Rattle.derive.specs.Answers.{card_derivation};
ghost use Rattle.keys.specs.Answers.{card_key, card_key_packed, session_key, script_key, counter_key, idn_answer};
ghost use Rattle.cards.specs.Cards.{cards_number, cards_after};
ghost use Rattle.pin.specs.Answers.{write_pin, read_pin};
ghost use Rattle.cryptogram.specs.Answers.{kind_of, arpc_answer};
ghost use Rattle.exports.specs.Lent.{Given, GivenIdn, GivenRead, GivenOpened, GivenObjects, GivenFault, GivenTemplates, by_number, pin_bytes};
ghost use Rattle.message.specs.Answers.{opened, wrapped, Wrote};
ghost use Rattle.templates.specs.Reading.{reading};
ghost use Rattle.hash.specs.States.{hash_way, begun, ended};
ghost use Rattle.derive.specs.Macing.{mac_way, mac_begun, mac_ended};
ghost use Rattle.cipher.specs.Coding.{code_way, code_begun, code_ended};
ghost use Rattle.parts.specs.Forms.{hash_in, hash_form, mac_in, mac_form, code_in, code_form};
ghost use Rattle.parts.specs.Lent.{begun_number, begun_after, fed_number, fed_after, ended_number, ended_after};
ghost use Rattle.stored.specs.Lent.{AddedIn, ForgottenIn, CheckedIn, wraps_in};

use answers::{Refusal, number_told};
use pin::Pin;

// An answer's bytes to the slice lent for them, or its refusal's number.
fn give<const N: usize>(answer: Result<[u8; N], Refusal>, out: &mut [u8]) -> u8
    ensures { Given N answer.entry out.old result out.new }
{
    if out.len() != N {
        return Refusal::Input.number();
    }
    match answer {
        Ok(bytes) => {
            out.copy_from_slice(&bytes);
            0
        }
        Err(why) => why.number(),
    }
}

// A block of 8 bytes enciphered under a key of 32. 1: a length.
#[unsafe(no_mangle)]
pub extern "C" fn box_encipher(key: &[u8], block: &[u8], out: &mut [u8]) -> u8
    ensures { Given 8 (enciphered key.now block.now) out.old result out.new }
{
    give(cipher::encipher(key, block), out)
}

// A block of 8 bytes deciphered under a key of 32. 1: a length.
#[unsafe(no_mangle)]
pub extern "C" fn box_decipher(key: &[u8], block: &[u8], out: &mut [u8]) -> u8
    ensures { Given 8 (deciphered key.now block.now) out.old result out.new }
{
    give(cipher::decipher(key, block), out)
}

// The 4-byte code of one or more whole blocks of 8 bytes under a key of 32. 1: a length.
#[unsafe(no_mangle)]
pub extern "C" fn box_code(key: &[u8], string: &[u8], out: &mut [u8]) -> u8
    ensures { Given 4 (coded key.now string.now) out.old result out.new }
{
    give(cipher::code(key, string), out)
}

// The key derived from a key of 32 bytes and a seed of 8. 1: a length.
#[unsafe(no_mangle)]
pub extern "C" fn box_derive(key: &[u8], seed: &[u8], out: &mut [u8]) -> u8
    ensures { Given 32 (card_derivation key.now seed.now) out.old result out.new }
{
    give(derive::derive(key, seed), out)
}

// The card master key of an issuer's key, a card number (one digit a byte) and a sequence number (0: none). 1: a length; 2: the card.
#[unsafe(no_mangle)]
pub extern "C" fn box_card_key(issuer: &[u8], pan: &[u8], sequence: u8, out: &mut [u8]) -> u8
    ensures { Given 32 (card_key issuer.now pan.now sequence) out.old result out.new }
{
    give(keys::card_key(issuer, pan, sequence), out)
}

// The same with the card digits as packed decimal.
#[unsafe(no_mangle)]
pub extern "C" fn box_card_key_packed(issuer: &[u8], pan: &[u8], sequence: u8, out: &mut [u8]) -> u8
    ensures { Given 32 (card_key_packed issuer.now pan.now sequence) out.old result out.new }
{
    give(keys::card_key_packed(issuer, pan, sequence), out)
}

// The card master keys of many cards under one issuer's key, which is set up once. A card is 21 bytes: the number of digits, nineteen
// places for them, and the sequence number (0: none); its key goes to 32 bytes of the slice lent. 1: a length; 2: a card.
#[unsafe(no_mangle)]
pub extern "C" fn box_card_keys(issuer: &[u8], day: &[u8], out: &mut [u8]) -> u8
    ensures { (result ≡ cards_number issuer.now day.now out.old)
        × (out.new ≡ cards_after issuer.now day.now out.old) }
{
    number_told(&cards::card_keys(issuer, day, out))
}

// The session key for cryptograms, from the master key and the transaction counter. 1: a length.
#[unsafe(no_mangle)]
pub extern "C" fn box_session_key(master: &[u8], counter: u16, out: &mut [u8]) -> u8
    ensures { Given 32 (session_key master.now counter) out.old result out.new }
{
    give(keys::session_key(master, counter), out)
}

// The session key for scripts, from the master key SMI or SMC and the cryptogram of 8 bytes. 1: a length.
#[unsafe(no_mangle)]
pub extern "C" fn box_script_key(master: &[u8], cryptogram: &[u8], out: &mut [u8]) -> u8
    ensures { Given 32 (script_key master.now cryptogram.now) out.old result out.new }
{
    give(keys::script_key(master, cryptogram), out)
}

// The key for counter blocks, from the session key for cryptograms. 1: a length.
#[unsafe(no_mangle)]
pub extern "C" fn box_counter_key(session: &[u8], out: &mut [u8]) -> u8
    ensures { Given 32 (counter_key session.now) out.old result out.new }
{
    give(keys::counter_key(session), out)
}

// The IDN of as many bytes as the slice lent for it has, 2 to 8, under an IDN key. 1: a length.
#[unsafe(no_mangle)]
pub extern "C" fn box_idn(key: &[u8], counter: u16, out: &mut [u8]) -> u8
    ensures { GivenIdn (idn_answer key.now counter (length out.old)) out.old result out.new }
{
    let n = out.len();
    if n > 8 {
        return Refusal::Input.number();
    }
    match keys::idn(key, counter, n as u8) {
        Ok(bytes) => {
            out.copy_from_slice(&bytes[..n]);
            0
        }
        Err(why) => why.number(),
    }
}

// A PIN block in clear of 4 to 12 digits, one a byte. 1: the slice; 12: the PIN.
#[unsafe(no_mangle)]
pub extern "C" fn box_write_pin(pin: &[u8], out: &mut [u8]) -> u8
    ensures { Given 8 (write_pin pin.now) out.old result out.new }
{
    give(pin::write_pin(pin), out)
}

// What a PIN block holds, as bytes: the number of digits, then twelve places.
fn pin_bytes(pin: Pin) -> [u8; 13]
    ensures { result ≡ pin_bytes pin }
{
    let mut out = [0; 13];
    out[0] = pin.count;
    out[1..].copy_from_slice(&pin.digits);
    out
}

// A PIN block in clear, of 8 bytes, taken apart: the number of digits, then twelve places. 1: a length; 9: the format.
#[unsafe(no_mangle)]
pub extern "C" fn box_read_pin(block: &[u8], out: &mut [u8]) -> u8
    ensures { GivenRead (read_pin block.now) out.old result out.new }
{
    match pin::read_pin(block) {
        Ok(pin) => give(Ok(pin_bytes(pin)), out),
        Err(why) => give::<13>(Err(why), out),
    }
}

// The cryptogram of 65 data bytes, its kind by number (80 ARQC, 40 TC, 00 AAC). 1: a length or the kind.
#[unsafe(no_mangle)]
pub extern "C" fn box_cryptogram(key: &[u8], kind: u8, counter: u16, d: &[u8], out: &mut [u8]) -> u8
    ensures { Given 8 (by_number key.now (kind_of kind) counter d.now) out.old result out.new }
{
    let Some(k) = cryptogram::kind_of(kind) else {
        return Refusal::Input.number();
    };
    give(cryptogram::cryptogram(key, k, counter, d), out)
}

// The issuer's answer to a cryptogram of 8 bytes with a CSU of 4. 1: a length.
#[unsafe(no_mangle)]
pub extern "C" fn box_arpc(key: &[u8], cryptogram: &[u8], csu: &[u8], out: &mut [u8]) -> u8
    ensures { Given 8 (arpc_answer key.now cryptogram.now csu.now) out.old result out.new }
{
    give(cryptogram::arpc(key, cryptogram, csu), out)
}

// A script message written into the buffer from a place on. 1: a length or the tag; 3: it does not fit there.
#[unsafe(no_mangle)]
pub extern "C" fn box_wrap(
    key: &[u8],
    header: &[u8],
    tag: u8,
    d: &[u8],
    buffer: &mut [u8],
    place: usize,
) -> u8
    ensures { Wrote (wrapped key.now header.now tag d.now buffer.old place) result buffer.new }
{
    number_told(&message::wrap(key, header, tag, d, buffer, place))
}

// A script message opened: its tag, and the place and length of its data. 1: a length; 4: the shape; 8: the code.
#[unsafe(no_mangle)]
pub extern "C" fn box_open(key: &[u8], header: &[u8], message: &[u8], found: &mut [u8]) -> u8
    ensures { GivenOpened (opened key.now header.now message.now) found.old result found.new }
{
    match message::open_message(key, header, message) {
        Ok(f) => give(Ok([f.tag, f.place as u8, f.length as u8]), found),
        Err(why) => give::<3>(Err(why), found),
    }
}

// The objects of script templates, ten bytes each and zeros after the last. 1: a length; 16, 17, 18: the first object at fault.
#[unsafe(no_mangle)]
pub extern "C" fn box_read_templates(input: &[u8], objects: &mut [u8]) -> u8
    ensures { GivenObjects (reading input.now) objects.old result objects.new }
{
    let r = templates::read_templates(input);
    match r.fault {
        None => give(Ok(templates::lay_objects(r.objects)), objects),
        Some(fault) => give::<320>(Err(fault.why), objects),
    }
}

// Where the first object at fault begins. 1: a length, or nothing is at fault.
#[unsafe(no_mangle)]
pub extern "C" fn box_templates_fault(input: &[u8], place: &mut [u8]) -> u8
    ensures { GivenFault (reading input.now) place.old result place.new }
{
    match templates::read_templates(input).fault {
        Some(fault) => give(Ok(templates::lay_place(fault.at)), place),
        None => give::<4>(Err(Refusal::Input), place),
    }
}

// Script templates written into the buffer from a place on, of objects of ten bytes each whose data lie in a source, and the number of bytes written.
// 1: a length, or data outside the source or above 255 bytes; 16, 17, 18: the first object at fault; 3: they do not fit there.
#[unsafe(no_mangle)]
pub extern "C" fn box_write_templates(
    objects: &[u8],
    source: &[u8],
    buffer: &mut [u8],
    place: usize,
    size: &mut [u8],
) -> u8
    ensures { GivenTemplates objects.now source.now buffer.old place size.old result buffer.new size.new }
{
    if size.len() != 4 {
        return Refusal::Input.number();
    }
    match scripts::write_templates(objects, source, buffer, place) {
        Ok(n) => give(Ok(templates::lay_place(n)), size),
        Err(why) => why.number(),
    }
}

// A hash of no bytes so far, in a lent state of 261 bytes. 1: its length.
#[unsafe(no_mangle)]
pub extern "C" fn box_hash_begin(state: &mut [u8]) -> u8
    ensures { (result ≡ begun_number hash_form (Ok begun) state.old) × (state.new ≡ begun_after hash_form (Ok begun) state.old) }
{
    number_told(&parts::hash_begin(state))
}

// One part more. 1: the length of the state, or the total.
#[unsafe(no_mangle)]
pub extern "C" fn box_hash_feed(state: &mut [u8], part: &[u8]) -> u8
    ensures { (result ≡ fed_number hash_form hash_way state.old part.now)
        × (state.new ≡ fed_after hash_form hash_way state.old part.now) }
{
    number_told(&parts::hash_feed(state, part))
}

// The hash of all the bytes fed. 1: a length.
#[unsafe(no_mangle)]
pub extern "C" fn box_hash_end(state: &[u8], out: &mut [u8]) -> u8
    ensures { (result ≡ ended_number hash_form 32 state.now out.old (Ok (ended (hash_in state.now))))
        × (out.new ≡ ended_after hash_form 32 state.now out.old (Ok (ended (hash_in state.now)))) }
{
    number_told(&parts::hash_end(state, out))
}

// HMAC of no bytes so far under a key of 32, in a lent state of 522 bytes. 1: a length.
#[unsafe(no_mangle)]
pub extern "C" fn box_hmac_begin(key: &[u8], state: &mut [u8]) -> u8
    ensures { (result ≡ begun_number mac_form (mac_begun key.now) state.old)
        × (state.new ≡ begun_after mac_form (mac_begun key.now) state.old) }
{
    number_told(&parts::hmac_begin(key, state))
}

// One part more. 1: the length of the state, or the total.
#[unsafe(no_mangle)]
pub extern "C" fn box_hmac_feed(state: &mut [u8], part: &[u8]) -> u8
    ensures { (result ≡ fed_number mac_form mac_way state.old part.now)
        × (state.new ≡ fed_after mac_form mac_way state.old part.now) }
{
    number_told(&parts::hmac_feed(state, part))
}

// HMAC of all the bytes fed. 1: a length.
#[unsafe(no_mangle)]
pub extern "C" fn box_hmac_end(state: &[u8], out: &mut [u8]) -> u8
    ensures { (result ≡ ended_number mac_form 32 state.now out.old (Ok (mac_ended (mac_in state.now))))
        × (out.new ≡ ended_after mac_form 32 state.now out.old (Ok (mac_ended (mac_in state.now)))) }
{
    number_told(&parts::hmac_end(state, out))
}

// The code of no bytes so far under a key of 32, in a lent state of 53 bytes. 1: a length.
#[unsafe(no_mangle)]
pub extern "C" fn box_code_begin(key: &[u8], state: &mut [u8]) -> u8
    ensures { (result ≡ begun_number code_form (code_begun key.now) state.old)
        × (state.new ≡ begun_after code_form (code_begun key.now) state.old) }
{
    number_told(&parts::code_begin(key, state))
}

// One part more. 1: the length of the state, or the total.
#[unsafe(no_mangle)]
pub extern "C" fn box_code_feed(state: &mut [u8], part: &[u8]) -> u8
    ensures { (result ≡ fed_number code_form code_way state.old part.now)
        × (state.new ≡ fed_after code_form code_way state.old part.now) }
{
    number_told(&parts::code_feed(state, part))
}

// The code of all the bytes fed. 1: a length, no whole block, or bytes after the last one.
#[unsafe(no_mangle)]
pub extern "C" fn box_code_end(state: &[u8], out: &mut [u8]) -> u8
    ensures { (result ≡ ended_number code_form 4 state.now out.old (code_ended (code_in state.now)))
        × (out.new
        ≡ ended_after code_form 4 state.now out.old (code_ended (code_in state.now))) }
{
    number_told(&parts::code_end(state, out))
}

// Holds a card from now on, in a lent table of 1600 bytes. 1: the table's length; 2: the card; 20: it is held; 21: 64 cards are.
#[unsafe(no_mangle)]
pub extern "C" fn box_desk_add(table: &mut [u8], pan: &[u8], sequence: u8) -> u8
    ensures { AddedIn table.old pan.now sequence result table.new }
{
    number_told(&stored::add(table, pan, sequence))
}

// Holds a card no longer. 1: the table's length; 2: the card; 19: it is not held.
#[unsafe(no_mangle)]
pub extern "C" fn box_desk_forget(table: &mut [u8], pan: &[u8], sequence: u8) -> u8
    ensures { ForgottenIn table.old pan.now sequence result table.new }
{
    number_told(&stored::forget(table, pan, sequence))
}

// Checks an ARQC, keeps the counter in its data, and gives the ARPC for a CSU. 1: a length, or digits above 1; 2: the card; 19: it is not held; 22: the ARQC
// differs; 23: the counter is not above the last.
#[unsafe(no_mangle)]
pub extern "C" fn box_desk_check(
    table: &mut [u8],
    issuer: &[u8],
    digits: u8,
    pan: &[u8],
    sequence: u8,
    data: &[u8],
    arqc: &[u8],
    csu: &[u8],
    arpc: &mut [u8],
) -> u8
    ensures { CheckedIn table.old issuer.now digits pan.now sequence «data».now arqc.now csu.now arpc.old
        result table.new arpc.new }
{
    number_told(&stored::check(table, issuer, digits, pan, sequence, data, arqc, csu, arpc))
}

// Header and message of a command for a held card, at a place of the buffer. 1: a length, the instruction, or digits above 1; 2: the card; 19: it is not
// held; 12: the PIN; 3: no room from the place on.
#[unsafe(no_mangle)]
pub extern "C" fn box_desk_wrap(
    table: &[u8],
    smi: &[u8],
    smc: &[u8],
    digits: u8,
    pan: &[u8],
    sequence: u8,
    instruction: u8,
    cryptogram: &[u8],
    pin: &[u8],
    buffer: &mut [u8],
    place: usize,
) -> u8
    ensures { Wrote
        (wraps_in table.now smi.now smc.now digits pan.now sequence instruction cryptogram.now pin.now
        buffer.old place)
        result buffer.new }
{
    number_told(&stored::wrap(
        table,
        smi,
        smc,
        digits,
        pan,
        sequence,
        instruction,
        cryptogram,
        pin,
        buffer,
        place,
    ))
}

// What `parts` hands to any crate above it, called from one.
#[cfg(test)]
mod tests {
    use answers::Refusal;
    use hash::State;
    use parts::{HASH_STATE, UnderWay, begin, end, feed};

    // The message M1 of RFC 6986, and its hash.
    const MESSAGE: &[u8; 63] = b"012345678901234567890123456789012345678901234567890123456789012";

    const HASH: [u8; 32] = [
        0x9d, 0x15, 0x1e, 0xef, 0xd8, 0x59, 0x0b, 0x89, 0xda, 0xa6, 0xba, 0x6c, 0xb7, 0x4a, 0xf9,
        0x27, 0x5d, 0xd0, 0x51, 0x02, 0x6b, 0xb1, 0x49, 0xa4, 0x52, 0xfd, 0x84, 0xe5, 0xe5, 0x7b,
        0x55, 0x00,
    ];

    #[test]
    fn hash_in_two_parts() -> Result<(), Refusal> {
        if <State as UnderWay<32>>::size() != HASH_STATE {
            return Err(Refusal::Input);
        }
        let (first, rest) = MESSAGE.split_at(40);
        let mut state = [0xff; HASH_STATE];
        let mut out = [0xff; 32];
        begin::<32, State>(Ok(hash::begin()), &mut state)?;
        feed::<32, State>(&mut state, first)?;
        feed::<32, State>(&mut state, rest)?;
        end::<32, State>(&state, &mut out)?;
        if out == HASH {
            Ok(())
        } else {
            Err(Refusal::CodeDiffers)
        }
    }
}
