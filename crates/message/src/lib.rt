// Script messages (R 1323565.1.008): their code, opening and wrapping.
#![tactic(auto)]

ghost use Rattle.std.specs.Prelude.{◌≡◌, true, ◌∷◌, ◌++◌, ◌+◌, ◌≤◌, length, take, replicate};
ghost use Rattle.shapes.specs.Length.{largest, length_field};
ghost use Rattle.shapes.specs.Shape.{code_head, place_of, body_size};
ghost use Rattle.shapes.specs.Answers.{Tells};
ghost use Rattle.message.specs.Code.{X, Y, code_for, given as areGiven, code_fits};
ghost use Rattle.octets.specs.Laid.{laid};
ghost use Rattle.answers.specs.Answers.{number_told};
ghost use Rattle.message.specs.Answers.{open_number, opened, wrap_number, wrapped, Wrote};

use answers::Refusal;
pub use shapes::{Command, Found, shape};

// Whether key and header have their lengths.
#[tactic(auto, unfolding(crate::specs::Code::given, octets::specs::Lengths::key_fits))]
fn given(key: &[u8], header: &[u8]) -> bool
    ensures { result ≡ areGiven key.now header.now }
{
    key.len() == 32 && header.len() == 4
}

// X of clause 4.1.1, and room for Y.
fn first_block(header: &[u8]) -> [u8; 272]
    requires { length header.now ≡ 4 }
    ensures { result ≡ X header.now ++ replicate 264 0 }
{
    let mut s = [0; 272];
    s[..4].copy_from_slice(header);
    s[4] = 0x80;
    s
}

// The string under the code of a message whose part before the code is given.
fn string(header: &[u8], body: &[u8]) -> [u8; 272]
    requires { (length header.now ≡ 4) × (length body.now + 1 ≤ 264) }
    ensures { result ≡ X header.now ++ Y body.now }
{
    let mut s = first_block(header);
    let n = body.len();
    s[8..8 + n].copy_from_slice(body);
    s[8 + n] = 0x80;
    s
}

// The code of a message whose part before the code is given.
fn code_for(key: &[u8], header: &[u8], body: &[u8]) -> [u8; 4]
    requires { (areGiven key.now header.now ≡ true) × (length body.now + 1 ≤ 264) }
    ensures { result ≡ code_for key.now header.now body.now }
{
    let s = string(header, body);
    cipher::code(key, &s).unwrap()
}

// Whether key and header have their lengths, the message its shape and its code.
pub fn code_fits(key: &[u8], header: &[u8], message: &[u8]) -> bool
    ensures { result ≡ code_fits key.now header.now message.now }
{
    if !given(key, header) {
        return false;
    }
    let Ok(found) = shape(message) else {
        return false;
    };
    let k = found.place + found.length + 2;
    let code = code_for(key, header, &message[..k]);
    octets::same(&message[k..], &code)
}

// Tag, place and length of the data of a message with its code under the key; or 1, 4 or 8.
pub fn open_message(key: &[u8], header: &[u8], message: &[u8]) -> Result<Found, Refusal>
    ensures { Tells result (opened key.now header.now message.now) (open_number key.now header.now message.now) message.now }
{
    if !given(key, header) {
        return Err(Refusal::Input);
    }
    let found = shape(message)?;
    if !code_fits(key, header, message) {
        return Err(Refusal::CodeDiffers);
    }
    Ok(found)
}

// Writes the tag, and the length field for n bytes of data.
fn write_tag(part: &mut [u8], tag: u8, n: usize)
    requires { (n ≤ largest) × (place_of n ≤ length part.old) }
    ensures { part.new ≡ laid part.old 0 (tag ∷ length_field n) }
{
    part[0] = tag;
    if n > shapes::LARGEST_SHORT {
        part[1] = shapes::LONG_MARK as u8;
        part[2] = n as u8;
        return;
    }
    part[1] = n as u8;
}

// Writes the data at their place, and what stands ahead of the code.
fn write_data(part: &mut [u8], data: &[u8])
    requires { (length «data».now ≤ largest) × (place_of (length «data».now) + length «data».now + 2 ≤ length part.old) }
    ensures { part.new ≡ laid part.old (place_of (length «data».now)) («data».now ++ code_head) }
{
    let n = data.len();
    let place = shapes::place_of(n);
    part[place..place + n].copy_from_slice(data);
    part[place + n] = 0x8e;
    part[place + n + 1] = 0x04;
}

// Writes the code of what stands before it in a message with n bytes of data.
fn write_code(part: &mut [u8], key: &[u8], header: &[u8], n: usize)
    requires { (areGiven key.now header.now ≡ true) × (n ≤ largest) × (place_of n + n + 6 ≤ length part.old) }
    ensures { part.new ≡ laid part.old (body_size n) (code_for key.now header.now (take (body_size n) part.old)) }
{
    let k = shapes::place_of(n) + n + 2;
    let code = code_for(key, header, &part[..k]);
    part[k..k + 4].copy_from_slice(&code);
}

// Whether n bytes of data may be wrapped to a place of a buffer of some size: 1, or 3 where they do not fit.
fn may_wrap(
    key: &[u8],
    header: &[u8],
    tag: u8,
    n: usize,
    size: usize,
    place: usize,
) -> Result<(), Refusal>
    ensures { number_told result ≡ wrap_number key.now header.now tag n size place }
{
    if !given(key, header) || !shapes::is_tag(tag) || n > shapes::LARGEST {
        return Err(Refusal::Input);
    }
    if size < place || size - place < shapes::place_of(n) + n + 6 {
        return Err(Refusal::NoRoom);
    }
    Ok(())
}

// Writes the message of a tag and data at a place of the buffer; or 1 or 3, and writes nothing.
pub fn wrap(
    key: &[u8],
    header: &[u8],
    tag: u8,
    data: &[u8],
    buffer: &mut [u8],
    place: usize,
) -> Result<(), Refusal>
    ensures { Wrote (wrapped key.now header.now tag «data».now buffer.old place) (number_told result) buffer.new }
{
    let n = data.len();
    may_wrap(key, header, tag, n, buffer.len(), place)?;
    write_tag(&mut buffer[place..], tag, n);
    write_data(&mut buffer[place..], data);
    write_code(&mut buffer[place..], key, header, n);
    Ok(())
}
