// The shape of script messages (R 1323565.1.008), and the script commands.
#![tactic(auto)]

ghost use Rattle.std.specs.Prelude.{◌≡◌, [], ◌∷◌, get_or};
ghost use Rattle.octets.specs.Same.{same};
ghost use Rattle.shapes.specs.Shape.{tag_fits, code_head, length_of, place_of};
ghost use Rattle.shapes.specs.Answers.{shape_number, shaped, Tells};

use answers::Refusal;

mod command;

pub use command::Command;

// The tag, and the place and length of the data in the message.
#[derive(Clone, Copy, Debug, PartialEq, Eq)]
pub struct Found {
    pub tag: u8,
    pub place: usize,
    pub length: usize,
}

// The largest length of data, the largest that its one byte says, and the byte ahead of a longer one.
pub const LARGEST: usize = 255;

pub const LARGEST_SHORT: usize = 127;

pub const LONG_MARK: usize = 0x81;

// The byte of a message at a place; 0 past its end.
pub fn byte_at(message: &[u8], at: usize) -> usize
    ensures { result ≡ get_or message.now at 0 }
{
    message.get(at).copied().unwrap_or(0) as usize
}

// What the length field of a message says; more than the largest where it has another form.
pub fn length_of(message: &[u8]) -> usize
    ensures { result ≡ length_of message.now }
{
    let first = byte_at(message, 1);
    if first <= LARGEST_SHORT {
        return first;
    }
    let second = byte_at(message, 2);
    if first != LONG_MARK || second <= LARGEST_SHORT {
        return LARGEST + 1;
    }
    second
}

// The place of n bytes of data in their message.
pub fn place_of(n: usize) -> usize
    ensures { result ≡ place_of n }
{
    if n <= LARGEST_SHORT { 2 } else { 3 }
}

// Whether a tag is 87 or 81.
pub fn is_tag(tag: u8) -> bool
    ensures { result ≡ tag_fits tag }
{
    tag == 0x87 || tag == 0x81
}

// Whether the two bytes are those ahead of a code.
fn is_code_head(a: u8, b: u8) -> bool
    ensures { result ≡ same (a ∷ b ∷ []) code_head }
{
    a == 0x8e && b == 0x04
}

// Tag, place and length of the data of a message of good shape, or 4.
pub fn shape(message: &[u8]) -> Result<Found, Refusal>
    ensures { Tells result (shaped message.now) (shape_number message.now) message.now }
{
    let length = length_of(message);
    if length > LARGEST {
        return Err(Refusal::ShapeWrong);
    }
    let place = place_of(length);
    let end = place + length;
    if message.len() != end + 6
        || !is_tag(message[0])
        || !is_code_head(message[end], message[end + 1])
    {
        return Err(Refusal::ShapeWrong);
    }
    Ok(Found {
        tag: message[0],
        place,
        length,
    })
}
