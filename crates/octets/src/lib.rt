// Numbers as octets, equality of strings, and digits: what more than one crate needs.
#![tactic(auto)]

ghost use Rattle.std.specs.Prelude.{◌≡◌, [], ◌∷◌, ◌%◌, get_or};
ghost use Rattle.octets.specs.Numbers.{le, le_octets, be, be_octets};
ghost use Rattle.octets.specs.Same.{same as alike};
ghost use Rattle.octets.specs.Digits.{digits as areDigits, hex_digit, hex_octet, hex_value};

// The word of four octets, least significant first.
#[tactic(auto, unfolding(crate::specs::Numbers::le))]
pub fn word(b0: u8, b1: u8, b2: u8, b3: u8) -> u32
    ensures { result ≡ le (b0 ∷ b1 ∷ b2 ∷ b3 ∷ []) }
{
    u32::from_le_bytes([b0, b1, b2, b3])
}

// The four octets of a word, least significant first.
pub fn word_octets(x: u32) -> [u8; 4]
    ensures { result ≡ le_octets 4 x }
{
    x.to_le_bytes()
}

// The number of two octets, high first.
#[tactic(auto, unfolding(crate::specs::Numbers::le, crate::specs::Numbers::be))]
pub fn high_low(high: u8, low: u8) -> u16
    ensures { result ≡ be (high ∷ low ∷ []) }
{
    u16::from_be_bytes([high, low])
}

// The two octets of a number of 16 bits, high first.
#[tactic(auto, unfolding(crate::specs::Numbers::le_octets, crate::specs::Numbers::be_octets))]
pub fn high_first(x: u16) -> [u8; 2]
    ensures { result ≡ be_octets 2 x }
{
    x.to_be_bytes()
}

// Octet i modulo 8 of a word of 64 bits, least significant first.
pub fn octet(x: u64, i: usize) -> u8
    ensures { result ≡ get_or (le_octets 8 x) (i % 8) 0 }
{
    x.to_le_bytes()[i % 8]
}

// Whether two strings are equal. It looks at every octet and leaves early for no difference.
pub fn same(a: &[u8], b: &[u8]) -> bool
    ensures { result ≡ alike a.now b.now }
{
    if a.len() != b.len() {
        return false;
    }
    let mut differ: u8 = 0;
    for (x, y) in a.iter().zip(b) {
        differ |= *x ^ *y;
    }
    differ == 0
}

// Whether s is n digits from 0 to 9 and then fillers.
pub fn digits(s: &[u8], n: usize, filler: u8) -> bool
    ensures { result ≡ areDigits filler n s.now }
{
    // One loop over all places: where their number is fixed, LLVM unrolls it, and would not unroll two of variable lengths.
    for i in 0..s.len() {
        if i < n {
            if s[i] > 9 {
                return false;
            }
        } else if s[i] != filler {
            return false;
        }
    }
    n <= s.len()
}

// The hexadecimal digit of the lower half of n.
#[tactic(auto, unfolding(crate::specs::Digits::hex_digit))]
pub fn hex_digit(n: u8) -> u8
    ensures { result ≡ hex_digit (n % 16) }
{
    let d = n % 16;
    if d <= 9 { 48 + d } else { 87 + d }
}

// The two hexadecimal digits of an octet.
pub fn hex(b: u8) -> [u8; 2]
    ensures { result ≡ hex_octet b }
{
    [hex_digit(b / 16), hex_digit(b)]
}

// The number that a hexadecimal digit stands for; 16 for any other sign.
#[tactic(auto, unfolding(crate::specs::Digits::hex_value))]
pub fn hex_value(x: u8) -> u8
    ensures { result ≡ hex_value x }
{
    match x {
        b'0'..=b'9' => x - b'0',
        b'a'..=b'f' => x - b'a' + 10,
        _ => 16,
    }
}
