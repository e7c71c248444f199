// Which octet order the vectors settle: a code or an IDN under both readings of 01, least significant octet first (RFC 5830)
// and most significant octet first (RFC 8891), and for a code each half of the last state in each order.
use cipher::Halves;
use std::io;
use std::io::Write;

// A word of four octets in one of the two orders.
fn word(most: bool, a: u8, b: u8, c: u8, d: u8) -> u32 {
    if most {
        octets::word(d, c, b, a)
    } else {
        octets::word(a, b, c, d)
    }
}

// The subkeys of a key in one of the two orders; zeros where it is not 32 bytes.
fn subkeys(most: bool, key: &[u8]) -> [u32; 8] {
    let mut k = [0u32; 8];
    if key.len() != 32 {
        return k;
    }
    for j in 0..8 {
        let i = 4 * j;
        k[j] = word(most, key[i], key[i + 1], key[i + 2], key[i + 3]);
    }
    k
}

// Puts the octets of each block of eight into out in the other order; what is left over stays away.
fn turned(s: &[u8], out: &mut [u8]) {
    if out.len() < s.len() {
        return;
    }
    let n = s.len() / 8 * 8;
    out[..n].copy_from_slice(&s[..n]);
    for block in out[..n].chunks_exact_mut(8) {
        block.reverse();
    }
}

// Four octets in the other order.
fn four_turned(b: [u8; 4]) -> [u8; 4] {
    [b[3], b[2], b[1], b[0]]
}

// One candidate: its name, its value, and whether it is what is published.
fn candidate<W: Write>(to: &mut W, name: &[u8], value: &[u8], published: &[u8]) -> io::Result<()> {
    to.write_all(b"\n  ")?;
    to.write_all(name)?;
    crate::put(to, value)?;
    if value == published {
        to.write_all(b" yes")
    } else {
        to.write_all(b" no")
    }
}

// The halves of a state in each order.
fn halves<W: Write>(to: &mut W, s: Halves, published: &[u8]) -> io::Result<()> {
    let n1 = octets::word_octets(s.n1);
    let n2 = octets::word_octets(s.n2);
    candidate(to, b"N1 least first ", &n1, published)?;
    candidate(to, b"N1 most first  ", &four_turned(n1), published)?;
    candidate(to, b"N2 least first ", &n2, published)?;
    candidate(to, b"N2 most first  ", &four_turned(n2), published)
}

// The code of a string under both readings.
pub(crate) fn code<W: Write>(
    to: &mut W,
    key: &[u8],
    string: &[u8],
    published: &[u8],
) -> io::Result<()> {
    let start = Halves { n1: 0, n2: 0 };
    to.write_all(b"\n least significant octet first")?;
    halves(
        to,
        cipher::absorb_all(subkeys(false, key), start, string),
        published,
    )?;
    let mut other = [0u8; 1024];
    turned(string, &mut other);
    to.write_all(b"\n most significant octet first")?;
    halves(
        to,
        cipher::absorb_all(
            subkeys(true, key),
            start,
            crate::first(&other, string.len()),
        ),
        published,
    )
}

// An IDN under both readings: as many octets of the enciphered counter as are published.
pub(crate) fn idn<W: Write>(
    to: &mut W,
    key: &[u8],
    counter: &[u8],
    published: &[u8],
) -> io::Result<()> {
    if counter.len() != 2 {
        return Ok(());
    }
    let b = [counter[0], counter[1], 0, 0, 0, 0, 0, 0];
    let least = cipher::encipher_with(subkeys(false, key), b);
    candidate(
        to,
        b"least significant octet first ",
        crate::first(&least, published.len()),
        published,
    )?;
    let c = [0, 0, 0, 0, 0, 0, counter[1], counter[0]];
    let mut most = cipher::encipher_with(subkeys(true, key), c);
    most.reverse();
    candidate(
        to,
        b"most significant octet first  ",
        crate::first(&most, published.len()),
        published,
    )
}
