// The transformation LPS of GOST R 34.11-2012 (RFC 6986, section 7), by the words of `tables`.
//
// The shape is for the machine code. `word` is called at one place, so that its table stands in the code of `turn_from` once. The loop over the words
// of the answer stays a loop: a byte is then the lowest of a register that is shifted by 8. Five words go so, and the bytes of the other three are
// read from memory: a processor has other units for reads than for shifts.
#![tactic(auto)]

ghost use Rattle.std.specs.Prelude.{◌≡◌, cond, ◌*◌, ◌/◌, ◌<◌, ltb, length, get_or, set, drop};
ghost use Rattle.std.proofs.lemmas.List.Edits.{sets};
ghost use Rattle.octets.specs.Numbers.{le_octets};
ghost use Rattle.lps.specs.Vectors.{LPS, X};
ghost use Rattle.lps.specs.Inner.{looked, byte_at, bytes_at, Eight, Shifted, Spread, first_word, Skipped};

use tables::word;

// The eight bytes of a word, lowest first.
fn bytes_of(w: u64) -> [u8; 8]
    ensures { result ≡ le_octets 8 w }
{
    w.to_le_bytes()
}

// X[a](b), its first five words, with a zero after each: side by side, LLVM would put the words into registers by twos.
fn spread(a: &[u64; 8], b: &[u64; 8]) -> [u64; 10]
    ensures { Spread (X a.now b.now) result }
{
    [
        a[0] ^ b[0],
        0,
        a[1] ^ b[1],
        0,
        a[2] ^ b[2],
        0,
        a[3] ^ b[3],
        0,
        a[4] ^ b[4],
        0,
    ]
}

// The first word of the answer that is asked for: 4 for the upper half, else 0. The bytes that no such word needs go from x.
fn skip(x: &mut [u64; 10], upper: bool) -> usize
    requires { length x.old ≡ 10 }
    ensures { (result ≡ first_word upper) × Skipped result x.old x.new }
{
    if !upper {
        return 0;
    }
    x[0] = x[0] / 256 / 256 / 256 / 256;
    x[2] = x[2] / 256 / 256 / 256 / 256;
    x[4] = x[4] / 256 / 256 / 256 / 256;
    x[6] = x[6] / 256 / 256 / 256 / 256;
    x[8] = x[8] / 256 / 256 / 256 / 256;
    4
}

// The lowest byte of word j of x, which loses it; after the fifth word, byte k of u, v or w.
fn byte(x: &mut [u64; 10], u: &[u8], v: &[u8], w: &[u8], k: usize, j: usize) -> usize
    requires { (length x.old ≡ 10) × Eight u.now v.now w.now × (k < 8) × (j < 8) }
    ensures { (result ≡ byte_at x.old u.now v.now w.now k j)
        × (result < 256)
        × (x.new ≡ cond (ltb j 5) (set x.old (2 * j) (get_or x.old (2 * j) 0 / 256)) x.old) }
{
    if j < 5 {
        let a = x[2 * j];
        let low = (a % 256) as usize;
        x[2 * j] = a / 256;
        return low;
    }
    if j == 5 {
        return u[k] as usize;
    }
    if j == 6 {
        return v[k] as usize;
    }
    w[k] as usize
}

// The sum of what byte k of each word gives, through its table.
fn column(x: &mut [u64; 10], u: &[u8], v: &[u8], w: &[u8], k: usize) -> u64
    requires { (length x.old ≡ 10) × Eight u.now v.now w.now × (k < 8) }
    ensures { (result ≡ looked 0 0 (bytes_at x.old u.now v.now w.now k)) × Shifted x.old x.new }
{
    let mut r = 0;
    for j in 0..8 {
        r ^= word(256 * j + byte(x, u, v, w, k, j));
    }
    r
}

// LPS X[s](b) in the place of s: all eight words, or the upper four alone.
fn turn_from(s: &mut [u64; 8], b: &[u64; 8], upper: bool)
    ensures { s.new ≡ sets s.old (first_word upper) (drop (first_word upper) (LPS (X s.old b.now))) }
{
    let mut x = spread(s, b);
    let u = bytes_of(s[5] ^ b[5]);
    let v = bytes_of(s[6] ^ b[6]);
    let w = bytes_of(s[7] ^ b[7]);
    for k in skip(&mut x, upper)..8 {
        s[k] = column(&mut x, &u, &v, &w, k);
    }
}

// LPS X[s](b) in the place of s, vectors of eight words, lowest first. `sets` writes the eight words over s: a lent array does not tell its length.
pub fn turn(s: &mut [u64; 8], b: &[u64; 8])
    ensures { s.new ≡ sets s.old 0 (LPS (X s.old b.now)) }
{
    turn_from(s, b, false);
}

// The upper four words of LPS X[s](b) in their places of s, for whoever needs no others: half the work.
pub fn turn_upper(s: &mut [u64; 8], b: &[u64; 8])
    ensures { s.new ≡ sets s.old 4 (drop 4 (LPS (X s.old b.now))) }
{
    turn_from(s, b, true);
}
