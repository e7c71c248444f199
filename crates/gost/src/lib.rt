// GOST 28147-89 (RFC 5830) with the substitution of RFC 7836 (id-tc26-gost-28147-param-Z): the rounds, on halves and subkeys. There
// is no table in memory, and the compiled program has no branch on a key or on data.
#![tactic(auto)]

ghost use Rattle.std.specs.Prelude.{◌≡◌, ◌*◌, ◌/◌, ◌%◌, ◌^◌, ◌<◌, reverse};
ghost use Rattle.gost.specs.Gost.{substituted, rows, mixed, rounds};

// The halves N1 and N2 of a block.
#[derive(Clone, Copy)]
pub struct Halves {
    pub n1: u32,
    pub n2: u32,
}

// A row of the substitution in a word: entry i is half-byte i.
const P0: u64 = 0x1f30_7d8e_9b5a_264c;

const P1: u64 = 0xf0db_74e1_c5a9_3286;

const P2: u64 = 0x069c_471e_daf2_853b;

const P3: u64 = 0xb9e3_5a07_6f4d_128c;

const P4: u64 = 0xc24b_e390_d618_a5f7;

const P5: u64 = 0x0e34_187b_ac29_6fd5;

const P6: u64 = 0x73ad_0b4f_c196_52e8;

const P7: u64 = 0x2bc9_6af4_3850_de71;

// The entry of a row at the lowest half-byte of x.
fn entry(row: u64, x: u32) -> u32
    ensures { (result ≡ row / 2 ^ (x % 16 * 4) % 16) × (result < 16) }
{
    ((row >> (x % 16 * 4)) % 16) as u32
}

// Each half-byte of x, replaced by its row's entry.
fn substitute(x: u32) -> u32
    ensures { result ≡ substituted rows x }
{
    let x1 = x / 16;
    let x2 = x1 / 16;
    let x3 = x2 / 16;
    let x4 = x3 / 16;
    let x5 = x4 / 16;
    let x6 = x5 / 16;
    let x7 = x6 / 16;
    let high = entry(P4, x4) + 16 * (entry(P5, x5) + 16 * (entry(P6, x6) + 16 * entry(P7, x7)));
    entry(P0, x) + 16 * (entry(P1, x1) + 16 * (entry(P2, x2) + 16 * (entry(P3, x3) + 16 * high)))
}

// A half with a subkey, through substitution and shift.
fn mix(x: u32, k: u32) -> u32
    ensures { result ≡ mixed x k }
{
    substitute(x.wrapping_add(k)).rotate_left(11)
}

// Eight rounds with the subkeys in turn.
pub fn eight(k: [u32; 8], s: Halves) -> Halves
    ensures { result ≡ rounds k s }
{
    let mut n1 = s.n1;
    let mut n2 = s.n2;
    for x in &k {
        let n = n2 ^ mix(n1, *x);
        n2 = n1;
        n1 = n;
    }
    Halves { n1, n2 }
}

// The subkeys from the last to the first.
pub fn reversed(mut k: [u32; 8]) -> [u32; 8]
    ensures { result ≡ reverse k }
{
    k.reverse();
    k
}
