// A message taken in blocks by a step, at once or in parts: definitions and laws for the code, the hash and HMAC, and the test of a total.
#![tactic(auto)]

ghost use Rattle.std.specs.Prelude.{◌≡◌};
ghost use Rattle.blocks.specs.Parts.{fits as fitsAfter};

// Whether n bytes more fit after a total: 4,294,967,295 is the most.
pub fn fits(total: u32, n: usize) -> bool
    ensures { result ≡ fitsAfter total n }
{
    n <= (4294967295 - total) as usize
}
