// The generator's product, and the word that a number is cut down to.
ghost use Rattle.std.specs.Prelude.{◌≡◌, ◌*◌, ◌%◌, ◌^◌};

// What 32 bits count.
pub(crate) const WORD: u64 = 1 << 32;

// The product of two 64-bit numbers, wrapped: document 01's form, "the generator's wrapping product as a helper".
pub(crate) fn wrapping_mul_u64(a: u64, b: u64) -> u64
    ensures { result ≡ (a * b) % 2 ^ 64 }
{
    a.wrapping_mul(b)
}
