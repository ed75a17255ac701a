// Words of 2 and 4 octets, the high one first. For each function of two there is one of four, and none generic in the size:
// the bodies are one or two calls, and the contracts would need a trait that names the definitions of both sizes.
#![tactic(auto, using(choice::proofs::Choices::if_true, choice::proofs::Choices::if_false, crate::proofs::Words::word16_of, crate::proofs::Words::word32_of), unfolding(crate::specs::Words::word16_at, crate::specs::Words::word32_at))]

ghost use Rattle.std.specs.Prelude.{◌≡◌, ◌+◌, ◌<◌, ◌≤◌, ◌++◌, length, take, drop, MatchOption};
ghost use Rattle.octets.specs.Words.{word16, word32, bytes16, bytes32, word16_at, word32_at};
ghost use Rattle.octets.specs.Runs.{placed, placed_length};

use crate::span::put_bytes_at;

// Two octets as a number.
pub fn join2(a: u8, b: u8) -> u32
    ensures { result ≡ word16 a b }
{
    u32::from(u16::from_be_bytes([a, b]))
}

// Four octets as a number.
pub fn join4(a: u8, b: u8, c: u8, d: u8) -> u32
    ensures { result ≡ word32 a b c d }
{
    u32::from_be_bytes([a, b, c, d])
}

// The low 16 bits of a number as two octets.
pub fn split2(v: u32) -> [u8; 2]
    ensures { result ≡ bytes16 v }
{
    ((v % 65536) as u16).to_be_bytes()
}

// A number as four octets.
pub fn split4(v: u32) -> [u8; 4]
    ensures { result ≡ bytes32 v }
{
    v.to_be_bytes()
}

// The N octets at `at`, none where s ends before they do.
fn octets_at<const N: usize>(s: &[u8], at: usize) -> Option<[u8; N]>
    ensures { MatchOption result (length s.now < at + N) (λ w. (at + N ≤ length s.now) × (w ≡ take N (drop at s.now))) }
{
    s.get(at..)?.first_chunk::<N>().copied()
}

// The word of two octets at `at`, none where s ends before it does.
pub fn read_u16(s: &[u8], at: usize) -> Option<u32>
    ensures { result ≡ word16_at s.now at }
{
    let [a, b] = octets_at::<2>(s, at)?;
    Some(join2(a, b))
}

// The word of four octets at `at`, none where s ends before it does.
pub fn read_u32(s: &[u8], at: usize) -> Option<u32>
    ensures { result ≡ word32_at s.now at }
{
    let [a, b, c, d] = octets_at::<4>(s, at)?;
    Some(join4(a, b, c, d))
}

// Writes the low 16 bits of a number as two octets at `at` of buf, if they fit there, and answers how many octets were
// written.
pub fn write_u16(buf: &mut [u8], at: usize, v: u32) -> usize
    ensures { (result ≡ placed_length (bytes16 v) (drop at buf.old)) × (buf.new ≡ take at buf.old ++ placed (bytes16 v) (drop at buf.old)) }
{
    put_bytes_at(buf, at, &split2(v))
}

// Writes a number as four octets at `at` of buf, if they fit there, and answers how many octets were written.
pub fn write_u32(buf: &mut [u8], at: usize, v: u32) -> usize
    ensures { (result ≡ placed_length (bytes32 v) (drop at buf.old)) × (buf.new ≡ take at buf.old ++ placed (bytes32 v) (drop at buf.old)) }
{
    put_bytes_at(buf, at, &split4(v))
}
