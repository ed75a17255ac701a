// The Internet checksum.
#![tactic(auto, using(choice::proofs::Choices::if_true, choice::proofs::Choices::if_false, crate::proofs::Sums::in_folded), unfolding(crate::specs::Datagrams::complement))]

ghost use Rattle.std.specs.Prelude.{◌≡◌, ◌+◌, ◌*◌, ◌≤◌, ◌<◌, length};
ghost use Rattle.message.specs.Datagrams.{ones_sum, complement, checksum, pseudo_header};
ghost use Rattle.message.specs.Pieces.{carried_in};

use octets::word::{split2, split4};

// Whole words, of which a plain sum fits 32 bits.
const PART: usize = 65534;

// The one's complement sum of start and the words of s.
pub fn ones_sum(start: u16, s: &[u8]) -> u16
    ensures { result ≡ ones_sum start s.now }
{
    let mut sum = start;
    for part in s.chunks(PART) {
        sum = deferred(sum, part);
    }
    sum
}

// The same with the carries added in at the end, of words with the low octet first (RFC 1071, section 2), which the compiler
// turns into vector instructions.
fn deferred(start: u16, s: &[u8]) -> u16
    requires { length s.now ≤ 65534 }
    ensures { result ≡ ones_sum start s.now }
{
    let (words, last) = s.as_chunks::<2>();
    let mut sum: u32 = 0;
    for word in words {
        sum += u32::from(u16::from_le_bytes(*word));
    }
    let odd = last.first().map_or(0, |octet| u32::from(*octet));
    swapped(start, sum + odd)
}

// Start and a plain sum of words with the low octet first, whose octets are swapped back once its carries are in.
fn swapped(start: u16, sum: u32) -> u16
    ensures { result ≡ carried_in (start + 256 * sum) }
{
    folded(u32::from(start) + u32::from(folded(sum).swap_bytes()))
}

// A plain sum of words with its carries added in at the low end, twice, since the first time can carry again.
fn folded(sum: u32) -> u16
    ensures { result ≡ carried_in sum }
{
    let once = sum % 65536 + sum / 65536;
    (once % 65536 + once / 65536) as u16
}

// The pseudo header of a datagram of n octets.
fn pseudo_header(source: u32, destination: u32, n: usize) -> [u8; 12]
    ensures { result ≡ pseudo_header source destination n }
{
    let [a, b, c, d] = split4(source);
    let [e, f, g, h] = split4(destination);
    let [high, low] = split2((n % 65536) as u32);
    [a, b, c, d, e, f, g, h, 0, 17, high, low]
}

// A sum as it is sent.
fn sent(sum: u16) -> u16
    ensures { result ≡ complement sum }
{
    if sum == 65535 {
        return 65535;
    }
    65535 - sum
}

// The checksum of a datagram whose checksum field is zero.
pub fn checksum(source: u32, destination: u32, datagram: &[u8]) -> u16
    ensures { result ≡ checksum source destination datagram.now }
{
    let head = pseudo_header(source, destination, datagram.len());
    sent(ones_sum(ones_sum(0, &head), datagram))
}
