// A message as a UDP datagram from port 68 to port 67.
#![tactic(auto, using(choice::proofs::Choices::if_true, choice::proofs::Choices::if_false), unfolding(crate::specs::Pieces::summed))]

ghost use Rattle.std.specs.Prelude.{◌≡◌, ◌∷◌, [], ◌++◌, ◌+◌, ◌≤◌, length, option_copied};
ghost use Rattle.octets.specs.Words.{bytes16};
ghost use Rattle.message.specs.Datagrams.{datagram};
ghost use Rattle.message.specs.Written.{written, buffer_after};
ghost use Rattle.message.specs.Pieces.{message_with, Wrote, summed};

use crate::lists::{Lists, ShortLists};
use crate::message::{Message, put_message, total};
use crate::put::put_bytes;
use crate::sum::checksum;
use reasons::Refusal;

// Where a datagram comes from and where it goes to.
#[derive(Clone, Copy, Debug, PartialEq, Eq)]
pub struct Endpoints {
    pub source: u32,
    pub destination: u32,
}

// Writes a message as a datagram at the start of buf and answers the datagram's length, or refuses it as Name (3),
// RequestList (4), ExtraOptions (5) or ShortBuffer (8) and writes nothing. With offload the device works the checksum out.
// The endpoints come from the sender, offload from the settings, the fields and the lists from both: no struct has them together.
pub fn write_message(
    buf: &mut [u8],
    ends: Endpoints,
    offload: bool,
    m: Message,
    lists: Lists<'_>,
) -> Result<usize, Refusal>
    ensures { (result ≡ written m lists.entry.name.now (option_copied lists.entry.list) lists.entry.extra.now (length buf.old)) × (buf.new ≡ buffer_after ends offload m lists.entry.name.now (option_copied lists.entry.list) lists.entry.extra.now buf.old) }
{
    let short = lists.short()?;
    let n = total(m, short);
    if buf.len() < 8 + n {
        return Err(Refusal::ShortBuffer);
    }
    Ok(put_datagram(buf, n, ends, offload, m, short))
}

// The datagram of a message of n octets at the start of buf. n comes from where the room was tested, so that a message is
// measured once; the rest is what write_message was given.
fn put_datagram(
    buf: &mut [u8],
    n: usize,
    ends: Endpoints,
    offload: bool,
    m: Message,
    short: ShortLists<'_>,
) -> usize
    requires size { n ≡ length (message_with m short.lists) }
    requires room { (8 + n ≤ length buf.old) × (n ≤ 655) }
    ensures { Wrote 0 (datagram ends offload (message_with m short.entry.lists)) buf.old result buf.new }
{
    let n1 = put_udp(buf, 8 + n);
    let n2 = put_message(buf, n1, m, short);
    put_checksum(buf, n2, ends, offload);
    n2
}

// The UDP header of a datagram of n octets, its checksum field zero.
fn put_udp(buf: &mut [u8], n: usize) -> usize
    requires { (8 ≤ length buf.old) × (n ≤ 65535) }
    ensures { Wrote 0 ((0 ∷ 68 ∷ 0 ∷ 67 ∷ bytes16 n) ++ (0 ∷ 0 ∷ [])) buf.old result buf.new }
{
    let [high, low] = octets::word::split2(n as u32);
    put_bytes(buf, 0, &[0, 68, 0, 67, high, low, 0, 0])
}

// The checksum into a datagram of n octets at the start of buf, unless the device works it out.
fn put_checksum(buf: &mut [u8], n: usize, ends: Endpoints, offload: bool)
    requires { (8 ≤ n) × (n ≤ length buf.old) }
    ensures { buf.new ≡ summed ends offload n buf.old }
{
    if offload {
        return;
    }
    let sum = checksum(ends.source, ends.destination, &buf[..n]);
    put_bytes(buf, 6, &octets::word::split2(sum as u32));
}
