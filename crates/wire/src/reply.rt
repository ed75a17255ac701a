// What is read of a reply.
#![tactic(auto, using(choice::proofs::Choices::if_true, choice::proofs::Choices::if_false, choice::proofs::Choices::tests, octets::proofs::Runs::same_pointwise), unfolding(crate::specs::Readings::header_check, crate::specs::Readings::unicast_ones, crate::specs::Readings::groups_of))]

ghost use Rattle.std.specs.Prelude.{◌≡◌, Some, [], filter, map, fold};
ghost use Rattle.wire.specs.Options.{option_data};
ghost use Rattle.wire.specs.Readings.{header_check, addressed_to, transaction_id, your_address, length_of, octet_of, address_of, seconds_of, addresses_of, message_type, router, if_unicast, first_three, word_of, with_address};
ghost use Rattle.octets.specs.Addresses.{unicast};

use crate::options::{OPTIONS, find};
use octets::address::x_is_unicast;
use octets::codes::{OPT_DHCP_MESSAGE_TYPE, OPT_ROUTER};
use octets::item::MAGIC_NUMBER;
use octets::word::read_u32;
use reasons::PassedOver;

// Opcode 2 (a reply), hardware type 1 and length 6 (Ethernet).
const REPLY_START: [u8; 3] = [2, 1, 6];

// At most three addresses, zeros after them: an array with a count, as document 01 has the DNS servers.
#[derive(Clone, Copy, Debug, PartialEq, Eq)]
pub struct Addresses {
    pub list: [u32; 3],
    pub count: usize,
}

impl Addresses {
    // No addresses.
    fn none() -> Addresses
        ensures { result ≡ first_three [] }
    {
        Addresses {
            list: [0; 3],
            count: 0,
        }
    }

    // With one more, where there is room.
    fn with(mut self, address: u32) -> Addresses
        ensures { result ≡ with_address self address }
    {
        if self.count < self.list.len() {
            self.list[self.count] = address;
            self.count += 1;
        }
        self
    }
}

// The checks that need the header alone.
pub fn check_header(reply: &[u8]) -> Result<(), PassedOver>
    ensures { result ≡ header_check reply.now }
{
    if reply.len() < OPTIONS {
        return Err(PassedOver::TooShort);
    }
    if reply[..3] == REPLY_START[..] && reply[236..240] == MAGIC_NUMBER[..] {
        Ok(())
    } else {
        Err(PassedOver::Header)
    }
}

// Whether the client hardware address of a reply is this one.
pub fn is_addressed_to(reply: &[u8], hardware: [u8; 6]) -> bool
    ensures { result ≡ addressed_to hardware reply.now }
{
    reply
        .get(28..34)
        .is_some_and(|found| found == hardware.as_slice())
}

// The transaction id, none where the reply ends before it does.
pub fn transaction_id(reply: &[u8]) -> Option<u32>
    ensures { result ≡ transaction_id reply.now }
{
    read_u32(reply, 4)
}

// Your-address, none where the reply ends before it does.
pub fn your_ip(reply: &[u8]) -> Option<u32>
    ensures { result ≡ your_address reply.now }
{
    read_u32(reply, 16)
}

// The length of an option's data.
pub fn option_len(reply: &[u8], code: u8) -> Option<usize>
    ensures { result ≡ length_of (option_data code reply.now) }
{
    Some(find(reply, code)?.len())
}

// The octet at an index of an option's data, none where the data ends before it.
pub fn option_octet(reply: &[u8], code: u8, index: usize) -> Option<u8>
    ensures { result ≡ octet_of index (option_data code reply.now) }
{
    find(reply, code)?.get(index).copied()
}

// The message type, option 53: exactly one octet.
pub fn message_type(reply: &[u8]) -> Option<u8>
    ensures { result ≡ message_type reply.now }
{
    let [kind] = find(reply, OPT_DHCP_MESSAGE_TYPE)? else {
        return None;
    };
    Some(*kind)
}

// An option's address: the first four octets of its data.
pub fn option_address(reply: &[u8], code: u8) -> Option<u32>
    ensures { result ≡ address_of (option_data code reply.now) }
{
    read_u32(find(reply, code)?, 0)
}

// An option's seconds: exactly four octets.
pub fn option_seconds(reply: &[u8], code: u8) -> Option<u32>
    ensures { result ≡ seconds_of (option_data code reply.now) }
{
    let body = find(reply, code)?;
    if body.len() != 4 {
        return None;
    }
    read_u32(body, 0)
}

// The router, option 3: its first address, if that is unicast.
pub fn router(reply: &[u8]) -> Option<u32>
    ensures { result ≡ router reply.now }
{
    unicast_only(option_address(reply, OPT_ROUTER))
}

// An address, if there is one and it is unicast.
pub fn unicast_only(address: Option<u32>) -> Option<u32>
    ensures { result ≡ if_unicast address }
{
    address.filter(|a| x_is_unicast(*a))
}

// An option's list of addresses: groups of four octets, unicast only, the first three.
pub fn option_addresses(reply: &[u8], code: u8) -> Addresses
    ensures { result ≡ addresses_of (option_data code reply.now) }
{
    addresses_in(find(reply, code).unwrap_or(&[]))
}

// The addresses of an option's data: groups of four octets, unicast only, the first three.
#[tactic(auto, using(crate::proofs::Lists::first_addresses))]
fn addresses_in(body: &[u8]) -> Addresses
    ensures { result ≡ addresses_of (Some body.now) }
{
    let (groups, _) = body.as_chunks::<4>();
    first_unicast(groups)
}

// The first three addresses of a list that are unicast.
fn first_unicast(groups: &[[u8; 4]]) -> Addresses
    ensures { result ≡ fold with_address (first_three []) (filter unicast (map word_of groups.now)) }
{
    groups
        .iter()
        .map(|group| u32::from_be_bytes(*group))
        .filter(|address| x_is_unicast(*address))
        .fold(Addresses::none(), Addresses::with)
}
