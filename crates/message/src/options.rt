// The options of a message, in three groups.
#![tactic(auto, using(crate::proofs::Messages::name_some, crate::proofs::Messages::name_none, crate::proofs::Messages::address_if, crate::proofs::Messages::size_if))]

ghost use Rattle.std.specs.Prelude.{◌≡◌, ◌∷◌, ◌+◌, ◌≤◌, length, option_copied};
ghost use Rattle.std.specs.Option.{ForSome};
ghost use Rattle.octets.specs.Codes.{requested_code, identifier_code, request_list_code, message_size_code};
ghost use Rattle.message.specs.Messages.{option_if, address_option, size_option, name_option, who, given};
ghost use Rattle.message.specs.Pieces.{last, Wrote};

use crate::message::Message;
use crate::put::{put_bytes, put_field, put_if, put_option};
use octets::codes::{
    OPT_CLIENT_ID, OPT_DHCP_MESSAGE_TYPE, OPT_END, OPT_HOST_NAME, OPT_MAX_DHCP_MESSAGE_SIZE,
    OPT_PARAMETER_REQUEST_LIST, OPT_REQUESTED_IP, OPT_SERVER_IDENTIFIER,
};
use octets::word::{split2, split4};

// 1, for Ethernet, then the hardware address.
fn client_id(hardware: [u8; 6]) -> [u8; 7]
    ensures { result ≡ 1 ∷ hardware }
{
    let mut id = [1; 7];
    id[1..].copy_from_slice(&hardware);
    id
}

// Who sends what: 53, 61, and 12 if there is a name.
pub(crate) fn put_who(buf: &mut [u8], at: usize, m: Message, name: &[u8]) -> usize
    requires { (length name.now ≤ 255) × (at + (12 + length (name_option name.now)) ≤ length buf.old) }
    ensures wrote { Wrote at (who m.kind m.hardware name.now) buf.old result buf.new }
    ensures value { result ≡ at + (12 + length (name_option name.now)) }
{
    let id = client_id(m.hardware);
    let n1 = put_option(buf, at, OPT_DHCP_MESSAGE_TYPE, &[m.kind]);
    let n2 = put_option(buf, n1, OPT_CLIENT_ID, &id);
    if name.is_empty() {
        return n2;
    }
    put_option(buf, n2, OPT_HOST_NAME, name)
}

// What is told besides: 50, 54 and 57, where given.
pub(crate) fn put_given(buf: &mut [u8], at: usize, m: Message) -> usize
    requires { at + (length (address_option requested_code m.requested) + length (address_option identifier_code m.server) + length (size_option message_size_code m.size)) ≤ length buf.old }
    ensures wrote { Wrote at (given m.requested m.server m.size) buf.old result buf.new }
    ensures value { result ≡ at + (length (address_option requested_code m.requested) + length (address_option identifier_code m.server) + length (size_option message_size_code m.size)) }
{
    let n1 = put_field(buf, at, OPT_REQUESTED_IP, m.requested.map(split4));
    let n2 = put_field(buf, n1, OPT_SERVER_IDENTIFIER, m.server.map(split4));
    put_field(buf, n2, OPT_MAX_DHCP_MESSAGE_SIZE, m.size.map(split2))
}

// What is asked for: 55, where given; then the extra options, and the end mark.
pub(crate) fn put_last(buf: &mut [u8], at: usize, list: Option<&[u8]>, extra: &[u8]) -> usize
    requires short { ForSome list (λ codes. length codes.now ≤ 255) }
    requires room { at + (length (option_if request_list_code (option_copied list)) + length extra.now + 1) ≤ length buf.old }
    ensures wrote { Wrote at (last (option_copied list.entry) extra.now) buf.old result buf.new }
    ensures value { result ≡ at + (length (option_if request_list_code (option_copied list.entry)) + length extra.now + 1) }
{
    let end = [OPT_END];
    let n1 = put_if(buf, at, OPT_PARAMETER_REQUEST_LIST, list);
    let n2 = put_bytes(buf, n1, extra);
    put_bytes(buf, n2, &end)
}
