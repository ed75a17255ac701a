// Messages of the client as UDP datagrams in a lent buffer. Ports build of iface/dhcpv4.rs and the writing half of
// wire/dhcpv4.rs; the UDP header is RFC 768's.
//
// Any fields, lists and buffer have an answer: a length, or a refusal, and then nothing is written.

#![tactic(auto)]

pub mod datagram;
mod header;
pub mod lists;
pub mod message;
mod options;
mod put;
pub mod sum;

pub use datagram::{Endpoints, write_message};
pub use lists::Lists;
pub use message::{Message, message_len};
