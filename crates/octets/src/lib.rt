// What everything on the wire is made of: words of 2 and 4 octets, IPv4 addresses and masks, runs of octets that are
// compared and written, options as items of kind, length and data, and their codes. Ports the parts of wire/ipv4.rs that
// the client uses, and the option writer and the codes of wire/dhcpv4.rs.
//
// No function of this crate refuses anything: any slice, place and number has an answer.

#![tactic(auto)]

pub mod address;
pub mod codes;
pub mod item;
pub mod span;
pub mod word;
