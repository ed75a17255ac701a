// A client's messages as it sends them: the id of each, where it goes from and to, its fields, and the datagram in a lent
// buffer. Ports what dhcpv4_poll of iface/dhcpv4.rs hands to build.
//
// Any settings, lease, id, generator and buffer have an answer, whole or not.

#![tactic(auto)]

pub mod sending;

pub use sending::{drawn, endpoints, write};
