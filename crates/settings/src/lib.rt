// What a client is created with: which settings are refused, and the messages that a client with such settings writes.
// Ports DhcpConfig of iface/dhcpv4.rs; limits are document 01's.
//
// Any settings have an answer, within their limits or not.

#![tactic(auto)]

pub mod settings;

pub use settings::{Medium, Settings};
