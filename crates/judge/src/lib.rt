// Judging a reply: any bytes, from any source, are taken as an OFFER, an ACK or a NAK, or passed over for a reason.
// Ports the checks of dhcpv4_process in iface/dhcpv4.rs.

#![tactic(auto)]

pub mod awaited;
pub mod judge;

pub use judge::{Acked, Offered, Recipient, Verdict};
