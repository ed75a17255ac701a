// Replies of a server as bytes, and the store of options that a lease carries. Ports the reading half of
// wire/dhcpv4.rs, parse_ipv4, parse_u32 and DhcpLeaseOptions.
//
// Any bytes and any store have an answer. Whoever reads an option asks by its code: where in the reply it lies is known
// in this crate alone.

#![tactic(auto)]

mod options;
pub mod reply;
pub mod store;

pub use reply::Addresses;
pub use store::{Place, Store};
