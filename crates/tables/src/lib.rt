// The tables of the interface: addresses and routes, some put in by hand and some by DHCP. Ports route.rs (IPv4 alone,
// routes without expiry), the address table and the generation of iface/mod.rs, storage/vec.rs as arrays with a count, and
// dhcpv4_apply of iface/dhcpv4.rs. The manual calls are document 01's.
//
// Tables go into each call by value and come out of it. Any tables have an answer; nothing is read past a count.

#![tactic(auto)]

mod address;
mod apply;
mod lookup;
mod manual;
mod route;
mod table;
mod tables;

pub use address::{AddrTable, IfaceAddr};
pub use apply::{Applied, Cidr, Installed};
pub use manual::Changed;
pub use route::{Route, RouteTable};
pub use table::{PREFIX_LIMIT, Table};
pub use tables::Tables;
