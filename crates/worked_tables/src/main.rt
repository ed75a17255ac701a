// Document 01's examples of the tables and the manual calls, and corners of order, loss, generation and purging.

#![tactic(auto)]

use crate::print::{Found, by_hand};
use crate::start::{POST, ROUTER, entry, four_addresses, four_routes, installed, with_addresses};
use lease::nothing;
use made::{YesNo, answered, test};
use std::io;
use tables::Tables;

mod leases;
mod print;
mod start;

fn main(rt: HostRuntime) -> io::Result<()> {
    refused_routes(&rt)?;
    refused_addresses(&rt)?;
    five_addresses(&rt)?;
    prefixes(&rt)?;
    unused(&rt)?;
    drops(&rt)?;
    unmasked(&rt)?;
    leases::examples(&rt)?;
    looked_up(&rt)
}

// "11 table full: fifth route"; "10 precedes 11"; NotWhole (9) is tested first.
fn refused_routes(rt: &impl Print) -> io::Result<()> {
    let t = four_routes();
    by_hand(rt, "fifth route", t.add_route(0, 0, ROUTER))?;
    by_hand(
        rt,
        "fifth route, by 224.0.0.1",
        t.add_route(0, 0, 0xe0000001),
    )?;
    by_hand(rt, "the same of prefix 33", t.add_route(0, 33, 0xe0000001))?;
    Ok(())
}

// "also a manual prefix over 32", of drops too.
fn refused_addresses(rt: &impl Print) -> io::Result<()> {
    let t = four_addresses();
    by_hand(rt, "fifth address", t.add_address(POST, 24))?;
    by_hand(rt, "the same of prefix 33", t.add_address(POST, 33))?;
    by_hand(rt, "10.0.0.1/33 dropped", t.drop_address(ROUTER, 33))?;
    Ok(())
}

// "5 addresses": every call and look-up is refused.
fn five_addresses(rt: &impl Print) -> io::Result<()> {
    let one = entry(POST, 24, false);
    let t = with_addresses([one; 4], 5);
    by_hand(rt, "5 addresses, and another", t.add_address(POST, 24))?;
    by_hand(
        rt,
        "5 addresses, a route dropped",
        t.drop_route(0, 0, ROUTER),
    )?;
    test(rt, "5 addresses are whole", t.is_whole())?;
    answered(rt, "5 addresses, how many routes", t.route_count())?;
    answered(
        rt,
        "5 addresses, 10.0.0.50 among them",
        t.has_ip_addr(POST).map(YesNo),
    )
}

// Entries whose prefixes are over 32 but for the first.
fn long_prefixes(count: usize) -> Tables {
    let a = entry(POST, 24, false);
    let b = entry(POST, 33, false);
    let c = entry(POST, 34, true);
    let d = entry(POST, 35, false);
    with_addresses([a, b, c, d], count)
}

// A prefix over 32 counts where it is in use.
fn prefixes(rt: &impl Print) -> io::Result<()> {
    by_hand(
        rt,
        "prefix 33 in use",
        long_prefixes(2).add_address(POST, 24),
    )?;
    by_hand(
        rt,
        "prefix 33 not in use",
        long_prefixes(1).add_address(POST, 16),
    )?;
    Ok(())
}

// What a written table holds where it is not in use: zeros, whatever was there.
fn unused(rt: &impl Print) -> io::Result<()> {
    let changed = long_prefixes(1).drop_address(POST, 24);
    let rest = changed.tables.ip_addrs.entries;
    test(
        rt,
        "after a drop of the only one, the fourth address is 0",
        rest[3].address == 0,
    )?;
    test(rt, "its prefix is 0", rest[3].prefix == 0)?;
    test(rt, "the third is DHCP's", rest[2].dhcp)
}

// "drop manual ones (all with that address and prefix ...; none there is no refusal)"; DHCP's entry stays.
fn drops(rt: &impl Print) -> io::Result<()> {
    let one = entry(POST, 24, false);
    let t = with_addresses([one, entry(POST, 24, true), entry(POST, 16, false), one], 4);
    let left = by_hand(rt, "10.0.0.50/24 dropped", t.drop_address(POST, 24))?;
    let same = by_hand(rt, "and once more", left.drop_address(POST, 24))?;
    by_hand(rt, "10.0.0.50/24 added", same.add_address(POST, 24))?;
    Ok(())
}

// Addresses are compared as given, unmasked, and routes by their router too.
fn unmasked(rt: &impl Print) -> io::Result<()> {
    let t = by_hand(
        rt,
        "10.1.2.3/8 added",
        Tables::new().add_address(0x0a010203, 8),
    )?;
    by_hand(rt, "10.0.0.0/8 dropped", t.drop_address(0x0a000000, 8))?;
    let r = by_hand(
        rt,
        "10.1.2.3/8 by 10.0.0.1 added",
        Tables::new().add_route(0x0a010203, 8, ROUTER),
    )?;
    by_hand(
        rt,
        "10.1.2.3/8 by 10.0.0.2 dropped",
        r.drop_route(0x0a010203, 8, ROUTER + 1),
    )?;
    by_hand(
        rt,
        "10.1.2.3/8 by 10.0.0.1 dropped",
        r.drop_route(0x0a010203, 8, ROUTER),
    )?;
    Ok(())
}

// Look-ups: how many, the entry at a place, whether an address is there, the default route.
fn looked_up(rt: &impl Print) -> io::Result<()> {
    let t = four_addresses()
        .add_route(0, 0, 9)
        .tables
        .dhcpv4_apply(installed(POST, 24, ROUTER), nothing())
        .tables;
    answered(rt, "how many addresses", t.addr_count())?;
    answered(
        rt,
        "10.0.0.4 is there",
        t.has_ip_addr(0x0a000004).map(YesNo),
    )?;
    answered(rt, "10.0.0.50 is there", t.has_ip_addr(POST).map(YesNo))?;
    println!(rt;
        "the fourth and the fifth:{}{}",
        Found(t.addr_at(3)),
        Found(t.addr_at(4))
    )?;
    println!(rt;
        "the default routes, first ours:{}{}",
        Found(t.default_ipv4_route()),
        Found(Tables::new().default_ipv4_route())
    )
}
