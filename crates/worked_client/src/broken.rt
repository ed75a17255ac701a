// Leases and tables that are not whole: "a count over its limit, prefix over 32, stored options not whole items".
use crate::calls::Calls;
use crate::clients::{one_by_hand, plain_ack};
use client::Client;
use clock::Instant;
use lease::DhcpLease;
use machine::ClientState;
use made::{DISCOVERING, OFFERED, REQUESTING, altered, requesting};
use post::{in_state, renewing};
use std::io;
use tables::{IfaceAddr, Route, Table, Tables};

pub fn examples(rt: &impl Print) -> io::Result<()> {
    leases(rt)?;
    stores(rt)?;
    unread(rt)?;
    addresses(rt)?;
    routes(rt)
}

// Since a plain ACK at 0. Its store holds 15 octets: 53, 1, 5, then options 54 and 1.
fn held() -> Client {
    renewing(&plain_ack())
}

fn with_lease(rt: &impl Print, asked: &str, client: Client, lease: DhcpLease) -> io::Result<()> {
    let calls = Calls::on(Client { lease, ..client }, one_by_hand());
    println!(rt; "{asked}: {calls}")
}

// In Renewing the lease is read.
fn leases(rt: &impl Print) -> io::Result<()> {
    for (asked, prefix, servers) in [
        ("a lease of prefix 32", 32, 0),
        ("a lease of prefix 33", 33, 0),
        ("a lease with 3 DNS servers", 24, 3),
        ("a lease with 4 DNS servers", 24, 4),
    ] {
        let held = held();
        with_lease(rt, asked, held, altered(held.lease, prefix, servers, 15))?;
    }
    Ok(())
}

// Behind the 15 octets of three options are 241 zeros, every two of which make an option.
fn stores(rt: &impl Print) -> io::Result<()> {
    for (asked, stored) in [
        ("stored options 53, 1", 2),
        ("stored options 53, 1, 5", 3),
        ("stored options of 255 octets", 255),
        ("stored options of 256 octets, one over", 256),
        ("stored options of 257 octets", 257),
    ] {
        let held = held();
        with_lease(rt, asked, held, altered(held.lease, 24, 0, stored))?;
    }
    Ok(())
}

// In the other states it is not; a plain ACK is passed over as NotAwaited (26) in two of them. A number of retries has no limit.
fn unread(rt: &impl Print) -> io::Result<()> {
    for (asked, state) in [
        ("all that in Init", ClientState::Init),
        (
            "all that in Discovering",
            ClientState::Discovering(DISCOVERING),
        ),
        (
            "all that in Requesting",
            ClientState::Requesting(REQUESTING),
        ),
        ("and retry 900", requesting(Instant { millis: 5000 }, 900)),
    ] {
        let lease = altered(held().lease, 33, 4, 257);
        with_lease(rt, asked, in_state(state), lease)?;
    }
    Ok(())
}

// A table with an entry in each place, and so many in use.
fn table_of<E: Copy>(entry: E, count: usize) -> Table<E> {
    Table {
        entries: [entry; 4],
        count,
    }
}

// "5 addresses". Only process and reset take the tables.
fn addresses(rt: &impl Print) -> io::Result<()> {
    let asked = [
        "4 addresses",
        "5 addresses",
        "an address of prefix 33",
        "one that is not in use",
    ];
    with_tables(rt, asked, |prefix, count| {
        let entry = IfaceAddr {
            address: OFFERED,
            prefix,
            dhcp: false,
        };
        Tables {
            ip_addrs: table_of(entry, count),
            ..Tables::new()
        }
    })
}

fn routes(rt: &impl Print) -> io::Result<()> {
    let asked = [
        "4 routes",
        "5 routes",
        "a route of prefix 33",
        "one that is not in use",
    ];
    with_tables(rt, asked, |prefix, count| {
        let entry = Route {
            network: OFFERED,
            prefix,
            router: OFFERED,
            dhcp: false,
        };
        Tables {
            routes: table_of(entry, count),
            ..Tables::new()
        }
    })
}

// Tables by the prefix of their entries and how many there are.
fn with_tables<F: Fn(u8, usize) -> Tables>(
    rt: &impl Print,
    asked: [&str; 4],
    tables: F,
) -> io::Result<()>
    requires { F.IsAlwaysCallable tables }
{
    let given = [(24, 4), (24, 5), (33, 1), (33, 0)];
    for (asked, (prefix, count)) in asked.into_iter().zip(given) {
        let calls = Calls::on(held(), tables(prefix, count));
        println!(rt; "{asked}: {calls}")?;
    }
    Ok(())
}
