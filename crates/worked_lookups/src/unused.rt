// What is never read: behind a no, and places that are not in use, of settings, leases and tables. And what calls leave there.
use crate::start::{AWAITING, client, created, lease, renewing, settings};
use client::{Client, Processed, WasReset};
use clock::{Duration, Instant};
use lease::DhcpLease;
use machine::ClientState;
use made::{DISCOVERING, HEADER, OFFERED, SERVER, YesNo, test};
use message::Endpoints;
use octets::address::{BROADCAST, UNSPECIFIED};
use octets::codes::{ACK, DISCOVER, NAK, OFFER};
use reasons::Refusal;
use settings::Settings;
use std::io;
use tables::{IfaceAddr, Route, Table, Tables};

pub fn examples(rt: &impl Print) -> io::Result<()> {
    at_first(rt)?;
    behind_a_no(rt)?;
    held(rt)?;
    tables_kept(rt)?;
    left(rt)
}

// "all zero after creation"; a client that was refused is all zero too.
fn at_first(rt: &impl Print) -> io::Result<()> {
    let fresh = created(settings(7));
    test(
        rt,
        "after creation: id 1, the lease all zero",
        fresh.session.transaction_id == 1 && is_zero(fresh.lease),
    )?;
    let none = created(Settings::zero());
    test(
        rt,
        "after a refusal: id 0, NAKs not ignored, the lease all zero",
        none.session.transaction_id == 0 && !none.ignore_naks && is_zero(none.lease),
    )
}

fn is_zero(lease: DhcpLease) -> bool {
    lease == DhcpLease::zero()
}

// Whether places of a lease that are not in use hold this octet, or number.
fn has_unused(lease: DhcpLease, octet: u8) -> bool {
    let stored = lease.options.bytes;
    stored[21] == octet && stored[255] == octet && lease.dns.list[2] == u32::from(octet)
}

// 65 codes behind no list, 1,073,741,825 ms behind no maximum, and octets of 7 in every place that is not in use.
fn unread() -> Settings {
    Settings {
        list_len: 65,
        maximum: Duration { millis: 1073741825 },
        ..settings(7)
    }
}

fn behind_a_no(rt: &impl Print) -> io::Result<()> {
    let came = match Client::new(unread(), false) {
        Ok(_) => "created",
        Err(_) => "refused",
    };
    println!(rt;
        "65 codes behind no list, 1,073,741,825 ms behind no maximum, 7 in all places not in use: {came}"
    )?;
    test(
        rt,
        "its Discover is that of the same settings with 0 there",
        same_discover(),
    )?;
    let after = told(unread(), AWAITING, ACK, &[51, 4, 0, 0, 14, 16]);
    test(
        rt,
        "its lease of 3,600 s lasts so long",
        lasts(after.client.session.state),
    )
}

// The message that a poll would send, of id 3. Polls themselves are records.
fn discover(settings: Settings) -> Result<[u8; 300], Refusal> {
    let mut buf = [165u8; 300];
    let ends = Endpoints {
        source: UNSPECIFIED,
        destination: BROADCAST,
    };
    let discover = settings.message(DISCOVER, 3, UNSPECIFIED, None, None);
    settings.write(discover, true, ends, &mut buf)?;
    Ok(buf)
}

// Octets 6 and 7 are the checksum of the Discover of id 3, 0x8081, worked out from RFC 768 in oracle/corners/document-01.txt.
fn same_discover() -> bool {
    match (discover(unread()), discover(settings(0))) {
        (Ok(a), Ok(b)) => a == b && a[6] == 0x80 && a[7] == 0x81 && a[270] == 165,
        _ => false,
    }
}

fn lasts(state: ClientState) -> bool {
    matches!(state, ClientState::Renewing(s) if s.expires_at.millis == 3600000)
}

// What a reply of a type makes of a client with these settings, in a state. Its lease has 7 in all places that are not in use; its
// tables have no entry in use, and entries of prefix 33 in the other places.
fn told(settings: Settings, state: ClientState, kind: u8, options: &[u8]) -> Processed {
    let mut reply: [u8; 300] = HEADER.ack(options);
    reply[242] = kind;
    client(settings, state, lease(7)).process(wide(), SERVER, &reply, Instant::ZERO)
}

fn lease_told(state: ClientState, kind: u8, options: &[u8]) -> DhcpLease {
    told(settings(0), state, kind, options).client.lease
}

fn tables_told(state: ClientState, options: &[u8]) -> Tables {
    told(settings(0), state, ACK, options).tables
}

fn was_reset(state: ClientState) -> WasReset {
    client(settings(0), state, lease(7)).reset(wide())
}

fn wide() -> Tables {
    Tables {
        ip_addrs: Table {
            entries: [IfaceAddr {
                address: OFFERED,
                prefix: 33,
                dhcp: true,
            }; 4],
            count: 0,
        },
        routes: Table {
            entries: [Route {
                network: 0,
                prefix: 33,
                router: OFFERED,
                dhcp: true,
            }; 4],
            count: 0,
        },
        config_generation: 0,
    }
}

// The lease equals the ACK's, and stays as it came. Another ACK writes it whole.
fn held(rt: &impl Print) -> io::Result<()> {
    test(
        rt,
        "a lease with 7 in all places not in use: an equal ACK leaves the generation",
        tables_told(renewing(), &[]).config_generation == 0,
    )?;
    test(
        rt,
        "and the places as they came",
        has_unused(lease_told(renewing(), ACK, &[]), 7),
    )?;
    test(
        rt,
        "an ACK with option 51 leaves zeros in them",
        has_unused(lease_told(renewing(), ACK, &[51, 4, 0, 0, 0, 120]), 0),
    )
}

// A table whose value changes is written anew, with zeros after its entries; another is left as it came.
fn tables_kept(rt: &impl Print) -> io::Result<()> {
    println!(rt;
        "prefix 33 at places of the tables that are not in use: how many entries then, and the prefix at the fourth place"
    )?;
    let routed = tables_told(AWAITING, &[3, 4, 10, 0, 0, 1]);
    let left = [
        ("an ACK", tables_told(AWAITING, &[])),
        ("an ACK with a router", routed),
        ("an equal ACK", tables_told(renewing(), &[])),
        ("a reset in Renewing", was_reset(renewing()).tables),
        ("a reset in Requesting", was_reset(AWAITING).tables),
    ];
    for (asked, tables) in left {
        let addresses = tables.ip_addrs;
        let routes = tables.routes;
        let last = addresses.entries[3];
        let end = routes.entries[3];
        println!(rt;
            "{asked}: addresses {} and {}, routes {} and {}",
            addresses.count, last.prefix, routes.count, end.prefix
        )?;
    }
    Ok(())
}

// A lease that was left in a state other than Renewing stays as it came; leaving Renewing makes it all zero.
fn left(rt: &impl Print) -> io::Result<()> {
    println!(rt; "a lease left in another state than Renewing, with 7 in all places not in use")?;
    let init = ClientState::Init;
    let discovering = ClientState::Discovering(DISCOVERING);
    let kept = [
        ("a reset in Init", was_reset(init).client.lease),
        (
            "a reset in Discovering",
            was_reset(discovering).client.lease,
        ),
        ("a reset in Requesting", was_reset(AWAITING).client.lease),
        (
            "an OFFER in Discovering",
            lease_told(discovering, OFFER, &[]),
        ),
        ("a NAK in Requesting", lease_told(AWAITING, NAK, &[])),
    ];
    for (asked, lease) in kept {
        let holds = lease.prefix == 24 && has_unused(lease, 7);
        println!(rt; "{asked} leaves it as it came: {}", YesNo(holds))?;
    }
    let cleared = [
        ("a reset in Renewing", was_reset(renewing()).client.lease),
        ("a NAK in Renewing", lease_told(renewing(), NAK, &[])),
    ];
    for (asked, lease) in cleared {
        println!(rt; "{asked} leaves it all zero: {}", YesNo(is_zero(lease)))?;
    }
    Ok(())
}
