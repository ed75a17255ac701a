// What the lease of an ACK is made of: address and prefix, server, router, DNS servers, and how many octets are stored.
use crate::shown::Whole;
use made::{HEADER, ack, with};
use octets::codes::ACK;
use octets::span::up_to;
use post::renewing;
use std::io;

pub fn examples(rt: &impl Print) -> io::Result<()> {
    masks(rt)?;
    routers(rt)?;
    name_servers(rt)?;
    walks(rt)?;
    stores(rt)
}

fn leased(rt: &impl Print, asked: &str, reply: &[u8]) -> io::Result<()> {
    let lease = Whole(renewing(reply).lease);
    println!(rt; "{asked}: {lease}")
}

// An ACK with no options but these behind its identifier.
fn maskless(options: &[u8]) -> [u8; 600] {
    HEADER.typed(ACK, options)
}

// An ACK with an option 100 of so many octets, then 101.
pub fn long_option(count: u8) -> [u8; 600] {
    with(ack(&[100, count]), 257 + count as usize, &[101, 1, 7])
}

// "0.0.0.0 gives 0, 255.255.255.255 gives 32"; "takes the first 4 bytes of longer data".
fn masks(rt: &impl Print) -> io::Result<()> {
    leased(rt, "mask 0.0.0.0", &maskless(&[1, 4, 0, 0, 0, 0]))?;
    leased(
        rt,
        "mask 255.255.255.255",
        &maskless(&[1, 4, 255, 255, 255, 255]),
    )?;
    leased(
        rt,
        "mask of 5 octets",
        &maskless(&[1, 5, 255, 255, 255, 0, 7]),
    )
}

// "Router: first address, if unicast."
fn routers(rt: &impl Print) -> io::Result<()> {
    leased(rt, "router 10.0.0.1", &ack(&[3, 4, 10, 0, 0, 1]))?;
    leased(
        rt,
        "routers 0.0.0.0, 10.0.0.1",
        &ack(&[3, 8, 0, 0, 0, 0, 10, 0, 0, 1]),
    )?;
    leased(rt, "router of 5 octets", &ack(&[3, 5, 10, 0, 0, 4, 9]))?;
    leased(rt, "router of 3 octets", &ack(&[3, 3, 10, 0, 0]))
}

// "DNS: groups of 4, unicast only, first 3."
fn name_servers(rt: &impl Print) -> io::Result<()> {
    leased(
        rt,
        "DNS 0.0.0.0, 1.1.1.1, 224.0.0.1, 2.2.2.2 and 3 octets",
        &ack(&[
            6, 19, 0, 0, 0, 0, 1, 1, 1, 1, 224, 0, 0, 1, 2, 2, 2, 2, 9, 9, 9,
        ]),
    )?;
    leased(
        rt,
        "DNS 1.1.1.1, 2.2.2.2, 3.3.3.3, 4.4.4.4",
        &ack(&[6, 16, 1, 1, 1, 1, 2, 2, 2, 2, 3, 3, 3, 3, 4, 4, 4, 4]),
    )
}

// Padding and what follows the end mark are not stored, nor is an option that is cut short.
fn walks(rt: &impl Print) -> io::Result<()> {
    leased(
        rt,
        "padding, 12, padding, the end mark, 13",
        &ack(&[0, 0, 12, 1, 65, 0, 255, 13, 1, 66]),
    )?;
    let whole = ack(&[12, 4, 65, 66, 67, 68]);
    leased(rt, "12 cut short", up_to(&whole, 260))
}

// "An option that does not fit the store is skipped; a later, smaller one is still kept." 53, 54 and 1 take 15 octets; the data
// of option 100 begins at 257.
fn stores(rt: &impl Print) -> io::Result<()> {
    leased(rt, "option 100 of 240 octets, then 101", &long_option(240))?;
    leased(rt, "option 100 of 239 octets, then 101", &long_option(239))
}
