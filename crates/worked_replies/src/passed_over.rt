// Replies that are passed over, by the number of each check.
use crate::clients::{discovering, init, renewing, requesting};
use crate::taken::Taken;
use client::Client;
use made::{HEADER, Header, SERVER, ack, with};
use octets::codes::{ACK, NAK, OFFER};
use octets::span::up_to;
use std::io;
use std::net::Ipv4Addr;

pub fn examples(rt: &impl Print) -> io::Result<()> {
    short(rt)?;
    headers(rt)?;
    types(rt)?;
    senders(rt)?;
    identifiers(rt)?;
    not_awaited(rt)?;
    naks_ignored(rt)?;
    offers(rt)?;
    masks(rt)?;
    addresses(rt)?;
    order(rt)
}

// What a client says to a reply. Client, source and reply stay three, as its process has them.
fn tried(
    rt: &impl Print,
    asked: &str,
    client: Client,
    source: u32,
    reply: &[u8],
) -> io::Result<()> {
    let taken = Taken::of(client, source, reply);
    println!(rt; "{asked}: {taken}")
}

// In Requesting, where an ACK is awaited.
fn requested(rt: &impl Print, asked: &str, reply: [u8; 600]) -> io::Result<()> {
    tried(rt, asked, requesting(), SERVER, &reply)
}

// "20 under 240 bytes (239)"; 240 have no option 53.
fn short(rt: &impl Print) -> io::Result<()> {
    let good = ack(&[]);
    for (asked, count) in [
        ("an ACK of 255 octets", 255),
        ("its first 240 octets", 240),
        ("its first 239 octets", 239),
        ("no octets", 0),
    ] {
        tried(rt, asked, requesting(), SERVER, up_to(&good, count))?;
    }
    Ok(())
}

// "21 header (opcode 1)", and what else of it is looked at: a good ACK but for one octet
fn headers(rt: &impl Print) -> io::Result<()> {
    for (asked, at, octet) in [
        ("opcode 1", 0, 1),
        ("hardware type 6", 1, 6),
        ("hardware length 16", 2, 16),
        ("another cookie", 239, 98),
    ] {
        requested(rt, asked, with(ack(&[]), at, &[octet]))?;
    }
    Ok(())
}

// "22 type (no option 53)": a reply with nothing but these options
fn types(rt: &impl Print) -> io::Result<()> {
    requested(rt, "no option 53", HEADER.reply(&[54, 4, 10, 0, 0, 1]))?;
    requested(
        rt,
        "option 53 of 2 octets, then a good one",
        HEADER.reply(&[53, 2, 5, 5, 53, 1, 5]),
    )?;
    requested(
        rt,
        "option 53 behind the end mark",
        HEADER.reply(&[255, 53, 1, 5]),
    )
}

// "23 hardware address; 24 id"
fn senders(rt: &impl Print) -> io::Result<()> {
    requested(rt, "for 02:00:00:00:00:02", with(ack(&[]), 33, &[2]))?;
    requested(rt, "id 2", with(ack(&[]), 7, &[2]))?;
    requested(rt, "id 16,777,217", with(ack(&[]), 4, &[1]))
}

// "25 identifier (3 bytes)"; of longer data the first 4 octets count.
fn identifiers(rt: &impl Print) -> io::Result<()> {
    requested(rt, "no identifier", HEADER.reply(&[53, 1, 5]))?;
    requested(
        rt,
        "identifier of 3 octets",
        HEADER.reply(&[53, 1, 5, 54, 3, 10, 0, 0]),
    )?;
    requested(
        rt,
        "identifier of 5 octets, no mask",
        HEADER.reply(&[53, 1, 5, 54, 5, 10, 0, 0, 1, 9]),
    )
}

// "26 not awaited (ACK in Init)". Of the values of option 53 a client awaits 2, 5 and 6.
fn not_awaited(rt: &impl Print) -> io::Result<()> {
    each(
        rt,
        init(),
        &[
            ("ACK in Init", ACK),
            ("OFFER in Init", OFFER),
            ("NAK in Init", NAK),
        ],
    )?;
    each(
        rt,
        discovering(),
        &[
            ("ACK in Discovering", ACK),
            ("NAK in Discovering", NAK),
            ("OFFER in Discovering", OFFER),
        ],
    )?;
    each(
        rt,
        requesting(),
        &[("OFFER in Requesting", OFFER), ("NAK in Requesting", NAK)],
    )?;
    each(
        rt,
        renewing(),
        &[
            ("ACK in Renewing", ACK),
            ("OFFER in Renewing", OFFER),
            ("NAK in Renewing", NAK),
        ],
    )?;
    each(rt, requesting(), &[("type 0 in Requesting", 0)])?;
    each(rt, discovering(), &[("type 1 in Discovering", 1)])?;
    each(rt, requesting(), &[("type 3 in Requesting", 3)])?;
    each(
        rt,
        renewing(),
        &[("type 4 in Renewing", 4), ("type 7 in Renewing", 7)],
    )?;
    each(rt, requesting(), &[("type 255 in Requesting", 255)])
}

// Replies of these types to a client. An ACK here is a good one, any other reply has nothing but its identifier.
fn each(rt: &impl Print, client: Client, cases: &[(&str, u8)]) -> io::Result<()> {
    for (asked, kind) in cases {
        let reply = if *kind == ACK {
            ack(&[])
        } else {
            HEADER.typed(*kind, &[])
        };
        tried(rt, asked, client, SERVER, &reply)?;
    }
    Ok(())
}

// "under `ignore_naks` it is passed over as 26"
fn naks_ignored(rt: &impl Print) -> io::Result<()> {
    for (asked, client, kind) in [
        ("NAK in Requesting, ignored", requesting(), NAK),
        ("NAK in Renewing, ignored", renewing(), NAK),
        ("ACK without mask, NAKs ignored", renewing(), ACK),
    ] {
        let reply: [u8; 600] = HEADER.typed(kind, &[]);
        let ignoring = Client {
            ignore_naks: true,
            ..client
        };
        tried(rt, asked, ignoring, SERVER, &reply)?;
    }
    Ok(())
}

// "27 OFFER address or source (0.0.0.0)"
fn offers(rt: &impl Print) -> io::Result<()> {
    for your in [0, 0xdf000001, 0xe0000001, 0xef000001, 0xf0000001] {
        let offer: [u8; 600] = Header { your, ..HEADER }.typed(OFFER, &[]);
        let taken = Taken::of(discovering(), SERVER, &offer);
        println!(rt; "OFFER of {}: {taken}", Ipv4Addr::from(your))?;
    }
    for source in [0, 0xffffffff, 0xfffffffe, 0xe0000000] {
        let offer: [u8; 600] = HEADER.typed(OFFER, &[]);
        let taken = Taken::of(discovering(), source, &offer);
        println!(rt; "OFFER from {}: {taken}", Ipv4Addr::from(source))?;
    }
    Ok(())
}

// "28 mask (absent); 29 mask (255.0.255.0)": an ACK with these options behind its identifier
fn masks(rt: &impl Print) -> io::Result<()> {
    requested(rt, "no mask", HEADER.typed(ACK, &[]))?;
    requested(
        rt,
        "mask of 3 octets",
        HEADER.typed(ACK, &[1, 3, 255, 255, 255]),
    )?;
    requested(
        rt,
        "mask of 5 octets",
        HEADER.typed(ACK, &[1, 5, 255, 255, 255, 0, 7]),
    )?;
    requested(
        rt,
        "mask 255.0.255.0",
        HEADER.typed(ACK, &[1, 4, 255, 0, 255, 0]),
    )?;
    requested(rt, "mask 0.0.0.0", HEADER.typed(ACK, &[1, 4, 0, 0, 0, 0]))
}

// "30 ACK your-address (0.0.0.0)"; its source is not looked at.
fn addresses(rt: &impl Print) -> io::Result<()> {
    for your in [0, 0xe0000001, 0xf0000001] {
        let ack: [u8; 600] = Header { your, ..HEADER }.ack(&[]);
        let taken = Taken::of(requesting(), SERVER, &ack);
        println!(rt; "ACK of {}: {taken}", Ipv4Addr::from(your))?;
    }
    tried(rt, "ACK from 0.0.0.0", requesting(), 0, &ack(&[]))
}

// A reply of the address 0.0.0.0.
const NOWHERE: Header = Header { your: 0, ..HEADER };

// "Checks in order: length; magic, ..., opcode 2; message type; client hardware address; transaction id; server identifier;
// then the state." Of each two one after another both are wrong.
fn order(rt: &impl Print) -> io::Result<()> {
    let opcode = with(ack(&[]), 0, &[1]);
    let short = up_to(&opcode, 239);
    tried(rt, "239 octets, opcode 1", requesting(), SERVER, short)?;
    requested(
        rt,
        "opcode 1, no option 53",
        with(HEADER.reply(&[]), 0, &[1]),
    )?;
    requested(
        rt,
        "no option 53, another hardware address",
        with(HEADER.reply(&[]), 33, &[2]),
    )?;
    requested(
        rt,
        "another hardware address and id",
        with(with(ack(&[]), 33, &[2]), 7, &[2]),
    )?;
    let nameless: [u8; 600] = HEADER.reply(&[53, 1, 5]);
    requested(rt, "another id, no identifier", with(nameless, 7, &[2]))?;
    tried(rt, "no identifier, in Init", init(), SERVER, &nameless)?;
    requested(
        rt,
        "OFFER of 0.0.0.0 in Requesting",
        NOWHERE.typed(OFFER, &[]),
    )?;
    requested(rt, "no mask, ACK of 0.0.0.0", NOWHERE.typed(ACK, &[]))?;
    requested(
        rt,
        "mask 255.0.255.0, ACK of 0.0.0.0",
        NOWHERE.typed(ACK, &[1, 4, 255, 0, 255, 0]),
    )
}
