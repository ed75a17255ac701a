// Settings: what creation says of them, then what each call gives on a client that holds a lease under them.
use crate::calls::Calls;
use crate::clients::{one_by_hand, plain_ack};
use client::{Client, Session};
use clock::Duration;
use lease::DhcpLease;
use machine::ClientState;
use made::{PLAIN, Refused, YesNo, with};
use post::renewing;
use settings::{Medium, Settings};
use std::io;

pub fn examples(rt: &impl Print) -> io::Result<()> {
    media(rt)?;
    sizes(rt)?;
    names(rt)?;
    lists(rt)?;
    extras(rt)?;
    maxima(rt)?;
    lengths(rt)?;
    order(rt)?;
    created(rt)?;
    refused(rt)
}

fn under(rt: &impl Print, asked: &str, settings: Settings) -> io::Result<()> {
    let held = Client {
        settings,
        ..renewing(&plain_ack())
    };
    let calls = Calls::on(held, one_by_hand());
    match Client::new(settings, false) {
        Ok(_) => println!(rt; "{asked}: created: {calls}"),
        Err(refusal) => println!(rt; "{asked}: {}: {calls}", Refused(refusal)),
    }
}

// "1 medium not Ethernet: medium Ip"
fn media(rt: &impl Print) -> io::Result<()> {
    for (asked, medium) in [
        ("medium Ethernet", Medium::Ethernet),
        ("medium Ip", Medium::Ip),
        ("medium IEEE 802.15.4", Medium::Ieee802154),
    ] {
        under(rt, asked, Settings { medium, ..PLAIN })?;
    }
    Ok(())
}

// "2 MTU outside 576 to 1,500: 575"
fn sizes(rt: &impl Print) -> io::Result<()> {
    for (asked, mtu) in [
        ("MTU 575", 575),
        ("MTU 576", 576),
        ("MTU 1,500", 1500),
        ("MTU 1,501", 1501),
    ] {
        under(rt, asked, Settings { mtu, ..PLAIN })?;
    }
    Ok(())
}

// "3 name over 63 bytes: 64 bytes"
fn names(rt: &impl Print) -> io::Result<()> {
    for (asked, name_len) in [("name of 63 octets", 63), ("name of 64 octets", 64)] {
        under(rt, asked, Settings { name_len, ..PLAIN })?;
    }
    Ok(())
}

// "4 request list over 64: 65 codes"
fn lists(rt: &impl Print) -> io::Result<()> {
    for (asked, listed, list_len) in [
        ("an empty list", true, 0),
        ("list of 64 codes", true, 64),
        ("list of 65 codes", true, 65),
        ("65 codes behind no list", false, 65),
    ] {
        let settings = Settings {
            listed,
            list_len,
            ..PLAIN
        };
        under(rt, asked, settings)?;
    }
    Ok(())
}

// "5 extra options over 255 bytes or not whole items (kind, length, data): 12, 2, 65". There 0 is no padding and 255 no end.
fn extras(rt: &impl Print) -> io::Result<()> {
    for (asked, kind, length, extra_len) in [
        ("extra options 12, 2, 65", 12, 2, 3),
        ("extra options 12, 1, 65", 12, 1, 3),
        ("extra options 12", 12, 1, 1),
        ("extra options 43, 253, and 253 octets", 43, 253, 255),
        ("extra options of 256 octets", 43, 253, 256),
        ("extra options 0", 0, 0, 1),
        ("extra options 0, 1, 65", 0, 1, 3),
        ("extra options 255", 255, 0, 1),
        ("extra options 255, 0", 255, 0, 2),
    ] {
        let settings = Settings {
            extra: extra(kind, length),
            extra_len,
            ..PLAIN
        };
        under(rt, asked, settings)?;
    }
    Ok(())
}

// Extra options that begin with a kind, a length and 65.
fn extra(kind: u8, length: u8) -> [u8; 255] {
    with([0; 255], 0, &[kind, length, 65])
}

// "6 maximum over 1,073,741,824 ms: 1,073,741,825"
fn maxima(rt: &impl Print) -> io::Result<()> {
    for (asked, capped, millis) in [
        ("maximum 1,073,741,824", true, 1073741824),
        ("maximum 1,073,741,825", true, 1073741825),
        ("1,073,741,825 behind no maximum", false, 1073741825),
    ] {
        let settings = Settings {
            capped,
            maximum: Duration { millis },
            ..PLAIN
        };
        under(rt, asked, settings)?;
    }
    Ok(())
}

// Name, list and extra options as long as can be: a message of 240 + 3 (53) + 9 (61) + 65 (12) + 6 (50) + 6 (54) + 4 (57)
// + 66 (55) + 255 + 1 = 655 octets.
fn full(mtu: u16) -> Settings {
    Settings {
        mtu,
        name_len: 63,
        listed: true,
        list_len: 64,
        extra: extra(43, 253),
        extra_len: 255,
        ..PLAIN
    }
}

// "7 longest message over MTU - 28: MTU 576, all lists full (655)"; 655 + 28 is 683.
fn lengths(rt: &impl Print) -> io::Result<()> {
    under(rt, "MTU 576, all lists full", full(576))?;
    under(rt, "MTU 682, all lists full", full(682))?;
    under(rt, "MTU 683, all lists full", full(683))
}

// "Creation tests 1 to 7 in order": each of these is mended in one place more than the one before it.
fn order(rt: &impl Print) -> io::Result<()> {
    let mut settings = Settings {
        medium: Medium::Ip,
        mtu: 575,
        name_len: 64,
        list_len: 65,
        extra_len: 256,
        capped: true,
        maximum: Duration { millis: 1073741825 },
        ..full(575)
    };
    under(rt, "wrong in all", settings)?;
    settings.medium = Medium::Ethernet;
    under(rt, "wrong from 2 on", settings)?;
    settings.mtu = 576;
    under(rt, "wrong from 3 on", settings)?;
    settings.name_len = 63;
    under(rt, "wrong from 4 on", settings)?;
    settings.list_len = 64;
    under(rt, "wrong from 5 on", settings)?;
    settings.extra_len = 255;
    under(rt, "wrong from 6 on", settings)?;
    settings.capped = false;
    under(rt, "wrong in 7", settings)
}

fn created(rt: &impl Print) -> io::Result<()> {
    let settings = full(1500);
    let expected = Client {
        settings,
        ignore_naks: true,
        session: Session {
            state: ClientState::Init,
            transaction_id: 1,
        },
        lease: DhcpLease::zero(),
    };
    let created = Client::new(settings, true) == Ok(expected);
    println!(rt;
        "after creation: Init, id 1, lease all zero, settings as given: {}",
        YesNo(created)
    )
}

// Who goes on without a client has one that is all zero, and its MTU of 0 has each call refused.
fn refused(rt: &impl Print) -> io::Result<()> {
    let refused = Client::or_zero(Client::new(full(576), true));
    let zero = Client {
        settings: Settings::zero(),
        ignore_naks: false,
        session: Session {
            state: ClientState::Init,
            transaction_id: 0,
        },
        lease: DhcpLease::zero(),
    };
    println!(rt;
        "after a refusal the client is all zero: {}",
        YesNo(refused == zero)
    )?;
    println!(rt;
        "a client that was refused: {}",
        Calls::on(refused, one_by_hand())
    )
}
