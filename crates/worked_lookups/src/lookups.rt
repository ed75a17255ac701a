// Look-ups: the state, the lease, a stored option. Without a lease there is none to be looked up, whatever was left; on a client
// that is not whole each of the three is refused as NotWhole (9).
use crate::start::{AWAITING, client, created, lease, renewing, settings};
use client::Client;
use clock::Instant;
use lease::DhcpLease;
use machine::ClientState;
use made::{DISCOVERING, Maybe, Refused, Shown, altered, requesting, with};
use reasons::Refusal;
use settings::Settings;
use std::{fmt, io};
use wire::{Place, Store};

pub fn examples(rt: &impl Print) -> io::Result<()> {
    in_each_state(rt)?;
    broken(rt)?;
    left_broken(rt)?;
    under_settings(rt)?;
    codes(rt)
}

// What a look-up answers.
#[derive(Clone, Copy)]
struct Answer<T>(Result<T, Refusal>);

impl fmt::Display for Answer<ClientState> {
    fn fmt<W: fmt::Write>(&self, f: &mut fmt::Formatter<W>) -> fmt::Result {
        match self.0 {
            Ok(ClientState::Init) => f.write_str("Init"),
            Ok(ClientState::Discovering(s)) => write!(f, "Discovering to {}", s.retry_at.millis),
            Ok(ClientState::Requesting(s)) => write!(f, "Requesting, retry {}", s.tries.retry),
            Ok(ClientState::Renewing(s)) => write!(f, "Renewing to {}", s.expires_at.millis),
            Err(refusal) => write!(f, "{}", Refused(refusal)),
        }
    }
}

impl fmt::Display for Answer<Option<DhcpLease>> {
    fn fmt<W: fmt::Write>(&self, f: &mut fmt::Formatter<W>) -> fmt::Result {
        match self.0 {
            Ok(None) => f.write_str("no lease, prefix 0"),
            Ok(Some(lease)) => write!(f, "a lease, prefix {}", lease.prefix),
            Err(refusal) => write!(f, "lease {}, prefix 0", Refused(refusal)),
        }
    }
}

impl fmt::Display for Answer<Option<Place>> {
    fn fmt<W: fmt::Write>(&self, f: &mut fmt::Formatter<W>) -> fmt::Result {
        match self.0 {
            Ok(place) => write!(f, "{}", Maybe(place.map(Shown))),
            Err(refusal) => write!(f, "{}", Refused(refusal)),
        }
    }
}

fn look_up(rt: &impl Print, asked: &str, client: Client) -> io::Result<()> {
    let state = Answer(client.state());
    let held = Answer(client.lease());
    let option = Answer(client.get(53));
    println!(rt; "{asked}: {state}, {held}, option 53 {option}")
}

// Clients with plain settings, in these states with these leases.
fn look_up_each(rt: &impl Print, clients: &[(&str, ClientState, DhcpLease)]) -> io::Result<()> {
    for (asked, state, lease) in clients {
        look_up(rt, asked, client(settings(0), *state, *lease))?;
    }
    Ok(())
}

fn in_each_state(rt: &impl Print) -> io::Result<()> {
    let discovering = ClientState::Discovering(DISCOVERING);
    let clients = [
        ("a lease left in Init", ClientState::Init, lease(0)),
        ("a lease left in Discovering", discovering, lease(0)),
        ("a lease left in Requesting", AWAITING, lease(0)),
        ("a lease in Renewing", renewing(), lease(0)),
    ];
    look_up_each(rt, &clients)
}

// "a count over its limit, prefix over 32, stored options not whole items". 53, 1 is the beginning of an item.
fn broken(rt: &impl Print) -> io::Result<()> {
    let clients = [
        (
            "prefix 33 in Renewing",
            renewing(),
            altered(lease(0), 33, 0, 15),
        ),
        (
            "4 DNS servers in Renewing",
            renewing(),
            altered(lease(0), 24, 4, 15),
        ),
        (
            "53, 1 stored in Renewing",
            renewing(),
            altered(lease(0), 24, 0, 2),
        ),
    ];
    look_up_each(rt, &clients)
}

// The lease is "read in Renewing alone". A number of retries has no limit.
fn left_broken(rt: &impl Print) -> io::Result<()> {
    let discovering = ClientState::Discovering(DISCOVERING);
    let tried = requesting(Instant { millis: 5000 }, 900);
    let wrong = altered(lease(0), 33, 4, 257);
    let clients = [
        ("all that in Init", ClientState::Init, wrong),
        ("all that in Discovering", discovering, wrong),
        ("all that in Requesting, retry 900", tried, wrong),
    ];
    look_up_each(rt, &clients)
}

// "a setting that 1 to 7 refuse". A client that was refused is all zero, and so is its MTU.
fn under_settings(rt: &impl Print) -> io::Result<()> {
    let small = Settings {
        mtu: 575,
        ..settings(0)
    };
    let listed = Settings {
        listed: true,
        list_len: 65,
        ..settings(0)
    };
    let clients = [
        ("MTU 575", client(small, renewing(), lease(0))),
        ("list of 65 codes", client(listed, renewing(), lease(0))),
        ("a client that was refused", created(small)),
    ];
    for (asked, client) in clients {
        look_up(rt, asked, client)?;
    }
    Ok(())
}

// Behind the plain 15 octets: 12 of 65, 12 of 66 and 67, an empty 0, 255 of 9; their data begin at 17, 20, 24 and 26.
// In a store 0 is no padding and 255 no end.
fn codes(rt: &impl Print) -> io::Result<()> {
    let plain = lease(0);
    let more = [12, 1, 65, 12, 2, 66, 67, 0, 0, 255, 1, 9];
    let several = DhcpLease {
        options: Store {
            bytes: with(plain.options.bytes, 15, &more),
            len: 27,
        },
        ..plain
    };
    let holder = client(settings(0), renewing(), several);
    let twice = Answer(holder.get(12));
    let empty = Answer(holder.get(0));
    let last = Answer(holder.get(255));
    let none = Answer(holder.get(100));
    println!(rt;
        "stored: option 12, first of two, {twice}; option 0 {empty}; option 255 {last}; option 100 {none}"
    )
}
