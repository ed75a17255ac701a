// Look-ups: the lease, a stored option, the state. Without a lease there is none to be looked up, whatever was left.
use crate::leases::long_option;
use crate::shown::{Times, Whole};
use client::Client;
use lease::DhcpLease;
use machine::ClientState;
use made::{DISCOVERING, Maybe, REQUESTING, Shown, ack, answered};
use post::{in_state, renewing};
use reasons::Refusal;
use std::{fmt, io};
use wire::Place;

pub fn examples(rt: &impl Print) -> io::Result<()> {
    skipped(rt)?;
    full_store(rt)?;
    looked_up(rt)
}

// Option 100 is skipped. 53, 54 and 1 take 15 octets, and their data begin at 2, 5 and 11.
fn skipped(rt: &impl Print) -> io::Result<()> {
    got(
        rt,
        renewing(&long_option(240)),
        &[
            ("option 53", 53),
            ("option 54", 54),
            ("option 1", 1),
            ("option 100 of 240 octets", 100),
            ("option 101 behind it", 101),
        ],
    )
}

fn full_store(rt: &impl Print) -> io::Result<()> {
    got(
        rt,
        renewing(&long_option(239)),
        &[
            ("option 100 of 239 octets", 100),
            ("option 101 behind it", 101),
        ],
    )
}

fn got(rt: &impl Print, client: Client, rows: &[(&str, u8)]) -> io::Result<()> {
    for &(asked, kind) in rows {
        let place = client.get(kind).map(|place| Maybe(place.map(Shown)));
        answered(rt, asked, place)?;
    }
    Ok(())
}

fn looked_up(rt: &impl Print) -> io::Result<()> {
    let held = renewing(&ack(&[]));
    for (asked, state) in [
        ("in Init", ClientState::Init),
        ("in Discovering", ClientState::Discovering(DISCOVERING)),
        ("in Requesting", ClientState::Requesting(REQUESTING)),
        ("in Renewing", held.session.state),
    ] {
        let lease = held.lease;
        look_up(
            rt,
            asked,
            Client {
                lease,
                ..in_state(state)
            },
        )?;
    }
    Ok(())
}

fn look_up(rt: &impl Print, asked: &str, client: Client) -> io::Result<()> {
    answered(rt, asked, LookUps::of(client))
}

// The state and the lease, then option 53.
#[derive(Clone, Copy)]
struct LookUps {
    state: ClientState,
    lease: Option<DhcpLease>,
    option: Option<Place>,
}

impl LookUps {
    fn of(client: Client) -> Result<LookUps, Refusal> {
        Ok(LookUps {
            state: client.state()?,
            lease: client.lease()?,
            option: client.get(53)?,
        })
    }
}

impl fmt::Display for LookUps {
    fn fmt<W: fmt::Write>(&self, f: &mut fmt::Formatter<W>) -> fmt::Result {
        let state = Times(self.state);
        let held = if self.lease.is_some() {
            "held"
        } else {
            "not held"
        };
        // zeros stand for no lease
        let lease = Whole(self.lease.unwrap_or(DhcpLease::zero()));
        let option = Maybe(self.option.map(Shown));
        write!(f, "{state}, {held}: {lease}, option 53: {option}")
    }
}
