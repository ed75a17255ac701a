// ACKs in Renewing: what they change of a lease that is held, and that an equal one moves the moments alone.
use crate::calls::Post;
use crate::start::{ack, awaiting, held};
use client::{Client, Session};
use clock::Instant;
use machine::{ClientState, RenewState};
use made::with;
use std::io;
use tables::Tables;

pub fn examples(rt: &impl Print) -> io::Result<()> {
    changes(rt)?;
    unfitting(rt)?;
    rebound(rt)?;
    late(rt)
}

// One run: the generation counts each change, and purging follows address and prefix. Option 51 says 120 s, as none would.
fn changes(rt: &impl Print) -> io::Result<()> {
    let wider = with(with_router(1), 251, &[255, 255, 0, 0]);
    let other = with(with_router(2), 251, &[255, 255, 0, 0]);
    let moved = with(other, 16, &[10, 0, 0, 51]);
    let replies = [
        ("equal ACK 7 ms on", ack(&[])),
        ("option 51 added", ack(&[51, 4, 0, 0, 0, 120])),
        ("router changed", with_router(1)),
        ("prefix changed", wider),
        ("address and router changed", moved),
    ];
    let mut post = awaiting(Tables::new()).told(rt, "first ACK", &ack(&[]), 0)?;
    for (asked, reply) in replies {
        post = post.told(rt, asked, &reply, 7)?;
    }
    post.reset(rt, "reset")?.reset(rt, "another reset")?;
    Ok(())
}

// An ACK with option 51 of 120 s and router 10.0.0.d.
fn with_router(d: u8) -> [u8; 600] {
    ack(&[51, 4, 0, 0, 0, 120, 3, 4, 10, 0, 0, d])
}

// An option 100 of 239 octets fills the store, so that the option 51 behind it does not tell two leases apart.
fn unfitting(rt: &impl Print) -> io::Result<()> {
    let long = ack(&[100, 239]);
    let timed = with(long, 496, &[51, 4, 0, 0, 14, 16]);
    awaiting(Tables::new())
        .told(rt, "store full, no L", &long, 0)?
        .told(rt, "store full, L 3,600", &timed, 10)?;
    Ok(())
}

// "ends rebinding as any accepted ACK does". The state is that after polls at 60 s and 105 s.
fn rebound(rt: &impl Print) -> io::Result<()> {
    let state = ClientState::Renewing(RenewState {
        renew_at: Instant { millis: 105000 },
        rebind_at: Instant { millis: 165000 },
        expires_at: Instant { millis: 120000 },
        rebinding: true,
    });
    let post = held();
    let session = Session {
        state,
        ..post.client.session
    };
    let client = Client {
        session,
        ..post.client
    };
    Post { client, ..post }.told(rt, "equal ACK at 106 s, rebinding", &ack(&[]), 106000)?;
    Ok(())
}

// Expiry is a poll's: without one, an ACK long after it is taken.
fn late(rt: &impl Print) -> io::Result<()> {
    held().told(rt, "equal ACK 500 s after expiry", &ack(&[]), 620000)?;
    Ok(())
}
