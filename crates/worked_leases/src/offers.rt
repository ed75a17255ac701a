// An OFFER, the ACK that follows it, and whose lease it is.
use crate::start::{ack, awaiting, left, typed};
use machine::ClientState;
use made::{DISCOVERING, with};
use octets::codes::OFFER;
use std::io;
use tables::Tables;

// 10.0.0.77, another server.
const OTHER: u32 = 0x0a00004d;

pub fn examples(rt: &impl Print) -> io::Result<()> {
    offers(rt)?;
    servers(rt)
}

// "then Requesting, due now". The lease that was left is not touched.
fn offers(rt: &impl Print) -> io::Result<()> {
    let post = left(ClientState::Discovering(DISCOVERING));
    post.told(rt, "OFFER at 5,000", &typed(OFFER, &[]), 5000)?;
    Ok(())
}

// "The server identifier must be present, and is not compared"; the server stays the OFFER's. At 245 stands the identifier.
fn servers(rt: &impl Print) -> io::Result<()> {
    let other = with(ack(&[]), 245, &[10, 0, 0, 88]);
    awaiting(Tables::new())
        .told_by(
            rt,
            "ACK from 10.0.0.77 with identifier 10.0.0.88",
            OTHER,
            &other,
            0,
        )?
        .told(rt, "then ACK with identifier 10.0.0.1", &ack(&[]), 0)?;
    Ok(())
}
