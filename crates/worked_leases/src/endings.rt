// NAKs and resets. In Renewing the lease goes; in another state what was left of one stays as it came.
use crate::start::{held, left, typed};
use machine::ClientState;
use made::{DISCOVERING, REQUESTING};
use octets::codes::NAK;
use std::io;

pub fn examples(rt: &impl Print) -> io::Result<()> {
    let discovering = ClientState::Discovering(DISCOVERING);
    let requesting = ClientState::Requesting(REQUESTING);
    let nak = typed(NAK, &[]);
    left(requesting).told(rt, "NAK in Requesting", &nak, 0)?;
    held().told(rt, "NAK in Renewing", &nak, 0)?;
    let states = [
        ("reset in Init", ClientState::Init),
        ("reset in Discovering", discovering),
        ("reset in Requesting", requesting),
    ];
    for (asked, state) in states {
        left(state).reset(rt, asked)?;
    }
    Ok(())
}
