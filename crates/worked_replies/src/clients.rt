// Clients that the examples begin with.
use client::Client;
use machine::ClientState;
use made::{DISCOVERING, REQUESTING};
use post::in_state;

pub fn init() -> Client {
    in_state(ClientState::Init)
}

pub fn discovering() -> Client {
    in_state(ClientState::Discovering(DISCOVERING))
}

pub fn requesting() -> Client {
    in_state(ClientState::Requesting(REQUESTING))
}

// Since a plain ACK at 0.
pub fn renewing() -> Client {
    post::renewing(&made::ack(&[]))
}
