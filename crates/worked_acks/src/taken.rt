// The client that takes an ACK.
use client::Client;
use clock::Instant;
use machine::ClientState;
use made::REQUESTING;
use post::{after_reply, in_state};
use settings::Settings;

// The client that took an ACK at a moment, in Requesting.
pub fn taken_at(moment: Instant, settings: Settings, ack: &[u8]) -> Client {
    let awaiting = Client {
        settings,
        ..in_state(ClientState::Requesting(REQUESTING))
    };
    after_reply(awaiting, ack, moment)
}
