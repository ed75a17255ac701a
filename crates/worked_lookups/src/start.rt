// Settings, states, leases and clients that the examples begin with.
use client::Client;
use clock::Instant;
use lease::DhcpLease;
use machine::{ClientState, RenewState};
use made::{OFFERED, PLAIN, REQUESTING, SERVERS, with};
use post::in_state;
use settings::Settings;
use wire::{Addresses, Store};

// Plain settings. All octets that are not in use are the same one.
pub fn settings(unused: u8) -> Settings {
    Settings {
        name: [unused; 63],
        list: [unused; 64],
        extra: [unused; 255],
        ..PLAIN
    }
}

// A client with these settings, which passes NAKs over; all zero where they are refused.
pub fn created(settings: Settings) -> Client {
    Client::or_zero(Client::new(settings, true))
}

// Due at 5,000, after one Request.
pub const AWAITING: ClientState = ClientState::Requesting(REQUESTING);

// The state after a plain ACK at 0.
pub fn renewing() -> ClientState {
    ClientState::Renewing(RenewState {
        renew_at: Instant { millis: 60000 },
        rebind_at: Instant { millis: 105000 },
        expires_at: Instant { millis: 120000 },
        rebinding: false,
    })
}

// What a plain ACK's store holds: 53 of type 5, 54 of 10.0.0.1, 1 of 255.255.255.0.
const STORED: [u8; 15] = [53, 1, 5, 54, 4, 10, 0, 0, 1, 1, 4, 255, 255, 255, 0];

// The lease of a plain ACK. All that is not in use is the same octet, or number.
pub fn lease(unused: u8) -> DhcpLease {
    DhcpLease {
        server: SERVERS,
        address: OFFERED,
        prefix: 24,
        router: None,
        dns: Addresses {
            list: [u32::from(unused); 3],
            count: 0,
        },
        options: Store {
            bytes: with([unused; 256], 0, &STORED),
            len: STORED.len(),
        },
    }
}

// A client of id 1, which heeds NAKs.
pub fn client(settings: Settings, state: ClientState, lease: DhcpLease) -> Client {
    Client {
        settings,
        lease,
        ..in_state(state)
    }
}
