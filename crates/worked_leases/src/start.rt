// Posts and replies that the examples begin with.
use crate::calls::Post;
use client::{Client, Session};
use clock::Instant;
use lease::DhcpLease;
use machine::ClientState;
use made::{HEADER, Header, REQUESTING, SERVER};
use post::in_state;
use tables::Tables;

// The id of the client's last message, as the generator's state 0 draws it.
const ID: u32 = 3;

fn client(state: ClientState, lease: DhcpLease) -> Client {
    Client {
        session: Session {
            state,
            transaction_id: ID,
        },
        lease,
        ..in_state(state)
    }
}

// A post in Requesting.
pub fn awaiting(tables: Tables) -> Post {
    Post {
        client: client(ClientState::Requesting(REQUESTING), DhcpLease::zero()),
        tables,
    }
}

// A post that took this ACK at 0, with no other entry in its tables.
pub fn holding(ack: [u8; 600]) -> Post {
    let post = awaiting(Tables::new());
    Post::after(
        post.client
            .process(post.tables, SERVER, &ack, Instant::ZERO),
    )
}

// A post that took a plain ACK.
pub fn held() -> Post {
    holding(ack(&[]))
}

// A post that holds no lease, with empty tables, and a lease that was left in the client.
pub fn left(state: ClientState) -> Post {
    Post {
        client: client(state, held().client.lease),
        tables: Tables::new(),
    }
}

fn header() -> Header {
    Header { id: ID, ..HEADER }
}

// A reply to the client, with these options behind its identifier.
pub fn typed(kind: u8, options: &[u8]) -> [u8; 600] {
    header().typed(kind, options)
}

// An ACK to the client, with these options behind its mask; made's is to one of id 1.
pub fn ack(options: &[u8]) -> [u8; 600] {
    header().ack(options)
}
