// Clients that the examples begin with.
ghost use Rattle.std.specs.Prelude.{◌≡◌, false};
ghost use Rattle.client.specs.Calls.{calls};
ghost use Rattle.lease.specs.Leases.{no_lease};
ghost use Rattle.tables.specs.Tables.{empty_tables};
ghost use Rattle.machine.specs.declared.state.ClientState.TheVariants.{Requesting};

use client::{Client, Session};
use clock::Instant;
use machine::ClientState;
use made::{HEADER, PLAIN, REQUESTING, SERVER};
use tables::Tables;

// A client of plain settings in a state, which holds no lease and whose last message had id 1.
pub fn in_state(state: ClientState) -> Client
    ensures { result ≡ record { settings = PLAIN; ignore_naks = false; session = record { state = state; transaction_id = 1 }; lease = no_lease } }
{
    Client {
        settings: PLAIN,
        session: Session {
            state,
            transaction_id: HEADER.id,
        },
        ..Client::zero()
    }
}

// The client after a reply of the server's at a moment; its tables were empty.
pub fn after_reply(client: Client, reply: &[u8], moment: Instant) -> Client
    ensures { result ≡ (calls.process client empty_tables SERVER reply.now moment).client }
{
    client.process(Tables::new(), SERVER, reply, moment).client
}

// The client after an ACK at 0, which it awaited.
pub fn renewing(ack: &[u8]) -> Client
    ensures { result ≡ (calls.process (record { settings = PLAIN; ignore_naks = false; session = record { state = Requesting REQUESTING; transaction_id = 1 }; lease = no_lease }) empty_tables SERVER ack.now (record { millis = 0 })).client }
{
    let awaiting = in_state(ClientState::Requesting(REQUESTING));
    after_reply(awaiting, ack, Instant::ZERO)
}
