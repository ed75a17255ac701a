// What a reply that is taken as an ACK does to the client and its tables.
#![tactic(auto, using(choice::proofs::Choices::if_true, choice::proofs::Choices::if_false), unfolding(crate::specs::Taken::holds, crate::specs::Taken::held_by, crate::specs::Taken::acked, crate::specs::Taken::acked_as))]

ghost use Rattle.std.specs.Prelude.{◌≡◌};
ghost use Rattle.client.specs.Outcomes.{settled};
ghost use Rattle.client.specs.Taken.{server_of, holds, held_by, acked, entered};

use crate::client::{Client, Session};
use clock::Instant;
use judge::Acked;
use lease::{DhcpLease, nothing};
use machine::{ClientState, DhcpServerInfo};
use tables::{Applied, Installed, Tables};

impl Client {
    // An ACK, with process' own parameters, in place: a client that is handed on is copied once more. One that brings the lease
    // that is held moves the moments, ends rebinding, and changes nothing else.
    pub(crate) fn acked(
        &mut self,
        tables: Tables,
        reply: &[u8],
        moment: Instant,
        ack: Acked,
    ) -> Applied
        ensures { settled self.new result ≡ acked self.old tables reply.now moment ack }
    {
        let was = self.session;
        let state = was.state;
        let server = server(state, self.lease, ack.server);
        let lease = DhcpLease::of_ack(server, ack.address, ack.prefix, reply);
        let session = Session {
            state: lease::bound(self.settings, reply, moment),
            transaction_id: was.transaction_id,
        };
        if holds(state, self.lease, lease) {
            self.session = session;
            return Applied {
                tables,
                purge: false,
            };
        }
        self.entered(tables, session, lease)
    }

    // Another lease, in the place of the one that is held, if one is.
    fn entered(&mut self, tables: Tables, session: Session, lease: DhcpLease) -> Applied
        ensures { settled self.new result ≡ entered self.old tables session lease }
    {
        let applied = tables.dhcpv4_apply(lease.installed(), held(self.session.state, self.lease));
        self.session = session;
        self.lease = lease;
        applied
    }
}

// Whose lease an ACK brings: the server's that made the offer, or that leased the address. Other states await no ACK.
fn server(state: ClientState, lease: DhcpLease, sender: DhcpServerInfo) -> DhcpServerInfo
    ensures { result ≡ server_of state lease sender }
{
    match state {
        ClientState::Init | ClientState::Discovering(_) => sender,
        ClientState::Requesting(s) => s.server,
        ClientState::Renewing(_) => lease.server,
    }
}

// Whether a lease is the one that is held.
fn holds(state: ClientState, held: DhcpLease, lease: DhcpLease) -> bool
    ensures { result ≡ holds state held lease }
{
    state.has_lease() && lease.equals(held)
}

// What the lease that is held has put into the tables.
fn held(state: ClientState, lease: DhcpLease) -> Installed
    ensures { result ≡ held_by state lease }
{
    if state.has_lease() {
        return lease.installed();
    }
    nothing()
}
