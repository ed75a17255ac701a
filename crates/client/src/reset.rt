// Resets: the lease is dropped, if one is held, and the client starts over.
#![tactic(auto, using(choice::proofs::Choices::if_true, choice::proofs::Choices::if_false), unfolding(crate::specs::Clients::whole_all, crate::specs::Resets::cleared, crate::specs::Resets::was_reset))]

ghost use Rattle.std.specs.Prelude.{◌≡◌};
ghost use Rattle.client.specs.Calls.{calls};
ghost use Rattle.client.specs.Outcomes.{done_as};
ghost use Rattle.client.specs.Resets.{dropped, cleared};

use crate::client::{Client, Settled};
use lease::{DhcpLease, nothing};
use machine::ClientState;
use reasons::Refusal;
use tables::Tables;

// The client and its tables after a reset, and whether link state is to be purged; as they came where it is refused.
pub type WasReset = Settled<Result<bool, Refusal>>;

impl Client {
    // Drops the lease, if one is held, and starts over; refused as NotWhole (9) where client or tables are not whole.
    pub fn reset(self, tables: Tables) -> WasReset
        ensures { result ≡ calls.reset self tables }
    {
        // the same line as in poll and process, each of which answers in its own type
        let whole = self.is_whole() & tables.is_whole();
        if !whole {
            return Settled {
                client: self,
                tables,
                outcome: Err(Refusal::NotWhole),
            };
        }
        self.cleared(tables)
    }

    // A whole client's reset, and whether link state is to be purged. Where no lease is held, what stands in its place is left.
    pub(crate) fn cleared<E>(mut self, tables: Tables) -> Settled<Result<bool, E>>
        ensures { result ≡ done_as (cleared self tables) }
    {
        if self.session.state.has_lease() {
            return self.dropped(tables);
        }
        self.session.state = ClientState::Init;
        Settled {
            client: self,
            tables,
            outcome: Ok(false),
        }
    }

    // The lease goes, and with it what it has put into the tables.
    pub(crate) fn dropped<E>(mut self, tables: Tables) -> Settled<Result<bool, E>>
        ensures { result ≡ done_as (dropped self tables) }
    {
        let applied = tables.dhcpv4_apply(nothing(), self.lease.installed());
        self.session.state = ClientState::Init;
        self.lease = DhcpLease::zero();
        Settled {
            client: self,
            tables: applied.tables,
            outcome: Ok(applied.purge),
        }
    }
}
