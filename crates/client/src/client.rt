// The client, its creation, and whether it is whole.
#![tactic(auto, using(choice::proofs::Choices::if_true, choice::proofs::Choices::if_false), unfolding(crate::specs::Clients::created, crate::specs::Clients::whole_client, crate::specs::Clients::lease_fits, crate::specs::Clients::checked))]

ghost use Rattle.std.specs.Prelude.{◌≡◌};
ghost use Rattle.client.specs.Calls.{calls};
ghost use Rattle.client.specs.Clients.{no_client, or_zero, fresh, whole_client, lease_fits, checked};

use lease::DhcpLease;
use machine::ClientState;
use reasons::Refusal;
use settings::Settings;
use tables::Tables;

// A client and its tables after a call, and what came of it.
#[derive(Clone, Copy, Debug, PartialEq, Eq)]
pub struct Settled<T> {
    pub client: Client,
    pub tables: Tables,
    pub outcome: T,
}

// Where the client is with its servers: what calls change most.
#[derive(Clone, Copy, Debug, PartialEq, Eq)]
pub struct Session {
    pub state: ClientState,
    // Of the last message that was sent.
    pub transaction_id: u32,
}

#[derive(Clone, Copy, Debug, PartialEq, Eq)]
pub struct Client {
    pub settings: Settings,
    // NAKs are passed over: for sites where a server sends them astray. RFC 2131 has no such thing.
    pub ignore_naks: bool,
    pub session: Session,
    // Read in Renewing alone, and all zero after creation and after leaving Renewing.
    pub lease: DhcpLease,
}

impl Client {
    // A client that sends its first Discover at the next poll, if nothing refuses its settings.
    pub fn new(settings: Settings, ignoring: bool) -> Result<Client, Refusal>
        ensures { result ≡ calls.create settings ignoring }
    {
        settings.checked()?;
        Ok(Client::fresh(settings, ignoring))
    }

    fn fresh(settings: Settings, ignoring: bool) -> Client
        ensures { result ≡ fresh settings ignoring }
    {
        let lease = DhcpLease::zero();
        Client {
            settings,
            ignore_naks: ignoring,
            session: Session {
                state: ClientState::Init,
                transaction_id: 1,
            },
            lease,
        }
    }

    // All zero.
    pub fn zero() -> Client
        ensures { result ≡ no_client }
    {
        let settings = Settings::zero();
        let lease = DhcpLease::zero();
        Client {
            settings,
            ignore_naks: false,
            session: Session {
                state: ClientState::Init,
                transaction_id: 0,
            },
            lease,
        }
    }

    // For who goes on after creation: the client, or where that was refused one that is all zero, which each call refuses by 9.
    pub fn or_zero(created: Result<Client, Refusal>) -> Client
        ensures { result ≡ or_zero created }
    {
        created.unwrap_or(Client::zero())
    }

    // Whether nothing refuses the settings, and a lease that is held is whole.
    pub fn is_whole(&self) -> bool
        ensures { result ≡ whole_client self.now }
    {
        self.settings.refusal().is_none() && lease_fits(self.session.state, self.lease)
    }

    // Refused as NotWhole (9) where it is not.
    pub(crate) fn checked(self) -> Result<(), Refusal>
        ensures { result ≡ checked self }
    {
        if self.is_whole() {
            Ok(())
        } else {
            Err(Refusal::NotWhole)
        }
    }
}

// Whether the lease is whole, where it is read.
fn lease_fits(state: ClientState, lease: DhcpLease) -> bool
    ensures { result ≡ lease_fits state lease }
{
    !state.has_lease() || lease.is_whole()
}
