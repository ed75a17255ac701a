// What can be looked up of a client: refused as NotWhole (9) where it is not whole.
#![tactic(auto, using(choice::proofs::Choices::if_true, choice::proofs::Choices::if_false), unfolding(crate::specs::Clients::checked, crate::specs::Lookups::lease_held, crate::specs::Lookups::option_held, crate::specs::Lookups::standing))]

ghost use Rattle.std.specs.Prelude.{◌≡◌};
ghost use Rattle.client.specs.Lookups.{lease_held, option_held, standing};

use crate::client::Client;
use lease::DhcpLease;
use machine::ClientState;
use reasons::Refusal;
use wire::Place;

impl Client {
    // The lease, if one is held.
    pub fn lease(self) -> Result<Option<DhcpLease>, Refusal>
        ensures { result ≡ lease_held self }
    {
        self.checked()?;
        Ok(self.session.state.has_lease().then_some(self.lease))
    }

    // Where the data of a stored option of the lease lies in its store, and how long it is.
    pub fn get(self, kind: u8) -> Result<Option<Place>, Refusal>
        ensures { result ≡ option_held self kind }
    {
        self.checked()?;
        if self.session.state.has_lease() {
            self.lease.options.get(kind)
        } else {
            Ok(None)
        }
    }

    // The state, with its deadlines.
    pub fn state(self) -> Result<ClientState, Refusal>
        ensures { result ≡ standing self }
    {
        self.checked()?;
        Ok(self.session.state)
    }
}
