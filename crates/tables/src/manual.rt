// The manual calls. They never touch an entry of DHCP's, nor the generation. Addresses and routes have functions of their
// own: what they share is in Table, and one for both would have to be handed the table, and how to put it back into the tables.
// Addresses, networks, prefixes and routers go in as numbers, as public calls do; an entry is made where it is added.
#![tactic(auto, unfolding(crate::proofs::Opened::opened))]

ghost use Rattle.std.specs.Prelude.{◌≡◌};
ghost use Rattle.tables.specs.Changes.{not_whole_unless, answered};
ghost use Rattle.tables.specs.Manual.{admitted, add_address, drop_address, add_route, drop_route};

use crate::address::IfaceAddr;
use crate::route::Route;
use crate::table::PREFIX_LIMIT;
use crate::tables::Tables;
use octets::address::x_is_unicast;
use reasons::Refusal;

// The tables as they are then; as they came where the call was refused.
#[derive(Clone, Copy, Debug, PartialEq, Eq)]
pub struct Changed {
    pub tables: Tables,
    pub outcome: Result<(), Refusal>,
}

impl Tables {
    // An address more, at the end.
    pub fn add_address(self, address: u32, prefix: u8) -> Changed
        ensures { result ≡ add_address self address prefix }
    {
        self.changed(self.with_address(address, prefix))
    }

    // Without the addresses put in by hand that have this address and prefix.
    pub fn drop_address(self, address: u32, prefix: u8) -> Changed
        ensures { result ≡ drop_address self address prefix }
    {
        self.changed(self.without_address(address, prefix))
    }

    // A route more, at the end; refused as Router (10) where the router is not unicast.
    pub fn add_route(self, network: u32, prefix: u8, router: u32) -> Changed
        ensures { result ≡ add_route self network prefix router }
    {
        self.changed(self.with_route(network, prefix, router))
    }

    // Without the routes put in by hand that have this network, prefix and router.
    pub fn drop_route(self, network: u32, prefix: u8, router: u32) -> Changed
        ensures { result ≡ drop_route self network prefix router }
    {
        self.changed(self.without_route(network, prefix, router))
    }

    fn with_address(self, address: u32, prefix: u8) -> Result<Tables, Refusal>
        ensures { answered self result ≡ add_address self address prefix }
    {
        self.admits(prefix)?;
        let ip_addrs = self.ip_addrs.added(IfaceAddr {
            address,
            prefix,
            dhcp: false,
        })?;
        Ok(Tables { ip_addrs, ..self })
    }

    fn without_address(self, address: u32, prefix: u8) -> Result<Tables, Refusal>
        ensures { answered self result ≡ drop_address self address prefix }
    {
        self.admits(prefix)?;
        // Without branches: by `!=` of the entries, as with routes, the call is too long to be inlined into a caller's loop.
        let ip_addrs = self.ip_addrs.kept(|entry| {
            entry.dhcp | !((entry.address == address) & (entry.prefix == prefix))
        });
        Ok(Tables { ip_addrs, ..self })
    }

    fn with_route(self, network: u32, prefix: u8, router: u32) -> Result<Tables, Refusal>
        ensures { answered self result ≡ add_route self network prefix router }
    {
        self.admits(prefix)?;
        if !x_is_unicast(router) {
            return Err(Refusal::Router);
        }
        let routes = self.routes.added(Route {
            network,
            prefix,
            router,
            dhcp: false,
        })?;
        Ok(Tables { routes, ..self })
    }

    fn without_route(self, network: u32, prefix: u8, router: u32) -> Result<Tables, Refusal>
        ensures { answered self result ≡ drop_route self network prefix router }
    {
        self.admits(prefix)?;
        let named = Route {
            network,
            prefix,
            router,
            dhcp: false,
        };
        let routes = self.routes.kept(|entry| *entry != named);
        Ok(Tables { routes, ..self })
    }

    // Refuses tables that are not whole, and a prefix over 32, as NotWhole (9).
    fn admits(self, prefix: u8) -> Result<(), Refusal>
        ensures { result ≡ not_whole_unless (admitted self prefix) }
    {
        self.whole()?;
        if PREFIX_LIMIT < prefix {
            return Err(Refusal::NotWhole);
        }
        Ok(())
    }

    // What a call hands back that makes these tables, or is refused.
    fn changed(self, made: Result<Tables, Refusal>) -> Changed
        ensures { result ≡ answered self made }
    {
        match made {
            Ok(tables) => Changed {
                tables,
                outcome: Ok(()),
            },
            Err(refusal) => Changed {
                tables: self,
                outcome: Err(refusal),
            },
        }
    }
}
