// What a lease that comes, changes or goes does to the tables.
#![tactic(auto, unfolding(crate::proofs::Opened::opened))]

ghost use Rattle.std.specs.Prelude.{◌≡◌, []};
ghost use Rattle.std.specs.List.{cons_option};
ghost use Rattle.tables.specs.Applied.{leased_addrs, leased_routes, applied};

use crate::address::IfaceAddr;
use crate::route::Route;
use crate::tables::Tables;

// An address with its prefix.
#[derive(Clone, Copy, Debug, PartialEq, Eq)]
pub struct Cidr {
    pub address: u32,
    pub prefix: u8,
}

// What a lease puts into the tables: without a lease, neither.
#[derive(Clone, Copy, Debug, PartialEq, Eq)]
pub struct Installed {
    pub address: Option<Cidr>,
    pub router: Option<u32>,
}

// The tables after it, and whether link state is to be purged.
#[derive(Clone, Copy, Debug, PartialEq, Eq)]
pub struct Applied {
    pub tables: Tables,
    pub purge: bool,
}

impl Tables {
    // Puts new in the place of old: the address, and a default route by the router. What was put in by hand is left alone.
    pub fn dhcpv4_apply(self, new: Installed, old: Installed) -> Applied
        ensures { result ≡ applied self new old }
    {
        let same = new.address == old.address;
        let ip_addrs = self.ip_addrs.leased(new.addr(), same);
        let routes = self.routes.leased(new.route(), new.router == old.router);
        Applied {
            tables: Tables {
                ip_addrs,
                routes,
                config_generation: self.config_generation.wrapping_add(1),
            },
            purge: !same,
        }
    }
}

impl Installed {
    // The entry of the address, if there is one.
    fn addr(self) -> Option<IfaceAddr>
        ensures { cons_option result [] ≡ leased_addrs self.address }
    {
        self.address.map(|cidr| IfaceAddr {
            address: cidr.address,
            prefix: cidr.prefix,
            dhcp: true,
        })
    }

    // The default route by the router, which is unicast, if there is one.
    fn route(self) -> Option<Route>
        ensures { cons_option result [] ≡ leased_routes self.router }
    {
        self.router.map(|router| Route {
            network: 0,
            prefix: 0,
            router,
            dhcp: true,
        })
    }
}
