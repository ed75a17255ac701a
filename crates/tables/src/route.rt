// The route table.
ghost use Rattle.std.specs.Prelude.{◌≡◌};
ghost use Rattle.std.specs.List.{find};
ghost use Rattle.tables.specs.Table.{in_use};
ghost use Rattle.tables.specs.Tables.{zero_route, route_fits, route_is_dhcp};
ghost use Rattle.tables.specs.Lookups.{is_default};

use crate::table::{Entry, PREFIX_LIMIT, Table};

// A route; dhcp tells one that DHCP entered from one put in by hand.
#[derive(Clone, Copy, Debug, PartialEq, Eq)]
pub struct Route {
    pub network: u32,
    pub prefix: u8,
    pub router: u32,
    pub dhcp: bool,
}

pub type RouteTable = Table<Route>;

impl Route {
    // Whether the route goes to 0.0.0.0/0.
    pub(crate) fn is_default(self) -> bool
        ensures { result ≡ is_default self }
    {
        self.network == 0 && self.prefix == 0
    }
}

impl Table<Route> {
    // The first of the entries in use that goes to 0.0.0.0/0.
    pub(crate) fn default_route(self) -> Option<Route>
        ensures { result ≡ find is_default (in_use self) }
    {
        self.in_use()
            .iter()
            .copied()
            .find(|entry| entry.is_default())
    }
}

impl Entry for Route {
    ghost zero = { zero_route };

    ghost fits = { route_fits };

    ghost is_dhcp = { route_is_dhcp };

    fn zero() -> Route {
        Route {
            network: 0,
            prefix: 0,
            router: 0,
            dhcp: false,
        }
    }

    fn fits(self) -> bool {
        self.prefix <= PREFIX_LIMIT
    }

    fn is_dhcp(self) -> bool {
        self.dhcp
    }
}
