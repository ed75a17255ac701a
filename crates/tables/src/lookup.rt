// Look-ups in the tables, refused as NotWhole (9) where these are not whole. Addresses and routes have
// functions of their own, two lines each over Table: one for both would have to be handed the table.
#![tactic(auto, unfolding(crate::proofs::Opened::opened))]

ghost use Rattle.std.specs.Prelude.{◌≡◌};
ghost use Rattle.tables.specs.Tables.{whole_tables};
ghost use Rattle.tables.specs.Changes.{not_whole_unless};
ghost use Rattle.tables.specs.Lookups.{addr_count, route_count, addr_at, route_at, has_addr, default_route_of};

use crate::address::IfaceAddr;
use crate::route::Route;
use crate::tables::Tables;
use reasons::Refusal;

impl Tables {
    // How many addresses there are.
    pub fn addr_count(self) -> Result<usize, Refusal>
        ensures { result ≡ addr_count self }
    {
        self.whole()?;
        Ok(self.ip_addrs.in_use().len())
    }

    // How many routes there are.
    pub fn route_count(self) -> Result<usize, Refusal>
        ensures { result ≡ route_count self }
    {
        self.whole()?;
        Ok(self.routes.in_use().len())
    }

    // The address at a place, counted from 0, if that is in use.
    pub fn addr_at(self, place: usize) -> Result<Option<IfaceAddr>, Refusal>
        ensures { result ≡ addr_at self place }
    {
        self.whole()?;
        Ok(self.ip_addrs.in_use().get(place).copied())
    }

    // The route at a place, counted from 0, if that is in use.
    pub fn route_at(self, place: usize) -> Result<Option<Route>, Refusal>
        ensures { result ≡ route_at self place }
    {
        self.whole()?;
        Ok(self.routes.in_use().get(place).copied())
    }

    // Whether an address is there, with any prefix, by hand or DHCP's.
    pub fn has_ip_addr(self, address: u32) -> Result<bool, Refusal>
        ensures { result ≡ has_addr self address }
    {
        self.whole()?;
        Ok(self.ip_addrs.has(address))
    }

    // The first route to 0.0.0.0/0, with its router.
    pub fn default_ipv4_route(self) -> Result<Option<Route>, Refusal>
        ensures { result ≡ default_route_of self }
    {
        self.whole()?;
        Ok(self.routes.default_route())
    }

    // Refuses tables that are not whole, as NotWhole (9).
    pub(crate) fn whole(self) -> Result<(), Refusal>
        ensures { result ≡ not_whole_unless (whole_tables self) }
    {
        if self.is_whole() {
            Ok(())
        } else {
            Err(Refusal::NotWhole)
        }
    }
}
