// The address table.
ghost use Rattle.std.specs.Prelude.{◌≡◌};
ghost use Rattle.std.specs.List.{list_any};
ghost use Rattle.tables.specs.Table.{in_use};
ghost use Rattle.tables.specs.Lookups.{is_at};
ghost use Rattle.tables.specs.Tables.{zero_addr, addr_fits, addr_is_dhcp};

use crate::table::{Entry, PREFIX_LIMIT, Table};

// An address of the interface; dhcp tells one that DHCP entered from one put in by hand.
#[derive(Clone, Copy, Debug, PartialEq, Eq)]
pub struct IfaceAddr {
    pub address: u32,
    pub prefix: u8,
    pub dhcp: bool,
}

pub type AddrTable = Table<IfaceAddr>;

impl Table<IfaceAddr> {
    // Whether an address is among the entries in use.
    pub(crate) fn has(self, address: u32) -> bool
        ensures { result ≡ list_any (is_at address) (in_use self) }
    {
        self.in_use().iter().any(|entry| entry.address == address)
    }
}

impl Entry for IfaceAddr {
    ghost zero = { zero_addr };

    ghost fits = { addr_fits };

    ghost is_dhcp = { addr_is_dhcp };

    fn zero() -> IfaceAddr {
        IfaceAddr {
            address: 0,
            prefix: 0,
            dhcp: false,
        }
    }

    fn fits(self) -> bool {
        self.prefix <= PREFIX_LIMIT
    }

    fn is_dhcp(self) -> bool {
        self.dhcp
    }
}
