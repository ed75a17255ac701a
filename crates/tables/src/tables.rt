// The tables, empty and whole.
#![tactic(auto, unfolding(crate::proofs::Opened::opened))]

ghost use Rattle.std.specs.Prelude.{◌≡◌};
ghost use Rattle.tables.specs.Tables.{empty_tables, whole_tables};

use crate::address::AddrTable;
use crate::route::RouteTable;
use crate::table::Table;

#[derive(Clone, Copy, Debug, PartialEq, Eq)]
pub struct Tables {
    pub ip_addrs: AddrTable,
    pub routes: RouteTable,
    // How often DHCP has changed the interface's configuration, with wrap.
    pub config_generation: u32,
}

impl Tables {
    // No entries, and generation 0.
    pub fn new() -> Tables
        ensures { result ≡ empty_tables }
    {
        Tables {
            ip_addrs: Table::empty(),
            routes: Table::empty(),
            config_generation: 0,
        }
    }

    // Whether the tables are whole, which calls else refuse as NotWhole (9): no count over 4, no prefix in use over 32.
    pub fn is_whole(self) -> bool
        ensures { result ≡ whole_tables self }
    {
        self.ip_addrs.is_whole() && self.routes.is_whole()
    }
}
