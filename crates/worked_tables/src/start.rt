// Tables and leases that the examples begin with.
use tables::{AddrTable, Cidr, IfaceAddr, Installed, Route, RouteTable, Tables};

// 10.0.0.50 and 10.0.0.1.
pub const POST: u32 = 0x0a000032;

pub const ROUTER: u32 = 0x0a000001;

// 10.0.0.50/24, and no router.
pub const PLAIN: Installed = Installed {
    address: Some(Cidr {
        address: POST,
        prefix: 24,
    }),
    router: None,
};

// What a lease puts into the tables.
pub fn installed(address: u32, prefix: u8, router: u32) -> Installed {
    Installed {
        address: Some(Cidr { address, prefix }),
        router: Some(router),
    }
}

// Tables with these addresses, whole or not, and no routes.
pub fn with_addresses(entries: [IfaceAddr; 4], count: usize) -> Tables {
    Tables {
        ip_addrs: AddrTable { entries, count },
        ..Tables::new()
    }
}

pub fn entry(address: u32, prefix: u8, dhcp: bool) -> IfaceAddr {
    IfaceAddr {
        address,
        prefix,
        dhcp,
    }
}

// Four addresses put in by hand, 10.0.0.1/24 to 10.0.0.4/24.
pub fn four_addresses() -> Tables {
    let entries = [0x0a000001, 0x0a000002, 0x0a000003, 0x0a000004];
    with_addresses(entries.map(|address| entry(address, 24, false)), 4)
}

// Four routes put in by hand, 10.0.0.0/8 to 10.3.0.0/8.
pub fn four_routes() -> Tables {
    let networks = [0x0a000000, 0x0a010000, 0x0a020000, 0x0a030000];
    let entries = networks.map(|network| Route {
        network,
        prefix: 8,
        router: ROUTER,
        dhcp: false,
    });
    Tables {
        routes: RouteTable { entries, count: 4 },
        ..Tables::new()
    }
}
