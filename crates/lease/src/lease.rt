// The lease that a client holds, all of it by value.
ghost use Rattle.std.specs.Prelude.{◌≡◌};
ghost use Rattle.lease.specs.Leases.{no_lease, whole_lease, same_terms, addresses_in, same_addresses, same_lease, installed, nothing, lease_of};

use machine::DhcpServerInfo;
use octets::codes::OPT_DOMAIN_NAME_SERVER;
use tables::{Cidr, Installed, PREFIX_LIMIT};
use wire::{Addresses, Store};

#[derive(Clone, Copy, Debug, PartialEq, Eq)]
pub struct DhcpLease {
    // Who leased the address: as the OFFER had it.
    pub server: DhcpServerInfo,
    pub address: u32,
    pub prefix: u8,
    // The default gateway, if there is one.
    pub router: Option<u32>,
    // The DNS servers.
    pub dns: Addresses,
    // All options of the ACK that fit.
    pub options: Store,
}

const DNS_LIMIT: usize = 3;

impl DhcpLease {
    // All zero.
    pub fn zero() -> DhcpLease
        ensures { result ≡ no_lease }
    {
        DhcpLease {
            server: DhcpServerInfo {
                address: 0,
                identifier: 0,
            },
            address: 0,
            prefix: 0,
            router: None,
            dns: Addresses {
                list: [0; 3],
                count: 0,
            },
            options: Store::new(),
        }
    }

    // The lease of an ACK with this address and prefix, which judge has read of it as two.
    pub fn of_ack(server: DhcpServerInfo, address: u32, prefix: u8, reply: &[u8]) -> DhcpLease
        ensures { result ≡ lease_of server address prefix reply.now }
    {
        DhcpLease {
            server,
            address,
            prefix,
            router: wire::reply::router(reply),
            dns: wire::reply::option_addresses(reply, OPT_DOMAIN_NAME_SERVER),
            options: Store::of_reply(reply),
        }
    }

    // Whether the lease is whole, which calls else refuse as NotWhole (9): no prefix over 32, no count over 3, stored options
    // that are whole items.
    #[tactic(auto, using(choice::proofs::Choices::if_true, choice::proofs::Choices::if_false, choice::proofs::Choices::tests), unfolding(crate::specs::Leases::whole_lease))]
    pub fn is_whole(self) -> bool
        ensures { result ≡ whole_lease self }
    {
        self.prefix <= PREFIX_LIMIT && self.dns.count <= DNS_LIMIT && self.options.is_whole()
    }

    // Whether two leases are the same, stored options included: unlike ==, whatever stands in the places that are not in use.
    pub fn equals(self, other: DhcpLease) -> bool
        ensures { result ≡ same_lease self other }
    {
        self.same_terms(other)
            && same_addresses(self.dns, other.dns)
            && self.options.equals(other.options)
    }

    // Whether two leases are the same but for DNS servers and stored options, which == would compare too.
    fn same_terms(self, other: DhcpLease) -> bool
        ensures { result ≡ same_terms self other }
    {
        self.server == other.server
            && self.address == other.address
            && self.prefix == other.prefix
            && self.router == other.router
    }

    // What a lease puts into the tables.
    pub fn installed(self) -> Installed
        ensures { result ≡ installed self }
    {
        Installed {
            address: Some(Cidr {
                address: self.address,
                prefix: self.prefix,
            }),
            router: self.router,
        }
    }
}

// What there is in the tables without a lease.
pub fn nothing() -> Installed
    ensures { result ≡ nothing }
{
    Installed {
        address: None,
        router: None,
    }
}

// Whether two lists of addresses are the same, as far as they are in use.
#[tactic(auto, using(octets::proofs::Runs::same_pointwise))]
fn same_addresses(a: Addresses, b: Addresses) -> bool
    ensures { result ≡ same_addresses a b }
{
    in_use(&a) == in_use(&b)
}

// The addresses of a list that are in use.
fn in_use(addresses: &Addresses) -> &[u32]
    ensures { result.now ≡ addresses_in addresses.now }
{
    &addresses.list[..addresses.count.min(DNS_LIMIT)]
}
