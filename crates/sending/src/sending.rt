// A message that is due: its id, its fields and its endpoints, and the message written.
#![tactic(auto, using(choice::proofs::Choices::if_true, choice::proofs::Choices::if_false), unfolding(crate::specs::Sendings::id_for, crate::specs::Sendings::rand_after, crate::specs::Sendings::renews_to, crate::specs::Sendings::wrote, crate::specs::Sendings::left_in))]

ghost use Rattle.std.specs.Prelude.{◌≡◌, length};
ghost use Rattle.sending.specs.Sendings.{drawn_for, fields_of, endpoints_of, wrote, left_in};

use clock::{Drawn, Rand};
use lease::DhcpLease;
use machine::Sending;
use message::{Endpoints, Message};
use octets::address::{BROADCAST, UNSPECIFIED};
use octets::codes::{DISCOVER, REQUEST};
use reasons::Refusal;
use settings::Settings;

// The id of a message, a new one or the client's own, and the generator after it.
pub fn drawn(id: u32, rand: Rand, sending: Sending) -> Drawn<u32>
    ensures { result ≡ drawn_for id rand sending }
{
    match sending {
        Sending::Discover(_) | Sending::Renew(_) => rand.rand_u32(),
        Sending::Request(_) => Drawn { rand, value: id },
    }
}

// Where a message goes from and to.
pub fn endpoints(lease: DhcpLease, sending: Sending) -> Endpoints
    ensures { result ≡ endpoints_of lease sending }
{
    match sending {
        Sending::Discover(_) | Sending::Request(_) => Endpoints {
            source: UNSPECIFIED,
            destination: BROADCAST,
        },
        Sending::Renew(s) => {
            let server = lease.server.address;
            Endpoints {
                source: lease.address,
                destination: if s.rebinding { BROADCAST } else { server },
            }
        }
    }
}

// A message's fields. Settings, lease and id are parts of a client, which lies above this crate, and go in one by one.
fn fields(settings: Settings, lease: DhcpLease, id: u32, sending: Sending) -> Message
    ensures { result ≡ fields_of settings lease id sending }
{
    match sending {
        Sending::Discover(_) => settings.message(DISCOVER, id, UNSPECIFIED, None, None),
        Sending::Request(s) => settings.message(
            REQUEST,
            id,
            UNSPECIFIED,
            Some(s.requested_ip),
            Some(s.server.identifier),
        ),
        Sending::Renew(_) => settings.message(REQUEST, id, lease.address, None, None),
    }
}

// Writes a message with this id as a datagram at the start of buf and answers the datagram's length, or refuses it as Name
// (3), RequestList (4), ExtraOptions (5) or ShortBuffer (8) and writes nothing.
pub fn write(
    settings: Settings,
    lease: DhcpLease,
    id: u32,
    sending: Sending,
    buf: &mut [u8],
) -> Result<usize, Refusal>
    ensures { (result ≡ wrote settings lease id sending (length buf.old)) × (buf.new ≡ left_in settings lease id sending buf.old) }
{
    let m = fields(settings, lease, id, sending);
    let ends = endpoints(lease, sending);
    settings.write(m, true, ends, buf)
}
