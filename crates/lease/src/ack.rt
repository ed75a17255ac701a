// The moments of an ACK: when it is to be renewed, rebound and dropped.
ghost use Rattle.std.specs.Prelude.{◌≡◌};
ghost use Rattle.lease.specs.Bound.{bound_by, reply_row};

use clock::{Duration, Instant};
use machine::{ClientState, Row, timer};
use octets::codes::{OPT_IP_LEASE_TIME, OPT_REBINDING_TIME_VALUE, OPT_RENEWAL_TIME_VALUE};
use settings::Settings;
use wire::reply::option_seconds;

// Renewing, by the times of an ACK.
#[tactic(auto, unfolding(crate::specs::Bound::bound_by))]
pub fn bound(settings: Settings, reply: &[u8], moment: Instant) -> ClientState
    ensures { result ≡ bound_by settings reply.now moment }
{
    let maximum = settings.longest_lease();
    let said = option_seconds(reply, OPT_IP_LEASE_TIME);
    let lease = machine::lease_duration(said, maximum);
    let times = row_of(reply, lease).times(lease);
    ClientState::renewing(times, lease, moment)
}

// The row of the table of T1 and T2 that an ACK with a lease of this length falls under.
fn row_of(reply: &[u8], lease: Duration) -> Row
    ensures { result ≡ reply_row reply.now lease.millis }
{
    let renew = timer(option_seconds(reply, OPT_RENEWAL_TIME_VALUE));
    let rebind = timer(option_seconds(reply, OPT_REBINDING_TIME_VALUE));
    Row::of(renew, rebind, lease)
}
