// IPv4 addresses, as numbers of 32 bits.
#![tactic(auto, using(choice::proofs::Choices::if_true, choice::proofs::Choices::if_false, crate::proofs::Masks::prefix_bits), unfolding(crate::specs::Addresses::unicast))]

ghost use Rattle.std.specs.Prelude.{◌≡◌};
ghost use Rattle.octets.specs.Addresses.{unicast, prefix_len};

pub const UNSPECIFIED: u32 = 0;

pub const BROADCAST: u32 = 0xffffffff;

// 224.0.0.0 and 240.0.0.0: multicast addresses lie from the first to below the second.
const MULTICAST: u32 = 0xe0000000;

const PAST_MULTICAST: u32 = 0xf0000000;

// Whether one host can have the address: it is neither 0.0.0.0 nor 255.255.255.255 nor multicast.
pub fn x_is_unicast(address: u32) -> bool
    ensures { result ≡ unicast address }
{
    !matches!(address, UNSPECIFIED | MULTICAST..PAST_MULTICAST | BROADCAST)
}

// The number of ones that a mask begins with, none where a one follows a zero.
pub fn prefix_len(mask: u32) -> Option<u32>
    ensures { result ≡ prefix_len mask }
{
    let n = mask.leading_ones();
    (n + mask.trailing_zeros() == 32).then_some(n)
}
