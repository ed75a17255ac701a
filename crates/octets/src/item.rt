// Options as they are stored and handed over: one after another, each as its kind, the length of its data, its data.
#![tactic(auto, using(crate::proofs::Runs::part_tail, crate::proofs::Items::items_end, crate::proofs::Items::items_cut, crate::proofs::Items::items_more))]

ghost use Rattle.std.specs.Prelude.{◌≡◌};
ghost use Rattle.octets.specs.Items.{whole_items};

// The magic cookie, with which the options field of a DHCP message begins.
pub const MAGIC_NUMBER: [u8; 4] = [99, 130, 83, 99];

// Whether s is whole items, one after another, and nothing else.
pub fn whole_items(s: &[u8]) -> bool
    ensures { result ≡ whole_items s.now }
{
    let mut left = s;
    while let [_, n, rest @ ..] = left {
        let n = usize::from(*n);
        if rest.len() < n {
            return false;
        }
        left = &rest[n..];
    }
    left.is_empty()
}
