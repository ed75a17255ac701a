// Runs of octets: whether two are equal, and writing one over the start of a lent buffer, whole or not at all. A writer
// answers 0, and not none, where a run does not fit: writers in a row add their answers up, and need no second case.
#![tactic(auto, using(choice::proofs::Choices::if_true, choice::proofs::Choices::if_false, crate::proofs::Runs::same_pointwise, crate::proofs::Runs::part_tail, crate::proofs::Runs::past_length, crate::proofs::Runs::past_same, crate::proofs::Runs::option_put), unfolding(crate::specs::Runs::over, crate::specs::Runs::placed, crate::specs::Runs::placed_length, crate::specs::Items::option_bytes))]

ghost use Rattle.std.specs.Prelude.{◌≡◌, ◌+◌, ◌≤◌, ◌++◌, length, take, drop};
ghost use Rattle.octets.specs.Runs.{same_bytes, over, placed, placed_length};
ghost use Rattle.octets.specs.Items.{option, option_bytes};

// Whether a and b hold the same octets. It is `==` under the definition that contracts of other crates use; nothing here calls it.
pub fn same(a: &[u8], b: &[u8]) -> bool
    ensures { result ≡ same_bytes a.now b.now }
{
    a == b
}

// The first n octets of s, all of them where there are no more.
pub fn up_to(s: &[u8], n: usize) -> &[u8]
    ensures { result.now ≡ take n s.now }
{
    &s[..n.min(s.len())]
}

// Writes body over the start of buf, if it fits, and answers how many octets were written.
pub fn put_bytes(buf: &mut [u8], body: &[u8]) -> usize
    ensures { (result ≡ placed_length body.now buf.old) × (buf.new ≡ placed body.now buf.old) }
{
    let n = body.len();
    if buf.len() < n {
        return 0;
    }
    buf[..n].copy_from_slice(body);
    n
}

// The option's octets over the start of buf, which has room for them.
fn option_in(buf: &mut [u8], kind: u8, body: &[u8])
    requires { (length body.now ≤ 255) × (2 + length body.now ≤ length buf.old) }
    ensures { buf.new ≡ over (option kind body.now) buf.old }
{
    buf[0] = kind;
    buf[1] = body.len() as u8;
    buf[2..body.len() + 2].copy_from_slice(body);
}

// Writes an option over the start of buf, if its data has at most 255 octets and it fits, and answers how many octets
// were written.
pub fn put_option(buf: &mut [u8], kind: u8, body: &[u8]) -> usize
    ensures { (result ≡ placed_length (option_bytes kind body.now) buf.old) × (buf.new ≡ placed (option_bytes kind body.now) buf.old) }
{
    let n = body.len();
    if 255 < n || buf.len() < n + 2 {
        return 0;
    }
    option_in(buf, kind, body);
    n + 2
}

// Writes body over what is left of buf from `at` on, if it fits there, and answers how many octets were written. This and
// put_option_at stay two: one that took the writer as a closure would need a contract for it, longer than the test of `at`.
pub fn put_bytes_at(buf: &mut [u8], at: usize, body: &[u8]) -> usize
    ensures { (result ≡ placed_length body.now (drop at buf.old)) × (buf.new ≡ take at buf.old ++ placed body.now (drop at buf.old)) }
{
    if buf.len() < at {
        return 0;
    }
    put_bytes(&mut buf[at..], body)
}

// Writes an option over what is left of buf from `at` on, if its data has at most 255 octets and it fits there, and
// answers how many octets were written.
pub fn put_option_at(buf: &mut [u8], at: usize, kind: u8, body: &[u8]) -> usize
    ensures { (result ≡ placed_length (option_bytes kind body.now) (drop at buf.old)) × (buf.new ≡ take at buf.old ++ placed (option_bytes kind body.now) (drop at buf.old)) }
{
    if buf.len() < at {
        return 0;
    }
    put_option(&mut buf[at..], kind, body)
}
