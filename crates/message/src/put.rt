// Writers of a message's pieces. Each is lent the buffer and the place to write at, lends what is left from there on, and
// answers the place after what it wrote: document 01's form, "each option is written into what is left of the lent buffer".
// They are no methods of a buffer and its place, as trace's Writer has them: the checksum is written back, at 6, when all else
// stands. That an option's data has at most 255 octets stays a clause of each: a type for it would be made anew for each option.
#![tactic(auto, using(crate::proofs::Writers::none), unfolding(crate::specs::Messages::option_if))]

ghost use Rattle.std.specs.Prelude.{◌≡◌, ◌+◌, ◌≤◌, length, option_copied};
ghost use Rattle.std.specs.Option.{ForSome};
ghost use Rattle.octets.specs.Items.{option};
ghost use Rattle.message.specs.Messages.{option_if};
ghost use Rattle.message.specs.Pieces.{Wrote};

// Octets as they are.
pub(crate) fn put_bytes(buf: &mut [u8], at: usize, body: &[u8]) -> usize
    requires { at + length body.now ≤ length buf.old }
    ensures { Wrote at body.now buf.old result buf.new }
{
    at + octets::span::put_bytes_at(buf, at, body)
}

// An option.
pub(crate) fn put_option(buf: &mut [u8], at: usize, kind: u8, body: &[u8]) -> usize
    requires { (length body.now ≤ 255) × (at + (2 + length body.now) ≤ length buf.old) }
    ensures { Wrote at (option kind body.now) buf.old result buf.new }
{
    at + octets::span::put_option_at(buf, at, kind, body)
}

// An option, where it is given.
pub(crate) fn put_if(buf: &mut [u8], at: usize, kind: u8, body: Option<&[u8]>) -> usize
    requires short { ForSome body (λ octets. length octets.now ≤ 255) }
    requires room { at + length (option_if kind (option_copied body)) ≤ length buf.old }
    ensures { Wrote at (option_if kind (option_copied body.entry)) buf.old result buf.new }
{
    match body {
        Some(octets) => put_option(buf, at, kind, octets),
        None => at,
    }
}

// An option that holds N octets, where it is given.
pub(crate) fn put_field<const N: usize>(
    buf: &mut [u8],
    at: usize,
    kind: u8,
    body: Option<[u8; N]>,
) -> usize
    requires short { N ≤ 255 }
    requires room { at + length (option_if kind body) ≤ length buf.old }
    ensures { Wrote at (option_if kind body.entry) buf.old result buf.new }
{
    let octets = body.as_ref().map(
        |octets| -> &[u8]
            ensures { result.now ≡ octets.now }
        { octets.as_slice() },
    );
    put_if(buf, at, kind, octets)
}
