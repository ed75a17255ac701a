// The store of options that a lease carries, by value.
#![tactic(auto, using(choice::proofs::Choices::if_true, choice::proofs::Choices::if_false, choice::proofs::Choices::tests, crate::proofs::Stores::place_none, crate::proofs::Stores::place_here, crate::proofs::Stores::place_cut), unfolding(crate::specs::Stored::whole_store, crate::specs::Stored::got, crate::specs::Stored::all_pushed))]

ghost use Rattle.std.specs.Prelude.{◌≡◌, ◌+◌, ◌≤◌, length};
ghost use Rattle.wire.specs.Stored.{empty_store, pushed, store_of, whole_store, place_from, got, same_options, used};

use crate::options::Options;
use octets::span::put_option_at;
use reasons::Refusal;

// Octets that a store has room for.
const CAPACITY: usize = 256;

// The bytes and how many are in use, since a store lies inside a lease and there is no heap.
#[derive(Clone, Copy, Debug, PartialEq, Eq)]
pub struct Store {
    pub bytes: [u8; CAPACITY],
    pub len: usize,
}

// Where an option's data lies in a store.
#[derive(Clone, Copy, Debug, PartialEq, Eq)]
pub struct Place {
    pub start: usize,
    pub len: usize,
}

impl Store {
    // 256 zeros, none in use.
    pub fn new() -> Store
        ensures { result ≡ empty_store }
    {
        Store {
            bytes: [0; CAPACITY],
            len: 0,
        }
    }

    // The store with one option more, or as it is where that does not fit.
    pub fn push(mut self, kind: u8, body: &[u8]) -> Store
        ensures { result ≡ pushed self kind body.now }
    {
        self.put(kind, body);
        self
    }

    // The same in place.
    fn put(&mut self, kind: u8, body: &[u8])
        ensures { self.new ≡ pushed self.old kind body.now }
    {
        self.len += put_option_at(&mut self.bytes, self.len, kind, body);
    }

    // All options of a reply, in order.
    pub fn of_reply(reply: &[u8]) -> Store
        ensures { result ≡ store_of reply.now }
    {
        let mut bytes = [0; CAPACITY];
        let mut len = 0;
        for item in Options::of(reply) {
            len += put_option_at(&mut bytes, len, item.code, item.body);
        }
        Store { bytes, len }
    }

    // Whether the store is whole items.
    pub fn is_whole(self) -> bool
        ensures { result ≡ whole_store self }
    {
        self.len <= CAPACITY && octets::item::whole_items(&self.bytes[..self.len])
    }

    // The first option of a kind; refused as NotWhole (9) where the store is not whole.
    pub fn get(self, kind: u8) -> Result<Option<Place>, Refusal>
        ensures { result ≡ got self kind }
    {
        if !self.is_whole() {
            return Err(Refusal::NotWhole);
        }
        Ok(find_in(&self.bytes[..self.len], 0, kind))
    }

    // Whether two stores hold the same options: unlike ==, whatever stands in the places that are not in use.
    #[tactic(auto, using(octets::proofs::Runs::same_pointwise))]
    pub fn equals(self, other: Store) -> bool
        ensures { result ≡ same_options self other }
    {
        self.used() == other.used()
    }

    // The octets in use.
    fn used(&self) -> &[u8]
        ensures { result.now ≡ used self.now }
    {
        &self.bytes[..self.len.min(CAPACITY)]
    }
}

// The first item of a kind in s, whose first octet stands at `base`. A recursion over the rest, as document 01 has the look-up.
fn find_in(s: &[u8], base: usize, kind: u8) -> Option<Place>
    requires { base + length s.now ≤ 256 }
    ensures { result ≡ place_from kind base 0 s.now }
{
    let [code, len, rest @ ..] = s else {
        return None;
    };
    let len = *len as usize;
    let start = base + 2;
    if *code == kind {
        return Some(Place { start, len });
    }
    find_in(rest.get(len..)?, start + len, kind)
}
