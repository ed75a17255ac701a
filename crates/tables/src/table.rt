// A table of entries, whatever an entry holds.
#![tactic(auto, using(crate::proofs::Lists::entered_none), unfolding(crate::proofs::Opened::opened))]

ghost use Rattle.std.specs.Prelude.{◌≡◌, ◌≤◌, Bool, not, List, [], ◌∷◌, length, slice_get};
ghost use Rattle.tables.specs.Entries.{only, entered};
ghost use Rattle.tables.specs.Changes.{Computes};
ghost use Rattle.std.specs.List.{cons_option, list_all};
ghost use Rattle.tables.specs.Table.{table, in_use, whole_by, added_by, leased_by};

use reasons::Refusal;

// How many entries a table has room for.
pub(crate) const PLACES: usize = 4;

// Bits of an address.
pub const PREFIX_LIMIT: u8 = 32;

// What a table asks of its entries.
pub(crate) trait Entry: Copy {
    ghost zero: { Self };

    ghost fits: { Self → Bool };

    ghost is_dhcp: { Self → Bool };

    // What an unused place of a written table holds.
    fn zero() -> Self
        ensures { result ≡ zero };

    // Whether the prefix is within 32. Each entry writes this line itself: a method `prefix` and a body here are no shorter.
    fn fits(self) -> bool
        ensures { result ≡ fits self };

    // Whether DHCP entered it.
    fn is_dhcp(self) -> bool
        ensures { result ≡ is_dhcp self };
}

// The first count entries are in use. An array with a count, as document 01 has the tables, and no type that keeps the count
// within the places: a count over them has an answer too, NotWhole (9).
#[derive(Clone, Copy, Debug, PartialEq, Eq)]
pub struct Table<E> {
    pub entries: [E; PLACES],
    pub count: usize,
}

impl<E: Entry> Table<E> {
    // No entries.
    pub(crate) fn empty() -> Table<E>
        ensures { result ≡ table E.zero [] }
    {
        Table {
            entries: [E::zero(); PLACES],
            count: 0,
        }
    }

    // The entries in use.
    pub(crate) fn in_use(&self) -> &[E]
        ensures value { result.now ≡ in_use self.now }
        ensures few { length result.now ≤ PLACES }
    {
        &self.entries[..self.count.min(PLACES)]
    }

    // Whether the count is within the places, and the prefixes of the entries in use within 32.
    pub(crate) fn is_whole(self) -> bool
        ensures { result ≡ whole_by E.fits self }
    {
        self.count <= PLACES && self.fits()
    }

    // Whether the prefixes of the entries in use are within 32.
    fn fits(self) -> bool
        ensures { result ≡ list_all E.fits (in_use self) }
    {
        self.in_use().iter().all(|entry| entry.fits())
    }

    // The table written anew: what stays, in its order, zeros after.
    pub(crate) fn kept<F: Fn(&E) -> bool>(&self, stays: F) -> Table<E>
        requires { F.IsAlwaysCallable stays }
        ensures { (test : E → Bool) → Computes F.Fn stays test → result ≡ table E.zero (only test (in_use self.now)) }
    {
        let used = self.in_use();
        // Two locals, written in place: a table that `with` hands on is copied for each entry that stays.
        let mut entries = [E::zero(); PLACES];
        let mut count = 0;
        for entry in used {
            if stays(entry) {
                entries[count] = *entry;
                count += 1;
            }
        }
        Table { entries, count }
    }

    // A table that was written anew, with one entry more, if there is room.
    fn with(mut self, entry: E) -> Table<E>
        ensures { (xs : List E) → self ≡ table E.zero xs → result ≡ table E.zero (entered xs (entry ∷ [])) }
    {
        if self.count < PLACES {
            self.entries[self.count] = entry;
            self.count += 1;
        }
        self
    }

    // With one entry more at the end, which a full table refuses as TableFull (11).
    pub(crate) fn added(self, entry: E) -> Result<Table<E>, Refusal>
        ensures { result ≡ added_by E.zero self entry }
    {
        if self.in_use().len() == PLACES {
            return Err(Refusal::TableFull);
        }
        Ok(self.kept(|_| true).with(entry))
    }

    // With the entry of a lease, if there is one, in the place of DHCP's; as it is where the lease's value is the same.
    pub(crate) fn leased(self, new: Option<E>, same: bool) -> Table<E>
        ensures { result ≡ leased_by E.zero (λ entry. not (E.is_dhcp entry)) self (cons_option new []) same }
    {
        if same {
            return self;
        }
        // A copy of its own: read through `self`, the entries are loaded even where the table stays as it is.
        let table = self;
        let others = table.kept(|entry| !entry.is_dhcp());
        match new {
            Some(entry) => others.with(entry),
            None => others,
        }
    }
}
