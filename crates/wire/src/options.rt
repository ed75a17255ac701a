// The options field of a reply: the walk over it, and the data of an option.
ghost use Rattle.std.specs.Prelude.{◌≡◌, ◌≤◌, get_or, option_copied};
ghost use Rattle.std.specs.Iterator.{YieldsFirstBy, item_count};
ghost use Rattle.wire.specs.Options.{option_data, option_of, options_from, options_left, options_of};

use octets::codes::{OPT_END, OPT_PAD};

// Where the options field begins: 236 octets of header and 4 of magic cookie.
pub(crate) const OPTIONS: usize = 240;

// An option of a reply: its code and its data.
#[derive(Clone, Copy, Debug, PartialEq, Eq)]
pub(crate) struct Item<'a> {
    pub code: u8,
    pub body: &'a [u8],
}

// The options of a field, in order.
#[derive(Drop)]
pub(crate) struct Options<'a> {
    rest: &'a [u8],
}

impl<'a> Options<'a> {
    // Those of a reply.
    pub(crate) fn of(reply: &'a [u8]) -> Options<'a>
        ensures { options_left result ≡ options_of reply.now }
    {
        Options {
            rest: reply.get(OPTIONS..).unwrap_or(&[]),
        }
    }
}

impl<'a> Iterator for Options<'a> {
    type Item = Item<'a>;

    ghost next_gives = { YieldsFirstBy option_of options_left };

    ghost remaining = { item_count options_left };

    // The next whole option. The end mark ends the field, and so does an option cut short.
    #[tactic(auto, using(crate::proofs::Walks::field_none, crate::proofs::Walks::field_cut))]
    fn next(&mut self) -> Option<Item<'a>> {
        let (code, rest) = past_padding(self.rest).split_first()?;
        if *code == OPT_END {
            return None;
        }
        let (len, rest) = rest.split_first()?;
        let (body, rest) = rest.split_at_checked(*len as usize)?;
        self.rest = rest;
        Some(Item { code: *code, body })
    }
}

// A field behind the padding that it begins with. Its first octet is looked at before the loop, which mostly has nothing to
// do: a search passes over an option in 20 instructions, and in 27 where the loop looks at it.
#[tactic(auto, using(crate::proofs::Walks::field_pad))]
fn past_padding(field: &[u8]) -> &[u8]
    ensures { (options_from 0 result.now ≡ options_from 0 field.now) × (1 ≤ get_or result.now 0 1) }
{
    if field.first().is_some_and(|code| *code != OPT_PAD) {
        return field;
    }
    let mut rest = field;
    while let Some((code, after)) = rest.split_first() {
        if *code != OPT_PAD {
            return rest;
        }
        rest = after;
    }
    rest
}

// The data of the first option `code` of a reply.
pub(crate) fn find(reply: &[u8], code: u8) -> Option<&[u8]>
    ensures { option_copied result ≡ option_data code reply.now }
{
    Options::of(reply)
        .find(|item| item.code == code)
        .map(|item| item.body)
}
