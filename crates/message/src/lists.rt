// The lists of a message.
#![tactic(auto, using(choice::proofs::Choices::if_true, choice::proofs::Choices::if_false), unfolding(crate::specs::Written::measured, crate::specs::Written::list_fits))]

ghost use Rattle.std.specs.Prelude.{◌≡◌, ◌≤◌, length, option_copied, IfOk};
ghost use Rattle.std.specs.Option.{ForSome};
ghost use Rattle.std.specs.Result.{result_map_both};
ghost use Rattle.message.specs.Messages.{message};
ghost use Rattle.message.specs.Written.{name_limit, list_limit, extra_limit, measured};
ghost use Rattle.message.specs.declared.message.Message.{Message as MessageFields};

use octets::item::whole_items;
use reasons::Refusal;

// Beyond these, lists are refused as Name (3), RequestList (4) and ExtraOptions (5).
pub const NAME_LIMIT: usize = 63;

pub const LIST_LIMIT: usize = 64;

pub const EXTRA_LIMIT: usize = 255;

#[derive(Clone, Copy, Debug, PartialEq, Eq)]
pub struct Lists<'a> {
    // the host name; an empty one is none
    pub name: &'a [u8],
    // option 55, the codes to request, if there is one
    pub list: Option<&'a [u8]>,
    // options that the message ends with
    pub extra: &'a [u8],
}

// Lists within their limits.
#[derive(Clone, Copy)]
pub(crate) struct ShortLists<'a> {
    pub(crate) lists: Lists<'a>,
    ghost named: { length lists.name.now ≤ name_limit },
    ghost listed: { ForSome lists.list (λ codes. length codes.now ≤ list_limit) },
    ghost extras: { length lists.extra.now ≤ extra_limit },
}

impl<'a> Lists<'a> {
    // These lists, if they are within their limits and the extra options are whole items.
    pub(crate) fn short(self) -> Result<ShortLists<'a>, Refusal>
        ensures lists { IfOk result (λ short. short.lists ≡ self.entry) }
        ensures measured { (m : MessageFields) → measured m self.entry.name.now (option_copied self.entry.list) self.entry.extra.now ≡ result_map_both (λ _. length (message m self.entry.name.now (option_copied self.entry.list) self.entry.extra.now)) (λ refusal. refusal) result }
    {
        if NAME_LIMIT < self.name.len() {
            return Err(Refusal::Name);
        }
        if self.list.is_some_and(|codes| LIST_LIMIT < codes.len()) {
            return Err(Refusal::RequestList);
        }
        if EXTRA_LIMIT < self.extra.len() || !whole_items(self.extra) {
            return Err(Refusal::ExtraOptions);
        }
        Ok(ShortLists { lists: self })
    }
}
