// Which UIDs drafts hold, and how many places they reserve.
ghost use Rattle.std.specs.Prelude.{◌≡◌, [], Some, is_some};
ghost use Rattle.std.specs.Option.{option_map};
ghost use Rattle.series.specs.Values.{uid_octets};
ghost use Rattle.diary.specs.Drafts.{is_in, held_by, any_holds, reserved_by, reserved_by_edit, all_reserved, numbered};

use crate::drafts::{DRAFT_LIMIT, Draft, Drafts, Edit};
use series::uids::Uid;

impl Draft {
    // The UID that its edit is to bring in, for which a place of the store is kept.
    fn brought_in(&self) -> Option<Uid>
        ensures { option_map uid_octets result ≡ reserved_by_edit self.now.edit }
    {
        match self.edit {
            Some(Edit::Split { new, .. }) => Some(new),
            _ => None,
        }
    }

    fn holds(&self, uid: &Uid) -> bool
        ensures { result ≡ is_in (uid_octets uid.now) (held_by (Some self.now)) }
    {
        self.uid == *uid || self.brought_in().is_some_and(|new| new == *uid)
    }
}

// Whether a place of the store is kept for what the draft of a slot brings in.
fn reserves(slot: &Option<Draft>) -> bool
    ensures { result ≡ is_some (reserved_by slot.now) }
{
    slot.as_ref()
        .is_some_and(|draft| draft.brought_in().is_some())
}

impl Drafts {
    // No drafts.
    pub fn none() -> Drafts
        ensures { numbered 1 result.slots ≡ [] }
    {
        Drafts {
            slots: [None; DRAFT_LIMIT],
        }
    }

    // Whether a draft holds the UID.
    pub(crate) fn holds(&self, uid: &Uid) -> bool
        ensures { result ≡ any_holds (uid_octets uid.now) self.now.slots }
    {
        // not flatten(): with it the check finds no proof that `any` speaks of all slots
        self.slots
            .iter()
            .any(|slot| slot.as_ref().is_some_and(|draft| draft.holds(uid)))
    }

    // How many places of the store are reserved.
    pub(crate) fn reserved(&self) -> usize
        ensures { result ≡ all_reserved self.now.slots }
    {
        // not flatten(), as above
        self.slots.iter().filter(|slot| reserves(slot)).count()
    }
}
