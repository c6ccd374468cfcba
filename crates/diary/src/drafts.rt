// Edits in preparation: at most eight, each of one UID.
use series::changes::Alteration;
use series::clocks::Clock;
use series::durations::Duration;
use series::texts::Text;
use series::uids::Uid;

// What all occurrences of a UID are to carry: what a series has beside its source.
// A series names the three one by one, for a field that held them would only lengthen each path there.
#[derive(Clone, Copy)]
pub struct Carried {
    pub clock: Clock,
    pub duration: Duration,
    pub text: Text,
}

// An edit that has been checked.
#[derive(Clone, Copy)]
pub enum Edit {
    Cancel {
        day: u32,
    },
    Alter {
        day: u32,
        alteration: Alteration,
    },
    Whole(Carried),
    // from a day on, under a new UID
    Split {
        day: u32,
        new: Uid,
        carried: Carried,
    },
}

// A draft holds its UID from the start, and has its edit once that has been checked.
#[derive(Clone, Copy)]
pub struct Draft {
    pub uid: Uid,
    pub edit: Option<Edit>,
}

// How many drafts there may be at a time.
pub const DRAFT_LIMIT: usize = 8;

#[derive(Clone, Copy)]
pub struct Drafts {
    pub(crate) slots: [Option<Draft>; DRAFT_LIMIT],
}
