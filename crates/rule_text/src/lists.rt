// A list of entries, parted by commas.
ghost use Rattle.std.specs.Prelude.{◌≡◌, ◌<◌};
ghost use Rattle.rule_text.specs.Lists.{pushed, few_named};

use crate::entries::Entry;
use crate::fields::Fields;
use recurrence::parts::Few;

// One entry more. Past the twelfth only the number of entries grows, by which the list is refused later.
fn push<T: Copy>(few: Few<T>, entry: T) -> Few<T>
    requires { few.len < 18446744073709551615 }
    ensures { result ≡ pushed few entry }
{
    let mut items = few.items;
    if few.len < items.len() {
        items[few.len] = entry;
    }
    Few {
        items,
        len: few.len + 1,
    }
}

// The entries of a list, or none where a field names none.
// The blank is handed in, since a clause cannot name a constant of the trait.
#[tactic(auto, using(crate::proofs::Fielding::fields_within))]
pub(crate) fn read_list<T: Entry>(octets: &[u8], blank: T) -> Option<Few<T>>
    ensures { result ≡ few_named T.Entry.named blank octets.now }
{
    let mut few = Few::empty(blank);
    for field in Fields::new(octets, ',') {
        few = push(few, T::read(field)?);
    }
    Some(few)
}
