// The values of an entry, and what it is refused for.
ghost use Rattle.std.specs.Prelude.{◌≡◌, ◌+◌, true, false, length, is_some, MatchResult, nat_le};
ghost use Rattle.refusal.specs.Numbers.{number};
ghost use Rattle.series.specs.Values.{uid_octets};
ghost use Rattle.diary.specs.Drafts.{all_reserved};
ghost use Rattle.diary.specs.Entries.{values_fit, PairOf, on_days, state_refusal};
ghost use Rattle.store.specs.Pairs.{key, held};

use crate::diaries::Diary;
use crate::entries::Entry;
use refusal::Refusal;
use series::changes::Override;
use series::clocks::Clock;
use series::durations::Duration;
use series::records::Series;
use series::stamps::Stamp;
use series::stored::StoredSeries;
use series::texts::Text;
use series::uids::Uid;
use source::asking::{has_day, is_empty};
use source::sources::Source;
use store::pairs::Pair;
use store::stores::Store;

// The pair that a UID and an entry make, or a refusal where a value is out of bounds.
pub(crate) fn pair_of<S: Copy>(uid: &[u8], entry: &Entry<S>) -> Result<Pair<S>, Refusal>
    ensures { MatchResult result (λ p. (values_fit uid.now entry.now ≡ true) × PairOf uid.now entry.now p) (λ e. (values_fit uid.now entry.now ≡ false) × (number e ≡ 8)) }
{
    let uid = Uid::new(uid)?;
    let clock = Clock::new(entry.clock)?;
    let duration = Duration::new(entry.duration)?;
    let text = Text::new(entry.text)?;
    let stamp = Stamp::new(entry.stamp)?;
    Ok(Pair {
        uid,
        series: StoredSeries {
            repeats: Series {
                source: entry.source,
                clock,
                duration,
                text,
            },
            stamp,
            overrides: entry.overrides,
        },
    })
}

// Whether every override is of one of the source's days.
fn on_days<S: Source>(overrides: &[Override], source: &S) -> bool
    ensures { result ≡ on_days overrides.now (S.Source.days source.now) }
{
    overrides.iter().all(|item| has_day(source, item.day))
}

// Whether a store has the UID.
#[tactic(auto, using(crate::proofs::Places::place_held))]
fn is_present<St: Store>(store: &St, uid: &Uid) -> bool
    ensures { result ≡ is_some (held (uid_octets uid.now) (St.Store.pairs store.now)) }
{
    store.place(uid).is_some()
}

impl<St: Store> Diary<St> {
    // Whether every place is taken or reserved.
    fn is_full(&self) -> bool
        ensures { result ≡ nat_le (St.Store.limit self.now.store) (length (St.Store.pairs self.now.store) + all_reserved self.now.drafts.slots) }
    {
        let taken = self.store.count().saturating_add(self.drafts.reserved());
        taken >= self.store.capacity()
    }

    // Refuses what it cannot take of a pair, for the first reason that applies.
    pub(crate) fn admit(&self, pair: &Pair<St::Source>) -> Result<(), Refusal>
        ensures { MatchResult result (λ _. state_refusal St.Source.Source.days (St.Store.limit self.now.store) (St.Store.pairs self.now.store) self.now.drafts.slots (key pair.now) pair.now.series.repeats.source pair.now.series.overrides ≡ None) (λ e. state_refusal St.Source.Source.days (St.Store.limit self.now.store) (St.Store.pairs self.now.store) self.now.drafts.slots (key pair.now) pair.now.series.repeats.source pair.now.series.overrides ≡ Some (number e)) }
    {
        if is_present(&self.store, &pair.uid) {
            return Err(Refusal::UidPresent);
        }
        if self.drafts.holds(&pair.uid) {
            return Err(Refusal::UidHeld);
        }
        if is_empty(&pair.series.repeats.source) {
            return Err(Refusal::EmptySource);
        }
        if !on_days(
            pair.series.overrides.as_slice(),
            &pair.series.repeats.source,
        ) {
            return Err(Refusal::OffSource);
        }
        if self.is_full() {
            return Err(Refusal::StoreFull);
        }
        Ok(())
    }
}
