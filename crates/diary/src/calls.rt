// The calls of a diary.
ghost use Rattle.std.specs.Prelude.{◌≡◌, ◌*◌, ◌<◌, [], length, take, drop, IfOk, Some, None, vec_len, MatchResult};
ghost use Rattle.refusal.specs.Numbers.{number};
ghost use Rattle.history.specs.Explains.{Explains};
ghost use Rattle.history.specs.Histories.{History, blank, enter, fed, agenda as asked};
ghost use Rattle.history.specs.Items.{read};
ghost use Rattle.history.specs.States.{occurrences};
ghost use Rattle.merge.specs.Printed.{plans_of, Printed, Refused, Crowded};
ghost use Rattle.page.specs.Pages.{Stays};
ghost use Rattle.undo.specs.declared.logs.UndoLog.{UndoLog};
ghost use Rattle.undo.specs.Logs.{records_in};
ghost use Rattle.diary.specs.Drafts.{numbered};
ghost use Rattle.diary.specs.Entries.{enter_refusal, entry_plan};
ghost use Rattle.diary.specs.Rooms.{Roomy};
ghost use Rattle.diary.specs.States.{answer_of, printed_as, state_of, Entered};

use crate::diaries::Diary;
use crate::drafts::Drafts;
use crate::entering::pair_of;
use crate::entries::Entry;
use calendar::windows::Window;
use merge::agendas::agenda;
use page::pages::Page;
use refusal::Refusal;
use std::alloc::{AllocError, Global};
use store::stores::Store;
use tournament::nodes::Node;
use undo::logs::{REMEMBERED, UndoLog};
use undo::records::{Former, UndoRecord};

impl<St: Store> Diary<St> {
    // A diary over a store, with no drafts. The room that its agenda needs is taken here.
    pub fn new(heap: Global, store: St) -> Result<Diary<St>, AllocError>
        ensures state { IfOk result (λ d. (d.store ≡ store) × (numbered 1 d.drafts.slots ≡ []) × Roomy St.Store.limit d) }
        ensures explained { IfOk result (λ d. (log : UndoLog St.Source) → St.Store.pairs store ≡ [] → records_in log ≡ [] → Explains blank (state_of St.Source.Source.days (St.Store.pairs d.store) log d.drafts.slots)) }
    {
        let room = store.capacity().checked_mul(2).ok_or(AllocError)?;
        let nodes = vec![in heap; Node {
            start: 0,
            place: 0,
            day: 0
        }; room]?;
        Ok(Diary {
            store,
            drafts: Drafts::none(),
            nodes,
        })
    }

    // Enters a series under a UID. Want of places in the undo log is refused first (26), then a value out of bounds (8), and then what the diary has or holds.
    pub fn enter(
        &mut self,
        log: &mut UndoLog<St::Source>,
        uid: &[u8],
        entry: &Entry<St::Source>,
    ) -> Result<(), Refusal>
        ensures cases { MatchResult result
            (λ _. (enter_refusal St.Source.Source.days log.old.places (St.Store.limit self.old.store) (St.Store.pairs self.old.store) self.old.drafts.slots uid.now entry.now ≡ None)
            × Entered uid.now entry.now (St.Store.pairs self.old.store) (St.Store.pairs self.new.store) log.old log.new)
            (λ e. (enter_refusal St.Source.Source.days log.old.places (St.Store.limit self.old.store) (St.Store.pairs self.old.store) self.old.drafts.slots uid.now entry.now ≡ Some (number e))
            × (self.new ≡ self.old) × (log.new ≡ log.old)) }
        ensures kept { (self.new.drafts ≡ self.old.drafts) × (self.new.nodes ≡ self.old.nodes) × (St.Store.limit self.new.store ≡ St.Store.limit self.old.store) × (log.new.places ≡ log.old.places) }
        ensures explained { (h : History) → Explains h (state_of St.Source.Source.days (St.Store.pairs self.old.store) log.old self.old.drafts.slots) → Explains (fed h (enter uid.now (entry_plan St.Source.Source.days entry.now)) (answer_of result)) (state_of St.Source.Source.days (St.Store.pairs self.new.store) log.new self.new.drafts.slots) }
    {
        if log.places() < REMEMBERED {
            return Err(Refusal::ShortUndoLog);
        }
        let pair = pair_of(uid, entry)?;
        self.admit(&pair)?;
        self.store.put(pair).unwrap();
        log.remember(UndoRecord::One(Former {
            uid: pair.uid,
            series: None,
        }));
        Ok(())
    }

    // The lines of the live occurrences that start in a window, and their number. It changes nothing but its scratch room and the page.
    pub fn agenda(&mut self, window: Window, page: &mut Page) -> Result<usize, Refusal>
        ensures stays { Stays page.old page.new }
        ensures cases { Roomy St.Store.limit self.old → MatchResult result (λ n. Printed (occurrences (plans_of St.Source.Source.days (St.Store.pairs self.old.store))) window n page.old page.new) (λ e. Refused (occurrences (plans_of St.Source.Source.days (St.Store.pairs self.old.store))) window page.old page.new e) }
        ensures crowded { vec_len self.old.nodes < 2 * length (St.Store.pairs self.old.store) → MatchResult result (λ _. ⊥) (λ e. Crowded window page.old page.new e) }
        ensures unchanged { (self.new.store ≡ self.old.store) × (self.new.drafts ≡ self.old.drafts) × (vec_len self.new.nodes ≡ vec_len self.old.nodes) }
        ensures lines { (h : History) (log : UndoLog St.Source) → Explains h (state_of St.Source.Source.days (St.Store.pairs self.old.store) log self.old.drafts.slots) → Roomy St.Store.limit self.old → MatchResult result (λ n. Printed (read h.items) window n page.old page.new) (λ e. Refused (read h.items) window page.old page.new e) }
        ensures explained { (h : History) (log : UndoLog St.Source) → Explains h (state_of St.Source.Source.days (St.Store.pairs self.old.store) log self.old.drafts.slots) → Explains (fed h (asked window.from window.end) (printed_as result (drop page.old.len (take page.new.len page.new.octets.now)))) (state_of St.Source.Source.days (St.Store.pairs self.new.store) log self.new.drafts.slots) }
    {
        agenda(&self.store, self.nodes.as_mut_slice(), window, page)
    }
}
