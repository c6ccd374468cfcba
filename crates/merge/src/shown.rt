// The line of one shown occurrence.
ghost use Rattle.std.specs.Prelude.{◌≡◌, ◌<◌, MatchResult};
ghost use Rattle.calendar.specs.Starts.{starts_end};
ghost use Rattle.page.specs.Pages.{Stays, Puts, Lacks};
ghost use Rattle.series.specs.Marks.{mark_on};
ghost use Rattle.series.specs.Plans.{overrides_of, text_by};
ghost use Rattle.series.specs.Values.{text_octets};
ghost use Rattle.merge.specs.Places.{ShowsAt, named};
ghost use Rattle.merge.specs.Printed.{occurrence_line};

use calendar::days::date_of;
use calendar::starts::{Moment, moment_of};
use page::pages::Page;
use refusal::Refusal;
use series::changes::Change;
use series::shown_texts::shown_text;
use series::stored::StoredSeries;
use store::stores::Store;
use tournament::nodes::Node;

// The text that the occurrence of a day shows: an altered one its own.
fn text_on<S>(series: &StoredSeries<S>, day: u32) -> &[u8]
    ensures { result.now ≡ text_by (mark_on (overrides_of series.now.overrides) day) (text_octets series.now.repeats.text) }
{
    let own = match series.overrides.change_on(day) {
        Some(Change::Altered(alteration)) => Some(&alteration.text),
        _ => None,
    };
    shown_text(&series.repeats.text, own)
}

// Adds the line of the occurrence that a node stands for.
pub(crate) fn put_node<St: Store>(page: &mut Page, store: &St, top: Node) -> Result<(), Refusal>
    requires { (top.start < starts_end) × (ShowsAt St.Source.Source.days (St.Store.pairs store.now) top.place top.start top.day) }
    ensures stays { Stays page.old page.new }
    ensures cases { MatchResult result (λ _. Puts (occurrence_line (named St.Source.Source.days (St.Store.pairs store.now) top)) page.old page.new) (λ e. Lacks (occurrence_line (named St.Source.Source.days (St.Store.pairs store.now) top)) page.old page.new e) }
{
    let pair = store.at(top.place).unwrap();
    let Moment { day, clock } = moment_of(top.start).unwrap();
    page.put_line(
        date_of(day).unwrap(),
        clock,
        pair.series.repeats.duration.minutes(),
        pair.uid.as_bytes(),
        text_on(&pair.series, top.day),
    )
}
