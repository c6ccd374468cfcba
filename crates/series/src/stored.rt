// The record of a series as a store keeps it.
use crate::overrides::Overrides;
use crate::records::Series;
use crate::stamps::Stamp;

// What repeats, and what became of some of its days.
#[derive(Clone, Copy)]
pub struct StoredSeries<S> {
    pub repeats: Series<S>,
    pub stamp: Stamp,
    pub overrides: Overrides,
}
