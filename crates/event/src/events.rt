// An event: a series under its UID. A store's pair and what an undo restores have other series, and no function in common.
use series::records::Series;
use series::uids::Uid;

#[derive(Clone, Copy)]
pub struct Event<S> {
    pub uid: Uid,
    pub series: Series<S>,
}
