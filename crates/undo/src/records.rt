// What one change replaced.
use series::stored::StoredSeries;
use series::uids::Uid;

// What a UID had before the change: its series, or none.
#[derive(Clone, Copy)]
pub struct Former<S> {
    pub uid: Uid,
    pub series: Option<StoredSeries<S>>,
}

// A change touches one UID, or two where a series is split. A second Former in an Option would not say that.
#[derive(Clone, Copy)]
pub enum UndoRecord<S> {
    One(Former<S>),
    Two(Former<S>, Former<S>),
}
