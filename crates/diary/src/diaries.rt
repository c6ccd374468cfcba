// The diary: a store of series, the drafts, and room for the agenda.
use crate::drafts::Drafts;
use tournament::nodes::Node;

// The nodes are scratch room, two for each place of the store, taken when the diary is made.
#[derive(Drop)]
pub struct Diary<St> {
    pub(crate) store: St,
    pub(crate) drafts: Drafts,
    pub(crate) nodes: Vec<Node>,
}
