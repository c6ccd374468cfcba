// The override map: at most 24 days of a series that are cancelled or altered.
use crate::changes::Override;
use bounded::climbing::Climbing;

pub const OVERRIDE_LIMIT: usize = 24;

#[derive(Clone, Copy)]
pub struct Overrides {
    pub(crate) items: Climbing<Override, OVERRIDE_LIMIT>,
}
