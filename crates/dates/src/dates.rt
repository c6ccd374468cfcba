// The date list: at most 24 days, one by one.
use bounded::climbing::Climbing;

#[derive(Clone, Copy)]
pub struct DateList {
    pub(crate) days: Climbing<u32, 24>,
}
