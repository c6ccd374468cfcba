// A clock: a minute of the day, 0 to 1439.
use crate::minutes::Minutes;

pub type Clock = Minutes<1439>;
