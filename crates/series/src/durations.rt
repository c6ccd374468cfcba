// A duration: 0 to 1440 minutes.
use crate::minutes::Minutes;

pub type Duration = Minutes<1440>;
