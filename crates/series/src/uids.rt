// A UID: 1 to 64 visible octets without comma, semicolon, colon and backslash.
use crate::alphabets::UidOctets;
use crate::labels::Label;

pub const UID_LIMIT: usize = 64;

pub type Uid = Label<UidOctets, UID_LIMIT>;
