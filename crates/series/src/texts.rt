// A text: 1 to 60 octets, none of them a control character.
use crate::alphabets::TextOctets;
use crate::labels::Label;

pub const TEXT_LIMIT: usize = 60;

pub type Text = Label<TextOctets, TEXT_LIMIT>;
