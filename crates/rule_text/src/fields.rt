// The fields of a text that a character parts, one after the other.
// A `let .. else` at each mark that parts the text.
ghost use Rattle.std.specs.Prelude.{◌≡◌};
ghost use Rattle.std.specs.Iterator.{YieldsFirstRef, item_count};
ghost use Rattle.rule_text.specs.Fields.{fields_left};
ghost use Rattle.rule_text.specs.Lists.{fields_at};

use notation::fields::cut;

// What is left of a text: none once the last field was taken.
#[derive(Clone, Copy)]
pub(crate) struct Fields<'a> {
    rest: Option<&'a [u8]>,
    mark: char,
}

impl<'a> Fields<'a> {
    // A text without such a character is one field.
    pub(crate) fn new(octets: &'a [u8], mark: char) -> Fields<'a>
        ensures { fields_left result ≡ fields_at mark octets.now }
    {
        Fields {
            rest: Some(octets),
            mark,
        }
    }
}

impl<'a> Iterator for Fields<'a> {
    type Item = &'a [u8];

    ghost next_gives = { YieldsFirstRef fields_left };

    ghost remaining = { item_count fields_left };

    #[tactic(auto, using(crate::proofs::Fielding::one_field, crate::proofs::Fielding::more_fields))]
    fn next(&mut self) -> Option<&'a [u8]> {
        let text = self.rest?;
        let Some((field, rest)) = cut(text, self.mark) else {
            self.rest = None;
            return Some(text);
        };
        self.rest = Some(rest);
        Some(field)
    }
}
