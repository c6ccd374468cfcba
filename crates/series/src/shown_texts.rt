// The text that an occurrence shows.
ghost use Rattle.std.specs.Prelude.{◌≡◌};
ghost use Rattle.std.specs.Option.{option_map};
ghost use Rattle.series.specs.Values.{own_or};

use crate::texts::Text;

// An altered occurrence shows its own text, any other that of its series.
pub fn shown_text<'a>(series: &'a Text, own: Option<&'a Text>) -> &'a [u8]
    ensures { result.now ≡ own_or (option_map (λ x. x.now) own.entry) series.now }
{
    own.unwrap_or(series).as_bytes()
}
