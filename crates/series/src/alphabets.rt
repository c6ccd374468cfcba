// Which octets a text or a UID may hold.
ghost use Rattle.std.specs.Prelude.{◌≡◌, ℕ, Bool};
ghost use Rattle.series.specs.Octets.{text_octet, uid_octet, every};

// A set of octets.
pub trait Alphabet: Copy {
    ghost holds: { ℕ → Bool };

    fn allows(octet: u8) -> bool
        ensures { result ≡ holds octet };
}

#[derive(Clone, Copy)]
pub struct TextOctets;

#[derive(Clone, Copy)]
pub struct UidOctets;

impl Alphabet for TextOctets {
    ghost holds = { text_octet };

    fn allows(octet: u8) -> bool {
        matches!(octet, 32..=126 | 128..)
    }
}

impl Alphabet for UidOctets {
    ghost holds = { uid_octet };

    fn allows(octet: u8) -> bool {
        octet.is_ascii_graphic() && !matches!(octet, b',' | b';' | b':' | b'\\')
    }
}

// Whether all octets are of the alphabet.
pub(crate) fn all_of<A: Alphabet>(octets: &[u8]) -> bool
    ensures { result ≡ every A.holds octets.now }
{
    octets.iter().all(|octet| A::allows(*octet))
}
