// Making a stamp, and its octets.
ghost use Rattle.std.specs.Prelude.{◌≡◌, ℕ, ◌<◌, ◌≤◌, true, false, length, MatchResult};
ghost use Rattle.refusal.specs.Numbers.{number};
ghost use Rattle.series.specs.Octets.{stamp_octet, every_at, is_stamp};
ghost use Rattle.series.specs.Values.{stamp_octets};

use crate::stamps::Stamp;
use refusal::Refusal;

impl Stamp {
    pub fn new(octets: &[u8]) -> Result<Stamp, Refusal>
        ensures { MatchResult result (λ s. (is_stamp octets.now ≡ true) × (stamp_octets s ≡ octets.now)) (λ e. (is_stamp octets.now ≡ false) × (number e ≡ 8)) }
    {
        let octets = <[u8; 16]>::try_from(octets).map_err(|_| Refusal::OutOfBounds)?;
        if !all_placed(&octets) {
            return Err(Refusal::OutOfBounds);
        }
        Ok(Stamp { octets })
    }

    pub fn as_bytes(&self) -> &[u8]
        ensures { result.now ≡ stamp_octets self.now }
    {
        &self.octets
    }
}

// Whether an octet may stand at a place of a stamp.
fn placed(place: usize, octet: u8) -> bool
    ensures { result ≡ stamp_octet place octet }
{
    match place {
        8 => octet == b'T',
        15 => octet == b'Z',
        _ => octet.is_ascii_digit(),
    }
}

// Whether all octets stand where they may.
fn all_placed(octets: &[u8]) -> bool
    ensures { result ≡ every_at stamp_octet 0 octets.now }
{
    octets
        .iter()
        .enumerate()
        .all(|(place, octet)| placed(place, *octet))
}
