// The numbers that digits write.
ghost use Rattle.std.specs.Prelude.{◌≡◌, ℕ, ◌+◌, ◌*◌, ◌^◌, ◌<◌, ◌≤◌, min, Some, None, IfSome, if◌then◌else◌};
ghost use Rattle.notation.specs.Digits.{all_digits, value_from, numeral, number, capped};

use refusal::Refusal;

// The number that digits write, or the largest of u32 where it is larger; none where an octet is no digit.
fn saturated(octets: &[u8]) -> Option<u32>
    ensures { result ≡ (if all_digits octets.now then Some (min (value_from 0 octets.now) 4294967295) else None) }
{
    // a `for`: `try_fold` would hold the same test and step in one closure
    let mut value: u32 = 0;
    for x in octets {
        if !x.is_ascii_digit() {
            return None;
        }
        value = value.saturating_mul(10).saturating_add((*x - b'0') as u32);
    }
    Some(value)
}

// The number that so many digits write, nine at the most, or none.
pub fn numeral_of(octets: &[u8], least: usize, most: usize) -> Option<u32>
    ensures value { result ≡ numeral least (min most 9) octets.now }
    ensures bound { IfSome result (λ n. n < 10 ^ min most 9) }
{
    if octets.len() < least || octets.len() > most.min(9) {
        return None;
    }
    saturated(octets)
}

// A number of one to five digits.
pub fn number_of(octets: &[u8]) -> Result<u32, Refusal>
    ensures { result ≡ number octets.now }
{
    numeral_of(octets, 1, 5).ok_or(Refusal::Malformed)
}

// The number that one or more digits write, or 100,000 where it is larger: past every bound of a rule.
pub fn capped_of(octets: &[u8]) -> Option<u32>
    ensures { result ≡ capped octets.now }
{
    if octets.is_empty() {
        return None;
    }
    saturated(octets).map(|value| value.min(100_000))
}
