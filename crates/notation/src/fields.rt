// The fields of a text that a character parts, and its first character.
ghost use Rattle.std.specs.Prelude.{◌≡◌, ℕ, ◌+◌, ◌<◌, ◌≤◌, [], ◌∷◌, position, Some, None, MatchOption, ◌==◌};
ghost use Rattle.notation.specs.Fields.{cut_at};

// The place of the first such character.
fn place(octets: &[u8], mark: char) -> Option<usize>
    ensures { result ≡ position (λ x. x == mark) octets.now }
{
    octets.iter().position(|x| *x as char == mark)
}

// What stands before and behind the first such character, or none where there is no such one.
#[tactic(auto, using(crate::proofs::Cuts::cut_missed, crate::proofs::Cuts::cut_there))]
pub fn cut(octets: &[u8], mark: char) -> Option<(&[u8], &[u8])>
    ensures { MatchOption result (cut_at mark octets.now ≡ None) (λ p. cut_at mark octets.now ≡ Some (p.0.now, p.1.now)) }
{
    let i = place(octets, mark)?;
    Some((&octets[..i], &octets[i + 1..]))
}

// The first character and the rest, or none where there is no character.
pub fn first_rest(octets: &[u8]) -> Option<(char, &[u8])>
    ensures { MatchOption result (octets.now ≡ []) (λ p. octets.now ≡ p.0 ∷ p.1.now) }
{
    let (first, rest) = octets.split_first()?;
    Some((*first as char, rest))
}
