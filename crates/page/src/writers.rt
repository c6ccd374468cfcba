// Writing behind the page's length, and the guard that puts the length back.
ghost use Rattle.std.specs.Prelude.{◌≡◌, ◌+◌, ◌≤◌, ◌++◌, length, take, MatchOption, MatchResult};
ghost use Rattle.std.specs.List.{flat_map};
ghost use Rattle.std.specs.Fn.{FnOnceReturnsAtMut};
ghost use Rattle.page.specs.Pages.{Kept, Stays, Puts, Breaks, Lacks, Wholly};

use crate::pages::Page;
use refusal::Refusal;

// Fills the part of the page from a place onward with a piece.
fn fill(octets: &mut [u8], at: usize, piece: &[u8])
    requires { at + length piece.now ≤ length octets.old }
    ensures kept { Kept octets.old octets.new at }
    ensures added { take (at + length piece.now) octets.new ≡ take at octets.old ++ piece.now }
{
    let room = &mut octets[at..];
    let part = &mut room[0..piece.len()];
    part.copy_from_slice(piece);
}

impl Page<'_> {
    // Adds a piece behind the page's length.
    pub fn put(&mut self, piece: &[u8]) -> Result<(), Refusal>
        ensures stays { Stays self.old self.new }
        ensures cases { MatchResult result (λ _. Puts piece.now self.old self.new) (λ e. Lacks piece.now self.old self.new e) }
    {
        let at = self.len;
        if at > self.octets.len() || piece.len() > self.octets.len() - at {
            return Err(Refusal::PageFull);
        }
        fill(self.octets, at, piece);
        self.len = at + piece.len();
        Ok(())
    }

    // Adds pieces one behind the other; a refusal leaves those before it.
    fn put_each(&mut self, pieces: &[&[u8]]) -> Result<(), Refusal>
        ensures stays { Stays self.old self.new }
        ensures cases { MatchResult result (λ _. Puts (flat_map (λ x. x.now) pieces.now) self.old self.new) (λ e. Breaks (flat_map (λ x. x.now) pieces.now) self.old e) }
    {
        // refuses a length past the end, where there is no piece
        self.put(b"")?;
        for piece in pieces {
            self.put(piece)?;
        }
        Ok(())
    }
}

// Puts the length back to where it started, unless the writing was completed.
struct Guard<'a, 'b> {
    page: &'a mut Page<'b>,
    start: Option<usize>,
}

impl Drop for Guard<'_, '_> {
    fn drop(self)
        ensures same { self.exit.0.now.octets.ghost_name ≡ self.entry.page.now.octets.ghost_name }
        ensures octets { self.exit.0.now.octets.now ≡ self.entry.page.now.octets.now }
        ensures len { MatchOption self.entry.start (self.exit.0.now.len ≡ self.entry.page.now.len) (λ n. self.exit.0.now.len ≡ n) }
    {
        if let Some(start) = self.start {
            self.page.len = start;
        }
        let Guard { page: _, start: _ } = self;
    }
}

impl Page<'_> {
    // Lets a closure write, and puts the length back where it refuses.
    pub fn whole<T, F: FnOnce(&mut Page) -> Result<T, Refusal>>(
        &mut self,
        write: F,
    ) -> Result<T, Refusal>
        requires { F.IsAlwaysCallable write }
        ensures { Wholly (FnOnceReturnsAtMut F.FnOnce write self.old) result self.old self.new }
    {
        let start = Some(self.len);
        let mut guard = Guard { page: self, start };
        let done = write(guard.page)?;
        guard.start = None;
        Ok(done)
    }

    // Adds pieces one behind the other: all of them, or none.
    pub fn put_all(&mut self, pieces: &[&[u8]]) -> Result<(), Refusal>
        ensures stays { Stays self.old self.new }
        ensures cases { MatchResult result (λ _. Puts (flat_map (λ x. x.now) pieces.now) self.old self.new) (λ e. Lacks (flat_map (λ x. x.now) pieces.now) self.old self.new e) }
    {
        self.whole(|page| page.put_each(pieces))
    }
}
