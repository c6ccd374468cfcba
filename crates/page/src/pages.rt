// The page that writers write on.
ghost use Rattle.std.specs.Prelude.{◌≡◌, ◌≤◌, ◌<◌, length, take};

// Lent octets, and how many of them are written. Nothing is checked here: each writer refuses a length past the end.
#[derive(Drop)]
pub struct Page<'a> {
    pub octets: &'a mut [u8],
    pub len: usize,
}

impl<'a> Page<'a> {
    // A page on which nothing is written.
    pub fn new(octets: &'a mut [u8]) -> Page<'a>
        ensures same { result.octets.ghost_name ≡ octets.entry.ghost_name }
        ensures octets { result.octets.now ≡ octets.old }
        ensures len { result.len ≡ 0 }
    {
        Page { octets, len: 0 }
    }
}

impl Page<'_> {
    // What is written; all of the octets, where the length lies past them.
    pub fn written(&self) -> &[u8]
        ensures { result.now ≡ take self.now.len self.now.octets.now }
    {
        let end = self.len.min(self.octets.len());
        &self.octets[..end]
    }
}
