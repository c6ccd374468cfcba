// The parts of a rule, of which it can be made again.
ghost use Rattle.std.specs.Prelude.{◌≡◌};
ghost use Rattle.rule.specs.Remade.{recurrence_in, Remakes};

use crate::rules::Rule;
use recurrence::parts::Recurrence;

impl Rule {
    // The start: the first day, if the rule has days.
    pub fn start(&self) -> u32
        ensures { result ≡ self.now.choice.start }
    {
        self.choice.start
    }

    // The recurrence, or none where the start is the only day.
    #[tactic(auto, using(crate::proofs::Remaking::remakes))]
    pub fn recurrence(&self) -> Option<Recurrence>
        ensures value { result ≡ recurrence_in self.now }
        ensures remakes { Remakes self.now }
    {
        self.choice.pattern.map(|pattern| Recurrence {
            pattern,
            count: self.count,
            until: self.until,
        })
    }
}
