// Known dates, proved of the definitions.
ghost use Rattle.rule.specs.Known.{Known};

pub fn known_dates()
    ensures { Known }
{}
