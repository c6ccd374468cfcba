// The ordered list of plans is as good as its map.
ghost use Rattle.history.specs.PlanLaws.{PlacedIsPut, PlacedIsPuts, StaysAscending, OccurrencesOfMap, TakenBack};

// What is placed in the list is put in its map.
pub fn list_is_map()
    ensures one { PlacedIsPut }
    ensures all { PlacedIsPuts }
    ensures ascending { StaysAscending }
    ensures occurrences { OccurrencesOfMap }
{}

// The record of what stood there takes back whatever was put.
pub fn puts_are_taken_back()
    ensures { TakenBack }
{}
