ghost use Rattle.match_facts.specs.Laws.{SheetsAreAMap, LinesAreAMap, LinesGo, SheetsHaveTheirLines};

/// A law on the definitions: the facts are a map from fixtures to sheets, the lines of a sheet a map from players, and
/// those of a sheet that was handed in are its own.
pub fn facts_are_maps()
    ensures sheets { SheetsAreAMap }
    ensures lines { LinesAreAMap }
    ensures gone { LinesGo }
    ensures sheet { SheetsHaveTheirLines }
{}
