ghost use Rattle.fpl_reports.specs.Laws.{OneSeason, SeasonOrWrongRow, OneWrongRow};

/// A law on the definitions: three files describe one season, or have one first wrong row, and not both.
pub fn season_files_say_once()
    ensures season { OneSeason }
    ensures apart { SeasonOrWrongRow }
    ensures wrong { OneWrongRow }
{}
