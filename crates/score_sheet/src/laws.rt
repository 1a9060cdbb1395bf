ghost use Rattle.score_sheet.specs.Laws.{OneText, TextOrWrongRow, OneWrongRow};

/// An input has one of a text and a first wrong row at most, and one of it.
pub fn input_scores_once()
    ensures text { OneText }
    ensures apart { TextOrWrongRow }
    ensures wrong { OneWrongRow }
{}
