ghost use Rattle.fpl_run.specs.Laws.{OneScoreDue};

use score_sheet::input_scores_once;

/// For the bytes of a match one status and one text are due.
pub fn one_score_is_due()
    ensures { OneScoreDue }
{
    // The law on which it stands, for the prover.
    input_scores_once();
}
