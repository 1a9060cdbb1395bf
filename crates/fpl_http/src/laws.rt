// What is so of each stream, whoever reads it.
ghost use Rattle.fpl_http.specs.Laws.{TwoReadingsAreOne, MessagesStay, RefusalsStay, WantingIsOpen};

/// Two readings of a stream are one.
pub fn two_readings_are_one()
    ensures { TwoReadingsAreOne }
{}

/// What was found in a part of a stream is found in the whole.
pub fn fronts_stay()
    ensures messages { MessagesStay }
    ensures refusals { RefusalsStay }
    ensures wanting { WantingIsOpen }
{}
