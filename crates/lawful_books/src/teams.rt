ghost use Rattle.lawful_books.specs.Fifteens.{TeamsAreFit, TeamsHaveShape};
ghost use Rattle.lawful_books.specs.TeamsTold.{TeamsToldAreFit, TeamsToldGoOn};

/// A law on the definitions: from its first gameweek on, the team of a lawful history is a squad of the right shape.
/// Its fifteen are there, in a legal lineup, at prices that can be, and none of them stands twice.
pub fn teams_have_shape()
    ensures shape { TeamsHaveShape }
    ensures fit { TeamsAreFit }
{}

/// A law on the definitions: where a map tells what a book tells, and the history of an entry of the book is lawful,
/// each of its teams that the map tells of is fit, and follows from what was before it.
pub fn told_teams_are_lawful()
    ensures fit { TeamsToldAreFit }
    ensures sequel { TeamsToldGoOn }
{}
