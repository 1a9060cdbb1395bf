// What follows from the definitions alone.
ghost use Rattle.season_competitions.specs.Leagues.{MembersAlwaysStay};

/// A law: the members of leagues are entries that were issued, behind each command that nothing refuses, and where entries
/// are added.
pub fn members_stay()
    ensures { MembersAlwaysStay }
{}
