// Things by any number. Where a number is no id, it is sought among the ids that are there, and not found.
ghost use Rattle.std.specs.Prelude.{◌≡◌, ◌==◌, false, true, None, Some, MatchOption};
ghost use Rattle.std.specs.List.{list_any};
ghost use Rattle.rule_book.specs.ById.{at_id};
ghost use Rattle.rule_book.specs.LeagueCalls.{is_member};
ghost use Rattle.rule_book.specs.MatchFacts.{line_of};

use fpl_base::{EntryId, FixtureId, PlayerId};
use leagues_and_cups::League;
use match_facts::MatchFacts;
use rule_book::Line;

// The fixture of a number. What is no fixture's number has no sheet.
pub fn sheet_at(matches: &MatchFacts, fixture: u32) -> Option<FixtureId>
    ensures { MatchOption result (at_id matches.now fixture ≡ None) (λ id. id ≡ fixture) }
{
    match FixtureId::new(fixture) {
        Some(id) => Some(id),
        None => fixture_among(matches.fixtures(), fixture),
    }
}

// The id of a number among these.
fn fixture_among(ids: &[FixtureId], number: u32) -> Option<FixtureId>
    ensures { MatchOption result (list_any (λ id. id == number) ids.now ≡ false)
        (λ id. id ≡ number) }
{
    for id in ids {
        if id.get() == number {
            return Some(*id);
        }
    }
    None
}

// The same of players.
fn player_among(ids: &[PlayerId], number: u32) -> Option<PlayerId>
    ensures { MatchOption result (list_any (λ id. id == number) ids.now ≡ false)
        (λ id. id ≡ number) }
{
    for id in ids {
        if id.get() == number {
            return Some(*id);
        }
    }
    None
}

// The same of entries.
fn entry_among(ids: &[EntryId], number: u32) -> Option<EntryId>
    ensures { MatchOption result (list_any (λ id. id == number) ids.now ≡ false)
        (λ id. (id ≡ number) × (list_any (λ id. id == number) ids.now ≡ true)) }
{
    for id in ids {
        if id.get() == number {
            return Some(*id);
        }
    }
    None
}

// The player of a number. What is no player's number has no line.
fn lined_player(matches: &MatchFacts, fixture: FixtureId, player: u32) -> Option<PlayerId>
    ensures { MatchOption result (line_of matches.now fixture player ≡ None) (λ id. id ≡ player) }
{
    match PlayerId::new(player) {
        Some(id) => Some(id),
        None => player_among(matches.players_of(fixture), player),
    }
}

// The fixture and the player of a line, and the line itself.
#[derive(Clone, Copy)]
pub struct Placed<'a> {
    pub fixture: FixtureId,
    pub player: PlayerId,
    pub line: &'a Line,
}

// The line of a player in a fixture.
pub fn line_at(matches: &MatchFacts, fixture: u32, player: u32) -> Option<Placed<'_>>
    ensures { MatchOption result (line_of matches.now fixture player ≡ None)
        (λ placed. (placed.fixture ≡ fixture) × (placed.player ≡ player)
        × (line_of matches.now fixture player ≡ Some placed.line.now)) }
{
    let fixture = sheet_at(matches, fixture)?;
    let player = lined_player(matches, fixture, player)?;
    let line = matches.kept_line(fixture, player)?;
    Some(Placed {
        fixture,
        player,
        line,
    })
}

// The member of a league of a number.
pub fn member_at(league: &League, entry: u32) -> Option<EntryId>
    ensures { MatchOption result (is_member league.now entry ≡ false)
        (λ id. (id ≡ entry) × (is_member league.now entry ≡ true)) }
{
    match EntryId::new(entry) {
        Some(id) => { if league.is_member(id) { Some(id) } else { None } }
        None => entry_among(league.members(), entry),
    }
}
