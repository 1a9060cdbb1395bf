// The parts that the nodes of a season are made of: what is touched is told as a few of them, and one loop brings it up
// to date.
ghost use Rattle.std.specs.Prelude.{◌≡◌, ◌≤◌, ◌+◌, [], ◌∷◌, length, map, slice_get, IfSome, OnOk};
ghost use Rattle.std.specs.List.{range_with_len};
ghost use Rattle.rule_book.specs.LeagueCalls.{leagues_of};
ghost use Rattle.rule_book.specs.Totals.{gameweeks};
ghost use Rattle.season_graph.specs.Followed.{ChosenRefreshed};
ghost use Rattle.season_graph.specs.Parts.{all_parts, locked_parts, nodes_of, parts_of};
ghost use Rattle.season_graph.specs.Touched.{league_start, members_in};
ghost use Rattle.season_graph.specs.declared.parts.Part.{Part};
ghost use Rattle.season_nodes.specs.BookFacts.{facts_of};
ghost use Rattle.season_nodes.specs.Season.{players_of};
ghost use Rattle.season_nodes.specs.declared.nodes.Node.{Node};

use crate::refreshing::refresh_chosen;
use fpl_base::{CupId, EntryId, FixtureId, Gw, LeagueId, Memory, PlayerId};
use season_nodes::{Books, Node};
use season_rules::SeasonCells;

/// Some of the nodes of a season: one, or those that belong together, which are told as smaller parts.
#[derive(Clone, Copy)]
pub(crate) enum Part {
    /// A node.
    One(Node),
    /// All that can be live.
    All,
    /// What locks of the gameweeks behind so many touch.
    Locked(u8),
    /// What a change of a league can touch.
    Changed(LeagueId),
    /// The bonus and the lines of each fixture that has facts.
    Fixtures,
    /// Those of one.
    Fixture(FixtureId),
    /// The locked gameweeks of each player, behind so many.
    Players(u8),
    /// Those of one.
    Player(PlayerId, u8),
    /// The locked gameweeks of each entry, behind so many.
    Entries(u8),
    /// Those of one.
    Entry(EntryId, u8),
    /// A gameweek of each entry.
    Teams(Gw),
    /// The totals of each entry, if gameweeks behind so many are locked.
    Totals(u8),
    /// Those of one.
    TotalsOf(EntryId),
    /// The total of an entry from the first gameweek of a classic league on.
    TotalIn(EntryId, LeagueId),
    /// The totals of the members of a classic league, from its first gameweek on.
    Members(LeagueId),
    /// What each head-to-head league has from its start on.
    Heads,
    /// What one has.
    Head(LeagueId),
    /// What each league has in the locked gameweeks behind so many, and its rows.
    Leagues(u8),
    /// What one has.
    League(LeagueId, u8),
    /// The rounds of a league in the locked gameweeks from one on.
    Rounds(LeagueId, Gw),
    /// One of them: the Average, if it plays, and the matches.
    Round(LeagueId, Gw),
    /// The matches.
    Matches(LeagueId, Gw),
    /// The rows of a league.
    Rows(LeagueId),
    /// The ties of all cups; and those in the locked gameweeks behind so many.
    Cups,
    LaterCups(u8),
    /// Those of one in the locked gameweeks from the one of a number on.
    Cup(CupId, u8),
    /// Those of its round in the gameweek of a number.
    CupRound(CupId, u8),
}

// Brings a part up to date; or, where not all is to be, what of it came or went.
pub(crate) fn refresh(
    cells: &mut SeasonCells,
    books: &Books,
    part: &Part,
    all: bool,
) -> Result<(), Memory>
    ensures { OnOk result
        (ChosenRefreshed books.now all
        (nodes_of (facts_of books.now) part.now) cells.old cells.new) }
{
    if let Part::One(n) = part {
        return refresh_chosen(cells, books, n, all);
    }
    for place in 0..count(books, part) {
        if let Some(smaller) = part_at(books, part, place) {
            refresh(cells, books, &smaller, all)?;
        }
    }
    Ok(())
}

// How many parts a part has at most.
fn count(books: &Books, part: &Part) -> usize
    ensures { length (parts_of (facts_of books.now) part.now) ≤ result }
{
    let entries = books.managers.entries() as usize;
    let leagues = books.leagues.count() as usize;
    let cups = books.cups.count() as usize;
    let gameweeks = usize::from(books.calendar.locked()) + 1;
    match *part {
        Part::One(_) => 0,
        Part::All => 6,
        Part::Locked(_) => 5,
        Part::Changed(_) => 2,
        Part::Fixtures => books.matches.fixtures().len(),
        Part::Fixture(fixture) => books.matches.players_of(fixture).len() + 1,
        Part::Players(_) => books.players.len(),
        Part::Player(_, _) => gameweeks,
        Part::Entries(_) => entries,
        Part::Entry(_, _) => gameweeks,
        Part::Teams(_) => entries,
        Part::Totals(_) => entries,
        Part::TotalsOf(entry) => books.leagues.leagues_of(entry).len() + 1,
        Part::TotalIn(_, _) => 1,
        Part::Members(league) => members_of(books, league).len(),
        Part::Heads => leagues,
        Part::Head(_) => 2,
        Part::Leagues(_) => leagues,
        Part::League(_, _) => 2,
        Part::Rounds(_, _) => gameweeks,
        Part::Round(_, _) => 2,
        Part::Matches(league, _) => books.order(league).len(),
        Part::Rows(league) => books.order(league).len(),
        Part::Cups => cups,
        Part::LaterCups(_) => cups,
        Part::Cup(_, _) => gameweeks,
        Part::CupRound(cup, gameweek) => ties_in(books, cup, gameweek),
    }
}

// The part at a place of a part, counted from 0; `None` from the end on.
fn part_at(books: &Books, part: &Part, place: usize) -> Option<Part>
    ensures { result ≡ slice_get (parts_of (facts_of books.now) part.now) place }
{
    match *part {
        Part::One(_) => None,
        Part::All => all_at(place),
        Part::Locked(first) => locked_at(first, place),
        Part::Changed(league) => changed_at(league, place),
        Part::Fixtures => fixture_at(books, place),
        Part::Fixture(fixture) => line_at(books, fixture, place),
        Part::Players(first) => player_at(books, first, place),
        Part::Player(player, first) => player_gameweek_at(books, player, first, place),
        Part::Entries(first) => Some(Part::Entry(entry_at(books, place)?, first)),
        Part::Entry(entry, first) => team_gameweek_at(books, entry, first, place),
        Part::Teams(gameweek) => Some(Part::One(Node::TeamGw(entry_at(books, place)?, gameweek))),
        Part::Totals(first) => totals_at(books, first, place),
        Part::TotalsOf(entry) => total_at(books, entry, place),
        Part::TotalIn(entry, league) => total_in(books, entry, league, place),
        Part::Members(league) => member_at(books, league, place),
        Part::Heads => Some(Part::Head(league_at(books, place)?)),
        Part::Head(league) => head_at(books, league, place),
        Part::Leagues(first) => started_at(books, first, place),
        Part::League(league, first) => behind_at(books, league, first, place),
        Part::Rounds(league, from) => {
            let gameweek = gameweek_at(books, u32::from(from.get()), place)?;
            Some(Part::Round(league, gameweek))
        }
        Part::Round(league, gameweek) => game_at(books, league, gameweek, place),
        Part::Matches(league, gameweek) => match_at(books, league, gameweek, place),
        Part::Rows(league) => row_at(books, league, place),
        Part::Cups => Some(Part::Cup(cup_at(books, place)?, 0)),
        Part::LaterCups(first) => later_at(books, first, place),
        Part::Cup(cup, from) => {
            let gameweek = round_at(books, u32::from(from), place)?;
            Some(Part::CupRound(cup, gameweek))
        }
        Part::CupRound(cup, gameweek) => tie_at(books, cup, gameweek, place),
    }
}

// The node at a place of the gameweeks of a player behind the first ones.
fn player_gameweek_at(books: &Books, player: PlayerId, first: u8, place: usize) -> Option<Part>
    ensures { result ≡ slice_get (parts_of (facts_of books.now) (Part.Player player first)) place }
{
    let gameweek = gameweek_at(books, u32::from(first) + 1, place)?;
    Some(Part::One(Node::PlayerGw(player, gameweek)))
}

// The node at a place of the gameweeks of an entry behind the first ones.
fn team_gameweek_at(books: &Books, entry: EntryId, first: u8, place: usize) -> Option<Part>
    ensures { result ≡ slice_get (parts_of (facts_of books.now) (Part.Entry entry first)) place }
{
    let gameweek = gameweek_at(books, u32::from(first) + 1, place)?;
    Some(Part::One(Node::TeamGw(entry, gameweek)))
}

// The part at a place of all nodes.
fn all_at(place: usize) -> Option<Part>
    ensures { result ≡ slice_get all_parts place }
{
    match place {
        0 => Some(Part::Fixtures),
        1 => Some(Part::Players(0)),
        2 => Some(Part::Entries(0)),
        3 => Some(Part::Totals(0)),
        4 => Some(Part::Heads),
        5 => Some(Part::Cups),
        _ => None,
    }
}

// The part at a place of what locks touch.
fn locked_at(first: u8, place: usize) -> Option<Part>
    ensures { result ≡ slice_get (locked_parts first) place }
{
    match place {
        0 => Some(Part::Players(first)),
        1 => Some(Part::Entries(first)),
        2 => Some(Part::Totals(first)),
        3 => Some(Part::Leagues(first)),
        4 => Some(Part::LaterCups(first)),
        _ => None,
    }
}

// The part at a place of what a change of a league can touch.
fn changed_at(league: LeagueId, place: usize) -> Option<Part>
    ensures { result ≡ slice_get (Part.Members league ∷ Part.Head league ∷ []) place }
{
    match place {
        0 => Some(Part::Members(league)),
        1 => Some(Part::Head(league)),
        _ => None,
    }
}

// The number of the locked gameweek at a place behind that of a number.
fn round_at(books: &Books, from: u32, place: usize) -> Option<u8>
    requires { from ≤ 256 }
    ensures value { result
        ≡ slice_get (gameweeks from books.now.calendar.now.locked) place }
    ensures low { IfSome result (λ gameweek. from ≤ gameweek) }
    ensures most { IfSome result (λ gameweek. gameweek ≤ 38) }
{
    let last = u32::from(books.calendar.locked());
    if from > last {
        return None;
    }
    if place > (last - from) as usize {
        return None;
    }
    Some(from as u8 + place as u8)
}

// The same where it is one of a season.
fn gameweek_at(books: &Books, from: u32, place: usize) -> Option<Gw>
    requires low { 1 ≤ from }
    requires high { from ≤ 256 }
    ensures { result ≡ slice_get (gameweeks from books.now.calendar.now.locked) place }
{
    let number = round_at(books, from, place)?;
    Gw::new(number)
}

// The entry at a place, counted from 0.
fn entry_at(books: &Books, place: usize) -> Option<EntryId>
    ensures { result ≡ slice_get (range_with_len 1 (facts_of books.now).entries) place }
{
    if place >= books.managers.entries() as usize {
        return None;
    }
    EntryId::new(place as u32 + 1)
}

// The league at a place.
fn league_at(books: &Books, place: usize) -> Option<LeagueId>
    ensures { result ≡ slice_get (range_with_len 1 (length books.now.leagues.now)) place }
{
    if place >= books.leagues.count() as usize {
        return None;
    }
    LeagueId::new(place as u32 + 1)
}

// The cup at a place.
fn cup_at(books: &Books, place: usize) -> Option<CupId>
    ensures { result ≡ slice_get (range_with_len 1 (length books.now.cups.now)) place }
{
    if place >= books.cups.count() as usize {
        return None;
    }
    CupId::new(place as u32 + 1)
}

// The part at a place of all fixtures.
fn fixture_at(books: &Books, place: usize) -> Option<Part>
    ensures { result ≡ slice_get (parts_of (facts_of books.now) Part.Fixtures) place }
{
    let fixture = books.matches.fixtures().get(place)?;
    Some(Part::Fixture(*fixture))
}

// The node at a place of a fixture: its bonus, and then its lines.
fn line_at(books: &Books, fixture: FixtureId, place: usize) -> Option<Part>
    ensures { result ≡ slice_get (parts_of (facts_of books.now) (Part.Fixture fixture)) place }
{
    if place == 0 {
        return Some(Part::One(Node::Bonus(fixture)));
    }
    line_behind(books, fixture, place - 1)
}

// The line at a place of a fixture.
fn line_behind(books: &Books, fixture: FixtureId, place: usize) -> Option<Part>
    ensures { result
        ≡ slice_get
        (map (λ p. Part.One (Node.Line fixture p)) (players_of (facts_of books.now) fixture))
        place }
{
    let player = books.matches.players_of(fixture).get(place)?;
    Some(Part::One(Node::Line(fixture, *player)))
}

// The part at a place of all players.
fn player_at(books: &Books, first: u8, place: usize) -> Option<Part>
    ensures { result ≡ slice_get (parts_of (facts_of books.now) (Part.Players first)) place }
{
    let player = books.players.at(place)?;
    Some(Part::Player(player.id, first))
}

// The part at a place of the totals, if gameweeks behind the first ones are locked.
fn totals_at(books: &Books, first: u8, place: usize) -> Option<Part>
    ensures { result ≡ slice_get (parts_of (facts_of books.now) (Part.Totals first)) place }
{
    if first >= books.calendar.locked() {
        return None;
    }
    Some(Part::TotalsOf(entry_at(books, place)?))
}

// The part at a place of an entry's totals: that from the first gameweek on, and then those that its leagues give it.
fn total_at(books: &Books, entry: EntryId, place: usize) -> Option<Part>
    ensures { result ≡ slice_get (parts_of (facts_of books.now) (Part.TotalsOf entry)) place }
{
    if place == 0 {
        let first = Gw::new(1)?;
        return Some(Part::One(Node::Total(entry, first)));
    }
    total_behind(books, entry, place - 1)
}

// What the league at a place of an entry's gives it.
fn total_behind(books: &Books, entry: EntryId, place: usize) -> Option<Part>
    ensures { result
        ≡ slice_get
        (map (Part.TotalIn entry) (leagues_of books.now.leagues.now entry)) place }
{
    let league = books.leagues.leagues_of(entry).get(place)?;
    Some(Part::TotalIn(entry, *league))
}

// The total that a classic league gives an entry.
fn total_in(books: &Books, entry: EntryId, league: LeagueId, place: usize) -> Option<Part>
    ensures { result
        ≡ slice_get (parts_of (facts_of books.now) (Part.TotalIn entry league)) place }
{
    let start = books.classic_start(league)?;
    if place > 0 {
        return None;
    }
    Some(Part::One(Node::Total(entry, start)))
}

// The members of a league; nobody where there is none.
fn members_of<'a>(books: &Books<'a>, league: LeagueId) -> &'a [EntryId]
    ensures { result.now ≡ members_in books.now.leagues.now league }
{
    match books.leagues.get(league) {
        Some(league) => league.members(),
        None => &[],
    }
}

// The total at a place of those of the members of a league, if its start is locked.
fn member_at(books: &Books, league: LeagueId, place: usize) -> Option<Part>
    ensures { result ≡ slice_get (parts_of (facts_of books.now) (Part.Members league)) place }
{
    let start = books.classic_start(league)?;
    if start.get() > books.calendar.locked() {
        return None;
    }
    let member = members_of(books, league).get(place)?;
    Some(Part::One(Node::Total(*member, start)))
}

// The first gameweek of the league of a number; `None` where there is no such league.
fn start_of(books: &Books, league: LeagueId) -> Option<Gw>
    ensures { result ≡ league_start books.now.leagues.now league }
{
    match books.leagues.get(league) {
        Some(league) => Some(league.start()),
        None => None,
    }
}

// The rounds of a league from a gameweek on, and then its rows.
fn rounds_and_rows(league: LeagueId, from: Gw, place: usize) -> Option<Part>
    ensures { result ≡ slice_get (Part.Rounds league from ∷ Part.Rows league ∷ []) place }
{
    match place {
        0 => Some(Part::Rounds(league, from)),
        1 => Some(Part::Rows(league)),
        _ => None,
    }
}

// The part at a place of what a league has from its start on.
fn head_at(books: &Books, league: LeagueId, place: usize) -> Option<Part>
    ensures { result ≡ slice_get (parts_of (facts_of books.now) (Part.Head league)) place }
{
    let start = start_of(books, league)?;
    rounds_and_rows(league, start, place)
}

// The league at a place, if gameweeks behind the first ones are locked.
fn started_at(books: &Books, first: u8, place: usize) -> Option<Part>
    ensures { result ≡ slice_get (parts_of (facts_of books.now) (Part.Leagues first)) place }
{
    if first >= books.calendar.locked() {
        return None;
    }
    Some(Part::League(league_at(books, place)?, first))
}

// The part at a place of what a league has in the gameweeks behind the first ones.
fn behind_at(books: &Books, league: LeagueId, first: u8, place: usize) -> Option<Part>
    ensures { result ≡ slice_get (parts_of (facts_of books.now) (Part.League league first)) place }
{
    if first >= books.calendar.locked() {
        return None;
    }
    let from = books.start(league).max(first + 1);
    if from > books.calendar.locked() {
        return None;
    }
    rounds_and_rows(league, Gw::new(from)?, place)
}

// The part at a place of a round: the Average, if it plays, and then the matches.
fn game_at(books: &Books, league: LeagueId, gameweek: Gw, place: usize) -> Option<Part>
    ensures { result
        ≡ slice_get (parts_of (facts_of books.now) (Part.Round league gameweek)) place }
{
    let has_average = books.has_average(league);
    match (has_average, place) {
        (true, 0) => Some(Part::One(Node::Average(league, gameweek))),
        (true, 1) | (false, 0) => Some(Part::Matches(league, gameweek)),
        _ => None,
    }
}

// The match of a place of the order of a league.
fn match_at(books: &Books, league: LeagueId, gameweek: Gw, place: usize) -> Option<Part>
    ensures { result
        ≡ slice_get (parts_of (facts_of books.now) (Part.Matches league gameweek)) place }
{
    if place >= books.order(league).len() {
        return None;
    }
    Some(Part::One(Node::Match(league, gameweek, place as u8)))
}

// The row at a place of the order of a league.
fn row_at(books: &Books, league: LeagueId, place: usize) -> Option<Part>
    ensures { result ≡ slice_get (parts_of (facts_of books.now) (Part.Rows league)) place }
{
    let entry = books.order(league).get(place)?;
    Some(Part::One(Node::HeadRow(league, *entry)))
}

// The cup at a place, if gameweeks behind the first ones are locked.
fn later_at(books: &Books, first: u8, place: usize) -> Option<Part>
    ensures { result ≡ slice_get (parts_of (facts_of books.now) (Part.LaterCups first)) place }
{
    if first >= books.calendar.locked() {
        return None;
    }
    Some(Part::Cup(cup_at(books, place)?, first + 1))
}

// How many ties the round of a cup in the gameweek of a number has.
fn ties_in(books: &Books, cup: CupId, gameweek: u8) -> usize
    ensures many { length (parts_of (facts_of books.now) (Part.CupRound cup gameweek)) ≡ result }
    ensures few { result ≤ 512 }
{
    let start = books.cup_start(cup);
    if start > gameweek {
        return 0;
    }
    books.ties(cup, gameweek - start)
}

// The tie at a place of such a round.
fn tie_at(books: &Books, cup: CupId, gameweek: u8, place: usize) -> Option<Part>
    ensures { result
        ≡ slice_get (parts_of (facts_of books.now) (Part.CupRound cup gameweek)) place }
{
    let start = books.cup_start(cup);
    if start > gameweek {
        return None;
    }
    if place >= books.ties(cup, gameweek - start) {
        return None;
    }
    Some(Part::One(Node::Tie(cup, gameweek - start, place as u16)))
}
