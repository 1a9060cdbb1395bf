// The rules on the season, its clubs, players, fixtures and lines.
ghost use Rattle.std.specs.Prelude.{◌≡◌, count_by, false, is_some, not};
ghost use Rattle.std.specs.Option.{option_map};
ghost use Rattle.fpl_base.specs.Keeping.{map_of};
ghost use Rattle.rule_book.specs.Calendar.{first_out_of_order, is_gameweek, kickoff_early};
ghost use Rattle.rule_book.specs.Players.{price_refusal};
ghost use Rattle.stored_records.specs.SeasonRules.{calendar_told, club_breaks, fixture_breaks, is_crowded, is_full, line_breaks, misses, misses_place, place_in, place_told, player_breaks, season_breaks, standing_before, stands_in, terms_told};

use crate::kept::Kept;
use crate::stored::Stored;
use crate::terms::{Terms, is_locked_place, misses_place};
use fpl_base::{ClubId, FixtureId, Gw, Moment, PlayerId};
use player_market::is_price;
use rule_book::Fixture;
use season_records::{Item, Slot};

// Limits of a season, and the seconds from a deadline to a kick-off.
const MOST_CLUBS: usize = 20;

const MOST_PLAYERS: usize = 1200;

const MOST_FIXTURES: usize = 380;

const MOST_IN_A_GAMEWEEK: usize = 20;

const MOST_LINES: usize = 64;

const DEADLINE_BEFORE_KICKOFF: u64 = 5400;

/// Whether what a record names is not there. How a record that is there is spelled is not looked at.
pub fn misses(stored: &Stored, slot: Slot) -> bool
    ensures { result ≡ misses (map_of stored.now) slot }
{
    !stored.has(slot)
}

/// Whether as many records as there can be stand from the first slot on and before this one. They are counted by their
/// keys alone.
pub fn is_full(stored: &Stored, most: usize, first: Slot, this: Slot) -> bool
    ensures { result ≡ is_full stored.now most first this }
{
    stored.between(first.key(), this.key()) >= most
}

/// Whether the deadlines do not rise, or more gameweeks are in the first half, or locked, than there are.
pub fn season_breaks(split: u8, locked: u8, deadlines: &[Moment]) -> bool
    ensures { result ≡ season_breaks split locked deadlines.now }
{
    is_out_of_order(deadlines)
        || split as usize > deadlines.len()
        || locked as usize > deadlines.len()
}

// Whether a deadline is not after the one before.
fn is_out_of_order(deadlines: &[Moment]) -> bool
    ensures { result ≡ is_some (first_out_of_order deadlines.now) }
{
    for i in 1..deadlines.len() {
        if deadlines[i] <= deadlines[i - 1] {
            return true;
        }
    }
    false
}

/// Whether there is one club too many: 20 have smaller ids.
pub fn club_breaks(stored: &Stored, club: ClubId) -> bool
    ensures { result ≡ club_breaks stored.now club }
{
    is_full(
        stored,
        MOST_CLUBS,
        Slot::Club(0),
        Slot::Club(club.get() as u32),
    )
}

/// Whether a player's club is not there, or no player can have his price, in tenths of a million, or he is one too many:
/// 1,200 have smaller ids.
pub fn player_breaks(stored: &Stored, player: PlayerId, club: ClubId, price: u16) -> bool
    ensures { result ≡ player_breaks stored.now player club price }
{
    misses(stored, Slot::Club(club.get() as u32))
        || !can_cost(price)
        || is_full(
            stored,
            MOST_PLAYERS,
            Slot::Player(0),
            Slot::Player(player.get()),
        )
}

// Whether a player can have this price, in tenths of a million.
fn can_cost(price: u16) -> bool
    ensures { result ≡ not (is_some (price_refusal price)) }
{
    is_price(u32::from(price))
}

/// Whether a fixture breaks a rule: a club or its gameweek is not there, it kicks off too early, its gameweek is full
/// without it, it is finished and stands in no locked gameweek, or it is one too many. A gameweek has at most 20 fixtures,
/// which kick off 5,400 seconds or more behind its deadline, and a season has at most 380.
pub fn fixture_breaks(stored: &Stored, terms: &Terms, fixture: &Fixture, finished: bool) -> bool
    requires { terms.now ≡ terms_told (map_of stored.now) }
    ensures { result ≡ fixture_breaks stored.now fixture.now finished }
{
    misses(stored, Slot::Club(fixture.home.get() as u32))
        || misses(stored, Slot::Club(fixture.away.get() as u32))
        || misses_place(stored, terms, fixture.gw)
        || kicks_off_early(stored, terms, fixture)
        || is_crowded(stored, fixture.id, fixture.gw)
        || finished && !is_locked_place(stored, terms, fixture.gw)
        || is_full(
            stored,
            MOST_FIXTURES,
            Slot::Fixture(0),
            Slot::Fixture(fixture.id.get()),
        )
}

// Whether it kicks off too early for the deadline of the gameweek in which it stands, which is there.
fn kicks_off_early(stored: &Stored, terms: &Terms, fixture: &Fixture) -> bool
    requires terms { terms.now ≡ terms_told (map_of stored.now) }
    requires there { misses_place (map_of stored.now) fixture.now.gw ≡ false }
    ensures { result
        ≡ is_some
        (kickoff_early
        (calendar_told (map_of stored.now)) fixture.now.id fixture.now.gw fixture.now.kickoff) }
{
    match fixture.gw {
        Some(g) => {
            let deadline = terms.deadlines.as_slice()[g.get() as usize - 1];
            fixture.kickoff.get() < deadline.get() + DEADLINE_BEFORE_KICKOFF
        }
        None => false,
    }
}

// Whether as many fixtures of smaller ids as can stand in its gameweek stand there.
fn is_crowded(stored: &Stored, fixture: FixtureId, place: Option<Gw>) -> bool
    ensures { result ≡ is_crowded stored.now fixture place }
{
    match place {
        Some(g) => standing_before(stored, fixture, g) >= MOST_IN_A_GAMEWEEK,
        None => false,
    }
}

// How many fixtures of smaller ids stand in a gameweek.
fn standing_before(stored: &Stored, fixture: FixtureId, g: Gw) -> usize
    ensures { result ≡ standing_before stored.now fixture g }
{
    standing_in(
        stored.part(Slot::Fixture(0).key(), Slot::Fixture(fixture.get()).key()),
        g,
    )
}

// How many of these records are those of fixtures which stand in a gameweek.
fn standing_in(rows: &[Kept], g: Gw) -> usize
    ensures { result ≡ count_by (stands_in g) rows.now }
{
    rows.iter().filter(|row| stands_in(row, g)).count()
}

// Whether a record is that of a fixture which stands in a gameweek.
fn stands_in(row: &Kept, g: Gw) -> bool
    ensures { result ≡ stands_in g row.now }
{
    is_gameweek(g, place_in(row.item()))
}

fn is_gameweek(g: Gw, place: Option<Gw>) -> bool
    ensures { result ≡ is_gameweek g place }
{
    match place {
        Some(own) => own == g,
        None => false,
    }
}

/// Whether a line breaks a rule: its fixture or its player is not there, the fixture stands in no locked gameweek, or it is
/// one too many: 64 players of smaller ids have lines in the fixture.
pub fn line_breaks(stored: &Stored, terms: &Terms, fixture: FixtureId, player: PlayerId) -> bool
    requires { terms.now ≡ terms_told (map_of stored.now) }
    ensures { result ≡ line_breaks stored.now fixture player }
{
    misses(stored, Slot::Fixture(fixture.get()))
        || misses(stored, Slot::Player(player.get()))
        || !is_locked_place(stored, terms, place_of(stored, fixture))
        || is_full(
            stored,
            MOST_LINES,
            Slot::Line(fixture.get(), 0),
            Slot::Line(fixture.get(), player.get()),
        )
}

// Where a fixture stands.
fn place_of(stored: &Stored, fixture: FixtureId) -> Option<Gw>
    ensures { result ≡ place_told (map_of stored.now) fixture }
{
    place_in(stored.item(Slot::Fixture(fixture.get())))
}

fn place_in(item: Option<&Item>) -> Option<Gw>
    ensures { result ≡ place_in (option_map (λ item. item.now) item.entry) }
{
    match item {
        Some(Item::Fixture { gameweek, .. }) => *gameweek,
        _ => None,
    }
}
