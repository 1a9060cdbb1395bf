// Which records of a store are lawful.
ghost use Rattle.std.specs.Prelude.{◌≡◌, nat_le};
ghost use Rattle.std.specs.List.{list_all};
ghost use Rattle.fpl_base.specs.Keeping.{map_of};
ghost use Rattle.stored_records.specs.SeasonRules.{terms_told};
ghost use Rattle.store_validation.specs.Lawful.{breaks, first_not_spelled, first_wrong, is_in_range, is_spelled, is_wrong, judged, rules_broken};
ghost use Rattle.store_validation.specs.TransferRules.{IsKnown};

use crate::entry_rules::{team_breaks, transfer_breaks};
use crate::league_rules::{cup_breaks, issue_breaks, last_breaks, league_breaks, member_breaks};
use crate::transfer_rules::Term;
use fpl_base::RecordKey;
use match_facts::line_ok;
use rule_book::Fixture;
use season_records::{Item, Slot};
use stored_records::{
    Kept, Stored, Terms, Transfer, club_breaks, fixture_breaks, line_breaks, misses, player_breaks,
    season_breaks,
};

/// The key of the first record that is not lawful; `None` exactly where all are. First each record is looked at alone:
/// whether it is spelled as an item whose values are in their ranges. Where all are, each is held against the rules of a
/// season, which `specs/Lawful.antt` lists by what a record tells of. The terms are those of the season's record.
pub fn judge(stored: &Stored, terms: &Terms) -> Option<RecordKey>
    requires { terms.now ≡ terms_told (map_of stored.now) }
    ensures { result ≡ judged stored.now }
{
    match first_not_spelled(stored.as_slice()) {
        Some(key) => Some(key),
        None => first_wrong(stored, terms),
    }
}

// The key of the first record that is spelled as no item in range.
fn first_not_spelled(rows: &[Kept]) -> Option<RecordKey>
    ensures { result ≡ first_not_spelled rows.now }
{
    for row in rows {
        if !is_spelled(row) {
            return Some(row.key());
        }
    }
    None
}

// Whether a record is spelled as an item that is in range, as each transfer is.
fn is_spelled(row: &Kept) -> bool
    ensures { result ≡ is_spelled row.now }
{
    match row.item() {
        Some(item) => is_in_range(item),
        None => row.transfer().is_some(),
    }
}

// Whether the values of an item are in their ranges.
fn is_in_range(item: &Item) -> bool
    ensures { result ≡ is_in_range item.now }
{
    match item {
        Item::Season {
            split,
            deadlines,
            ..
        } => {
            let gameweeks = deadlines.as_slice().len();
            gameweeks >= 1 && gameweeks <= 38 && *split as usize <= gameweeks
        }
        Item::Fixture { home, away, .. } => home != away,
        Item::Line { line, .. } => line_ok(line).is_ok(),
        Item::League { order, .. } => order.as_slice().len() <= 64,
        Item::Cup { slots, coins, .. } => {
            slots.as_slice().len() <= 1024 && are_coins(coins.as_slice())
        }
        Item::Last { number, .. } => *number <= 9_223_372_036_854_775_807,
        _ => true,
    }
}

// Whether each coin is 0 or 1.
fn are_coins(coins: &[u8]) -> bool
    ensures { result ≡ list_all (λ coin. nat_le coin 1) coins.now }
{
    coins.iter().all(|coin| *coin <= 1)
}

// The key of the first record that breaks a rule.
fn first_wrong(stored: &Stored, terms: &Terms) -> Option<RecordKey>
    requires { terms.now ≡ terms_told (map_of stored.now) }
    ensures { result ≡ first_wrong stored.now }
{
    let mut known = None;
    for row in stored.as_slice() {
        if is_wrong(stored, terms, &mut known, row) {
            return Some(row.key());
        }
    }
    None
}

// Whether a record breaks a rule.
fn is_wrong(stored: &Stored, terms: &Terms, known: &mut Option<Term>, row: &Kept) -> bool
    requires terms { terms.now ≡ terms_told (map_of stored.now) }
    requires known { IsKnown (map_of stored.now) known.old }
    ensures wrong { result ≡ is_wrong stored.now row.now }
    ensures known { IsKnown (map_of stored.now) known.new }
{
    match row.transfer() {
        Some(transfer) => {
            misses(stored, Slot::Season) || transfer_breaks(stored, terms, known, transfer)
        }
        None => match row.item() {
            Some(item) => breaks(stored, terms, known, item),
            None => false,
        },
    }
}

// Whether an item breaks a rule.
fn breaks(stored: &Stored, terms: &Terms, known: &mut Option<Term>, item: &Item) -> bool
    requires terms { terms.now ≡ terms_told (map_of stored.now) }
    requires known { IsKnown (map_of stored.now) known.old }
    ensures breaks { result ≡ breaks stored.now item.now }
    ensures known { IsKnown (map_of stored.now) known.new }
{
    misses(stored, Slot::Season) || rules_broken(stored, terms, known, item)
}

// What an item breaks of the rules on what it tells of.
fn rules_broken(stored: &Stored, terms: &Terms, known: &mut Option<Term>, item: &Item) -> bool
    requires terms { terms.now ≡ terms_told (map_of stored.now) }
    requires known { IsKnown (map_of stored.now) known.old }
    ensures broken { result ≡ rules_broken stored.now item.now }
    ensures known { IsKnown (map_of stored.now) known.new }
{
    match item {
        Item::Season {
            split,
            locked,
            deadlines,
            ..
        } => season_breaks(*split, *locked, deadlines.as_slice()),
        Item::Club { club, .. } => club_breaks(stored, *club),
        Item::Player {
            player,
            club,
            price,
            ..
        } => player_breaks(stored, *player, *club, *price),
        Item::Fixture {
            fixture,
            home,
            away,
            gameweek,
            kickoff,
            finished,
        } => {
            let fixture = Fixture {
                id: *fixture,
                home: *home,
                away: *away,
                gw: *gameweek,
                kickoff: *kickoff,
            };
            fixture_breaks(stored, terms, &fixture, *finished)
        }
        Item::Line {
            fixture,
            player,
            ..
        } => line_breaks(stored, terms, *fixture, *player),
        Item::Entry {
            entry,
            first,
            key,
            ..
        } => issue_breaks(stored, *entry, *first, key),
        Item::Team {
            entry,
            gameweek,
            picks,
            captain,
            vice,
            bank,
            chip,
        } => team_breaks(
            stored, terms, *entry, *gameweek, picks, *captain, *vice, *bank, *chip,
        ),
        Item::Transfer {
            entry,
            gameweek,
            number,
            out,
            into,
            sold,
            bought,
        } => transfer_breaks(
            stored,
            terms,
            known,
            Transfer {
                entry: *entry,
                gameweek: *gameweek,
                number: *number,
                out: *out,
                into: *into,
                sold: *sold,
                bought: *bought,
            },
        ),
        Item::League {
            league,
            kind,
            start,
            creator,
            order,
            ..
        } => league_breaks(
            stored,
            terms,
            *league,
            *kind,
            *start,
            *creator,
            order.as_slice(),
        ),
        Item::Member { league, entry } => member_breaks(stored, *league, *entry),
        Item::Cup {
            cup,
            start,
            slots,
            coins,
        } => cup_breaks(
            stored,
            terms,
            *cup,
            *start,
            slots.as_slice(),
            coins.as_slice(),
        ),
        Item::Last {
            caller,
            number,
            status,
            made,
            command,
        } => last_breaks(stored, *caller, *number, *status, *made, command),
    }
}
