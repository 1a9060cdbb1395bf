// What the team of a gameweek follows from.
ghost use Rattle.std.specs.Prelude.{[], ◌≡◌, ◌≤◌, ◌+◌, IfSome, None, Some, map};
ghost use Rattle.fpl_base.specs.Keeping.{map_of};
ghost use Rattle.rule_book.specs.EntryRecords.{price_among};
ghost use Rattle.rule_book.specs.HistoryRules.{times};
ghost use Rattle.stored_records.specs.EntryTold.{is_first_of, sale_told, team_told};
ghost use Rattle.stored_records.specs.Sequels.{HasFew, IsTraded, Trades, are_alike, are_same_holdings, base_told, comes_of};
ghost use Rattle.stored_records.specs.Sequels.{every_sale_told, follows_told, goes_on, holdings_told, is_alike, lasting, opens_with, pick_after, sales_since};

use crate::entry_told::{RecordedTeam, sale_of, team_of};
use crate::stored::Stored;
use fpl_base::{EntryId, Gw};
use rule_book::Sale;
use squad_rules::is_free_hit;

// A record has one of so many numbers, from 0 on.
const ALL_NUMBERS: u64 = 4_294_967_296;

// What transfers make of fifteen players, and what they pay and earn, in tenths of a million.
#[derive(Clone, Copy)]
struct Traded {
    picks: [(u32, u32); 15],
    paid: u64,
    earned: u64,
}

// The team of a gameweek, unless it is one of a free hit.
fn lasting_of(stored: &Stored, entry: EntryId, gameweek: u8) -> Option<RecordedTeam>
    ensures { result ≡ lasting (team_told (map_of stored.now) entry gameweek) }
{
    let team = team_of(stored, entry, gameweek)?;
    if is_free_hit(team.chip) {
        None
    } else {
        Some(team)
    }
}

// The last team before a gameweek without a free hit.
fn base_of(stored: &Stored, entry: EntryId, gameweek: Gw) -> Option<RecordedTeam>
    ensures { result ≡ base_told (map_of stored.now) entry gameweek }
{
    let g = gameweek.get();
    for back in 0..g {
        match lasting_of(stored, entry, g - 1 - back) {
            Some(team) => return Some(team),
            None => {}
        }
    }
    None
}

// A pick after a transfer: the incomer takes the place of the one who goes.
fn pick_after(sale: &Sale, pick: (u32, u32)) -> (u32, u32)
    ensures { result ≡ pick_after sale.now pick }
{
    if pick.0 == sale.out.get() {
        (sale.into.get(), sale.bought.get())
    } else {
        pick
    }
}

// The picks after a transfer.
fn picks_after(sale: &Sale, picks: &[(u32, u32); 15]) -> [(u32, u32); 15]
    ensures { result ≡ map (pick_after sale.now) picks.now }
{
    let mut after = [(0, 0); 15];
    for (place, pick) in picks.iter().enumerate() {
        after[place] = pick_after(sale, *pick);
    }
    after
}

// A transfer is made.
fn make(traded: &mut Traded, sale: &Sale)
    requires { HasFew traded.old }
    ensures trades { Trades (Some sale.now) traded.old traded.new }
    ensures paid_most { traded.new.paid ≤ traded.old.paid + 10000000 }
    ensures earned_most { traded.new.earned ≤ traded.old.earned + 10000000 }
{
    traded.picks = picks_after(sale, &traded.picks);
    traded.paid += u64::from(sale.bought.get());
    traded.earned += u64::from(sale.sold.get());
}

// The transfer of a number is made, if there is one.
fn trade(stored: &Stored, entry: EntryId, gameweek: Gw, number: u32, traded: &mut Traded)
    requires { HasFew traded.old }
    ensures paid_most { traded.new.paid ≤ traded.old.paid + 10000000 }
    ensures earned_most { traded.new.earned ≤ traded.old.earned + 10000000 }
    ensures trades { Trades (sale_told (map_of stored.now) entry gameweek number) traded.old
        traded.new }
{
    match sale_of(stored, entry, gameweek, number) {
        Some(sale) => make(traded, &sale),
        None => {}
    }
}

// The first number, from one on, under which a transfer stands.
fn next_number(stored: &Stored, entry: EntryId, gameweek: Gw, from: u64) -> Option<u32>
    ensures next { IfSome result (λ next. (from ≤ next)
        × (sales_since (sale_told (map_of stored.now) entry gameweek) from
        ≡ sales_since (sale_told (map_of stored.now) entry gameweek) next)) }
    ensures end { result ≡ None
        → sales_since (sale_told (map_of stored.now) entry gameweek) from ≡ [] }
{
    if from < ALL_NUMBERS {
        stored.next_number(entry, gameweek, from as u32)
    } else {
        None
    }
}

// What all transfers of a gameweek make of fifteen players, in the order of their numbers.
fn after_trades(stored: &Stored, entry: EntryId, gameweek: Gw, picks: [(u32, u32); 15]) -> Traded
    ensures traded { IsTraded (every_sale_told (map_of stored.now) entry gameweek) picks result }
    ensures few { HasFew result }
{
    let mut traded = Traded {
        picks,
        paid: 0,
        earned: 0,
    };
    let mut from = 0;
    'numbers: for _ in 0..ALL_NUMBERS {
        match next_number(stored, entry, gameweek, from) {
            Some(number) => {
                trade(stored, entry, gameweek, number, &mut traded);
                from = u64::from(number) + 1;
            }
            None => return traded,
        }
    }
    traded
}

// How often a player is among them.
fn times(picks: &[(u32, u32); 15], player: u32) -> usize
    ensures { result ≡ times player (map (λ k. k.player) (holdings_told picks.now)) }
{
    let mut count = 0;
    'picks: for pick in picks {
        if pick.0 == player {
            count += 1;
        }
    }
    count
}

// The price of the first who is this player; 0 without him.
fn price_among(picks: &[(u32, u32); 15], player: u32) -> u32
    ensures { result ≡ price_among player (holdings_told picks.now) }
{
    'picks: for pick in picks {
        if pick.0 == player {
            return pick.1;
        }
    }
    0
}

// Whether a player stands as often in the one as in the other, at the same price.
fn is_alike(picks: &[(u32, u32); 15], others: &[(u32, u32); 15], player: u32) -> bool
    ensures { result ≡ is_alike (holdings_told picks.now) (holdings_told others.now) player }
{
    times(picks, player) == times(others, player)
        && price_among(picks, player) == price_among(others, player)
}

// Whether each of these players does.
fn are_alike(
    picks: &[(u32, u32); 15],
    others: &[(u32, u32); 15],
    players: &[(u32, u32); 15],
) -> bool
    ensures { result
        ≡ are_alike (holdings_told picks.now) (holdings_told others.now)
        (holdings_told players.now) }
{
    'players: for pick in players {
        if !is_alike(picks, others, pick.0) {
            return false;
        }
    }
    true
}

// Whether the same players stand in both at the same prices, in any order.
fn are_same_holdings(picks: &[(u32, u32); 15], others: &[(u32, u32); 15]) -> bool
    ensures { result ≡ are_same_holdings (holdings_told picks.now) (holdings_told others.now) }
{
    if picks == others {
        return true;
    }
    are_alike(picks, others, picks) && are_alike(picks, others, others)
}

// Whether the bank of a first team is what 1000, the transfers and some first prices give.
fn opens_with(traded: &Traded, bank: u32) -> bool
    requires { HasFew traded.now }
    ensures { result ≡ opens_with traded.now.paid traded.now.earned bank }
{
    let paid = u64::from(bank) + traded.paid;
    let earned = 1000 + traded.earned;
    paid + 450 <= earned && earned <= paid + 1000
}

// Whether a team is what transfers made of the one before it.
fn comes_of(traded: &Traded, bank: u32, team: &RecordedTeam) -> bool
    requires { HasFew traded.now }
    ensures { result ≡ comes_of traded.now bank team.now }
{
    let paid = u64::from(team.bank) + traded.paid;
    let earned = u64::from(bank) + traded.earned;
    are_same_holdings(&team.picks, &traded.picks) && paid == earned
}

// The same of a later gameweek: it has a team before it, whose players the transfers change.
fn follows(stored: &Stored, entry: EntryId, gameweek: Gw, team: &RecordedTeam) -> bool
    ensures { result ≡ follows_told (map_of stored.now) entry gameweek team.now }
{
    match base_of(stored, entry, gameweek) {
        Some(base) => {
            let traded = after_trades(stored, entry, gameweek, base.picks);
            comes_of(&traded, base.bank, team)
        }
        None => false,
    }
}

/// Whether a team follows from what its entry has before it; `first` says that the gameweek is the entry's first. A first
/// team has paid 45.0 to 100.0 million for its first fifteen; each other one stands on the last team before it that plays no
/// free hit.
pub fn goes_on(
    stored: &Stored,
    first: bool,
    entry: EntryId,
    gameweek: Gw,
    team: &RecordedTeam,
) -> bool
    requires { first ≡ is_first_of (map_of stored.now) entry gameweek }
    ensures { result ≡ goes_on (map_of stored.now) entry gameweek team.now }
{
    if first {
        let traded = after_trades(stored, entry, gameweek, team.picks);
        return opens_with(&traded, team.bank);
    }
    follows(stored, entry, gameweek, team)
}
