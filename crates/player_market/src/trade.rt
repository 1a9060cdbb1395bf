// What a batch sells and buys.
ghost use Rattle.std.specs.Prelude.{◌≡◌, ◌<◌, ◌≤◌, ◌+◌, ◌*◌, length, IfOk, MatchResult, None, Some, All};
ghost use Rattle.rule_book.specs.Batch.{price_of, bought_for, sale_of, sales_of, pick_after, picks_after, earned_by, paid_by, shortage};
ghost use Rattle.player_market.specs.Bounds.{IsCheap};

use crate::judge::pick_of;
use crate::players::Players;
use crate::prices::selling_price;
use crate::sales::Sales;
use fpl_base::{PlayerId, Tenths};
use rule_book::{Pick, Sale, Swap};

// A player's present price; nothing where he is not there.
fn price_of(players: &Players, player: PlayerId) -> Tenths
    ensures value { result ≡ price_of players.now player }
    ensures bound { result ≤ 200 }
{
    match players.get(player) {
        Some(there) => there.price,
        None => Tenths::new(0).unwrap(),
    }
}

// The price at which the team bought a player; nothing where it does not have him.
fn bought_for(picks: &[Pick; 15], player: PlayerId) -> Tenths
    ensures { result ≡ bought_for picks.now player }
{
    match pick_of(picks, player) {
        Some(pick) => pick.bought,
        None => Tenths::new(0).unwrap(),
    }
}

// The sale that a swap makes.
fn sale_of(players: &Players, picks: &[Pick; 15], swap: Swap) -> Sale
    ensures value { result ≡ sale_of players.now picks.now swap }
    ensures cheap { IsCheap result }
{
    let bought_for = bought_for(picks, swap.out);
    Sale {
        out: swap.out,
        into: swap.into,
        sold: selling_price(bought_for, price_of(players, swap.out)),
        bought: price_of(players, swap.into),
    }
}

// The sales that a batch makes.
pub(crate) fn sales_of(players: &Players, picks: &[Pick; 15], swaps: &[Swap]) -> Sales
    requires some { 0 < length swaps.now }
    requires few { length swaps.now ≤ 15 }
    ensures value { result ≡ sales_of players.now picks.now swaps.now }
    ensures cheap { All IsCheap result }
{
    let mut sales = Sales::none(sale_of(players, picks, swaps[0]));
    for swap in swaps {
        sales.push(sale_of(players, picks, *swap));
    }
    sales
}

// A slot after all sales of the batch.
fn pick_after(sales: &[Sale], pick: Pick) -> Pick
    ensures { result ≡ pick_after sales.now pick }
{
    for sale in sales {
        if sale.out == pick.player {
            return Pick {
                player: sale.into,
                position: pick.position,
                bought: sale.bought,
            };
        }
    }
    pick
}

// The fifteen slots after the batch.
pub(crate) fn picks_after(sales: &[Sale], picks: &[Pick; 15]) -> [Pick; 15]
    ensures { result ≡ picks_after sales.now picks.now }
{
    let mut after = [picks[0]; 15];
    for (place, pick) in picks.iter().enumerate() {
        after[place] = pick_after(sales, *pick);
    }
    after
}

// What the sales earn.
fn earned_by(sales: &[Sale]) -> u32
    requires few { length sales.now ≤ 15 }
    requires cheap { All IsCheap sales.now }
    ensures value { result ≡ earned_by sales.now }
    ensures bound { result ≤ 200 * length sales.now }
{
    let mut earned = 0;
    for sale in sales {
        earned += sale.sold.get();
    }
    earned
}

// What the sales pay.
fn paid_by(sales: &[Sale]) -> u32
    requires few { length sales.now ≤ 15 }
    requires cheap { All IsCheap sales.now }
    ensures value { result ≡ paid_by sales.now }
    ensures bound { result ≤ 200 * length sales.now }
{
    let mut paid = 0;
    for sale in sales {
        paid += sale.bought.get();
    }
    paid
}

// What is in the bank after the sales, or by how much the money is short.
pub(crate) fn bank_after(bank: Tenths, sales: &[Sale]) -> Result<Tenths, u32>
    requires few { length sales.now ≤ 15 }
    requires cheap { All IsCheap sales.now }
    requires room { bank ≤ 9990000 }
    ensures money { MatchResult result
        (λ left. left + paid_by sales.now ≡ bank + earned_by sales.now)
        (λ short. shortage bank sales.now ≡ Some short) }
    ensures bound { IfOk result (λ left. left ≤ bank + 200 * length sales.now) }
    ensures enough { MatchResult result (λ left. shortage bank sales.now ≡ None)
        (λ short. shortage bank sales.now ≡ Some short) }
{
    let money = bank.get() + earned_by(sales);
    let paid = paid_by(sales);
    if money < paid {
        return Err(paid - money);
    }
    Ok(Tenths::new(money - paid).unwrap())
}
