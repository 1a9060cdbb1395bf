// What answers tell of a player in a gameweek.
ghost use Rattle.std.specs.Prelude.{◌≡◌, ◌≤◌, IfErr, IfOk, IfSome, OnOk, false};
ghost use Rattle.fpl_base.specs.Causes.{Rose};
ghost use Rattle.rule_book.specs.FigureRange.{IsWithin};
ghost use Rattle.season_book.specs.Hosts.{IsRequest};
ghost use Rattle.season_book.specs.declared.answer.Answer.TheVariants as answer_of;
ghost use Rattle.season_book.specs.declared.request.Request.TheVariants as request_of;
ghost use Rattle.season_book.specs.declared.request.View.TheVariants as view_of;
ghost use Rattle.request_handler.specs.Kept.{Leads, kept_as};
ghost use Rattle.fpl_dreaming.specs.Rows.{ArePointsAsked, IsRowAsked, figures_in, locked_in, near, position_in, row_of};

use fpl_base::{Caller, Clock, Gw, Keeper, PlayerId, Position, ReadCount};
use local_requests::ask;
use rule_book::Figures;
use season_book::{Answer, Request, Shown, View};
use season_keeping::Host;
use std::sync::ledger::Ledger;

// Asks for a player and for what he did in a gameweek, as the operator. `Ok` has his row, if he played; `Err` has the answer
// that shows nothing of that.
pub(crate) fn ask_row<C: Clock, K: Keeper, L: Ledger>(
    host: &mut Host,
    player: PlayerId,
    gameweek: Gw,
    clock: &mut C,
    keeper: &mut K,
    steps: &mut ReadCount<L>,
) -> Result<Option<(PlayerId, Position, i32)>, Answer>
    requires fresh { host.old.stale ≡ false }
    ensures asked { Leads K.tells K.serves K.holds K.passes
        (kept_as host.old (C.left clock.old) (K.faults keeper.old) keeper.old)
        (kept_as host.new (C.left clock.new) (K.faults keeper.new) keeper.new)
        (IsRowAsked player gameweek result) }
    ensures row { IfOk result
        (λ row. IfSome row (λ r. (r.0 ≡ player) × IsWithin 1000000 r.2)) }
    ensures fresh { OnOk result (host.new.stale ≡ false) }
    ensures keeper { IfErr result (λ told. told ≡ answer_of.Keeper
        → Rose (K.faults keeper.old) (K.faults keeper.new)) }
    ensures later { K.faults keeper.old ≤ K.faults keeper.new }
{
    let asked = request_of_player(player);
    let told = ask(host, keeper, clock, steps, Caller::Operator, &asked);
    match position_in(&told) {
        Some(position) => ask_points(host, player, position, gameweek, clock, keeper, steps),
        None => Err(told),
    }
}

// Asks for what a player of this position did in a gameweek.
fn ask_points<C: Clock, K: Keeper, L: Ledger>(
    host: &mut Host,
    player: PlayerId,
    position: Position,
    gameweek: Gw,
    clock: &mut C,
    keeper: &mut K,
    steps: &mut ReadCount<L>,
) -> Result<Option<(PlayerId, Position, i32)>, Answer>
    requires fresh { host.old.stale ≡ false }
    ensures asked { Leads K.tells K.serves K.holds K.passes
        (kept_as host.old (C.left clock.old) (K.faults keeper.old) keeper.old)
        (kept_as host.new (C.left clock.new) (K.faults keeper.new) keeper.new)
        (ArePointsAsked player position gameweek result) }
    ensures row { IfOk result
        (λ row. IfSome row (λ r. (r.0 ≡ player) × IsWithin 1000000 r.2)) }
    ensures fresh { OnOk result (host.new.stale ≡ false) }
    ensures keeper { IfErr result (λ told. told ≡ answer_of.Keeper
        → Rose (K.faults keeper.old) (K.faults keeper.new)) }
    ensures later { K.faults keeper.old ≤ K.faults keeper.new }
{
    let asked = request_of_points(player, gameweek);
    let told = ask(host, keeper, clock, steps, Caller::Operator, &asked);
    match figures_in(&told) {
        Some(figures) => Ok(row_of(player, position, &figures)),
        None => Err(told),
    }
}

// The request that shows a player.
fn request_of_player(player: PlayerId) -> Request
    ensures value { result ≡ request_of.View (view_of.Player player) }
    ensures lawful { IsRequest result }
{
    Request::View(View::Player {
        player: player.get(),
    })
}

// The request that shows what he did in a gameweek.
fn request_of_points(player: PlayerId, gameweek: Gw) -> Request
    ensures value { result ≡ request_of.View (view_of.PlayerGameweek player gameweek) }
    ensures lawful { IsRequest result }
{
    Request::View(View::PlayerGameweek {
        player: player.get(),
        gameweek: u32::from(gameweek.get()),
    })
}

/// How many gameweeks are locked, by an answer that shows the season.
pub(crate) fn locked_in(told: &Answer) -> Option<u8>
    ensures { result ≡ locked_in told.now }
{
    match told {
        Answer::Shown(Shown::Season(season)) => Some(season.locked),
        _ => None,
    }
}

fn position_in(told: &Answer) -> Option<Position>
    ensures { result ≡ position_in told.now }
{
    match told {
        Answer::Shown(Shown::Player(player)) => Some(player.position),
        _ => None,
    }
}

fn figures_in(told: &Answer) -> Option<Figures>
    ensures { result ≡ figures_in told.now }
{
    match told {
        Answer::Shown(Shown::PlayerGameweek(figures)) => Some(*figures),
        _ => None,
    }
}

// The row of a player who played.
fn row_of(
    player: PlayerId,
    position: Position,
    figures: &Figures,
) -> Option<(PlayerId, Position, i32)>
    ensures value { result ≡ row_of player position figures.now }
    ensures row { IfSome result (λ r. (r.0 ≡ player) × IsWithin 1000000 r.2) }
{
    if figures.played {
        Some((player, position, near(figures.points)))
    } else {
        None
    }
}

// Points that are no further from 0 than a million.
fn near(points: i32) -> i32
    ensures value { result ≡ near points }
    ensures within { IsWithin 1000000 result }
{
    if points < -1_000_000 {
        -1_000_000
    } else if points > 1_000_000 {
        1_000_000
    } else {
        points
    }
}
