// What holds of the leagues and the cups of a season.
ghost use Rattle.std.specs.Prelude.{◌≡◌, Some};
ghost use Rattle.rule_book.specs.Entries.{entry_in};
ghost use Rattle.rule_book.specs.Leagues.{LeagueFacts};
ghost use Rattle.rule_book.specs.declared.cup.Bracket.{Bracket};
ghost use Rattle.leagues_and_cups.specs.Shapes.{HasShape};
ghost use Rattle.season_nodes.specs.Brackets.{AreBrackets};
ghost use Rattle.season_nodes.specs.RowsTold.{MatchesAreTold, RowsAreTold};
ghost use Rattle.season_nodes.specs.Season.{AreOrders, IsOrder};
ghost use Rattle.season_nodes.specs.TiesTold.{TiesAreTold};

use fpl_base::{CupId, LeagueId};
use leagues_and_cups::{Bracket, Cups, League, Leagues};

/// A law: where each Average and each match holds its own value, a match has what the rule book tells of the two who
/// meet, and a member's row what it tells of all matches of the member.
pub fn rows_are_told()
    ensures matches { MatchesAreTold }
    ensures rows { RowsAreTold }
{}

// The order of a league is one of its members.
fn order_of_one(league: &League)
    ensures { IsOrder league.now }
{
    // What its order is, for the prover.
    let _order = league.order();
}

// So is that of the league of a number.
fn order_at(leagues: &Leagues, number: LeagueId)
    ensures { (league : LeagueFacts) → entry_in leagues.now number ≡ Some league → IsOrder league }
{
    if let Some(league) = leagues.get(number) {
        order_of_one(league);
    }
}

/// The law that the order of each league is one of its members, which each single league tells.
pub fn orders_are_of_members(leagues: &Leagues)
    ensures { AreOrders leagues.now }
{
    for place in 0..leagues.count() {
        order_at(leagues, LeagueId::new(place + 1).unwrap());
    }
}

/// A law: where each tie holds its own value, who goes on from it is who wins it by the rule book.
pub fn ties_are_told()
    ensures { TiesAreTold }
{}

// A bracket that has its shape.
fn shape_of_one(bracket: &Bracket)
    requires { HasShape bracket.now }
    ensures { HasShape bracket.now }
{
    // What the type tells of a bracket, for the prover.
    let _start = bracket.start;
}

// So has that of the cup of a number.
fn shape_at(cups: &Cups, number: CupId)
    ensures { (bracket : Bracket) → entry_in cups.now number ≡ Some bracket → HasShape bracket }
{
    if let Some(bracket) = cups.get(number) {
        shape_of_one(bracket);
    }
}

/// The law that each cup has the slots of its rounds, which each single cup tells.
pub fn cups_are_brackets(cups: &Cups)
    ensures { AreBrackets cups.now }
{
    for place in 0..cups.count() {
        shape_at(cups, CupId::new(place + 1).unwrap());
    }
}
