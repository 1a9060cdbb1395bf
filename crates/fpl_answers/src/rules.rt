// Refusals by a rule of the game.
ghost use Rattle.std.specs.Prelude.{◌≡◌};
ghost use Rattle.serde_json.specs.Data.{object};
ghost use Rattle.fpl_base.specs.RuleNumbers.{number_of};
ghost use Rattle.fpl_answers.specs.KeptPlaces.{members_with};
ghost use Rattle.fpl_answers.specs.RuleData.{refusal_members, rule_data};
ghost use Rattle.json_members.specs.Tokens.{Appends, tokens_of};

use fpl_base::Rule;
use json::Writer;
use json_members::{write_count, write_text};
use std::alloc::AllocError;

/// The value that a refusal keeps, under its name, and where that stands among the names of the other members.
#[derive(Drop)]
enum Kept {
    Nothing,
    BeforeError(&'static str, u64),
    BeforeRule(&'static str, u64),
    AfterRule(&'static str, u64),
}

fn kept_by(rule: Rule) -> Kept
    ensures { members_with result (number_of rule) ≡ refusal_members rule }
{
    match rule {
        Rule::NumberGap { last } | Rule::NumberUsed { last } | Rule::NumberOld { last } =>
            Kept::BeforeRule("last", last),
        Rule::DeadlineOrder { gameweek }
        | Rule::DeadlinePassed { gameweek }
        | Rule::ChipUsed { gameweek }
        | Rule::StartPassed { gameweek }
        | Rule::GameweekFull { gameweek } => Kept::BeforeRule(
            "gameweek",
            u64::from(gameweek.get()),
        ),
        Rule::KickoffEarly { fixture }
        | Rule::HasFacts { fixture }
        | Rule::NotLocked { fixture }
        | Rule::FixtureThere { fixture }
        | Rule::FactsThere { fixture } => Kept::BeforeRule("fixture", u64::from(fixture.get())),
        Rule::PlayerThere { player }
        | Rule::PlayerGone { player }
        | Rule::Twice { player }
        | Rule::NotHeld { player }
        | Rule::Held { player }
        | Rule::PositionSwap { player }
        | Rule::LineTwice { player }
        | Rule::InUse { player } => Kept::BeforeRule("player", u64::from(player.get())),
        Rule::ClubLimit { club } => Kept::BeforeError("club", u64::from(club.get())),
        Rule::OverBudget { short_by } => Kept::AfterRule("short_by", u64::from(short_by)),
        Rule::LineRange { field } => Kept::BeforeRule("field", u64::from(field)),
        Rule::NoSeason
        | Rule::SeasonThere
        | Rule::SeasonOver
        | Rule::PriceRange
        | Rule::SquadShape
        | Rule::LineupOrder
        | Rule::Formation
        | Rule::Captain
        | Rule::TransferLimit
        | Rule::ChipPlayed
        | Rule::ChipEarly
        | Rule::ChipFixed
        | Rule::NoChip
        | Rule::Registered
        | Rule::NotRegistered
        | Rule::EntriesFull
        | Rule::LeagueClosed
        | Rule::Code
        | Rule::Member
        | Rule::LeaguesFull
        | Rule::MembersFull
        | Rule::DrawWrong
        | Rule::LinesFull
        | Rule::KeyThere
        | Rule::PlayersFull
        | Rule::FixturesFull
        | Rule::CupsFull => Kept::Nothing,
    }
}

/// A refusal: its number, and the value that it keeps.
pub(crate) fn write_rule(out: &mut Writer, rule: &Rule) -> Result<(), AllocError>
    ensures { Appends result out.old out.new (tokens_of (rule_data rule.now)) }
{
    write_refusal(out, &kept_by(*rule), u64::from(rule.number()))
}

fn write_refusal(out: &mut Writer, kept: &Kept, number: u64) -> Result<(), AllocError>
    ensures { Appends result out.old out.new (tokens_of (object (members_with kept.now number))) }
{
    out.begin_object()?;
    match kept {
        Kept::Nothing => {
            write_text(out, "error", "rule")?;
            write_count(out, "rule", number)?;
            out.end_object()
        }
        Kept::BeforeError(name, value) => {
            write_count(out, name, *value)?;
            write_text(out, "error", "rule")?;
            write_count(out, "rule", number)?;
            out.end_object()
        }
        Kept::BeforeRule(name, value) => {
            write_text(out, "error", "rule")?;
            write_count(out, name, *value)?;
            write_count(out, "rule", number)?;
            out.end_object()
        }
        Kept::AfterRule(name, value) => {
            write_text(out, "error", "rule")?;
            write_count(out, "rule", number)?;
            write_count(out, name, *value)?;
            out.end_object()
        }
    }
}
