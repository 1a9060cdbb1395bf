// What follows from the definitions alone.
ghost use Rattle.season_cells.specs.Leading.{PlansLead};

use leagues_and_cups::unbroken_cups_have_shape;
use match_facts::facts_are_maps;
use season_entries::earlier_rows_tell;
use season_graph::{
    calendar_changes, cups_change, leagues_change, managers_change, matches_change, players_change,
    same_is_alike,
};

/// A law: what the plan of a command says is so. Behind the command stands a season, which differs from the one before as
/// the plan says.
pub fn plans_lead()
    ensures { PlansLead }
{
    // The laws of the facts, of draws and of rows, of which this is made, for the prover.
    facts_are_maps();
    matches_change();
    calendar_changes();
    players_change();
    managers_change();
    leagues_change();
    cups_change();
    unbroken_cups_have_shape();
    same_is_alike();
    earlier_rows_tell();
}
