// What is read of an entry: its race against all, its team with its score, and its row.
ghost use Rattle.std.specs.Prelude.{◌≡◌};
ghost use Rattle.rule_book.specs.Teams.{InTeam};
ghost use Rattle.season_book.specs.EntryRows.{does_count};

use fpl_base::{Chip, Gw, Tenths};
use rule_book::{Team, TeamScore};

/// An entry's total and its counted transfers through each gameweek up to one, that of gameweek 1 first.
#[derive(Drop)]
pub struct Course {
    pub totals: [i32; 38],
    pub transfers: [u32; 38],
}

/// The same with its rank through each of them.
#[derive(Drop)]
pub struct Race {
    pub course: Course,
    pub ranks: [u64; 38],
}

/// An entry's team in a gameweek, and what it scored.
#[derive(Drop)]
pub struct Played {
    pub team: Team,
    pub score: TeamScore,
}

/// An entry's row of a gameweek. `points` are before deductions, `bench` those of the slots that do not count, and `total`
/// is after deductions, through this gameweek.
#[derive(Drop)]
pub struct GameweekRow {
    pub bank: Tenths,
    pub event: Gw,
    pub transfers: u16,
    pub cost: u32,
    pub rank: u64,
    pub points: i32,
    pub bench: i32,
    pub total: i32,
}

/// Whether the points of a slot count.
pub fn does_count(played: &Played, slot: u8) -> bool
    requires { InTeam slot }
    ensures { result ≡ does_count played.now.team played.now.score.eleven.slots slot }
{
    match played.team.chip {
        Chip::BenchBoost => true,
        Chip::None | Chip::Wildcard | Chip::FreeHit | Chip::TripleCaptain => {
            played.score.eleven.slots.contains(&slot)
        }
    }
}
