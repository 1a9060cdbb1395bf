// Whether the players that a command names are there.
ghost use Rattle.std.specs.Prelude.{◌≡◌, ◌&&◌};
ghost use Rattle.std.specs.List.{list_all};
ghost use Rattle.season_book.specs.Commands.{has_player};
ghost use Rattle.season_book.specs.EntryCommands.{has_players, names_players};

use fpl_base::PlayerId;
use rule_book::Swap;
use season_book::Command;
use season_facts::Season;

// Whether each of some players is there.
fn are_there(season: &Season, players: &[PlayerId]) -> bool
    ensures { result ≡ list_all (has_player season.now) players.now }
{
    players.iter().all(|player| season.has_player(*player))
}

// Whether fifteen players are there, and two of them.
fn has_players(season: &Season, players: &[PlayerId; 15], captain: PlayerId, vice: PlayerId) -> bool
    ensures { result ≡ has_players season.now players.now captain vice }
{
    are_there(season, players) && (season.has_player(captain) && season.has_player(vice))
}

// Whether each who goes is there, and each who comes.
fn has_swaps(season: &Season, swaps: &[Swap]) -> bool
    ensures { result
        ≡ list_all
        (λ swap. has_player season.now swap.out && has_player season.now swap.into) swaps.now }
{
    swaps.iter().all(|swap| season.has_player(swap.out) && season.has_player(swap.into))
}

// Whether all players that a manager's command names are there.
pub fn names_players(season: &Season, command: &Command) -> bool
    ensures { result ≡ names_players season.now command.now }
{
    match command {
        Command::Squad {
            players,
            captain,
            vice,
        } => has_players(season, players, *captain, *vice),
        Command::Transfers { swaps } => has_swaps(season, swaps.as_slice()),
        Command::Lineup {
            players,
            captain,
            vice,
        } => has_players(season, players, *captain, *vice),
        _ => true,
    }
}
