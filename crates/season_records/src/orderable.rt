// Which commands can be ordered, beyond what the types of their members say.
ghost use Rattle.std.specs.Prelude.{◌≡◌, ◌==◌, ◌&&◌, nat_le, length};
ghost use Rattle.std.specs.List.{list_any, list_all};
ghost use Rattle.record_fields.specs.Ranges.{is_between};
ghost use Rattle.season_records.specs.Commands.{club_ids, differ, is_command};

use fpl_base::{Chip, ClubId, Name};
use season_book::Command;

pub fn is_orderable(command: &Command) -> bool
    ensures { result ≡ is_command command.now }
{
    match *command {
        Command::Season {
            ref deadlines,
            split,
            ref clubs,
            ..
        } => begins(deadlines.as_slice().len(), split, clubs.as_slice()),
        Command::Fixture { home, away, .. } | Command::AmendFixture { home, away, .. } => {
            home != away
        }
        Command::Sheet { ref lines, .. } => lines.as_slice().len() <= 100,
        Command::Transfers { ref swaps } => is_long(swaps.as_slice().len(), 1, 15),
        Command::Chip { chip } => chip != Chip::None,
        Command::Draw { ref order, .. } => order.as_slice().len() <= 64,
        Command::Cup {
            ref slots,
            ref coins,
            ..
        } => {
            slots.as_slice().len() <= 1024
                && coins.as_slice().len() <= 1024
                && are_coins(coins.as_slice())
        }
        _ => true,
    }
}

// Whether a season can begin with so many deadlines, this split and these clubs.
fn begins(deadlines: usize, split: u8, clubs: &[(ClubId, Name)]) -> bool
    ensures { result ≡ (is_between 1 38 deadlines && nat_le split deadlines
        && is_between 1 20 (length clubs.now) && differ (club_ids clubs.now)) }
{
    is_long(deadlines, 1, 38)
        && split as usize <= deadlines
        && is_long(clubs.len(), 1, 20)
        && differ(clubs)
}

fn is_long(length: usize, least: usize, most: usize) -> bool
    ensures { result ≡ is_between least most length }
{
    least <= length && length <= most
}

fn are_coins(coins: &[u8]) -> bool
    ensures { result ≡ list_all (λ coin. nat_le coin 1) coins.now }
{
    coins.iter().all(|coin| *coin <= 1)
}

// No id stands twice.
fn differ(clubs: &[(ClubId, Name)]) -> bool
    ensures { result ≡ differ (club_ids clubs.now) }
{
    match clubs {
        [] => true,
        [first, rest @ ..] => !has_id(rest, first.0) && differ(rest),
    }
}

fn has_id(clubs: &[(ClubId, Name)], id: ClubId) -> bool
    ensures { result ≡ list_any (λ y. y == id) (club_ids clubs.now) }
{
    'clubs: for club in clubs {
        if club.0 == id {
            return true;
        }
    }
    false
}
