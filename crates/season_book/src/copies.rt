// Copies of commands.
ghost use Rattle.std.specs.Prelude.{◌≡◌, IfOk};

use crate::Command;
use crate::lists::copy_of_clubs;
use fpl_base::Memory;

impl Command {
    /// Another command with the same ids and members.
    pub fn copy(&self) -> Result<Command, Memory>
        ensures { IfOk result (λ copy. copy ≡ self.now) }
    {
        match *self {
            Command::Season {
                profile,
                ref deadlines,
                split,
                ref clubs,
            } => Ok(Command::Season {
                profile,
                deadlines: deadlines.copy()?,
                split,
                clubs: copy_of_clubs(clubs)?,
            }),
            Command::Deadline { gameweek, deadline } => Ok(Command::Deadline {
                gameweek,
                deadline,
            }),
            Command::Player {
                id,
                ref name,
                position,
                club,
                price,
            } => Ok(Command::Player {
                id,
                name: name.copy()?,
                position,
                club,
                price,
            }),
            Command::AmendPlayer {
                player,
                ref name,
                position,
            } => Ok(Command::AmendPlayer {
                player,
                name: name.copy()?,
                position,
            }),
            Command::Price { player, price } => Ok(Command::Price { player, price }),
            Command::Club { player, club } => Ok(Command::Club { player, club }),
            Command::Gone { player, gone } => Ok(Command::Gone { player, gone }),
            Command::Fixture {
                id,
                home,
                away,
                gameweek,
                kickoff,
            } => Ok(Command::Fixture {
                id,
                home,
                away,
                gameweek,
                kickoff,
            }),
            Command::Move {
                fixture,
                gameweek,
                kickoff,
            } => Ok(Command::Move {
                fixture,
                gameweek,
                kickoff,
            }),
            Command::AmendFixture {
                fixture,
                home,
                away,
            } => Ok(Command::AmendFixture {
                fixture,
                home,
                away,
            }),
            Command::Sheet {
                fixture,
                ref lines,
                finished,
            } => Ok(Command::Sheet {
                fixture,
                lines: lines.copy()?,
                finished,
            }),
            Command::Line {
                fixture,
                player,
                line,
            } => Ok(Command::Line {
                fixture,
                player,
                line,
            }),
            Command::Drop { fixture, player } => Ok(Command::Drop { fixture, player }),
            Command::Finished { fixture, finished } => Ok(Command::Finished { fixture, finished }),
            Command::Key { ref key, ref name } => Ok(Command::Key {
                key: key.copy()?,
                name: name.copy()?,
            }),
            Command::Rekey {
                entry,
                ref key,
                ref name,
            } => Ok(Command::Rekey {
                entry,
                key: key.copy()?,
                name: name.copy()?,
            }),
            Command::Squad {
                players,
                captain,
                vice,
            } => Ok(Command::Squad {
                players,
                captain,
                vice,
            }),
            Command::Transfers { ref swaps } => Ok(Command::Transfers {
                swaps: swaps.copy()?,
            }),
            Command::Lineup {
                players,
                captain,
                vice,
            } => Ok(Command::Lineup {
                players,
                captain,
                vice,
            }),
            Command::Chip { chip } => Ok(Command::Chip { chip }),
            Command::CancelChip => Ok(Command::CancelChip),
            Command::League {
                kind,
                ref name,
                ref code,
                start,
            } => Ok(Command::League {
                kind,
                name: name.copy()?,
                code: code.copy()?,
                start,
            }),
            Command::Join { league, ref code } => Ok(Command::Join {
                league,
                code: code.copy()?,
            }),
            Command::Draw { league, ref order } => Ok(Command::Draw {
                league,
                order: order.copy()?,
            }),
            Command::Cup {
                start,
                ref slots,
                ref coins,
            } => Ok(Command::Cup {
                start,
                slots: slots.copy()?,
                coins: coins.copy()?,
            }),
        }
    }
}
