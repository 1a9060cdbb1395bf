// A command on a season.
ghost use Rattle.std.specs.Prelude.{◌≡◌, IfOk, OnOk, OnErr, false};
ghost use Rattle.season_book.specs.Commands.{changed_by};
ghost use Rattle.season_book.specs.Doing.{IsGranted};

use crate::Season;
use fpl_base::{ClubId, Memory, Moment, Name, PlayerId, Position, Tenths};
use rule_book::{Fixture, Player};
use season_book::Command;

impl Season {
    /// Does a command that nothing refuses at this moment, as `judge` says; unchanged where memory is wanting.
    pub fn change(&mut self, now: Moment, command: &Command) -> Result<(), Memory>
        requires { IsGranted self.old now command.now }
        ensures ok { OnOk result (self.new ≡ changed_by self.old command.now) }
        ensures err { OnErr result (self.new ≡ self.old) }
    {
        match command {
            Command::Deadline { gameweek, deadline } => {
                self.set_deadline(now, *gameweek, *deadline);
                Ok(())
            }
            Command::Player {
                id,
                name,
                position,
                club,
                price,
            } => self.add_player(new_player(*id, name, *position, *club, *price)?),
            Command::Price { player, price } => {
                self.set_price(*player, *price);
                Ok(())
            }
            Command::Club { player, club } => {
                self.set_club(*player, *club);
                Ok(())
            }
            Command::Gone { player, gone } => {
                self.set_gone(*player, *gone);
                Ok(())
            }
            Command::Fixture {
                id,
                home,
                away,
                gameweek,
                kickoff,
            } => self.add_fixture(Fixture {
                id: *id,
                home: *home,
                away: *away,
                gw: *gameweek,
                kickoff: *kickoff,
            }),
            Command::Move {
                fixture,
                gameweek,
                kickoff,
            } => {
                self.move_fixture(*fixture, *gameweek, *kickoff);
                Ok(())
            }
            Command::AmendFixture {
                fixture,
                home,
                away,
            } => {
                self.set_opponents(*fixture, *home, *away);
                Ok(())
            }
            Command::Sheet {
                fixture,
                lines,
                finished,
            } => self.put_sheet(*fixture, lines.as_slice(), *finished),
            Command::Line {
                fixture,
                player,
                line,
            } => self.put_line(*fixture, *player, line),
            Command::Drop { fixture, player } => {
                self.drop_line(*fixture, *player);
                Ok(())
            }
            Command::Finished { fixture, finished } => self.set_finished(*fixture, *finished),
            // A season begins another way, and no route orders the others yet.
            Command::Season { .. }
            | Command::Key { .. }
            | Command::Rekey { .. }
            | Command::AmendPlayer { .. }
            | Command::Squad { .. }
            | Command::Transfers { .. }
            | Command::Lineup { .. }
            | Command::Chip { .. }
            | Command::CancelChip
            | Command::League { .. }
            | Command::Join { .. }
            | Command::Draw { .. }
            | Command::Cup { .. } => unreachable!(),
        }
    }
}

// A new player is not gone.
fn new_player(
    id: PlayerId,
    name: &Name,
    position: Position,
    club: ClubId,
    price: u16,
) -> Result<Player, Memory>
    ensures { IfOk result
        (λ player. player
        ≡ record {
          id = id;
          name = name.now;
          position = position;
          club = club;
          price = price;
          gone = false;
        }) }
{
    Ok(Player {
        id,
        name: name.copy()?,
        position,
        club,
        price: Tenths::new(u32::from(price)).unwrap(),
        gone: false,
    })
}
