// The commands that change the players. Each was judged before.
ghost use Rattle.std.specs.Prelude.{◌≡◌, None, OnOk, OnErr, true};
ghost use Rattle.rule_book.specs.Players.{player_refusal, price_refusal, with_club, with_details, with_gone, with_player, with_price};
ghost use Rattle.season_book.specs.Commands.{has_player};

use crate::Season;
use fpl_base::{ClubId, Memory, Name, PlayerId, Position, Refused, Tenths};
use rule_book::Player;

impl Season {
    pub(crate) fn add_player(&mut self, player: Player) -> Result<(), Memory>
        requires unbroken { player_refusal self.old.players player ≡ None }
        ensures ok { OnOk result
            (self.new ≡ record self.old { players = with_player self.old.players player }) }
        ensures err { OnErr result (self.new ≡ self.old) }
    {
        // For the prover, which learns by it that the id is one.
        let _ = player.id.get();
        match self.players.add(player) {
            Ok(()) => Ok(()),
            Err(Refused::Memory) => Err(Memory),
            Err(Refused::Rule(_)) => unreachable!(),
        }
    }

    pub(crate) fn set_price(&mut self, player: PlayerId, price: u16)
        requires unbroken { price_refusal price ≡ None }
        ensures { self.new
            ≡ record self.old { players = with_price self.old.players player price } }
    {
        let tenths = Tenths::new(u32::from(price)).unwrap();
        match self.players.set_price(player, tenths) {
            Ok(()) => {}
            Err(_) => unreachable!(),
        }
    }

    pub(crate) fn set_club(&mut self, player: PlayerId, club: ClubId)
        ensures { self.new ≡ record self.old { players = with_club self.old.players player club } }
    {
        self.players.set_club(player, club);
    }

    pub(crate) fn set_gone(&mut self, player: PlayerId, gone: bool)
        ensures { self.new ≡ record self.old { players = with_gone self.old.players player gone } }
    {
        self.players.set_gone(player, gone);
    }

    /// Gives a player who is there this name and this position; unchanged where memory is wanting.
    pub fn amend_player(
        &mut self,
        number: u32,
        name: &Name,
        position: Position,
    ) -> Result<(), Memory>
        requires there { has_player self.old number ≡ true }
        ensures ok { OnOk result
            (self.new
            ≡ record self.old { players = with_details self.old.players number name.now position }) }
        ensures err { OnErr result (self.new ≡ self.old) }
    {
        let name = name.copy()?;
        match self.player_there(number) {
            Some(player) => self.players.set_details(player, name, position),
            None => unreachable!(),
        }
        Ok(())
    }
}
