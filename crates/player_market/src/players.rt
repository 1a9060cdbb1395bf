// The players of a season, by ascending id in one table.
ghost use Rattle.std.specs.Prelude.{◌≡◌, ◌<◌, ◌↔◌, None, IsTrue, [], length, slice_get, option_copied, OnOk, OnErr, IfOk, IfErr, IfSome};
ghost use Rattle.rule_book.specs.Players.{ArePlayers, IsPrice, most_players, player_of, with_player, with_price, with_club, with_gone, with_details, price_refusal, player_refusal};
ghost use Rattle.rule_book.specs.declared.player.Player.{Player};
ghost use Rattle.rule_book.specs.Refusals.{IsJudged, IsJudgedOrOut};
ghost use Rattle.player_market.specs.Places.{StandsAt, IsPlaceFor};

use fpl_base::{ClubId, Name, PlayerId, Position, Refused, Rule, Tenths};
use rule_book::Player;
use std::alloc::Global;
use std::marker::Model;

// So many players are in a season at most.
const MOST_PLAYERS: usize = 1200;

/// The players of a season, in ascending order of their ids. There are at most 1,200, and each costs 3.0 to 20.0
/// million.
#[derive(Drop)]
pub struct Players {
    // A row is a pointer, so that a player who goes before many others moves few bytes.
    rows: Vec<Box<Player>>,
}

impl Model for Players {
    ghost use Rattle.std.specs.Prelude.{List, map};
    ghost use Rattle.rule_book.specs.declared.player.Player.{Player};

    ghost Value = { List Player };

    ghost use Rattle.rule_book.specs.Players.{ArePlayers};

    ghost view = { λ s. map (λ b. b.value) s.rows.items };

    ghost invariant = { λ s. ArePlayers (map (λ b. b.value) s.rows.items) };
}

// Gives a player this name and this position.
fn amend(player: &mut Player, name: Name, position: Position)
    ensures { player.new ≡ record player.old { name = name; position = position } }
{
    player.name = name;
    player.position = position;
}

impl Players {
    /// No players.
    pub fn new(alloc: Global) -> Self
        ensures { result ≡ [] }
    {
        Players {
            rows: Vec::new(alloc),
        }
    }

    /// Adds a player. Refused is one whose id is there, one for whom there is no room, and one whose price is none
    /// that a player can have, in this order; he is dropped then.
    pub fn add(&mut self, player: Player) -> Result<(), Refused>
        ensures ok { OnOk result (self.new ≡ with_player self.old player) }
        ensures err { OnErr result (self.new ≡ self.old) }
        ensures judged { IsJudgedOrOut (player_refusal self.old player) result }
    {
        let place = match self.place_of_new(player.id, player.price) {
            Ok(place) => place,
            Err(rule) => return Err(Refused::Rule(rule)),
        };
        let row = match Box::new(*self.rows.allocator(), player) {
            Ok(row) => row,
            Err(_) => return Err(Refused::Memory),
        };
        if self.rows.insert(place, row).is_err() {
            return Err(Refused::Memory);
        }
        Ok(())
    }

    /// Whether a player of this id and price may be added: what `add` refuses for.
    pub fn judge_new(&self, id: PlayerId, price: Tenths) -> Result<(), Rule>
        ensures { (new : Player) → new.id ≡ id → new.price ≡ price
            → IsJudged (player_refusal self.now new) result }
    {
        match self.place_of_new(id, price) {
            Ok(_) => Ok(()),
            Err(rule) => Err(rule),
        }
    }

    // Where a player of this id and price would stand.
    fn place_of_new(&self, id: PlayerId, price: Tenths) -> Result<usize, Rule>
        ensures judged { (new : Player) → new.id ≡ id → new.price ≡ price
            → IsJudged (player_refusal self.now new) result }
        ensures place { IfOk result (IsPlaceFor self.now id) }
        ensures room { OnOk result (length self.now < most_players) }
        ensures price { OnOk result (IsPrice price) }
    {
        let has_room = self.rows.len() < MOST_PLAYERS;
        let place = match self.search(id) {
            Ok(_) => return Err(Rule::PlayerThere { player: id }),
            Err(place) => place,
        };
        if !has_room {
            return Err(Rule::PlayersFull);
        }
        match judge_price(price) {
            Ok(()) => Ok(place),
            Err(rule) => Err(rule),
        }
    }

    /// Sets a player's present price. A price is refused where no player can have it. Where the player is not there
    /// nothing changes.
    pub fn set_price(&mut self, player: PlayerId, price: Tenths) -> Result<(), Rule>
        ensures ok { OnOk result (self.new ≡ with_price self.old player price) }
        ensures err { OnErr result (self.new ≡ self.old) }
        ensures judged { IsJudged (price_refusal price) result }
    {
        judge_price(price)?;
        if let Ok(place) = self.search(player) {
            self.rows[place].price = price;
        }
        Ok(())
    }

    /// Sets the club for which a player plays. Where the player is not there nothing changes.
    pub fn set_club(&mut self, player: PlayerId, club: ClubId)
        ensures { self.new ≡ with_club self.old player club }
    {
        if let Ok(place) = self.search(player) {
            self.rows[place].club = club;
        }
    }

    /// Sets a player's name and his position. Where the player is not there nothing changes.
    pub fn set_details(&mut self, player: PlayerId, name: Name, position: Position)
        ensures { self.new ≡ with_details self.old player name position }
    {
        if let Ok(place) = self.search(player) {
            amend(&mut self.rows[place], name, position);
        }
    }

    /// Marks a player as gone, or as not gone. Where the player is not there nothing changes.
    pub fn set_gone(&mut self, player: PlayerId, gone: bool)
        ensures { self.new ≡ with_gone self.old player gone }
    {
        if let Ok(place) = self.search(player) {
            self.rows[place].gone = gone;
        }
    }

    /// The player of this id; `None` where he is not there.
    pub fn get(&self, player: PlayerId) -> Option<&Player>
        ensures found { option_copied result ≡ player_of self.now player }
        ensures lawful { ArePlayers self.now }
    {
        match self.search(player) {
            Ok(place) => Some(&self.rows[place]),
            Err(_) => None,
        }
    }

    /// How many players there are.
    pub fn len(&self) -> usize
        ensures count { result ≡ length self.now }
        ensures lawful { ArePlayers self.now }
    {
        self.rows.len()
    }

    /// The player at a place, counted from 0 in ascending order of id; `None` from the end on.
    pub fn at(&self, place: usize) -> Option<&Player>
        ensures found { option_copied result ≡ slice_get self.now place }
        ensures lawful { ArePlayers self.now }
    {
        let row = self.rows.get(place)?;
        Some(row)
    }

    // Where the player stands, or would stand.
    fn search(&self, player: PlayerId) -> Result<usize, usize>
        ensures found { IfOk result (StandsAt self.now player) }
        ensures absent { IfErr result (IsPlaceFor self.now player) }
    {
        if let Some(place) = self.counted_place(player) {
            return Ok(place);
        }
        self.rows.binary_search_by_key(&player, |row| row.id)
    }

    // Where the player stands if the ids count up by one from the first to his; `None` where nobody or another player
    // stands there.
    fn counted_place(&self, player: PlayerId) -> Option<usize>
        ensures { IfSome result (StandsAt self.now player) }
    {
        let first = self.rows.first()?;
        let place = player.get().checked_sub(first.id.get())? as usize;
        let there = self.rows.get(place)?;
        if there.id == player {
            Some(place)
        } else {
            None
        }
    }
}

/// Whether a player can have this price.
pub fn judge_price(price: Tenths) -> Result<(), Rule>
    ensures judged { IsJudged (price_refusal price) result }
    ensures price { OnOk result (IsPrice price) }
{
    if is_price(price.get()) {
        Ok(())
    } else {
        Err(Rule::PriceRange)
    }
}

/// Whether a player can have this price, in tenths of a million: 3.0 to 20.0 million.
pub fn is_price(price: u32) -> bool
    ensures { IsTrue result ↔ IsPrice price }
{
    (30..=200).contains(&price)
}
