// Whether two commands are the same.
ghost use Rattle.std.specs.Prelude.{◌≡◌, ◌↔◌, IsTrue};

use crate::lists::{
    are_same_clubs, are_same_entries, are_same_lines, are_same_moments, are_same_players,
    are_same_swaps,
};
use crate::{Clubs, Coins, Command, Lines, Moments, Order, Slots, Swaps};
use fpl_base::{Chip, ClubId, Code, FixtureId, Gw, Key, Moment, Name, PlayerId, Position, Profile};
use rule_book::{LeagueKind, Line};

impl Command {
    /// Whether this is the same command, with the same ids and members.
    pub fn is_same(&self, other: &Command) -> bool
        ensures { IsTrue result ↔ (self.now ≡ other.now) }
    {
        match self {
            Command::Season {
                profile,
                deadlines,
                split,
                clubs,
            } => is_season(other, *profile, deadlines, *split, clubs),
            Command::Deadline { gameweek, deadline } => is_deadline(other, *gameweek, *deadline),
            Command::Player {
                id,
                name,
                position,
                club,
                price,
            } => is_player(other, *id, name, *position, *club, *price),
            Command::AmendPlayer {
                player,
                name,
                position,
            } => is_amend_player(other, *player, name, *position),
            Command::Price { player, price } => is_price(other, *player, *price),
            Command::Club { player, club } => is_club(other, *player, *club),
            Command::Gone { player, gone } => is_gone(other, *player, *gone),
            Command::Fixture {
                id,
                home,
                away,
                gameweek,
                kickoff,
            } => is_fixture(other, *id, *home, *away, *gameweek, *kickoff),
            Command::Move {
                fixture,
                gameweek,
                kickoff,
            } => is_move(other, *fixture, *gameweek, *kickoff),
            Command::AmendFixture {
                fixture,
                home,
                away,
            } => is_amend_fixture(other, *fixture, *home, *away),
            Command::Sheet {
                fixture,
                lines,
                finished,
            } => is_sheet(other, *fixture, lines, *finished),
            Command::Line {
                fixture,
                player,
                line,
            } => is_line(other, *fixture, *player, line),
            Command::Drop { fixture, player } => is_drop(other, *fixture, *player),
            Command::Finished { fixture, finished } => is_finished(other, *fixture, *finished),
            Command::Key { key, name } => is_key(other, key, name),
            Command::Rekey { entry, key, name } => is_rekey(other, *entry, key, name),
            Command::Squad {
                players,
                captain,
                vice,
            } => is_squad(other, players, *captain, *vice),
            Command::Transfers { swaps } => is_transfers(other, swaps),
            Command::Lineup {
                players,
                captain,
                vice,
            } => is_lineup(other, players, *captain, *vice),
            Command::Chip { chip } => is_chip(other, *chip),
            Command::CancelChip => is_cancel_chip(other),
            Command::League {
                kind,
                name,
                code,
                start,
            } => is_league(other, *kind, name, code, *start),
            Command::Join { league, code } => is_join(other, *league, code),
            Command::Draw { league, order } => is_draw(other, *league, order),
            Command::Cup {
                start,
                slots,
                coins,
            } => is_cup(other, *start, slots, coins),
        }
    }
}

fn is_season(
    command: &Command,
    profile: Profile,
    deadlines: &Moments,
    split: u8,
    clubs: &Clubs,
) -> bool
    ensures { IsTrue result ↔ (command.now ≡ Command.Season profile deadlines.now split clubs.now) }
{
    match command {
        Command::Season {
            profile: other_profile,
            deadlines: other_deadlines,
            split: other_split,
            clubs: other_clubs,
        } => profile == *other_profile
            && are_same_moments(deadlines.as_slice(), other_deadlines.as_slice())
            && split == *other_split
            && are_same_clubs(clubs.as_slice(), other_clubs.as_slice()),
        _ => false,
    }
}

fn is_deadline(command: &Command, gameweek: Gw, deadline: Moment) -> bool
    ensures { IsTrue result ↔ (command.now ≡ Command.Deadline gameweek deadline) }
{
    match command {
        Command::Deadline {
            gameweek: other_gameweek,
            deadline: other_deadline,
        } => gameweek == *other_gameweek && deadline == *other_deadline,
        _ => false,
    }
}

fn is_player(
    command: &Command,
    id: PlayerId,
    name: &Name,
    position: Position,
    club: ClubId,
    price: u16,
) -> bool
    ensures { IsTrue result ↔ (command.now ≡ Command.Player id name.now position club price) }
{
    match command {
        Command::Player {
            id: other_id,
            name: other_name,
            position: other_position,
            club: other_club,
            price: other_price,
        } => id == *other_id
            && name.bytes() == other_name.bytes()
            && position == *other_position
            && club == *other_club
            && price == *other_price,
        _ => false,
    }
}

fn is_amend_player(command: &Command, player: u32, name: &Name, position: Position) -> bool
    ensures { IsTrue result ↔ (command.now ≡ Command.AmendPlayer player name.now position) }
{
    match command {
        Command::AmendPlayer {
            player: other_player,
            name: other_name,
            position: other_position,
        } => player == *other_player
            && name.bytes() == other_name.bytes()
            && position == *other_position,
        _ => false,
    }
}

fn is_price(command: &Command, player: PlayerId, price: u16) -> bool
    ensures { IsTrue result ↔ (command.now ≡ Command.Price player price) }
{
    match command {
        Command::Price {
            player: other_player,
            price: other_price,
        } => player == *other_player && price == *other_price,
        _ => false,
    }
}

fn is_club(command: &Command, player: PlayerId, club: ClubId) -> bool
    ensures { IsTrue result ↔ (command.now ≡ Command.Club player club) }
{
    match command {
        Command::Club {
            player: other_player,
            club: other_club,
        } => player == *other_player && club == *other_club,
        _ => false,
    }
}

fn is_gone(command: &Command, player: PlayerId, gone: bool) -> bool
    ensures { IsTrue result ↔ (command.now ≡ Command.Gone player gone) }
{
    match command {
        Command::Gone {
            player: other_player,
            gone: other_gone,
        } => player == *other_player && gone == *other_gone,
        _ => false,
    }
}

fn is_fixture(
    command: &Command,
    id: FixtureId,
    home: ClubId,
    away: ClubId,
    gameweek: Option<Gw>,
    kickoff: Moment,
) -> bool
    ensures { IsTrue result ↔ (command.now ≡ Command.Fixture id home away gameweek kickoff) }
{
    match command {
        Command::Fixture {
            id: other_id,
            home: other_home,
            away: other_away,
            gameweek: other_gameweek,
            kickoff: other_kickoff,
        } => id == *other_id
            && home == *other_home
            && away == *other_away
            && gameweek == *other_gameweek
            && kickoff == *other_kickoff,
        _ => false,
    }
}

fn is_move(command: &Command, fixture: u32, gameweek: Option<Gw>, kickoff: Moment) -> bool
    ensures { IsTrue result ↔ (command.now ≡ Command.Move fixture gameweek kickoff) }
{
    match command {
        Command::Move {
            fixture: other_fixture,
            gameweek: other_gameweek,
            kickoff: other_kickoff,
        } => fixture == *other_fixture && gameweek == *other_gameweek && kickoff == *other_kickoff,
        _ => false,
    }
}

fn is_amend_fixture(command: &Command, fixture: u32, home: ClubId, away: ClubId) -> bool
    ensures { IsTrue result ↔ (command.now ≡ Command.AmendFixture fixture home away) }
{
    match command {
        Command::AmendFixture {
            fixture: other_fixture,
            home: other_home,
            away: other_away,
        } => fixture == *other_fixture && home == *other_home && away == *other_away,
        _ => false,
    }
}

fn is_sheet(command: &Command, fixture: u32, lines: &Lines, finished: bool) -> bool
    ensures { IsTrue result ↔ (command.now ≡ Command.Sheet fixture lines.now finished) }
{
    match command {
        Command::Sheet {
            fixture: other_fixture,
            lines: other_lines,
            finished: other_finished,
        } => fixture == *other_fixture
            && are_same_lines(lines.as_slice(), other_lines.as_slice())
            && finished == *other_finished,
        _ => false,
    }
}

fn is_line(command: &Command, fixture: u32, player: PlayerId, line: &Line) -> bool
    ensures { IsTrue result ↔ (command.now ≡ Command.Line fixture player line.now) }
{
    match command {
        Command::Line {
            fixture: other_fixture,
            player: other_player,
            line: other_line,
        } => fixture == *other_fixture && player == *other_player && line == other_line,
        _ => false,
    }
}

fn is_drop(command: &Command, fixture: u32, player: PlayerId) -> bool
    ensures { IsTrue result ↔ (command.now ≡ Command.Drop fixture player) }
{
    match command {
        Command::Drop {
            fixture: other_fixture,
            player: other_player,
        } => fixture == *other_fixture && player == *other_player,
        _ => false,
    }
}

fn is_finished(command: &Command, fixture: u32, finished: bool) -> bool
    ensures { IsTrue result ↔ (command.now ≡ Command.Finished fixture finished) }
{
    match command {
        Command::Finished {
            fixture: other_fixture,
            finished: other_finished,
        } => fixture == *other_fixture && finished == *other_finished,
        _ => false,
    }
}

fn is_key(command: &Command, key: &Key, name: &Name) -> bool
    ensures { IsTrue result ↔ (command.now ≡ Command.Key key.now name.now) }
{
    match command {
        Command::Key {
            key: other_key,
            name: other_name,
        } => key.bytes() == other_key.bytes() && name.bytes() == other_name.bytes(),
        _ => false,
    }
}

fn is_rekey(command: &Command, entry: u32, key: &Key, name: &Name) -> bool
    ensures { IsTrue result ↔ (command.now ≡ Command.Rekey entry key.now name.now) }
{
    match command {
        Command::Rekey {
            entry: other_entry,
            key: other_key,
            name: other_name,
        } => entry == *other_entry
            && key.bytes() == other_key.bytes()
            && name.bytes() == other_name.bytes(),
        _ => false,
    }
}

fn is_squad(command: &Command, players: &[PlayerId; 15], captain: PlayerId, vice: PlayerId) -> bool
    ensures { IsTrue result ↔ (command.now ≡ Command.Squad players.now captain vice) }
{
    match command {
        Command::Squad {
            players: other_players,
            captain: other_captain,
            vice: other_vice,
        } => are_same_players(players, other_players)
            && captain == *other_captain
            && vice == *other_vice,
        _ => false,
    }
}

fn is_transfers(command: &Command, swaps: &Swaps) -> bool
    ensures { IsTrue result ↔ (command.now ≡ Command.Transfers swaps.now) }
{
    match command {
        Command::Transfers { swaps: other_swaps } => are_same_swaps(
            swaps.as_slice(),
            other_swaps.as_slice(),
        ),
        _ => false,
    }
}

fn is_lineup(command: &Command, players: &[PlayerId; 15], captain: PlayerId, vice: PlayerId) -> bool
    ensures { IsTrue result ↔ (command.now ≡ Command.Lineup players.now captain vice) }
{
    match command {
        Command::Lineup {
            players: other_players,
            captain: other_captain,
            vice: other_vice,
        } => are_same_players(players, other_players)
            && captain == *other_captain
            && vice == *other_vice,
        _ => false,
    }
}

fn is_chip(command: &Command, chip: Chip) -> bool
    ensures { IsTrue result ↔ (command.now ≡ Command.Chip chip) }
{
    match command {
        Command::Chip { chip: other_chip } => chip == *other_chip,
        _ => false,
    }
}

fn is_cancel_chip(command: &Command) -> bool
    ensures { IsTrue result ↔ (command.now ≡ Command.CancelChip) }
{
    match command {
        Command::CancelChip => true,
        _ => false
    }
}

fn is_league(command: &Command, kind: LeagueKind, name: &Name, code: &Code, start: Gw) -> bool
    ensures { IsTrue result ↔ (command.now ≡ Command.League kind name.now code.now start) }
{
    match command {
        Command::League {
            kind: other_kind,
            name: other_name,
            code: other_code,
            start: other_start,
        } => kind == *other_kind
            && name.bytes() == other_name.bytes()
            && code.bytes() == other_code.bytes()
            && start == *other_start,
        _ => false,
    }
}

fn is_join(command: &Command, league: u32, code: &Code) -> bool
    ensures { IsTrue result ↔ (command.now ≡ Command.Join league code.now) }
{
    match command {
        Command::Join {
            league: other_league,
            code: other_code,
        } => league == *other_league && code.bytes() == other_code.bytes(),
        _ => false,
    }
}

fn is_draw(command: &Command, league: u32, order: &Order) -> bool
    ensures { IsTrue result ↔ (command.now ≡ Command.Draw league order.now) }
{
    match command {
        Command::Draw {
            league: other_league,
            order: other_order,
        } => league == *other_league && are_same_entries(order.as_slice(), other_order.as_slice()),
        _ => false,
    }
}

fn is_cup(command: &Command, start: Gw, slots: &Slots, coins: &Coins) -> bool
    ensures { IsTrue result ↔ (command.now ≡ Command.Cup start slots.now coins.now) }
{
    match command {
        Command::Cup {
            start: other_start,
            slots: other_slots,
            coins: other_coins,
        } => start == *other_start
            && slots.as_slice() == other_slots.as_slice()
            && coins.as_slice() == other_coins.as_slice(),
        _ => false,
    }
}
