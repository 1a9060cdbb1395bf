// A sheet's lines in two columns: ascending players, and the line of each.
ghost use Rattle.std.specs.Prelude.{◌≡◌, ◌≤◌, OnOk, OnErr, length, option_copied};
ghost use Rattle.std.specs.List.{zip};
ghost use Rattle.rule_book.specs.MatchFacts.{line_in, with_line, without_line};
ghost use Rattle.match_facts.specs.Columns.{AreColumns, IsAscending, IsSought};

use fpl_base::{Memory, PlayerId};
use rule_book::Line;

/// Where a player stands, or would go.
pub fn place_of(players: &[PlayerId], player: PlayerId) -> Result<usize, usize>
    requires { IsAscending players.now }
    ensures { IsSought players.now player result }
{
    players.binary_search(&player)
}

/// The line of a player.
pub fn line_at<'a>(players: &[PlayerId], lines: &'a [Line], player: PlayerId) -> Option<&'a Line>
    requires { AreColumns players.now lines.now }
    ensures { option_copied result ≡ line_in (zip players.now lines.now) player }
{
    match place_of(players, player) {
        Ok(place) => Some(&lines[place]),
        Err(_) => None,
    }
}

/// Adds or replaces a line.
pub fn put_row(
    players: &mut Vec<PlayerId>,
    lines: &mut Vec<Line>,
    player: PlayerId,
    line: &Line,
) -> Result<(), Memory>
    requires columns { AreColumns players.old.items lines.old.items }
    requires room { length (with_line (zip players.old.items lines.old.items) player line.now)
        ≤ 64 }
    ensures columns { AreColumns players.new.items lines.new.items }
    ensures ok { OnOk result
        (zip players.new.items lines.new.items
        ≡ with_line (zip players.old.items lines.old.items) player line.now) }
    ensures err { OnErr result
        (zip players.new.items lines.new.items ≡ zip players.old.items lines.old.items) }
{
    match place_of(players, player) {
        Ok(place) => {
            lines[place] = *line;
            Ok(())
        }
        Err(place) => {
            players.reserve(1)?;
            lines.insert(place, *line)?;
            let _ = players.insert(place, player);
            Ok(())
        }
    }
}

/// Takes the line of a player away.
pub fn remove_row(players: &mut Vec<PlayerId>, lines: &mut Vec<Line>, player: PlayerId)
    requires { AreColumns players.old.items lines.old.items }
    ensures columns { AreColumns players.new.items lines.new.items }
    ensures rows { zip players.new.items lines.new.items
        ≡ without_line (zip players.old.items lines.old.items) player }
{
    match place_of(players, player) {
        Ok(place) => {
            players.remove(place);
            lines.remove(place);
        }
        Err(_) => {}
    }
}
