// The facts of one fixture.
ghost use Rattle.std.specs.Prelude.{◌≡◌, ◌≤◌, ◌<◌, [], length, IfOk, OnOk, OnErr, IsTrue, ◌↔◌, option_copied};
ghost use Rattle.std.specs.List.{zip};
ghost use Rattle.std.specs.List.Sorted.{IsStrictlyIncreasing};
ghost use Rattle.rule_book.specs.declared.line.Line.{Line};
ghost use Rattle.rule_book.specs.MatchFacts.{line_in, players_in, with_line, without_line, by_player, tells_facts};

use crate::columns::{line_at, place_of, put_row, remove_row};
use crate::judge::MOST_LINES;
use crate::marks::{Marks, is_marked, mark, no_marks};
use fpl_base::{Memory, PlayerId};
use rule_book::Line;
use std::alloc::Global;
use std::marker::Model;

/// The lines of a fixture by ascending player, and whether it is finished.
#[derive(Drop)]
pub struct Sheet {
    players: Vec<PlayerId>,
    lines: Vec<Line>,
    finished: bool,
    marks: Marks,
}

impl Model for Sheet {
    ghost use Rattle.std.specs.List.{zip};
    ghost use Rattle.rule_book.specs.MatchFacts as facts;
    ghost use Rattle.match_facts.specs.Marks.{AreMarkedColumns};

    ghost Value = { facts.Sheet };

    ghost view = { λ s.
        record { lines = zip s.players.items s.lines.items; finished = s.finished } };

    ghost invariant = { λ s. AreMarkedColumns s.players.items s.lines.items s.marks };
}

impl Sheet {
    /// A sheet without lines, with room for so many.
    pub fn new(alloc: Global, room: usize, finished: bool) -> Result<Self, Memory>
        ensures { IfOk result (λ sheet. sheet ≡ record { lines = []; finished = finished }) }
    {
        Ok(Sheet {
            players: Vec::with_capacity(alloc, room)?,
            lines: Vec::with_capacity(alloc, room)?,
            finished,
            marks: no_marks(),
        })
    }

    /// A sheet of these lines.
    pub fn of(alloc: Global, lines: &[(PlayerId, Line)], finished: bool) -> Result<Self, Memory>
        requires { length lines.now ≤ 64 }
        ensures { IfOk result
            (λ sheet. sheet ≡ record { lines = by_player lines.now; finished = finished }) }
    {
        let mut sheet = Sheet::new(alloc, lines.len(), finished)?;
        for line in lines {
            sheet.put(line.0, &line.1)?;
        }
        Ok(sheet)
    }

    /// The players who have a line, ascending.
    pub fn players(&self) -> &[PlayerId]
        ensures players { result.now ≡ players_in self.now.lines }
        ensures ascending { IsStrictlyIncreasing result.now }
        ensures few { length result.now ≤ 64 }
    {
        self.players.as_slice()
    }

    /// The players who have a line, ascending, and beside them the line of each.
    pub fn columns(&self) -> (&[PlayerId], &[Line])
        ensures rows { zip result.0.now result.1.now ≡ self.now.lines }
        ensures paired { length result.1.now ≡ length result.0.now }
        ensures ascending { IsStrictlyIncreasing result.0.now }
        ensures few { length result.0.now ≤ 64 }
    {
        (self.players.as_slice(), self.lines.as_slice())
    }

    pub fn line(&self, player: PlayerId) -> Option<&Line>
        ensures { option_copied result ≡ line_in self.now.lines player }
    {
        if is_marked(&self.marks, player) {
            line_at(&self.players, &self.lines, player)
        } else {
            None
        }
    }

    pub fn finished(&self) -> bool
        ensures { result ≡ self.now.finished }
    {
        self.finished
    }

    /// Whether it has a line or the mark.
    pub fn tells_facts(&self) -> bool
        ensures { result ≡ tells_facts self.now }
    {
        self.finished || !self.players.is_empty()
    }

    /// Whether at most 64 lines stand with one of this player.
    pub fn has_room(&self, player: PlayerId) -> bool
        ensures { (line : Line) → IsTrue result
            ↔ (length (with_line self.now.lines player line) ≤ 64) }
    {
        match place_of(&self.players, player) {
            Ok(_) => true,
            Err(_) => self.players.len() < MOST_LINES,
        }
    }

    /// Adds or replaces a line.
    pub fn put(&mut self, player: PlayerId, line: &Line) -> Result<(), Memory>
        requires { length (with_line self.old.lines player line.now) ≤ 64 }
        ensures ok { OnOk result
            (self.new
            ≡ record {
              lines = with_line self.old.lines player line.now;
              finished = self.old.finished;
            }) }
        ensures err { OnErr result (self.new ≡ self.old) }
    {
        mark(&mut self.marks, player);
        put_row(&mut self.players, &mut self.lines, player, line)
    }

    /// Takes the line of a player away, if he has one.
    pub fn remove(&mut self, player: PlayerId)
        ensures { self.new
            ≡ record { lines = without_line self.old.lines player; finished = self.old.finished } }
    {
        remove_row(&mut self.players, &mut self.lines, player);
    }

    pub fn set_finished(&mut self, finished: bool)
        ensures { self.new ≡ record { lines = self.old.lines; finished = finished } }
    {
        self.finished = finished;
    }
}
