// The nodes of a season, and what is kept of each.
ghost use Rattle.std.specs.Prelude.{◌≡◌, ◌↔◌, ◌++◌, ◌∷◌, [], IsTrue, OnOk, OnErr, Some, refl};
ghost use Rattle.std.specs.Hash as fed;
ghost use Rattle.std.specs.Ordering.{eq_by_cmp};
ghost use Rattle.std.specs.Cmp.{eq_by_cmp_equiv, partial_equiv_from_equiv, po};
ghost use Rattle.rule_book.specs.FigureRange.{IsWithin};
ghost use Rattle.rule_book.specs.TeamScores.{IsModest};
ghost use Rattle.season_nodes.specs.NodeOrder.{kind_of, first_of, second_of, third_of, node_cmp, node_total, packed, same_numbers};

use fpl_base::{CupId, EntryId, FixtureId, Gw, LeagueId, Memory, PlayerId};
use rule_book::{Figures, HeadScore, TeamScore};
use std::alloc::Global;
use std::cmp::Ordering;
use std::hash::{Hash, Hasher};
use std::marker::Model;

/// What has a value. Nodes are ordered by kind, and then by their numbers.
#[derive(Clone, Copy, Debug)]
pub enum Node {
    /// A player's line in a fixture.
    Line(FixtureId, PlayerId),
    /// The bonus of a fixture.
    Bonus(FixtureId),
    /// A player's gameweek.
    PlayerGw(PlayerId, Gw),
    /// An entry's gameweek.
    TeamGw(EntryId, Gw),
    /// An entry's total from a gameweek on.
    Total(EntryId, Gw),
    /// The Average of a head-to-head league in a gameweek.
    Average(LeagueId, Gw),
    /// A match of a head-to-head league in a gameweek, by the lower of its two places in the order of the draw. Places
    /// are counted from 0; the Average's is the one behind the members.
    Match(LeagueId, Gw, u8),
    /// A member's row of a head-to-head league.
    HeadRow(LeagueId, EntryId),
    /// A tie of a cup: how many rounds are before it, and its place in its round. Both are counted from 0.
    Tie(CupId, u8, u16),
}

impl Node {
    // Its kind and its numbers, each 0 where it has none.
    #[inline(always)]
    fn numbers(&self) -> (u8, u32, u32, u16)
        ensures { result
            ≡ (kind_of self.now, first_of self.now, second_of self.now, third_of self.now) }
    {
        match self {
            Node::Line(fixture, player) => (0, fixture.get(), player.get(), 0),
            Node::Bonus(fixture) => (1, fixture.get(), 0, 0),
            Node::PlayerGw(player, gameweek) => (2, player.get(), u32::from(gameweek.get()), 0),
            Node::TeamGw(entry, gameweek) => (3, entry.get(), u32::from(gameweek.get()), 0),
            Node::Total(entry, start) => (4, entry.get(), u32::from(start.get()), 0),
            Node::Average(league, gameweek) => (5, league.get(), u32::from(gameweek.get()), 0),
            Node::Match(league, gameweek, place) => {
                (
                    6,
                    league.get(),
                    u32::from(gameweek.get()),
                    u16::from(*place),
                )
            }
            Node::HeadRow(league, entry) => (7, league.get(), entry.get(), 0),
            Node::Tie(cup, round, place) => (8, cup.get(), u32::from(*round), *place),
        }
    }

    // Its kind and its numbers in one number: the kind in the 4 lowest bits, the first number in the next 22, the second
    // in the next 22, and the third in the highest 16. A greater number reaches into the bits of the next one.
    #[inline(always)]
    fn packed(&self) -> u64
        ensures { result
            ≡ packed (kind_of self.now) (first_of self.now) (second_of self.now)
            (third_of self.now) }
    {
        let (kind, first, second, third) = self.numbers();
        u64::from(kind) ^ u64::from(first) << 4 ^ u64::from(second) << 26 ^ u64::from(third) << 48
    }
}

impl PartialEq for Node {
    ghost eq = { eq_by_cmp node_cmp };

    ghost laws = { partial_equiv_from_equiv (eq_by_cmp_equiv node_total) };

    fn eq(&self, other: &Node) -> bool {
        let (kind, first, second, third) = self.numbers();
        let (other_kind, other_first, other_second, other_third) = other.numbers();
        kind == other_kind && first == other_first && second == other_second && third == other_third
    }
}

impl Eq for Node {
    ghost laws = { eq_by_cmp_equiv node_total };
}

impl PartialOrd for Node {
    ghost partial_cmp = { λ n m. Some (node_cmp n m) };

    ghost laws = { po node_total (λ n m. refl) };

    fn partial_cmp(&self, other: &Node) -> Option<Ordering> {
        Some(self.cmp(other))
    }
}

impl Ord for Node {
    ghost cmp = { node_cmp };

    ghost total = { node_total };

    ghost matches_partial_cmp = { λ n m. refl };

    ghost matches_eq = { λ n m. refl };

    fn cmp(&self, other: &Node) -> Ordering {
        let (kind, first, second, third) = self.numbers();
        let (other_kind, other_first, other_second, other_third) = other.numbers();
        match kind.cmp(&other_kind) {
            Ordering::Equal => match first.cmp(&other_first) {
                Ordering::Equal => match second.cmp(&other_second) {
                    Ordering::Equal => third.cmp(&other_third),
                    decided => decided,
                },
                decided => decided,
            },
            decided => decided,
        }
    }
}

impl Hash for Node {
    ghost hash_input = { λ n. fed.u64 (packed (kind_of n) (first_of n) (second_of n) (third_of n)) };

    ghost respects_eq = { same_numbers (λ k x y z. fed.u64 (packed k x y z)) };

    fn hash<H: Hasher>(&self, state: &mut H) {
        state.write_u64(self.packed());
    }
}

/// What is kept of a node.
#[derive(Drop)]
pub enum Value {
    /// What the line is worth without bonus.
    Line(LineWorth),
    /// Who took part, each with his bonus; nobody before the fixture is finished.
    Bonus(Bonuses),
    /// What the player did in the gameweek, bonus included.
    PlayerGw(GameweekFigures),
    /// What the entry's team scored in the gameweek.
    TeamGw(GameweekScore),
    /// The points after deductions of the entry over the locked gameweeks from that one on.
    Total(i32),
    /// The points of the Average.
    Average(AveragePoints),
    /// What each of the two scored.
    Match(MatchScores),
    /// What the member has of its matches.
    HeadRow(HeadScore),
    /// The number of the entry that goes on, or 0 where nobody does.
    Tie(u32),
}

/// What a line is worth without bonus, and what a gameweek takes from it.
#[derive(Clone, Copy, Debug, PartialEq, Eq)]
pub struct LineWorth {
    /// Points without bonus.
    pub points: i16,
    /// The number in the bonus points system.
    pub bps: i16,
    /// Minutes played.
    pub minutes: u16,
    /// Whether the player had a yellow or a red card.
    pub carded: bool,
    /// Goals that he scored.
    pub goals: u8,
    /// Goals that his side conceded while he played.
    pub conceded: u8,
}

/// What a player did in a gameweek: at most a million points, above or below 0, and at most a million goals of either
/// kind. A contract sees the figures themselves.
#[derive(Drop)]
pub struct GameweekFigures {
    figures: Figures,
}

impl Model for GameweekFigures {
    ghost use Rattle.rule_book.specs.declared.team_score.Figures.{Figures};
    ghost use Rattle.rule_book.specs.TeamScores.{IsModest};

    ghost Value = { Figures };

    ghost view = { λ g. g.figures };

    ghost invariant = { λ g. IsModest g.figures };
}

impl GameweekFigures {
    /// These figures.
    pub fn new(figures: Figures) -> Self
        requires { IsModest figures }
        ensures { result ≡ figures }
    {
        GameweekFigures { figures }
    }

    /// The figures themselves.
    pub fn get(&self) -> Figures
        ensures value { result ≡ self.now }
        ensures modest { IsModest result }
    {
        self.figures
    }
}

/// What a team scored in a gameweek: at most 18 million points after deductions, above or below 0. A contract sees the
/// score itself.
#[derive(Drop)]
pub struct GameweekScore {
    score: TeamScore,
}

impl Model for GameweekScore {
    ghost use Rattle.rule_book.specs.declared.team_score.TeamScore.{TeamScore};
    ghost use Rattle.rule_book.specs.FigureRange.{IsWithin};

    ghost Value = { TeamScore };

    ghost view = { λ g. g.score };

    ghost invariant = { λ g. IsWithin 18000000 g.score.net };
}

impl GameweekScore {
    /// This score.
    pub fn new(score: TeamScore) -> Self
        requires { IsWithin 18000000 score.net }
        ensures { result ≡ score }
    {
        GameweekScore { score }
    }

    /// The score itself.
    pub fn get(&self) -> &TeamScore
        ensures value { result.now ≡ self.now }
        ensures near { IsWithin 18000000 result.now.net }
    {
        &self.score
    }
}

/// The points of the Average in a gameweek: at most 18 million, above or below 0. A contract sees the number.
#[derive(Drop)]
pub struct AveragePoints {
    points: i32,
}

impl Model for AveragePoints {
    ghost use Rattle.std.specs.Prelude.{ℤ};
    ghost use Rattle.rule_book.specs.FigureRange.{IsWithin};

    ghost Value = { ℤ };

    ghost view = { λ a. a.points };

    ghost invariant = { λ a. IsWithin 18000000 a.points };
}

impl AveragePoints {
    /// So many points.
    pub fn new(points: i32) -> Self
        requires { IsWithin 18000000 points }
        ensures { result ≡ points }
    {
        AveragePoints { points }
    }

    /// How many they are.
    pub fn get(&self) -> i32
        ensures value { result ≡ self.now }
        ensures near { IsWithin 18000000 result }
    {
        self.points
    }
}

/// What the two of a match scored in its gameweek, each at most 18 million points after deductions, above or below 0. A
/// contract sees a pair: the points of the lower place, and those of whom it meets.
#[derive(Drop)]
pub struct MatchScores {
    low: i32,
    high: i32,
}

impl Model for MatchScores {
    ghost use Rattle.std.specs.Prelude.{ℤ};
    ghost use Rattle.rule_book.specs.FigureRange.{IsWithin};

    ghost Value = { ℤ × ℤ };

    ghost view = { λ m. (m.low, m.high) };

    ghost invariant = { λ m. IsWithin 18000000 m.low × IsWithin 18000000 m.high };
}

impl MatchScores {
    /// These points of the lower place, and these of whom it meets.
    pub fn new(low: i32, high: i32) -> Self
        requires low { IsWithin 18000000 low }
        requires high { IsWithin 18000000 high }
        ensures { result ≡ (low, high) }
    {
        MatchScores { low, high }
    }

    /// The points of both, the lower place's first.
    pub fn get(&self) -> (i32, i32)
        ensures value { result ≡ self.now }
        ensures low { IsWithin 18000000 result.0 }
        ensures high { IsWithin 18000000 result.1 }
    {
        (self.low, self.high)
    }
}

/// The players of a fixture who took part, each with his bonus. A contract sees them as a list.
#[derive(Drop)]
pub struct Bonuses {
    rows: Vec<(PlayerId, u8)>,
}

impl Model for Bonuses {
    ghost use Rattle.std.specs.Prelude.{List, ℕ};

    ghost Value = { List (ℕ × ℕ) };

    ghost view = { λ b. b.rows.items };
}

impl Bonuses {
    /// Nobody took part. It takes no memory.
    pub fn new(alloc: Global) -> Self
        ensures { result ≡ [] }
    {
        Bonuses {
            rows: Vec::new(alloc),
        }
    }

    /// The list with this player and his bonus at its end; unchanged after want of memory.
    pub fn push(&mut self, player: PlayerId, bonus: u8) -> Result<(), Memory>
        ensures ok { OnOk result (self.new ≡ self.old ++ (player, bonus) ∷ []) }
        ensures err { OnErr result (self.new ≡ self.old) }
    {
        self.rows.push((player, bonus))?;
        Ok(())
    }

    /// The rows themselves.
    pub fn as_slice(&self) -> &[(PlayerId, u8)]
        ensures { result.now ≡ self.now }
    {
        self.rows.as_slice()
    }
}

/// Whether two values are the same.
pub fn is_same(a: &Value, b: &Value) -> bool
    ensures { IsTrue result ↔ (a.now ≡ b.now) }
{
    match a {
        Value::Line(x) => match b {
            Value::Line(y) => *x == *y,
            _ => false,
        },
        Value::Bonus(x) => match b {
            Value::Bonus(y) => are_same_rows(x.as_slice(), y.as_slice()),
            _ => false,
        },
        Value::PlayerGw(x) => match b {
            Value::PlayerGw(y) => x.get() == y.get(),
            _ => false,
        },
        Value::TeamGw(x) => match b {
            Value::TeamGw(y) => is_same_score(x.get(), y.get()),
            _ => false,
        },
        Value::Total(x) => match b {
            Value::Total(y) => *x == *y,
            _ => false,
        },
        Value::Average(x) => match b {
            Value::Average(y) => x.get() == y.get(),
            _ => false,
        },
        Value::Match(x) => match b {
            Value::Match(y) => are_same_scores(x, y),
            _ => false,
        },
        Value::HeadRow(x) => match b {
            Value::HeadRow(y) => *x == *y,
            _ => false,
        },
        Value::Tie(x) => match b {
            Value::Tie(y) => *x == *y,
            _ => false,
        },
    }
}

// Whether two scores are the same.
fn is_same_score(a: &TeamScore, b: &TeamScore) -> bool
    ensures { IsTrue result ↔ (a.now ≡ b.now) }
{
    *a == *b
}

// Whether the scores of two matches are the same.
fn are_same_scores(a: &MatchScores, b: &MatchScores) -> bool
    ensures { IsTrue result ↔ (a.now ≡ b.now) }
{
    let (low, high) = a.get();
    let (other_low, other_high) = b.get();
    low == other_low && high == other_high
}

fn are_same_rows(rows: &[(PlayerId, u8)], others: &[(PlayerId, u8)]) -> bool
    ensures { IsTrue result ↔ (rows.now ≡ others.now) }
{
    if rows.len() != others.len() {
        return false;
    }
    'rows: for (place, row) in rows.iter().enumerate() {
        if !is_same_row(row, &others[place]) {
            return false;
        }
    }
    true
}

fn is_same_row(row: &(PlayerId, u8), other: &(PlayerId, u8)) -> bool
    ensures { IsTrue result ↔ (row.now ≡ other.now) }
{
    row.0 == other.0 && row.1 == other.1
}
