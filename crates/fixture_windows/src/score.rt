// The score of a match.
ghost use Rattle.std.specs.Prelude.{◌≡◌, ◌<◌, ◌^◌};
ghost use Rattle.std.specs.Option.{option_map};
ghost use Rattle.season_book.specs.FixturesWindow.{away_score, home_score};
ghost use Rattle.fixture_windows.specs.MatchRows.{IsMatch};
ghost use Rattle.fixture_windows.specs.Scores.{score_with};

use crate::matches::Match;
use crate::sides::{Side, side_of};
use fpl_base::PlayerId;
use rule_book::{Fixture, Line};
use season_views::Seen;
use std::sync::ledger::Ledger;

// The goals of both sides.
#[derive(Clone, Copy, Debug)]
pub(crate) struct Score {
    pub home: u64,
    pub away: u64,
}

// The score of a match that has started; `None` before that, and where somebody who scored plays for neither club now.
pub(crate) fn score_of<L: Ledger>(
    seen: &Seen<L>,
    fixture: &Fixture,
    rows: &Match<'_>,
) -> Option<Score>
    requires { IsMatch seen.now.facts fixture.now.id rows.now.players.now rows.now.lines.now
        rows.now.bonuses.now }
    ensures home { option_map (λ score. score.home) result ≡ home_score seen.now.facts fixture.now }
    ensures away { option_map (λ score. score.away) result ≡ away_score seen.now.facts fixture.now }
{
    if !seen.has_facts(fixture.id) {
        return None;
    }
    let mut score = Score { home: 0, away: 0 };
    for (place, player) in rows.players.iter().enumerate() {
        // That a player has a number below 2^32, for the prover.
        let _number = player.get();
        score = score_with(seen, fixture, score, *player, &rows.lines[place])?;
    }
    Some(score)
}

// The score with a player's goals and own goals; `None` where he has some, and is on neither side.
fn score_with<L: Ledger>(
    seen: &Seen<L>,
    fixture: &Fixture,
    score: Score,
    player: PlayerId,
    line: &Line,
) -> Option<Score>
    requires home { score.home < 2 ^ 60 }
    requires away { score.away < 2 ^ 60 }
    ensures { result ≡ score_with seen.now.facts fixture.now score (player, line.now) }
{
    let goals = u64::from(line.figures[1]);
    let own_goals = u64::from(line.figures[9]);
    if goals == 0 && own_goals == 0 {
        return Some(score);
    }
    match side_of(seen, fixture, player) {
        Some(Side::Home) => Some(Score {
            home: score.home + goals,
            away: score.away + own_goals,
        }),
        Some(Side::Away) => Some(Score {
            home: score.home + own_goals,
            away: score.away + goals,
        }),
        None => None,
    }
}
