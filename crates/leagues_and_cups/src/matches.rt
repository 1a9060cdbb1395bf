// Results, and the Average.
ghost use Rattle.std.specs.Prelude.{◌≡◌, ◌≤◌, ◌<◌, ◌+◌, ℤ, pos, neg_ℤ, ◌≤ℤ◌, All, length};
ghost use Rattle.std.specs.Int.{int_div_euclid};
ghost use Rattle.rule_book.specs.FigureRange.{IsWithin};
ghost use Rattle.rule_book.specs.HeadToHead.{IsFloorOfMean, total_of, match_points, head_score};
ghost use Rattle.leagues_and_cups.specs.Scores.{with_match};

use rule_book::HeadScore;

/// The match points of a side, from both sides' points after deductions: 3 for a win, 1 for a draw, 0 for a loss.
pub fn result(own: i32, other: i32) -> u8
    ensures { result ≡ match_points own other }
{
    if own > other {
        3
    } else if own == other {
        1
    } else {
        0
    }
}

// The sum of the scores.
fn total(scores: &[i32]) -> i32
    requires few { length scores.now ≤ 64 }
    requires near { All (IsWithin 18000000) scores.now }
    ensures total { result ≡ total_of scores.now }
    ensures low { neg_ℤ (pos 1152000000) ≤ℤ result }
    ensures high { result ≤ℤ pos 1152000000 }
{
    let mut sum = 0;
    for score in scores {
        sum += *score;
    }
    sum
}

/// The points of the Average: the floor of the mean of the members' points, downwards for a negative mean too. There are
/// 1 to 64 scores, each at most 18,000,000 points from 0.
pub fn average(scores: &[i32]) -> i32
    requires some { 0 < length scores.now }
    requires few { length scores.now ≤ 64 }
    requires near { All (IsWithin 18000000) scores.now }
    ensures floor { IsFloorOfMean scores.now result }
    ensures value { result ≡ int_div_euclid (total_of scores.now) (pos (length scores.now)) }
{
    total(scores).div_euclid(scores.len() as i32)
}

// What a member has with one match more.
fn with_match(score: HeadScore, played: &(i32, i32)) -> HeadScore
    requires few { score.won + score.drawn + score.lost ≤ 38 }
    requires points { score.points ≤ 114 }
    requires within { IsWithin 684000000 score.scored }
    requires near { IsWithin 18000000 played.now.0 }
    ensures { result ≡ with_match score played.now }
{
    let (own, other) = *played;
    HeadScore {
        points: score.points + u32::from(result(own, other)),
        won: score.won + u32::from(own > other),
        drawn: score.drawn + u32::from(own == other),
        lost: score.lost + u32::from(own < other),
        scored: score.scored + own,
    }
}

/// What a member has of his matches, each his own points and those of whom he met, after deductions. There are at most
/// 38, and his points in each are at most 18,000,000 from 0. `docs/RULES.md` has this under "Head-to-head leagues".
pub fn head_score(matches: &[(i32, i32)]) -> HeadScore
    requires few { length matches.now ≤ 38 }
    requires near { All (λ m. IsWithin 18000000 m.0) matches.now }
    ensures { result ≡ head_score matches.now }
{
    let mut score = HeadScore {
        points: 0,
        won: 0,
        drawn: 0,
        lost: 0,
        scored: 0,
    };
    for played in matches {
        score = with_match(score, played);
    }
    score
}
