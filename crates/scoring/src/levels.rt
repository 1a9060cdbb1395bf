ghost use Rattle.std.specs.Prelude.{◌≡◌, ◌-◌, ℤ, []};
ghost use Rattle.rule_book.specs.Bonus.{bonus_of};
ghost use Rattle.scoring.specs.Levels.{above, bonus_by};

use fpl_base::PlayerId;
use std::marker::Model;

// What stands at a level at which nobody does: it is below each number that somebody may have.
const NOBODY: i64 = -2_147_483_649;

/// The three greatest numbers of those who took part in a match, or as many as there are: they tell each one's bonus.
/// A contract sees them as a list.
#[derive(Drop)]
pub struct BonusLevels {
    first: i64,
    second: i64,
    third: i64,
}

impl Model for BonusLevels {
    ghost use Rattle.std.specs.Prelude.{◌≤ℤ◌, ℤ, List};
    ghost use Rattle.scoring.specs.Levels.{numbers_at};

    ghost Value = { List ℤ };

    ghost view = { λ l. numbers_at l.first l.second l.third };

    ghost invariant = { λ l. l.second ≤ℤ l.first × l.third ≤ℤ l.second };
}

impl BonusLevels {
    // Nobody took part yet.
    #[inline(always)]
    fn new() -> Self
        ensures { result ≡ [] }
    {
        BonusLevels {
            first: NOBODY,
            second: NOBODY,
            third: NOBODY,
        }
    }

    /// Those of a whole table, in which each who took part stands with his number.
    pub fn of(table: &[(PlayerId, i32)]) -> Self
        ensures { (own : ℤ) → bonus_by result own ≡ bonus_of table.now own }
    {
        let mut levels = BonusLevels::new();
        for row in table {
            levels.add(row.1);
        }
        levels
    }

    // One more took part, and has this number. Most of a match are below the third level.
    #[inline(always)]
    fn add(&mut self, number: i32)
        ensures { (own : ℤ) → bonus_by self.new own ≡ bonus_by self.old own - above own number }
    {
        let number = i64::from(number);
        if number <= self.third {
            return;
        }
        if number <= self.second {
            self.third = number;
        } else if number <= self.first {
            self.third = self.second;
            self.second = number;
        } else {
            self.third = self.second;
            self.second = self.first;
            self.first = number;
        }
    }

    /// The bonus of who has this number.
    #[inline(always)]
    pub fn bonus(&self, own: i32) -> u8
        ensures { result ≡ bonus_by self.now own }
    {
        let own = i64::from(own);
        if self.third > own {
            return 0;
        }
        3 - ((self.first > own) as u8 + (self.second > own) as u8)
    }
}
