// Who goes on.
ghost use Rattle.std.specs.Prelude.{◌≡◌};
ghost use Rattle.rule_book.specs.Cups.{first_goes_on};

use rule_book::Side;

/// Whether the first of two sides goes on: by more points after deductions, then more goals, then fewer conceded, then
/// the coin, which sends the first on where it is 0. `docs/RULES.md` has this under "Cups".
pub fn tie(a: &Side, b: &Side, coin: u8) -> bool
    ensures { result ≡ first_goes_on a.now b.now coin }
{
    if a.net != b.net {
        return a.net > b.net;
    }
    if a.goals != b.goals {
        return a.goals > b.goals;
    }
    if a.conceded != b.conceded {
        return a.conceded < b.conceded;
    }
    coin == 0
}
