ghost use Rattle.std.specs.Prelude.{◌≡◌};
ghost use Rattle.rule_book.specs.Prices.{selling_price};

use fpl_base::Tenths;

/// What a manager gets for a player: the present price where it did not rise since he bought him, else his own price
/// and half of the rise, rounded down to a tenth of a million.
pub fn selling_price(bought: Tenths, now: Tenths) -> Tenths
    ensures { result ≡ selling_price bought now }
{
    if now <= bought {
        return now;
    }
    let half_of_rise = (now.get() - bought.get()) / 2;
    Tenths::new(bought.get() + half_of_rise).unwrap()
}
