// Chips: which of them makes transfers free, which can be taken back, and from when on one is played once.
ghost use Rattle.std.specs.Prelude.{◌≡◌, ◌≤◌};
ghost use Rattle.rule_book.specs.EntryCalls.{transfer_limit};
ghost use Rattle.rule_book.specs.History.{is_free_hit};
ghost use Rattle.rule_book.specs.HistoryRules.{can_cancel};
ghost use Rattle.rule_book.specs.HistoryTransfers.{half_of, is_same_chip, makes_free};

use fpl_base::Chip;

/// Whether a chip makes the transfers of its gameweek free.
pub fn makes_free(chip: Chip) -> bool
    ensures { result ≡ makes_free chip }
{
    match chip {
        Chip::Wildcard => true,
        Chip::FreeHit => true,
        Chip::None => false,
        Chip::BenchBoost => false,
        Chip::TripleCaptain => false,
    }
}

/// Whether a chip is a free hit.
pub fn is_free_hit(chip: Chip) -> bool
    ensures { result ≡ is_free_hit chip }
{
    match chip {
        Chip::FreeHit => true,
        Chip::None => false,
        Chip::Wildcard => false,
        Chip::BenchBoost => false,
        Chip::TripleCaptain => false,
    }
}

/// Whether a chip that was played can be taken back.
pub fn can_cancel(chip: Chip) -> bool
    ensures { result ≡ can_cancel chip }
{
    match chip {
        Chip::BenchBoost => true,
        Chip::TripleCaptain => true,
        Chip::None => false,
        Chip::Wildcard => false,
        Chip::FreeHit => false,
    }
}

/// Whether two chips are the same.
pub fn is_same_chip(one: Chip, other: Chip) -> bool
    ensures { result ≡ is_same_chip one other }
{
    match (one, other) {
        (Chip::None, Chip::None) => true,
        (Chip::Wildcard, Chip::Wildcard) => true,
        (Chip::FreeHit, Chip::FreeHit) => true,
        (Chip::BenchBoost, Chip::BenchBoost) => true,
        (Chip::TripleCaptain, Chip::TripleCaptain) => true,
        _ => false,
    }
}

/// The gameweek from which on a chip is played once, seen from gameweek `g`: a wildcard after gameweek `split` is another
/// one.
pub fn half_of(split: u8, chip: Chip, g: u8) -> u8
    ensures value { result ≡ half_of split chip g }
    ensures from_one { 1 ≤ result }
{
    match chip {
        Chip::Wildcard => {
            if split < g {
                return split + 1;
            }
            1
        }
        Chip::None => 1,
        Chip::FreeHit => 1,
        Chip::BenchBoost => 1,
        Chip::TripleCaptain => 1,
    }
}

/// So many transfers are made in a gameweek at most; `first` says whether it is the entry's first.
pub fn transfer_limit(first: bool, chip: Chip) -> u16
    ensures value { result ≡ transfer_limit first chip }
    ensures most { result ≤ 1000 }
{
    if first || makes_free(chip) { 1000 } else { 20 }
}
