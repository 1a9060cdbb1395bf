// The words and numbers by which answers name what is no number.
ghost use Rattle.std.specs.Prelude.{◌≡◌};
ghost use Rattle.fpl_answers.specs.KindNames as names;

use fpl_base::{Chip, Profile};

/// The word of a chip, `none` where none is played.
pub(crate) fn chip_word(chip: Chip) -> &'static str
    ensures { result.now ≡ names.chip_word chip }
{
    match chip {
        Chip::None => "none",
        Chip::Wildcard => "wildcard",
        Chip::FreeHit => "free_hit",
        Chip::BenchBoost => "bench_boost",
        Chip::TripleCaptain => "triple_captain",
    }
}

/// The number of a profile: 1 or 2.
pub(crate) fn profile_number(profile: Profile) -> u8
    ensures { result ≡ names.profile_number profile }
{
    match profile {
        Profile::A => 1,
        Profile::B => 2,
    }
}
