// Ranks of members, by the places of the members.
ghost use Rattle.std.specs.Prelude.{◌≡◌, ◌<◌, ℕ, AllPairs, Contains, length, map};

use fpl_base::EntryId;

/// The rank of a member, by the ranks of all members.
pub fn rank_of(members: &[EntryId], ranks: &[u32], entry: EntryId) -> u32
    requires rise { AllPairs (λ a b. a < b) members.now }
    requires member { Contains members.now entry }
    requires each { length ranks.now ≡ length members.now }
    ensures { (rank : ℕ → ℕ) → ranks.now ≡ map rank members.now → result ≡ rank entry }
{
    match members.binary_search(&entry) {
        Ok(place) => ranks[place],
        Err(_) => unreachable!(),
    }
}
