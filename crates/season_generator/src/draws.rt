// The draws of a seed.
ghost use Rattle.std.specs.Prelude.{◌≡◌, ◌+◌, ◌<◌, ◌^◌, ℕ, length};
ghost use Rattle.season_generator.specs.Draws.{draw, draws_at, next_state, state_after};

use std::marker::Model;

const MULTIPLIER: u64 = 6_364_136_223_846_793_005;

const INCREMENT: u64 = 1_442_695_040_888_963_407;

// The draws of a seed, one after another. A contract sees the seed and how many were taken.
#[derive(Drop)]
pub(crate) struct Draws {
    seed: u64,
    state: u64,
    taken: u32,
}

impl Model for Draws {
    ghost use Rattle.std.specs.Prelude.{ℕ, ◌≡◌};
    ghost use Rattle.season_generator.specs.Draws.{state_after};

    ghost Value = { ℕ × ℕ };

    ghost view = { λ d. (d.seed, d.taken) };

    ghost invariant = { λ d. d.state ≡ state_after d.seed d.taken };
}

impl Draws {
    #[tactic(auto, unfolding(crate::specs::Draws::state_after))]
    pub(crate) fn new(seed: u64) -> Self
        ensures { result ≡ (seed, 0) }
    {
        Draws {
            seed,
            state: seed,
            taken: 0,
        }
    }

    // The next draw, below 2^31.
    pub(crate) fn take(&mut self) -> u32
        requires { self.old.1 + 1 < 2 ^ 32 }
        ensures value { result ≡ draw self.old.0 self.old.1 }
        ensures range { result < 2 ^ 31 }
        ensures taken { self.new ≡ (self.old.0, self.old.1 + 1) }
    {
        let state = state_behind(self.state, 1);
        self.state = state;
        self.taken += 1;
        (state >> 33) as u32
    }

    // So many draws as there are places.
    pub(crate) fn take_into(&mut self, places: &mut [u32])
        requires { self.old.1 + length places.old < 2 ^ 32 }
        ensures drawn { places.new ≡ draws_at self.old.0 self.old.1 (length places.old) }
        ensures taken { self.new ≡ (self.old.0, self.old.1 + length places.old) }
    {
        for place in 0..places.len() {
            places[place] = self.take();
        }
    }

    // The draws of which so many were taken.
    pub(crate) fn go_to(&mut self, taken: u32)
        ensures { self.new ≡ (self.old.0, taken) }
    {
        self.state = state_at(self.seed, self.state, self.taken, taken);
        self.taken = taken;
    }
}

// The state behind so many draws, from the one behind those before.
fn state_at(seed: u64, state: u64, before: u32, taken: u32) -> u64
    requires { state ≡ state_after seed before }
    ensures { result ≡ state_after seed taken }
{
    if before > taken {
        state_behind(seed, taken)
    } else {
        state_behind(state, taken - before)
    }
}

// The state behind so many draws from this one.
fn state_behind(state: u64, count: u32) -> u64
    ensures { (seed n : ℕ) → state ≡ state_after seed n → result ≡ state_after seed (n + count) }
{
    let mut last = state;
    for _behind in 0..count {
        last = following(last);
    }
    last
}

fn following(state: u64) -> u64
    ensures { result ≡ next_state state }
{
    let wide = u128::from(state) * u128::from(MULTIPLIER) + u128::from(INCREMENT);
    (wide % (1u128 << 64)) as u64
}
