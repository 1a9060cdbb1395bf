// The sheets of a made-up season.
ghost use Rattle.std.specs.Prelude.{◌≡◌, ◌≤◌, ◌<◌, ◌+◌, ◌%◌, ◌^◌, IfOk, cond, slice_index};
ghost use Rattle.season_generator.specs.Draws.{draws_at};
ghost use Rattle.season_generator.specs.Made.{band_at, figures_by, line_by, lines_at, one_in};

use crate::draws::Draws;
use crate::squads::player;
use fpl_base::{Memory, PlayerId};
use rule_book::Line;
use season_book::Lines;
use std::alloc::Global;

// The bands of the sixteen players of a club that play.
const BANDS: [u32; 16] = [0, 1, 3, 4, 5, 6, 7, 8, 12, 13, 14, 15, 16, 23, 24, 25];

// The lines of a fixture: sixteen of the home club, then sixteen of the away club.
pub(crate) fn lines_of(alloc: Global, draws: &mut Draws, fixture: u32) -> Result<Lines, Memory>
    requires from_1 { 1 ≤ fixture }
    requires to_10 { fixture ≤ 10 }
    requires draws { draws.old.1 + 256 < 2 ^ 32 }
    ensures lines { IfOk result (λ lines. lines ≡ lines_at draws.old.0 draws.old.1 fixture 32) }
    ensures seed { draws.new.0 ≡ draws.old.0 }
{
    let mut lines = Lines::new(alloc);
    for place in 0..32u32 {
        lines.push(line_of(draws, fixture, place))?;
    }
    Ok(lines)
}

// The line at a place, from 0, by eight draws.
pub(crate) fn line_of(draws: &mut Draws, fixture: u32, place: u32) -> (PlayerId, Line)
    requires from_1 { 1 ≤ fixture }
    requires to_10 { fixture ≤ 10 }
    requires place { place < 32 }
    requires draws { draws.old.1 + 8 < 2 ^ 32 }
    ensures line { result ≡ line_by fixture place (draws_at draws.old.0 draws.old.1 8) }
    ensures goals { slice_index result.1.figures 1 ≤ 1 }
    ensures taken { draws.new ≡ (draws.old.0, draws.old.1 + 8) }
{
    let mut drawn = [0u32; 8];
    draws.take_into(&mut drawn);
    let band = band_at(place);
    let club = 2 * fixture - 1 + place / 16;
    let figures = figures_by(&drawn, band < 3);
    (player(20 * band + club), Line { figures })
}

// The band of a place.
fn band_at(place: u32) -> u32
    ensures value { result ≡ band_at place }
    ensures range { result ≤ 25 }
{
    BANDS[(place % 16) as usize]
}

// Eight draws as figures.
fn figures_by(drawn: &[u32; 8], keeper: bool) -> [u16; 28]
    ensures figures { result ≡ figures_by drawn.now keeper }
    ensures goals { slice_index result 1 ≤ 1 }
{
    let minutes = (30 * (drawn[0] % 4)) as u16;
    let attempted = drawn[6] % 60;
    let completed = attempted - drawn[7] % (attempted + 1);
    if minutes == 0 {
        return [0; 28];
    }
    let mut figures = [0u16; 28];
    figures[0] = minutes;
    figures[1] = one_in(8, drawn[1]);
    figures[2] = one_in(8, drawn[2]);
    figures[3] = (drawn[3] % 3) as u16;
    figures[4] = saves_of(keeper, drawn[4]);
    figures[7] = one_in(10, drawn[5]);
    figures[18] = attempted as u16;
    figures[19] = completed as u16;
    figures
}

// A goalkeeper's saves; nobody else has any.
fn saves_of(keeper: bool, drawn: u32) -> u16
    ensures { result ≡ cond keeper (drawn % 7) 0 }
{
    if keeper { (drawn % 7) as u16 } else { 0 }
}

// 1 where n divides the draw.
fn one_in(n: u32, drawn: u32) -> u16
    requires { 1 ≤ n }
    ensures value { result ≡ one_in n drawn }
    ensures range { result ≤ 1 }
{
    if drawn % n == 0 { 1 } else { 0 }
}
