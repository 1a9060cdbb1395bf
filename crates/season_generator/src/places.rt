// Which command stands where among the steps.
ghost use Rattle.std.specs.Prelude.{◌≡◌, ◌<◌, IfSome};
ghost use Rattle.season_generator.specs.Places.{IsPlace, place_of, place_of_entry};

// What a step does, of which player, fixture or entry, from 1.
#[derive(Clone, Copy, Debug, PartialEq, Eq)]
pub(crate) enum Place {
    Season,
    Player(u32),
    Fixture(u32),
    Key(u32),
    Squad(u32),
    League,
    Join(u32),
    Sheet(u32),
    // The first line of the first fixture, once more.
    Again,
}

// The place of a step, from 0; `None` behind the last.
pub(crate) fn place_of(n: u32) -> Option<Place>
    ensures value { result ≡ place_of n }
    ensures range { IfSome result IsPlace }
{
    if n < 1 {
        Some(Place::Season)
    } else if n < 601 {
        Some(Place::Player(n))
    } else if n < 611 {
        Some(Place::Fixture(n - 600))
    } else if n < 1611 {
        Some(place_of_entry(n - 611))
    } else if n < 1612 {
        Some(Place::League)
    } else if n < 2111 {
        Some(Place::Join(n - 1610))
    } else if n < 2121 {
        Some(Place::Sheet(n - 2110))
    } else if n < 2122 {
        Some(Place::Again)
    } else {
        None
    }
}

// An entry's key, then its squad.
fn place_of_entry(n: u32) -> Place
    requires { n < 1000 }
    ensures value { result ≡ place_of_entry n }
    ensures range { IsPlace result }
{
    let entry = n / 2 + 1;
    if n % 2 == 0 {
        Place::Key(entry)
    } else {
        Place::Squad(entry)
    }
}
