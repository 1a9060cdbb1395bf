// Whose side a player is on, and what he concedes.
ghost use Rattle.std.specs.Prelude.{◌≡◌, ◌≤◌, length};
ghost use Rattle.std.specs.List.{after_first, before_first};
ghost use Rattle.match_events.specs.Events.{brings_on, takes_off};
ghost use Rattle.match_events.specs.Lines.{conceded_of, is_conceded, is_one_side, side_of, stint_of};

use crate::event::{Event, EventKind, Side};
use crate::places::{place_off, place_on};
use fpl_base::PlayerId;

// The side of a player: that of his start, or that of the player whom he replaced.
pub(crate) fn side_of(events: &[Event], player: PlayerId) -> Option<Side>
    ensures { result ≡ side_of events.now player }
{
    let mut sought = player;
    for place in (0..events.len()).rev() {
        let event = &events[place];
        if event.brings_on(sought) {
            if matches!(event.kind, EventKind::Start) {
                return Some(event.side);
            }
            sought = event.player;
        }
    }
    None
}

// Whether both sides are known, and the same.
pub(crate) fn is_one_side(one: Option<Side>, other: Option<Side>) -> bool
    ensures { result ≡ is_one_side one other }
{
    match (one, other) {
        (Some(a), Some(b)) => a.is(b),
        _ => false,
    }
}

// How many goals a player's side conceded from his coming on to the substitution that took him off.
pub(crate) fn conceded_of(events: &[Event], player: PlayerId) -> u16
    requires { length events.now ≤ 200 }
    ensures { result ≡ conceded_of events.now player }
{
    let own = side_of(events, player);
    stint_of(events, player)
        .iter()
        .filter(|event| is_conceded(events, own, event))
        .count() as u16
}

// Whether a side concedes by an event.
fn is_conceded(events: &[Event], own: Option<Side>, event: &Event) -> bool
    ensures { result ≡ is_conceded events.now own event.now }
{
    match event.kind {
        EventKind::Goal => !is_one_side(own, side_of(events, event.player)),
        EventKind::Own => is_one_side(own, side_of(events, event.player)),
        _ => false,
    }
}

// The events behind the one that brought a player on, and in front of the substitution that took him off.
fn stint_of(events: &[Event], player: PlayerId) -> &[Event]
    ensures stint { result.now ≡ stint_of events.now player }
    ensures few { length result.now ≤ length events.now }
{
    until_off(behind_on(events, player), player)
}

fn behind_on(events: &[Event], player: PlayerId) -> &[Event]
    ensures behind { result.now ≡ after_first (brings_on player) events.now }
    ensures few { length result.now ≤ length events.now }
{
    match place_on(events, player) {
        Some(place) => &events[place + 1..],
        None => &events[events.len()..],
    }
}

fn until_off(events: &[Event], player: PlayerId) -> &[Event]
    ensures until { result.now ≡ before_first (takes_off player) events.now }
    ensures few { length result.now ≤ length events.now }
{
    match place_off(events, player) {
        Some(place) => &events[..place],
        None => events,
    }
}
