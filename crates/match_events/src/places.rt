// Where in the list a player comes on and goes off.
ghost use Rattle.std.specs.Prelude.{◌≡◌, ◌<◌, IfSome, length, position};
ghost use Rattle.match_events.specs.Events.{brings_on, ends_play, takes_off};

use crate::event::Event;
use fpl_base::PlayerId;

// The first place, from 0, at which an event brings a player on.
pub(crate) fn place_on(events: &[Event], player: PlayerId) -> Option<usize>
    ensures place { result ≡ position (brings_on player) events.now }
    ensures within { IfSome result (λ place. place < length events.now) }
{
    events.iter().position(|event| event.brings_on(player))
}

// The first place, from 0, at which a substitution takes a player off.
pub(crate) fn place_off(events: &[Event], player: PlayerId) -> Option<usize>
    ensures place { result ≡ position (takes_off player) events.now }
    ensures within { IfSome result (λ place. place < length events.now) }
{
    events.iter().position(|event| event.takes_off(player))
}

// The first place, from 0, at which an event takes a player off or sends him off.
pub(crate) fn place_end(events: &[Event], player: PlayerId) -> Option<usize>
    ensures place { result ≡ position (ends_play player) events.now }
    ensures within { IfSome result (λ place. place < length events.now) }
{
    events.iter().position(|event| event.ends_play(player))
}
