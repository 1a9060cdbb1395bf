// Which event of a list breaks a rule, if one does.
ghost use Rattle.std.specs.Prelude.{◌≡◌, ◌+◌, ◌<◌, Result, MatchResult, None, Some, length};
ghost use Rattle.match_events.specs.Refusals.{assister_of, broken_by, broken_in, comes_again, is_early, is_off_pitch, is_twelfth, is_wrong_assist};

use crate::conceding::{is_one_side, side_of};
use crate::event::{Event, EventKind};
use crate::line::{has_come_on, is_on_pitch};
use crate::refusal::EventRule;
use fpl_base::PlayerId;

// At most so many of a side start.
const STARTERS: usize = 11;

// Judges a list of events: the first one that breaks a rule is named.
pub(crate) fn judge(events: &[Event]) -> Result<(), EventRule>
    ensures { MatchResult result (λ _. broken_in events.now ≡ None)
        (λ rule. broken_in events.now ≡ Some rule) }
{
    for place in 0..events.len() {
        match broken_by(&events[..place], place + 1, &events[place]) {
            Some(rule) => return Err(rule),
            None => {}
        }
    }
    Ok(())
}

// The first rule that the event of a place breaks behind those before it.
fn broken_by(before: &[Event], place: usize, event: &Event) -> Option<EventRule>
    ensures { result ≡ broken_by before.now place event.now }
{
    if is_early(before, event) {
        Some(EventRule::EventOrder { place })
    } else if is_twelfth(before, event) {
        Some(EventRule::StartersFull { place })
    } else if comes_again(before, event) {
        Some(EventRule::AlreadyOn { place })
    } else if is_off_pitch(before, event) {
        Some(EventRule::NotOnPitch { place })
    } else if is_wrong_assist(before, event) {
        Some(EventRule::AssistWrong { place })
    } else {
        None
    }
}

fn is_early(before: &[Event], event: &Event) -> bool
    ensures { result ≡ is_early before.now event.now }
{
    match before.last() {
        Some(earlier) => event.minute < earlier.minute,
        None => false,
    }
}

fn is_twelfth(before: &[Event], event: &Event) -> bool
    ensures { result ≡ is_twelfth before.now event.now }
{
    matches!(event.kind, EventKind::Start)
        && before
            .iter()
            .filter(|earlier| {
                matches!(earlier.kind, EventKind::Start) && earlier.side.is(event.side)
            })
            .count()
            >= STARTERS
}

fn comes_again(before: &[Event], event: &Event) -> bool
    ensures { result ≡ comes_again before.now event.now }
{
    match event.comer() {
        Some(player) => has_come_on(before, player),
        None => false,
    }
}

fn is_off_pitch(before: &[Event], event: &Event) -> bool
    ensures { result ≡ is_off_pitch before.now event.now }
{
    if !matches!(event.kind, EventKind::Start) && !is_on_pitch(before, event.player) {
        return true;
    }
    match assister_of(event) {
        Some(player) => !is_on_pitch(before, player),
        None => false,
    }
}

fn is_wrong_assist(before: &[Event], event: &Event) -> bool
    ensures { result ≡ is_wrong_assist before.now event.now }
{
    match assister_of(event) {
        Some(player) => {
            player == event.player
                || !is_one_side(side_of(before, player), side_of(before, event.player))
        }
        None => false,
    }
}

// The second player of a goal.
fn assister_of(event: &Event) -> Option<PlayerId>
    ensures { result ≡ assister_of event.now }
{
    match event.kind {
        EventKind::Goal => event.other,
        _ => None,
    }
}
