// A player's line by the events.
ghost use Rattle.std.specs.Prelude.{◌≡◌, ◌≤◌, count_by, length};
ghost use Rattle.std.specs.List.{list_any};
ghost use Rattle.match_events.specs.Events.{assists, books, brings_on, ends_play, scores, scores_own, sends_off};
ghost use Rattle.match_events.specs.Lines.{figures_of, flag_of, has_come_on, is_on_pitch, line_of, minute_of, minutes_of};

use crate::conceding::conceded_of;
use crate::event::Event;
use crate::places::{place_end, place_on};
use fpl_base::PlayerId;
use rule_book::Line;

// The line of a player in a match of so many minutes; `None` where he did not come on.
pub(crate) fn line_of(minutes: u8, events: &[Event], player: PlayerId) -> Option<Line>
    requires { length events.now ≤ 200 }
    ensures { result ≡ line_of minutes events.now player }
{
    if has_come_on(events, player) {
        let figures = figures_of(minutes, events, player);
        Some(Line { figures })
    } else {
        None
    }
}

// The figures of a player who came on.
fn figures_of(minutes: u8, events: &[Event], player: PlayerId) -> [u16; 28]
    requires { length events.now ≤ 200 }
    ensures { result ≡ figures_of minutes events.now player }
{
    let played = minutes_of(minutes, events, player);
    let goals = goals_of(events, player);
    let assists = assists_of(events, player);
    let conceded = conceded_of(events, player);
    let yellow = yellow_of(events, player);
    let red = red_of(events, player);
    let own = own_goals_of(events, player);
    [
        played, goals, assists, conceded, 0, 0, 0, yellow, red, own, 0, 0, 0, 0, 0, 0, 0, 0, 0, 0,
        0, 0, 0, 0, 0, 0, 0, 0,
    ]
}

pub(crate) fn has_come_on(events: &[Event], player: PlayerId) -> bool
    ensures { result ≡ has_come_on events.now player }
{
    events.iter().any(|event| event.brings_on(player))
}

// Whether a player came on, and neither was taken off nor sent off.
pub(crate) fn is_on_pitch(events: &[Event], player: PlayerId) -> bool
    ensures { result ≡ is_on_pitch events.now player }
{
    has_come_on(events, player) && !has_gone_off(events, player)
}

fn has_gone_off(events: &[Event], player: PlayerId) -> bool
    ensures { result ≡ list_any (ends_play player) events.now }
{
    events.iter().any(|event| event.ends_play(player))
}

fn minutes_of(minutes: u8, events: &[Event], player: PlayerId) -> u16
    ensures { result ≡ minutes_of minutes events.now player }
{
    let off = off_minute(minutes, events, player);
    let on = on_minute(events, player);
    u16::from(off.saturating_sub(on).max(1))
}

// The minute of the first event that takes a player off or sends him off, or else the last minute of the match.
fn off_minute(minutes: u8, events: &[Event], player: PlayerId) -> u8
    ensures { result ≡ minute_of (ends_play player) minutes events.now }
{
    match place_end(events, player) {
        Some(place) => events[place].minute,
        None => minutes,
    }
}

// The minute of the first event that brings a player on.
fn on_minute(events: &[Event], player: PlayerId) -> u8
    ensures { result ≡ minute_of (brings_on player) 0 events.now }
{
    match place_on(events, player) {
        Some(place) => events[place].minute,
        None => 0,
    }
}

// 1 where a player is booked.
fn yellow_of(events: &[Event], player: PlayerId) -> u16
    ensures { result ≡ flag_of (books player) events.now }
{
    if is_booked(events, player) { 1 } else { 0 }
}

fn is_booked(events: &[Event], player: PlayerId) -> bool
    ensures { result ≡ list_any (books player) events.now }
{
    events.iter().any(|event| event.books(player))
}

// 1 where a player is sent off.
fn red_of(events: &[Event], player: PlayerId) -> u16
    ensures { result ≡ flag_of (sends_off player) events.now }
{
    if is_sent_off(events, player) { 1 } else { 0 }
}

fn is_sent_off(events: &[Event], player: PlayerId) -> bool
    ensures { result ≡ list_any (sends_off player) events.now }
{
    events.iter().any(|event| event.sends_off(player))
}

fn goals_of(events: &[Event], player: PlayerId) -> u16
    requires { length events.now ≤ 200 }
    ensures { result ≡ count_by (scores player) events.now }
{
    events.iter().filter(|event| event.scores(player)).count() as u16
}

fn assists_of(events: &[Event], player: PlayerId) -> u16
    requires { length events.now ≤ 200 }
    ensures { result ≡ count_by (assists player) events.now }
{
    events.iter().filter(|event| event.assists(player)).count() as u16
}

fn own_goals_of(events: &[Event], player: PlayerId) -> u16
    requires { length events.now ≤ 200 }
    ensures { result ≡ count_by (scores_own player) events.now }
{
    events
        .iter()
        .filter(|event| event.scores_own(player))
        .count() as u16
}
