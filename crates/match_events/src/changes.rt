// Whose line differs between two lists of events.
ghost use Rattle.std.specs.Prelude.{◌≡◌, ◌≤◌, ◌==◌, ◌||◌, ◌+◌, ℕ, All, IfOk, MatchResult, OnOk, false, length, true};
ghost use Rattle.std.specs.List.Sorted.{IsStrictlyIncreasing};
ghost use Rattle.match_events.specs.Events.{brings_on};
ghost use Rattle.match_events.specs.Lines.{has_come_on, line_of};
ghost use Rattle.match_events.specs.Places.{IsGap, IsPlace, IsPut};
ghost use Rattle.match_events.specs.Sheets.{AreChanged, IsOther, is_listed};

use crate::event::Event;
use crate::line::line_of;
use fpl_base::{Memory, PlayerId};
use std::alloc::Global;

// The players whose line differs, ascending.
pub(crate) fn changed(
    alloc: Global,
    minutes: u8,
    told: &[Event],
    events: &[Event],
) -> Result<Vec<PlayerId>, Memory>
    requires told { length told.now ≤ 200 }
    requires events { length events.now ≤ 200 }
    ensures changed { IfOk result (λ players.
        AreChanged minutes told.now events.now players.items) }
    ensures few { IfOk result (λ players. length players.items ≤ 400) }
{
    let mut players = Vec::new(alloc);
    add_changed(&mut players, minutes, told, events, told)?;
    add_changed(&mut players, minutes, told, events, events)?;
    Ok(players)
}

// Adds those of them who come on by one of these events.
fn add_changed(
    players: &mut Vec<PlayerId>,
    minutes: u8,
    told: &[Event],
    events: &[Event],
    comings: &[Event],
) -> Result<(), Memory>
    requires told { length told.now ≤ 200 }
    requires events { length events.now ≤ 200 }
    requires ascending { IsStrictlyIncreasing players.old.items }
    requires differ { All (IsOther minutes told.now events.now) players.old.items }
    ensures ascending { OnOk result (IsStrictlyIncreasing players.new.items) }
    ensures differ { OnOk result (All (IsOther minutes told.now events.now) players.new.items) }
    ensures more { OnOk result ((p : ℕ) → is_listed players.old.items p ≡ true
        → is_listed players.new.items p ≡ true) }
    ensures others { OnOk result ((p : ℕ) → has_come_on comings.now p ≡ true
        → is_listed players.new.items p ≡ false
        → line_of minutes events.now p ≡ line_of minutes told.now p) }
    ensures few { OnOk result
        (length players.new.items ≤ length players.old.items + length comings.now) }
{
    for event in comings {
        add_comer(players, minutes, told, events, event)?;
    }
    Ok(())
}

// Adds the one who comes on by an event, if his line differs.
fn add_comer(
    players: &mut Vec<PlayerId>,
    minutes: u8,
    told: &[Event],
    events: &[Event],
    event: &Event,
) -> Result<(), Memory>
    requires told { length told.now ≤ 200 }
    requires events { length events.now ≤ 200 }
    requires ascending { IsStrictlyIncreasing players.old.items }
    requires differ { All (IsOther minutes told.now events.now) players.old.items }
    ensures ascending { OnOk result (IsStrictlyIncreasing players.new.items) }
    ensures differ { OnOk result (All (IsOther minutes told.now events.now) players.new.items) }
    ensures more { OnOk result ((p : ℕ) → is_listed players.old.items p ≡ true
        → is_listed players.new.items p ≡ true) }
    ensures other { OnOk result ((p : ℕ) → brings_on p event.now ≡ true
        → is_listed players.new.items p ≡ false
        → line_of minutes events.now p ≡ line_of minutes told.now p) }
    ensures few { OnOk result (length players.new.items ≤ length players.old.items + 1) }
{
    match event.comer() {
        Some(player) => add_other(players, minutes, told, events, player),
        None => Ok(()),
    }
}

// Adds a player, if his line differs.
fn add_other(
    players: &mut Vec<PlayerId>,
    minutes: u8,
    told: &[Event],
    events: &[Event],
    player: PlayerId,
) -> Result<(), Memory>
    requires told { length told.now ≤ 200 }
    requires events { length events.now ≤ 200 }
    requires ascending { IsStrictlyIncreasing players.old.items }
    requires differ { All (IsOther minutes told.now events.now) players.old.items }
    ensures ascending { OnOk result (IsStrictlyIncreasing players.new.items) }
    ensures differ { OnOk result (All (IsOther minutes told.now events.now) players.new.items) }
    ensures more { OnOk result ((p : ℕ) → is_listed players.old.items p ≡ true
        → is_listed players.new.items p ≡ true) }
    ensures other { OnOk result (is_listed players.new.items player ≡ false
        → line_of minutes events.now player ≡ line_of minutes told.now player) }
    ensures few { OnOk result (length players.new.items ≤ length players.old.items + 1) }
{
    if is_other(minutes, told, events, player) {
        put(players, player)
    } else {
        Ok(())
    }
}

// Whether a player's line is another by these events than by those that were told.
fn is_other(minutes: u8, told: &[Event], events: &[Event], player: PlayerId) -> bool
    requires told { length told.now ≤ 200 }
    requires events { length events.now ≤ 200 }
    ensures differs { result ≡ true → IsOther minutes told.now events.now player }
    ensures same { result ≡ false
        → line_of minutes events.now player ≡ line_of minutes told.now player }
{
    line_of(minutes, events, player) != line_of(minutes, told, player)
}

// Puts a player in his place, where he does not stand there.
fn put(players: &mut Vec<PlayerId>, player: PlayerId) -> Result<(), Memory>
    requires { IsStrictlyIncreasing players.old.items }
    ensures ascending { OnOk result (IsStrictlyIncreasing players.new.items) }
    ensures listed { OnOk result ((p : ℕ) → is_listed players.new.items p
        ≡ (is_listed players.old.items p || player == p)) }
    ensures others { OnOk result (IsPut players.old.items player players.new.items) }
    ensures few { OnOk result (length players.new.items ≤ length players.old.items + 1) }
{
    match place_of(players, player) {
        Ok(_) => Ok(()),
        Err(place) => {
            players.insert(place, player)?;
            Ok(())
        }
    }
}

// Where a player stands, or would go.
fn place_of(players: &[PlayerId], player: PlayerId) -> Result<usize, usize>
    requires { IsStrictlyIncreasing players.now }
    ensures { MatchResult result (IsPlace players.now player) (IsGap players.now player) }
{
    players.binary_search(&player)
}
