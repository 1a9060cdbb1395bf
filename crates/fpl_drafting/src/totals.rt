// What the members score over the locked gameweeks, and their table.
ghost use Rattle.std.specs.Prelude.{◌≡◌, ◌≤◌, ◌<◌, ◌+◌, ◌+ℤ◌, ◌++◌, ℕ, All, IfOk, OnOk, find, map, option_copied, string_bytes, true};
ghost use Rattle.rule_book.specs.FigureRange.{IsWithin};
ghost use Rattle.squad_rules.specs.Dreams.{IsGreatestTotal};
ghost use Rattle.draft_league.specs.Kept.{IsMember};
ghost use Rattle.draft_league.specs.Leagues.{is_over};
ghost use Rattle.fpl_drafting.specs.Totals.{AreTotals, IsTableText, IsTotal, asked_at, asked_for, asked_of_all, is_told, near, points_in, rank_in, row_at, row_if, row_text, rows_at, rows_of_rank, table_text, told_in};

use draft_league::Draft;
use fpl_base::{Gw, Memory, PlayerId, Position};
use squad_rules::dream_team;
use std::alloc::{AllocError, Global};

/// The points of a player in a gameweek, as a host told them.
#[derive(Clone, Copy, Debug, PartialEq, Eq)]
pub struct Told {
    pub player: PlayerId,
    pub gw: Gw,
    pub points: i32,
}

// What a member has over all locked gameweeks.
#[derive(Clone, Copy, Debug, PartialEq, Eq)]
pub(crate) struct Total {
    pub(crate) member: u8,
    pub(crate) total: i64,
}

/// Whose points in which gameweeks are asked for the table over so many gameweeks: for each member, at each of them, those
/// of his fifteen.
pub fn questions_of(alloc: Global, draft: &Draft, locked: u8) -> Result<Vec<(PlayerId, Gw)>, Memory>
    requires over { is_over draft.now ≡ true }
    requires few { locked ≤ 38 }
    ensures { IfOk result (λ questions. questions.items ≡ asked_of_all draft.now locked) }
{
    let mut questions = Vec::new(alloc);
    for place in 0..draft.members() {
        ask_for(alloc, draft, place + 1, locked, &mut questions)?;
    }
    Ok(questions)
}

// Those of one member.
fn ask_for(
    alloc: Global,
    draft: &Draft,
    member: u8,
    locked: u8,
    questions: &mut Vec<(PlayerId, Gw)>,
) -> Result<(), Memory>
    requires over { is_over draft.now ≡ true }
    requires few { locked ≤ 38 }
    requires member { IsMember draft.now.members member }
    ensures { OnOk result
        (questions.new.items ≡ questions.old.items ++ asked_for draft.now locked member) }
{
    for place in 0..locked {
        ask_at(alloc, draft, member, gameweek_behind(place), questions)?;
    }
    Ok(())
}

// Those of one member at one gameweek.
fn ask_at(
    alloc: Global,
    draft: &Draft,
    member: u8,
    gw: Gw,
    questions: &mut Vec<(PlayerId, Gw)>,
) -> Result<(), Memory>
    requires over { is_over draft.now ≡ true }
    requires member { IsMember draft.now.members member }
    ensures { OnOk result
        (questions.new.items ≡ questions.old.items ++ asked_at draft.now member gw) }
{
    let Some(squad) = draft.squad_at(alloc, member, gw)? else {
        unreachable!();
    };
    ask_all(&squad, gw, questions)
}

// Those of these players.
fn ask_all(
    squad: &[(PlayerId, Position)],
    gw: Gw,
    questions: &mut Vec<(PlayerId, Gw)>,
) -> Result<(), Memory>
    ensures { OnOk result
        (questions.new.items ≡ questions.old.items ++ map (λ one. (one.0, gw)) squad.now) }
{
    for one in squad {
        questions.push((one.0, gw))?;
    }
    Ok(())
}

// The gameweek behind so many.
fn gameweek_behind(place: u8) -> Gw
    requires { place < 38 }
    ensures { result ≡ place + 1 }
{
    match Gw::new(place + 1) {
        Some(gw) => gw,
        None => unreachable!(),
    }
}

/// The table over so many gameweeks, by the points that a host told for its questions: a header, and a row for each member,
/// by rank, then member.
pub fn table_of(alloc: Global, draft: &Draft, told: &[Told], locked: u8) -> Result<String, Memory>
    requires over { is_over draft.now ≡ true }
    requires few { locked ≤ 38 }
    ensures { IfOk result (λ text. IsTableText draft.now locked told.now (string_bytes text)) }
{
    let totals = totals_of(alloc, draft, told, locked)?;
    table_text(alloc, totals.as_slice(), draft.members())
}

// The totals of all members.
fn totals_of(alloc: Global, draft: &Draft, told: &[Told], locked: u8) -> Result<Vec<Total>, Memory>
    requires over { is_over draft.now ≡ true }
    requires few { locked ≤ 38 }
    ensures { IfOk result
        (λ totals. AreTotals draft.now told.now locked draft.now.members totals.items) }
{
    let mut totals = Vec::new(alloc);
    for place in 0..draft.members() {
        let total = total_of(alloc, draft, told, place + 1, locked)?;
        totals.push(Total {
            member: place + 1,
            total,
        })?;
    }
    Ok(totals)
}

// A member's total.
fn total_of(
    alloc: Global,
    draft: &Draft,
    told: &[Told],
    member: u8,
    locked: u8,
) -> Result<i64, Memory>
    requires over { is_over draft.now ≡ true }
    requires few { locked ≤ 38 }
    requires member { IsMember draft.now.members member }
    ensures { IfOk result (IsTotal draft.now told.now member locked) }
{
    let mut total = 0i64;
    for place in 0..locked {
        let score = score_at(alloc, draft, told, member, gameweek_behind(place))?;
        total = with_score(total, score);
    }
    Ok(total)
}

// A total with one more score: 38 of 32 bits have room in it.
fn with_score(total: i64, score: i32) -> i64
    requires { IsWithin 81604378624 total }
    ensures sum { result ≡ total +ℤ score }
    ensures near { (n : ℕ) → IsWithin n total → IsWithin (n + 2147483648) result }
{
    total + i64::from(score)
}

// A member's score at a gameweek.
fn score_at(alloc: Global, draft: &Draft, told: &[Told], member: u8, gw: Gw) -> Result<i32, Memory>
    requires over { is_over draft.now ≡ true }
    requires member { IsMember draft.now.members member }
    ensures { IfOk result (IsGreatestTotal (rows_at draft.now told.now member gw)) }
{
    let Some(squad) = draft.squad_at(alloc, member, gw)? else {
        unreachable!();
    };
    let rows = rows_of(alloc, &squad, told, gw)?;
    match dream_team(alloc, rows.as_slice())? {
        Some(dream) => Ok(dream.total),
        None => unreachable!(),
    }
}

// These players with their points in a gameweek.
fn rows_of(
    alloc: Global,
    squad: &[(PlayerId, Position)],
    told: &[Told],
    gw: Gw,
) -> Result<Vec<(PlayerId, Position, i32)>, Memory>
    ensures rows { IfOk result (λ rows. rows.items ≡ map (row_at told.now gw) squad.now) }
    ensures near { IfOk result (λ rows. All (λ row. IsWithin 1000000 row.2) rows.items) }
{
    let mut rows = Vec::new(alloc);
    for one in squad {
        rows.push((one.0, one.1, points_in(told, one.0, gw)))?;
    }
    Ok(rows)
}

// The points of a player in a gameweek.
fn points_in(told: &[Told], player: PlayerId, gw: Gw) -> i32
    ensures value { result ≡ points_in told.now player gw }
    ensures within { IsWithin 1000000 result }
{
    near(told_in(told, player, gw))
}

fn told_in(told: &[Told], player: PlayerId, gw: Gw) -> i32
    ensures { result ≡ told_in told.now player gw }
{
    match told_for(told, player, gw) {
        Some(one) => one.points,
        None => 0,
    }
}

fn told_for(told: &[Told], player: PlayerId, gw: Gw) -> Option<&Told>
    ensures { option_copied result ≡ find (λ one. is_told player gw one) told.now }
{
    told.iter().find(|one| is_told(player, gw, one))
}

fn is_told(player: PlayerId, gw: Gw, one: &Told) -> bool
    ensures { result ≡ is_told player gw one.now }
{
    one.player == player && one.gw == gw
}

// Points that are no further from 0 than a million.
fn near(points: i32) -> i32
    ensures value { result ≡ near points }
    ensures within { IsWithin 1000000 result }
{
    if points < -1_000_000 {
        -1_000_000
    } else if points > 1_000_000 {
        1_000_000
    } else {
        points
    }
}

// The table of totals: by rank, then member.
fn table_text(alloc: Global, totals: &[Total], members: u8) -> Result<String, Memory>
    ensures { IfOk result (λ text. string_bytes text ≡ table_text members totals.now) }
{
    let mut text = String::new(alloc);
    text.push_str("rank,member,total\n")?;
    for place in 0..members {
        add_rank(alloc, totals, place + 1, &mut text)?;
    }
    Ok(text)
}

// The rows of a rank.
fn add_rank(alloc: Global, totals: &[Total], rank: u8, text: &mut String) -> Result<(), Memory>
    ensures { OnOk result
        (string_bytes text.new ≡ string_bytes text.old ++ rows_of_rank totals.now rank) }
{
    for one in totals {
        let row = row_if(alloc, totals, rank, one)?;
        text.push_str(row.as_str())?;
    }
    Ok(())
}

// A member's row, if he has this rank.
fn row_if(alloc: Global, totals: &[Total], rank: u8, one: &Total) -> Result<String, Memory>
    ensures { IfOk result (λ text. string_bytes text ≡ row_if totals.now rank one.now) }
{
    if rank_in(totals, one) == usize::from(rank) {
        return Ok(row_text(alloc, rank, one.member, one.total)?);
    }
    Ok(String::new(alloc))
}

// One more than the number of members with a greater total.
fn rank_in(totals: &[Total], one: &Total) -> usize
    ensures { result ≡ rank_in totals.now one.now }
{
    totals
        .iter()
        .filter(|other| one.total < other.total)
        .count()
        + 1
}

fn row_text(alloc: Global, rank: u8, member: u8, total: i64) -> Result<String, AllocError>
    ensures { IfOk result (λ text. string_bytes text ≡ row_text rank member total) }
{
    format!(in alloc; "{rank},{member},{total}\n")
}
