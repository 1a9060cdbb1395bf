// Ids of the numbers that the key of a record has.
ghost use Rattle.record_fields.specs.Given.{IsGiven};
ghost use Rattle.record_fields.specs.Ranges.{is_club, is_player, is_id, is_gameweek};
ghost use Rattle.record_fields.specs.Reading.{kept};

use crate::unread::Unread;
use fpl_base::{ClubId, CupId, EntryId, FixtureId, Gw, LeagueId, PlayerId};

/// The club of a number: 1 to 255, else `Nothing`.
pub fn club_id(n: u32) -> Result<ClubId, Unread>
    ensures { IsGiven result (kept is_club n) }
{
    if n > 255 {
        return Err(Unread::Nothing);
    }
    ClubId::new(n as u8).ok_or(Unread::Nothing)
}

/// The player of a number: 1 to 999,999, else `Nothing`.
pub fn player_id(n: u32) -> Result<PlayerId, Unread>
    ensures { IsGiven result (kept is_player n) }
{
    PlayerId::new(n).ok_or(Unread::Nothing)
}

/// The fixture of a number: 1 to 999,999, else `Nothing`.
pub fn fixture_id(n: u32) -> Result<FixtureId, Unread>
    ensures { IsGiven result (kept is_player n) }
{
    FixtureId::new(n).ok_or(Unread::Nothing)
}

/// The entry of a number: any but 0, else `Nothing`.
pub fn entry_id(n: u32) -> Result<EntryId, Unread>
    ensures { IsGiven result (kept is_id n) }
{
    EntryId::new(n).ok_or(Unread::Nothing)
}

/// The league of a number: any but 0, else `Nothing`.
pub fn league_id(n: u32) -> Result<LeagueId, Unread>
    ensures { IsGiven result (kept is_id n) }
{
    LeagueId::new(n).ok_or(Unread::Nothing)
}

/// The cup of a number: any but 0, else `Nothing`.
pub fn cup_id(n: u32) -> Result<CupId, Unread>
    ensures { IsGiven result (kept is_id n) }
{
    CupId::new(n).ok_or(Unread::Nothing)
}

/// The gameweek of a number: 1 to 38, else `Nothing`.
pub fn gameweek_of(n: u32) -> Result<Gw, Unread>
    ensures { IsGiven result (kept is_gameweek n) }
{
    if n > 255 {
        return Err(Unread::Nothing);
    }
    Gw::new(n as u8).ok_or(Unread::Nothing)
}
