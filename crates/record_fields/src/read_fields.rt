// Fields of records and commands, read from bytes.
ghost use Rattle.std.specs.Prelude.{◌≤◌, IfOk};
ghost use Rattle.fpl_base.specs.Texts.{is_name, is_key, is_code};
ghost use Rattle.record_fields.specs.FieldReading.{whole_in, place_at, flag_at, profile_end_at, position_at, chip_at, kind_at, long_text_at, player_at, club_at, gameweek_at, moment_at, id_at, byte_in, long_in, short_text_at, byte_place_at, profile_at};
ghost use Rattle.record_fields.specs.Given.{IsGiven, IsRead};
ghost use Rattle.record_fields.specs.Reading.{kept, gameweek_of};

use crate::reading::Reading;
use crate::unread::Unread;
use fpl_base::{
    Chip, ClubId, Code, EntryId, FixtureId, Gw, Key, Moment, Name, PlayerId, Position, Profile,
};
use rule_book::LeagueKind;
use std::alloc::Global;

// The members of commands: numbers in eight bytes.
impl Reading<'_> {
    // A number in a range.
    #[tactic(auto, unfolding(crate::specs::FieldReading::whole_in))]
    fn whole(&mut self, least: u64, most: u64) -> Result<u64, Unread>
        ensures read { IsRead result self.new (whole_in least most self.old) }
        ensures range { IfOk result (λ n. (least ≤ n) × (n ≤ most)) }
    {
        let n = self.u64()?;
        if n < least || n > most {
            return Err(Unread::Nothing);
        }
        Ok(n)
    }

    /// A number up to 255, in eight bytes.
    pub fn whole_u8(&mut self) -> Result<u8, Unread>
        ensures { IsRead result self.new (whole_in 0 255 self.old) }
    {
        let n = self.whole(0, 255)?;
        Ok(n as u8)
    }

    /// A number up to 65,535, in eight bytes.
    pub fn whole_u16(&mut self) -> Result<u16, Unread>
        ensures { IsRead result self.new (whole_in 0 65535 self.old) }
    {
        let n = self.whole(0, 65_535)?;
        Ok(n as u16)
    }

    pub(crate) fn whole_u32(&mut self) -> Result<u32, Unread>
        ensures { IsRead result self.new (whole_in 0 4294967295 self.old) }
    {
        let n = self.whole(0, 4_294_967_295)?;
        Ok(n as u32)
    }

    /// A club, 1 to 255, in eight bytes.
    pub fn whole_club(&mut self) -> Result<ClubId, Unread>
        ensures { IsRead result self.new (club_at self.old) }
    {
        let n = self.whole(1, 255)?;
        ClubId::new(n as u8).ok_or(Unread::Nothing)
    }

    /// A player, 1 to 999,999, in eight bytes.
    pub fn whole_player(&mut self) -> Result<PlayerId, Unread>
        ensures { IsRead result self.new (player_at self.old) }
    {
        let n = self.whole(1, 999_999)?;
        PlayerId::new(n as u32).ok_or(Unread::Nothing)
    }

    /// A fixture, 1 to 999,999, in eight bytes.
    pub fn whole_fixture(&mut self) -> Result<FixtureId, Unread>
        ensures { IsRead result self.new (player_at self.old) }
    {
        let n = self.whole(1, 999_999)?;
        FixtureId::new(n as u32).ok_or(Unread::Nothing)
    }

    pub(crate) fn whole_entry(&mut self) -> Result<EntryId, Unread>
        ensures { IsRead result self.new (id_at self.old) }
    {
        let n = self.whole(1, 4_294_967_295)?;
        EntryId::new(n as u32).ok_or(Unread::Nothing)
    }

    /// A gameweek, 1 to 38, in eight bytes.
    pub fn whole_gameweek(&mut self) -> Result<Gw, Unread>
        ensures { IsRead result self.new (gameweek_at self.old) }
    {
        let n = self.whole(1, 38)?;
        Gw::new(n as u8).ok_or(Unread::Nothing)
    }

    /// A moment, in seconds since 1970 and before the year 10000, in eight bytes, of a command or a record.
    pub fn moment(&mut self) -> Result<Moment, Unread>
        ensures { IsRead result self.new (moment_at self.old) }
    {
        let n = self.whole(0, 253_402_300_799)?;
        Moment::new(n).ok_or(Unread::Nothing)
    }

    /// A gameweek in eight bytes, or none where they are 0.
    #[tactic(auto, unfolding(crate::specs::FieldReading::place_at))]
    pub fn whole_place(&mut self) -> Result<Option<Gw>, Unread>
        ensures { IsRead result self.new (place_at self.old) }
    {
        let n = self.u64()?;
        place_of(n)
    }
}

// The fields of records: numbers in one byte or four.
impl Reading<'_> {
    /// A club, 1 to 255, in one byte.
    #[tactic(auto, unfolding(crate::specs::FieldReading::byte_in))]
    pub fn club(&mut self) -> Result<ClubId, Unread>
        ensures { IsRead result self.new (byte_in 1 255 self.old) }
    {
        let n = self.u8()?;
        ClubId::new(n).ok_or(Unread::Nothing)
    }

    /// A gameweek, 1 to 38, in one byte.
    #[tactic(auto, unfolding(crate::specs::FieldReading::byte_in))]
    pub fn gameweek(&mut self) -> Result<Gw, Unread>
        ensures { IsRead result self.new (byte_in 1 38 self.old) }
    {
        let n = self.u8()?;
        Gw::new(n).ok_or(Unread::Nothing)
    }

    /// A player, 1 to 999,999, in four bytes.
    #[tactic(auto, unfolding(crate::specs::FieldReading::long_in))]
    pub fn player(&mut self) -> Result<PlayerId, Unread>
        ensures { IsRead result self.new (long_in 1 999999 self.old) }
    {
        let n = self.u32()?;
        PlayerId::new(n).ok_or(Unread::Nothing)
    }

    /// An entry, any number but 0, in four bytes.
    #[tactic(auto, unfolding(crate::specs::FieldReading::long_in))]
    pub fn entry(&mut self) -> Result<EntryId, Unread>
        ensures { IsRead result self.new (long_in 1 4294967295 self.old) }
    {
        let n = self.u32()?;
        EntryId::new(n).ok_or(Unread::Nothing)
    }

    /// A gameweek in one byte, or none where it is 0.
    #[tactic(auto, unfolding(crate::specs::FieldReading::byte_place_at))]
    pub fn place(&mut self) -> Result<Option<Gw>, Unread>
        ensures { IsRead result self.new (byte_place_at self.old) }
    {
        let n = self.u8()?;
        place_of(n as u64)
    }
}

// A gameweek, or none where the number is 0.
fn place_of(n: u64) -> Result<Option<Gw>, Unread>
    ensures { IsGiven result (gameweek_of n) }
{
    if n == 0 {
        return Ok(None);
    }
    if n > 38 {
        return Err(Unread::Nothing);
    }
    let gameweek = Gw::new(n as u8).ok_or(Unread::Nothing)?;
    Ok(Some(gameweek))
}

// Numbers of what is no number.
impl Reading<'_> {
    /// Whether something holds: a byte, 1, or 0 where it does not.
    #[tactic(auto, unfolding(crate::specs::FieldReading::flag_at))]
    pub fn flag(&mut self) -> Result<bool, Unread>
        ensures { IsRead result self.new (flag_at self.old) }
    {
        match self.u8()? {
            0 => Ok(false),
            1 => Ok(true),
            _ => Err(Unread::Nothing),
        }
    }

    /// A profile by its number, 1 or 2, in one byte.
    #[tactic(auto, unfolding(crate::specs::FieldReading::profile_at))]
    pub fn profile(&mut self) -> Result<Profile, Unread>
        ensures { IsRead result self.new (profile_at self.old) }
    {
        match self.u8()? {
            1 => Ok(Profile::A),
            2 => Ok(Profile::B),
            _ => Err(Unread::Nothing),
        }
    }

    /// A position by its number, 0 to 3, in one byte.
    #[tactic(auto, unfolding(crate::specs::FieldReading::position_at))]
    pub fn position(&mut self) -> Result<Position, Unread>
        ensures { IsRead result self.new (position_at self.old) }
    {
        match self.u8()? {
            0 => Ok(Position::Keeper),
            1 => Ok(Position::Defender),
            2 => Ok(Position::Midfielder),
            3 => Ok(Position::Forward),
            _ => Err(Unread::Nothing),
        }
    }

    /// A chip by its number, 0 to 4, in one byte; 0 is none.
    #[tactic(auto, unfolding(crate::specs::FieldReading::chip_at))]
    pub fn chip(&mut self) -> Result<Chip, Unread>
        ensures { IsRead result self.new (chip_at self.old) }
    {
        match self.u8()? {
            0 => Ok(Chip::None),
            1 => Ok(Chip::Wildcard),
            2 => Ok(Chip::FreeHit),
            3 => Ok(Chip::BenchBoost),
            4 => Ok(Chip::TripleCaptain),
            _ => Err(Unread::Nothing),
        }
    }

    /// The kind of a league by its number, 1 or 2, in one byte.
    #[tactic(auto, unfolding(crate::specs::FieldReading::kind_at))]
    pub fn kind(&mut self) -> Result<LeagueKind, Unread>
        ensures { IsRead result self.new (kind_at self.old) }
    {
        match self.u8()? {
            1 => Ok(LeagueKind::Classic),
            2 => Ok(LeagueKind::Head),
            _ => Err(Unread::Nothing),
        }
    }

    /// What a season command ends with: nothing for profile A, and the number of B.
    #[tactic(auto, unfolding(crate::specs::FieldReading::profile_end_at))]
    pub fn profile_end(&mut self) -> Result<Profile, Unread>
        ensures { IsRead result self.new (profile_end_at self.old) }
    {
        if self.is_done() {
            return Ok(Profile::A);
        }
        match self.u8()? {
            2 => Ok(Profile::B),
            _ => Err(Unread::Nothing),
        }
    }
}

// Texts behind their lengths, in one byte or two.
impl Reading<'_> {
    /// A name behind its length in one byte. It takes memory.
    #[tactic(auto, unfolding(crate::specs::FieldReading::short_text_at))]
    pub fn short_name(&mut self, alloc: Global) -> Result<Name, Unread>
        ensures { IsRead result self.new (short_text_at is_name self.old) }
    {
        let n = self.u8()?;
        let text = self.front(n as usize)?;
        name_of(alloc, text)
    }

    /// A key behind its length in one byte. It takes memory.
    #[tactic(auto, unfolding(crate::specs::FieldReading::short_text_at))]
    pub fn short_key(&mut self, alloc: Global) -> Result<Key, Unread>
        ensures { IsRead result self.new (short_text_at is_key self.old) }
    {
        let n = self.u8()?;
        let text = self.front(n as usize)?;
        key_of(alloc, text)
    }

    /// A code behind its length in one byte. It takes memory.
    #[tactic(auto, unfolding(crate::specs::FieldReading::short_text_at))]
    pub fn short_code(&mut self, alloc: Global) -> Result<Code, Unread>
        ensures { IsRead result self.new (short_text_at is_code self.old) }
    {
        let n = self.u8()?;
        let text = self.front(n as usize)?;
        code_of(alloc, text)
    }

    /// A name behind its length in two bytes. It takes memory.
    #[tactic(auto, unfolding(crate::specs::FieldReading::long_text_at))]
    pub fn long_name(&mut self, alloc: Global) -> Result<Name, Unread>
        ensures { IsRead result self.new (long_text_at is_name self.old) }
    {
        let n = self.u16()?;
        let text = self.front(n as usize)?;
        name_of(alloc, text)
    }

    /// A key behind its length in two bytes. It takes memory.
    #[tactic(auto, unfolding(crate::specs::FieldReading::long_text_at))]
    pub fn long_key(&mut self, alloc: Global) -> Result<Key, Unread>
        ensures { IsRead result self.new (long_text_at is_key self.old) }
    {
        let n = self.u16()?;
        let text = self.front(n as usize)?;
        key_of(alloc, text)
    }

    /// A code behind its length in two bytes. It takes memory.
    #[tactic(auto, unfolding(crate::specs::FieldReading::long_text_at))]
    pub fn long_code(&mut self, alloc: Global) -> Result<Code, Unread>
        ensures { IsRead result self.new (long_text_at is_code self.old) }
    {
        let n = self.u16()?;
        let text = self.front(n as usize)?;
        code_of(alloc, text)
    }
}

fn name_of(alloc: Global, text: &[u8]) -> Result<Name, Unread>
    ensures { IsGiven result (kept is_name text.now) }
{
    Name::new(alloc, text)?.ok_or(Unread::Nothing)
}

fn key_of(alloc: Global, text: &[u8]) -> Result<Key, Unread>
    ensures { IsGiven result (kept is_key text.now) }
{
    Key::new(alloc, text)?.ok_or(Unread::Nothing)
}

fn code_of(alloc: Global, text: &[u8]) -> Result<Code, Unread>
    ensures { IsGiven result (kept is_code text.now) }
{
    Code::new(alloc, text)?.ok_or(Unread::Nothing)
}
