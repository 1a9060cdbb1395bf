// Lists of records and commands, read from bytes.
ghost use Rattle.std.specs.Int.{w16, w32};
ghost use Rattle.record_fields.specs.FieldReading.{whole_in, player_at, moment_at, id_at, long_in};
ghost use Rattle.record_fields.specs.Given.{IsRead};
ghost use Rattle.record_fields.specs.ListReading.{line_at, row_at, swap_at, club_row_at, fifteen_at, pick_at};
ghost use Rattle.record_fields.specs.Reading.{byte_at, number_at, many_at};

use crate::reading::Reading;
use crate::unread::Unread;
use fpl_base::{ClubId, Name, PlayerId};
use rule_book::{Coins, Line, Slots, Swap};
use season_book::{Clubs, Lines, Moments, Order, Swaps};
use std::alloc::Global;

// The lists of records.
impl Reading<'_> {
    /// So many moments, of eight bytes each, in seconds since 1970. It takes memory.
    pub fn moments(&mut self, alloc: Global, count: usize) -> Result<Moments, Unread>
        ensures { IsRead result self.new (many_at moment_at count self.old) }
    {
        let mut moments = Moments::new(alloc);
        'moments: for _ in 0..count {
            let moment = self.moment()?;
            moments.push(moment)?;
        }
        Ok(moments)
    }

    /// So many entries, of four bytes each. It takes memory.
    pub fn order(&mut self, alloc: Global, count: usize) -> Result<Order, Unread>
        ensures { IsRead result self.new (many_at (long_in 1 4294967295) count self.old) }
    {
        let mut order = Order::new(alloc);
        'order: for _ in 0..count {
            let entry = self.entry()?;
            order.push(entry)?;
        }
        Ok(order)
    }

    /// So many numbers of four bytes. It takes memory.
    pub fn slots(&mut self, alloc: Global, count: usize) -> Result<Slots, Unread>
        ensures { IsRead result self.new (many_at (number_at w32) count self.old) }
    {
        let mut slots = Slots::new(alloc);
        'slots: for _ in 0..count {
            let slot = self.u32()?;
            slots.push(slot)?;
        }
        Ok(slots)
    }

    /// So many bytes. It takes memory.
    pub fn coins(&mut self, alloc: Global, count: usize) -> Result<Coins, Unread>
        ensures { IsRead result self.new (many_at byte_at count self.old) }
    {
        let mut coins = Coins::new(alloc);
        'coins: for _ in 0..count {
            let coin = self.u8()?;
            coins.push(coin)?;
        }
        Ok(coins)
    }

    /// The 28 figures of a line, of two bytes each.
    pub fn figures(&mut self) -> Result<[u16; 28], Unread>
        ensures { IsRead result self.new (many_at (number_at w16) 28 self.old) }
    {
        let mut figures = [0; 28];
        for place in 0..28 {
            let figure = self.u16()?;
            figures[place] = figure;
        }
        Ok(figures)
    }

    /// Fifteen players of a team with the prices at which they were bought, in tenths of a million: six bytes each.
    pub fn picks(&mut self) -> Result<[(PlayerId, u16); 15], Unread>
        ensures { IsRead result self.new (many_at pick_at 15 self.old) }
    {
        let mut picks = [(PlayerId::new(1).unwrap(), 0); 15];
        for place in 0..15 {
            let pick = self.pick()?;
            picks[place] = pick;
        }
        Ok(picks)
    }

    fn pick(&mut self) -> Result<(PlayerId, u16), Unread>
        ensures { IsRead result self.new (pick_at self.old) }
    {
        let player = self.player()?;
        let price = self.u16()?;
        Ok((player, price))
    }
}

// The lists of commands.
impl Reading<'_> {
    /// So many clubs with their names, each behind its length in two bytes. It takes memory.
    pub fn clubs(&mut self, alloc: Global, count: usize) -> Result<Clubs, Unread>
        ensures { IsRead result self.new (many_at club_row_at count self.old) }
    {
        let mut clubs = Clubs::new(alloc);
        'clubs: for _ in 0..count {
            let club = self.club_row(alloc)?;
            clubs.push(club)?;
        }
        Ok(clubs)
    }

    /// So many players with their lines, each behind the count of its figures. It takes memory.
    pub fn rows(&mut self, alloc: Global, count: usize) -> Result<Lines, Unread>
        ensures { IsRead result self.new (many_at row_at count self.old) }
    {
        let mut rows = Lines::new(alloc);
        'rows: for _ in 0..count {
            let row = self.row()?;
            rows.push(row)?;
        }
        Ok(rows)
    }

    /// So many transfers: who goes out, and who comes in. It takes memory.
    pub fn swaps(&mut self, alloc: Global, count: usize) -> Result<Swaps, Unread>
        ensures { IsRead result self.new (many_at swap_at count self.old) }
    {
        let mut swaps = Swaps::new(alloc);
        'swaps: for _ in 0..count {
            let swap = self.swap()?;
            swaps.push(swap)?;
        }
        Ok(swaps)
    }

    /// So many entries, of eight bytes each. It takes memory.
    pub fn whole_entries(&mut self, alloc: Global, count: usize) -> Result<Order, Unread>
        ensures { IsRead result self.new (many_at id_at count self.old) }
    {
        let mut whole_entries = Order::new(alloc);
        'whole_entries: for _ in 0..count {
            let entry = self.whole_entry()?;
            whole_entries.push(entry)?;
        }
        Ok(whole_entries)
    }

    /// So many numbers below 2 ^ 32, of eight bytes each. It takes memory.
    pub fn whole_slots(&mut self, alloc: Global, count: usize) -> Result<Slots, Unread>
        ensures { IsRead result self.new (many_at (whole_in 0 4294967295) count self.old) }
    {
        let mut whole_slots = Slots::new(alloc);
        'whole_slots: for _ in 0..count {
            let slot = self.whole_u32()?;
            whole_slots.push(slot)?;
        }
        Ok(whole_slots)
    }

    /// So many numbers up to 255, of eight bytes each. It takes memory.
    pub fn whole_coins(&mut self, alloc: Global, count: usize) -> Result<Coins, Unread>
        ensures { IsRead result self.new (many_at (whole_in 0 255) count self.old) }
    {
        let mut whole_coins = Coins::new(alloc);
        'whole_coins: for _ in 0..count {
            let coin = self.whole_u8()?;
            whole_coins.push(coin)?;
        }
        Ok(whole_coins)
    }

    fn whole_figures(&mut self) -> Result<[u16; 28], Unread>
        ensures { IsRead result self.new (many_at (whole_in 0 65535) 28 self.old) }
    {
        let mut figures = [0; 28];
        for place in 0..28 {
            let figure = self.whole_u16()?;
            figures[place] = figure;
        }
        Ok(figures)
    }

    fn whole_players(&mut self) -> Result<[PlayerId; 15], Unread>
        ensures { IsRead result self.new (many_at player_at 15 self.old) }
    {
        let mut players = [PlayerId::new(1).unwrap(); 15];
        for place in 0..15 {
            let player = self.whole_player()?;
            players[place] = player;
        }
        Ok(players)
    }

    fn club_row(&mut self, alloc: Global) -> Result<(ClubId, Name), Unread>
        ensures { IsRead result self.new (club_row_at self.old) }
    {
        let club = self.whole_club()?;
        let name = self.long_name(alloc)?;
        Ok((club, name))
    }

    fn row(&mut self) -> Result<(PlayerId, Line), Unread>
        ensures { IsRead result self.new (row_at self.old) }
    {
        let player = self.whole_player()?;
        let line = self.line()?;
        Ok((player, line))
    }

    #[tactic(auto, unfolding(crate::specs::ListReading::swap_at))]
    fn swap(&mut self) -> Result<Swap, Unread>
        ensures { IsRead result self.new (swap_at self.old) }
    {
        let out = self.whole_player()?;
        let into = self.whole_player()?;
        Ok(Swap { out, into })
    }

    /// A line behind the count of its figures, which is 28.
    #[tactic(auto, unfolding(crate::specs::ListReading::line_at, crate::specs::ListReading::list_at))]
    pub fn line(&mut self) -> Result<Line, Unread>
        ensures { IsRead result self.new (line_at self.old) }
    {
        if self.u16()? != 28 {
            return Err(Unread::Nothing);
        }
        let figures = self.whole_figures()?;
        Ok(Line { figures })
    }

    /// Fifteen players behind their count, which is 15.
    #[tactic(auto, unfolding(crate::specs::ListReading::fifteen_at, crate::specs::ListReading::list_at))]
    pub fn fifteen(&mut self) -> Result<[PlayerId; 15], Unread>
        ensures { IsRead result self.new (fifteen_at self.old) }
    {
        if self.u16()? != 15 {
            return Err(Unread::Nothing);
        }
        self.whole_players()
    }
}
