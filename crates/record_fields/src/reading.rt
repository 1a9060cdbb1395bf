// Reading bytes from left to right.
ghost use Rattle.std.specs.Prelude.{◌≡◌, ◌==◌, length};
ghost use Rattle.std.specs.Int.{w16, w32, w64};
ghost use Rattle.record_fields.specs.Given.{Gives, IsRead};
ghost use Rattle.record_fields.specs.Reading.{byte_at, number_at, front_at};

use crate::unread::Unread;
use std::marker::Model;

/// The bytes that are not read yet, which each call reads from the left. After an error it is not said which these are.
#[derive(Drop)]
pub struct Reading<'a> {
    rest: &'a [u8],
}

impl<'a> Model for Reading<'a> {
    ghost use Rattle.std.specs.Prelude.{List, ℕ};

    ghost Value = { List ℕ };

    ghost view = { λ r. r.rest.now };
}

impl<'a> Reading<'a> {
    /// All of the bytes, from the first.
    pub fn of(bytes: &'a [u8]) -> Self
        ensures { result ≡ bytes.now }
    {
        Reading { rest: bytes }
    }

    /// Whether nothing is left.
    pub fn is_done(&self) -> bool
        ensures { result ≡ (length self.now == 0) }
    {
        self.rest.is_empty()
    }

    /// A byte; `Nothing` where none is left.
    pub fn u8(&mut self) -> Result<u8, Unread>
        ensures { IsRead result self.new (byte_at self.old) }
    {
        match self.rest {
            [] => Err(Unread::Nothing),
            [byte, rest @ ..] => {
                self.rest = rest;
                Ok(*byte)
            }
        }
    }

    #[tactic(auto, unfolding(crate::specs::Reading::front_at))]
    pub(crate) fn front(&mut self, n: usize) -> Result<&'a [u8], Unread>
        ensures { Gives (λ front. (front.now, self.new)) result (front_at n self.old) }
    {
        if self.rest.len() < n {
            return Err(Unread::Nothing);
        }
        let (front, rest) = self.rest.split_at(n);
        self.rest = rest;
        Ok(front)
    }

    /// A number in two bytes, the highest first; `Nothing` where fewer are left.
    #[tactic(auto, unfolding(crate::specs::Reading::number_at))]
    pub fn u16(&mut self) -> Result<u16, Unread>
        ensures { IsRead result self.new (number_at w16 self.old) }
    {
        if self.rest.len() < 2 {
            return Err(Unread::Nothing);
        }
        let (front, rest) = self.rest.split_at(2);
        self.rest = rest;
        Ok(u16::from_be_bytes([front[0], front[1]]))
    }

    /// A number in four bytes, the highest first; `Nothing` where fewer are left.
    #[tactic(auto, unfolding(crate::specs::Reading::number_at))]
    pub fn u32(&mut self) -> Result<u32, Unread>
        ensures { IsRead result self.new (number_at w32 self.old) }
    {
        if self.rest.len() < 4 {
            return Err(Unread::Nothing);
        }
        let (front, rest) = self.rest.split_at(4);
        self.rest = rest;
        Ok(u32::from_be_bytes([front[0], front[1], front[2], front[3]]))
    }

    /// A number in eight bytes, the highest first; `Nothing` where fewer are left.
    #[tactic(auto, unfolding(crate::specs::Reading::number_at))]
    pub fn u64(&mut self) -> Result<u64, Unread>
        ensures { IsRead result self.new (number_at w64 self.old) }
    {
        if self.rest.len() < 8 {
            return Err(Unread::Nothing);
        }
        let (front, rest) = self.rest.split_at(8);
        self.rest = rest;
        Ok(u64::from_be_bytes([
            front[0], front[1], front[2], front[3], front[4], front[5], front[6], front[7],
        ]))
    }
}
