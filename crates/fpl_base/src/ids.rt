// Names of things by number. Each holds a number of its range, and a contract sees it as that number.
ghost use Rattle.std.specs.Prelude.{◌≡◌, ◌≤◌, ◌↔◌, ℕ, IsSome, IfSome};

use std::marker::Model;

/// A club, by a number from 1 to 255.
#[derive(Clone, Copy, Debug, PartialEq, Eq, PartialOrd, Ord, Hash)]
pub struct ClubId(u8);

impl Model for ClubId {
    ghost Value = { ℕ };

    ghost view = { λ c. c.0 };

    ghost invariant = { λ c. 1 ≤ c.0 };

    ghost inverse = { λ n. record { 0 = n } };
}

impl ClubId {
    /// The one of this number; `None` where it is out of range.
    pub fn new(value: u8) -> Option<Self>
        ensures there { IsSome result ↔ (1 ≤ value) }
        ensures value { IfSome result (λ c. c ≡ value) }
    {
        if value >= 1 {
            Some(ClubId(value))
        } else {
            None
        }
    }

    /// Its number.
    pub fn get(self) -> u8
        ensures value { result ≡ self }
        ensures range { 1 ≤ result }
    {
        self.0
    }
}

/// A player, by a number from 1 to 999999.
#[derive(Clone, Copy, Debug, PartialEq, Eq, PartialOrd, Ord, Hash)]
pub struct PlayerId(u32);

impl Model for PlayerId {
    ghost Value = { ℕ };

    ghost view = { λ p. p.0 };

    ghost invariant = { λ p. (1 ≤ p.0) × (p.0 ≤ 999999) };

    ghost inverse = { λ n. record { 0 = n } };
}

impl PlayerId {
    /// The one of this number; `None` where it is out of range.
    pub fn new(value: u32) -> Option<Self>
        ensures there { IsSome result ↔ ((1 ≤ value) × (value ≤ 999999)) }
        ensures value { IfSome result (λ p. p ≡ value) }
    {
        if value >= 1 && value <= 999_999 {
            Some(PlayerId(value))
        } else {
            None
        }
    }

    /// Its number.
    pub fn get(self) -> u32
        ensures value { result ≡ self }
        ensures range { (1 ≤ result) × (result ≤ 999999) }
    {
        self.0
    }
}

/// A fixture, by a number from 1 to 999999.
#[derive(Clone, Copy, Debug, PartialEq, Eq, PartialOrd, Ord, Hash)]
pub struct FixtureId(u32);

impl Model for FixtureId {
    ghost Value = { ℕ };

    ghost view = { λ f. f.0 };

    ghost invariant = { λ f. (1 ≤ f.0) × (f.0 ≤ 999999) };

    ghost inverse = { λ n. record { 0 = n } };
}

impl FixtureId {
    /// The one of this number; `None` where it is out of range.
    pub fn new(value: u32) -> Option<Self>
        ensures there { IsSome result ↔ ((1 ≤ value) × (value ≤ 999999)) }
        ensures value { IfSome result (λ f. f ≡ value) }
    {
        if value >= 1 && value <= 999_999 {
            Some(FixtureId(value))
        } else {
            None
        }
    }

    /// Its number.
    pub fn get(self) -> u32
        ensures value { result ≡ self }
        ensures range { (1 ≤ result) × (result ≤ 999999) }
    {
        self.0
    }
}

/// A manager's entry, by a number from 1 in the order of making.
#[derive(Clone, Copy, Debug, PartialEq, Eq, PartialOrd, Ord, Hash)]
pub struct EntryId(u32);

impl Model for EntryId {
    ghost Value = { ℕ };

    ghost view = { λ e. e.0 };

    ghost invariant = { λ e. 1 ≤ e.0 };

    ghost inverse = { λ n. record { 0 = n } };
}

impl EntryId {
    /// The one of this number; `None` where it is out of range.
    pub fn new(value: u32) -> Option<Self>
        ensures there { IsSome result ↔ (1 ≤ value) }
        ensures value { IfSome result (λ e. e ≡ value) }
    {
        if value >= 1 {
            Some(EntryId(value))
        } else {
            None
        }
    }

    /// Its number.
    pub fn get(self) -> u32
        ensures value { result ≡ self }
        ensures range { 1 ≤ result }
    {
        self.0
    }
}

/// A league, by a number from 1 in the order of making.
#[derive(Clone, Copy, Debug, PartialEq, Eq, PartialOrd, Ord, Hash)]
pub struct LeagueId(u32);

impl Model for LeagueId {
    ghost Value = { ℕ };

    ghost view = { λ l. l.0 };

    ghost invariant = { λ l. 1 ≤ l.0 };

    ghost inverse = { λ n. record { 0 = n } };
}

impl LeagueId {
    /// The one of this number; `None` where it is out of range.
    pub fn new(value: u32) -> Option<Self>
        ensures there { IsSome result ↔ (1 ≤ value) }
        ensures value { IfSome result (λ l. l ≡ value) }
    {
        if value >= 1 {
            Some(LeagueId(value))
        } else {
            None
        }
    }

    /// Its number.
    pub fn get(self) -> u32
        ensures value { result ≡ self }
        ensures range { 1 ≤ result }
    {
        self.0
    }
}

/// A cup, by a number from 1 in the order of making.
#[derive(Clone, Copy, Debug, PartialEq, Eq, PartialOrd, Ord, Hash)]
pub struct CupId(u32);

impl Model for CupId {
    ghost Value = { ℕ };

    ghost view = { λ c. c.0 };

    ghost invariant = { λ c. 1 ≤ c.0 };

    ghost inverse = { λ n. record { 0 = n } };
}

impl CupId {
    /// The one of this number; `None` where it is out of range.
    pub fn new(value: u32) -> Option<Self>
        ensures there { IsSome result ↔ (1 ≤ value) }
        ensures value { IfSome result (λ c. c ≡ value) }
    {
        if value >= 1 { Some(CupId(value)) } else { None }
    }

    /// Its number.
    pub fn get(self) -> u32
        ensures value { result ≡ self }
        ensures range { 1 ≤ result }
    {
        self.0
    }
}
