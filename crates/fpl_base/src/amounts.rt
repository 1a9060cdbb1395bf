// Amounts, gameweeks and moments. Each holds a number of its range, and a contract sees it as that number.
ghost use Rattle.std.specs.Prelude.{◌≡◌, ◌≤◌, ◌↔◌, ℕ, IsSome, IfSome};

use std::marker::Model;

/// A gameweek, by its number from 1 to 38.
#[derive(Clone, Copy, Debug, PartialEq, Eq, PartialOrd, Ord, Hash)]
pub struct Gw(u8);

impl Model for Gw {
    ghost Value = { ℕ };

    ghost view = { λ g. g.0 };

    ghost invariant = { λ g. (1 ≤ g.0) × (g.0 ≤ 38) };

    ghost inverse = { λ n. record { 0 = n } };
}

impl Gw {
    /// The one of this number; `None` where it is out of range.
    pub fn new(value: u8) -> Option<Self>
        ensures there { IsSome result ↔ ((1 ≤ value) × (value ≤ 38)) }
        ensures value { IfSome result (λ g. g ≡ value) }
    {
        if value >= 1 && value <= 38 {
            Some(Gw(value))
        } else {
            None
        }
    }

    /// Its number.
    pub fn get(self) -> u8
        ensures value { result ≡ self }
        ensures range { (1 ≤ result) × (result ≤ 38) }
    {
        self.0
    }
}

/// An amount of money in tenths of a million pounds, from 0 to 10,000,000: 100.0 million is 1000.
#[derive(Clone, Copy, Debug, PartialEq, Eq, PartialOrd, Ord, Hash)]
pub struct Tenths(u32);

impl Model for Tenths {
    ghost Value = { ℕ };

    ghost view = { λ t. t.0 };

    ghost invariant = { λ t. t.0 ≤ 10000000 };

    ghost inverse = { λ n. record { 0 = n } };
}

impl Tenths {
    /// The one of this number; `None` where it is out of range.
    pub fn new(value: u32) -> Option<Self>
        ensures there { IsSome result ↔ (value ≤ 10000000) }
        ensures value { IfSome result (λ t. t ≡ value) }
    {
        if value <= 10_000_000 {
            Some(Tenths(value))
        } else {
            None
        }
    }

    /// Its number.
    pub fn get(self) -> u32
        ensures value { result ≡ self }
        ensures range { result ≤ 10000000 }
    {
        self.0
    }
}

/// A moment, in whole seconds since 1970-01-01T00:00:00Z, up to 9999-12-31T23:59:59Z.
#[derive(Clone, Copy, Debug, PartialEq, Eq, PartialOrd, Ord, Hash)]
pub struct Moment(u64);

impl Model for Moment {
    ghost Value = { ℕ };

    ghost view = { λ m. m.0 };

    ghost invariant = { λ m. m.0 ≤ 253402300799 };

    ghost inverse = { λ n. record { 0 = n } };
}

impl Moment {
    /// The one of this number; `None` where it is out of range.
    pub fn new(value: u64) -> Option<Self>
        ensures there { IsSome result ↔ (value ≤ 253402300799) }
        ensures value { IfSome result (λ m. m ≡ value) }
    {
        if value <= 253_402_300_799 {
            Some(Moment(value))
        } else {
            None
        }
    }

    /// Its number.
    pub fn get(self) -> u64
        ensures value { result ≡ self }
        ensures range { result ≤ 253402300799 }
    {
        self.0
    }
}
