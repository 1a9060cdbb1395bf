//! One entry's rows, and the calls that change them.
ghost use Rattle.std.specs.Prelude.{true, ◌≡◌, ◌<◌, ◌≤◌, ◌+◌, ◌++◌, ◌∷◌, ℕ, List, [], Option, length, map, OnOk, OnErr, IfOk, IfSome, IsTrue, ◌↔◌, option_copied};
ghost use Rattle.std.specs.Option.{option_map};
ghost use Rattle.std.specs.List.{AllByRecursion as Each};
ghost use Rattle.fpl_base.specs.declared.kinds.Chip.TheVariants.{None as NoChip};
ghost use Rattle.fpl_base.specs.declared.kinds.Position.{Position};
ghost use Rattle.rule_book.specs.EntryRecords.{HasRecords, AreEntryRecords};
ghost use Rattle.rule_book.specs.History.{Event, in_gameweek, is_free_hit, chip_at};
ghost use Rattle.rule_book.specs.History.Deed.{First, Swap, Lineup, Play, Cancel};
ghost use Rattle.rule_book.specs.HistoryRules.{FirstTold, IsHistory};
ghost use Rattle.rule_book.specs.HistoryTeam.{TeamTold, TeamBalances, holdings};
ghost use Rattle.rule_book.specs.HistoryTransfers.{FreeTold, cost_at, counted_through, swaps_in, used_before};
ghost use Rattle.season_ledger.specs.Rows.{row_at, rows_of_records, chip_by, IsKept, IsFitTeam, FitsIn, AllUpTo, Rise, standing_at, team_in, begun, is_begun_by, put_row, put_chip, rows_had, used_by, first_in, is_past, free_in, cost_by, counted_by};
ghost use Rattle.season_ledger.specs.Batches.{BatchOn, LineupOn, IsFirstTeam, CanPlay, CanCancel, players_of};
ghost use Rattle.season_ledger.specs.Stands.{StandsFor, IsPlaced, RowsAlwaysTell};

use crate::rows::{
    are_up_to, first_of, has_had, put, put_in_place, row_in, row_of, rows_of_records, standing_of,
};
use crate::transfers::{cost_of, counted_of, free_of, used_of};
use crate::{Row, Standing};
use fpl_base::{Chip, Gw, Memory, PlayerId, Profile};
use rule_book::{Sale, Team};
use std::alloc::Global;
use std::marker::Model;

/// The rows of one entry.
#[derive(Drop)]
pub struct Entry {
    rows: Vec<Row>,
}

impl Model for Entry {
    ghost use Rattle.std.specs.Prelude.{List};
    ghost use Rattle.season_ledger.specs.declared.row.Row.{Row};
    ghost use Rattle.season_ledger.specs.Rows.{IsKept};

    ghost Value = { List Row };

    ghost view = { λ e. e.rows.items };

    ghost invariant = { λ e. IsKept e.rows.items };
}

impl Entry {
    /// An entry that is not registered.
    pub fn new(alloc: Global) -> Self
        ensures nothing { result ≡ [] }
        ensures history { (position : ℕ → Position) → StandsFor position result [] }
    {
        Entry {
            rows: Vec::new(alloc),
        }
    }

    /// An entry with these team rows and transfers.
    pub fn restore(
        alloc: Global,
        teams: &[(Gw, Team)],
        sales: &[(Gw, Sale)],
    ) -> Result<Self, Memory>
        requires { (first : Option ℕ) × AreEntryRecords first teams.now sales.now }
        ensures rows { IfOk result (λ e. e ≡ rows_of_records teams.now sales.now) }
        ensures history { (position : ℕ → Position) (h : List Event) → IsHistory h
            → HasRecords position h teams.now sales.now
            → IfOk result (λ e. StandsFor position e h) }
    {
        let rows = rows_of_records(alloc, teams, sales)?;
        Ok(Entry { rows })
    }

    /// What stands in a gameweek. None before the first.
    pub fn standing(&self, g: Gw) -> Option<Standing>
        ensures rows { result ≡ standing_at self.now g }
        ensures begun { begun result ≡ is_begun_by self.now g }
        ensures fit { FitsIn g result }
        ensures history { (position : ℕ → Position) (h : List Event) → StandsFor position self.now h
            → TeamTold position h g (team_in result) }
        ensures laws { (position : ℕ → Position) (h : List Event) → StandsFor position self.now h
            → TeamBalances h g (team_in result) }
    {
        standing_of(self.rows.as_slice(), g.get())
    }

    /// The team of a gameweek. None before the first.
    pub fn team(&self, g: Gw) -> Option<Team>
        ensures rows { result ≡ team_in (standing_at self.now g) }
        ensures history { (position : ℕ → Position) (h : List Event) → StandsFor position self.now h
            → TeamTold position h g result }
        ensures laws { (position : ℕ → Position) (h : List Event) → StandsFor position self.now h
            → TeamBalances h g result }
    {
        match standing_of(self.rows.as_slice(), g.get()) {
            Some(standing) => Some(standing.team),
            None => None,
        }
    }

    /// The row of a gameweek by its number: what was done in that gameweek itself. None where nothing was, as in what is
    /// no gameweek.
    pub fn row(&self, gameweek: u32) -> Option<&Row>
        ensures gameweek { IfSome result (λ row. row.now.gw ≡ gameweek) }
        ensures standing { option_map (λ row. row.standing) (option_copied result)
            ≡ row_at self.now gameweek }
    {
        row_in(self.rows.as_slice(), gameweek)
    }

    /// Whether a player stands in the team of a gameweek in which something was done.
    pub fn has_had(&self, player: PlayerId) -> bool
        ensures { result ≡ rows_had self.now player }
    {
        has_had(self.rows.as_slice(), player)
    }

    /// How many transfers a gameweek has.
    pub fn made(&self, g: Gw) -> u16
        ensures rows { result ≡ used_by self.now g }
        ensures few { result ≤ 1000 }
        ensures history { (position : ℕ → Position) (h : List Event) → StandsFor position self.now h
            → result ≡ swaps_in h g }
    {
        // What the type tells of its rows, for the prover.
        let _known = self.rows.len();
        match row_of(self.rows.as_slice(), g.get()) {
            Some(standing) => standing.made,
            None => 0,
        }
    }

    /// The first gameweek. None where the entry is not registered.
    pub fn first(&self) -> Option<Gw>
        ensures rows { result ≡ first_in self.now }
        ensures begun { (g : ℕ) → begun (standing_at self.now g) ≡ is_begun_by self.now g }
        ensures history { (position : ℕ → Position) (h : List Event) → StandsFor position self.now h
            → FirstTold h result }
    {
        first_of(self.rows.as_slice())
    }

    /// The free transfers of a gameweek. None up to the first.
    pub fn free(&self, profile: Profile, g: Gw) -> Option<u8>
        ensures rows { result ≡ free_in profile self.now g }
        ensures history { (position : ℕ → Position) (h : List Event) → StandsFor position self.now h
            → FreeTold profile h g result }
    {
        let first = first_of(self.rows.as_slice())?.get();
        if g.get() <= first {
            return None;
        }
        Some(free_of(profile, self.rows.as_slice(), first, g.get()))
    }

    /// The points that the transfers of a gameweek cost, of which there are at most 1,000.
    #[tactic(auto, using(crate::proofs::Season::used_few))]
    pub fn cost(&self, profile: Profile, g: Gw) -> u32
        ensures rows { result ≡ cost_by profile self.now g }
        ensures most { result ≤ 4000 }
        ensures history { (position : ℕ → Position) (h : List Event) → StandsFor position self.now h
            → result ≡ cost_at profile h g }
    {
        match first_of(self.rows.as_slice()) {
            Some(first) => {
                if g.get() <= first.get() {
                    return 0;
                }
                cost_of(profile, self.rows.as_slice(), first.get(), g.get())
            }
            None => 0,
        }
    }

    /// The transfers of gameweeks 1 to `through` that a table counts.
    pub fn counted(&self, through: u8) -> u32
        ensures rows { result ≡ counted_by self.now through }
        ensures history { (position : ℕ → Position) (h : List Event) → StandsFor position self.now h
            → result ≡ counted_through h through }
    {
        match first_of(self.rows.as_slice()) {
            Some(first) => counted_of(self.rows.as_slice(), first.get(), through),
            None => counted_of(self.rows.as_slice(), 0, through),
        }
    }

    /// The chip of a gameweek.
    pub fn chip(&self, g: Gw) -> Chip
        ensures rows { result ≡ chip_by self.now g }
        ensures history { (position : ℕ → Position) (h : List Event) → StandsFor position self.now h
            → result ≡ chip_at h g }
    {
        match row_of(self.rows.as_slice(), g.get()) {
            Some(standing) => standing.team.chip,
            None => Chip::None,
        }
    }

    /// The earlier gameweek in which a chip was played, in the same half of the season for a wildcard.
    pub fn chip_used(&self, split: u8, chip: Chip, g: Gw) -> Option<Gw>
        ensures rows { result ≡ used_before split (chip_by self.now) chip g }
        ensures history { (position : ℕ → Position) (h : List Event) → StandsFor position self.now h
            → result ≡ used_before split (chip_at h) chip g }
    {
        used_of(self.rows.as_slice(), split, chip, g)
    }

    /// Whether nothing was done in a later gameweek.
    pub fn is_up_to(&self, g: Gw) -> bool
        ensures { IsTrue result ↔ AllUpTo g self.now }
    {
        are_up_to(self.rows.as_slice(), g.get())
    }

    /// A law: the gameweeks of the rows rise.
    pub fn keeps_rows(&self)
        ensures { Rise self.now }
    {
        // What the type tells of its rows, for the prover.
        let _known = self.rows.len();
    }

    // Writes the row of a gameweek.
    fn write(&mut self, g: Gw, standing: &Standing) -> Result<(), Memory>
        requires { IsKept (put_row self.old g standing.now) }
        ensures ok { OnOk result (self.new ≡ put_row self.old g standing.now) }
        ensures err { OnErr result (self.new ≡ self.old) }
    {
        put(&mut self.rows, g, standing)
    }

    /// The first team.
    pub fn register(&mut self, g: Gw, team: &Team) -> Result<(), Memory>
        requires new { self.old ≡ [] }
        requires team { IsFirstTeam team.now }
        requires fit { IsFitTeam team.now }
        ensures ok { OnOk result
            (self.new ≡ put_row self.old g (record { made = 0; team = team.now })) }
        ensures history { (position : ℕ → Position) (h : List Event)
            → IsPlaced position team.now.picks → StandsFor position self.old h
            → OnOk result
            (StandsFor position self.new
            (h ++ in_gameweek g
            (First (holdings team.now.picks) team.now.captain team.now.vice ∷ []))) }
        ensures err { OnErr result (self.new ≡ self.old) }
    {
        // What the types tell of the rows and of the gameweek, for the prover.
        let _known = (self.rows.len(), g.get());
        let standing = Standing {
            made: 0,
            team: *team,
        };
        self.write(g, &standing)
    }

    /// An accepted batch: its sales, and the team after them.
    pub fn transfer(&mut self, g: Gw, sales: &[Sale], after: &Team) -> Result<(), Memory>
        requires later { AllUpTo g self.old }
        requires some { 0 < length sales.now }
        requires few { used_by self.old g + length sales.now ≤ 1000 }
        requires batch { BatchOn sales.now (standing_at self.old g) after.now }
        requires sold { Each (λ s. s.sold ≤ 200) sales.now }
        requires fit { IsFitTeam after.now }
        ensures ok { OnOk result
            (self.new
            ≡ put_row self.old g
            (record { made = used_by self.old g + length sales.now; team = after.now })) }
        ensures history { (position : ℕ → Position) (h : List Event)
            → IsPlaced position after.now.picks → StandsFor position self.old h
            → OnOk result (StandsFor position self.new (h ++ in_gameweek g (map Swap sales.now))) }
        ensures err { OnErr result (self.new ≡ self.old) }
    {
        // What the type tells of its rows, for the prover.
        let _known = self.rows.len();
        let made = self.made(g);
        let standing = Standing {
            made: made + sales.len() as u16,
            team: *after,
        };
        self.write(g, &standing)
    }

    /// The same fifteen in another order, or with other armbands.
    pub fn lineup(&mut self, g: Gw, after: &Team) -> Result<(), Memory>
        requires later { AllUpTo g self.old }
        requires lineup { LineupOn (standing_at self.old g) after.now }
        requires fit { IsFitTeam after.now }
        ensures ok { OnOk result
            (self.new
            ≡ put_row self.old g (record { made = used_by self.old g; team = after.now })) }
        ensures history { (position : ℕ → Position) (h : List Event)
            → IsPlaced position after.now.picks → StandsFor position self.old h
            → OnOk result
            (StandsFor position self.new
            (h ++ in_gameweek g
            (Lineup (players_of after.now) after.now.captain after.now.vice ∷ []))) }
        ensures err { OnErr result (self.new ≡ self.old) }
    {
        // What the type tells of its rows, for the prover.
        let _known = self.rows.len();
        let standing = Standing {
            made: self.made(g),
            team: *after,
        };
        self.write(g, &standing)
    }

    /// A chip, where none stands.
    pub fn play_chip(&mut self, g: Gw, chip: Chip) -> Result<(), Memory>
        requires later { AllUpTo g self.old }
        requires free { CanPlay (standing_at self.old g) }
        requires early { is_free_hit chip ≡ true → is_past self.old g ≡ true }
        ensures ok { OnOk result (self.new ≡ put_chip self.old g chip) }
        ensures history { (position : ℕ → Position) (h : List Event) → StandsFor position self.old h
            → OnOk result (StandsFor position self.new (h ++ in_gameweek g (Play chip ∷ []))) }
        ensures err { OnErr result (self.new ≡ self.old) }
    {
        let Some(mut standing) = standing_of(self.rows.as_slice(), g.get()) else {
            return Ok(());
        };
        standing.team.chip = chip;
        self.write(g, &standing)
    }

    /// Takes back a chip that can be cancelled. Takes no memory.
    pub fn cancel_chip(&mut self, g: Gw)
        requires later { AllUpTo g self.old }
        requires played { CanCancel (standing_at self.old g) }
        ensures rows { self.new ≡ put_chip self.old g NoChip }
        ensures history { (position : ℕ → Position) (h : List Event) → StandsFor position self.old h
            → StandsFor position self.new (h ++ in_gameweek g (Cancel ∷ [])) }
    {
        if let Some(mut standing) = standing_of(self.rows.as_slice(), g.get()) {
            standing.team.chip = Chip::None;
            put_in_place(&mut self.rows, g, &standing);
        }
    }
}

/// Rows that stand for a history have its chips and its transfers, and none is later than its events.
pub fn rows_tell()
    ensures { RowsAlwaysTell }
{}
