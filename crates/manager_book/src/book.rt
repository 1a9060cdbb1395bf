//! The entries of a season.
ghost use Rattle.std.specs.Prelude.{◌≡◌, ◌<◌, ◌≤◌, ◌+◌, ◌++◌, ◌∷◌, ℕ, List, [], None, Some, length, OnOk, OnErr, IfOk, option_copied, slice_get, ◌-◌, IsNone, IsTrue, ◌↔◌, IfSome, if◌then◌else◌};
ghost use Rattle.fpl_base.specs.declared.kinds.Position.{Position};
ghost use Rattle.rule_book.specs.Entries.{most_entries};
ghost use Rattle.rule_book.specs.EntryRecords.{AreEntryRecords, HasRecords};
ghost use Rattle.rule_book.specs.History.{Event, in_gameweek};
ghost use Rattle.rule_book.specs.HistoryRules.{FirstTold, IsHistory};
ghost use Rattle.rule_book.specs.HistoryTeam.{TeamTold, TeamBalances};
ghost use Rattle.rule_book.specs.HistoryTransfers.{FreeTold, cost_at, counted_through};
ghost use Rattle.rule_book.specs.Refusals.{IsJudged, IsJudgedOrOut};
ghost use Rattle.season_ledger.specs.Rows.{AllUpTo, first_in, free_in, cost_by, counted_by, rows_of_records};
ghost use Rattle.season_ledger.specs.Stands.{StandsFor};
ghost use Rattle.manager_book.specs.Calls.{team_at};
ghost use Rattle.manager_book.specs.Deeds.{Fits, HasPlaced, deeds_of, gameweek_of, rows_behind, sales_made};
ghost use Rattle.manager_book.specs.Managers.{Managers, AreRisen, IsSameBut, season_of, sales_of, key_of, name_of, entry_with, issue_refusal, managers_had, rekeyed};
ghost use Rattle.manager_book.specs.Indexed.{number_at};
ghost use Rattle.std.specs.Str.{bytes_eq};

use crate::deed::JudgedDeed;
use crate::entry_sales::EntrySales;
use crate::keep::keep;
use crate::manager::Manager;
use fpl_base::{EntryId, Gw, Key, Memory, Name, PlayerId, Profile, ReadCount, Refused, Rule};
use rule_book::{Sale, Team};
use season_ledger::Entry;
use std::alloc::Global;
use std::collections::BTreeMap;
use std::marker::Model;
use std::sync::ledger::Ledger;

// So many entries are in a season at most.
const MOST_ENTRIES: u32 = 2048;

/// The entries of a season, numbered from 1 in the order of issue, at most 2,048. An entry is registered once its first
/// squad was accepted.
#[derive(Drop)]
pub struct ManagerBook {
    alloc: Global,
    profile: Profile,
    managers: Vec<Manager>,
    numbers: BTreeMap<Vec<u8>, u32>,
}

impl Model for ManagerBook {
    ghost use Rattle.manager_book.specs.Managers.{Managers};
    ghost use Rattle.manager_book.specs.Kept.{IsKept};

    ghost Value = { Managers };

    ghost view = { λ b. record { profile = b.profile; managers = b.managers.items } };

    ghost invariant = { λ b. IsKept b.numbers b.managers.items };
}

fn copied(alloc: Global, bytes: &[u8]) -> Result<Vec<u8>, Memory>
    ensures { IfOk result (λ v. v.items ≡ bytes.now) }
{
    let mut copy = Vec::new(alloc);
    if copy.extend_from_slice(bytes).is_err() {
        return Err(Memory);
    }
    Ok(copy)
}

// Puts a number that stood at one key at another one. Where memory is wanting the entries stay.
fn renumber(
    alloc: Global,
    numbers: &mut BTreeMap<Vec<u8>, u32>,
    old: &[u8],
    new: &[u8],
    number: u32,
) -> Result<(), Memory>
    ensures ok { OnOk result
        ((key : List ℕ) → number_at numbers.new key
        ≡ (if bytes_eq key new.now then Some number
        else if bytes_eq key old.now then None
        else number_at numbers.old key)) }
    ensures err { OnErr result (numbers.new.entries ≡ numbers.old.entries) }
{
    let bytes = copied(alloc, new)?;
    if numbers.insert(bytes, number).is_err() {
        return Err(Memory);
    }
    if old == new {
        return Ok(());
    }
    numbers.remove(old);
    Ok(())
}

impl ManagerBook {
    /// A season without entries, played by the rules of a profile.
    pub fn new(alloc: Global, profile: Profile) -> Self
        ensures { result ≡ record { profile = profile; managers = [] } }
    {
        ManagerBook {
            alloc,
            profile,
            managers: Vec::new(alloc),
            numbers: BTreeMap::new(alloc),
        }
    }

    /// How many entries there are.
    pub fn entries(&self) -> u32
        ensures count { result ≡ length self.now.managers }
        ensures most { result ≤ most_entries }
    {
        self.managers.len() as u32
    }

    /// The entry whose key these bytes are, if one has it. Bytes that no key can be are nobody's.
    pub fn owner_of(&self, bytes: &[u8]) -> Option<EntryId>
        ensures owner { result ≡ entry_with self.now bytes.now }
        ensures issued { IfSome result (λ e. e ≤ length self.now.managers) }
    {
        match self.numbers.get(bytes) {
            Some(number) => EntryId::new(*number),
            None => None,
        }
    }

    /// The entry with a key, if one has it.
    pub fn entry_of(&self, key: &Key) -> Option<EntryId>
        ensures { result ≡ entry_with self.now key.now }
    {
        self.owner_of(key.bytes())
    }

    /// The manager of an entry, with all that is kept of it; None where it was not issued.
    pub fn manager(&self, e: EntryId) -> Option<&Manager>
        ensures { option_copied result ≡ slice_get self.now.managers (e - 1) }
    {
        self.managers.get(e.get() as usize - 1)
    }

    /// The key of an entry; None where it was not issued.
    pub fn key(&self, e: EntryId) -> Option<&Key>
        ensures { option_copied result ≡ key_of self.now e }
    {
        match self.manager(e) {
            Some(manager) => Some(&manager.key),
            None => None,
        }
    }

    /// The name of an entry's manager; None where it was not issued.
    pub fn name(&self, e: EntryId) -> Option<&Name>
        ensures { option_copied result ≡ name_of self.now e }
    {
        match self.manager(e) {
            Some(manager) => Some(&manager.name),
            None => None,
        }
    }

    // The season of an entry; None where it was not issued.
    fn season(&self, e: EntryId) -> Option<&Entry>
        ensures there { IfSome result (λ season. season.now ≡ season_of self.now e) }
        ensures none { IsNone result → season_of self.now e ≡ [] }
    {
        match self.manager(e) {
            Some(manager) => Some(&manager.season),
            None => None,
        }
    }

    /// The season of an entry that was issued.
    pub fn issued(&self, e: EntryId) -> &Entry
        requires { e ≤ length self.now.managers }
        ensures { result.now ≡ season_of self.now e }
    {
        &self.managers[e.get() as usize - 1].season
    }

    // An entry's team in a gameweek.
    fn team_in(&self, e: EntryId, g: Gw) -> Option<Team>
        ensures rows { result ≡ team_at (season_of self.now e) g }
        ensures history { (position : ℕ → Position) (h : List Event)
            → StandsFor position (season_of self.now e) h → TeamTold position h g result }
        ensures laws { (position : ℕ → Position) (h : List Event)
            → StandsFor position (season_of self.now e) h → TeamBalances h g result }
    {
        match self.season(e) {
            Some(season) => season.team(g),
            None => None,
        }
    }

    // An entry's free transfers in a gameweek.
    fn free_in(&self, e: EntryId, g: Gw) -> Option<u8>
        ensures rows { result ≡ free_in self.now.profile (season_of self.now e) g }
        ensures history { (position : ℕ → Position) (h : List Event)
            → StandsFor position (season_of self.now e) h → FreeTold self.now.profile h g result }
    {
        let profile = self.profile;
        match self.season(e) {
            Some(season) => season.free(profile, g),
            None => None,
        }
    }

    // The points that an entry's transfers of a gameweek cost.
    fn cost_in(&self, e: EntryId, g: Gw) -> u32
        ensures rows { result ≡ cost_by self.now.profile (season_of self.now e) g }
        ensures most { result ≤ 4000 }
        ensures history { (position : ℕ → Position) (h : List Event)
            → StandsFor position (season_of self.now e) h → result ≡ cost_at self.now.profile h g }
    {
        let profile = self.profile;
        match self.season(e) {
            Some(season) => season.cost(profile, g),
            None => 0,
        }
    }

    // An entry's transfers that a table counts.
    fn counted_in(&self, e: EntryId, through: u8) -> u32
        ensures rows { result ≡ counted_by (season_of self.now e) through }
        ensures history { (position : ℕ → Position) (h : List Event)
            → StandsFor position (season_of self.now e) h → result ≡ counted_through h through }
    {
        match self.season(e) {
            Some(season) => season.counted(through),
            None => 0,
        }
    }

    /// Whether nothing was done for an entry in a later gameweek. A call with `next` needs it.
    pub fn is_up_to(&self, e: EntryId, g: Gw) -> bool
        ensures { IsTrue result ↔ AllUpTo g (season_of self.now e) }
    {
        match self.season(e) {
            Some(season) => season.is_up_to(g),
            None => true,
        }
    }

    /// An entry's first gameweek; None where it is not registered.
    pub fn first(&self, e: EntryId) -> Option<Gw>
        ensures rows { result ≡ first_in (season_of self.now e) }
        ensures history { (position : ℕ → Position) (h : List Event)
            → StandsFor position (season_of self.now e) h → FirstTold h result }
    {
        match self.season(e) {
            Some(season) => season.first(),
            None => None,
        }
    }

    /// An entry's team in a gameweek; None where it is not registered and before its first gameweek. It is a counted
    /// read.
    pub fn team_at<L: Ledger>(&self, e: EntryId, g: Gw, steps: &mut ReadCount<L>) -> Option<Team>
        ensures counted { steps.new ≡ steps.old + 1 }
        ensures rows { result ≡ team_at (season_of self.now e) g }
        ensures history { (position : ℕ → Position) (h : List Event)
            → StandsFor position (season_of self.now e) h → TeamTold position h g result }
        ensures laws { (position : ℕ → Position) (h : List Event)
            → StandsFor position (season_of self.now e) h → TeamBalances h g result }
    {
        steps.tick();
        self.team_in(e, g)
    }

    /// An entry's free transfers in a gameweek; None where it is not registered and up to its first gameweek. It is a
    /// counted read.
    pub fn free<L: Ledger>(&self, e: EntryId, g: Gw, steps: &mut ReadCount<L>) -> Option<u8>
        ensures counted { steps.new ≡ steps.old + 1 }
        ensures rows { result ≡ free_in self.now.profile (season_of self.now e) g }
        ensures history { (position : ℕ → Position) (h : List Event)
            → StandsFor position (season_of self.now e) h → FreeTold self.now.profile h g result }
    {
        steps.tick();
        self.free_in(e, g)
    }

    /// The points that an entry's transfers of a gameweek cost: 0 where it is not registered and up to its first
    /// gameweek. It is a counted read.
    pub fn cost<L: Ledger>(&self, e: EntryId, g: Gw, steps: &mut ReadCount<L>) -> u32
        ensures counted { steps.new ≡ steps.old + 1 }
        ensures rows { result ≡ cost_by self.now.profile (season_of self.now e) g }
        ensures most { result ≤ 4000 }
        ensures history { (position : ℕ → Position) (h : List Event)
            → StandsFor position (season_of self.now e) h → result ≡ cost_at self.now.profile h g }
    {
        steps.tick();
        self.cost_in(e, g)
    }

    /// An entry's transfers of gameweeks 1 to `through`, without those of its first gameweek and those under a wildcard
    /// or a free hit. It is a counted read.
    pub fn counted_transfers<L: Ledger>(
        &self,
        e: EntryId,
        through: u8,
        steps: &mut ReadCount<L>,
    ) -> u32
        ensures counted { steps.new ≡ steps.old + 1 }
        ensures rows { result ≡ counted_by (season_of self.now e) through }
        ensures history { (position : ℕ → Position) (h : List Event)
            → StandsFor position (season_of self.now e) h → result ≡ counted_through h through }
    {
        steps.tick();
        self.counted_in(e, through)
    }

    /// Keeps what judging worked out of an entry's season, as it is: the row of the gameweek, and the sales behind the
    /// entry's others. Nothing is judged again; unchanged where memory is wanting.
    pub fn keep(&mut self, e: EntryId, deed: &JudgedDeed) -> Result<(), Memory>
        requires issued { e ≤ length self.old.managers }
        requires fits { Fits (season_of self.old e) deed.now }
        ensures rows { OnOk result
            (season_of self.new e ≡ rows_behind (season_of self.old e) deed.now) }
        ensures sales { OnOk result
            (sales_of self.new e ≡ sales_of self.old e ++ sales_made deed.now) }
        ensures history { (position : ℕ → Position) (h : List Event) → HasPlaced position deed.now
            → StandsFor position (season_of self.old e) h
            → OnOk result
            (StandsFor position (season_of self.new e)
            (h ++ in_gameweek (gameweek_of deed.now) (deeds_of deed.now))) }
        ensures others { IsSameBut e self.old self.new }
        ensures err { OnErr result (self.new ≡ self.old) }
    {
        let manager = &mut self.managers[e.get() as usize - 1];
        let done = keep(&mut manager.season, &mut manager.sales, deed);
        // The law that the rows rise, for the prover.
        manager.season.keeps_rows();
        done
    }

    /// Whether a player stands in a team of some entry, or a transfer names him.
    pub fn have_had(&self, player: PlayerId) -> bool
        ensures { result ≡ managers_had self.now.managers player }
    {
        self.managers.iter().any(|manager| manager.has_had(player))
    }

    /// A law: the rows of each entry rise by gameweek.
    pub fn keeps_rows(&self)
        ensures { AreRisen self.now.managers }
    {
        // What the type tells of the managers, for the prover.
        let _known = self.managers.len();
    }

    // Adds an entry behind the others.
    fn add(&mut self, key: Key, name: Name, season: Entry, sales: EntrySales) -> Result<(), Memory>
        requires room { length self.old.managers < most_entries }
        requires fresh { entry_with self.old key ≡ None }
        ensures ok { OnOk result
            (self.new
            ≡ record {
              profile = self.old.profile;
              managers = self.old.managers
                  ++ record { key = key; name = name; season = season; sales = sales } ∷ [];
            }) }
        ensures err { OnErr result (self.new ≡ self.old) }
    {
        // The law that the rows rise, for the prover.
        season.keeps_rows();
        let number = self.managers.len() as u32 + 1;
        let bytes = copied(self.alloc, key.bytes())?;
        let manager = Manager {
            key,
            name,
            season,
            sales,
        };
        if self.managers.push(manager).is_err() {
            return Err(Memory);
        }
        if self.numbers.insert(bytes, number).is_err() {
            self.managers.pop();
            return Err(Memory);
        }
        Ok(())
    }

    /// Gives an entry this key and this name; its old key is nobody's from then on. A key that it has already may be named
    /// again.
    pub fn rekey(&mut self, e: EntryId, key: Key, name: Name) -> Result<(), Memory>
        requires issued { e ≤ length self.old.managers }
        requires free { IfSome (entry_with self.old key) (λ owner. owner ≡ e) }
        ensures ok { OnOk result
            (self.new
            ≡ record self.old { managers = rekeyed self.old.managers e key name }) }
        ensures err { OnErr result (self.new ≡ self.old) }
    {
        let place = e.get() as usize - 1;
        let old = self.managers[place].key.bytes();
        renumber(self.alloc, &mut self.numbers, old, key.bytes(), e.get())?;
        let manager = &mut self.managers[place];
        manager.key = key;
        manager.name = name;
        // The law that the rows rise, for the prover.
        manager.season.keeps_rows();
        Ok(())
    }

    /// Whether an entry with this key may be issued: what `issue` refuses for.
    pub fn judge_issue(&self, key: &Key) -> Result<(), Rule>
        ensures judged { IsJudged (issue_refusal self.now key.now) result }
        ensures room { OnOk result (length self.now.managers < most_entries) }
        ensures fresh { OnOk result (entry_with self.now key.now ≡ None) }
    {
        if self.entries() >= MOST_ENTRIES {
            return Err(Rule::EntriesFull);
        }
        if self.entry_of(key).is_some() {
            return Err(Rule::KeyThere);
        }
        Ok(())
    }

    /// Makes the next entry. `EntriesFull` refuses it where 2,048 are there, and then `KeyThere` where one has the key.
    pub fn issue(&mut self, key: Key, name: Name) -> Result<EntryId, Refused>
        ensures judged { IsJudgedOrOut (issue_refusal self.old key) result }
        ensures id { IfOk result (λ e. e ≡ length self.old.managers + 1) }
        ensures ok { OnOk result
            (self.new
            ≡ record {
              profile = self.old.profile;
              managers = self.old.managers
                  ++ record { key = key; name = name; season = []; sales = [] } ∷ [];
            }) }
        ensures err { OnErr result (self.new ≡ self.old) }
    {
        self.judge_issue(&key)?;
        let Some(e) = EntryId::new(self.managers.len() as u32 + 1) else {
            return Err(Refused::Rule(Rule::EntriesFull));
        };
        let season = Entry::new(self.alloc);
        let sales = EntrySales::new(self.alloc);
        match self.add(key, name, season, sales) {
            Ok(()) => Ok(e),
            Err(_) => Err(Refused::Memory),
        }
    }

    /// Makes the next entry with these team rows and transfers, in order of gameweek and number. It then stands for
    /// every history whose records these are.
    pub fn restore(
        &mut self,
        key: Key,
        name: Name,
        first: Option<Gw>,
        teams: &[(Gw, Team)],
        sales: &[(Gw, Sale)],
    ) -> Result<(), Memory>
        requires room { length self.old.managers < most_entries }
        requires fresh { entry_with self.old key ≡ None }
        requires records { AreEntryRecords first teams.now sales.now }
        ensures ok { OnOk result
            (self.new
            ≡ record {
              profile = self.old.profile;
              managers = self.old.managers
                  ++ record {
                    key = key;
                    name = name;
                    season = rows_of_records teams.now sales.now;
                    sales = sales.now;
                  } ∷ [];
            }) }
        ensures history { (position : ℕ → Position) (h : List Event) → IsHistory h
            → HasRecords position h teams.now sales.now
            → OnOk result (StandsFor position (rows_of_records teams.now sales.now) h) }
        ensures err { OnErr result (self.new ≡ self.old) }
    {
        // What the type tells of a gameweek, for the prover.
        let _first = first;
        let season = Entry::restore(self.alloc, teams, sales)?;
        let kept = EntrySales::of(self.alloc, sales)?;
        self.add(key, name, season, kept)
    }
}
