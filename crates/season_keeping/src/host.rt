// The host of a season over its keeper.
ghost use Rattle.std.specs.Prelude.{◌≡◌, ◌≢◌, ◌≤◌, ◌+◌, ◌⊎◌, Err, IfOk, IsOk, MatchResult, OnErr, OnOk, false, slice_get, true};
ghost use Rattle.std.specs.Option.{option_map};
ghost use Rattle.fpl_base.specs.Keeping.{HasKeeperCause, Map};
ghost use Rattle.season_book.specs.Book.{Book};
ghost use Rattle.season_book.specs.Commands.{IsCommand};
ghost use Rattle.season_book.specs.Doing.{IsOutLate};
ghost use Rattle.season_book.specs.Hosts.{IsRequest, owner_of};
ghost use Rattle.season_book.specs.Verdict.{MayAnswer, pass};
ghost use Rattle.season_book.specs.declared.answer.Answer.TheVariants as answer_of;
ghost use Rattle.season_book.specs.declared.request.Request.TheVariants as request_of;
ghost use Rattle.season_book.specs.Isolation.{ToldAlike};
ghost use Rattle.season_running.specs.EntryLaws.{IsOrderlyHost};
ghost use Rattle.season_running.specs.Standing.{StandsIn, keys_in, number_at, passed, players_in};
ghost use Rattle.season_opening.specs.declared.loading.OpenFault.TheVariants as fault;
ghost use Rattle.season_host.specs.Accepted.{locks_more};
ghost use Rattle.season_host.specs.Cells.{AreCellsOfHost, AreCorrected, IsCheapCommand, IsCheapNow, running_in};
ghost use Rattle.season_opening.specs.Opening.{IsLater};
ghost use Rattle.season_keeping.specs.Answering.{Answers, AreCorrectedBoth, Commits, CountsFew, EndsCommit, IsCaused, IsCheapRequest, LeavesAll, MayEnd, MayRest, PassesAlone, ReadsFew, StopsEnding, StopsKeep, StopsLeave, StopsCommit, WouldAct, WouldChange, answer_of_fault};
ghost use Rattle.season_keeping.specs.Housed.{Backs};
ghost use Rattle.season_keeping.specs.Opening.{HoldsOn, Opens, Withholds};

use fpl_base::{Caller, Keeper, KeeperFault, Key, Memory, Moment, PlayerId, ReadCount};
use record_changes::rows_tell_records;
use season_book::{Answer, Command, Request, answers_are_isolated};
use season_cells::KeptCells;
use season_host::{House, answer_command, cells_of, pass};
use season_opening::{OpenFault, loaded, loaded_rows_stand};
use season_records::{
    Slot, books_are_early, books_are_in_order, commands_keep_records, items_stay,
    locks_keep_records, slots_tell_items,
};
use std::alloc::Global;
use std::marker::Model;
use std::sync::ledger::Ledger;

/// The host of a season: it judges what is asked, does it, commits what that changed and answers. Where the keeper failed,
/// or memory ran out on the way, it is stale, and `ready` makes it anew of the keeper's records. A contract sees its rows,
/// the books that they stand for (`StandsIn`), and its cells, which are those of the rows (`keeps_cells`).
#[derive(Drop)]
pub struct Host {
    alloc: Global,
    house: House,
    cells: Option<KeptCells>,
    stale: bool,
    reread: bool,
}

impl Model for Host {
    ghost use Rattle.std.specs.Prelude.{◌≡◌, false};
    ghost use Rattle.season_host.specs.Accepted.{locks_more};
    ghost use Rattle.season_host.specs.Cells.{AreCellsOfHost, AreCorrected, running_in};
    ghost use Rattle.season_keeping.specs.Housed.{Housed};

    ghost Value = { Housed };

    ghost view = { λ h.
        record { rows = h.house; cells = h.cells; stale = h.stale; reread = h.reread } };

    ghost invariant = { λ h. h.stale ≡ false → AreCellsOfHost h.house h.cells };
}

impl Host {
    /// Opens the host of an operator over a keeper: it stands for the books that the keeper's records tell, and has no season
    /// where there is no record.
    pub fn open<K: Keeper, L: Ledger>(
        alloc: Global,
        keeper: &mut K,
        operator: &Key,
        steps: &mut ReadCount<L>,
    ) -> Result<Host, OpenFault>
        ensures opened { MatchResult result (Opens K.tells K.holds K.passes keeper.old keeper.new)
            (Withholds K.tells K.holds K.passes K.faults keeper.old keeper.new) }
        ensures holds { OnErr result
            (HoldsOn K.tells K.serves K.holds K.passes keeper.old keeper.new) }
        ensures operator { IfOk result (λ host. host.rows.operator ≡ operator.now) }
        ensures reread { IfOk result (λ host. host.reread ≡ false) }
        ensures counts { result ≢ Err fault.Keeper → K.faults keeper.new ≡ K.faults keeper.old }
        ensures later { IsLater K.tells K.serves K.faults keeper.old keeper.new }
    {
        // The law that what was made of a book's records stands for it, for the prover.
        loaded_rows_stand();
        let operator = match operator.copy() {
            Ok(operator) => operator,
            Err(Memory) => return Err(OpenFault::Memory),
        };
        match loaded(alloc, keeper) {
            Ok(made) => match cells_of(alloc, &made.running, steps) {
                Ok(cells) => Ok(Host {
                    alloc,
                    house: House::new(alloc, operator, made.running, made.lasts),
                    cells,
                    stale: false,
                    reread: false,
                }),
                Err(Memory) => Err(OpenFault::Memory),
            },
            Err(fault) => Err(fault),
        }
    }

    /// Makes a stale host anew of the keeper's records. Where that does not go well it is stale still. A host that is not
    /// stale stays as it is, and takes no memory.
    pub fn ready<K: Keeper, L: Ledger>(
        &mut self,
        keeper: &mut K,
        steps: &mut ReadCount<L>,
    ) -> Result<(), OpenFault>
        ensures fresh { self.old.stale ≡ false
            → IsOk result × (self.new ≡ self.old) × (keeper.new ≡ keeper.old) }
        ensures still { self.old.stale ≡ false → steps.new ≡ steps.old }
        ensures reread { self.old.stale ≡ true → self.new.reread ≡ true }
        ensures operator { self.new.rows.operator ≡ self.old.rows.operator }
        ensures ok { OnOk result (self.new.stale ≡ false) }
        ensures err { OnErr result ((self.new.stale ≡ true) × (self.new.rows ≡ self.old.rows)) }
        ensures made { self.old.stale ≡ true
            → MatchResult result
            (λ done. Opens K.tells K.holds K.passes keeper.old keeper.new self.new)
            (Withholds K.tells K.holds K.passes K.faults keeper.old keeper.new) }
        ensures backs { K.tells keeper.new → K.serves keeper.new → (book : Book)
            → Backs K.holds K.passes keeper.old self.old book
            → Backs K.holds K.passes keeper.new self.new book }
        ensures stops { K.tells keeper.new → (m : Map) → K.holds keeper.old m → (x : Map)
            → K.passes keeper.new x → K.passes keeper.old x }
        ensures counts { result ≢ Err fault.Keeper → K.faults keeper.new ≡ K.faults keeper.old }
        ensures later { IsLater K.tells K.serves K.faults keeper.old keeper.new }
    {
        // The law that what was made of a book's records stands for it, for the prover.
        loaded_rows_stand();
        if !self.stale {
            return Ok(());
        }
        self.reread = true;
        match loaded(self.alloc, keeper) {
            Ok(made) => match cells_of(self.alloc, &made.running, steps) {
                Ok(cells) => {
                    self.house.replace(made.running, made.lasts);
                    self.cells = cells;
                    self.stale = false;
                    Ok(())
                }
                Err(Memory) => Err(OpenFault::Memory),
            },
            Err(fault) => Err(fault),
        }
    }

    /// Whose key these bytes are; `None` where nobody has it, and so where they are no key. It takes no memory.
    pub fn owner_of(&self, bytes: &[u8]) -> Option<Caller>
        ensures { result ≡ owner_of self.now.rows.operator (keys_in self.now.rows) bytes.now }
    {
        self.house.owner_of(bytes)
    }

    /// The number of a caller's last accepted command; 0 where he had none accepted.
    pub fn last(&self, caller: Caller) -> u64
        ensures { result ≡ number_at self.now.rows.lasts caller }
    {
        self.house.last(caller)
    }

    /// The player at a place, counted from 0 in ascending order of id; `None` from the end on, and before the season.
    pub fn player_at(&self, place: usize) -> Option<PlayerId>
        ensures { result ≡ option_map (λ p. p.id) (slice_get (players_in self.now.rows.facts) place) }
    {
        self.house.player_at(place)
    }

    /// A law: the cells of a host that is not stale are those of its season and its managers: each holds what the rule book
    /// tells of its node, and none has to be evaluated.
    pub fn keeps_cells(&self)
        ensures { self.now.stale ≡ false → AreCellsOfHost self.now.rows self.now.cells }
    {
        // For the prover, which learns by a field what every host keeps.
        let _stale = self.stale;
    }

    /// A law: every host is orderly, so what `rows_tell_histories`, `money_is_recorded` and `batches_move_money` say holds in
    /// each book that it stands for.
    pub fn keeps_order(&self)
        ensures { IsOrderlyHost self.now.rows }
    {
        self.house.keeps_order();
    }

    /// Answers a request of a caller at a moment, once what it changed was committed. `Answer::Keeper`: the keeper failed,
    /// and the host is stale; so it is after `Answer::Memory`, unless nothing was changed. Then the command was done once or
    /// not at all, and its repeat tells.
    pub fn answer<K: Keeper, L: Ledger>(
        &mut self,
        keeper: &mut K,
        caller: Caller,
        now: Moment,
        request: &Request,
        steps: &mut ReadCount<L>,
    ) -> Answer
        requires fresh { self.old.stale ≡ false }
        requires asked { IsRequest request.now }
        ensures answered { Answers K.tells K.serves K.holds K.passes keeper.old keeper.new self.old
            self.new
            (λ book left. MayAnswer self.old.rows.operator
            (record { before = K.faults keeper.old; behind = K.faults keeper.new }) book caller
            now request.now result left) }
        ensures isolated { result ≢ answer_of.Memory → result ≢ answer_of.Keeper → (book : Book)
            → StandsIn self.old.rows book
            → ToldAlike self.old.rows.operator book caller now request.now result }
        ensures late { self.new.stale ≡ false → (book : Book) → StandsIn self.old.rows book
            → IsOutLate self.old.rows.operator (pass book now) caller now request.now result }
        ensures granted { locks_more self.old.rows.facts now ≡ false → (book : Book)
            → StandsIn self.old.rows book
            → IsOutLate self.old.rows.operator (pass book now) caller now request.now result }
        ensures views { locks_more self.old.rows.facts now ≡ false → (book : Book)
            → StandsIn self.old.rows book
            → ReadsFew (pass book now) caller request.now steps.old steps.new }
        ensures looks { locks_more self.old.rows.facts now ≡ false
            → LeavesAll request.now keeper.old keeper.new self.old self.new }
        ensures passes { PassesAlone request.now now self.old.rows self.new.rows }
        ensures changes { result ≡ answer_of.Keeper → (book : Book) → StandsIn self.old.rows book
            → WouldChange self.old.rows.operator book caller now request.now }
        ensures stale { self.new.stale ≡ true
            → (result ≡ answer_of.Memory) ⊎ (result ≡ answer_of.Keeper) }
        ensures keeper { result ≡ answer_of.Keeper → self.new.stale ≡ true }
        ensures operator { self.new.rows.operator ≡ self.old.rows.operator }
        ensures reread { self.new.reread ≡ self.old.reread }
        ensures corrected { locks_more self.old.rows.facts now ≡ false → self.new.stale ≡ false
            → AreCorrected self.old.rows self.new.rows self.old.cells self.new.cells }
        ensures cheap { locks_more self.old.rows.facts now ≡ false → self.new.stale ≡ false
            → IsCheapRequest self.old.rows self.new.rows request.now steps.old steps.new }
        ensures locked { locks_more self.old.rows.facts now ≡ true → self.new.stale ≡ false
            → AreCorrectedBoth self.old.rows (passed now self.old.rows) self.new.rows self.old.cells
            self.new.cells request.now steps.old steps.new }
        ensures refused { locks_more self.old.rows.facts now ≡ false → result ≢ answer_of.Memory
            → (book : Book) → StandsIn self.old.rows book
            → MayRest self.old.rows.operator (pass book now) caller now request.now
            → CountsFew request.now steps.old steps.new }
        ensures stops { (book : Book) → StandsIn self.old.rows book
            → StopsLeave self.old.rows.operator K.tells K.holds K.passes keeper.old keeper.new
            self.old book caller now request.now }
        ensures restarts { (book : Book) → StandsIn self.old.rows book
            → StopsKeep self.old.rows.operator K.tells K.holds K.passes keeper.old keeper.new
            self.old book caller now request.now }
        ensures caused { IsCaused
            (record { before = K.faults keeper.old; behind = K.faults keeper.new }) result }
        ensures later { IsLater K.tells K.serves K.faults keeper.old keeper.new }
    {
        // The law that what may be answered is isolated, for the prover.
        answers_are_isolated();
        match self.lock(keeper, now, steps) {
            Ok(()) => self.answer_locked(keeper, caller, now, request, steps),
            Err(fault) => fault_answer(fault),
        }
    }

    // Locks the gameweeks whose deadlines have passed; the cells follow, and the season's record is committed where one
    // more is locked. Where the cells cannot follow, memory ran out, and the host is stale.
    fn lock<K: Keeper, L: Ledger>(
        &mut self,
        keeper: &mut K,
        now: Moment,
        steps: &mut ReadCount<L>,
    ) -> Result<(), KeeperFault>
        requires fresh { self.old.stale ≡ false }
        ensures rows { self.new.rows ≡ passed now self.old.rows }
        ensures unlocked { locks_more self.old.rows.facts now ≡ false
            → (self.new.cells ≡ self.old.cells)
            × (running_in self.new.rows ≡ running_in self.old.rows) }
        ensures still { locks_more self.old.rows.facts now ≡ false → steps.new ≡ steps.old }
        ensures corrected { locks_more self.old.rows.facts now ≡ true → self.new.stale ≡ false
            → AreCorrected self.old.rows self.new.rows self.old.cells self.new.cells }
        ensures cheap { locks_more self.old.rows.facts now ≡ true → self.new.stale ≡ false
            → IsCheapNow (running_in self.old.rows) (running_in self.new.rows) steps.old
            steps.new }
        ensures rests { locks_more self.old.rows.facts now ≡ false
            → (self.new ≡ self.old) × (keeper.new ≡ keeper.old) }
        ensures reread { self.new.reread ≡ self.old.reread }
        ensures ok { OnOk result (self.new.stale ≡ false) }
        ensures err { OnErr result (self.new.stale ≡ true) }
        ensures more { OnErr result (locks_more self.old.rows.facts now ≡ true) }
        ensures locks { OnErr result
            ((book : Book) → StandsIn self.old.rows book → pass book now ≡ book → ⊥) }
        ensures locked { Answers K.tells K.serves K.holds K.passes keeper.old keeper.new self.old
            self.new (λ book left. EndsCommit result book (pass book now) left) }
        ensures stops { (book : Book) → StandsIn self.old.rows book
            → StopsCommit K.tells K.holds K.passes keeper.old keeper.new self.old book
            (pass book now) }
        ensures later { IsLater K.tells K.serves K.faults keeper.old keeper.new }
        ensures cause { HasKeeperCause (K.faults keeper.old) (K.faults keeper.new) result }
    {
        // The laws on what a lock touches and what rows tell, for the prover.
        locks_keep_records();
        books_are_early();
        books_are_in_order();
        rows_tell_records();
        items_stay();
        slots_tell_items();
        let passed = pass(&mut self.house, &mut self.cells, now, steps);
        self.house.keeps_order();
        if !passed.followed {
            self.stale = true;
            return Err(KeeperFault::Memory);
        }
        if passed.locks {
            self.commit(keeper, &[Slot::Season])
        } else {
            Ok(())
        }
    }

    // Commits what these slots tell. Where that does not go well the host is stale.
    fn commit<K: Keeper>(&mut self, keeper: &mut K, slots: &[Slot]) -> Result<(), KeeperFault>
        ensures cells { self.new.cells ≡ self.old.cells }
        ensures commits { Commits K.tells K.serves K.holds K.passes keeper.old keeper.new slots.now
            self.old self.new result }
        ensures later { IsLater K.tells K.serves K.faults keeper.old keeper.new }
        ensures cause { HasKeeperCause (K.faults keeper.old) (K.faults keeper.new) result }
    {
        match self.house.batch(slots) {
            Ok(ops) => match keeper.commit(self.alloc, &ops) {
                Ok(()) => Ok(()),
                Err(fault) => {
                    self.stale = true;
                    Err(fault)
                }
            },
            Err(Memory) => {
                self.stale = true;
                Err(KeeperFault::Memory)
            }
        }
    }

    // Answers a request in the book in which the moment's gameweeks are locked.
    fn answer_locked<K: Keeper, L: Ledger>(
        &mut self,
        keeper: &mut K,
        caller: Caller,
        now: Moment,
        request: &Request,
        steps: &mut ReadCount<L>,
    ) -> Answer
        requires fresh { self.old.stale ≡ false }
        requires asked { IsRequest request.now }
        ensures answered { Answers K.tells K.serves K.holds K.passes keeper.old keeper.new self.old
            self.new
            (λ book left. MayEnd self.old.rows.operator
            (record { before = K.faults keeper.old; behind = K.faults keeper.new }) book caller
            now request.now result left) }
        ensures late { (book : Book) → StandsIn self.old.rows book
            → IsOutLate self.old.rows.operator book caller now request.now result }
        ensures views { (book : Book) → StandsIn self.old.rows book
            → ReadsFew book caller request.now steps.old steps.new }
        ensures looks { LeavesAll request.now keeper.old keeper.new self.old self.new }
        ensures acts { result ≡ answer_of.Keeper → (book : Book) → StandsIn self.old.rows book
            → WouldAct self.old.rows.operator book caller now request.now }
        ensures stale { self.new.stale ≡ true
            → (result ≡ answer_of.Memory) ⊎ (result ≡ answer_of.Keeper) }
        ensures keeper { result ≡ answer_of.Keeper → self.new.stale ≡ true }
        ensures operator { self.new.rows.operator ≡ self.old.rows.operator }
        ensures reread { self.new.reread ≡ self.old.reread }
        ensures corrected { self.new.stale ≡ false
            → AreCorrected self.old.rows self.new.rows self.old.cells self.new.cells }
        ensures cheap { self.new.stale ≡ false
            → IsCheapRequest self.old.rows self.new.rows request.now steps.old steps.new }
        ensures refused { result ≢ answer_of.Memory → (book : Book) → StandsIn self.old.rows book
            → MayRest self.old.rows.operator book caller now request.now
            → CountsFew request.now steps.old steps.new }
        ensures stops { (book : Book) → StandsIn self.old.rows book
            → StopsEnding self.old.rows.operator K.tells K.holds K.passes keeper.old keeper.new
            self.old book caller now request.now }
        ensures caused { IsCaused
            (record { before = K.faults keeper.old; behind = K.faults keeper.new }) result }
        ensures later { IsLater K.tells K.serves K.faults keeper.old keeper.new }
    {
        match request {
            Request::View(view) => self.house.answer_view(&self.cells, &caller, *view, steps),
            Request::Command { number, command } => {
                self.answer_command(keeper, &caller, now, *number, command, steps)
            }
        }
    }

    // The same of a command.
    fn answer_command<K: Keeper, L: Ledger>(
        &mut self,
        keeper: &mut K,
        caller: &Caller,
        now: Moment,
        number: u64,
        command: &Command,
        steps: &mut ReadCount<L>,
    ) -> Answer
        requires fresh { self.old.stale ≡ false }
        requires numbered { 1 ≤ number }
        requires command { IsCommand command.now }
        ensures answered { Answers K.tells K.serves K.holds K.passes keeper.old keeper.new self.old
            self.new
            (λ book left. MayEnd self.old.rows.operator
            (record { before = K.faults keeper.old; behind = K.faults keeper.new }) book
            caller.now now (request_of.Command number command.now) result left) }
        ensures late { (book : Book) → StandsIn self.old.rows book
            → IsOutLate self.old.rows.operator book caller.now now
            (request_of.Command number command.now) result }
        ensures acts { result ≡ answer_of.Keeper → (book : Book) → StandsIn self.old.rows book
            → WouldAct self.old.rows.operator book caller.now now
            (request_of.Command number command.now) }
        ensures stale { self.new.stale ≡ true
            → (result ≡ answer_of.Memory) ⊎ (result ≡ answer_of.Keeper) }
        ensures keeper { result ≡ answer_of.Keeper → self.new.stale ≡ true }
        ensures operator { self.new.rows.operator ≡ self.old.rows.operator }
        ensures reread { self.new.reread ≡ self.old.reread }
        ensures corrected { self.new.stale ≡ false
            → AreCorrected self.old.rows self.new.rows self.old.cells self.new.cells }
        ensures cheap { self.new.stale ≡ false
            → IsCheapCommand self.old.rows self.new.rows command.now steps.old steps.new }
        ensures refused { result ≢ answer_of.Memory → (book : Book) → StandsIn self.old.rows book
            → MayRest self.old.rows.operator book caller.now now
            (request_of.Command number command.now) → steps.new ≤ steps.old + 8 }
        ensures stops { (book : Book) → StandsIn self.old.rows book
            → StopsEnding self.old.rows.operator K.tells K.holds K.passes keeper.old keeper.new
            self.old book caller.now now (request_of.Command number command.now) }
        ensures caused { IsCaused
            (record { before = K.faults keeper.old; behind = K.faults keeper.new }) result }
        ensures later { IsLater K.tells K.serves K.faults keeper.old keeper.new }
    {
        // The laws on what a command touches and what rows tell, for the prover.
        commands_keep_records();
        books_are_early();
        books_are_in_order();
        rows_tell_records();
        items_stay();
        slots_tell_items();
        let answered = answer_command(
            self.alloc,
            &mut self.house,
            &mut self.cells,
            caller,
            now,
            number,
            command,
            steps,
        );
        self.house.keeps_order();
        if !answered.followed {
            self.stale = true;
            return Answer::Memory;
        }
        if answered.slots.as_slice().is_empty() {
            return answered.answer;
        }
        match self.commit(keeper, &answered.slots) {
            Ok(()) => answered.answer,
            Err(fault) => fault_answer(fault),
        }
    }
}

// The answer of a keeper's fault.
fn fault_answer(fault: KeeperFault) -> Answer
    ensures { result ≡ answer_of_fault fault }
{
    match fault {
        KeeperFault::Failed => Answer::Keeper,
        KeeperFault::Memory => Answer::Memory,
    }
}
