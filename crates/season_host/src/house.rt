// What a host keeps in memory, and its answers by that alone.
ghost use Rattle.std.specs.Prelude.{◌≡◌, ◌≢◌, ◌≤◌, ◌+◌, [], IfErr, IfOk, OnOk, slice_get};
ghost use Rattle.std.specs.Option.{option_map, option_map_or};
ghost use Rattle.rule_book.specs.Refusals.{IsJudged};
ghost use Rattle.season_book.specs.Book.{Book, last_number};
ghost use Rattle.season_book.specs.Commands.{IsCommand};
ghost use Rattle.season_book.specs.Doing.{IsOutLate, IsShown, IsStoreless};
ghost use Rattle.season_book.specs.Hosts.{owner_of};
ghost use Rattle.season_book.specs.Verdict.{number_refusal, unseen, view_answer};
ghost use Rattle.season_book.specs.declared.answer.Answer.TheVariants as answer_of;
ghost use Rattle.season_book.specs.declared.request.Request.TheVariants as request_of;
ghost use Rattle.season_records.specs.Touched.{batch, touched};
ghost use Rattle.record_changes.specs.RowsTold.{told_by};
ghost use Rattle.season_running.specs.Accepting.{IsAccepted};
ghost use Rattle.season_running.specs.EntryLaws.{IsOrderlyHost};
ghost use Rattle.season_running.specs.Standing.{Follows, StandsIn, host_rows, keys_in, number_at, passed, players_in};
ghost use Rattle.season_host.specs.Accepted.{MayEndIn, TellItemsBy, answer_from, change_from, locks_more, made_in, slots_from};
ghost use Rattle.season_views.specs.Reads.{view_reads};
ghost use Rattle.season_host.specs.Cells.{AreCellsOfHost, IsChange, lines_in, running_in};
ghost use Rattle.season_host.specs.declared.change.Change.TheVariants as change_of;

use crate::accepting::{Done, accept, begin};
use crate::change::Change;
use fpl_base::{Caller, Key, Memory, Moment, Op, PlayerId, ReadCount, Rule};
use record_changes::batch_of;
use season_book::{Answer, Command, Made, Shown, View, Window};
use season_cells::KeptCells;
use season_records::Slot;
use season_running::{Lasts, RunningSeason};
use season_windows::window_before;
use std::alloc::Global;
use std::marker::Model;
use std::sync::ledger::Ledger;

/// What a host keeps in memory: whose key it is, the season once one was begun, and each caller's last command. A contract
/// sees its rows, and the books that they stand for (`StandsIn`).
#[derive(Drop)]
pub struct House {
    alloc: Global,
    operator: Key,
    running: Option<RunningSeason>,
    lasts: Lasts,
}

impl Model for House {
    ghost use Rattle.season_running.specs.Standing.{HostRows, host_rows};

    ghost Value = { HostRows };

    ghost view = { λ h. host_rows h.operator h.running h.lasts };
}

/// An answer to a command, the slots of the records that it may have changed, and what it changed that cells hang on.
#[derive(Drop)]
pub struct Answered {
    pub answer: Answer,
    pub slots: Vec<Slot>,
    pub change: Change,
}

// An answer that changes nothing.
fn unchanged(alloc: Global, answer: Answer) -> Answered
    ensures { (result.answer ≡ answer) × (result.slots.items ≡ [])
        × (result.change ≡ change_of.Nothing) }
{
    Answered {
        answer,
        slots: Vec::new(alloc),
        change: Change::Nothing,
    }
}

// The answer to a command of a number that was done, or refused.
fn answer_to(alloc: Global, number: u64, done: Result<Done, Answer>) -> Answered
    ensures { (result.answer ≡ answer_from number done) × (result.slots.items ≡ slots_from done)
        × (result.change ≡ change_from done) }
{
    match done {
        Ok(done) => Answered {
            answer: Answer::Done {
                number,
                made: done.made,
            },
            slots: done.slots,
            change: done.change,
        },
        Err(refused) => unchanged(alloc, refused),
    }
}

impl House {
    /// With this operator's key, this season and these last commands.
    pub fn new(alloc: Global, operator: Key, running: Option<RunningSeason>, lasts: Lasts) -> Self
        ensures { result ≡ host_rows operator running lasts }
    {
        House {
            alloc,
            operator,
            running,
            lasts,
        }
    }

    /// Takes this season and these last commands in place of its own.
    pub fn replace(&mut self, running: Option<RunningSeason>, lasts: Lasts)
        ensures { self.new ≡ host_rows self.old.operator running lasts }
    {
        self.running = running;
        self.lasts = lasts;
    }

    /// The season that runs; none before one was begun.
    pub(crate) fn running(&self) -> &Option<RunningSeason>
        ensures { self.now ≡ host_rows self.now.operator result.now self.now.lasts }
    {
        &self.running
    }

    /// How many gameweeks are locked; 0 where no season runs.
    pub(crate) fn locked(&self) -> u8
        ensures { result ≡ option_map_or (λ facts. facts.calendar.locked) self.now.facts 0 }
    {
        match &self.running {
            Some(running) => running.season().calendar().locked(),
            None => 0,
        }
    }

    /// Whose key these bytes are; `None` where nobody has it, and so where they are no key. It takes no memory.
    pub fn owner_of(&self, bytes: &[u8]) -> Option<Caller>
        ensures { result ≡ owner_of self.now.operator (keys_in self.now) bytes.now }
    {
        if self.operator.bytes() == bytes {
            return Some(Caller::Operator);
        }
        match &self.running {
            Some(running) => running.owner_of(bytes),
            None => None,
        }
    }

    /// The number of a caller's last accepted command; 0 where he had none accepted.
    pub fn last(&self, caller: Caller) -> u64
        ensures { result ≡ number_at self.now.lasts caller }
    {
        self.lasts.number(&caller)
    }

    /// The player at a place, counted from 0 in ascending order of id; `None` from the end on, and before the season.
    pub fn player_at(&self, place: usize) -> Option<PlayerId>
        ensures { result ≡ option_map (λ p. p.id) (slice_get (players_in self.now.facts) place) }
    {
        match &self.running {
            Some(running) => match running.season().players().at(place) {
                Some(player) => Some(player.id),
                None => None,
            },
            None => None,
        }
    }

    /// A law: the players are lawful, and nothing was done in a gameweek behind the next one or the last.
    pub fn keeps_order(&self)
        ensures { IsOrderlyHost self.now }
    {
        if let Some(running) = &self.running {
            running.keeps_order();
        }
    }

    /// Locks the gameweeks whose deadlines have passed; whether one more is locked.
    pub fn pass(&mut self, now: Moment) -> bool
        ensures rows { self.new ≡ passed now self.old }
        ensures more { result ≡ locks_more self.old.facts now }
    {
        match &mut self.running {
            Some(running) => {
                let before = running.season().calendar().locked();
                running.pass(now);
                running.season().calendar().locked() != before
            }
            None => false,
        }
    }

    /// What is committed of these slots, as the rows tell them. It takes memory.
    pub fn batch(&self, slots: &[Slot]) -> Result<Vec<Op>, Memory>
        ensures batch { IfOk result (λ ops. ops.items ≡ batch (told_by self.now) slots.now) }
        ensures items { OnOk result (TellItemsBy self.now slots.now) }
    {
        batch_of(self.alloc, &self.running, &self.lasts, slots)
    }

    /// The answer to a view. Each row of an entry and each cell that it reads is a counted read.
    pub fn answer_view<L: Ledger>(
        &self,
        cells: &Option<KeptCells>,
        caller: &Caller,
        view: View,
        steps: &mut ReadCount<L>,
    ) -> Answer
        requires { AreCellsOfHost self.now cells.now }
        ensures shown { (book : Book) → StandsIn self.now book
            → IsShown (view_answer book caller.now view) result }
        ensures storeless { IsStoreless result }
        ensures cost { (book : Book) → StandsIn self.now book
            → steps.new ≤ steps.old + view_reads book caller.now view }
    {
        let Some(running) = &self.running else {
            return answer_before(self.alloc, caller, self.lasts.number(caller), view);
        };
        let Some(kept) = cells else { unreachable!() };
        let cells = kept.cells();
        match view {
            View::Me => running.my_entry(cells, caller, self.lasts.number(caller), steps),
            View::EntryGameweek { entry, gameweek } => {
                running.entry_gameweek(cells, entry, gameweek, steps)
            }
            View::League { league } => running.league(self.alloc, cells, league, steps),
            View::Cup { cup } => running.cup(self.alloc, cells, cup, steps),
            View::Window(window) => {
                running.window(
                    self.alloc,
                    cells,
                    caller,
                    self.lasts.number(caller),
                    window,
                    steps,
                )
            }
            View::Season
            | View::Player { .. }
            | View::PlayerGameweek { .. }
            | View::Fixture { .. } => running.show(self.alloc, cells, view, steps),
        }
    }

    /// The answer to a command, once the gameweeks of its moment are locked. `Answer::Memory` comes only where nothing
    /// refuses the command, and leaves all as it was.
    pub fn answer_command<L: Ledger>(
        &mut self,
        caller: &Caller,
        now: Moment,
        number: u64,
        command: &Command,
        steps: &mut ReadCount<L>,
    ) -> Answered
        requires numbered { 1 ≤ number }
        requires command { IsCommand command.now }
        ensures answered { Follows self.old self.new
            (λ book after.
            MayEndIn self.old.operator book caller.now now number command.now result.answer
            result.slots.items after) }
        ensures late { (book : Book) → StandsIn self.old book
            → IsOutLate self.old.operator book caller.now now
            (request_of.Command number command.now) result.answer }
        ensures change { IsChange self.old self.new result.change }
        ensures nothing { (book : Book) → StandsIn self.old book → result.slots.items ≡ []
            → result.change ≡ change_of.Nothing }
        ensures operator { self.new.operator ≡ self.old.operator }
        ensures storeless { IsStoreless result.answer }
        ensures counted { steps.new ≤ steps.old + lines_in (running_in self.old) command.now + 1 }
        ensures refused { result.change ≡ change_of.Nothing → result.answer ≢ answer_of.Memory
            → steps.new ≤ steps.old + 1 }
    {
        match self.lasts.repeated(caller, number, command) {
            Some(made) => unchanged(self.alloc, Answer::Done { number, made }),
            None => match judge_number(self.lasts.number(caller), number) {
                Err(rule) => unchanged(self.alloc, Answer::Rule(rule)),
                Ok(()) => {
                    let done = self.accept(caller, now, number, command, steps);
                    answer_to(self.alloc, number, done)
                }
            },
        }
    }

    // Judges a command whose number is the next one of its caller, and does it.
    fn accept<L: Ledger>(
        &mut self,
        caller: &Caller,
        now: Moment,
        number: u64,
        command: &Command,
        steps: &mut ReadCount<L>,
    ) -> Result<Done, Answer>
        requires { IsCommand command.now }
        ensures accepted { IsAccepted self.old self.new caller.now now number command.now
            (made_in result) }
        ensures touched { IfOk result
            (λ done. (book : Book) → StandsIn self.old book
            → done.slots.items ≡ touched book caller.now command.now) }
        ensures change { IfOk result (λ done. IsChange self.old self.new done.change) }
        ensures operator { self.new.operator ≡ self.old.operator }
        ensures storeless { IfErr result IsStoreless }
        ensures counted { steps.new ≤ steps.old + lines_in (running_in self.old) command.now + 1 }
        ensures acts { IfOk result (λ done. done.change ≢ change_of.Nothing) }
        ensures refused { IfErr result
            (λ reply. reply ≢ answer_of.Memory → steps.new ≤ steps.old + 1) }
    {
        match &mut self.running {
            Some(running) => accept(
                self.alloc,
                running,
                &mut self.lasts,
                &self.operator,
                caller,
                now,
                number,
                command,
                steps,
            ),
            None => match begin(self.alloc, &mut self.lasts, caller, number, command) {
                Ok(begun) => {
                    self.running = Some(begun.running);
                    Ok(Done {
                        made: Made::Nothing,
                        slots: begun.slots,
                        change: Change::Season,
                    })
                }
                Err(refused) => Err(refused),
            },
        }
    }
}

// What a caller's view gets before there is a season, when there are no entries.
fn answer_before(alloc: Global, caller: &Caller, last: u64, view: View) -> Answer
    ensures shown { (book : Book) → book.entries ≡ [] → last ≡ last_number book caller.now
        → IsShown (unseen book caller.now view) result }
    ensures storeless { IsStoreless result }
{
    match view {
        View::Window(Window::Me) => match window_before(alloc, caller, last) {
            Ok(page) => Answer::Shown(Shown::Page(page)),
            Err(Memory) => Answer::Memory,
        },
        _ => Answer::Rule(Rule::NoSeason),
    }
}

// What is wrong with a command's number behind its caller's last one.
fn judge_number(last: u64, number: u64) -> Result<(), Rule>
    requires { 1 ≤ number }
    ensures { IsJudged (number_refusal last number) result }
{
    if number - 1 == last {
        Ok(())
    } else if number < last {
        Err(Rule::NumberOld { last })
    } else if number == last {
        Err(Rule::NumberUsed { last })
    } else {
        Err(Rule::NumberGap { last })
    }
}
