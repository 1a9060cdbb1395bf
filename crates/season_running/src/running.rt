// A season with its entries.
ghost use Rattle.std.specs.Prelude.{◌≡◌, ◌≤◌, ◌+◌, ℕ, List, [], Option, IfErr, IfOk, IsSome, OnOk, OnErr, None, Some, length, if◌then◌else◌};
ghost use Rattle.std.specs.Option.{option_map};
ghost use Rattle.serde_json.specs.Data.{Data};
ghost use Rattle.serde_json.specs.Written.{compact_text};
ghost use Rattle.fpl_base.specs.Texts.{is_key};
ghost use Rattle.fpl_base.specs.declared.kinds.Caller.{Caller};
ghost use Rattle.rule_book.specs.Entries.{entry_in};
ghost use Rattle.rule_book.specs.Leagues.{LeagueFacts};
ghost use Rattle.manager_book.specs.Managers.{AreRisen, manager_in};
ghost use Rattle.season_book.specs.Book.{Book, caller_number, last_number};
ghost use Rattle.season_book.specs.Commands.{IsCommand, part_of};
ghost use Rattle.season_book.specs.declared.command.Command.{Command};
ghost use Rattle.season_book.specs.Doing.{IsGranted, IsShown, IsStoreless};
ghost use Rattle.season_book.specs.Verdict.{fact_shown, locked_at, page_of, ruled, seen_in, shown_or_unknown};
ghost use Rattle.season_book.specs.declared.answer.Answer.TheVariants as answer;
ghost use Rattle.season_book.specs.declared.part.Part.TheVariants as part;
ghost use Rattle.season_book.specs.declared.request.View.TheVariants as view;
ghost use Rattle.season_book.specs.declared.shown.Shown.{Shown};
ghost use Rattle.season_competitions.specs.Cups.{IsCupGranted};
ghost use Rattle.season_competitions.specs.Leagues.{IsLeagueGranted};
ghost use Rattle.season_entries.specs.EntryLaws.{AreEarly};
ghost use Rattle.season_entries.specs.Deeds.{IsDeedJudged};
ghost use Rattle.season_entries.specs.Keys.{keys_of};
ghost use Rattle.season_book.specs.Hosts.{entry_with};
ghost use Rattle.season_facts.specs.Judged.{CountsJudged};
ghost use Rattle.season_running.specs.Accepting.{HasRoom, IsAmendable, IsOpen, IsDone, IsGrantedTo, IsRefusal, IsRuled, IsWorkedOut, made_by, refused_in};
ghost use Rattle.season_running.specs.Changed.{IsChangedBy};
ghost use Rattle.season_running.specs.Kept.{AreKeptBy, IsShownIn, ReadsAllowed, seen_of};
ghost use Rattle.season_running.specs.EntryLaws.{IsOrderly};
ghost use Rattle.season_running.specs.Standing.{InStep, Plays};
ghost use Rattle.season_views.specs.Leagues.{AreIssued};
ghost use Rattle.season_views.specs.Seen.{IsKept};
ghost use Rattle.season_views.specs.Reads.{reads_allowed, window_reads};

use crate::judged::Judged;
use fpl_base::{Caller, CupId, EntryId, Key, LeagueId, Memory, Moment, ReadCount, Rule};
use leagues_and_cups::{Cups, Leagues};
use manager_book::{JudgedDeed, ManagerBook};
use season_book::{Answer, Command, Made, Page, Part, Shown, View, Window};
use season_competitions::{do_cup, do_league, judge_cup, judge_league, members_stay};
use season_entries::{
    amendments_leave_entries, do_deed, do_key, do_rekey, early_is_in_time, entries_are_issued,
    facts_leave_entries, judge_amend, judge_deed, judge_key, judge_rekey, moments_leave_entries,
    owners_are_alike,
};
use season_facts::Season;
use season_graph::SeasonCells;
use season_views::{Seen, SeenCells, entry_gameweek, league, my_entry, show, shown_cup};
use season_windows::window;
use std::alloc::Global;
use std::marker::Model;
use std::sync::ledger::Ledger;

/// A season with its entries, leagues and cups: what the operator handed in, and what the managers did. A contract sees
/// the facts, the managers with their rows, the leagues and the cups.
#[derive(Drop)]
pub struct RunningSeason {
    season: Season,
    managers: ManagerBook,
    leagues: Leagues,
    cups: Cups,
}

impl Model for RunningSeason {
    ghost use Rattle.season_running.specs.Standing.{InStep, Running};

    ghost Value = { Running };

    ghost view = { λ r.
        record {
          facts = r.season;
          managers = r.managers.managers;
          leagues = r.leagues;
          cups = r.cups;
        } };

    ghost invariant = { λ r. InStep r.season r.managers r.leagues };
}

impl RunningSeason {
    /// A season that begins, without entries, leagues and cups.
    pub fn begin(alloc: Global, season: Season) -> Self
        ensures { result ≡ record { facts = season; managers = []; leagues = []; cups = [] } }
    {
        let managers = ManagerBook::new(alloc, season.profile());
        RunningSeason {
            season,
            managers,
            leagues: Leagues::new(alloc),
            cups: Cups::new(alloc),
        }
    }

    /// The season of these facts, entries, leagues and cups, as they are told of a season that was kept.
    pub fn of_parts(season: Season, managers: ManagerBook, leagues: Leagues, cups: Cups) -> Self
        requires { InStep season managers leagues }
        ensures { result
            ≡ record {
              facts = season;
              managers = managers.managers;
              leagues = leagues;
              cups = cups;
            } }
    {
        RunningSeason {
            season,
            managers,
            leagues,
            cups,
        }
    }

    /// What the operator handed in.
    pub fn season(&self) -> &Season
        ensures { result.now ≡ self.now.facts }
    {
        &self.season
    }

    /// The entries, with what their managers did.
    pub fn managers(&self) -> &ManagerBook
        ensures managers { result.now.managers ≡ self.now.managers }
        ensures profile { result.now.profile ≡ self.now.facts.profile }
    {
        &self.managers
    }

    /// The leagues.
    pub fn leagues(&self) -> &Leagues
        ensures { result.now ≡ self.now.leagues }
    {
        &self.leagues
    }

    /// The cups.
    pub fn cups(&self) -> &Cups
        ensures { result.now ≡ self.now.cups }
    {
        &self.cups
    }

    /// A law: the players are lawful, and nothing was done in a gameweek behind the next one or the last.
    pub fn keeps_order(&self)
        ensures { IsOrderly self.now.facts self.now.managers }
    {
        // That the players are lawful, for the prover.
        let _count = self.season.players().len();
    }

    /// A law: the rows of each entry rise by gameweek.
    pub fn keeps_rows(&self)
        ensures { AreRisen self.now.managers }
    {
        self.managers.keeps_rows();
    }

    /// Locks the gameweeks whose deadlines have passed.
    pub fn pass(&mut self, now: Moment)
        ensures { self.new ≡ record self.old { facts = locked_at now self.old.facts } }
    {
        // The law that nothing was done later than the next gameweek, for the prover.
        moments_leave_entries();
        self.season.pass(now);
    }

    /// The entry that has these bytes as its key; `None` where nobody has, and so where they are no key.
    pub fn owner_of(&self, bytes: &[u8]) -> Option<Caller>
        ensures { result
            ≡ (if is_key bytes.now then entry_with (keys_of self.now.managers) bytes.now
            else None) }
    {
        // The law that the keys are those of the managers, for the prover, as is the key, which bytes that are no key are not.
        owners_are_alike();
        let entry = self.managers.owner_of(bytes)?;
        match self.managers.key(entry) {
            Some(key) => {
                if key.bytes() == bytes {
                    Some(Caller::Entry(entry))
                } else {
                    None
                }
            }
            None => None,
        }
    }

    /// The answer that refuses a caller's command at a moment; `Ok` where nothing does. It takes no memory. The line that a
    /// command takes away is one counted read; nothing else is.
    pub fn judge<L: Ledger>(
        &self,
        operator: &Key,
        caller: &Caller,
        now: Moment,
        command: &Command,
        steps: &mut ReadCount<L>,
    ) -> Result<Judged, Answer>
        requires { IsCommand command.now }
        ensures granted { OnOk result (IsGrantedTo self.now caller.now now command.now) }
        ensures worked { IfOk result (IsWorkedOut self.now caller.now command.now) }
        ensures ruled { (book : Book) → Plays self.now book
            → IsRuled (ruled operator.now book caller.now now command.now) result }
        ensures refusal { IfErr result IsRefusal }
        ensures counted { steps.new ≤ steps.old + 1 }
        ensures exact { CountsJudged command.now (refused_in result) steps.old steps.new }
    {
        match command.part() {
            Part::Facts => {
                self.season.judge(now, command, steps)?;
                Ok(Judged::Facts)
            }
            Part::Players => {
                self.judge_amend(command)?;
                Ok(Judged::Players)
            }
            Part::Entries => {
                self.judge_entry(operator, command)?;
                Ok(Judged::Entries)
            }
            Part::Keys => {
                self.judge_rekey(operator, command)?;
                Ok(Judged::Keys)
            }
            Part::Deeds => Ok(Judged::Deed(self.judge_deed(caller, command)?)),
            Part::Leagues => {
                self.judge_league(caller, command)?;
                Ok(Judged::Leagues)
            }
            Part::Cups => {
                self.judge_cup(command)?;
                Ok(Judged::Cups)
            }
        }
    }

    // The same of the command that makes an entry.
    fn judge_entry(&self, operator: &Key, command: &Command) -> Result<(), Answer>
        requires { part_of command.now ≡ part.Entries }
        ensures granted { (now : ℕ) (caller : Caller)
            → OnOk result (IsGrantedTo self.now caller now command.now) }
        ensures ruled { (now : ℕ) (caller : Caller) (book : Book) → Plays self.now book
            → IsRuled (ruled operator.now book caller now command.now) result }
        ensures refusal { IfErr result IsRefusal }
    {
        match command {
            Command::Key { key, .. } => match judge_key(operator, &self.managers, key) {
                Ok(()) => Ok(()),
                Err(rule) => Err(Answer::Rule(rule)),
            },
            _ => Err(Answer::Unknown),
        }
    }

    // The same of another key of an entry.
    fn judge_rekey(&self, operator: &Key, command: &Command) -> Result<(), Answer>
        requires { part_of command.now ≡ part.Keys }
        ensures granted { (now : ℕ) (caller : Caller)
            → OnOk result (IsGrantedTo self.now caller now command.now) }
        ensures ruled { (now : ℕ) (caller : Caller) (book : Book) → Plays self.now book
            → IsRuled (ruled operator.now book caller now command.now) result }
        ensures refusal { IfErr result IsRefusal }
    {
        match command {
            Command::Rekey { entry, key, .. } => {
                judge_rekey(operator, &self.managers, *entry, key)
            }
            _ => Err(Answer::Unknown),
        }
    }

    // The same of another name and another position of a player.
    fn judge_amend(&self, command: &Command) -> Result<(), Answer>
        requires { part_of command.now ≡ part.Players }
        ensures granted { (now : ℕ) (caller : Caller)
            → OnOk result (IsGrantedTo self.now caller now command.now) }
        ensures ruled { (operator : List ℕ) (now : ℕ) (caller : Caller) (book : Book) → Plays self.now book
            → IsRuled (ruled operator book caller now command.now) result }
        ensures refusal { IfErr result IsRefusal }
    {
        match command {
            Command::AmendPlayer {
                player,
                position,
                ..
            } => judge_amend(&self.season, &self.managers, *player, *position),
            _ => Err(Answer::Unknown),
        }
    }

    // The same of the command of a manager; the operator is nobody's entry.
    fn judge_deed(&self, caller: &Caller, command: &Command) -> Result<JudgedDeed, Answer>
        requires read { IsCommand command.now }
        requires deed { part_of command.now ≡ part.Deeds }
        ensures granted { (now : ℕ)
            → OnOk result (IsGrantedTo self.now caller.now now command.now) }
        ensures worked { IfOk result
            (IsDeedJudged self.now.facts
            (manager_in self.now.managers (caller_number caller.now)).season command.now) }
        ensures ruled { (operator : List ℕ) (now : ℕ) (book : Book) → Plays self.now book
            → IsRuled (ruled operator book caller.now now command.now) result }
        ensures refusal { IfErr result IsRefusal }
    {
        // The laws on which entries are there, and when their managers act, for the prover.
        entries_are_issued();
        early_is_in_time();
        match caller {
            Caller::Operator => Err(Answer::Unknown),
            Caller::Entry(entry) => {
                if entry.get() <= self.managers.entries() {
                    judge_deed(&self.season, &self.managers, *entry, command)
                } else {
                    Err(Answer::Unknown)
                }
            }
        }
    }

    // The same of a command on leagues.
    fn judge_league(&self, caller: &Caller, command: &Command) -> Result<(), Answer>
        requires { part_of command.now ≡ part.Leagues }
        ensures granted { (now : ℕ)
            → OnOk result (IsGrantedTo self.now caller.now now command.now) }
        ensures ruled { (operator : List ℕ) (now : ℕ) (book : Book) → Plays self.now book
            → IsRuled (ruled operator book caller.now now command.now) result }
        ensures refusal { IfErr result IsRefusal }
    {
        judge_league(&self.season, &self.managers, &self.leagues, caller, command)
    }

    // The same of the draw of a cup.
    fn judge_cup(&self, command: &Command) -> Result<(), Answer>
        requires { part_of command.now ≡ part.Cups }
        ensures granted { (now : ℕ) (caller : Caller)
            → OnOk result (IsGrantedTo self.now caller now command.now) }
        ensures ruled { (operator : List ℕ) (now : ℕ) (caller : Caller) (book : Book)
            → Plays self.now book → IsRuled (ruled operator book caller now command.now) result }
        ensures refusal { IfErr result IsRefusal }
    {
        judge_cup(&self.season, &self.managers, &self.cups, command)
    }

    /// What a command makes, where nothing refuses it: a new entry, league or cup has the next number.
    pub fn made_by(&self, command: &Command) -> Made
        ensures { result ≡ made_by self.now command.now }
    {
        match command {
            Command::Key { .. } => match EntryId::new(self.managers.entries() + 1) {
                Some(entry) => Made::Entry(entry),
                None => Made::Nothing,
            },
            Command::League { .. } => match LeagueId::new(self.leagues.count() + 1) {
                Some(league) => Made::League(league),
                None => Made::Nothing,
            },
            Command::Cup { .. } => match CupId::new(self.cups.count() + 1) {
                Some(cup) => Made::Cup(cup),
                None => Made::Nothing,
            },
            _ => Made::Nothing,
        }
    }

    /// Does a command that nothing refuses at this moment, by what `judge` worked out; unchanged where memory is wanting. It
    /// changes its own part of the season alone.
    pub fn change(
        &mut self,
        caller: &Caller,
        now: Moment,
        command: &Command,
        judged: &Judged,
    ) -> Result<(), Memory>
        requires read { IsCommand command.now }
        requires granted { IsGrantedTo self.old caller.now now command.now }
        requires worked { IsWorkedOut self.old caller.now command.now judged.now }
        ensures done { OnOk result (IsDone caller.now now command.now self.old self.new) }
        ensures changed { OnOk result (IsChangedBy caller.now command.now self.old self.new) }
        ensures err { OnErr result (self.new ≡ self.old) }
    {
        match judged {
            Judged::Facts => self.change_facts(caller, now, command),
            Judged::Players => self.amend(command),
            Judged::Entries => self.add_entry(command),
            Judged::Keys => self.rekey(command),
            Judged::Deed(deed) => self.do_deed(caller, deed),
            Judged::Leagues => self.do_league(caller, command),
            Judged::Cups => self.do_cup(command),
        }
    }

    // Does a command on the facts.
    fn change_facts(
        &mut self,
        caller: &Caller,
        now: Moment,
        command: &Command,
    ) -> Result<(), Memory>
        requires facts { part_of command.now ≡ part.Facts }
        requires granted { IsGranted self.old.facts now command.now }
        ensures done { OnOk result (IsDone caller.now now command.now self.old self.new) }
        ensures changed { OnOk result (IsChangedBy caller.now command.now self.old self.new) }
        ensures err { OnErr result (self.new ≡ self.old) }
    {
        // The law that the entries stay, for the prover.
        facts_leave_entries();
        self.season.change(now, command)
    }

    // Makes the entry that a command orders.
    fn add_entry(&mut self, command: &Command) -> Result<(), Memory>
        requires made { part_of command.now ≡ part.Entries }
        requires granted { HasRoom self.old.managers command.now }
        ensures done { (now : ℕ) (caller : Caller)
            → OnOk result (IsDone caller now command.now self.old self.new) }
        ensures changed { (caller : Caller)
            → OnOk result (IsChangedBy caller command.now self.old self.new) }
        ensures err { OnErr result (self.new ≡ self.old) }
    {
        // The law that the members of leagues are entries, for the prover.
        members_stay();
        match command {
            Command::Key { key, name } => match do_key(&mut self.managers, key, name) {
                Ok(_) => Ok(()),
                Err(Memory) => Err(Memory),
            },
            _ => Ok(()),
        }
    }

    // Gives an entry the key and the name that a command orders.
    fn rekey(&mut self, command: &Command) -> Result<(), Memory>
        requires keys { part_of command.now ≡ part.Keys }
        requires granted { IsOpen self.old.managers command.now }
        ensures done { (now : ℕ) (caller : Caller)
            → OnOk result (IsDone caller now command.now self.old self.new) }
        ensures changed { (caller : Caller)
            → OnOk result (IsChangedBy caller command.now self.old self.new) }
        ensures err { OnErr result (self.new ≡ self.old) }
    {
        // The law that the members of leagues are entries, for the prover.
        members_stay();
        match command {
            Command::Rekey { entry, key, name } => do_rekey(&mut self.managers, *entry, key, name),
            _ => Ok(()),
        }
    }

    // Gives a player the name and the position that a command orders.
    fn amend(&mut self, command: &Command) -> Result<(), Memory>
        requires players { part_of command.now ≡ part.Players }
        requires granted { IsAmendable self.old.facts self.old.managers command.now }
        ensures done { (now : ℕ) (caller : Caller)
            → OnOk result (IsDone caller now command.now self.old self.new) }
        ensures changed { (caller : Caller)
            → OnOk result (IsChangedBy caller command.now self.old self.new) }
        ensures err { OnErr result (self.new ≡ self.old) }
    {
        // The law that the entries stay, for the prover.
        amendments_leave_entries();
        match command {
            Command::AmendPlayer {
                player,
                name,
                position,
            } => self.season.amend_player(*player, name, *position),
            _ => Ok(()),
        }
    }

    // Keeps what the command of a manager came to.
    fn do_deed(&mut self, caller: &Caller, deed: &JudgedDeed) -> Result<(), Memory>
        requires first { 1 ≤ caller_number caller.now }
        requires issued { caller_number caller.now ≤ length self.old.managers }
        requires judged { (command : Command)
            × IsDeedJudged self.old.facts
            (manager_in self.old.managers (caller_number caller.now)).season command deed.now }
        ensures done { (now : ℕ) (command : Command) → part_of command ≡ part.Deeds
            → IsDeedJudged self.old.facts
            (manager_in self.old.managers (caller_number caller.now)).season command deed.now
            → OnOk result (IsDone caller.now now command self.old self.new) }
        ensures changed { (command : Command) → part_of command ≡ part.Deeds
            → OnOk result (IsChangedBy caller.now command self.old self.new) }
        ensures err { OnErr result (self.new ≡ self.old) }
    {
        // The laws on which entries are there, when their managers act, and who is in leagues, for the prover.
        entries_are_issued();
        early_is_in_time();
        members_stay();
        match caller {
            Caller::Entry(entry) => do_deed(&self.season, &mut self.managers, *entry, deed),
            Caller::Operator => Ok(()),
        }
    }

    // Does a command on leagues.
    fn do_league(&mut self, caller: &Caller, command: &Command) -> Result<(), Memory>
        requires part { part_of command.now ≡ part.Leagues }
        requires granted { IsLeagueGranted self.old.facts self.old.managers self.old.leagues
            (caller_number caller.now) command.now }
        ensures done { (now : ℕ)
            → OnOk result (IsDone caller.now now command.now self.old self.new) }
        ensures changed { OnOk result (IsChangedBy caller.now command.now self.old self.new) }
        ensures err { OnErr result (self.new ≡ self.old) }
    {
        // The law that its members are entries, for the prover.
        members_stay();
        do_league(
            &self.season,
            &self.managers,
            &mut self.leagues,
            caller,
            command,
        )
    }

    // Draws a cup.
    fn do_cup(&mut self, command: &Command) -> Result<(), Memory>
        requires part { part_of command.now ≡ part.Cups }
        requires granted { IsCupGranted self.old.facts self.old.cups command.now }
        ensures done { (now : ℕ) (caller : Caller)
            → OnOk result (IsDone caller now command.now self.old self.new) }
        ensures changed { (caller : Caller)
            → OnOk result (IsChangedBy caller command.now self.old self.new) }
        ensures err { OnErr result (self.new ≡ self.old) }
    {
        do_cup(&self.season, &mut self.cups, command)
    }

    // The season and its cells, as a view sees them.
    fn seen<'a, L: Ledger>(&'a self, cells: &'a SeasonCells) -> (Seen<'a, L>, SeenCells<'a, L>)
        requires { AreKeptBy self.now cells.now }
        ensures seen { result.0 ≡ seen_of self.now }
        ensures kept { IsKept result.0 result.1 }
        ensures early { AreEarly result.0.facts result.0.managers.managers }
        ensures issued { (l : ℕ) (league : LeagueFacts) → entry_in result.0.leagues l ≡ Some league
            → AreIssued result.0.managers league.members }
    {
        // The law that the members of leagues are entries, for the prover.
        members_stay();
        (
            Seen::of(&self.season, &self.managers, &self.leagues, &self.cups),
            SeenCells::of(cells),
        )
    }

    /// What a view shows that asks for no entry, league, cup or window: the season, a player, his gameweek or a fixture.
    pub fn show<L: Ledger>(
        &self,
        alloc: Global,
        cells: &SeasonCells,
        view: View,
        steps: &mut ReadCount<L>,
    ) -> Answer
        requires { AreKeptBy self.now cells.now }
        ensures seen { IsShown (fact_shown (Some self.now.facts) view) result }
        ensures storeless { IsStoreless result }
        ensures cost { steps.new
            ≤ steps.old + reads_allowed (fact_shown (Some self.now.facts) view) }
    {
        let (seen, cells) = self.seen(cells);
        match show(alloc, &seen, &cells, view, steps) {
            Ok(Some(shown)) => Answer::Shown(shown),
            Ok(None) => Answer::Unknown,
            Err(Memory) => Answer::Memory,
        }
    }

    /// What a caller sees of his own entry, under the number of his last command. It is read of his rows and of the cells.
    pub fn my_entry<L: Ledger>(
        &self,
        cells: &SeasonCells,
        caller: &Caller,
        last: u64,
        steps: &mut ReadCount<L>,
    ) -> Answer
        requires { AreKeptBy self.now cells.now }
        ensures seen { (book : Book) → Plays self.now book → last ≡ last_number book caller.now
            → result ≡ seen_in book caller.now view.Me self.now.facts }
        ensures storeless { IsStoreless result }
        ensures cost { steps.new ≤ steps.old + 4 }
    {
        match caller {
            Caller::Operator => Answer::Unknown,
            Caller::Entry(entry) => {
                let (seen, cells) = self.seen(cells);
                // The law on which entries are there, and that the ids of players differ, for the prover.
                entries_are_issued();
                let _count = seen.players().len();
                if entry.get() > seen.entries() {
                    return Answer::Unknown;
                }
                match my_entry(&seen, &cells, *entry, last, steps) {
                    Some(shown) => Answer::Shown(Shown::Me(shown)),
                    None => Answer::Rule(Rule::NotRegistered),
                }
            }
        }
    }

    /// What an entry scored in a locked gameweek.
    pub fn entry_gameweek<L: Ledger>(
        &self,
        cells: &SeasonCells,
        entry: u32,
        gameweek: u32,
        steps: &mut ReadCount<L>,
    ) -> Answer
        requires { AreKeptBy self.now cells.now }
        ensures seen { (caller : Caller) (book : Book) → Plays self.now book
            → result ≡ seen_in book caller (view.EntryGameweek entry gameweek) self.now.facts }
        ensures storeless { IsStoreless result }
        ensures cost { steps.new ≤ steps.old + 2 }
    {
        let (seen, cells) = self.seen(cells);
        match entry_gameweek(&seen, &cells, entry, gameweek, steps) {
            Some(shown) => Answer::Shown(Shown::EntryGameweek(shown)),
            None => Answer::Unknown,
        }
    }

    /// The table of a league over the locked gameweeks. It is read of the rows of its members and of the cells.
    pub fn league<L: Ledger>(
        &self,
        alloc: Global,
        cells: &SeasonCells,
        number: u32,
        steps: &mut ReadCount<L>,
    ) -> Answer
        requires { AreKeptBy self.now cells.now }
        ensures seen { IsShownIn self.now (view.League number) result }
        ensures storeless { IsStoreless result }
        ensures cost { ReadsAllowed self.now (view.League number) steps.old steps.new }
    {
        let (seen, cells) = self.seen(cells);
        let Some(id) = LeagueId::new(number) else {
            return Answer::Unknown;
        };
        match seen.leagues().get(id) {
            Some(there) => answer_of(league(alloc, &seen, &cells, id, there, steps)),
            None => Answer::Unknown,
        }
    }

    /// The winners of the rounds of a cup, as far as they are locked. They are read of the cells.
    pub fn cup<L: Ledger>(
        &self,
        alloc: Global,
        cells: &SeasonCells,
        number: u32,
        steps: &mut ReadCount<L>,
    ) -> Answer
        requires { AreKeptBy self.now cells.now }
        ensures seen { IsShownIn self.now (view.Cup number) result }
        ensures storeless { IsStoreless result }
        ensures cost { ReadsAllowed self.now (view.Cup number) steps.old steps.new }
    {
        let (seen, cells) = self.seen(cells);
        let Some(id) = CupId::new(number) else {
            return Answer::Unknown;
        };
        match seen.cups().get(id) {
            Some(there) => answer_of(shown_cup(alloc, &seen, &cells, id, there, steps)),
            None => Answer::Unknown,
        }
    }

    /// What a window shows a caller, under the number of his last command. It is read of the facts, of rows and of the cells.
    pub fn window<L: Ledger>(
        &self,
        alloc: Global,
        cells: &SeasonCells,
        caller: &Caller,
        last: u64,
        asked: Window,
        steps: &mut ReadCount<L>,
    ) -> Answer
        requires { AreKeptBy self.now cells.now }
        ensures seen { (book : Book) → Plays self.now book → last ≡ last_number book caller.now
            → IsShown (seen_in book caller.now (view.Window asked) self.now.facts) result }
        ensures storeless { IsStoreless result }
        ensures cost { (book : Book) → Plays self.now book
            → steps.new
            ≤ steps.old + window_reads self.now.facts book.entries book.leagues book.cups asked }
    {
        let (seen, cells) = self.seen(cells);
        page_answer(window(alloc, &seen, &cells, caller, last, asked, steps))
    }
}

// What is shown, or want of memory.
fn answer_of(shown: Result<Shown, Memory>) -> Answer
    ensures shown { (due : Shown) → IfOk shown (λ s. s ≡ due) → IsShown (answer.Shown due) result }
    ensures storeless { IsStoreless result }
{
    match shown {
        Ok(shown) => Answer::Shown(shown),
        Err(Memory) => Answer::Memory,
    }
}

// The text of what a window shows, nothing where an id is not there, or want of memory.
#[tactic(auto, using(crate::proofs::PageFacts::page_shown, crate::proofs::PageFacts::page_unknown, crate::proofs::PageFacts::page_out))]
fn page_answer(page: Result<Option<Page>, Memory>) -> Answer
    ensures shown { (due : Option Data) → IfOk page (λ p. p ≡ option_map compact_text due)
        → OnErr page (IsSome due) → IsShown (shown_or_unknown (option_map page_of due)) result }
    ensures storeless { IsStoreless result }
{
    match page {
        Ok(Some(page)) => Answer::Shown(Shown::Page(page)),
        Ok(None) => Answer::Unknown,
        Err(Memory) => Answer::Memory,
    }
}
