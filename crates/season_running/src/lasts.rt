// The last accepted command of each caller.
ghost use Rattle.std.specs.Prelude.{◌≡◌, ◌∷◌, [], Some, None, IfOk, OnErr, IsSome, MatchOption, option_copied};
ghost use Rattle.rule_book.specs.ById.{at_id, placed_at};
ghost use Rattle.season_book.specs.Book.{Last, caller_number};
ghost use Rattle.season_book.specs.Commands.{IsCommand};
ghost use Rattle.season_book.specs.declared.made.Made.{Made};
ghost use Rattle.season_book.specs.Hosts.{number_in, row_at};

use fpl_base::{Caller, Memory};
use season_book::{Command, Made};
use std::alloc::Global;
use std::collections::BTreeMap;
use std::marker::Model;

/// A caller's last accepted command, under its number, and what it made. It can be ordered.
#[derive(Drop)]
pub struct LastCommand {
    number: u64,
    command: Command,
    made: Made,
}

impl Model for LastCommand {
    ghost use Rattle.season_book.specs.Book.{Last};
    ghost use Rattle.season_book.specs.Commands.{IsCommand};

    ghost Value = { Last };

    ghost view = { λ l. record { number = l.number; command = l.command; made = l.made } };

    ghost invariant = { λ l. IsCommand l.command };
}

/// The last accepted command of each caller who had one accepted, by the caller's number.
#[derive(Drop)]
pub struct Lasts {
    rows: BTreeMap<u32, LastCommand>,
}

impl Model for Lasts {
    ghost use Rattle.std.specs.Prelude.{List, ℕ};
    ghost use Rattle.season_book.specs.Book.{Last};
    ghost use Rattle.rule_book.specs.ById.{AreSorted};

    ghost Value = { List (ℕ × Last) };

    ghost view = { λ l. l.rows.entries };

    ghost invariant = { λ l. AreSorted l.rows.entries };
}

impl Lasts {
    /// Nobody had a command accepted.
    pub fn new(alloc: Global) -> Self
        ensures { result ≡ [] }
    {
        Lasts {
            rows: BTreeMap::new(alloc),
        }
    }

    /// The number of a caller's last command; 0 where he had none accepted.
    pub fn number(&self, caller: &Caller) -> u64
        ensures { result ≡ number_in (at_id self.now (caller_number caller.now)) }
    {
        match self.rows.get(&number_of(caller)) {
            Some(last) => last.number,
            None => 0,
        }
    }

    /// A caller's last command; `None` where he had none accepted.
    pub fn get(&self, caller: &Caller) -> Option<&LastCommand>
        ensures { option_copied result ≡ at_id self.now (caller_number caller.now) }
    {
        self.rows.get(&number_of(caller))
    }

    /// What a caller's last command made, where it is this one under this number.
    pub fn repeated(&self, caller: &Caller, number: u64, command: &Command) -> Option<Made>
        ensures { MatchOption result
            ((made : Made)
            → at_id self.now (caller_number caller.now)
            ≡ Some (record { number = number; command = command.now; made = made }) → ⊥)
            (λ made. at_id self.now (caller_number caller.now)
            ≡ Some (record { number = number; command = command.now; made = made })) }
    {
        match self.rows.get(&number_of(caller)) {
            Some(last) => last.repeated(number, command),
            None => None,
        }
    }

    /// Puts a command in the place of the caller's last one, which is handed out; unchanged after want of memory.
    pub fn put(&mut self, caller: &Caller, last: LastCommand) -> Result<Option<LastCommand>, Memory>
        ensures put { IfOk result
            (λ before. self.new
            ≡ placed_at self.old (caller_number caller.now)
            ((caller_number caller.now, last) ∷ [])) }
        ensures back { IfOk result
            (λ before. self.old
            ≡ placed_at self.new (caller_number caller.now)
            (row_at (caller_number caller.now) before)) }
        ensures there { IfOk result
            (λ before. at_id self.new (caller_number caller.now) ≡ Some last) }
        ensures err { OnErr result (self.new ≡ self.old) }
    {
        Ok(self.rows.insert(number_of(caller), last)?)
    }

    /// Puts back what stood there before a `put`. It takes no memory.
    pub fn put_back(&mut self, caller: &Caller, before: Option<LastCommand>)
        requires { IsSome (at_id self.old (caller_number caller.now)) }
        ensures { self.new
            ≡ placed_at self.old (caller_number caller.now)
            (row_at (caller_number caller.now) before) }
    {
        match before {
            Some(last) => {
                drop(self.rows.insert(number_of(caller), last));
            }
            None => {
                drop(self.rows.remove(&number_of(caller)));
            }
        }
    }
}

impl LastCommand {
    /// This command, under this number, with what it made.
    pub fn new(number: u64, command: Command, made: Made) -> Self
        requires { IsCommand command }
        ensures { result ≡ record { number = number; command = command; made = made } }
    {
        LastCommand {
            number,
            command,
            made,
        }
    }

    /// Its number.
    pub fn number(&self) -> u64
        ensures { result ≡ self.now.number }
    {
        self.number
    }

    /// The command.
    pub fn command(&self) -> &Command
        ensures command { result.now ≡ self.now.command }
        ensures read { IsCommand self.now.command }
    {
        &self.command
    }

    /// What it made.
    pub fn made(&self) -> Made
        ensures { result ≡ self.now.made }
    {
        self.made
    }

    // What it made, where it is this command under this number.
    fn repeated(&self, number: u64, command: &Command) -> Option<Made>
        ensures { MatchOption result
            ((made : Made)
            → self.now ≡ record { number = number; command = command.now; made = made } → ⊥)
            (λ made. self.now ≡ record { number = number; command = command.now; made = made }) }
    {
        if self.number == number && self.command.is_same(command) {
            Some(self.made)
        } else {
            None
        }
    }
}

// The number of a caller.
fn number_of(caller: &Caller) -> u32
    ensures { result ≡ caller_number caller.now }
{
    match caller {
        Caller::Operator => 0,
        Caller::Entry(entry) => entry.get(),
    }
}
