// Whether entries were issued, and whether they are registered.
ghost use Rattle.std.specs.Prelude.{◌≡◌, ◌==◌, ◌||◌, false, true, MatchOption};
ghost use Rattle.std.specs.List.{list_all};
ghost use Rattle.rule_book.specs.CupCalls.{entrants};
ghost use Rattle.season_book.specs.Book.{caller_number};
ghost use Rattle.season_entries.specs.Known.{is_issued_by, is_registered_by};

use fpl_base::{Caller, EntryId};
use manager_book::ManagerBook;

// Whether an entry of this number was issued.
fn is_issued(managers: &ManagerBook, number: u32) -> bool
    ensures { result ≡ is_issued_by managers.now.managers number }
{
    number != 0 && number <= managers.entries()
}

// Whether an entry of this number is registered.
fn is_registered(managers: &ManagerBook, number: u32) -> bool
    ensures { result ≡ is_registered_by managers.now.managers number }
{
    match EntryId::new(number) {
        Some(entry) => managers.first(entry).is_some(),
        None => false,
    }
}

// Whether all entries of an order were issued.
pub fn are_issued(managers: &ManagerBook, order: &[EntryId]) -> bool
    ensures { result ≡ list_all (is_issued_by managers.now.managers) order.now }
{
    order.iter().all(|entry| is_issued(managers, entry.get()))
}

// Whether a slot of a cup is a bye, or its entry was issued.
fn is_bye_or_issued(managers: &ManagerBook, slot: u32) -> bool
    ensures { result ≡ ((slot == 0) || is_issued_by managers.now.managers slot) }
{
    slot == 0 || is_issued(managers, slot)
}

// Whether a slot of a cup is a bye, or its entry is registered.
fn is_bye_or_registered(managers: &ManagerBook, slot: u32) -> bool
    ensures { result ≡ ((slot == 0) || is_registered_by managers.now.managers slot) }
{
    slot == 0 || is_registered(managers, slot)
}

// Whether each slot of a cup is a bye, or its entry was issued.
fn are_slots_issued(managers: &ManagerBook, slots: &[u32]) -> bool
    ensures { result
        ≡ list_all (λ slot. (slot == 0) || is_issued_by managers.now.managers slot) slots.now }
{
    slots.iter().all(|slot| is_bye_or_issued(managers, *slot))
}

// Whether each slot of a cup is a bye, or its entry is registered.
fn are_slots_registered(managers: &ManagerBook, slots: &[u32]) -> bool
    ensures { result
        ≡ list_all (λ slot. (slot == 0) || is_registered_by managers.now.managers slot) slots.now }
{
    slots
        .iter()
        .all(|slot| is_bye_or_registered(managers, *slot))
}

// Whether all entries in the slots of a cup were issued.
pub fn are_entrants_issued(managers: &ManagerBook, slots: &[u32]) -> bool
    ensures { result ≡ list_all (is_issued_by managers.now.managers) (entrants slots.now) }
{
    are_slots_issued(managers, slots)
}

// Whether all entries in the slots of a cup are registered.
pub fn are_entrants_registered(managers: &ManagerBook, slots: &[u32]) -> bool
    ensures { result ≡ list_all (is_registered_by managers.now.managers) (entrants slots.now) }
{
    are_slots_registered(managers, slots)
}

// The caller's entry, if it is registered.
pub fn registered(managers: &ManagerBook, caller: &Caller) -> Option<EntryId>
    ensures { MatchOption result
        (is_registered_by managers.now.managers (caller_number caller.now) ≡ false)
        (λ e. (is_registered_by managers.now.managers (caller_number caller.now) ≡ true)
        × (e ≡ caller_number caller.now)) }
{
    match caller {
        Caller::Operator => None,
        Caller::Entry(entry) => {
            if is_registered(managers, entry.get()) {
                Some(*entry)
            } else {
                None
            }
        }
    }
}
