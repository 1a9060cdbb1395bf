// New entries, and other keys of entries.
ghost use Rattle.std.specs.Prelude.{◌≡◌, ◌+◌, ◌++◌, ◌∷◌, ℕ, [], None, Option, length, IfOk, OnErr, OnOk};
ghost use Rattle.rule_book.specs.Refusals.{IsJudged};
ghost use Rattle.manager_book.specs.Managers.{issue_refusal, rekeyed};
ghost use Rattle.season_entries.specs.Deeds.{AreInTime, IsAnswered};
ghost use Rattle.season_entries.specs.Keys.{IsKeyJudgedByBooks, IsRekeyGranted, IsRekeyJudgedByBooks, StandForBooksRekeyed, StandForBooksWith, key_broken, new_manager, rekey_broken};

use fpl_base::{EntryId, Key, Memory, Name, Refused, Rule};
use manager_book::ManagerBook;
use season_book::Answer;

// Whether an entry with this key may be made, by the managers' keys and the operator's.
fn judge_by_keys(operator: &Key, managers: &ManagerBook, key: &Key) -> Result<(), Rule>
    ensures rows { IsJudged (key_broken operator.now managers.now.managers key.now) result }
    ensures free { OnOk result (issue_refusal managers.now key.now ≡ None) }
{
    match managers.judge_issue(key) {
        Ok(()) => {}
        Err(rule) => return Err(rule),
    }
    if operator.bytes() == key.bytes() {
        return Err(Rule::KeyThere);
    }
    Ok(())
}

/// Whether an entry with this key may be made. It takes no memory. `EntriesFull` refuses it where 2,048 are there, and
/// then `KeyThere` where an entry or the operator has the key.
pub fn judge_key(operator: &Key, managers: &ManagerBook, key: &Key) -> Result<(), Rule>
    ensures rows { IsJudged (key_broken operator.now managers.now.managers key.now) result }
    ensures books { IsKeyJudgedByBooks operator.now managers.now.managers key.now result }
    ensures free { OnOk result (issue_refusal managers.now key.now ≡ None) }
{
    judge_by_keys(operator, managers, key)
}

/// Makes the next entry, which has this key and this name; unchanged where memory is wanting.
pub fn do_key(managers: &mut ManagerBook, key: &Key, name: &Name) -> Result<EntryId, Memory>
    requires free { issue_refusal managers.old key.now ≡ None }
    ensures made { IfOk result (λ e. e ≡ length managers.old.managers + 1) }
    ensures rows { OnOk result
        (managers.new
        ≡ record managers.old {
          managers = managers.old.managers ++ new_manager key.now name.now
              ∷ [];
        }) }
    ensures books { OnOk result
        (StandForBooksWith key.now name.now managers.old.managers managers.new.managers) }
    ensures later { (next : Option ℕ) → AreInTime next managers.old.managers
        → AreInTime next managers.new.managers }
    ensures err { OnErr result (managers.new ≡ managers.old) }
{
    let key = key.copy()?;
    let name = name.copy()?;
    match managers.issue(key, name) {
        Ok(e) => Ok(e),
        Err(Refused::Memory) => Err(Memory),
        Err(Refused::Rule(_)) => unreachable!(),
    }
}

// The answer that refuses an entry this key, by the managers' keys and the operator's.
fn judge_rekey_by_keys(
    operator: &Key,
    managers: &ManagerBook,
    number: u32,
    key: &Key,
) -> Result<(), Answer>
    ensures rows { IsAnswered (rekey_broken operator.now managers.now.managers number key.now) result }
    ensures granted { OnOk result (IsRekeyGranted managers.now.managers number key.now) }
{
    let Some(entry) = EntryId::new(number) else {
        return Err(Answer::Unknown);
    };
    if number > managers.entries() {
        return Err(Answer::Unknown);
    }
    if operator.bytes() == key.bytes() {
        return Err(Answer::Rule(Rule::KeyThere));
    }
    match managers.entry_of(key) {
        Some(owner) => {
            if owner == entry {
                Ok(())
            } else {
                Err(Answer::Rule(Rule::KeyThere))
            }
        }
        None => Ok(()),
    }
}

/// The answer that refuses an entry this key; `Ok` where nothing does. It takes no memory. `Unknown` refuses it where there
/// is no such entry, and then `KeyThere` where the operator or another entry has the key. A key that the entry has already
/// may be named again.
pub fn judge_rekey(
    operator: &Key,
    managers: &ManagerBook,
    number: u32,
    key: &Key,
) -> Result<(), Answer>
    ensures rows { IsAnswered (rekey_broken operator.now managers.now.managers number key.now) result }
    ensures books { IsRekeyJudgedByBooks operator.now managers.now.managers number key.now result }
    ensures granted { OnOk result (IsRekeyGranted managers.now.managers number key.now) }
{
    judge_rekey_by_keys(operator, managers, number, key)
}

/// Gives an entry this key and this name; unchanged where memory is wanting.
pub fn do_rekey(
    managers: &mut ManagerBook,
    number: u32,
    key: &Key,
    name: &Name,
) -> Result<(), Memory>
    requires granted { IsRekeyGranted managers.old.managers number key.now }
    ensures rows { OnOk result
        (managers.new
        ≡ record managers.old {
          managers = rekeyed managers.old.managers number key.now name.now;
        }) }
    ensures books { OnOk result
        (StandForBooksRekeyed number key.now name.now managers.old.managers managers.new.managers) }
    ensures later { (next : Option ℕ) → AreInTime next managers.old.managers
        → AreInTime next managers.new.managers }
    ensures err { OnErr result (managers.new ≡ managers.old) }
{
    let entry = EntryId::new(number).unwrap();
    let key = key.copy()?;
    let name = name.copy()?;
    match managers.rekey(entry, key, name) {
        Ok(()) => Ok(()),
        Err(_) => Err(Memory),
    }
}
