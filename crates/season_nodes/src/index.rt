// Who holds a player in a locked gameweek.
ghost use Rattle.std.specs.Prelude.{◌≡◌, ◌++◌, ◌∷◌, [], OnOk};
ghost use Rattle.season_nodes.specs.IndexFacts.{HasHolders, holders_in};

use fpl_base::{EntryId, Gw, Memory, PlayerId};
use std::alloc::Global;
use std::collections::HashMap;
use std::marker::Model;

/// Entries in a row. A contract sees them as a list.
#[derive(Drop)]
pub struct Entries {
    items: Vec<EntryId>,
}

impl Model for Entries {
    ghost use Rattle.std.specs.Prelude.{List, ℕ};

    ghost Value = { List ℕ };

    ghost view = { λ e. e.items.items };
}

impl Entries {
    // One entry more, at the end.
    fn push(&mut self, entry: EntryId) -> Result<(), Memory>
        ensures { OnOk result (self.new ≡ self.old ++ entry ∷ []) }
    {
        self.items.push(entry)?;
        Ok(())
    }
}

/// For each gameweek and player the entries that hold him there. A contract sees it by `holders_in` alone.
#[derive(Drop)]
pub struct Index {
    alloc: Global,
    rows: HashMap<(Gw, PlayerId), Entries>,
}

impl Model for Index {
    ghost use Rattle.std.specs.Prelude.{List, ℕ};

    ghost Value = { List ((ℕ × ℕ) × List ℕ) };

    ghost view = { λ i. i.rows.entries };
}

impl Index {
    /// Nobody is held.
    pub fn new(alloc: Global) -> Self
        ensures { result ≡ [] }
    {
        Index {
            alloc,
            rows: HashMap::new(alloc),
        }
    }

    /// The entries that hold a player in a gameweek.
    pub fn holders(&self, player: PlayerId, gameweek: Gw) -> &[EntryId]
        ensures { result.now ≡ holders_in self.now player gameweek }
    {
        match self.rows.get(&(gameweek, player)) {
            Some(entries) => &entries.items,
            None => &[],
        }
    }

    /// An entry holds a player in a gameweek from now on. After want of memory the index has to be made anew.
    pub fn hold(&mut self, player: PlayerId, gameweek: Gw, entry: EntryId) -> Result<(), Memory>
        ensures { OnOk result
            (HasHolders self.old self.new player gameweek
            (holders_in self.old player gameweek ++ entry ∷ [])) }
    {
        hold_in(&mut self.rows, self.alloc, player, gameweek, entry)?;
        Ok(())
    }
}

// An entry more in the row of a player in a gameweek, which begins with it where there is none yet.
fn hold_in(
    rows: &mut HashMap<(Gw, PlayerId), Entries>,
    alloc: Global,
    player: PlayerId,
    gameweek: Gw,
    entry: EntryId,
) -> Result<(), Memory>
    ensures { OnOk result
        (HasHolders rows.old.entries rows.new.entries player gameweek
        (holders_in rows.old.entries player gameweek ++ entry ∷ [])) }
{
    if let Some(row) = rows.get_mut(&(gameweek, player)) {
        row.push(entry)?;
        return Ok(());
    }
    let mut first = Entries {
        items: Vec::new(alloc),
    };
    first.push(entry)?;
    rows.insert((gameweek, player), first)?;
    Ok(())
}
