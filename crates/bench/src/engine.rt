//! The rescoring engine over a tree of numbers of any size: `plant` makes a cell for each node, `settle` settles them too,
//! and `change` then gives 100 leaves another number and settles once more.
ghost use Rattle.std.specs.Prelude.{◌≡◌, ◌<◌, ◌^◌};

use crate::changes::{change_leaves, make_tree, plant_all};
use fpl_base::{Memory, ReadCount};
use std::alloc::Global;
use std::marker::Brand;
use std::sync::ledger::{Blank, Ledger};

const CHANGES: u32 = 100;

#[derive(Clone, Copy, PartialEq, Eq)]
enum Stage {
    Plant,
    Settle,
    Change,
}

/// How many nodes the settlings of a tree of so many nodes evaluated together.
pub fn told_of(alloc: Global, word: &str, size: u32) -> Option<u64> {
    let stage = stage_of(word)?;
    if size >= 1 << 31 {
        return None;
    }
    match measure::<Brand>(alloc, stage, size, Blank::new(1)) {
        Ok((first, second)) => Some((first as u64).saturating_add(second as u64)),
        Err(Memory) => None,
    }
}

fn stage_of(word: &str) -> Option<Stage> {
    match word {
        "plant" => Some(Stage::Plant),
        "settle" => Some(Stage::Settle),
        "change" => Some(Stage::Change),
        _ => None,
    }
}

// How many nodes were evaluated at first, and after the changes.
fn measure<L: Ledger>(
    alloc: Global,
    stage: Stage,
    size: u32,
    blank: Blank,
) -> Result<(usize, usize), Memory>
    requires size { size < 2 ^ 31 }
    requires name { blank.name ≡ L.name }
    requires parts { blank.parts ≡ L.parts }
    requires some { 0 < blank.parts }
{
    let mut steps = ReadCount::<L>::open(blank);
    let mut tree = make_tree(alloc, size)?;
    let mut cells = plant_all(alloc, &tree)?;
    if stage == Stage::Plant {
        return Ok((0, 0));
    }
    let first = cells.settle(&tree, &mut steps)?;
    let first = first.evaluated.as_slice().len();
    if stage == Stage::Settle {
        return Ok((first, 0));
    }
    change_leaves(&mut tree, &mut cells, CHANGES)?;
    let second = cells.settle(&tree, &mut steps)?;
    Ok((first, second.evaluated.as_slice().len()))
}
