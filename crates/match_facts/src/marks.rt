// Which players may have a line in a sheet, told by the remainder of their ids, so that most who have none are known by
// one look.
ghost use Rattle.std.specs.Prelude.{◌≡◌, ◌%◌, replicate, slice_index_or, slice_set, true, false};

use fpl_base::PlayerId;

/// A mark for each remainder.
pub type Marks = [bool; 256];

/// No mark.
pub fn no_marks() -> Marks
    ensures { result ≡ replicate 256 false }
{
    [false; 256]
}

/// Whether the remainder of a player's id is marked.
pub fn is_marked(marks: &Marks, player: PlayerId) -> bool
    ensures { result ≡ slice_index_or marks.now (player % 256) false }
{
    marks[(player.get() % 256) as usize]
}

/// Marks the remainder of a player's id.
pub fn mark(marks: &mut Marks, player: PlayerId)
    ensures { marks.new ≡ slice_set marks.old (player % 256) true }
{
    marks[(player.get() % 256) as usize] = true;
}
