// The records of one kind.
ghost use Rattle.std.specs.Prelude.{◌≡◌, ◌≤◌, ◌-◌, drop, filter, length, take};
ghost use Rattle.fpl_base.specs.Keeping.{KeysRise};
ghost use Rattle.season_restoring.specs.Kinds.{is_of_kind};

use stored_records::Kept;

// The records of a kind, in the order of their keys.
pub fn of_kind(rows: &[Kept], kind: u8) -> &[Kept]
    requires { KeysRise rows.now }
    ensures kept { result.now ≡ filter (is_of_kind kind) rows.now }
    ensures rise { KeysRise result.now }
{
    let first = rows.partition_point(|row| row.key().kind < kind);
    let end = rows.partition_point(|row| row.key().kind <= kind);
    cut(rows, first, end)
}

// The records from one place on and before another.
fn cut(rows: &[Kept], first: usize, end: usize) -> &[Kept]
    requires { end ≤ length rows.now }
    ensures { result.now ≡ take (end - first) (drop first rows.now) }
{
    if first < end { &rows[first..end] } else { &[] }
}
