// The keeper over a file.
ghost use Rattle.std.specs.Prelude.{◌≡◌, ℕ, IfOk};
ghost use Rattle.sqlite_wal.specs.Files.{image_at};
ghost use Rattle.fpl_base.specs.Keeping.{Map};
ghost use Rattle.file_keeper.specs.Opening.{FilesTell};

use crate::cause::Cause;
use crate::opening::StoreFiles;
use fpl_base::{Keeper, Text};
use record_keepers::{PathKeeper, WithKeeper, work_over};
use sqlite::{Start, Unknown};

/// A keeper over the file of a path. `S` stands for what the file and its log held before it was opened, which no code can
/// read.
pub type FileKeeper<'a, S> = PathKeeper<StoreFiles<'a, S>>;

/// A keeper over the file of this path, which is opened now or, where it can't be, by the first load. Why the last opening
/// failed is kept in `cause`.
pub fn file_at<'a, S: Start>(
    rt: &'a HostRuntime,
    cause: &'a Cause,
    path: Text,
    start: S,
) -> FileKeeper<'a, S>
    ensures path { (result.path ≡ path) × (result.faults ≡ 0) }
    ensures holds { ⟦<FileKeeper<'a, S> as Keeper>⟧.tells result → (m : Map)
        → FilesTell (image_at S.Start) m → ⟦<FileKeeper<'a, S> as Keeper>⟧.holds result m }
    ensures passes { ⟦<FileKeeper<'a, S> as Keeper>⟧.tells result → (m : Map)
        → FilesTell (image_at S.Start) m → (x : Map)
        → ⟦<FileKeeper<'a, S> as Keeper>⟧.passes result x → x ≡ m }
{
    PathKeeper::at(StoreFiles::new(rt, cause, start), path)
}

/// Does something over the store in the file of this path, which is opened, or made, before it begins. Why the last opening of
/// it failed is kept in `cause`.
pub fn with_file<W: WithKeeper>(rt: &HostRuntime, cause: &Cause, path: Text, work: W) -> u8
    requires { W.may work }
    ensures { (faults : ℕ) × W.ends work path 0 faults result }
{
    over_file_at(rt, cause, path, Unknown, work)
}

/// The same where the store is opened by the first call of its keeper.
pub fn with_file_behind<W: WithKeeper>(rt: &HostRuntime, cause: &Cause, path: Text, work: W) -> u8
    requires { W.may work }
    ensures { (faults : ℕ) × W.ends work path 0 faults result }
{
    over_shut_file(rt, cause, path, Unknown, work)
}

// Does it over the keeper of the file of this path.
fn over_file_at<W: WithKeeper, S: Start>(
    rt: &HostRuntime,
    cause: &Cause,
    path: Text,
    start: S,
    work: W,
) -> u8
    requires { W.may work }
    ensures { (faults : ℕ) × W.ends work path 0 faults result }
{
    work_over(file_at(rt, cause, path, start), work)
}

// Does it over the keeper of the file of this path, of which nothing is open.
fn over_shut_file<W: WithKeeper, S: Start>(
    rt: &HostRuntime,
    cause: &Cause,
    path: Text,
    start: S,
    work: W,
) -> u8
    requires { W.may work }
    ensures { (faults : ℕ) × W.ends work path 0 faults result }
{
    work_over(
        PathKeeper::shut(StoreFiles::new(rt, cause, start), path),
        work,
    )
}
