// Rows as the commands that they order.
ghost use Rattle.std.specs.Prelude.{◌≡◌, ◌++◌, OnOk, map};
ghost use Rattle.season_book.specs.declared.command.Command.{Command};

use fpl_base::Memory;
use season_book::Command;

// A row that orders a command.
pub(crate) trait Ordered: Sized + Drop {
    /// The command.
    ghost ordered: { Self → Command };

    fn ordered(self) -> Command
        ensures { result ≡ ordered self };
}

// Puts the commands of rows behind these.
pub(crate) fn put_orders<R: Ordered>(
    commands: &mut Vec<Command>,
    rows: Vec<R>,
) -> Result<(), Memory>
    ensures { OnOk result (commands.new.items ≡ commands.old.items ++ map R.ordered rows.items) }
{
    for row in rows {
        commands.push(row.ordered())?;
    }
    Ok(())
}
