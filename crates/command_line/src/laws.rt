// Laws on the definitions.
ghost use Rattle.command_line.specs.Lines.{AreOrdered, read_lines, unread_lines};

/// Telling lines order what one who types them expects, and the others nothing.
pub fn lines_order_what_they_say()
    ensures read { AreOrdered read_lines }
    ensures unread { AreOrdered unread_lines }
{}
