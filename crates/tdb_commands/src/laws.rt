// How the law of reports names what the code names.

ghost use Rattle.tdb_commands.specs.Named.{EachCommand, EachReply, EachTurn, EachPlay, EachLine};

/// Each command, reply, turn, play and line of the law is that of one of the code, where openers have numbers from 1
/// on. The law is over the definitions alone; the function does nothing.
pub fn law_names()
    ensures commands { EachCommand }
    ensures replies { EachReply }
    ensures turns { EachTurn }
    ensures plays { EachPlay }
    ensures lines { EachLine }
{}
