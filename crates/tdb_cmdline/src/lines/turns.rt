// How turns open their file.

ghost use Rattle.std.specs.Prelude.{◌≡◌, ◌≤◌, IfSome};
ghost use Rattle.tdb_cmdline.specs.Lines.Turns.{options_in};

use crate::options::Line;
use tdb_openers::Options;

/// How the file is opened, by the options that were given.
pub(crate) fn options_in(line: &Line) -> Option<Options>
    ensures read { result ≡ options_in line.now }
    ensures fits { IfSome result (λ options. options.limit ≤ 4294963200) }
{
    let limit = line.limit()?;
    Some(Options {
        limit,
        nesting: !line.has("--no-nesting"),
        read_only: line.has("--read-only"),
        seqnum: line.has("--seqnum"),
    })
}
