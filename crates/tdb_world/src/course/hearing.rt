//! What logs are told of the lines of a report.
ghost use Rattle.std.specs.Prelude.{◌≡◌, ◌≤◌, ◌++◌, ◌-◌, ◌∷◌, [], List, length, drop, OnOk, OnErr, IfErr};
ghost use Rattle.tdb_log.specs.Logs.{but_last};
ghost use Rattle.tdb_commands.specs.declared.line.Line.TheVariants.{LogsLeft};
ghost use Rattle.tdb_openers.specs.declared.fault.RunFault.TheVariants as Faults;
ghost use Rattle.tdb_world.specs.Courses.Hearing.{notice_of, HeardNotices};

use tdb_commands::{Line, TurnReport};
use tdb_log::{LogRefusal, Logs, Notice};
use tdb_openers::{RunFault, put_line};

/// The notice that tells what a line does, if logs are told of it.
fn notice_of(line: &Line) -> Option<Notice>
    ensures { result ≡ notice_of line.now }
{
    match *line {
        Line::Grew { from, to } => Some(Notice::Grew { from, to }),
        Line::Died { who } => Some(Notice::Died { opener: who }),
        Line::Undone { bytes, .. } => Some(Notice::Recovered { bytes }),
        _ => None,
    }
}

/// Tells the last log of the lines of a report from a place on, none of which drops a log.
pub(crate) fn tell_logs<L: Logs>(
    report: &TurnReport,
    from: usize,
    logs: &mut L,
) -> Result<(), LogRefusal>
    ensures heard { HeardNotices (drop from report.now.lines) (L.logs logs.old) (L.logs logs.new) result }
{
    for i in from..report.len() {
        let Some(line) = report.get(i) else {
            unreachable!();
        };
        if let Some(notice) = notice_of(line) {
            logs.note(&notice)?;
        }
    }
    Ok(())
}

/// Drops the last log, where there is one, and tells how many are left.
pub(crate) fn drop_log<L: Logs>(report: &mut TurnReport, logs: &mut L) -> Result<(), RunFault>
    ensures dropped { OnOk result ((report.new.lines ≡ report.old.lines ++ LogsLeft (length (L.logs logs.old) - 1) ∷ []) × (L.logs logs.new ≡ but_last (L.logs logs.old))) }
    ensures kept { OnErr result ((report.new.lines ≡ report.old.lines) × (logs.new ≡ logs.old)) }
    ensures memory { IfErr result (λ e. e ≡ Faults.Memory) }
{
    report.reserve(1)?;
    let count = logs.drop_last() as u64;
    put_line(report, Line::LogsLeft { count });
    Ok(())
}
