//! All tables, and the first row of each that doesn't go as it says.

use crate::cursors::{leaves, moves, pairs, purges};
use crate::owner::{asked, cases, faults as calls};
use crate::plain::{faults, lines, wipes};
use crate::rows::failing;
use crate::turns::{commits, counts, inside, starts};
use crate::txn::{commits as plans, stops, views};

#[test]
fn commands_and_cursors_go_turn_by_turn(rt: HostRuntime) {
    let alloc = rt.alloc();
    for (table, failing) in [
        ("plain commands", failing(alloc, &lines::LINES)),
        ("calls that fail in them", failing(alloc, &faults::CASES)),
        ("wipes", failing(alloc, &wipes::WIPES)),
        ("moves", failing(alloc, &moves::MOVES)),
        ("purges", failing(alloc, &moves::PURGES)),
        ("leaves", failing(alloc, &leaves::LEAVES)),
        ("calls that fail in them", failing(alloc, &leaves::FAULTS)),
        ("walks", failing(alloc, &leaves::WALKS)),
        ("what two openers do", failing(alloc, &pairs::PAIRS)),
        (
            "purges with calls that fail",
            failing(alloc, &purges::PURGED),
        ),
    ] {
        assert_eq!(rt; failing, None, "{table}");
    }
}

#[test]
fn transactions_begin_and_end(rt: HostRuntime) {
    let alloc = rt.alloc();
    for (table, failing) in [
        ("commits", failing(alloc, &plans::COMMITS)),
        ("stops", failing(alloc, &stops::STOPS)),
        ("views", failing(alloc, &views::VIEWS)),
        ("nested transactions", failing(alloc, &views::NESTED)),
        ("starts", failing(alloc, &starts::STARTS)),
        ("turns of commits", failing(alloc, &commits::CASES)),
        ("commands inside", failing(alloc, &inside::CASES)),
        ("reads that fail inside", failing(alloc, &inside::FAULTS)),
        ("counted locks", failing(alloc, &counts::COUNTS)),
        ("commands of an owner", failing(alloc, &cases::CASES)),
        ("what it tells", failing(alloc, &asked::ASKED)),
        ("want of memory", failing(alloc, &asked::STARVED)),
        ("syncs that fail", failing(alloc, &calls::SYNCS)),
        ("calls that fail", failing(alloc, &calls::CALLS)),
    ] {
        assert_eq!(rt; failing, None, "{table}");
    }
}
