// The words of a session: one arm for each.

ghost use Rattle.std.specs.Prelude.{◌≡◌};
ghost use Rattle.tdb_script.specs.Rows.{row_of};
ghost use Rattle.tdb_tool.specs.Rows.{bare_orders, key_orders, value_orders};

use crate::order::Order;
use tdb_commands::Command;
use tdb_dump::Listing;
use tdb_script::text_of;
use tdb_steps::Flag;
use tdb_words::Bytes;

/// The order that is one word.
pub(crate) fn bare_order(name: &[u8]) -> Option<Order>
    ensures { result ≡ row_of bare_orders name.now }
{
    let Some(text) = text_of(name) else {
        return None;
    };
    match text {
        "erase" => Some(Order::Take(Command::Wipe)),
        "check" => Some(Order::Take(Command::Check)),
        "first" => Some(Order::Take(Command::First)),
        "next" => Some(Order::Take(Command::Next)),
        "dump" => Some(Order::List(Listing::Pairs)),
        "keys" => Some(Order::List(Listing::Keys)),
        "hexkeys" => Some(Order::List(Listing::HexKeys)),
        "transaction_start" => Some(Order::Take(Command::Start)),
        "transaction_commit" => Some(Order::Take(Command::Commit)),
        "transaction_cancel" => Some(Order::Take(Command::Cancel)),
        "quit" => Some(Order::Quit),
        _ => None,
    }
}

/// The order on a key.
pub(crate) fn key_order(name: &[u8], key: Bytes) -> Option<Order>
    ensures { result ≡ row_of (key_orders key) name.now }
{
    let Some(text) = text_of(name) else {
        return None;
    };
    match text {
        "show" => Some(Order::Take(Command::Fetch { key })),
        "delete" => Some(Order::Take(Command::Delete { key })),
        _ => None,
    }
}

/// The order on a key and a value.
pub(crate) fn value_order(name: &[u8], key: Bytes, value: Bytes) -> Option<Order>
    ensures { result ≡ row_of (value_orders key value) name.now }
{
    let Some(text) = text_of(name) else {
        return None;
    };
    let flag = match text {
        "store" => Flag::Replace,
        "storehex" => Flag::Replace,
        "insert" => Flag::Insert,
        _ => return None,
    };
    Some(Order::Take(Command::Store { key, value, flag }))
}
