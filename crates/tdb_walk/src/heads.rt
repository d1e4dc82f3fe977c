// The heads of the chains.

ghost use Rattle.std.specs.Prelude.{◌≡◌, ◌+◌, ◌-◌, ◌*◌, ◌≤◌, ◌<◌, ◌^◌, IsTrue, IfOk, IfSome, length};
ghost use Rattle.tdb_disk.specs.Count.{HasCause, RoseUpTo};
ghost use Rattle.tdb_space.specs.Frame.{Looked};
ghost use Rattle.tdb_space.specs.Form.{data_start};
ghost use Rattle.tdb_walk.specs.Heads.{IsFirstWord, IsFirstFilled, heads_read};

use tdb_space::{Io, Space, chain_head};
use tdb_words::{Order, word_in};

/// How many heads are read at once.
const HEADS: u32 = 1024;

/// The head of a chain that has a record.
#[derive(Clone, Copy)]
pub(crate) struct Head {
    /// The number of the chain.
    pub(crate) chain: u32,

    /// The offset of its first record.
    pub(crate) first: u32,
}

/// The first of these heads that isn't 0, where the first one is that of a chain.
fn first_word(heads: &[u8], count: u32, chain: u32, order: Order) -> Option<Head>
    requires block { length heads.now ≡ 4 * count }
    requires numbers { chain + count < 2 ^ 32 }
    ensures { IsFirstWord order heads.now count chain result }
{
    for i in 0..count {
        let first = word_in(heads, 4 * i as usize, order);
        if first != 0 {
            return Some(Head {
                chain: chain + i,
                first,
            });
        }
    }
    None
}

/// The first chain from a number on that has a record. It reads up to 1024 heads at once.
pub(crate) fn first_filled<S: Space>(s: &mut S, len: u64, from: u32) -> Result<Option<Head>, Io>
    requires length { len ≡ S.size s.old }
    requires heads { data_start (S.form s.old) ≤ len }
    ensures found { IfOk result (λ found. IsTrue S.tells → IsFirstFilled (S.form s.old) (S.image s.old) from found) }
    ensures within { IfOk result (λ found. IfSome found (λ head. (from ≤ head.chain) × (head.chain < (S.form s.old).chains))) }
    ensures looked { Looked S.Space s.old s.new }
    ensures cause { HasCause (S.faults s.old) (S.faults s.new) result }
    ensures cost { IfOk result (λ found. RoseUpTo (heads_read (S.form s.old).chains from found) (S.bytes_read s.old) (S.bytes_read s.new)) }
    ensures bytes_read { RoseUpTo (4 * ((S.form s.old).chains - from)) (S.bytes_read s.old) (S.bytes_read s.new) }
{
    let chains = s.hash_size();
    let order = s.order();
    let mut block = [0u8; 4096];
    let mut chain = from;
    while chain < chains {
        let count = HEADS.min(chains - chain);
        let heads = &mut block[..4 * count as usize];
        s.read(chain_head(chain), heads)?;
        if let Some(head) = first_word(heads, count, chain, order) {
            return Ok(Some(head));
        }
        chain += count;
    }
    Ok(None)
}
