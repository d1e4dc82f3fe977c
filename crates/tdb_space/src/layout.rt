// Where the heads of the lists stand, and where the records begin.

ghost use Rattle.std.specs.Prelude.{◌≡◌, ◌+◌, ◌*◌};
ghost use Rattle.tdb_space.specs.Form.{chain_head};

/// The offset in bytes of the word that leads to the first record of the free list: it follows the header.
pub const FREE_HEAD: u32 = 168;

/// The offset in bytes of the word that leads to the first record of a chain. The heads follow that of the free list.
pub fn chain_head(chain: u32) -> u64
    ensures { result ≡ chain_head chain }
{
    172 + 4 * chain as u64
}

/// The offset in bytes at which the records of a file of so many chains begin, behind the last head.
pub fn data_start(chains: u32) -> u64
    ensures { result ≡ 168 + 4 * (chains + 1) }
{
    chain_head(chains)
}
