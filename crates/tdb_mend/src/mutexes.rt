// Where the database of a file begins: at 0, or behind the mutexes that its header tells of.

ghost use Rattle.std.specs.Prelude.{◌≡◌, ◌+◌, ◌%◌, ◌<◌, ◌≤◌, IsTrue, IfOk, IfErr, drop};
ghost use Rattle.tdb_disk.specs.Count.{HasCause, HasCauseOf};
ghost use Rattle.tdb_disk.specs.History.{seen};
ghost use Rattle.tdb_words.specs.Header.{header_fault, header_order};
ghost use Rattle.tdb_space.specs.Form.{form_in, data_start as records_from};
ghost use Rattle.tdb_check.specs.Front.{is_short_length, Refuses};
ghost use Rattle.tdb_check.specs.declared.front.FrontRefusal.TheVariants.{Io};
ghost use Rattle.tdb_mend.specs.Mended.{HasHeader};
ghost use Rattle.tdb_mend.specs.Mutexes.{asks_features, database_at as begins_at, database_in, mutexes_end as end_of_mutexes, without_mutexes as unlocked};

use tdb_check::FrontRefusal;
use tdb_disk::{Disk, DiskFault};
use tdb_space::data_start;
use tdb_words::{Header, HeaderFault, Order, header_of, word_bytes, word_in};

/// How many bytes a header has.
pub(crate) const HEADER_LEN: usize = 168;

/// The version of the format, in the byte order of a file.
const VERSION: u32 = 0x2601_196D;

/// The offset of the word for features.
pub(crate) const FEATURES: usize = 60;

/// The word for features of a file that has mutexes and no other feature.
const ONLY_MUTEXES: u32 = 1;

/// The offset of the word that says how many bytes stand in front of the database.
const MUTEXES_LEN: usize = 64;

/// Where the database of a file begins, and what its header says.
#[derive(Clone, Copy)]
pub struct Database {
    /// The offset in the file, a multiple of 4.
    pub start: u64,

    /// What its header says.
    pub header: Header,
}

/// The byte order of a header.
fn order_in(bytes: &[u8; HEADER_LEN]) -> Order
    ensures { result ≡ header_order bytes.now }
{
    if word_in(bytes, 32, Order::Little) == VERSION {
        return Order::Little;
    }
    if word_in(bytes, 32, Order::Big) == VERSION {
        return Order::Big;
    }
    Order::Little
}

/// Where the mutexes end by a header, where it asks for these and for no other feature, and else 0.
fn mutexes_end(bytes: &[u8; HEADER_LEN]) -> u32
    ensures end { result ≡ end_of_mutexes bytes.now }
    ensures aligned { result % 4 ≡ 0 }
{
    let order = order_in(bytes);
    let start = word_in(bytes, MUTEXES_LEN, order);
    if word_in(bytes, FEATURES, order) == ONLY_MUTEXES && start % 4 == 0 {
        start
    } else {
        0
    }
}

/// Whether a header is refused for the features that it asks for.
fn has_features(bytes: &[u8; HEADER_LEN]) -> bool
    ensures { result ≡ asks_features (header_fault bytes.now) }
{
    matches!(header_of(bytes), Err(HeaderFault::Mutexes))
}

/// Where the database begins by a header: behind the mutexes, where it tells of these and of no other feature, and else
/// at 0.
pub(crate) fn database_at(bytes: &[u8; HEADER_LEN]) -> u32
    ensures start { result ≡ begins_at bytes.now }
    ensures aligned { result % 4 ≡ 0 }
{
    if !has_features(bytes) {
        return 0;
    }
    mutexes_end(bytes)
}

/// A header whose word for features is 0 where it tells of mutexes alone.
fn without_mutexes(bytes: &[u8; HEADER_LEN]) -> [u8; HEADER_LEN]
    ensures { result ≡ unlocked bytes.now }
{
    let mut header = *bytes;
    if database_at(bytes) != 0 {
        header[FEATURES..FEATURES + 4].copy_from_slice(&word_bytes(0, order_in(bytes)));
    }
    header
}

/// Where the database begins in a file of `len` bytes. It reads at most 168 bytes.
fn find_start<D: Disk>(d: &mut D, len: u64) -> Result<u64, DiskFault>
    requires length { len ≡ D.size d.old }
    ensures start { IfOk result (λ start. IsTrue D.tells → start ≡ begins_at (seen (D.history d.old))) }
    ensures aligned { IfOk result (λ start. start % 4 ≡ 0) }
    ensures size { D.size d.new ≡ D.size d.old }
    ensures history { D.history d.new ≡ D.history d.old }
    ensures cause { HasCause (D.faults d.old) (D.faults d.new) result }
    ensures syncs { D.syncs d.new ≡ D.syncs d.old }
{
    if len < HEADER_LEN as u64 {
        return Ok(0);
    }
    let mut bytes = [0u8; HEADER_LEN];
    d.read(0, &mut bytes)?;
    Ok(database_at(&bytes) as u64)
}

/// Whether a database of `len` bytes and of so many chains ends within a word, or before its records begin.
fn is_short(len: u64, chains: u32) -> bool
    ensures { result ≡ is_short_length chains len }
{
    len % 4 != 0 || len < data_start(chains)
}

/// What the header says of a database of `len` bytes that begins at an offset, or what is wrong with its front.
fn front_at<D: Disk>(d: &mut D, start: u64, len: u64) -> Result<Header, FrontRefusal>
    requires length { start + len ≡ D.size d.old }
    ensures sound { IfOk result (λ h. IsTrue D.tells → HasHeader (drop start (seen (D.history d.old))) h) }
    ensures chains { IfOk result (λ h. 0 < h.hash_size) }
    ensures long { IfOk result (λ h. records_from (form_in h) ≤ len) }
    ensures refused { IfErr result (λ e. IsTrue D.tells → Refuses (unlocked (drop start (seen (D.history d.old)))) e) }
    ensures size { D.size d.new ≡ D.size d.old }
    ensures history { D.history d.new ≡ D.history d.old }
    ensures cause { HasCauseOf Io (D.faults d.old) (D.faults d.new) result }
    ensures syncs { D.syncs d.new ≡ D.syncs d.old }
{
    if len < HEADER_LEN as u64 {
        return Err(FrontRefusal::Short { len });
    }
    let mut bytes = [0u8; HEADER_LEN];
    d.read(start, &mut bytes)?;
    let header = match header_of(&without_mutexes(&bytes)) {
        Ok(header) => header,
        Err(fault) => return Err(FrontRefusal::Header { fault }),
    };
    if is_short(len, header.hash_size) {
        return Err(FrontRefusal::Short { len });
    }
    Ok(header)
}

/// Where the database of a file begins, and what its header says; or what is wrong with its front. It begins at 0; but
/// where the header says that the file has mutexes, and asks for no other feature, it begins behind these, at the
/// offset that the word at 64 tells. There stands a header of its own, whose word for features counts as 0. It reads at
/// most 336 bytes, and writes nothing.
pub fn find_database<D: Disk>(d: &mut D) -> Result<Database, FrontRefusal>
    ensures start { IfOk result (λ b. IsTrue D.tells → b.start ≡ begins_at (seen (D.history d.old))) }
    ensures header { IfOk result (λ b. IsTrue D.tells → HasHeader (database_in (seen (D.history d.old))) b.header) }
    ensures chains { IfOk result (λ b. 0 < b.header.hash_size) }
    ensures aligned { IfOk result (λ b. b.start % 4 ≡ 0) }
    ensures long { IfOk result (λ b. b.start + records_from (form_in b.header) ≤ D.size d.old) }
    ensures refused { IfErr result (λ e. IsTrue D.tells → Refuses (unlocked (database_in (seen (D.history d.old)))) e) }
    ensures size { D.size d.new ≡ D.size d.old }
    ensures history { D.history d.new ≡ D.history d.old }
    ensures cause { HasCauseOf Io (D.faults d.old) (D.faults d.new) result }
    ensures syncs { D.syncs d.new ≡ D.syncs d.old }
{
    let len = d.len()?;
    let start = find_start(d, len)?;
    if len < start {
        return Err(FrontRefusal::Short { len: 0 });
    }
    let header = front_at(d, start, len - start)?;
    Ok(Database { start, header })
}
