//! Both hashes of a buffer.

ghost use Rattle.std.specs.Prelude.{◌≡◌, ◌*◌, ◌<◌, ◌≤◌, length, vec_len, IfOk};

use std::alloc::{AllocError, Global};
use std::time::Instant;
use tdb_words::{HashKind, hash_of};

/// The bytes of a MiB.
const MIB: usize = 1_048_576;

/// The most MiB that are hashed.
const MOST: usize = 1024;

/// Bytes of a linear congruential generator.
fn noise(alloc: Global, mib: usize) -> Result<Vec<u8>, AllocError>
    requires { mib ≤ MOST }
    ensures { IfOk result (λ bytes. vec_len bytes ≡ mib * MIB) }
{
    let mut bytes = vec![in alloc; 0u8; mib * MIB]?;
    let mut state = 1u32;
    for byte in &mut bytes {
        state = state.wrapping_mul(1_664_525).wrapping_add(1_013_904_223);
        *byte = (state >> 24) as u8;
    }
    Ok(bytes)
}

/// Hashes so many MiB, one unless a count is asked for, by both hashes. Where it is, it also prints how long each took.
pub(crate) fn measure(rt: HostRuntime, asked: Option<u32>) -> anyhow::Result<()> {
    let mib = asked.unwrap_or(1) as usize;
    if mib > MOST {
        anyhow::bail!("the size is above {MOST} MiB");
    }
    let bytes = noise(rt.alloc(), mib)?;
    for kind in [HashKind::Old, HashKind::Jenkins] {
        let start = Instant::now(&rt)?;
        let hash = hash_of(kind, &bytes);
        let took = start.elapsed(&rt)?;
        println!(rt; "{kind:?} {hash:08X}")?;
        if asked.is_some() {
            println!(rt; "{} ms", took.as_millis())?;
        }
    }
    Ok(())
}
