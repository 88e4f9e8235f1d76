//! Who makes the calls of a message.

ghost use Rattle.std.specs.Prelude.{◌≡◌, ◌≤◌, length, take};
ghost use Rattle.lfs_fuse_calls.specs.Callers.{caller_of};

use lfs_fuse_wire::header::Header;
use lfs_types::cred::Cred;

/// At most 15 numbers from the front.
fn first_15<'a>(numbers: &'a [u32]) -> &'a [u32]
    ensures numbers { result.now ≡ take 15 numbers.now }
    ensures few { length result.now ≤ 15 }
{
    if numbers.len() <= 15 {
        return numbers;
    }
    &numbers[..15]
}

/// The user and the group of a message's header, with the first 15 of the other groups of its process. It is never init.
pub fn caller(header: &Header, others: &[u32]) -> Cred
    ensures { result ≡ caller_of header.now others.now }
{
    let others = first_15(others);
    let count = 1 + others.len();
    let mut groups = [header.gid; 16];
    groups[1..count].copy_from_slice(others);
    match Cred::new(header.uid, &groups[..count], false) {
        Ok(cred) => cred,
        // Never: there are at most 16 groups.
        Err(_) => unreachable!(),
    }
}
