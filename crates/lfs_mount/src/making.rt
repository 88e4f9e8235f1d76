//! Calls of a message, made on a volume one after another.

ghost use Rattle.std.specs.Prelude.{◌≡◌, ◌++◌, ◌∷◌, [], ◌<◌, ◌≤◌, vec_len, IfSome, IfNone};
ghost use Rattle.std.specs.Vec.{vec_capacity};
ghost use Rattle.lfs_mount.specs.Making.{AreMade};

use lfs_fuse_calls::shown::{is_full, wanted_by};
use lfs_types::answer::Answer;
use lfs_types::cred::Cred;
use lfs_types::request::Request;
use lfs_types::store::FileStore;
use lfs_volume::volume::Volume;
use std::alloc::Global;

/// The session of each call.
const SESSION: u8 = 0;

/// Makes calls as this caller, one after another, up to the first that isn't served in full, and
/// gives their answers. Room for these is asked for before the first call, and without it none is
/// made.
pub(crate) fn make<F: FileStore + Drop>(
    alloc: Global,
    volume: &mut Volume<F>,
    cred: &Cred,
    requests: Vec<Request>,
) -> Option<Vec<Answer>>
    ensures made { IfSome result (λ answers. AreMade F.state F.is_flushed cred.now requests.items
        answers.items volume.old volume.new) }
    ensures none { IfNone result (volume.new ≡ volume.old) }
{
    let Ok(mut answers) = Vec::with_capacity(alloc, requests.len()) else {
        return None;
    };
    for request in requests {
        let wanted = wanted_by(&request);
        let answer = volume.call(SESSION, cred, request);
        let goes_on = is_full(wanted, &answer);
        push_within(&mut answers, answer);
        if !goes_on {
            return Some(answers);
        }
    }
    Some(answers)
}

/// Pushes an item onto a vector that has room for it.
fn push_within<T: Drop>(items: &mut Vec<T>, item: T)
    requires { vec_len items.old < vec_capacity items.old }
    ensures pushed { items.new.items ≡ items.old.items ++ item ∷ [] }
    ensures room { vec_capacity items.old ≤ vec_capacity items.new }
{
    match items.push(item) {
        Ok(()) => (),
        // Never: there is room, as is required.
        Err(_) => unreachable!(),
    }
}
