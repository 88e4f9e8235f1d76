//! A short list of keys, newest first.
ghost use Rattle.std.specs.Prelude.{◌≡◌, ◌<◌, ◌∷◌, vec_len, vec_capacity, length};
ghost use Rattle.lfs_cache.specs.Frames.{names_without};

use crate::key::{Key, same};

/// Takes a key off the list.
pub(crate) fn drop_name(names: &mut Vec<Key>, key: Key)
    ensures items { names.new.items ≡ names_without key names.old.items }
    ensures capacity { vec_capacity names.new ≡ vec_capacity names.old }
{
    for place in 0..names.len() {
        if same(names[place], key) {
            let _dropped = names.remove(place);
            return;
        }
    }
}

/// Puts a key first on a list that has room.
pub(crate) fn name_first(names: &mut Vec<Key>, key: Key)
    requires { length names.old.items < vec_capacity names.old }
    ensures items { names.new.items ≡ key ∷ names.old.items }
    ensures capacity { vec_capacity names.new ≡ vec_capacity names.old }
{
    match names.insert(0, key) {
        Ok(()) => {}
        // Never: there is room, as is required.
        Err(_) => unreachable!(),
    }
}
