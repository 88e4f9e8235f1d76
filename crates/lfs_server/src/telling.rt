//! What a session has asked and been answered: room for more, and what is kept.

ghost use Rattle.std.specs.Prelude.{◌≡◌, ◌<◌, ◌∷◌, ◌++◌, [], IfOk, OnOk, vec_len};
ghost use Rattle.std.specs.Vec.{vec_capacity};
ghost use Rattle.lfs_server.specs.Telling.{Adds, HasRoom};

use lfs_settle::transcripts::Transcript;
use lfs_types::answer::Answer;
use lfs_types::cred::Cred;
use lfs_types::request::Request;
use std::alloc::AllocError;

/// Makes room for a call more and for its answer, and copies what is asked.
pub fn make_room(transcript: &mut Transcript, request: &Request) -> Result<Request, AllocError>
    ensures copy { IfOk result (λ copy. copy ≡ request.now) }
    ensures session { transcript.new.session ≡ transcript.old.session }
    ensures calls { transcript.new.calls.items ≡ transcript.old.calls.items }
    ensures answers { transcript.new.answers.items ≡ transcript.old.answers.items }
    ensures room { OnOk result (HasRoom transcript.new) }
{
    transcript.calls.reserve(1)?;
    transcript.answers.reserve(1)?;
    request.try_clone(*transcript.calls.allocator())
}

/// Keeps a call and its answer, for which there is room.
pub fn keep(transcript: &mut Transcript, call: (Cred, Request), answer: Answer)
    requires { HasRoom transcript.old }
    ensures { Adds call answer transcript.old transcript.new }
{
    push_within(&mut transcript.calls, call);
    push_within(&mut transcript.answers, answer);
}

/// Pushes an item onto a vector that has room for it.
fn push_within<T: Drop>(items: &mut Vec<T>, item: T)
    requires { vec_len items.old < vec_capacity items.old }
    ensures { items.new.items ≡ items.old.items ++ item ∷ [] }
{
    match items.push(item) {
        Ok(()) => (),
        // Never: there is room, as is required.
        Err(_) => unreachable!(),
    }
}
