//! What answers show.

ghost use Rattle.std.specs.Prelude.{◌≡◌, IfOk};
ghost use Rattle.lfs_fuse_calls.specs.Shown.{all_bytes, bytes_shown, is_full, is_served, wanted_by};

use lfs_types::answer::{Answer, Served};
use lfs_types::request::Request;
use std::alloc::{AllocError, Global};

/// The bytes that an answer shows.
fn bytes_shown<'a>(answer: &'a Answer) -> &'a [u8]
    ensures { result.now ≡ bytes_shown answer.now }
{
    match answer {
        Answer::Served(Served::Bytes(bytes)) => bytes.as_slice(),
        _ => &[],
    }
}

/// The bytes that answers show, one behind the other.
pub fn all_bytes(alloc: Global, answers: &[Answer]) -> Result<Vec<u8>, AllocError>
    ensures { IfOk result (λ bytes. bytes.items ≡ all_bytes answers.now) }
{
    let mut bytes = Vec::new(alloc);
    for answer in answers {
        bytes.extend_from_slice(bytes_shown(answer))?;
    }
    Ok(bytes)
}

/// Whether an answer is served.
pub fn is_served(answer: &Answer) -> bool
    ensures { result ≡ is_served answer.now }
{
    matches!(answer, Answer::Served(_))
}

/// How many bytes a call wants to be shown.
pub fn wanted_by(request: &Request) -> Option<u32>
    ensures { result ≡ wanted_by request.now }
{
    match request {
        Request::Read { len, .. } => Some(*len),
        _ => None,
    }
}

/// Whether an answer is served, with all the bytes that were wanted: then the next call of a message is made.
pub fn is_full(wanted: Option<u32>, answer: &Answer) -> bool
    ensures { result ≡ is_full wanted answer.now }
{
    if !is_served(answer) {
        return false;
    }
    match wanted {
        None => true,
        Some(count) => bytes_shown(answer).len() == count as usize,
    }
}
