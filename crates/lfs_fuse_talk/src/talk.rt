//! Messages in, replies out: each is answered before the next is read.

ghost use Rattle.std.specs.Prelude.{◌≡◌, ◌≤◌, ◌⊎◌, ℕ, Bool, List, length, take, true, false, IfErr, IfOk, MatchOption, OnOk};
ghost use Rattle.std.specs.Io.KnownBytes.{Appends, IsAtEnd, Keeps};
ghost use Rattle.lfs_fuse_wire.specs.declared.framing.Frame.TheVariants.{Partial, Bad};
ghost use Rattle.lfs_fuse_talk.specs.Talking.{AreSent, HasAnswered, HasTalked, answering_of};
ghost use Rattle.lfs_fuse_talk.specs.Fronts.{IsMessage};
ghost use Rattle.lfs_fuse_talk.specs.Steps.{IsAnswered, IsSent, IsTalkFault};
ghost use Rattle.lfs_fuse_talk.specs.declared.fault.TalkFault.TheVariants.{Memory, Message};

use crate::fault::TalkFault;
use crate::inbox::{First, Inbox, Reading, front};
use std::alloc::{AllocError, Global};
use std::io::{ErrorKind, Read, Write};

/// Who answers messages.
pub trait Answerer {
    /// What comes of a message, with the bytes of its reply, none where it has no reply.
    ghost answers: { Self → List ℕ → List ℕ → Self → Type 0 };
    /// What is done behind a message.
    ghost rests: { Self → Self → Type 0 };
    /// Whether there was no fault by now that the talk outlives.
    ghost is_well: { Self → Bool };

    /// The reply to a message, without bytes where it has none. A fault that the talk outlives is told.
    fn answer<D: Write>(
        &mut self,
        alloc: Global,
        message: &[u8],
        teller: &mut D,
    ) -> Result<Vec<u8>, AllocError>
        ensures answered { IfOk result (λ reply.
            answers self.old message.now reply.items self.new) }
        ensures silent { OnOk result (is_well self.new ≡ true
            → (is_well self.old ≡ true) × (teller.new ≡ teller.old)) };

    /// Does what is to be done behind a message, whose reply is written. A fault that the talk outlives is told.
    fn rest<D: Write>(&mut self, alloc: Global, teller: &mut D) -> Result<(), AllocError>
        ensures rested { OnOk result (rests self.old self.new) }
        ensures silent { OnOk result (is_well self.new ≡ true
            → (is_well self.old ≡ true) × (teller.new ≡ teller.old)) };
}

/// How a talk ended.
#[derive(Clone, Copy, PartialEq, Eq, Debug)]
pub struct Talked {
    /// Whether each reply was written whole. One that can't be is lost: its caller was interrupted, or nobody is there.
    pub is_whole: bool,
    /// Whether the input was at its end. Else a read failed, as it does once a mount is gone.
    pub is_at_end: bool,
}

/// What was answered of bytes.
#[derive(Drop)]
struct Answered {
    /// What is left behind the messages.
    behind: Vec<u8>,
    /// Whether each reply was written whole.
    is_whole: bool,
}

/// Writes once, and says how many bytes were taken; none where the write failed.
fn write_once<W: Write>(writer: &mut W, bytes: &[u8]) -> Option<usize>
    ensures { MatchOption result (Keeps (W.contents writer.old) (W.contents writer.new))
        (λ count. (count ≤ length bytes.now)
        × Appends (W.contents writer.old) (W.contents writer.new) (take count bytes.now)) }
{
    match writer.write(bytes) {
        Ok(0) => None,
        Ok(count) => Some(count),
        Err(error) if error.kind() == ErrorKind::Interrupted => Some(0),
        Err(_) => None,
    }
}

/// Writes bytes, in one write where the writer takes them at once. Whether they were written whole.
fn write<W: Write>(writer: &mut W, reply: &[u8]) -> bool
    ensures { IsSent reply.now result (W.contents writer.old) (W.contents writer.new) }
{
    let mut rest = reply;
    for _ in 0..u64::MAX {
        if rest.is_empty() {
            return true;
        }
        let Some(count) = write_once(writer, rest) else {
            return false;
        };
        rest = &rest[count..];
    }
    false
}

/// Writes a reply, and lets the writer hand it on. Whether it was written whole.
fn send<W: Write>(writer: &mut W, reply: &[u8]) -> bool
    ensures { IsSent reply.now result (W.contents writer.old) (W.contents writer.new) }
{
    let is_written = write(writer, reply);
    let is_handed_on = writer.flush().is_ok();
    is_written & is_handed_on
}

/// Answers one message. Whether its reply was written whole.
fn answer<M: Answerer, W: Write, D: Write>(
    alloc: Global,
    answerer: &mut M,
    message: &[u8],
    writer: &mut W,
    teller: &mut D,
) -> Result<bool, TalkFault>
    ensures answered { IfOk result (λ is_whole. IsAnswered (answering_of M.answers M.rests)
        answerer.old answerer.new message.now is_whole
        (W.contents writer.old) (W.contents writer.new)) }
    ensures silent { OnOk result (M.is_well answerer.new ≡ true
        → (M.is_well answerer.old ≡ true) × (teller.new ≡ teller.old)) }
    ensures fault { IfErr result (λ fault. fault ≡ Memory) }
{
    let Ok(reply) = answerer.answer(alloc, message, teller) else {
        return Err(TalkFault::Memory);
    };
    let is_whole = send(writer, reply.as_slice());
    match answerer.rest(alloc, teller) {
        Ok(()) => Ok(is_whole),
        Err(AllocError) => Err(TalkFault::Memory),
    }
}

/// Answers each whole message, and gives what is left behind them.
fn answer_all<M: Answerer, W: Write, D: Write>(
    alloc: Global,
    answerer: &mut M,
    pending: &[u8],
    writer: &mut W,
    teller: &mut D,
) -> Result<Answered, TalkFault>
    ensures answered { IfOk result (λ answered. HasAnswered (answering_of M.answers M.rests) Partial
        answerer.old answerer.new pending.now answered.behind.items answered.is_whole
        (W.contents writer.old) (W.contents writer.new)) }
    ensures silent { OnOk result (M.is_well answerer.new ≡ true
        → (M.is_well answerer.old ≡ true) × (teller.new ≡ teller.old)) }
    ensures bad { IfErr result (λ fault. fault ≡ Message → (behind : List ℕ)
        × HasAnswered (answering_of M.answers M.rests) Bad
        answerer.old answerer.new pending.now behind false
        (W.contents writer.old) (W.contents writer.new)) }
    ensures fault { IfErr result IsTalkFault }
{
    let mut rest = pending;
    let mut is_whole = true;
    loop {
        match front(rest) {
            First::Message(message, behind) => {
                let is_sent = answer(alloc, answerer, message, writer, teller)?;
                rest = behind;
                is_whole = is_whole & is_sent;
            }
            First::Part => {
                return match Vec::from_slice(alloc, rest) {
                    Ok(behind) => Ok(Answered { behind, is_whole }),
                    Err(AllocError) => Err(TalkFault::Memory),
                };
            }
            First::Bad => return Err(TalkFault::Message),
        }
    }
}

/// Answers messages up to the end of the input, or to a read that fails, as it does once the mount is gone.
///
/// # Errors
///
/// `Message` where what is read is no message; `Memory` where a growth is refused.
pub fn talk<M: Answerer, R: Read, W: Write, D: Write>(
    alloc: Global,
    answerer: &mut M,
    reader: &mut R,
    writer: &mut W,
    teller: &mut D,
) -> Result<Talked, TalkFault>
    ensures talked { IfOk result (λ talked. HasTalked (answering_of M.answers M.rests) Partial
        answerer.old answerer.new talked.is_whole (R.remaining reader.old) (R.remaining reader.new)
        (W.contents writer.old) (W.contents writer.new)) }
    ensures silent { OnOk result (M.is_well answerer.new ≡ true
        → (M.is_well answerer.old ≡ true) × (teller.new ≡ teller.old)) }
    ensures end { IfOk result (λ talked. talked.is_at_end ≡ true
        → IsAtEnd (R.remaining reader.new)) }
    ensures bad { IfErr result (λ fault. fault ≡ Message
        → HasTalked (answering_of M.answers M.rests) Bad
        answerer.old answerer.new false (R.remaining reader.old) (R.remaining reader.new)
        (W.contents writer.old) (W.contents writer.new)) }
    ensures fault { IfErr result IsTalkFault }
{
    let Ok(mut inbox) = Inbox::new(alloc) else {
        return Err(TalkFault::Memory);
    };
    let mut is_whole = true;
    for _ in 0..u64::MAX {
        let Ok(reading) = inbox.read(reader) else {
            return Err(TalkFault::Memory);
        };
        match reading {
            Reading::Bytes => {
                let pending = inbox.unanswered();
                let answered = answer_all(alloc, answerer, pending, writer, teller)?;
                is_whole = is_whole & answered.is_whole;
                inbox.keep(answered.behind);
            }
            Reading::End => {
                return Ok(Talked {
                    is_whole,
                    is_at_end: true,
                });
            }
            Reading::Failed => {
                return Ok(Talked {
                    is_whole,
                    is_at_end: false,
                });
            }
        }
    }
    Ok(Talked {
        is_whole,
        is_at_end: false,
    })
}
