//! What a file holds, as text.

ghost use Rattle.std.specs.Prelude.{◌≡◌, ◌*◌, ◌<◌, ◌∷◌, ◌++◌, [], option_copied, IfOk, OnOk};
ghost use Rattle.lfs_types.specs.declared.request.Request.TheVariants as calls;
ghost use Rattle.lfs_volume.specs.Cleanings.{cleaner_of};
ghost use Rattle.lfs_browse.specs.Asking.{Asks};
ghost use Rattle.lfs_browse.specs.Content.{bytes_of, end_text, is_whole};
ghost use Rattle.lfs_browse.specs.Looks.{TellsLook};
ghost use Rattle.lfs_browse.specs.Spelled.{spelled};
ghost use Rattle.lfs_browse.specs.Steps.{HasRead};
ghost use Rattle.lfs_hearing.specs.declared.look.Look.TheVariants.{Content};

use crate::asking::ask;
use crate::spelling::push_spelled;
use lfs_audit::asker::Asker;
use lfs_print::print::append_answer;
use lfs_types::answer::{Answer, Served};
use lfs_types::cleaned::CleanedStore;
use lfs_types::limits::TRANSFER_BYTES;
use lfs_types::path::Path;
use lfs_types::request::Request;
use lfs_volume::volume::Volume;
use std::alloc::AllocError;

/// So many pieces of a file are read: as many calls as a line may ask for.
const MOST_PIECES: u64 = 107;

/// Reads a file in pieces, and appends its bytes as text.
///
/// # Errors
///
/// Memory ran out; some of the calls may have been made.
pub(crate) fn tell_content<F: CleanedStore + Drop>(
    volume: &mut Volume<F>,
    asker: &Asker,
    path: &Path,
    text: &mut Vec<u8>,
) -> Result<(), AllocError>
    ensures { OnOk result (TellsLook (cleaner_of F.state F.is_flushed F.made F.cleaner)
        volume.old volume.new asker.now Content path.now text.old.items text.new.items) }
{
    let mut bytes = Vec::new(*text.allocator());
    let last = read_pieces(volume, asker, path, &mut bytes)?;
    let told = push_content(text, asker.session, bytes.as_slice(), &last);
    drop(last);
    told
}

/// Appends the bytes of a file as text, and why there are no more.
fn push_content(
    out: &mut Vec<u8>,
    session: u8,
    bytes: &[u8],
    last: &Option<Answer>,
) -> Result<(), AllocError>
    ensures { OnOk result (out.new.items
        ≡ (out.old.items ++ spelled bytes.now) ++ end_text session last.now) }
{
    push_spelled(out, bytes)?;
    match last {
        None => out.extend_from_slice(
            b" cut short behind 438272 bytes, of which read tells more\n",
        ),
        Some(Answer::Served(_)) => Ok(()),
        Some(answer) => append_answer(out, session, answer),
    }
}

/// Reads a file in pieces, up to one that isn't whole, whose answer is given, and appends their bytes.
fn read_pieces<F: CleanedStore + Drop>(
    volume: &mut Volume<F>,
    asker: &Asker,
    path: &Path,
    bytes: &mut Vec<u8>,
) -> Result<Option<Answer>, AllocError>
    ensures { IfOk result (λ last. HasRead (cleaner_of F.state F.is_flushed F.made F.cleaner)
        volume.old volume.new asker.now path.now last bytes.old.items bytes.new.items) }
{
    for piece in 0..MOST_PIECES {
        let asked = path.try_clone(*bytes.allocator())?;
        let answer = read_piece(volume, asker, asked, piece);
        push_bytes_of(bytes, &answer)?;
        if !is_whole(&answer) {
            return Ok(Some(answer));
        }
        drop(answer);
    }
    Ok(None)
}

/// Reads a piece of a file, counted from 0.
fn read_piece<F: CleanedStore + Drop>(
    volume: &mut Volume<F>,
    asker: &Asker,
    path: Path,
    piece: u64,
) -> Answer
    requires { piece < 107 }
    ensures { Asks (cleaner_of F.state F.is_flushed F.made F.cleaner)
        volume.old volume.new asker.now
        (calls.Read path (4096 * piece) 4096 ∷ []) (result ∷ []) }
{
    let request = Request::Read {
        path,
        off: TRANSFER_BYTES as u64 * piece,
        len: TRANSFER_BYTES as u32,
    };
    ask(volume, asker, request)
}

/// Appends the bytes that a Read served.
fn push_bytes_of(out: &mut Vec<u8>, answer: &Answer) -> Result<(), AllocError>
    ensures { OnOk result (out.new.items ≡ out.old.items ++ bytes_of answer.now) }
{
    match answer {
        Answer::Served(Served::Bytes(bytes)) => out.extend_from_slice(bytes.as_slice()),
        _ => Ok(()),
    }
}

/// Whether a Read served all that it asked for.
fn is_whole(answer: &Answer) -> bool
    ensures { result ≡ is_whole answer.now }
{
    match answer {
        Answer::Served(Served::Bytes(bytes)) => bytes.as_slice().len() == TRANSFER_BYTES,
        _ => false,
    }
}
