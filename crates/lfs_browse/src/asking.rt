//! A call of one who looks.

ghost use Rattle.std.specs.Prelude.{◌∷◌, []};
ghost use Rattle.lfs_volume.specs.Cleanings.{cleaner_of};
ghost use Rattle.lfs_browse.specs.Asking.{Asks};

use lfs_audit::asker::Asker;
use lfs_types::answer::Answer;
use lfs_types::cleaned::CleanedStore;
use lfs_types::request::Request;
use lfs_volume::volume::Volume;

/// Makes a call, which is entered as any.
pub(crate) fn ask<F: CleanedStore + Drop>(
    volume: &mut Volume<F>,
    asker: &Asker,
    request: Request,
) -> Answer
    ensures { Asks (cleaner_of F.state F.is_flushed F.made F.cleaner)
        volume.old volume.new asker.now (request ∷ []) (result ∷ []) }
{
    volume.call(asker.session, &asker.cred, request)
}
