//! The cleaner's calls over a store.

ghost use Rattle.std.specs.Prelude.{◌≡◌, ◌^◌, ◌<◌, ◌≤◌, List, Ok, Err, IfSome, MatchResult, Some, length};
ghost use Rattle.lfs_types.specs.Caller.{Caller};
ghost use Rattle.lfs_types.specs.Cleaned.{IsListingFault, ifile_size};
ghost use Rattle.lfs_types.specs.StoreStates.{MovesBase};
ghost use Rattle.lfs_types.specs.declared.cleaner.BlockInfo.{BlockInfo};
ghost use Rattle.lfs_model.specs.Runs.{outcome_of};
ghost use Rattle.lfs_volume.specs.Cleanings.{IsCleaned, IsCleanerAnswer, IsCounted, IsDone, cleaner_of, reclaim_answer};

use lfs_calls::cached_store::CachedStore;
use lfs_model::journal::{CleanerAnswer, CleanerOutcome};
use lfs_types::answer::Resource;
use lfs_types::cleaned::CleanedStore;
use lfs_types::cleaner::{CleanFault, CleanerCall, INFO_LIMIT, InfoList};
use lfs_types::cred::Cred;
use lfs_types::payload::Bytes;
use lfs_types::rule::{Denial, Rule};

/// The answer to a cleaner's call: a denial where the caller is not the superuser, else what the store's call gives.
pub fn cleaned<F: CleanedStore>(
    store: &mut CachedStore<F>,
    cred: &Cred,
    call: CleanerCall,
) -> CleanerAnswer
    ensures answered { IsCleanerAnswer
        (cleaner_of F.state F.is_flushed F.made F.cleaner)
        store.old cred.now call result store.new }
    ensures cleaned { IsCleaned (F.state store.old) (F.state store.new) cred.now call result }
    ensures base { MovesBase (F.state store.old) (F.state store.new) }
{
    if !cred.is_superuser() {
        return CleanerAnswer::Denied(Denial {
            rule: Rule::IsSuperuser,
            path: 0,
            at: 0,
        });
    }
    done(store, call)
}

/// The answer to a superuser's call: what the store's call gives.
fn done<F: CleanedStore>(store: &mut CachedStore<F>, call: CleanerCall) -> CleanerAnswer
    ensures done { IsDone
        (cleaner_of F.state F.is_flushed F.made F.cleaner)
        store.old call result store.new }
    ensures cleaned { (caller : Caller) → caller.uid ≡ 0
        → IsCleaned (F.state store.old) (F.state store.new) caller call result }
    ensures base { MovesBase (F.state store.old) (F.state store.new) }
{
    match call {
        CleanerCall::Ifile => match ifile(store) {
            Some(bytes) => CleanerAnswer::Ifile(bytes),
            None => CleanerAnswer::Refused(Resource::NoMemory),
        },
        CleanerCall::Infos(segment) => match infos(store, segment) {
            Ok(infos) => CleanerAnswer::Infos(infos),
            Err(fault) => CleanerAnswer::Fault(fault),
        },
        CleanerCall::Bmapv(infos) => CleanerAnswer::Bmapv(addresses(store, infos)),
        CleanerCall::Markv(marks) => match store.markv(&marks) {
            Ok(count) => CleanerAnswer::Marked(count),
            Err(fault) => CleanerAnswer::Fault(fault),
        },
        CleanerCall::Segclean(segment) => match store.segclean(segment) {
            Ok(()) => CleanerAnswer::Cleaned,
            Err(fault) => CleanerAnswer::Fault(fault),
        },
        CleanerCall::Gain => match store.gain_room() {
            Ok(()) => CleanerAnswer::Gained,
            Err(fault) => CleanerAnswer::Fault(fault),
        },
    }
}

/// What the journal tells of a Segclean: a denial where the caller is not the superuser, else what the store's call
/// gives.
pub fn reclaimed<F: CleanedStore>(
    store: &mut CachedStore<F>,
    cred: &Cred,
    segment: u32,
) -> CleanerOutcome
    ensures answered { IsCleanerAnswer
        (cleaner_of F.state F.is_flushed F.made F.cleaner)
        store.old cred.now (CleanerCall.Segclean segment) (reclaim_answer (Some result)) store.new }
    ensures cleaned { IsCleaned (F.state store.old) (F.state store.new) cred.now
        (CleanerCall.Segclean segment) (reclaim_answer (Some result)) }
    ensures told { outcome_of (reclaim_answer (Some result)) ≡ Some result }
    ensures base { MovesBase (F.state store.old) (F.state store.new) }
{
    if cred.is_superuser() {
        match store.segclean(segment) {
            Ok(()) => CleanerOutcome::Done(0),
            Err(fault) => CleanerOutcome::Fault(fault),
        }
    } else {
        CleanerOutcome::Denied
    }
}

/// What the journal tells of a cleaner's answer, where it tells anything.
pub fn outcome(answer: &CleanerAnswer) -> Option<CleanerOutcome>
    requires { IsCounted answer.now }
    ensures { result ≡ outcome_of answer.now }
{
    Some(match answer {
        CleanerAnswer::Refused(_) => return None,
        CleanerAnswer::Denied(_) => CleanerOutcome::Denied,
        CleanerAnswer::Fault(fault) => CleanerOutcome::Fault(*fault),
        CleanerAnswer::Ifile(bytes) => CleanerOutcome::Done(bytes.as_slice().len() as u32),
        CleanerAnswer::Infos(infos) | CleanerAnswer::Bmapv(infos) => {
            CleanerOutcome::Done(infos.items().len() as u32)
        }
        CleanerAnswer::Marked(count) => CleanerOutcome::Done(*count),
        CleanerAnswer::Cleaned | CleanerAnswer::Gained => CleanerOutcome::Done(0),
    })
}

/// The bytes of the ifile, where there is memory for them and a u32 counts them.
fn ifile<F: CleanedStore>(store: &CachedStore<F>) -> Option<Bytes>
    ensures given { IfSome result (λ bytes. F.cleaner.gives_ifile store.now bytes) }
    ensures size { IfSome result (λ bytes. length bytes ≡ ifile_size (F.state store.now).shape) }
    ensures counted { IfSome result (λ bytes. length bytes < 2 ^ 32) }
{
    let bytes = store.ifile_bytes().ok()?;
    if bytes.len() > u32::MAX as usize {
        return None;
    }
    Bytes::new(bytes).ok()
}

/// The infos of a segment.
fn infos<F: CleanedStore>(store: &CachedStore<F>, segment: u32) -> Result<InfoList, CleanFault>
    ensures given { MatchResult result
        (λ infos. F.cleaner.gives_infos store.now segment (Ok tt) infos)
        (λ fault. (infos : List BlockInfo) × F.cleaner.gives_infos store.now segment (Err fault) infos) }
    ensures bounds { MatchResult result (λ infos. length infos ≤ INFO_LIMIT) IsListingFault }
{
    let mut infos = InfoList::empty();
    store.infos(segment, &mut infos)?;
    let items = infos.into_items();
    Ok(InfoList::from(items))
}

/// The infos with their present addresses.
fn addresses<F: CleanedStore>(store: &CachedStore<F>, infos: InfoList) -> InfoList
    ensures given { F.cleaner.gives_addresses store.now infos result }
    ensures few { length result ≤ INFO_LIMIT }
{
    let mut items = infos.into_items();
    store.bmapv(items.as_mut_slice());
    InfoList::from(items)
}
