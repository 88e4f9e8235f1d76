//! A live server from its start to its stop.

ghost use Rattle.std.specs.Prelude.{◌≡◌, [], IfErr, IfOk};
ghost use Rattle.lfs_settle.specs.Settled.{Differs, IsInterleavingOf};
ghost use Rattle.lfs_volume.specs.Journals.{IsJournal, Since};
ghost use Rattle.lfs_server.specs.Serving.{IsRunFault, IsThreadFault};
ghost use Rattle.lfs_server.specs.Unserved.{NamesUnsettled, OnLeft, fault_of};

use crate::doorbell::{Rings, doorbell};
use crate::gate::Gate;
use crate::kept::{Kept, Sizes};
use crate::live::{Client, Stopped};
use crate::live_server::{Server, Told};
use crate::run::Run;
use crate::serving::{ServeFault, start_cleaner};
use crate::unserved::Unserved;
use lfs_settle::entries::Unsettled;
use lfs_settle::transcripts::{Transcript, settle_transcripts};
use lfs_types::cleaned::CleanedStore;
use lfs_types::store::FileStore;
use lfs_volume::volume::Volume;
use std::sync::{Mutex, Wait};
use std::thread;
use std::thread::{Scope, Threads};

/// Lets clients use a server over a volume of these sizes, and hands out what they leave.
pub fn serve_kept<S, R, F, C, G>(
    run: &Run<'_, R, G>,
    volume: Volume<F>,
    clients: Vec<C>,
) -> Result<Stopped<F>, Unserved<Stopped<F>>>
where
    S: Sizes<F> + Send,
    R: Threads + Wait + Sync,
    F: CleanedStore + Send + Drop,
    C: Client + Send + Drop,
    G: Gate,
    requires shaped { (F.state volume.store).shape ≡ S.shape }
    requires limited { volume.limit ≡ S.limit }
    requires begun { S.since volume.since }
    requires begun_level { volume.since_level ≡ S.since_level }
    ensures settled { IfOk result (λ stopped. IsInterleavingOf
        stopped.volume.journal stopped.volume.limit stopped.transcripts.items) }
    ensures unsettled { IfErr result (NamesUnsettled (λ session stopped. Differs
        stopped.volume.journal stopped.volume.limit stopped.transcripts.items session)) }
    ensures limit { OnLeft result (λ stopped. stopped.volume.limit ≡ S.limit) }
    ensures shape { OnLeft result (λ stopped. (F.state stopped.volume.store).shape ≡ S.shape) }
    ensures since { OnLeft result (λ stopped. S.since stopped.volume.since) }
    ensures since_level { OnLeft result (λ stopped. stopped.volume.since_level ≡ S.since_level) }
    ensures legal { OnLeft result (λ stopped.
        Since (F.state stopped.volume.since) stopped.volume.since_level (λ from. IsJournal from
        (F.state stopped.volume.store) stopped.volume.level
        stopped.volume.journal stopped.volume.limit)) }
    ensures fault { IfErr result (λ unserved. IsRunFault (fault_of unserved)) }
{
    let (button, rings) = doorbell(run.alloc)?;
    let volume = Mutex::new(Kept::<S, F>::new(volume));
    let told = Mutex::new(Told::none(run.alloc));
    let server = Server {
        run,
        volume: &volume,
        told: &told,
        button,
    };
    run_clients(server, &rings, clients)?;
    stop(
        volume.into_inner().into_volume(),
        told.into_inner().into_transcripts(),
    )
}

/// Runs the clients of a server and the cleaner, each on a thread of its own, until all have ended.
fn run_clients<S, R, F, C, G>(
    server: Server<'_, S, R, F, G>,
    rings: &Rings,
    clients: Vec<C>,
) -> Result<(), ServeFault>
where
    S: Sizes<F> + Send,
    R: Threads + Wait + Sync,
    F: CleanedStore + Send + Drop,
    C: Client + Send + Drop,
    G: Gate,
    ensures { IfErr result IsThreadFault }
{
    server.button.ring(server.run.rt);
    thread::scope(
        thread::scope_env(),
        server.run.rt,
        move |scope| -> Result<(), ServeFault>
            ensures { IfErr result IsThreadFault }
        {
            start_cleaner(scope, server.run, server.volume, rings)?;
            start_clients(scope, &server, clients)
        },
    )
}

/// Starts each client on a thread of its own, with a clone of the server.
fn start_clients<'s, E, S, R, F, C, G>(
    scope: &Scope<'s, E>,
    server: &Server<'s, S, R, F, G>,
    clients: Vec<C>,
) -> Result<(), ServeFault>
where
    S: Sizes<F> + Send,
    R: Threads + Wait + Sync,
    F: CleanedStore + Send + Drop,
    C: Client + Send + Drop + 's,
    G: Gate,
    ensures { IfErr result IsThreadFault }
{
    for client in clients {
        start_client(scope, server.try_clone()?, client)?;
    }
    Ok(())
}

/// Starts a client on a thread of its own, with a server of its own over the volume that all share.
fn start_client<'s, E, S, R, F, C, G>(
    scope: &Scope<'s, E>,
    server: Server<'s, S, R, F, G>,
    client: C,
) -> Result<(), ServeFault>
where
    S: Sizes<F> + Send,
    R: Threads + Wait + Sync,
    F: CleanedStore + Send + Drop,
    C: Client + Send + Drop + 's,
    G: Gate,
    ensures { IfErr result IsThreadFault }
{
    match scope.spawn(move || attend(server, client)) {
        Ok(_) => Ok(()),
        Err(_) => Err(ServeFault::Thread),
    }
}

/// Runs a client on its server. Behind it the server's button is gone: once those of all clients are, the cleaner ends.
fn attend<S, R, F, C, G>(server: Server<'_, S, R, F, G>, client: C)
where
    S: Sizes<F> + Send,
    R: Threads + Wait + Sync,
    F: CleanedStore + Send + Drop,
    C: Client + Send + Drop,
    G: Gate,
{
    client.run(&server);
}

/// Hands out a volume and what the sessions were told, as settled where the volume's journal is an interleaving of
/// these transcripts and of the cleaner's calls.
fn stop<F: FileStore + Drop>(
    volume: Volume<F>,
    transcripts: Vec<Transcript>,
) -> Result<Stopped<F>, Unserved<Stopped<F>>>
    ensures settled { IfOk result (λ stopped. IsInterleavingOf
        stopped.volume.journal stopped.volume.limit stopped.transcripts.items) }
    ensures unsettled { IfErr result (NamesUnsettled (λ session stopped. Differs
        stopped.volume.journal stopped.volume.limit stopped.transcripts.items session)) }
    ensures volume { OnLeft result (λ stopped. stopped.volume ≡ volume) }
    ensures legal { OnLeft result (λ stopped.
        Since (F.state stopped.volume.since) stopped.volume.since_level (λ from. IsJournal from
        (F.state stopped.volume.store) stopped.volume.level
        stopped.volume.journal stopped.volume.limit)) }
    ensures fault { IfErr result (λ unserved. IsRunFault (fault_of unserved)) }
{
    let settled = settle_transcripts(
        volume.journal(),
        volume.journal_limit(),
        transcripts.as_slice(),
    );
    let stopped = Stopped {
        volume,
        transcripts,
    };
    match settled {
        Ok(()) => Ok(stopped),
        Err(Unsettled(session)) => Err(Unserved::Unsettled(session, stopped)),
    }
}
