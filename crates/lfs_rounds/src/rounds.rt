//! Rounds of a live server over one volume.

ghost use Rattle.std.specs.Prelude.{◌≡◌, List, [], IfErr, IfOk};
ghost use Rattle.lfs_server.specs.Serving.{IsRunFault};
ghost use Rattle.lfs_server.specs.Unserved.{NamesUnsettled, fault_of};
ghost use Rattle.lfs_settle.specs.Settled.{Differs};
ghost use Rattle.lfs_volume.specs.Seen.{Seen};
ghost use Rattle.lfs_rounds.specs.Rounds.{HasServed, IsSettled, keeping_of};
ghost use Rattle.lfs_rounds.specs.declared.rounds.Round.{Round};

use lfs_model::journal::Entry;
use lfs_server::gate::Gate;
use lfs_server::live::{Client, Stopped, serve_clients};
use lfs_server::unserved::Unserved;
use lfs_settle::transcripts::Transcript;
use lfs_types::cleaned::CleanedStore;
use lfs_volume::volume::Volume;
use std::alloc::Global;
use std::sync::Wait;
use std::thread::Threads;

/// What a round left, settled.
#[derive(Drop, Debug)]
pub struct Round {
    /// Its entries, in the order in which they were made.
    pub entries: Vec<Entry>,
    /// What each of its sessions asked and was answered, session 1's first.
    pub transcripts: Vec<Transcript>,
}

/// Who brings the clients of each round, and keeps what it left.
pub trait Rounds {
    /// One who uses the server for a round.
    type Client: Client + Send + Drop;

    ghost use Rattle.lfs_rounds.specs.declared.rounds.Round.{Round};

    /// What it is to have been asked for clients.
    ghost asks: { Self → Self → Type 0 };
    /// What it is to have been handed a round.
    ghost keeps: { Self → Round → Self → Type 0 };

    /// The clients of the next round; `None` ends the server.
    fn clients(&mut self) -> Option<Vec<Self::Client>>
        ensures { asks self.old self.new };

    /// Takes what a round left.
    fn keep(&mut self, round: Round)
        ensures { keeps self.old round self.new };
}

/// Serves round after round over a volume with an empty journal, up to the first that has no clients: in each the
/// clients use the server, each on a thread of its own, with the cleaner beside them (`serve_clients`). Once all have
/// returned, the entries are settled with what the sessions were answered and handed out with it, and the next round
/// begins at the tree that they led to, with an empty journal. So the memory that is taken is that of a round.
///
/// # Errors
///
/// Those of `serve_clients`, of the round that could not be settled, with what that left; `Memory` also where there is
/// no room for the journal of a round, of which no client has run then. The rounds before were kept.
pub fn serve_rounds<R, F, G, K>(
    rt: &R,
    alloc: Global,
    volume: Volume<F>,
    rounds: &mut K,
    gate: &G,
) -> Result<Volume<F>, Unserved<Stopped<F>>>
where
    R: Threads + Wait + Sync,
    F: CleanedStore + Send + Drop,
    G: Gate,
    K: Rounds,
    requires { volume.journal ≡ [] }
    ensures settled { (served : List Round) × (left : Seen F)
        × HasServed F.state (keeping_of K.asks K.keeps) volume rounds.old served left rounds.new
        × IfOk result (λ v. v ≡ left) }
    ensures unsettled { IfErr result (NamesUnsettled (λ session stopped. Differs
        stopped.volume.journal stopped.volume.limit stopped.transcripts.items session)) }
    ensures fault { IfErr result (λ unserved. IsRunFault (fault_of unserved)) }
{
    let mut volume = volume;
    for _ in 0..u64::MAX {
        let Some(clients) = rounds.clients() else {
            return Ok(volume);
        };
        let (next, round) = serve_round(rt, alloc, volume, clients, gate)?;
        rounds.keep(round);
        volume = next;
    }
    Ok(volume)
}

/// Serves a round.
fn serve_round<R, F, C, G>(
    rt: &R,
    alloc: Global,
    volume: Volume<F>,
    clients: Vec<C>,
    gate: &G,
) -> Result<(Volume<F>, Round), Unserved<Stopped<F>>>
where
    R: Threads + Wait + Sync,
    F: CleanedStore + Send + Drop,
    C: Client + Send + Drop,
    G: Gate,
    requires { volume.journal ≡ [] }
    ensures settled { IfOk result (λ left. IsSettled F.state volume left.0 left.1) }
    ensures unsettled { IfErr result (NamesUnsettled (λ session stopped. Differs
        stopped.volume.journal stopped.volume.limit stopped.transcripts.items session)) }
    ensures fault { IfErr result (λ unserved. IsRunFault (fault_of unserved)) }
{
    let room = Vec::with_capacity(alloc, volume.journal_limit() as usize)?;
    let stopped = serve_clients(rt, alloc, volume, clients, gate)?;
    let mut volume = stopped.volume;
    let transcripts = stopped.transcripts;
    let entries = volume.drain(room);
    let round = Round {
        entries,
        transcripts,
    };
    Ok((volume, round))
}
