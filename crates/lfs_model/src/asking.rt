//! What the cleaner asks, as an entry of the journal keeps it.

ghost use Rattle.std.specs.Prelude.{◌≡◌, ◌≤◌, length, IfErr, IfOk};
ghost use Rattle.lfs_model.specs.Cleaning.{kind_of};
ghost use Rattle.lfs_model.specs.Memory.{HandsIn};
ghost use Rattle.lfs_model.specs.Runs.{act_of};

use crate::journal::CleanerKind;
use lfs_types::cleaner::{BlockInfo, BlockInfos, CleanerCall, INFO_LIMIT, MARK_LIMIT};
use std::alloc::{AllocError, Global};
use std::marker::Model;

/// At most `LIMIT` infos, in as much memory as they take.
#[derive(Drop, Debug)]
pub struct KeptInfos<const LIMIT: usize> {
    infos: Vec<BlockInfo>,
}

impl<const LIMIT: usize> Model for KeptInfos<LIMIT> {
    ghost use Rattle.std.specs.Prelude.{List, ◌≤◌, length};
    ghost use Rattle.lfs_types.specs.declared.cleaner.BlockInfo.{BlockInfo};

    ghost Value = { List BlockInfo };

    ghost view = { λ k. k.infos.items };

    ghost invariant = { λ k. length k.infos.items ≤ LIMIT };
}

impl<const LIMIT: usize> KeptInfos<LIMIT> {
    /// A copy of these infos.
    pub fn of(alloc: Global, infos: &BlockInfos<LIMIT>) -> Result<Self, AllocError>
        ensures { IfOk result (λ kept. kept ≡ infos.now) }
    {
        let infos = Vec::from_slice(alloc, infos.items())?;
        Ok(KeptInfos { infos })
    }

    /// The infos, in order.
    pub fn items(&self) -> &[BlockInfo]
        ensures items { result.now ≡ self.now }
        ensures fits { length self.now ≤ LIMIT }
    {
        self.infos.as_slice()
    }
}

impl<const LIMIT: usize> PartialEq for KeptInfos<LIMIT> {
    ghost use Rattle.std.specs.Cmp.Lexicographic.{lists_per, pointwise};
    ghost use Rattle.lfs_types.specs.contracts.cleaner.BlockInfoPartialEq.TheImpl as info;
    ghost use Rattle.lfs_types.specs.contracts.cleaner.BlockInfoPartialEq.TheImpl.Laws as info_laws;

    ghost eq = { pointwise info.ghosts.eq };

    ghost laws = { lists_per info_laws.laws-law };

    fn eq(&self, other: &Self) -> bool {
        self.infos == other.infos
    }
}

impl<const LIMIT: usize> Eq for KeptInfos<LIMIT> {
    ghost use Rattle.std.specs.Cmp.Lexicographic.{lists_equiv};
    ghost use Rattle.lfs_types.specs.contracts.cleaner.BlockInfoEq.TheImpl.Laws as info_laws;

    ghost laws = { lists_equiv info_laws.laws-law };
}

/// What the cleaner asks, with all that it hands in, as a `CleanerCall` does. It takes memory for infos alone.
#[derive(Drop, PartialEq, Eq, Debug)]
pub enum CleanerAct {
    /// The bytes of the ifile.
    Ifile,
    /// The infos of a dirty segment: its number, from 0.
    Infos(u32),
    /// The present addresses of blocks: the infos that were handed in, each with the address that it had.
    Bmapv(KeptInfos<INFO_LIMIT>),
    /// Blocks to be written again at the end of the log, where their address is still the one given.
    Markv(KeptInfos<MARK_LIMIT>),
    /// A dirty segment without live bytes to become clean: its number, from 0.
    Segclean(u32),
    /// A segment to be cleaned where that gains room.
    Gain,
}

impl CleanerAct {
    /// What a call of the cleaner asks. An error where memory runs out for a copy of its infos.
    pub fn of(alloc: Global, call: &CleanerCall) -> Result<CleanerAct, AllocError>
        ensures asked { IfOk result (λ act. act ≡ act_of call.now) }
        ensures memory { IfErr result (λ _. HandsIn call.now) }
    {
        Ok(match call {
            CleanerCall::Ifile => CleanerAct::Ifile,
            CleanerCall::Infos(segment) => CleanerAct::Infos(*segment),
            CleanerCall::Bmapv(infos) => CleanerAct::Bmapv(KeptInfos::of(alloc, infos)?),
            CleanerCall::Markv(marks) => CleanerAct::Markv(KeptInfos::of(alloc, marks)?),
            CleanerCall::Segclean(segment) => CleanerAct::Segclean(*segment),
            CleanerCall::Gain => CleanerAct::Gain,
        })
    }

    /// Which call of the cleaner asks it.
    pub fn kind(&self) -> CleanerKind
        ensures { result ≡ kind_of self.now }
    {
        match self {
            CleanerAct::Ifile => CleanerKind::Ifile,
            CleanerAct::Infos(_) => CleanerKind::Infos,
            CleanerAct::Bmapv(_) => CleanerKind::Bmapv,
            CleanerAct::Markv(_) => CleanerKind::Markv,
            CleanerAct::Segclean(_) => CleanerKind::Segclean,
            CleanerAct::Gain => CleanerKind::Gain,
        }
    }
}
