//! Reading a script piece by piece.

ghost use Rattle.std.specs.Prelude.{◌≡◌, ◌+◌, ◌<◌, ◌≤◌, ℕ, List, [], length, IfErr, IfOk};
ghost use Rattle.std.specs.Io.KnownBytes.{Consumes};
ghost use Rattle.lfs_io.specs.Pieces.{ReadsNext};
ghost use Rattle.lfs_io.specs.declared.read.ReadFault.TheVariants.{TooLong};

use crate::read::{ReadFault, SCRIPT_MAX};
use std::io::Read;
use std::marker::Model;

/// A reader is asked for so many bytes at once.
const PIECE_BYTES: usize = 32_768;

/// What is read of a script: at most 1,048,576 bytes, piece by piece, each in the same buffer.
#[derive(Drop)]
pub struct Pieces {
    total: usize,
    count: usize,
    buffer: [u8; PIECE_BYTES],
}

impl Model for Pieces {
    ghost use Rattle.std.specs.Prelude.{◌≤◌, take};
    ghost use Rattle.lfs_io.specs.Pieces.{Pieced};

    ghost Value = { Pieced };

    ghost view = { λ p. record { piece = take p.count p.buffer; total = p.total } };

    ghost invariant = { λ p. (p.count ≤ 32768) × (p.total ≤ 1048576) };
}

impl Pieces {
    /// Nothing is read.
    pub fn new() -> Pieces
        ensures piece { result.piece ≡ [] }
        ensures total { result.total ≡ 0 }
    {
        Pieces {
            total: 0,
            count: 0,
            buffer: [0; PIECE_BYTES],
        }
    }

    /// Reads the next piece, and says whether there is one. An error of the reader ends it.
    pub fn advance<R: Read>(&mut self, reader: &mut R) -> Result<bool, ReadFault>
        ensures next { IfOk result (ReadsNext
            (R.remaining reader.old) (R.remaining reader.new) self.old.total self.new) }
        ensures bounded { IfOk result (λ _. self.new.total ≤ 1048576) }
        ensures fault { IfErr result (λ fault. fault ≡ TooLong → (more : List ℕ)
            × Consumes (R.remaining reader.old) (R.remaining reader.new) more
            × (1048576 < self.old.total + length more)) }
    {
        let Ok(count) = reader.read(&mut self.buffer) else {
            return Err(ReadFault::Read);
        };
        if count > SCRIPT_MAX - self.total {
            return Err(ReadFault::TooLong);
        }
        self.count = count;
        self.total += count;
        Ok(count > 0)
    }

    /// The piece that was read last.
    pub fn piece(&self) -> &[u8]
        ensures { result.now ≡ self.now.piece }
    {
        &self.buffer[..self.count]
    }
}
