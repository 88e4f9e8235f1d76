//! Bytes and lists of names as values of calls.

ghost use Rattle.std.specs.Prelude.{◌≡◌, ◌<◌, ◌≤◌, length, IfOk, MatchResult};

use crate::limits::TRANSFER_BYTES;
use crate::name::Name;
use std::alloc::{AllocError, Global};
use std::marker::Model;
use std::sync::Arc;

/// Bytes that a Read served. Copies share them.
#[derive(Drop, Debug)]
pub struct Bytes {
    bytes: Arc<Vec<u8>>,
}

impl Model for Bytes {
    ghost use Rattle.std.specs.Arc.{arc_value};
    ghost use Rattle.std.specs.Prelude.{List, ℕ};

    ghost Value = { List ℕ };

    ghost view = { λ b. (arc_value b.bytes).items };
}

impl Bytes {
    /// These bytes, to be shared.
    pub fn new(bytes: Vec<u8>) -> Result<Bytes, AllocError>
        ensures { IfOk result (λ shared. shared ≡ bytes.items) }
    {
        let alloc = *bytes.allocator();
        let bytes = Arc::new(alloc, bytes)?;
        Ok(Bytes { bytes })
    }

    /// The bytes.
    pub fn as_slice(&self) -> &[u8]
        ensures { result.now ≡ self.now }
    {
        self.bytes.as_slice()
    }

    /// A value equal to this one, which shares its bytes.
    pub fn try_clone(&self) -> Result<Bytes, AllocError>
        ensures { IfOk result (λ copy. copy ≡ self.now) }
    {
        let bytes = Arc::try_clone(&self.bytes)?;
        Ok(Bytes { bytes })
    }
}

impl PartialEq for Bytes {
    ghost use Rattle.std.specs.Prelude.{nat_eq};
    ghost use Rattle.std.specs.Cmp.Lexicographic.{pointwise};
    ghost use Rattle.std.proofs.Common.{rules};
    ghost use Rattle.std.specs.Cmp.Rules.{comparing};

    ghost eq = { pointwise nat_eq };

    ghost laws = { Prim.search (comparing, rules) };

    fn eq(&self, other: &Bytes) -> bool {
        self.bytes == other.bytes
    }
}

impl Eq for Bytes {
    ghost use Rattle.std.proofs.Common.{rules};
    ghost use Rattle.std.specs.Cmp.Rules.{comparing};

    ghost laws = { Prim.search (comparing, rules) };
}

/// Names that a List served. Copies share them.
#[derive(Drop, Debug)]
pub struct Names {
    names: Arc<Vec<Name>>,
}

impl Model for Names {
    ghost use Rattle.std.specs.Arc.{arc_value};
    ghost use Rattle.std.specs.Prelude.{List, ℕ};

    ghost Value = { List (List ℕ) };

    ghost view = { λ n. (arc_value n.names).items };
}

impl Names {
    /// These names, to be shared.
    pub fn new(names: Vec<Name>) -> Result<Names, AllocError>
        ensures { IfOk result (λ shared. shared ≡ names.items) }
    {
        let alloc = *names.allocator();
        let names = Arc::new(alloc, names)?;
        Ok(Names { names })
    }

    /// The names.
    pub fn as_slice(&self) -> &[Name]
        ensures { result.now ≡ self.now }
    {
        self.names.as_slice()
    }

    /// A value equal to this one, which shares its names.
    pub fn try_clone(&self) -> Result<Names, AllocError>
        ensures { IfOk result (λ copy. copy ≡ self.now) }
    {
        let names = Arc::try_clone(&self.names)?;
        Ok(Names { names })
    }
}

impl PartialEq for Names {
    ghost use Rattle.std.specs.Prelude.{nat_eq};
    ghost use Rattle.std.specs.Cmp.Lexicographic.{pointwise};
    ghost use Rattle.std.proofs.Common.{rules};
    ghost use Rattle.std.specs.Cmp.Rules.{comparing};

    ghost eq = { pointwise (pointwise nat_eq) };

    ghost laws = { Prim.search (comparing, rules) };

    fn eq(&self, other: &Names) -> bool {
        self.names == other.names
    }
}

impl Eq for Names {
    ghost use Rattle.std.proofs.Common.{rules};
    ghost use Rattle.std.specs.Cmp.Rules.{comparing};

    ghost laws = { Prim.search (comparing, rules) };
}

/// What a Write puts: at most 4,096 bytes.
#[derive(Drop, Debug)]
pub struct Payload {
    content: Vec<u8>,
}

impl Model for Payload {
    ghost use Rattle.std.specs.Prelude.{List, ℕ, ◌≤◌, length};

    ghost Value = { List ℕ };

    ghost view = { λ p. p.content.items };

    ghost invariant = { λ p. length p.content.items ≤ 4096 };
}

/// A vector that has more than 4,096 bytes, handed back.
#[derive(Drop, Debug)]
pub struct BadSize(pub Vec<u8>);

impl Payload {
    /// The payload of these bytes, where there are at most 4,096.
    pub fn new(bytes: Vec<u8>) -> Result<Payload, BadSize>
        ensures { MatchResult result
            (λ p. (length bytes.items ≤ 4096) × (p ≡ bytes.items))
            (λ e. (4096 < length bytes.items) × (e.0.items ≡ bytes.items)) }
    {
        if bytes.len() <= TRANSFER_BYTES {
            Ok(Payload { content: bytes })
        } else {
            Err(BadSize(bytes))
        }
    }

    /// The bytes, at most 4,096.
    pub fn as_slice(&self) -> &[u8]
        ensures value { result.now ≡ self.now }
        ensures bounded { length self.now ≤ 4096 }
    {
        self.content.as_slice()
    }

    /// The vector of the bytes.
    pub fn into_vec(self) -> Vec<u8>
        ensures { result.items ≡ self }
    {
        self.content
    }

    /// A value equal to this one.
    pub fn try_clone(&self, alloc: Global) -> Result<Payload, AllocError>
        ensures { IfOk result (λ copy. copy ≡ self.now) }
    {
        let content = Vec::from_slice(alloc, self.as_slice())?;
        Ok(Payload { content })
    }
}

impl PartialEq for Payload {
    ghost use Rattle.std.specs.Prelude.{nat_eq};
    ghost use Rattle.std.specs.Cmp.Lexicographic.{pointwise};
    ghost use Rattle.std.proofs.Common.{rules};
    ghost use Rattle.std.specs.Cmp.Rules.{comparing};

    ghost eq = { pointwise nat_eq };

    ghost laws = { Prim.search (comparing, rules) };

    fn eq(&self, other: &Payload) -> bool {
        self.content == other.content
    }
}

impl Eq for Payload {
    ghost use Rattle.std.proofs.Common.{rules};
    ghost use Rattle.std.specs.Cmp.Rules.{comparing};

    ghost laws = { Prim.search (comparing, rules) };
}
