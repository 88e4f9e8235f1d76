//! The three times of a file.

ghost use Rattle.std.specs.Prelude.{◌≡◌};
ghost use Rattle.lfs_stamps.specs.Stamps.{born, modified_by, restated, set, time_or, told_or, written};

use lfs_fuse_wire::attributes::{NewTime, SetAttr, Time};

/// When a file was read and changed, as stat(2) shows it. Reads alone change none.
#[derive(Clone, Copy, PartialEq, Eq, Debug)]
pub struct Stamps {
    /// When it was made, or what was set in place of that.
    pub accessed: Time,
    /// When its bytes, or its names, changed last.
    pub modified: Time,
    /// When anything of it changed last.
    pub changed: Time,
}

/// The time that is to be set, or else the present one.
fn time_or(now: Time, present: Time, wanted: Option<NewTime>) -> Time
    ensures { result ≡ time_or now present wanted }
{
    match wanted {
        None => present,
        Some(NewTime::Now) => now,
        Some(NewTime::At(time)) => time,
    }
}

/// When the bytes changed last, behind a change of attributes that may set a size.
fn modified_by(now: Time, fields: &SetAttr, present: Time) -> Time
    ensures { result ≡ modified_by now fields.now present }
{
    let present = if fields.size.is_some() { now } else { present };
    time_or(now, present, fields.modified)
}

impl Stamps {
    /// Those of a file that is made now.
    pub fn born(now: Time) -> Stamps
        ensures { result ≡ born now }
    {
        Stamps {
            accessed: now,
            modified: now,
            changed: now,
        }
    }

    /// Those of a file whose bytes change now, or of a directory whose names do.
    pub fn written(self, now: Time) -> Stamps
        ensures { result ≡ written now self }
    {
        Stamps {
            accessed: self.accessed,
            modified: now,
            changed: now,
        }
    }

    /// Those of a file whose attributes change now.
    pub fn restated(self, now: Time) -> Stamps
        ensures { result ≡ restated now self }
    {
        Stamps {
            accessed: self.accessed,
            modified: self.modified,
            changed: now,
        }
    }

    /// Those of a file whose attributes are set now.
    pub fn set(self, now: Time, fields: &SetAttr) -> Stamps
        ensures { result ≡ set now fields.now self }
    {
        Stamps {
            accessed: time_or(now, self.accessed, fields.accessed),
            modified: modified_by(now, fields, self.modified),
            changed: fields.changed.unwrap_or(now),
        }
    }
}
