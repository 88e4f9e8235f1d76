//! Calls of the cleaner as lines of a script, which are read back as these calls.

ghost use Rattle.std.specs.Prelude.{◌≡◌, ◌++◌, Ok, OnOk};
ghost use Rattle.lfs_words.specs.Wording.{spaced};
ghost use Rattle.lfs_script.specs.CleanerSpelling.{IsActSaid, act_line, call_of, handed_in};
ghost use Rattle.lfs_script.specs.Plans.{line_said};
ghost use Rattle.lfs_script.specs.declared.plan.Act.TheVariants.{Cleaner};
ghost use Rattle.lfs_script.specs.declared.plan.Line.TheVariants as says;

use lfs_model::asking::CleanerAct;
use lfs_print::cleaner::cleaner_word;
use lfs_words::info::spell_infos;
use lfs_words::spelling::spell_short;
use std::alloc::AllocError;

/// Appends what the cleaner asks as a line of a script, without a line feed. The line says the call that asks it.
pub fn push_act(out: &mut Vec<u8>, act: &CleanerAct) -> Result<(), AllocError>
    ensures spelled { OnOk result (out.new.items ≡ out.old.items ++ act_line act.now) }
    ensures back { OnOk result (line_said (act_line act.now)
        ≡ Ok (says.Act (Cleaner (call_of act.now)))) }
{
    out.extend_from_slice(cleaner_word(act.kind()).as_bytes())?;
    push_handed_in(out, act)
}

/// Appends what stands behind the name of a call.
fn push_handed_in(out: &mut Vec<u8>, act: &CleanerAct) -> Result<(), AllocError>
    ensures spelled { OnOk result (out.new.items ≡ out.old.items ++ spaced (handed_in act.now)) }
    ensures back { OnOk result (IsActSaid act.now) }
{
    match act {
        CleanerAct::Ifile | CleanerAct::Gain => Ok(()),
        CleanerAct::Infos(segment) => spell_short(out, *segment),
        CleanerAct::Bmapv(infos) => spell_infos(out, infos.items()),
        CleanerAct::Markv(marks) => spell_infos(out, marks.items()),
        CleanerAct::Segclean(segment) => spell_short(out, *segment),
    }
}
