//! Laws of the rules: what holds of every call and of every list of calls, whatever the store. Each function does
//! nothing, and its contract is a law.
//!
//! `served_exactly_where_he_may` says which calls are allowed, and `done` what a served call does. `gone` to `one_thing`
//! say that nothing else comes of it: they begin with what changed, and say which call changed it and by what right. So
//! only `new` says all of the row that a Create or a Mkdir makes, and only `rewritten` the bytes of a file that a Write or
//! a SetLength doesn't bring.
//!
//! These laws share words with the rules: who is granted what, what a flag locks, which level is above 0. From
//! `classes_by_bits` on the laws say each of these words in bits and numbers, without it.

ghost use Rattle.lfs_laws.specs.LawAsked.{NamesWhatItAsks};
ghost use Rattle.lfs_laws.specs.LawBetween.{BytesBetween, FlagsBetween, GoneBetween, LevelBetween, MadeBetween, ModeBetween, OwnerBetween, PlaceBetween, SetIdBetween};
ghost use Rattle.lfs_laws.specs.LawBrought.{DecidesAlike};
ghost use Rattle.lfs_laws.specs.LawClasses.{ListByBits, MakeByBits, ReadByBits, SearchByBits, WriteByBits};
ghost use Rattle.lfs_laws.specs.LawDenied.{TellsLittle};
ghost use Rattle.lfs_laws.specs.LawDone.{Done};
ghost use Rattle.lfs_laws.specs.LawDoor.{ClosedDoor};
ghost use Rattle.lfs_laws.specs.LawEach.{EachEntry, OpensSound};
ghost use Rattle.lfs_laws.specs.LawFlagged.{Reflagged};
ghost use Rattle.lfs_laws.specs.LawGone.{Gone};
ghost use Rattle.lfs_laws.specs.LawHidden.{HidesFromCall, HidesFromRun};
ghost use Rattle.lfs_laws.specs.LawIdle.{CallersAlike, LevelsAlike, MarksAlike};
ghost use Rattle.lfs_laws.specs.LawKept.{RowIsKept};
ghost use Rattle.lfs_laws.specs.LawLastSet.{AllSetSinceOpening, FlagsLastSet, GroupLastSet, KindLastSet, OwnerLastSet, PermissionsLastSet, PlaceLastSet, SetIdsLastSet, SizeLastSet};
ghost use Rattle.lfs_laws.specs.LawLeads.{LeadsByNames, ShowsByNames};
ghost use Rattle.lfs_laws.specs.LawLeadsOn.{PathLeadsOn, PathLeadsThrough};
ghost use Rattle.lfs_laws.specs.LawLevel.{Relevelled};
ghost use Rattle.lfs_laws.specs.LawLevels.{FlagsByLevel, FlagsByOwner, LevelByNumber};
ghost use Rattle.lfs_laws.specs.LawLimits.{AppendByNumber, FirstNumber, LengthByNumber, WriteByNumber};
ghost use Rattle.lfs_laws.specs.LawLocked.{NamesStay, NoNameComes};
ghost use Rattle.lfs_laws.specs.LawLocks.{AppendByFlags, MakeByFlags, ModeByFlags, WriteByFlags};
ghost use Rattle.lfs_laws.specs.LawMode.{Remoded};
ghost use Rattle.lfs_laws.specs.LawMoved.{Moved};
ghost use Rattle.lfs_laws.specs.LawNew.{New};
ghost use Rattle.lfs_laws.specs.LawOneThing.{OneThing};
ghost use Rattle.lfs_laws.specs.LawOpening.{OpensAlone, OpensInsecure, OpensWithRoot, SetIdsGo};
ghost use Rattle.lfs_laws.specs.LawOwner.{Given};
ghost use Rattle.lfs_laws.specs.LawOwners.{GroupByOwner, ModeByOwner};
ghost use Rattle.lfs_laws.specs.LawPath.{GuardedIsLeft, PathStays};
ghost use Rattle.lfs_laws.specs.LawPlaces.{ReadsFrom, WritesAt, WritesAtEnd};
ghost use Rattle.lfs_laws.specs.LawRefused.{RefusedTruly};
ghost use Rattle.lfs_laws.specs.LawRegranted.{RightBetween};
ghost use Rattle.lfs_laws.specs.LawRewritten.{Rewritten};
ghost use Rattle.lfs_laws.specs.LawServed.{ServedExactlyWhereMay};
ghost use Rattle.lfs_laws.specs.LawSetIds.{SetIdsAreFresh};
ghost use Rattle.lfs_laws.specs.LawShown.{Shown};
ghost use Rattle.lfs_laws.specs.LawStrangers.{StrangersLeave};
ghost use Rattle.lfs_laws.specs.LawSystemNames.{NoSystemNameComes, SystemNamesStay, SystemPathStays};
ghost use Rattle.lfs_laws.specs.LawTrees.{LeavesTree};
ghost use Rattle.lfs_laws.specs.LawUnread.{NobodyReads};
ghost use Rattle.lfs_laws.specs.LawUnreadRuns.{NobodyReadsInRun};
ghost use Rattle.lfs_laws.specs.LawView.{View};
ghost use Rattle.lfs_laws.specs.LawsBytes.{LastWritten, LastWrittenSinceOpening};
ghost use Rattle.lfs_laws.specs.LawsFlags.{ImmutableStays, AppendOnlyGrows, SystemImmutableStays, SystemAppendOnlyGrows};
ghost use Rattle.lfs_laws.specs.LawsRuns.{IdleLeftOut, SameAnswers, UsersAlone};
ghost use Rattle.lfs_laws.specs.Rights.{EachCall};

/// A call is allowed exactly where its caller may make it: each of its paths leads to a row, or to a place for a name, which
/// he reaches and may read, write, own, take away or place as the call needs; what has the place that a Rename gives, and
/// isn't the row itself, is of its kind, and he may take it away too; the bytes of a Write or the length of a SetLength are
/// within the limit, a directory that is removed or replaced is empty, one that is moved goes neither into itself nor
/// beneath, and only init lowers the level. Whoever may is denied by no rule; whoever may not, by one.
pub fn served_exactly_where_he_may()
    ensures { ServedExactlyWhereMay }
{}

/// A served call did what it asks: its bytes stand at their place, the file has its length, the new row hangs where the path
/// leads, the removed one is gone, the moved one hangs at the second path and what else hung there is gone, mode, owner, group,
/// flags and level are the call's; another than user 0 who writes, cuts or gives leaves no set-id bits, also where nothing
/// else changes.
pub fn done()
    ensures { EachCall Done }
{}

/// A file or a directory is gone only by the Unlink of a file or the Rmdir of an empty directory, at the call's path, or
/// by a Rename onto its path of another row of its kind, which then hangs in its place; of a directory only where it is
/// empty. The caller may take it away: he reaches it and may write its parent, neither of them fixed by a flag, and is
/// user 0 or the owner of one of the two where the parent is sticky.
///
/// In signs: `specs/LawGone.antt`; who may: `MayTakeAway` of `Rights.antt`. Proved in `proofs/RowLaws.antt`, out of the
/// seven cases of `Fates.antt`.
pub fn gone()
    ensures { EachCall Gone }
{}

/// A new row is made by a Create or a Mkdir, at the call's path, of a caller who may place it there. Its number is the
/// least from 4 up that no row has, its owner the caller, its group the parent's; it has the call's mode, no flags and no
/// bytes.
pub fn new()
    ensures { EachCall New }
{}

/// A row gets another parent or another name only by a Rename from its path, of a caller who may take it away and may
/// place it where the call says: what has the place, if anything, is of the row's kind, has nothing in it, and may be taken
/// away by the caller. A directory that gets another parent grants the caller write.
///
/// In signs: `specs/LawMoved.antt`; proved as `gone` is.
pub fn moved()
    ensures { EachCall Moved }
{}

/// The bytes of a file change only by a Write or a SetLength at its path, of a caller who may write it. They are then as
/// many as the call says, and no more than a file may have, if it didn't have more before; each is the one that the call
/// brings there, else the old one, else 0. An append-only file changes only by a Write to its end, and keeps its bytes,
/// followed by just those that the call brings.
pub fn rewritten()
    ensures { EachCall Rewritten }
{}

/// A mode changes only by a Chmod at the row's path, of its owner or user 0 who reaches it, where no flag fixes it; or it
/// loses just its set-id bits by a call of another than user 0 at the row's path: a Chown of whoever owns the row so, or
/// a Write or a SetLength of whoever may write the file; of an append-only file only a Write to its end.
pub fn remoded()
    ensures { EachCall Remoded }
{}

/// An owner or a group changes only by a Chown at the row's path, where no flag fixes it, of user 0 or of the owner, who
/// keeps the owner and gives one of his groups.
pub fn given()
    ensures { EachCall Given }
{}

/// Flags change only by a Chflags at the row's path, of its owner or user 0 who reaches it. The system's flags, and all
/// flags of what is locked by them, change only by user 0; above level 0 no lock of the system is turned off.
pub fn reflagged()
    ensures { EachCall Reflagged }
{}

/// The securelevel changes only by a SetLevel of user 0 to the call's level, and falls only by init.
pub fn relevelled()
    ensures { EachCall Relevelled }
{}

/// A call changes one thing at most: one row, or the securelevel; a Rename two rows where the one at its first path gets the
/// place of the one at its second, which is gone. Of a row that stays a call changes only its bytes, or its parent and name,
/// or its mode, or its owner and group, or its flags; set-id bits may go with bytes, owner or group. A Stat, a Read, a List,
/// a Sync, and a call that isn't served change nothing.
pub fn one_thing()
    ensures { EachCall OneThing }
{}

/// A denial is true and tells little. Every row on the path before its component is a directory that grants the caller
/// search, and of the row there it says that its rule is broken:
///
/// - N1: it is a file. S1: it is a directory that doesn't grant him search. N2: it isn't there.
/// - N3: the path ends there. K3: so, at the root. K1: at a directory. K2: at one in which something hangs.
/// - K4: it is the row that is moved, and the path goes on.
/// - F1: it is immutable. F2: it is append-only. M1: it doesn't grant him read. M2: it doesn't grant him write.
/// - Y1: its parent is sticky, and he is neither user 0 nor the owner of one of the two.
/// - O1: he is neither user 0 nor its owner. O2: nor an owner who keeps the owner, and the group or gives one of his own.
/// - L1: he isn't user 0, and the call changes system flags, or flags beside a system lock. L2: the level is above 0, and
///   the call turns off a system lock. Z1: the file would pass its limit.
///
/// A denial of a SetLevel tells of no path: he isn't user 0 (U1), or isn't init and the level would fall (L3).
pub fn tells_little()
    ensures { TellsLittle }
{}

/// A refusal for a resource is true. Its caller may make the call; NoInodes comes only to a Create or a Mkdir where each number
/// from 4 up has a row; DirectoryFull only for a free name in a directory that has at least 16,524; NoSpace to no Stat, Read,
/// List or SetLevel. No other refusal has an entry.
pub fn refused_truly()
    ensures { RefusedTruly }
{}

/// A denial names a rule that its call asks, of an object of which it asks it. On the way to what a path names these are N1 and S1
/// of each row before the last and N2 of each name, to a place for a name not N2 of the last, and K4 of a Rename; of the directory
/// in which a name comes or goes F1 and M2, and F2 where one goes; at the end the call's own: of a Read K1 and M1, of a List N1 and
/// M1, of a Write and a SetLength K1, F1, M2, F2 and Z1, of what is made N3, of what is taken away K3, Y1, F1, F2 and its kind.
pub fn names_what_it_asks()
    ensures { NamesWhatItAsks }
{}

/// Two calls of a caller are decided alike that differ only in the mode; in bytes, places and lengths, both at the end or
/// both at a place, both within or both past the limit; in a Read's offset and length; in user flags; or in the group of
/// a Chown, both the caller's groups.
pub fn decides_alike()
    ensures { DecidesAlike }
{}

/// What decides nothing. Level -1 decides as 0 and level 2 as 1, but a SetLevel. The order of a caller's groups and how often
/// each stands among them decides nothing, nor whether he is init, but of a SetLevel. UF_NODUMP and SF_ARCHIVED of a row decide
/// nothing, but SF_ARCHIVED where another than user 0 sets flags.
pub fn decides_nothing()
    ensures levels { LevelsAlike }
    ensures callers { CallersAlike }
    ensures marks { MarksAlike }
{}

/// Two trees in which a caller has the same view of a call decide it alike, and where they allow it, answer it alike. The
/// view is the level; along each path of the call what a Stat shows of each row, or that none is there, up to and
/// including the first that is no directory which grants him search; and for a Read or a List of a row that he reaches
/// and that grants him read, its bytes or its children's names. One thing more an Rmdir and a Rename tell: whether the
/// directory that they would remove is empty. This says nothing of refusals for want of a resource, nor of the number of a
/// new row.
pub fn same_view()
    ensures { View }
{}

/// Each call leaves a tree where it found one.
pub fn leaves_tree()
    ensures { EachCall LeavesTree }
{}

/// A Stat, a Read or a List shows the row at the call's path, which the caller reaches: a Stat its attributes, a Read
/// bytes of a file that grants the caller read, a List exactly the names in a directory that grants him read, each once,
/// in byte order. No other call shows anything.
pub fn shown()
    ensures { EachCall Shown }
{}

/// Through each legal list of entries from any tree in which no file is longer than a file may be, as a fresh volume's, each entry may
/// happen where it stands; before and after it there is such a tree. A user's call that was served, or refused for a resource,
/// he might make, one that was denied he might not; it meets each of the laws of what one call does, changes and shows. A
/// cleaner's call changes nothing.
pub fn each_entry()
    ensures each { EachEntry }
    ensures opening { OpensSound }
{}

/// Where a row has other bytes, another place, another mode, owner or group, or other flags at a later point of a run from any tree,
/// a call in between was served that changed them, and whose caller might do so then; or one that removed the row, of a caller
/// who might. So it is with another level, with a row that wasn't there, and with one that is gone; and a row that has a set-id
/// bit, where it had none, got it by a Chmod of one who might.
pub fn changed_between()
    ensures bytes { BytesBetween }
    ensures place { PlaceBetween }
    ensures mode { ModeBetween }
    ensures set_id { SetIdBetween }
    ensures owner { OwnerBetween }
    ensures flags { FlagsBetween }
    ensures level { LevelBetween }
    ensures made { MadeBetween }
    ensures gone { GoneBetween }
{}

/// The users' entries alone, without the cleaner's, the Syncs and those refused for a resource, are a legal list of
/// calls that leads to the same tree: neither the cleaner nor a refusal makes a difference to any answer. Each of these entries may be
/// left out by itself.
pub fn users_alone()
    ensures all { UsersAlone }
    ensures each { IdleLeftOut }
{}

/// Leaving out the cleaner's calls changes no answer. Two legal lists of entries from one tree whose users' entries alone, but
/// Syncs and calls refused for a resource, make the same calls, by the same sessions and credentials and in the same order,
/// have the same answers to them and lead to the same tree, whatever the cleaner did in between.
pub fn same_answers()
    ensures { SameAnswers }
{}

/// Whoever isn't granted to read a file learns nothing of its bytes but how many they are. By a call: with other bytes in files that
/// he isn't granted to read or doesn't reach, each answer that it may have it may have still, NoInodes, DirectoryFull and NoSpace
/// among them. Through a run of users whom the file grants no read and who don't own it: with other bytes in it, the same answers
/// may come, whatever they call and the cleaner does.
pub fn nobody_reads()
    ensures call { NobodyReads }
    ensures run { NobodyReadsInRun }
{}

/// Each byte of a file is what the last call of a run that set it made of it: a Write that covers the byte puts its own there; a
/// SetLength to at most the byte's place and the Create of the file make it 0. Where none set it, it is what it was in the tree
/// that the run began with, and 0 where the file had no such byte; a fresh volume's tree has no file.
pub fn last_written()
    ensures last { LastWritten }
    ensures opening { LastWrittenSinceOpening }
{}

/// Each attribute of a row is what the last served call of a run that set it made of it; where none set it, it is what it was in the
/// tree that the run began with. What makes the row sets all: its kind, no bytes, the caller as owner, the parent's group, the mode of
/// the call, no flags, its place. Besides, a Write that ends past the file's end sets the size to where it ends, and a SetLength to its
/// length; a Chown sets owner and group; a Chmod the mode; a Chflags the flags; and a Rename from the row's path its place. Of set-id
/// bits a row has none after a Write of a byte, a SetLength or a Chown of another than user 0. From a fresh volume's tree on, a call
/// set each of these of each row but the root.
pub fn last_set()
    ensures kind { KindLastSet }
    ensures size { SizeLastSet }
    ensures owner { OwnerLastSet }
    ensures group { GroupLastSet }
    ensures permissions { PermissionsLastSet }
    ensures set_ids { SetIdsLastSet }
    ensures flags { FlagsLastSet }
    ensures place { PlaceLastSet }
    ensures opening { AllSetSinceOpening }
{}

/// An immutable file or directory stays in its directory with its name, its bytes and its attributes, whatever is
/// called, until its flags are set.
pub fn immutable_stays()
    ensures { ImmutableStays }
{}

/// An append-only file stays in its directory with its name, its owner, its group and, but for the set-id bits, its mode;
/// its bytes stay in front of those that it gets, and its size never falls, whatever is called, until its flags are set.
pub fn append_only_grows()
    ensures { AppendOnlyGrows }
{}

/// Above level 0 nothing turns SF_IMMUTABLE or SF_APPEND off, not even user 0: what has the one keeps it and all but its other
/// flags, and what has the other keeps it and only grows; what hangs in a directory with either hangs there under its name, and in
/// one with SF_IMMUTABLE nothing else; a path through such directories leads to the same row. So it is whatever is called, until
/// init lets the level fall to 0 or below.
pub fn system_locks_stay()
    ensures immutable { SystemImmutableStays }
    ensures append_only { SystemAppendOnlyGrows }
    ensures names { SystemNamesStay }
    ensures come { NoSystemNameComes }
    ensures path { SystemPathStays }
{}

/// Where a row grants a user something at a later point of a run that it didn't grant, or no longer what it did, its owner then
/// or user 0 set its mode, or gave it, in between; or it was removed, by a caller who might.
pub fn regranted_between()
    ensures { RightBetween }
{}

/// What hangs in an immutable or an append-only directory hangs there under its name, and in an immutable one nothing else,
/// whatever is called, until the directory's flags are set.
pub fn locked_names_stay()
    ensures stay { NamesStay }
    ensures come { NoNameComes }
{}

/// What stands beneath a directory stays as it is through any calls of users whom the directory doesn't grant search and who
/// don't own it, whatever they and the cleaner do.
pub fn closed_door()
    ensures { ClosedDoor }
{}

/// What stands beneath a directory makes no difference to users whom the directory doesn't grant search. Two trees that differ
/// only there decide each call of theirs alike, but that a Rmdir of the directory itself and a Rename onto it tell whether it
/// is empty; and where they allow it, they answer it alike. Where none of them owns the directory, this holds through each run:
/// the answers that may come from the one tree may come from the other, refusals for a resource among them. If one of them lists
/// the directory, which grants him read, the same names must hang in it. If one would take it away, and no rule before K2 denies
/// that, it must be empty in both trees or in neither. If one is allowed to make a row, the same numbers must be in use: they are
/// no secret, since a new row gets the least that no row has, wherever the others hang.
pub fn closed_door_hides()
    ensures call { HidesFromCall }
    ensures run { HidesFromRun }
{}

/// A path stays as it is through any calls of users who own no row on it and may take none away, as the rows are before the
/// first call: it leads through the same rows, in the same places and with the same kinds, owners, groups, modes and flags, and
/// a walk along it asks the same of everybody. Only a file at its end may get other bytes, and lose its set-id bits with them.
/// He may not take a row away whose directory grants him no write or no search, is immutable, append-only, or sticky and not
/// his, nor one that is itself immutable or append-only. An owner is as harmless as others where the system locks his row.
pub fn path_stays()
    ensures stays { PathStays }
    ensures guarded { GuardedIsLeft }
{}

/// Through any calls of users who are neither user 0 nor its owner a row keeps its kind, its owner, its group and its flags and,
/// but for the set-id bits, its mode; or one of them removed it, who might.
pub fn strangers_leave()
    ensures { StrangersLeave }
{}

/// A row stays in its directory under its name through any calls of users who are not user 0, own neither of the two, and are kept
/// from the row: the directory grants them no write or no search, is sticky, or is fixed by a flag; or the row is fixed by one. Of both
/// nothing changes but a file's bytes, with its set-id bits, and the directory's own place, whatever becomes of the directories above.
pub fn row_is_kept()
    ensures { RowIsKept }
{}

/// A path that leads to a row leads on, at each point of a run from any tree: to the same row; or nowhere, where a served Unlink or
/// Rmdir removed that row, or a served Rename moved a row on the path; or, where a served Rename moved another row into its place,
/// to that row, of which nothing else changed. So a path that no call cuts off leads to a row after each call.
pub fn path_leads_on()
    ensures step { PathLeadsOn }
    ensures run { PathLeadsThrough }
{}

/// The classes of callers, by the bits of a mode. User 0 is granted all; the owner is by the first of three bits alone; else who has
/// the group among his groups by the second alone; else by the third. To read a file and to list a directory they are 0400, 040 and
/// 04; to write a file that no flag locks, and to make a name in such a directory, 0200, 020 and 02; to look for a name in a
/// directory 0100, 010 and 01.
pub fn classes_by_bits()
    ensures read { ReadByBits }
    ensures list { ListByBits }
    ensures write { WriteByBits }
    ensures search { SearchByBits }
    ensures make { MakeByBits }
{}

/// What no flag locks gets a mode from user 0 and from its owner; an owner and a group from user 0, and from its owner, who keeps the
/// owner, and the group or gives one of his groups.
pub fn owners_by_number()
    ensures mode { ModeByOwner }
    ensures group { GroupByOwner }
{}

/// What each flag locks, of user 0 too, whom no mode stops. A short file takes a byte at its end, and a directory a free name,
/// exactly where neither 0x2 (UF_IMMUTABLE) nor 0x20000 (SF_IMMUTABLE) is set; a file takes a byte at its beginning, and a file or a
/// directory a mode, where neither 0x4 (UF_APPEND) nor 0x40000 (SF_APPEND) is set either. No other flag locks anything.
pub fn locks_by_bits()
    ensures append { AppendByFlags }
    ensures write { WriteByFlags }
    ensures make { MakeByFlags }
    ensures mode { ModeByFlags }
{}

/// User 0 alone sets the level, and lower only as init: the levels are -1, 0, 1 and 2. Another than user 0 sets flags of what he owns
/// exactly where the bits from 0x10000 on stay and neither 0x20000 nor 0x40000 is set; user 0 always, but at levels 1 and 2 only
/// where a set 0x20000 or 0x40000 stays set.
pub fn levels_by_number()
    ensures level { LevelByNumber }
    ensures owner { FlagsByOwner }
    ensures superuser { FlagsByLevel }
{}

/// Byte k of an allowed Write stands at its place plus k; of one to the end, at the size that the file had plus k. A Read shows as
/// many bytes as it asks for, but 4,096 at most and none behind the file's last; its byte i is byte off + i of the file.
pub fn bytes_by_place()
    ensures at { WritesAt }
    ensures end { WritesAtEnd }
    ensures read { ReadsFrom }
{}

/// A file that no flag locks gets a length and bytes of user 0 exactly up to 8,460,288; a new row gets the least number from 4 up
/// that no row has.
pub fn limits_by_number()
    ensures length { LengthByNumber }
    ensures write { WriteByNumber }
    ensures append { AppendByNumber }
    ensures first { FirstNumber }
{}

/// A fresh volume's tree is a root of number 2, user 0 and group 0, of mode 0755 and with no flags, and nothing else; its level
/// is 0.
pub fn opens_by_number()
    ensures root { OpensWithRoot }
    ensures alone { OpensAlone }
    ensures level { OpensInsecure }
{}

/// A mode that another call than a Chmod changes loses 04000 and 02000, and keeps its ten lower bits; by another than user 0. A
/// set-id bit is fresh: where another than user 0 wrote a byte to a row, gave it a length, or an owner and a group, and it has one
/// of the two at the end of a run, somebody set it since, by a Chmod, who might; or removed the row, who might.
pub fn set_ids_by_bits()
    ensures go { SetIdsGo }
    ensures fresh { SetIdsAreFresh }
{}

/// A path leads name by name, from the root, to what hangs in the row before under each; and a Stat of it shows that row.
pub fn paths_by_names()
    ensures leads { LeadsByNames }
    ensures shows { ShowsByNames }
{}
