//! The folder of a member, and the copies there of the files that its node is given.

ghost use Rattle.std.specs.Prelude.{◌≡◌, ℕ, List, Ok, IfErr, IfOk, IsTrue, [], false};
ghost use Rattle.pay_link.specs.Files.{genesis_in, keys_in_file};
ghost use Rattle.pay_link.specs.Keys.{IsKeysOf};
ghost use Rattle.pay_member.specs.Events.{events};
ghost use Rattle.pay_member.specs.Group.{group_in};
ghost use Rattle.pay_member.specs.Remembering.{Remembers};
ghost use Rattle.pay_record.specs.Resuming.{IsOfRecords};
ghost use Rattle.payd.specs.Files.{AreOfMember, IsMemberStop};

use crate::advice::say_unwritten;
use crate::files::{NamedFiles, genesis_in, keys_in};
use crate::groups::are_of_two_groups;
use crate::stop::Stop;
use pay_echo::MaskInstance;
use pay_link::{Genesis, Keys};
use pay_log::{
    FoundLog, FoundRest, LogFault, LogFile, LogLock, LogView, MadeLog, make_log, name_log,
    open_log, view_log,
};
use pay_node::OwnMember;
use pay_pending::WaitingBook;
use pay_record::{Restarted, Resumed, begin, restart, view};
use std::alloc::{AllocError, Global};
use std::fs::File;
use std::io::Write;
use std::os::unix::fs::{OpenOptionsExt, PermissionsExt};
use std::rt::Files;
use std::{fs, io};

/// The names of the copies in a node's folder, and their modes.
const GROUP: &str = "group.json";

const GROUP_MODE: u32 = 0o640;

const KEYS: &str = "keys.json";

const KEYS_MODE: u32 = 0o600;

/// The bits of a file's mode that give permissions.
const PERMISSIONS: u32 = 0o777;

/// A genesis, the keys of one of its members, and the bytes of their files.
#[derive(Drop)]
pub(crate) struct Given {
    pub(crate) genesis: Genesis,
    pub(crate) keys: Keys,
    pub(crate) copies: Copies,
}

/// The bytes of the files of a group and of keys.
#[derive(Drop)]
pub(crate) struct Copies {
    group: Vec<u8>,
    keys: Vec<u8>,
}

/// Returns the contents of the files of the names `genesis` and `keys`.
pub(crate) fn given_in<'a, F: NamedFiles>(
    alloc: Global,
    files: &F,
    genesis: &'a str,
    keys: &'a str,
) -> Result<Given, Stop<'a>>
    ensures value { IfOk result (λ given. AreOfMember (F.holds files.now)
        genesis.entry.now keys.entry.now given.genesis given.keys) }
    ensures group { IfOk result (λ given.
        genesis_in given.copies.group.items ≡ Ok given.genesis) }
    ensures keys { IfOk result (λ given.
        keys_in_file given.genesis.members given.copies.keys.items ≡ Ok given.keys) }
    ensures of { IfOk result (λ given. IsKeysOf given.genesis given.keys) }
    ensures stop { IfErr result (IsMemberStop (F.holds files.now)
        genesis.entry.now keys.entry.now) }
{
    let group = files.bytes_of(alloc, genesis)?;
    let genesis = genesis_in(alloc, group.as_slice(), genesis)?;
    let bytes = files.bytes_of(alloc, keys)?;
    let found = keys_in(alloc, &genesis, bytes.as_slice(), keys)?;
    if are_of_two_groups(alloc, &genesis, group.as_slice(), bytes.as_slice())? {
        return Err(Stop::OtherGroup(keys));
    }
    Ok(Given {
        genesis,
        keys: found,
        copies: Copies { group, keys: bytes },
    })
}

impl Copies {
    /// Returns the bytes of the group's file.
    pub(crate) fn group(&self) -> &[u8]
        ensures { result.now ≡ self.now.group.items }
    {
        self.group.as_slice()
    }

    /// Writes the copies into `folder`. If that fails, it is reported and the node continues.
    pub(crate) fn keep<R: Files<File = File> + Eprint>(
        &self,
        alloc: Global,
        rt: &R,
        folder: &str,
    ) -> Result<(), AllocError> {
        let group = format!(in alloc; "{folder}/{GROUP}")?;
        keep_copy(alloc, rt, group.as_str(), self.group.as_slice(), GROUP_MODE)?;
        let keys = format!(in alloc; "{folder}/{KEYS}")?;
        keep_copy(alloc, rt, keys.as_str(), self.keys.as_slice(), KEYS_MODE)
    }
}

fn keep_copy<R: Files<File = File> + Eprint>(
    alloc: Global,
    rt: &R,
    path: &str,
    bytes: &[u8],
    mode: u32,
) -> Result<(), AllocError> {
    if is_there(alloc, rt, path, bytes, mode)? {
        return Ok(());
    }
    let new_path = format!(in alloc; "{path}.new")?;
    if let Err(error) = write_copy(rt, new_path.as_str(), bytes, mode) {
        say_unwritten(rt, new_path.as_str(), error.kind());
    } else if let Err(error) = fs::rename(rt, new_path.as_str(), path) {
        say_unwritten(rt, path, error.kind());
    }
    Ok(())
}

// Returns whether a file has just these bytes, and nobody has more permissions.
fn is_there(
    alloc: Global,
    rt: &impl Files,
    path: &str,
    bytes: &[u8],
    mode: u32,
) -> Result<bool, AllocError> {
    let Ok(metadata) = fs::metadata(rt, path) else {
        return Ok(false);
    };
    if metadata.permissions().mode() & PERMISSIONS & !mode != 0 {
        return Ok(false);
    }
    match rt.bytes_of(alloc, path) {
        Ok(found) => Ok(found.as_slice() == bytes),
        Err(Stop::Engine(_)) => Err(AllocError),
        Err(_) => Ok(false),
    }
}

// Writes a copy as a whole, before it gets its name. It needs no sync: a start writes again what a
// power cut leaves of it.
fn write_copy<R: Files<File = File>>(
    rt: &R,
    new_path: &str,
    bytes: &[u8],
    mode: u32,
) -> io::Result<()> {
    // (a file that a killed start left)
    let _ = fs::remove_file(rt, new_path);
    let mut file = File::options()
        .write(true)
        .create_new(true)
        .mode(mode)
        .open(rt, new_path)?;
    file.write_all(bytes)
}

/// A member as its folder has it, with its log, in the forms of its parts that the program runs.
pub(crate) type KeptMember = Restarted<LogFile, MaskInstance, WaitingBook>;

/// How a member's log was found.
#[derive(Clone, Copy, Debug)]
pub(crate) enum FoundAs {
    /// The log was made just now.
    New,
    /// The log existed, with this many bytes after its last record block, which are kept elsewhere
    /// now.
    Log { dropped: u64 },
}

/// What was found in a folder.
#[derive(Drop)]
pub(crate) struct Opened {
    pub(crate) kept: KeptMember,
    pub(crate) found: FoundAs,
    /// The lock of the log. As long as it exists no other process has the log.
    pub(crate) lock: LogLock,
}

/// Returns the member in the folder `path`: from its log, or from a log that is made there if
/// `makes_new` is set.
pub(crate) fn open_member<R: Files<File = File>>(
    alloc: Global,
    rt: &R,
    genesis: &Genesis,
    keys: &Keys,
    path: &str,
    makes_new: bool,
) -> Result<Opened, LogFault>
    requires { IsKeysOf genesis.now keys.now }
    ensures genesis { IfOk result (λ opened. opened.kept.member.genesis ≡ genesis.now) }
    ensures keys { IfOk result (λ opened. opened.kept.member.keys ≡ keys.now) }
    ensures new { IsTrue makes_new
        → IfOk result (λ opened. opened.kept.member.history ≡ []) }
    ensures records { makes_new ≡ false → IfOk result (λ opened. (ps : List (List ℕ))
        × IsOfRecords keys.now opened.kept.member opened.kept.ids.items ps) }
    ensures remembers { makes_new ≡ false → IfOk result (λ opened.
        Remembers (group_in genesis.now keys.now.own) (events opened.kept.member.history)) }
{
    if makes_new {
        let MadeLog { file, lock } = make_log(rt, alloc, path)?;
        let kept = begin(alloc, file, genesis, keys)?;
        name_log(rt, alloc, path)?;
        return Ok(Opened {
            kept,
            found: FoundAs::New,
            lock,
        });
    }
    let FoundLog { old, new, rest } = open_log(rt, alloc, path)?;
    let mut old = old;
    match restart(alloc, &mut old, new, genesis, keys) {
        Ok(kept) => settle_member(rt, alloc, path, old, rest, kept),
        Err(fault) => {
            rest.forget(rt, alloc, path)?;
            Err(fault)
        }
    }
}

// Returns the member of a log that was written again, after the new log got the old one's name.
fn settle_member<R: Files<File = File>>(
    rt: &R,
    alloc: Global,
    path: &str,
    old: LogFile,
    rest: FoundRest,
    kept: KeptMember,
) -> Result<Opened, LogFault>
    ensures { IfOk result (λ opened. opened.kept ≡ kept) }
{
    let (lock, dropped) = rest.settle(rt, alloc, path, old, kept.len)?;
    Ok(Opened {
        kept,
        found: FoundAs::Log { dropped },
        lock,
    })
}

/// A member as its log has it at this moment, whichever process has the log.
#[derive(Drop)]
pub(crate) struct Viewed {
    pub(crate) member: OwnMember,
    /// True if another process has the log.
    pub(crate) is_held: bool,
    /// The count of bytes that the log has after its last record block.
    pub(crate) behind: u64,
}

/// Returns the member of the log in the folder `path`. Nothing changes there.
pub(crate) fn view_member<R: Files<File = File>>(
    alloc: Global,
    rt: &R,
    genesis: &Genesis,
    keys: &Keys,
    path: &str,
) -> Result<Viewed, LogFault>
    requires { IsKeysOf genesis.now keys.now }
    ensures genesis { IfOk result (λ viewed. viewed.member.genesis ≡ genesis.now) }
    ensures keys { IfOk result (λ viewed. viewed.member.keys ≡ keys.now) }
{
    let mut log: LogView = view_log(rt, alloc, path)?;
    let Resumed { member, len, .. } = view(alloc, &mut log.file, genesis, keys)?;
    Ok(Viewed {
        member,
        is_held: log.is_held,
        behind: log.bytes_after(len)?,
    })
}
