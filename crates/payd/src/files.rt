//! The files that words name. Each is judged before the next is read.

ghost use Rattle.std.specs.Prelude.{◌≡◌, IfErr, IfOk, length, ◌+◌, ◌≤◌, ℕ, List, Ok, Some, IfSome};
ghost use Rattle.std.specs.Prelude.{map, min, sum_by, take};
ghost use Rattle.std.specs.List.{AllZip};
ghost use Rattle.std.specs.Option.{option_map};
ghost use Rattle.pay_link.specs.Files.{genesis_in, keys_in_file};
ghost use Rattle.pay_link.specs.Keys.{IsKeysOf};
ghost use Rattle.payd.specs.Files.{ArePortsIn, IsPortsStop, AreKeysIn, AreOfMember, IsExportOf};
ghost use Rattle.payd.specs.Files.{IsExportStop, IsExportsStop, IsGenesisFault, IsGenesisOf};
ghost use Rattle.payd.specs.Files.{IsGenesisStop, IsKeysFault, IsKeysStop, IsMemberStop, IsUnread};
ghost use Rattle.payd.specs.Files.{IsVerdictOn, memory_of_byte, most_bytes, takes_too_much};

use crate::folders::{Given, given_in};
use crate::stop::Stop;
use pay_audit::{Auditor, Export, Verdict, read_export};
use pay_frame::EngineFault;
use pay_link::{Genesis, Keys, test_keys};
use pay_net::Ports;
use std::alloc::Global;
use std::fs::OpenFile;
use std::io::Read;
use std::os::unix::fs::PermissionsExt;
use std::rt::Files;
use std::{fs, io};

/// Returns the ports in the file `name`.
// promise: words and files
pub(crate) fn ports_of<'a, F: NamedFiles>(
    alloc: Global,
    files: &F,
    genesis: &Genesis,
    name: &'a str,
) -> Result<Ports, Stop<'a>>
    ensures value { IfOk result
        (ArePortsIn (F.holds files.now) genesis.now.members name.entry.now) }
    ensures stop { IfErr result
        (IsPortsStop (F.holds files.now) genesis.now.members name.entry.now) }
    ensures count { IfOk result (λ ports. length ports ≡ genesis.now.members) }
{
    let bytes = files.bytes_of(alloc, name)?;
    match Ports::read(alloc, genesis, bytes.as_slice()) {
        Ok(ports) => Ok(ports),
        Err(fault) => Err(Stop::Ports(fault, name)),
    }
}

/// The bits of a mode that let others than a file's owner use it.
const OTHERS: u32 = 0o077;

/// The greatest size of a file in bytes. A larger file counts as unreadable.
pub(crate) const MOST_BYTES: u64 = 1_073_741_824;

/// The limits of the memory that a file's contents may take: this many times its size, and this
/// much more. The file's characters tell the need before it is read. These parts have a cost each:
/// an item of a list, the room of a list with items, an object's first member, an end of a text,
/// any other byte.
const MOST_TIMES: u64 = 16;

const ROOM: u64 = 1 << 22;

const OF_ITEM: u64 = 33;

const OF_LIST: u64 = 176;

const OF_MEMBER: u64 = 900;

const OF_END: u64 = 7;

const OF_BYTE: u64 = 14;

/// The members, faults and opening amounts that apply if no file names them.
const MEMBERS: u64 = 4;

const FAULTS: u64 = 1;

const OPENING: [u64; 4] = [100, 0, 0, 50];

/// A provider of the bytes of files by their names.
pub(crate) trait NamedFiles {
    // The bytes that the file of a name may hold.
    ghost holds: { Self → List ℕ → List ℕ → Type 0 };

    /// Returns all bytes of the file `name`.
    fn bytes_of<'a>(&self, alloc: Global, name: &'a str) -> Result<Vec<u8>, Stop<'a>>
        ensures ok { IfOk result (λ bytes. holds self.now name.entry.now bytes.items) }
        ensures err { IfErr result (IsUnread name.entry.now) };
}

impl<F: Files> NamedFiles for F {
    ghost use Rattle.std.specs.Prelude.{◌≡◌, ◌≤◌, false, length};
    ghost use Rattle.payd.specs.Files.{most_bytes, takes_too_much};

    // all that is known about a file's contents is that they aren't too long, and have few enough
    // parts
    ghost holds = { λ _ _ bytes. (length bytes ≤ most_bytes) × (takes_too_much bytes ≡ false) };

    fn bytes_of<'a>(&self, alloc: Global, name: &'a str) -> Result<Vec<u8>, Stop<'a>> {
        match read(alloc, self, name) {
            Ok(bytes) => {
                if bytes.len() as u64 > MOST_BYTES {
                    return Err(Stop::File(name, io::ErrorKind::FileTooLarge));
                }
                if takes_too_much(bytes.as_slice()) {
                    return Err(Stop::Parts(name));
                }
                Ok(bytes)
            }
            Err(error) => {
                if error.kind() == io::ErrorKind::OutOfMemory {
                    return Err(Stop::Engine(EngineFault::Memory));
                }
                Err(Stop::File(name, error.kind()))
            }
        }
    }
}

/// Returns whether the contents of a text of JSON may take too much memory for its size.
// promise: words and files
fn takes_too_much(bytes: &[u8]) -> bool
    requires { length bytes.now ≤ most_bytes }
    ensures { result ≡ takes_too_much bytes.now }
{
    let memory = memory_of(bytes);
    memory > MOST_TIMES * bytes.len() as u64 + ROOM
}

// Returns how much memory the contents of `bytes` may take.
fn memory_of(bytes: &[u8]) -> u64
    ensures { result ≡ min (sum_by memory_of_byte bytes.now) u64.MAX }
{
    let mut sum: u64 = 0;
    for byte in bytes {
        sum = sum.saturating_add(memory_of_byte(*byte));
    }
    sum
}

fn memory_of_byte(byte: u8) -> u64
    ensures { result ≡ memory_of_byte byte }
{
    match byte {
        b',' => OF_ITEM,
        b'[' => OF_LIST,
        b':' => OF_MEMBER,
        b'"' => OF_END,
        b']' | b'{' | b'}' => 1,
        _ => OF_BYTE,
    }
}

/// Returns a member's genesis and its keys, from the files of the names `genesis` and `keys`.
// promise: words and files
pub(crate) fn member_of<'a, F: NamedFiles>(
    alloc: Global,
    files: &F,
    genesis: &'a str,
    keys: &'a str,
) -> Result<(Genesis, Keys), Stop<'a>>
    ensures value { IfOk result (λ member. AreOfMember (F.holds files.now)
        genesis.entry.now keys.entry.now member.0 member.1) }
    ensures stop { IfErr result (IsMemberStop (F.holds files.now)
        genesis.entry.now keys.entry.now) }
    ensures genesis { IfOk result (λ member. IsKeysOf member.0 member.1) }
{
    let Given { genesis, keys, .. } = given_in(alloc, files, genesis, keys)?;
    Ok((genesis, keys))
}

/// Returns a member's genesis and its keys, from the files of the names `genesis` and `keys`. If a
/// file isn't named, four members or the test keys take its place.
pub(crate) fn member_or_test<'a, F: NamedFiles>(
    alloc: Global,
    files: &F,
    genesis: Option<&'a str>,
    keys: Option<&'a str>,
) -> Result<(Genesis, Keys), Stop<'a>>
    ensures { IfOk result (λ member. IsKeysOf member.0 member.1) }
{
    if let (Some(genesis), Some(keys)) = (genesis, keys) {
        return member_of(alloc, files, genesis, keys);
    }
    let genesis = genesis_of(alloc, files, genesis)?;
    let keys = keys_of(alloc, files, &genesis, keys)?;
    Ok((genesis, keys))
}

/// Returns the genesis that `bytes`, the contents of the file `name`, are.
pub(crate) fn genesis_in<'a>(
    alloc: Global,
    bytes: &[u8],
    name: &'a str,
) -> Result<Genesis, Stop<'a>>
    ensures value { IfOk result (λ genesis. genesis_in bytes.now ≡ Ok genesis) }
    ensures stop { IfErr result (IsGenesisFault name.entry.now bytes.now) }
{
    match Genesis::read(alloc, bytes) {
        Ok(genesis) => Ok(genesis),
        Err(fault) => Err(Stop::Genesis(fault, name)),
    }
}

/// Returns the keys that `bytes`, the contents of the file `name`, are.
pub(crate) fn keys_in<'a>(
    alloc: Global,
    genesis: &Genesis,
    bytes: &[u8],
    name: &'a str,
) -> Result<Keys, Stop<'a>>
    ensures value { IfOk result (λ keys. keys_in_file genesis.now.members bytes.now ≡ Ok keys) }
    ensures stop { IfErr result (IsKeysFault name.entry.now genesis.now.members bytes.now) }
    ensures genesis { IfOk result (IsKeysOf genesis.now) }
{
    match Keys::read(alloc, genesis, bytes) {
        Ok(keys) => Ok(keys),
        Err(fault) => Err(Stop::Keys(fault, name)),
    }
}

/// Returns the genesis in the file `name`, or that of four members.
// promise: words and files
fn genesis_of<'a, F: NamedFiles>(
    alloc: Global,
    files: &F,
    name: Option<&'a str>,
) -> Result<Genesis, Stop<'a>>
    ensures value { IfOk result (IsGenesisOf (F.holds files.now)
        (option_map (λ name. name.now) name.entry)) }
    ensures stop { IfErr result (IsGenesisStop (F.holds files.now)
        (option_map (λ name. name.now) name.entry)) }
{
    match name {
        Some(name) => {
            let bytes = files.bytes_of(alloc, name)?;
            genesis_in(alloc, bytes.as_slice(), name)
        }
        None => match Genesis::new(alloc, MEMBERS, FAULTS, &OPENING) {
            Ok(genesis) => Ok(genesis),
            Err(_) => Err(Stop::Engine(EngineFault::Memory)),
        },
    }
}

/// Returns the keys in the file `name`, or the test keys of member 1, or of member 0 if there is no
/// other.
// promise: words and files
fn keys_of<'a, F: NamedFiles>(
    alloc: Global,
    files: &F,
    genesis: &Genesis,
    name: Option<&'a str>,
) -> Result<Keys, Stop<'a>>
    ensures value { IfOk result (AreKeysIn (F.holds files.now) genesis.now.members
        (option_map (λ name. name.now) name.entry)) }
    ensures stop { IfErr result (IsKeysStop (F.holds files.now) genesis.now.members
        (option_map (λ name. name.now) name.entry)) }
    ensures genesis { IfOk result (IsKeysOf genesis.now) }
{
    match name {
        Some(name) => {
            let bytes = files.bytes_of(alloc, name)?;
            keys_in(alloc, genesis, bytes.as_slice(), name)
        }
        None => {
            let own = if genesis.members() > 1 { 1 } else { 0 };
            Ok(test_keys(alloc, genesis, own)?)
        }
    }
}

/// Returns what is wrong with the exports in the files of these `names`, if anything is. Each
/// export is dropped before the next is read.
// promise: words and files
pub(crate) fn verdict_on<'a, F: NamedFiles>(
    alloc: Global,
    files: &F,
    names: &[&'a str],
) -> Result<Verdict, Stop<'a>>
    ensures verdict { IfOk result (IsVerdictOn (F.holds files.now)
        (map (λ name. name.now) names.now)) }
    ensures stop { IfErr result (IsExportsStop (F.holds files.now)
        (map (λ name. name.now) names.now)) }
{
    let mut auditor = Auditor::new(alloc);
    for name in names {
        let export = export_of(alloc, files, name)?;
        auditor = auditor.take(alloc, export)?;
    }
    Ok(auditor.verdict())
}

/// Returns the exports in the files of these `names`, in their order. All exports are in memory at
/// once.
// promise: words and files
pub(crate) fn exports_of<'a, F: NamedFiles>(
    alloc: Global,
    files: &F,
    names: &[&'a str],
) -> Result<Vec<Export>, Stop<'a>>
    ensures read { IfOk result (λ exports. AllZip (IsExportOf (F.holds files.now))
        (map (λ name. name.now) names.now) exports.items) }
    ensures stop { IfErr result (IsExportsStop (F.holds files.now)
        (map (λ name. name.now) names.now)) }
{
    let mut exports = Vec::new(alloc);
    for name in names {
        let export = export_of(alloc, files, name)?;
        exports.push(export)?;
    }
    Ok(exports)
}

/// Returns the export in the file `name`.
// promise: words and files
pub(crate) fn export_of<'a, F: NamedFiles>(
    alloc: Global,
    files: &F,
    name: &'a str,
) -> Result<Export, Stop<'a>>
    ensures value { IfOk result (IsExportOf (F.holds files.now) name.entry.now) }
    ensures stop { IfErr result (IsExportStop (F.holds files.now) name.entry.now) }
{
    let bytes = files.bytes_of(alloc, name)?;
    match read_export(alloc, bytes.as_slice()) {
        Ok(export) => Ok(export),
        Err(fault) => Err(Stop::Export(fault, name)),
    }
}

/// Prints a warning on standard error if others than the owner may use the file of keys `name`.
pub(crate) fn warn_of_keys(rt: &(impl Files + Eprint), name: &str) {
    if let Ok(metadata) = fs::metadata(rt, name) {
        if metadata.permissions().mode() & OTHERS != 0 {
            let _ = eprintln!(rt; "payd: others may read the keys in {name}: chmod 600 {name}");
        }
    }
}

/// Returns the bytes of the file `name`, or one byte more than the limit.
fn read(alloc: Global, rt: &impl Files, name: &str) -> io::Result<Vec<u8>> {
    let file = fs::open(rt, name)?;
    if file.metadata()?.len() > MOST_BYTES {
        return Err(io::Error::from(io::ErrorKind::FileTooLarge));
    }
    read_within(alloc, file)
}

/// Returns all bytes that are left of `source`, or one byte more than the limit of a file.
fn read_within<R: Read + Drop>(alloc: Global, source: R) -> io::Result<Vec<u8>>
    ensures { IfOk result (λ bytes. IfSome (R.remaining source) (λ left.
        bytes.items ≡ take (most_bytes + 1) left)) }
{
    let mut bytes = Vec::new(alloc);
    source.take(MOST_BYTES + 1).read_to_end(&mut bytes)?;
    Ok(bytes)
}
