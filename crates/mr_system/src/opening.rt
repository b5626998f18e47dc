//! The files that a run has opened: each by one name, once, and kept open.

ghost use Rattle.std.specs.Prelude.{◌≡◌, ◌<◌, vec_len, length, IfOk, IfSome};

use crate::system_files::SystemFiles;
use mr_outside::ShelfErr;
use std::alloc::{AllocError, Global};
use std::fs::{self, File, Metadata, OpenFile, OpenOptions, Permissions};
use std::os::unix::fs::{MetadataExt, OpenOptionsExt, PermissionsExt};
use std::path::PathBuf;
use std::{io, rt};

// What tells files apart, whatever their names: a device, and a number on it, which is 0 where the
// file system tells none.
#[derive(Clone, Copy)]
struct Node {
    device: u64,
    number: u64,
}

/// An open file, the name that it was opened by, and whether it may be written; and where in the
/// file the next byte comes from, where that is known.
#[derive(Drop)]
pub(crate) struct Opened<F> {
    name: String,
    pub(crate) file: F,
    node: Node,
    writes: bool,
    pub(crate) stands: Option<u64>,
    // Whether its folder is to be synced beside it, since its name may be new.
    is_new: bool,
}

// The map that a run changes in place, and whether the run is refused where the map or its journal
// may not be written. Else they are then opened to be read.
#[derive(Drop)]
struct InPlace {
    map: String,
    must_write: bool,
}

/// The files that are open, and the map that is changed in place, where one is.
#[derive(Drop)]
pub(crate) struct Table<F> {
    in_place: Option<InPlace>,
    pub(crate) opened: Vec<Opened<F>>,
}

impl<F> Table<F> {
    /// No file is open, and no map is changed in place.
    pub(crate) fn new(alloc: Global) -> Table<F> {
        Table {
            in_place: None,
            opened: Vec::new(alloc),
        }
    }

    /// No file is open, and this map is changed in place.
    pub(crate) fn changing(
        alloc: Global,
        map: &str,
        must_write: bool,
    ) -> Result<Table<F>, AllocError> {
        let map = String::from_str(alloc, map)?;
        Ok(Table {
            in_place: Some(InPlace { map, must_write }),
            opened: Vec::new(alloc),
        })
    }

    // Whether of a map that is changed in place and its journal none is open to be read alone.
    fn are_writable(&self) -> bool {
        !self.opened.iter().any(|one| {
            !one.writes && !matches!(role_of(&self.in_place, one.name.as_str()), Role::Other)
        })
    }
}

// What a file is to a run.
#[derive(Clone, Copy)]
enum Role {
    // The map that is changed in place.
    Map,
    // Its journal.
    Journal,
    Other,
}

fn role_of(in_place: &Option<InPlace>, name: &str) -> Role {
    let Some(one) = in_place else {
        return Role::Other;
    };
    match name.as_bytes().strip_prefix(one.map.as_bytes()) {
        Some(rest) if rest.is_empty() => Role::Map,
        Some(rest) if rest == b".journal".as_slice() => Role::Journal,
        _ => Role::Other,
    }
}

fn must_write(in_place: &Option<InPlace>) -> bool {
    match in_place {
        Some(one) => one.must_write,
        None => true,
    }
}

pub(crate) fn refusal(error: io::Error) -> ShelfErr {
    match error.kind() {
        io::ErrorKind::NotFound => ShelfErr::Missing,
        io::ErrorKind::OutOfMemory => ShelfErr::NoMemory,
        _ => ShelfErr::Fault,
    }
}

// The same where it is no input that is missing.
fn failure(error: io::Error) -> ShelfErr {
    match refusal(error) {
        ShelfErr::NoMemory => ShelfErr::NoMemory,
        _ => ShelfErr::Fault,
    }
}

// Refuses what stands by this name and is no regular file. To open a pipe would wait for its other
// end, so this is asked before a file is opened.
fn check_regular<R: rt::Files>(rt: &R, name: &str) -> Result<(), ShelfErr> {
    if name.is_empty() {
        return Err(ShelfErr::Fault);
    }
    let about = fs::metadata(rt, name).map_err(refusal)?;
    if about.is_file() {
        Ok(())
    } else {
        Err(ShelfErr::Fault)
    }
}

// Refuses what stands by this name and is neither a regular file nor nothing.
fn check_output<R: rt::Files>(rt: &R, name: &str) -> Result<(), ShelfErr> {
    match check_regular(rt, name) {
        Err(ShelfErr::Missing) => Ok(()),
        answer => answer,
    }
}

// How a file is opened that is there.
fn opening(writes: bool) -> OpenOptions {
    let mut how = OpenOptions::new();
    how.read(true);
    how.write(writes);
    how
}

fn node_in(about: &Metadata) -> Node {
    Node {
        device: about.dev(),
        number: about.ino(),
    }
}

// What tells an open file from others, unless it is no regular one.
fn node_of<F: OpenFile>(file: &F) -> Result<Node, ShelfErr> {
    let about = file.metadata().map_err(failure)?;
    if !about.is_file() {
        return Err(ShelfErr::Fault);
    }
    Ok(node_in(&about))
}

fn is_same(one: Node, other: Node) -> bool {
    one.number != 0 && one.number == other.number && one.device == other.device
}

// Whether this file is open by another name.
fn is_open_elsewhere<F>(opened: &[Opened<F>], name: &str, node: Node) -> bool {
    opened
        .iter()
        .any(|one| one.name.as_str() != name && is_same(one.node, node))
}

// Whether it is open by another name to be written.
fn is_written_elsewhere<F>(opened: &[Opened<F>], name: &str, node: Node) -> bool {
    opened.iter().any(|one| one.writes && one.name.as_str() != name && is_same(one.node, node))
}

// Whether an open file may not be opened by this name too: nobody is to write to it who reads it by
// another one.
fn check_alone<F>(
    opened: &[Opened<F>],
    name: &str,
    node: Node,
    writes: bool,
) -> Result<(), ShelfErr> {
    let is_elsewhere = if writes {
        is_open_elsewhere(opened, name, node)
    } else {
        is_written_elsewhere(opened, name, node)
    };
    if is_elsewhere {
        Err(ShelfErr::Fault)
    } else {
        Ok(())
    }
}

// The place of the named file among those that are open.
fn place_of<F>(opened: &[Opened<F>], name: &str) -> Option<usize>
    ensures { IfSome result (λ place. place < length opened.now) }
{
    opened.iter().position(|one| one.name.as_str() == name)
}

// Keeps a file, in place of another of the same name, and answers its place.
fn keep<F: Drop>(opened: &mut Vec<Opened<F>>, one: Opened<F>) -> Result<usize, ShelfErr>
    ensures { IfOk result (λ place. place < vec_len opened.new) }
{
    if let Some(place) = place_of(opened, one.name.as_str()) {
        opened[place] = one;
        return Ok(place);
    }
    match opened.push(one) {
        Ok(()) => Ok(opened.len() - 1),
        Err(_) => Err(ShelfErr::NoMemory),
    }
}

// Opens a file that is there, and keeps it. Memory comes first.
fn open_other<R: SystemFiles>(
    rt: &R,
    alloc: Global,
    opened: &mut Vec<Opened<R::File>>,
    name: &str,
    writes: bool,
) -> Result<usize, ShelfErr>
    ensures { IfOk result (λ place. place < vec_len opened.new) }
{
    let text = String::from_str(alloc, name)?;
    opened.reserve(1)?;
    check_regular(rt, name)?;
    let file = opening(writes).open(rt, name).map_err(refusal)?;
    let node = node_of(&file)?;
    check_alone(opened, name, node, writes)?;
    keep(
        opened,
        Opened {
            name: text,
            file,
            node,
            writes,
            stands: Some(0),
            is_new: false,
        },
    )
}

// Whether a file may not be written for want of leave.
fn is_left_out(kind: io::ErrorKind) -> bool {
    matches!(
        kind,
        io::ErrorKind::PermissionDenied | io::ErrorKind::ReadOnlyFilesystem
    )
}

// Opens a file to be read and written, or to be read alone where no more is given and that may do.
fn open_widely<R: rt::Files>(
    rt: &R,
    name: &str,
    must_write: bool,
) -> Result<(R::File, bool), ShelfErr> {
    match opening(true).open(rt, name) {
        Ok(file) => Ok((file, true)),
        Err(error) if !must_write && is_left_out(error.kind()) => {
            let file = opening(false).open(rt, name).map_err(refusal)?;
            Ok((file, false))
        }
        Err(error) => Err(refusal(error)),
    }
}

// The numbers of two more errors: no locks are to be had, and a file that is open to be read alone
// cannot be locked.
const NO_LOCKS: i32 = 37;

const NOT_OPEN_SO: i32 = 9;

// Whether a file system has no locks.
fn is_without_locks(error: &io::Error) -> bool {
    match error.kind() {
        io::ErrorKind::Unsupported => true,
        io::ErrorKind::InvalidInput => true,
        _ => match error.raw_os_error() {
            Some(code) => code == NO_LOCKS || code == NOT_OPEN_SO,
            None => false,
        },
    }
}

// Takes a map or its journal for this run alone, where the system has locks. It does not wait.
fn lock<R: SystemFiles>(rt: &R, file: &R::File) -> Result<(), ShelfErr> {
    match rt.try_lock(file) {
        Ok(()) => Ok(()),
        Err(error) if is_without_locks(&error) => Ok(()),
        Err(error) => Err(failure(error)),
    }
}

// Opens a map that is changed in place, or its journal, to be read and written, locks it before any
// of it is read, and keeps it.
fn open_in_place<R: SystemFiles>(
    rt: &R,
    alloc: Global,
    table: &mut Table<R::File>,
    name: &str,
    is_journal: bool,
) -> Result<usize, ShelfErr>
    ensures { IfOk result (λ place. place < vec_len table.new.opened) }
{
    let text = String::from_str(alloc, name)?;
    table.opened.reserve(1)?;
    check_regular(rt, name)?;
    let (file, writes) = open_widely(rt, name, must_write(&table.in_place))?;
    let node = node_of(&file)?;
    check_alone(&table.opened, name, node, true)?;
    lock(rt, &file)?;
    keep(
        &mut table.opened,
        Opened {
            name: text,
            file,
            node,
            writes,
            stands: Some(0),
            is_new: is_journal && writes,
        },
    )
}

/// The place of the named file, which is opened if it is not open.
pub(crate) fn place_to_read<R: SystemFiles>(
    rt: &R,
    alloc: Global,
    table: &mut Table<R::File>,
    name: &str,
) -> Result<usize, ShelfErr>
    ensures { IfOk result (λ place. place < vec_len table.new.opened) }
{
    if let Some(place) = place_of(&table.opened, name) {
        return Ok(place);
    }
    match role_of(&table.in_place, name) {
        Role::Map => open_in_place(rt, alloc, table, name, false),
        Role::Journal => open_in_place(rt, alloc, table, name, true),
        Role::Other => open_other(rt, alloc, &mut table.opened, name, false),
    }
}

// Opens a file once more that is open to be read alone. It has to be the same one.
fn open_again<R: SystemFiles>(
    rt: &R,
    alloc: Global,
    opened: &mut Vec<Opened<R::File>>,
    name: &str,
    place: usize,
) -> Result<usize, ShelfErr>
    requires { place < vec_len opened.old }
    ensures { IfOk result (λ place. place < vec_len opened.new) }
{
    let text = String::from_str(alloc, name)?;
    check_regular(rt, name)?;
    let file = opening(true).open(rt, name).map_err(failure)?;
    let node = node_of(&file)?;
    check_alone(opened, name, node, true)?;
    if !is_same(opened[place].node, node) {
        return Err(ShelfErr::Fault);
    }
    let is_new = opened[place].is_new;
    opened[place] = Opened {
        name: text,
        file,
        node,
        writes: true,
        stands: Some(0),
        is_new,
    };
    Ok(place)
}

// The place of a map that is changed in place, or of its journal, where both may be written, as far
// as they are open.
fn place_in_place<R: SystemFiles>(
    rt: &R,
    alloc: Global,
    table: &mut Table<R::File>,
    name: &str,
) -> Result<usize, ShelfErr>
    ensures { IfOk result (λ place. place < vec_len table.new.opened) }
{
    let place = place_to_read(rt, alloc, table, name)?;
    if table.are_writable() {
        Ok(place)
    } else {
        Err(ShelfErr::Fault)
    }
}

/// The place of the named file, which is opened if it is not open to be written.
pub(crate) fn place_to_write<R: SystemFiles>(
    rt: &R,
    alloc: Global,
    table: &mut Table<R::File>,
    name: &str,
) -> Result<usize, ShelfErr>
    ensures { IfOk result (λ place. place < vec_len table.new.opened) }
{
    if !matches!(role_of(&table.in_place, name), Role::Other) {
        return place_in_place(rt, alloc, table, name);
    }
    match place_of(&table.opened, name) {
        Some(place) if table.opened[place].writes => Ok(place),
        Some(place) => open_again(rt, alloc, &mut table.opened, name, place),
        None => open_other(rt, alloc, &mut table.opened, name, true),
    }
}

// Leaves an open file empty, unless it is open by another name.
fn empty<F: OpenFile>(
    opened: &[Opened<F>],
    name: &str,
    node: Node,
    file: &F,
) -> Result<(), ShelfErr> {
    check_alone(opened, name, node, true)?;
    file.set_len(0).map_err(failure)
}

// Makes a file, or empties it where it is there, and keeps it. Memory comes first, so that no file
// is made or emptied in vain.
fn make_other<R: SystemFiles>(
    rt: &R,
    alloc: Global,
    opened: &mut Vec<Opened<R::File>>,
    name: &str,
) -> Result<(), ShelfErr> {
    let text = String::from_str(alloc, name)?;
    opened.reserve(1)?;
    check_output(rt, name)?;
    let mut how = opening(true);
    how.create(true);
    let file = how.open(rt, name).map_err(refusal)?;
    let node = node_of(&file)?;
    empty(opened, name, node, &file)?;
    keep(
        opened,
        Opened {
            name: text,
            file,
            node,
            writes: true,
            stands: Some(0),
            is_new: true,
        },
    )?;
    Ok(())
}

// What is known of the map that is changed in place, once it is open.
fn map_about<F: OpenFile>(table: &Table<F>) -> Result<Metadata, ShelfErr> {
    let Some(one) = &table.in_place else {
        return Err(ShelfErr::Fault);
    };
    match place_of(&table.opened, one.map.as_str()) {
        Some(place) => table.opened[place].file.metadata().map_err(failure),
        None => Err(ShelfErr::Fault),
    }
}

// Takes a refusal for want of leave, or of a file system that has no owners, for done.
fn unless_denied(outcome: io::Result<()>) -> Result<(), ShelfErr> {
    match outcome {
        Ok(()) => Ok(()),
        Err(error) => match error.kind() {
            io::ErrorKind::PermissionDenied => Ok(()),
            io::ErrorKind::Unsupported => Ok(()),
            io::ErrorKind::InvalidInput => Ok(()),
            _ => Err(failure(error)),
        },
    }
}

// Gives a file that was made the owner and the group of the map, where that may be done.
fn give_owner<R: SystemFiles>(rt: &R, file: &R::File, map: &Metadata) -> Result<(), ShelfErr> {
    let made = file.metadata().map_err(failure)?;
    if made.gid() != map.gid() {
        unless_denied(rt.set_owner(file, None, Some(map.gid())))?;
    }
    if made.uid() != map.uid() {
        unless_denied(rt.set_owner(file, Some(map.uid()), None))?;
    }
    Ok(())
}

// The rights of the map. Where the file is of another group, that has none, and others have those
// alone that the group of the map has too.
fn rights_of(made: &Metadata, map: &Metadata) -> u32 {
    let rights = map.mode() & 0o777;
    if made.gid() == map.gid() {
        rights
    } else {
        rights & 0o700 | (rights >> 3) & rights & 0o7
    }
}

// Gives a file that was made the rights of the map. It never has more than the map.
fn give_rights<R: SystemFiles>(rt: &R, file: &R::File, map: &Metadata) -> Result<(), ShelfErr> {
    give_owner(rt, file, map)?;
    let made = file.metadata().map_err(failure)?;
    let rights = rights_of(&made, map);
    if made.mode() & 0o777 == rights {
        return Ok(());
    }
    unless_denied(file.set_permissions(Permissions::from_mode(rights)))
}

// Makes the journal of a map that is changed in place, with the rights of the map, and keeps it. A
// file that came to stand by its name meanwhile is not touched.
fn make_journal<R: SystemFiles>(
    rt: &R,
    alloc: Global,
    table: &mut Table<R::File>,
    name: &str,
) -> Result<(), ShelfErr> {
    let text = String::from_str(alloc, name)?;
    table.opened.reserve(1)?;
    let map = map_about(table)?;
    let mut how = opening(true);
    how.create_new(true);
    how.mode(map.mode() & 0o700);
    let file = how.open(rt, name).map_err(failure)?;
    let node = node_of(&file)?;
    lock(rt, &file)?;
    give_rights(rt, &file, &map)?;
    keep(
        &mut table.opened,
        Opened {
            name: text,
            file,
            node,
            writes: true,
            stands: Some(0),
            is_new: true,
        },
    )?;
    Ok(())
}

/// Makes a file, or empties it where it is there and is no part of a map that is changed in place.
pub(crate) fn make<R: SystemFiles>(
    rt: &R,
    alloc: Global,
    table: &mut Table<R::File>,
    name: &str,
) -> Result<(), ShelfErr> {
    match role_of(&table.in_place, name) {
        Role::Map => Err(ShelfErr::Fault),
        Role::Journal => make_journal(rt, alloc, table, name),
        Role::Other => make_other(rt, alloc, &mut table.opened, name),
    }
}

// The path of a file that goes by a link, without links; none of one that does not, or is no longer
// there.
fn linked_path<R: rt::Files>(
    rt: &R,
    alloc: Global,
    name: &str,
) -> Result<Option<PathBuf>, ShelfErr> {
    match fs::symlink_metadata(rt, name) {
        Ok(about) if about.is_symlink() => {
            let path = rt.canonicalize(alloc, name).map_err(failure)?;
            Ok(Some(path))
        }
        Ok(_) => Ok(None),
        Err(error) => match error.kind() {
            io::ErrorKind::Unsupported => Ok(None),
            io::ErrorKind::NotFound => Ok(None),
            _ => Err(failure(error)),
        },
    }
}

// The name of the folder of a file.
fn folder_of(name: &str) -> &str {
    match name.rsplit_once('/') {
        None => ".",
        Some((folder, _)) if folder.is_empty() => "/",
        Some((folder, _)) => folder,
    }
}

// Waits until the names in a folder outlive a crash, where its file system can do so, and where the
// folder may be read.
fn sync_names<R: rt::Files>(rt: &R, folder: &str) -> Result<(), ShelfErr> {
    match File::open(rt, folder) {
        Ok(file) => unless_unable(file.sync_all()),
        Err(error) => match error.kind() {
            io::ErrorKind::PermissionDenied => Ok(()),
            io::ErrorKind::NotFound => Ok(()),
            _ => Err(failure(error)),
        },
    }
}

// Takes a refusal of a file system that syncs no folders for done.
fn unless_unable(outcome: io::Result<()>) -> Result<(), ShelfErr> {
    match outcome {
        Ok(()) => Ok(()),
        Err(error) => match error.kind() {
            io::ErrorKind::Unsupported => Ok(()),
            io::ErrorKind::InvalidInput => Ok(()),
            _ => Err(failure(error)),
        },
    }
}

// Waits until the name of a file outlives a crash.
fn sync_folder<R: rt::Files>(rt: &R, alloc: Global, name: &str) -> Result<(), ShelfErr> {
    match linked_path(rt, alloc, name)? {
        Some(path) => sync_names(rt, folder_of(path.as_str())),
        None => sync_names(rt, folder_of(name)),
    }
}

/// Waits until the bytes of a file outlive a crash, and then its name, if that may be new. The name
/// of a journal may be: a run that was cut short may have made it.
pub(crate) fn sync<R: SystemFiles>(
    rt: &R,
    alloc: Global,
    table: &mut Table<R::File>,
    name: &str,
) -> Result<(), ShelfErr> {
    let place = place_to_read(rt, alloc, table, name)?;
    table.opened[place].file.sync_data().map_err(failure)?;
    if table.opened[place].is_new {
        sync_folder(rt, alloc, name)?;
        table.opened[place].is_new = false;
    }
    Ok(())
}
