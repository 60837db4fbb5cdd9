//! Directories and files in lists.
#![tactic(auto)]

ghost use Rattle.std.specs.Prelude.{◌≡◌, ◌≤◌, ◌<◌, IfOk, not, vec_len, vec_capacity};
ghost use Rattle.std.specs.FinMap as maps;
ghost use Rattle.std.specs.FinSet as sets;
ghost use Rattle.std.specs.List.{list_any};
ghost use Rattle.std.specs.Option.{option_copied};
ghost use Rattle.std.specs.Str.{bytes_eq};
ghost use Rattle.sc_base.specs.Lists.{content_of};
ghost use Rattle.sc_base.specs.Trees.{dir_is_there, dir_part, is_in, lies_under};
ghost use Rattle.sc_files.specs.Listed.{dirs_in, files_in};

use crate::paths;
use sc_value::{Name, Octets};
use std::alloc::AllocError;

/// Whether a directory is there.
#[tactic(auto, using(crate::proofs::ListedLemmas::any_is_contains))]
pub fn has_dir(dirs: &[Name], dir: &[u8]) -> bool
    ensures { result ≡ sets.contains (dirs_in dirs.now) dir.now }
{
    is_among(dirs, dir)
}

/// Whether a path is one of these names.
fn is_among(names: &[Name], path: &[u8]) -> bool
    ensures { result ≡ list_any (bytes_eq path.now) names.now }
{
    names.iter().any(|name| is_spelled(path, name))
}

/// Whether a name is spelled so.
fn is_spelled(path: &[u8], name: &Name) -> bool
    ensures { result ≡ bytes_eq path.now name.now }
{
    path == name.as_str().as_bytes()
}

/// Whether a file may be put at a path: the directory that the path names is there.
pub fn has_place(dirs: &[Name], path: &[u8]) -> bool
    ensures { result ≡ dir_is_there (dirs_in dirs.now) (dir_part path.now) }
{
    match paths::dir_part(path) {
        Some(dir) => has_dir(dirs, dir),
        None => true,
    }
}

/// Adds a directory, for which there is room.
#[tactic(auto, using(crate::proofs::ListedLemmas::dirs_in_push))]
pub fn add_dir(dirs: &mut Vec<Name>, dir: Name)
    requires { vec_len dirs.old < vec_capacity dirs.old }
    ensures { dirs_in dirs.new.items ≡ sets.insert (dirs_in dirs.old.items) dir }
{
    dirs.push_reserved(dir);
}

/// Removes a directory and those that lie under it.
pub fn remove_dirs(dirs: &mut Vec<Name>, dir: &[u8])
    ensures { dirs_in dirs.new.items
        ≡ sets.retain (dirs_in dirs.old.items) (λ path. not (is_in dir.now path)) }
{
    dirs.retain(|path| !paths::is_in(dir, path.as_str().as_bytes()));
}

/// Removes the files that lie under a directory.
pub fn remove_files(files: &mut Vec<(Name, Octets)>, dir: &[u8])
    ensures { files_in files.new.items
        ≡ maps.retain_keys (files_in files.old.items) (λ path. not (lies_under dir.now path)) }
{
    files.retain(|file| !paths::lies_under(dir, file.0.as_str().as_bytes()));
}

/// Removes the file of a path.
pub fn remove_file(files: &mut Vec<(Name, Octets)>, path: &Name)
    ensures files { files_in files.new.items ≡ maps.remove (files_in files.old.items) path.now }
    ensures len { vec_len files.new ≤ vec_len files.old }
    ensures room { vec_capacity files.new ≡ vec_capacity files.old }
{
    files.retain(|file| !is_named(&file.0, path));
}

/// Whether a name is this one.
fn is_named(name: &Name, path: &Name) -> bool
    ensures { result ≡ bytes_eq name.now path.now }
{
    *name == *path
}

/// Puts a file, for which there is room, at a path, in the place of one that may be there.
pub fn put_file(files: &mut Vec<(Name, Octets)>, path: Name, bytes: Octets)
    requires { vec_len files.old < vec_capacity files.old }
    ensures { files_in files.new.items ≡ maps.insert (files_in files.old.items) path bytes }
{
    remove_file(files, &path);
    files.push_reserved((path, bytes));
}

/// The bytes of the file at a path, if one is there.
#[tactic(auto, using(crate::proofs::ListedLemmas::content_is_get))]
pub fn share_file(files: &[(Name, Octets)], path: &Name) -> Result<Option<Octets>, AllocError>
    ensures { IfOk result (λ bytes. bytes ≡ maps.get (files_in files.now) path.now) }
{
    match find(files, path) {
        Some(bytes) => Ok(Some(bytes.share()?)),
        None => Ok(None),
    }
}

fn find<'a>(files: &'a [(Name, Octets)], path: &Name) -> Option<&'a Octets>
    ensures { option_copied result ≡ content_of files.now path.now }
{
    for file in files {
        if file.0 == *path {
            return Some(&file.1);
        }
    }
    None
}
