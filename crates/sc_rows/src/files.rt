//! Directories and files, in memory and on the system.
#![tactic(auto)]

use sc_files::{FileAnswer, Files, HostFiles, MakeAnswer, MemFiles};
use sc_ids::Counts;
use sc_input::{HostSource, ReadAnswer, Source};
use sc_value::Name;
use std::os::unix::fs::{PermissionsExt, symlink};
use std::process::Abort;
use std::{fs, str};

/// Calls one after the other: what is called, with which paths and text, and the answer.
const CALLS: [(&str, &str, &str, &str); 22] = [
    ("make", "t", "", "made"),
    ("make", "t", "", "exists"),
    ("write", "t/a", "1", "done"),
    ("write", "t/a", "22", "done"),
    ("write", "t/b", "", "done"),
    ("write", "t/no/a", "1", "no directory"),
    ("rename", "t/a", "t/c", "done"),
    ("rename", "t/a", "t/c", "no file"),
    ("rename", "t/c", "t/no/c", "no file"),
    ("rename", "t/c", "t/b", "done"),
    ("make", "t/d", "", "made"),
    ("make", "t/de", "", "made"),
    ("make", "t/d/e", "", "made"),
    ("write", "t/d/e/f", "3", "done"),
    ("write", "t/de/f", "4", "done"),
    ("rename", "t/d/e/f", "t/d/f", "done"),
    ("remove", "t/d", "", "done"),
    ("write", "t/d/f", "5", "no directory"),
    ("remove", "t/d", "", "done"),
    ("make", "t/d", "", "made"),
    ("rename", "t/de/f", "t/d/f", "done"),
    ("rename", "t/d/f", "t/d/f", "done"),
];

/// Makes a call, and says in words what was answered.
fn answer_of<R: Abort + AllocGlobal, F: Files>(
    rt: &R,
    files: &mut F,
    call: &str,
    path: &str,
    other: &str,
) -> &'static str {
    let name = Name::new(rt.alloc(), path).expect(rt, "memory");
    let answer = match call {
        "make" => match files.make(&name) {
            MakeAnswer::Made => return "made",
            MakeAnswer::Exists => return "exists",
            MakeAnswer::Failed => FileAnswer::Failed,
            MakeAnswer::OutOfMemory => FileAnswer::OutOfMemory,
        },
        "write" => files.write(&name, other.as_bytes()),
        "rename" => {
            let to = Name::new(rt.alloc(), other).expect(rt, "memory");
            files.rename(&name, &to)
        }
        _ => files.remove_tree(&name),
    };
    match answer {
        FileAnswer::Done => "done",
        FileAnswer::NoDir => "no directory",
        FileAnswer::NoFile => "no file",
        FileAnswer::Failed => "failed",
        FileAnswer::OutOfMemory => "out of memory",
    }
}

/// All that is there: each directory with a slash behind it, and each file with its text.
pub fn standing<R: Abort + AllocGlobal>(rt: &R, files: &MemFiles) -> String {
    let mut out = String::new(rt.alloc());
    for dir in files.dirs() {
        let dir = dir.as_str();
        write!(out, "{dir}/ ").expect(rt, "memory");
    }
    for (path, bytes) in files.files() {
        let path = path.as_str();
        let text = str::from_utf8(bytes.as_slice()).unwrap_or("(no text)");
        write!(out, "{path}={text} ").expect(rt, "memory");
    }
    out
}

#[test]
fn calls_in_memory_change_what_they_name(rt: HostRuntime) {
    let mut files = MemFiles::new(rt.alloc());
    for (call, path, other, want) in CALLS {
        let answer = answer_of(&rt, &mut files, call, path, other);
        assert!(rt; answer == want, "{call} {path} {other}: {answer}");
    }
    assert!(rt;
        files.counts()
            == Counts {
                faults: 0,
                clashes: 5
            }
    );
    let stands = standing(&rt, &files);
    assert_eq!(rt; stands.as_str(), "t/ t/de/ t/d/ t/b=22 t/d/f=4 ");
}

#[test]
fn calls_on_the_system_answer_as_those_in_memory(rt: HostRuntime) {
    let _ = fs::remove_dir_all(&rt, "t");
    let mut files = HostFiles::new(rt.clone().expect(&rt, "memory"));
    for (call, path, other, want) in CALLS {
        let answer = answer_of(&rt, &mut files, call, path, other);
        assert!(rt; answer == want, "{call} {path} {other}: {answer}");
    }
    assert!(rt;
        files.counts()
            == Counts {
                faults: 0,
                clashes: 5
            }
    );
    for (path, want) in [
        ("t/b", b"22".as_slice()),
        ("t/d/f", b"4"),
        ("t/de", b"a directory"),
    ] {
        let bytes = fs::read(&rt, path);
        let read = match &bytes {
            Ok(bytes) => bytes.as_slice(),
            Err(_) => b"a directory",
        };
        assert!(rt; read == want, "{path}");
    }
    fs::remove_dir_all(&rt, "t").expect(&rt, "a directory");
}

/// A name of 300 bytes.
const LONG: &str = "\
    nnnnnnnnnnnnnnnnnnnnnnnnnnnnnnnnnnnnnnnnnnnnnnnnnnnnnnnnnnnnnnnnnnnnnnnnnnn\
    nnnnnnnnnnnnnnnnnnnnnnnnnnnnnnnnnnnnnnnnnnnnnnnnnnnnnnnnnnnnnnnnnnnnnnnnnnn\
    nnnnnnnnnnnnnnnnnnnnnnnnnnnnnnnnnnnnnnnnnnnnnnnnnnnnnnnnnnnnnnnnnnnnnnnnnnn\
    nnnnnnnnnnnnnnnnnnnnnnnnnnnnnnnnnnnnnnnnnnnnnnnnnnnnnnnnnnnnnnnnnnnnnnnnnnn";

/// Calls that the system refuses, or takes other than might be thought, and the answers. There are
/// a file `f`, a directory `d`, and two links to nothing: the directory of `made` is there, and
/// that of `lost` isn't.
const REFUSALS: [(&str, &str, &str, &str); 29] = [
    ("make", "u/f", "", "exists"),
    ("make", "u/lost", "", "exists"),
    ("make", "u/lost/a", "", "failed"),
    ("make", "u/f/a", "", "failed"),
    ("make", "u/f/a/b", "", "failed"),
    ("make", "u/a/b/c", "", "made"),
    ("make", "u/a/b", "", "exists"),
    ("make", "", "", "failed"),
    ("make", "u\0", "", "failed"),
    ("write", "u/d", "1", "failed"),
    ("write", "u/f/a", "1", "failed"),
    ("write", "u/none/a", "1", "no directory"),
    ("write", "u/lost", "1", "no directory"),
    ("write", "u/made", "1", "done"),
    ("write", "/dev/full", "1", "failed"),
    ("write", "", "1", "no directory"),
    ("rename", "u/none", "u/a", "no file"),
    ("rename", "u/f", "u/none/a", "no file"),
    ("rename", "u/f", "u/d", "failed"),
    ("rename", "u/f/a", "u/a", "failed"),
    ("rename", "u/lost", "u/from", "done"),
    ("remove", "u/none", "", "done"),
    ("remove", "u/f", "", "failed"),
    ("remove", "u/f/a", "", "failed"),
    ("remove", "u/from", "", "done"),
    ("make", LONG, "", "failed"),
    ("write", LONG, "1", "failed"),
    ("rename", ".", LONG, "failed"),
    ("remove", LONG, "", "failed"),
];

#[test]
fn what_the_system_refuses_is_a_fault_or_a_clash(rt: HostRuntime) {
    let _ = fs::remove_dir_all(&rt, "u");
    fs::create_dir_all(&rt, "u/d").expect(&rt, "a directory");
    fs::write(&rt, "u/f", "0").expect(&rt, "a file");
    symlink(&rt, "new", "u/made").expect(&rt, "a link");
    symlink(&rt, "none/new", "u/lost").expect(&rt, "a link");
    let mut files = HostFiles::new(rt.clone().expect(&rt, "memory"));
    for (call, path, other, want) in REFUSALS {
        let before = files.counts();
        let answer = answer_of(&rt, &mut files, call, path, other);
        assert!(rt; answer == want, "{call} {path} {other}: {answer}");
        let faults = files.counts().faults;
        assert!(rt;
            (answer == "failed") == (faults > before.faults),
            "{call} {path} {other}"
        );
    }
    fs::remove_dir_all(&rt, "u").expect(&rt, "a directory");
    // No script can name such an input.
    let mut source = HostSource::new(rt.clone().expect(&rt, "memory"));
    let name = Name::new(rt.alloc(), "a\0b").expect(&rt, "memory");
    let answer = source.read(&name);
    assert!(rt; matches!(answer, ReadAnswer::Failed));
}

// Where the test's user may write anywhere, it may write here too.
#[test]
fn a_directory_that_cant_be_written_in_is_a_fault(rt: HostRuntime) {
    let _ = fs::remove_dir_all(&rt, "w");
    fs::create_dir(&rt, "w").expect(&rt, "a directory");
    fs::set_permissions(&rt, "w", fs::Permissions::from_mode(0o555)).expect(&rt, "a directory");
    let is_refused = fs::create_dir(&rt, "w/probe").is_err();
    let mut files = HostFiles::new(rt.clone().expect(&rt, "memory"));
    for (call, path, other, done) in [
        ("make", "w/a", "", "made"),
        ("make", "w/b/c", "", "made"),
        ("write", "w/d", "1", "done"),
        ("rename", "w/d", "w/e", "done"),
    ] {
        let answer = answer_of(&rt, &mut files, call, path, other);
        assert!(rt;
            answer == done || is_refused && answer != done,
            "{call} {path}: {answer}"
        );
    }
    fs::remove_dir_all(&rt, "w").expect(&rt, "a directory");
}
