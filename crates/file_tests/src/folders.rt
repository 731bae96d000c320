//! Folders on the disk and in memory.

use crate::stored::Memory;
use folder::{Depth, Disk, Folder, LoadFault, load, path_below};
use std::collections::BTreeMap;
use std::fs;
use std::os::unix::fs::symlink;
use std::process::Abort;
use std::rt::Files;

/// Returns a copy of the text.
fn string<R: Abort + AllocGlobal>(rt: &R, text: &str) -> String {
    String::from_str(rt.alloc(), text).expect(rt, "memory")
}

/// Makes an empty folder for a test, even if a run that failed has left one.
fn fresh<R: Abort + Files + AllocGlobal>(rt: &R, folder: &str) {
    let _ = fs::remove_dir_all(rt, folder);
    fs::create_dir(rt, folder).expect(rt, "a folder");
}

/// Makes a folder with a file in it and one two folders below, links beside them, and a link to it.
fn tree<R: Abort + Files + AllocGlobal>(rt: &R, folder: &str) {
    fresh(rt, folder);
    fs::create_dir_all(rt, below(rt, folder, "top/d/e").as_str()).expect(rt, "folders");
    write(rt, folder, "top/f", "1");
    write(rt, folder, "top/d/e/f", "22");
    link(rt, folder, "top/link", "f");
    link(rt, folder, "top/links", "d");
    link(rt, folder, "linked", "top");
}

fn below<R: Abort + AllocGlobal>(rt: &R, folder: &str, name: &str) -> String {
    path_below(rt.alloc(), folder, name).expect(rt, "memory")
}

fn write<R: Abort + Files + AllocGlobal>(rt: &R, folder: &str, name: &str, text: &str) {
    fs::write(rt, below(rt, folder, name).as_str(), text).expect(rt, "a file");
}

fn link<R: Abort + Files + AllocGlobal>(rt: &R, folder: &str, name: &str, to: &str) {
    symlink(rt, to, below(rt, folder, name).as_str()).expect(rt, "a link");
}

/// Returns whether the file is there with this text.
fn has(files: &BTreeMap<String, Vec<u8>>, name: &str, text: &str) -> bool {
    match files.get(name) {
        Some(bytes) => bytes.as_slice() == text.as_bytes(),
        None => false,
    }
}

#[test]
fn a_linked_folder_is_loaded(rt: HostRuntime) {
    tree(&rt, "a_linked_folder_is_loaded");
    let path = string(&rt, "a_linked_folder_is_loaded/linked");
    let mut here = Disk::new(&rt, path, Depth::Here);
    let files = load(rt.alloc(), &mut here).expect(&rt, "files");
    assert_eq!(rt; files.len(), 1);
    assert!(rt; has(&files, "f", "1"));
    fs::remove_dir_all(&rt, "a_linked_folder_is_loaded").expect(&rt, "a folder");
}

#[test]
fn folders_below_are_loaded(rt: HostRuntime) {
    tree(&rt, "folders_below_are_loaded");
    let path = string(&rt, "folders_below_are_loaded/top");
    let mut below = Disk::new(&rt, path, Depth::Below);
    let files = load(rt.alloc(), &mut below).expect(&rt, "files");
    assert_eq!(rt; files.len(), 2);
    assert!(rt; has(&files, "f", "1"));
    assert!(rt; has(&files, "d/e/f", "22"));
    assert_eq!(rt; below.failed(), 0);
    fs::remove_dir_all(&rt, "folders_below_are_loaded").expect(&rt, "a folder");
}

/// Returns whether a load and a read of the folder fail, and both are counted.
fn fails<R: Files + AllocGlobal + Clone + Drop>(rt: &R, path: String) -> bool {
    let mut folder = Disk::new(rt, path, Depth::Below);
    let loaded = load(rt.alloc(), &mut folder).err() == Some(LoadFault::Folder);
    let once = folder.failed() == 1;
    let read = folder.read(rt.alloc(), "f").err() == Some(LoadFault::Folder);
    loaded && once && read && folder.failed() == 2
}

#[test]
fn folders_on_disk_fail(rt: HostRuntime) {
    fresh(&rt, "folders_on_disk_fail");
    write(&rt, "folders_on_disk_fail", "file", "1");
    for path in ["folders_on_disk_fail/file", "folders_on_disk_fail/none"] {
        assert!(rt; fails(&rt, string(&rt, path)), "{path}");
    }
    fs::remove_dir_all(&rt, "folders_on_disk_fail").expect(&rt, "a folder");
}

#[test]
fn a_folder_in_memory_fails_at_each_call(rt: HostRuntime) {
    let alloc = rt.alloc();
    let files = [("a", "1"), ("b/c", "22")];
    for calls in 0..3 {
        let mut folder = Memory::of(alloc, &files, calls).expect(&rt, "memory");
        assert!(rt;
            matches!(load(alloc, &mut folder), Err(LoadFault::Folder)),
            "{calls}"
        );
        assert_eq!(rt; folder.failed(), 1);
    }
}

#[test]
fn a_folder_in_memory_is_loaded(rt: HostRuntime) {
    let files = [("a", "1"), ("b/c", "22")];
    let mut folder = Memory::of(rt.alloc(), &files, 3).expect(&rt, "memory");
    let loaded = load(rt.alloc(), &mut folder).expect(&rt, "files");
    assert_eq!(rt; loaded.len(), 2);
    assert!(rt; has(&loaded, "a", "1"));
    assert!(rt; has(&loaded, "b/c", "22"));
    assert_eq!(rt; folder.failed(), 0);
}

#[test]
fn the_start_of_a_file_is_read_from_disk(rt: HostRuntime) {
    tree(&rt, "the_start_of_a_file_is_read_from_disk");
    let path = string(&rt, "the_start_of_a_file_is_read_from_disk/top");
    let mut below = Disk::new(&rt, path, Depth::Below);
    let start = below
        .read_start(rt.alloc(), "d/e/f", 0)
        .expect(&rt, "a file");
    assert_eq!(rt; start.len(), 0);
    let start = below
        .read_start(rt.alloc(), "d/e/f", 9)
        .expect(&rt, "a file");
    assert!(rt; start.as_slice() == b"22".as_slice());
    fs::remove_dir_all(&rt, "the_start_of_a_file_is_read_from_disk").expect(&rt, "a folder");
}
