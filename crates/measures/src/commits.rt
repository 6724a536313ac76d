use crate::credentials::{number_in, other};
use crate::store::{commit, opened};
use disk_port::Disk;
use file_disk::FileDisk;
use std::io;

/// Commits credentials with rising numbers over a file without an end, to be killed. The words are the folder and the file. The
/// first line is the number that was kept, or 0, and each further one a number whose commit is done.
pub fn run(rt: &HostRuntime, words: &[String]) -> io::Result<()> {
    let [folder, path] = words else {
        return Ok(());
    };
    run_on(rt, FileDisk::new(rt, folder.as_str(), path.as_str()))
}

fn run_on<D: Disk + Drop>(rt: &HostRuntime, disk: D) -> io::Result<()> {
    let mut store = opened(rt, disk)?;
    let mut number = match store.current() {
        Some(credential) => number_in(credential),
        None => 0,
    };
    println!(rt; "{number}")?;
    for _turn in 0..u64::MAX {
        number = number.checked_add(1).ok_or(other())?;
        store = commit(rt, store, number, 106)?;
        println!(rt; "{number}")?;
    }
    Ok(())
}
