use crate::credentials::{credential, other};
use crate::timing::{report_thousandths, since};
use credential_store::CredentialStore;
use disk_port::Disk;
use file_disk::FileDisk;
use std::fs::{File, OpenOptions};
use std::io;
use std::os::unix::fs::FileExt;
use std::time::Instant;

/// Times durable commits of a credential over a file, beside one write and sync of as many bytes. The words are a folder and
/// the seconds that each of the two takes in all, in slices of 50 ms by turns. Told are the best slice of each, and the middle
/// of the shares of the commits in the writes of their turn.
pub fn measure(rt: &HostRuntime, words: &[String]) -> io::Result<()> {
    let [folder, seconds] = words else {
        return Ok(());
    };
    let turns = turns_of(seconds.as_str());
    measure_size(rt, folder.as_str(), turns, 106, "store/commit/200 B")?;
    measure_size(rt, folder.as_str(), turns, 2905, "store/commit/3 KB")
}

/// The slices in a number of seconds with at most one digit behind its point.
fn turns_of(seconds: &str) -> u64 {
    let (whole, tenths) = match seconds.split_once('.') {
        Some((whole, tenths)) => (whole, tenths.parse::<u64>().unwrap_or(0)),
        None => (seconds, 0),
    };
    whole
        .parse::<u64>()
        .unwrap_or(0)
        .saturating_mul(20)
        .saturating_add(tenths.min(9).saturating_mul(2))
        .max(1)
}

fn measure_size(
    rt: &HostRuntime,
    folder: &str,
    turns: u64,
    letters: usize,
    what: &str,
) -> io::Result<()> {
    let path = format!(in rt.alloc(); "{folder}/{letters}.credential")?;
    let beside = format!(in rt.alloc(); "{folder}/{letters}.bytes")?;
    let file = OpenOptions::new()
        .read(true)
        .write(true)
        .create(true)
        .open(rt, beside.as_str())?;
    let disk = FileDisk::new(rt, folder, path.as_str());
    measure_disk(rt, disk, &file, turns, letters, what)
}

fn measure_disk<D: Disk + Drop>(
    rt: &HostRuntime,
    disk: D,
    file: &File,
    turns: u64,
    letters: usize,
    what: &str,
) -> io::Result<()> {
    let store = opened(rt, disk)?;
    let shares = time_turns(rt, store, file, turns, letters, what)?;
    match shares.as_slice().get(shares.len() / 2) {
        Some(share) => report_thousandths(rt, what, *share, "x"),
        None => Ok(()),
    }
}

/// The store on a disk.
pub fn opened<D: Disk + Drop>(rt: &HostRuntime, disk: D) -> io::Result<CredentialStore<D>> {
    match CredentialStore::open(rt.alloc(), disk) {
        Ok(store) => Ok(store),
        Err(_) => Err(other()),
    }
}

/// The shares of all turns in thousandths, the least first.
fn time_turns<D: Disk + Drop>(
    rt: &HostRuntime,
    store: CredentialStore<D>,
    file: &File,
    turns: u64,
    letters: usize,
    what: &str,
) -> io::Result<Vec<u64>> {
    let mut store = store;
    let mut shares = Vec::new(rt.alloc());
    let mut best_writes = 0u64;
    let mut best_commits = 0u64;
    for _turn in 0..turns {
        let writes = time_writes(rt, file, letters)?;
        let (next, commits) = time_commits(rt, store, letters)?;
        store = next;
        best_writes = best_writes.max(writes);
        best_commits = best_commits.max(commits);
        shares.push(commits.saturating_mul(1000) / writes.max(1))?;
    }
    shares.as_mut_slice().sort_unstable();
    report_rate(rt, what, "one write and sync", best_writes)?;
    report_rate(rt, what, "project", best_commits)?;
    Ok(shares)
}

/// Writes and syncs of a slice in a thousand seconds, each of as many bytes as a slot with such a credential has.
fn time_writes(rt: &HostRuntime, file: &File, letters: usize) -> io::Result<u64> {
    let record = vec![in rt.alloc(); 1u8; letters.saturating_add(107)]?;
    let start = Instant::now(rt)?;
    let mut count = 0u64;
    let mut time = 0u64;
    for turn in 0..1_000_000u64 {
        file.write_all_at(record.as_slice(), turn % 2 * 8192)?;
        file.sync_all()?;
        count = count.saturating_add(1);
        time = since(rt, start)?;
        if time > 50_000_000 {
            break;
        }
    }
    Ok(rate(count, time))
}

/// Commits of a slice in a thousand seconds.
fn time_commits<D: Disk + Drop>(
    rt: &HostRuntime,
    store: CredentialStore<D>,
    letters: usize,
) -> io::Result<(CredentialStore<D>, u64)> {
    let start = Instant::now(rt)?;
    let mut store = store;
    let mut count = 0u64;
    let mut time = 0u64;
    for turn in 0..1_000_000u64 {
        store = commit(rt, store, turn, letters)?;
        count = count.saturating_add(1);
        time = since(rt, start)?;
        if time > 50_000_000 {
            break;
        }
    }
    Ok((store, rate(count, time)))
}

/// The store with the credential of a number.
pub fn commit<D: Disk + Drop>(
    rt: &HostRuntime,
    store: CredentialStore<D>,
    number: u64,
    letters: usize,
) -> io::Result<CredentialStore<D>> {
    let credential = credential(rt, number, letters)?;
    let mut store = store;
    match store.reserve(rt.alloc(), credential) {
        Ok(()) => match store.commit() {
            Ok(store) => Ok(store),
            Err(_) => Err(other()),
        },
        Err(_) => Err(other()),
    }
}

fn rate(count: u64, time: u64) -> u64 {
    count.saturating_mul(1_000_000_000_000) / time.max(1)
}

/// A line with a rate, which is given for a thousand seconds.
fn report_rate(rt: &HostRuntime, what: &str, peer: &str, rate: u64) -> io::Result<()> {
    println!(rt;
        "{{\"what\":\"{what}\",\"peer\":\"{peer}\",\"value\":{}.{:03},\"unit\":\"commits/s\"}}",
        rate / 1000,
        rate % 1000
    )
}
