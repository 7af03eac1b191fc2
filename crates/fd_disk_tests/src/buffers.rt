// Buffers over files in memory, some of whose calls are planned to fail.
ghost use Rattle.std.specs.Prelude.{◌<◌, ◌+◌, ◌^◌, length};

use fd_buffers::{Ahead, Gathering};
use fd_disk::{Disk, Reader, Sealed};
use fd_file_mem::{Fuse, MemDisk, MemFault, MemReader, MemSealed, Op, Plan, Room};
use std::alloc::Global;

/// A plan by which one call fails.
fn planned(alloc: Global, op: Op, nth: u32) -> Option<Plan> {
    let mut plan = Plan::new(alloc, Fuse::new(alloc).ok()?);
    plan.add(op, nth).ok()?;
    Some(plan)
}

/// Puts what a read gives behind the text, or an exclamation mark where it failed.
fn read<F: Send + Drop, R: Reader<F>>(
    reader: &mut R,
    at: u64,
    wanted: usize,
    text: &mut Vec<u8>,
) -> Option<()> {
    let mut piece = [b'_'; 16];
    if wanted > 16 {
        return None;
    }
    match reader.read_at(at, &mut piece[..wanted]) {
        Ok(n) => text.extend_from_slice(&piece[..n]).ok(),
        Err(_) => text.push(b'!').ok(),
    }
}

/// Reads pieces, and gives them as one text.
fn pieces<F: Send + Drop, R: Reader<F>>(alloc: Global, reader: &mut R) -> Option<Vec<u8>> {
    let mut text = Vec::new(alloc);
    for (at, wanted) in [
        (0, 2),
        (2, 2),
        (4, 2),
        (2, 2),
        (8, 2),
        (9, 3),
        (1, 1),
        (0, 6),
    ] {
        read(reader, at, wanted, &mut text)?;
        text.push(b' ').ok()?;
    }
    Some(text)
}

/// A reader of ten digits that reads four ahead, and whose second call of the file below fails.
fn digits(alloc: Global) -> Option<Ahead<MemFault, MemReader>> {
    let bytes = Vec::from_slice(alloc, b"0123456789").ok()?;
    let file = MemSealed::new(Vec::new(alloc), None, bytes, planned(alloc, Op::Read, 2)?);
    let reader = file.reader(alloc).ok()?;
    Ahead::new(alloc, reader, 2, 4).ok()
}

#[test]
fn reads_ahead_to_the_end(rt: HostRuntime) {
    let text = match digits(rt.alloc()) {
        Some(mut reader) => pieces(rt.alloc(), &mut reader),
        None => None,
    };
    let is_right = match text {
        Some(text) => text.as_slice() == b"01 23 ! 23 89 9 1 012345 ".as_slice(),
        None => false,
    };
    assert!(rt; is_right);
}

/// Writes, and tells whether it failed.
fn write<F: Send + Drop, T: Disk<F>>(
    file: &mut T,
    at: u64,
    bytes: &[u8],
    text: &mut Vec<u8>,
) -> Option<()>
where
    requires small { at + length bytes.now < 2 ^ 63 }
{
    match file.write_at(at, bytes) {
        Ok(()) => text.push(b'w').ok(),
        Err(_) => text.push(b'!').ok(),
    }
}

/// Syncs, and tells whether it failed.
fn sync<F: Send + Drop, T: Disk<F>>(file: &mut T, text: &mut Vec<u8>) -> Option<()> {
    match file.sync() {
        Ok(()) => text.push(b's').ok(),
        Err(_) => text.push(b'!').ok(),
    }
}

/// Puts the bytes of the file behind the text.
fn all<F: Send + Drop, T: Disk<F>>(file: &mut T, text: &mut Vec<u8>) -> Option<()> {
    let mut piece = [b'_'; 16];
    match file.read_at(0, &mut piece) {
        Ok(n) => text.extend_from_slice(&piece[..n]).ok(),
        Err(_) => text.push(b'!').ok(),
    }
}

/// Small writes, one elsewhere, a sync that fails and one more, a read in the middle, and a write larger than the room:
/// what each of them tells.
fn calls<F: Send + Drop, T: Disk<F>>(alloc: Global, file: &mut T) -> Option<Vec<u8>> {
    let mut text = Vec::new(alloc);
    write(file, 0, b"ab", &mut text)?;
    write(file, 2, b"c", &mut text)?;
    write(file, 5, b"z", &mut text)?;
    sync(file, &mut text)?;
    sync(file, &mut text)?;
    all(file, &mut text)?;
    write(file, 1, b"BB", &mut text)?;
    all(file, &mut text)?;
    write(file, 0, b"12345", &mut text)?;
    write(file, 5, b"6", &mut text)?;
    sync(file, &mut text)?;
    Some(text)
}

/// A file that gathers up to four bytes, and whose second write to the file below fails.
fn gathering(alloc: Global) -> Option<Gathering<MemFault, MemDisk>> {
    let room = Room {
        size: 32,
        calls: 16,
    };
    let plan = planned(alloc, Op::Write, 2)?;
    let file = MemDisk::empty(alloc, Vec::new(alloc), None, plan, room).ok()?;
    Gathering::new(alloc, file, 4).ok()
}

/// Writes the file behind the text, once it changes no more.
fn ended<F: Send + Drop, T: Disk<F>>(alloc: Global, mut file: T) -> Option<Vec<u8>> {
    let mut text = calls(alloc, &mut file)?;
    if file.sync().is_err() {
        return None;
    }
    let sealed = file.seal();
    let mut reader = sealed.reader(alloc).ok()?;
    read(&mut reader, 0, 16, &mut text)?;
    Some(text)
}

#[test]
fn gathers_writes(rt: HostRuntime) {
    let text = match gathering(rt.alloc()) {
        Some(file) => ended(rt.alloc(), file),
        None => None,
    };
    let is_right = match text {
        Some(text) => text.as_slice() == b"www!sabc\0\0zwaBB\0\0zwws123456".as_slice(),
        None => false,
    };
    assert!(rt; is_right);
}
