// The removing of files that no kept entry names.
ghost use Rattle.std.specs.Prelude.{◌≡◌, ◌≤◌, [], ◌∷◌, false, None, IfErr, OnErr, OnOk, option_map};
ghost use Rattle.fd_bytes.specs.Causes.{Rose};
ghost use Rattle.fd_disk.specs.{Causes.{OnFault}, declared.folders.FileKind.{FileKind}, Renewals.{GoesOn}, Names.{name_of}};
ghost use Rattle.fd_purge.specs.{Carrying.{IsThinnerOf, LeavesThinnerOf, thinned_by}, Purging.{are_named, names}};

use fd_disk::{Down, FileKind, FileName, Renew};
use fd_entries::Entry;
use std::alloc::Global;

/// Removes the two files of each dropped entry, unless a kept one names them too.
pub(crate) fn remove_all<F: Send, D: Renew<F>>(
    alloc: Global,
    folder: &mut D,
    dropped: &[Entry],
    kept: &[Entry],
) -> Result<(), Down<F>>
    requires back { D.table_out folder.old ≡ false }
    ensures ok { OnOk result (D.has folder.new ≡ option_map (thinned_by dropped.now kept.now) (D.has folder.old)) }
    ensures err { OnErr result (IsThinnerOf dropped.now kept.now (D.has folder.old) (D.has folder.new)) }
    ensures back { D.table_out folder.new ≡ false }
    ensures last_writer { D.last_writer folder.new ≡ D.last_writer folder.old }
    ensures name { D.name folder.new ≡ D.name folder.old }
    ensures time { GoesOn (D.moment folder.old None) (D.moment folder.new None) (D.left_since folder.old None) (D.left_since folder.new None) (LeavesThinnerOf dropped.now kept.now (D.has folder.old)) }
    ensures later { D.faults folder.old ≤ D.faults folder.new }
    ensures cause { IfErr result (λ e. OnFault e (Rose (D.faults folder.old) (D.faults folder.new))) }
{
    for i in 0..dropped.len() {
        match remove_both(alloc, folder, &dropped[i], kept) {
            Ok(()) => (),
            Err(down) => return Err(down),
        }
    }
    Ok(())
}

// Removes the two files of an entry, unless a kept one names them too.
fn remove_both<F: Send, D: Renew<F>>(
    alloc: Global,
    folder: &mut D,
    entry: &Entry,
    kept: &[Entry],
) -> Result<(), Down<F>>
    requires back { D.table_out folder.old ≡ false }
    ensures ok { OnOk result (D.has folder.new ≡ option_map (thinned_by (entry.now ∷ []) kept.now) (D.has folder.old)) }
    ensures err { OnErr result (IsThinnerOf (entry.now ∷ []) kept.now (D.has folder.old) (D.has folder.new)) }
    ensures back { D.table_out folder.new ≡ false }
    ensures last_writer { D.last_writer folder.new ≡ D.last_writer folder.old }
    ensures name { D.name folder.new ≡ D.name folder.old }
    ensures time { GoesOn (D.moment folder.old None) (D.moment folder.new None) (D.left_since folder.old None) (D.left_since folder.new None) (LeavesThinnerOf (entry.now ∷ []) kept.now (D.has folder.old)) }
    ensures later { D.faults folder.old ≤ D.faults folder.new }
    ensures cause { IfErr result (λ e. OnFault e (Rose (D.faults folder.old) (D.faults folder.new))) }
{
    if is_named(kept, entry) {
        return Ok(());
    }
    let (writer, seq) = (entry.writer, entry.seq);
    let (fields, index) = (FileKind::Fields, FileKind::Index);
    match folder.remove(
        alloc,
        FileName {
            writer,
            seq,
            kind: fields,
        },
    ) {
        Ok(()) => folder.remove(
            alloc,
            FileName {
                writer,
                seq,
                kind: index,
            },
        ),
        Err(down) => Err(down),
    }
}

// Whether one of the entries has the same files.
fn is_named(entries: &[Entry], entry: &Entry) -> bool
    ensures { (kind : FileKind) → result ≡ are_named entries.now (name_of entry.now.writer entry.now.seq kind) }
{
    for i in 0..entries.len() {
        if has_files_of(&entries[i], entry) {
            return true;
        }
    }
    false
}

// Whether two entries have the same files.
fn has_files_of(one: &Entry, other: &Entry) -> bool
    ensures { (kind : FileKind) → result ≡ names one.now (name_of other.now.writer other.now.seq kind) }
{
    one.writer == other.writer && one.seq == other.seq
}
