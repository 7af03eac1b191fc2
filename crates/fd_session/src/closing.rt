// The end of a session that ran: what it found, its transcript, and its status.
ghost use Rattle.std.specs.Prelude.{◌≡◌};
ghost use Rattle.fd_transcript.specs.{Lines.{found_bytes}, Transcripts.{transcript_text}};
ghost use Rattle.fd_stored.specs.Causes.{BadFile, damaged_line};
ghost use Rattle.fd_session.specs.{Endings.{closing, count_faults, damage_of, ends_in, first_damage, is_fault, lane_damage, lane_faults, lane_has, one_if, some_has}, Writes.{HasCounted, ToldClosing, Writes}};

use fd_bytes::Items;
use fd_disk::Store;
use fd_io::Sink;
use fd_lanes::{End, Ends, Transcript};
use fd_listing::TextFault;
use fd_outcome::{tell, tell_disk_failed, tell_no_memory, tell_output_failed};
use fd_script::Script;
use fd_segment::Damage;
use fd_stored::Status;
use fd_telling::{Broken, tell_broken};
use fd_transcript::{tell_transcript, write_found};
use std::alloc::Global;

/// How a step may end that isn't done.
#[derive(Clone, Copy, Debug, PartialEq, Eq)]
pub(crate) enum Kind {
    /// Want of memory.
    Starved,
    /// A call of the store failed.
    Fault,
    /// The table has 65,535 entries.
    Full,
}

/// Tells whether a step ended so.
fn ends_in<F>(end: &End<F>, kind: Kind) -> bool
    ensures { result ≡ ends_in kind end.now }
{
    match (end, kind) {
        (End::NoMemory, Kind::Starved) => true,
        (End::Fault(_), Kind::Fault) => true,
        (End::TableFull, Kind::Full) => true,
        _ => false,
    }
}

/// Tells whether a step of a lane ended so.
fn lane_has<F>(ends: &[End<F>], kind: Kind) -> bool
    ensures { result ≡ lane_has kind ends.now }
{
    for end in ends {
        if ends_in(end, kind) {
            return true;
        }
    }
    false
}

/// Tells whether a step ended so.
fn some_has<F>(ends: &Ends<F>, kind: Kind) -> bool
    ensures { result ≡ some_has kind ends.now }
{
    let lanes = ends.as_slice();
    for lane in lanes {
        if lane_has(lane.as_slice(), kind) {
            return true;
        }
    }
    false
}

/// The damage in which a step ended, if it did.
fn damage_of<F>(end: &End<F>) -> Option<Damage>
    ensures { result ≡ damage_of end.now }
{
    match end {
        End::Damaged(damage) => Some(*damage),
        _ => None,
    }
}

/// The first damage of a lane.
fn lane_damage<F>(ends: &[End<F>]) -> Option<Damage>
    ensures { result ≡ lane_damage ends.now }
{
    for end in ends {
        match damage_of(end) {
            Some(damage) => return Some(damage),
            None => {}
        }
    }
    None
}

/// The first damage that the lanes met.
fn first_damage<F>(ends: &Ends<F>) -> Option<Damage>
    ensures { result ≡ first_damage ends.now }
{
    let lanes = ends.as_slice();
    for lane in lanes {
        match lane_damage(lane.as_slice()) {
            Some(damage) => return Some(damage),
            None => {}
        }
    }
    None
}

/// Writes the line of a damage. It is made up, so it may be told that memory ran out in its place.
fn tell_damage<X: Drop, E: Sink<X>>(
    alloc: Global,
    report: &mut E,
    dataset: &str,
    damage: Damage,
) -> Status
    ensures { ToldClosing (record { status = Status.Damaged; line = damaged_line dataset.now (BadFile damage) }) result (E.taken report.old) (E.taken report.new) (E.faults report.old) (E.faults report.new) }
{
    tell_broken(alloc, report, dataset, Broken::File(damage))
}

/// Writes the line of the status that the ends have. In place of the line of a damage it may be told that memory ran out.
fn tell_closing<F, X: Drop, E: Sink<X>>(
    alloc: Global,
    dataset: &str,
    ends: &Ends<F>,
    report: &mut E,
) -> Status
    ensures { ToldClosing (closing dataset.now ends.now) result (E.taken report.old) (E.taken report.new) (E.faults report.old) (E.faults report.new) }
{
    if some_has(ends, Kind::Starved) {
        return tell_no_memory(report);
    }
    if let Some(damage) = first_damage(ends) {
        return tell_damage(alloc, report, dataset, damage);
    }
    if some_has(ends, Kind::Fault) {
        return tell_disk_failed(report);
    }
    if some_has(ends, Kind::Full) {
        return tell(report, "limit TableFull 65535\n", Status::Limit);
    }
    tell(report, "", Status::Done)
}

/// Writes what the gets found to the output, and the transcript and the line of the status to the report.
pub fn tell_session<F, X: Drop, K: Sink<X>, E: Sink<X>>(
    alloc: Global,
    script: &Script,
    transcript: &Transcript<F>,
    output: &mut K,
    report: &mut E,
) -> Status
    ensures { Writes (found_bytes transcript.now.lanes) (transcript_text transcript.now.before script.now.lanes transcript.now.lanes) (closing script.now.dataset transcript.now.lanes) result
        (K.taken output.old) (K.taken output.new) (K.faults output.old) (K.faults output.new) (E.taken report.old) (E.taken report.new) (E.faults report.old) (E.faults report.new) }
{
    match write_found(transcript, output) {
        Ok(()) => {}
        Err(_) => return tell_output_failed(report),
    }
    match tell_transcript(alloc, script, transcript, report) {
        Ok(()) => {}
        Err(TextFault::Write(_)) => return Status::OutputFault,
        Err(TextFault::NoMemory) => return tell_no_memory(report),
    }
    tell_closing(alloc, script.dataset(), &transcript.lanes, report)
}

/// Counts the fault of a step in the store, if it ended in one.
fn note_end<F: Send, S: Store<F>>(store: &mut S, end: End<F>)
where
    ensures has { S.has store.new ≡ S.has store.old }
    ensures out { S.out store.new ≡ S.out store.old }
    ensures counted { HasCounted (one_if (is_fault end)) (S.faults store.old) (S.faults store.new) }
{
    match end {
        End::Fault(fault) => store.note(fault),
        End::PutOk => {}
        End::PutUnlisted => {}
        End::Listed(_) => {}
        End::Nothing => {}
        End::TableFull => {}
        End::NoMemory => {}
        End::Damaged(_) => {}
        End::Got {
            seen: _,
            answers: _,
        } => {}
    }
}

/// Counts the faults of a lane's steps in the store.
fn note_lane<F: Send, S: Store<F>>(store: &mut S, ends: Items<End<F>>)
where
    ensures has { S.has store.new ≡ S.has store.old }
    ensures out { S.out store.new ≡ S.out store.old }
    ensures counted { HasCounted (lane_faults ends) (S.faults store.old) (S.faults store.new) }
{
    let mut left = ends.into_vec();
    while let Some(end) = left.pop() {
        note_end(store, end);
    }
    left.destroy_empty();
}

/// Counts the faults of all steps in the store.
pub fn note_all<F: Send, S: Store<F>>(store: &mut S, ends: Ends<F>)
where
    ensures has { S.has store.new ≡ S.has store.old }
    ensures out { S.out store.new ≡ S.out store.old }
    ensures counted { HasCounted (count_faults ends) (S.faults store.old) (S.faults store.new) }
{
    let mut left = ends.into_vec();
    while let Some(lane) = left.pop() {
        note_lane(store, lane);
    }
    left.destroy_empty();
}
