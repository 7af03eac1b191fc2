//! A script over a dataset of the store.
ghost use Rattle.std.specs.{Prelude.{◌≡◌, ◌≤◌, [], All, List, ℕ, IfErr, IfOk, IfSome, None, OnErr, Some, false, length, map}, Vec.{vec_capacity}};
ghost use Rattle.fd_disk.specs.Folders.{WhereTold};
ghost use Rattle.fd_schema.specs.Reading.{seen_place};
ghost use Rattle.fd_turn.specs.Passes.{BoardId, IsOf};
ghost use Rattle.fd_library.specs.{Answers.{IsOpened}, Open.{IsWhole, OpenDataset, OutAre, seat_of}};
ghost use Rattle.fd_lanes.specs.Acts.{ArePlaces, LanesFit};
ghost use Rattle.fd_play.specs.{Plays.{HoldsOpened, HoldsSame, IsPlain, LeavesUnplayed, IsUnopened, Played, PlayedOpen}, Staff.{HandsBack, IsSole, Staffs}};

use crate::staff::{Archivers, add_archivers, hand_back};
use fd_bytes::Bytes;
use fd_disk::{Folder, Shelf, Store};
use fd_io::Gate;
use fd_lanes::{Crew, Outcome, Transcript, lanes};
use fd_library::Library;
use fd_recovery::OpenFault;
use fd_schema::{Place, Schema};
use fd_script::Script;
use std::alloc::Global;
use std::sync::Wait;
use std::thread::Threads;

/// The archivers of the lanes and the pass of their dataset.
type FolderCrew<F, S> = Crew<
    F,
    <<S as Store<F>>::Folder as Folder<F>>::Table,
    <<S as Store<F>>::Folder as Folder<F>>::Shelf,
>;

/// Gives the pass and the archivers back to the one dataset that is open, and the dataset to the store.
fn end_crew<F: Send, S: Store<F>>(mut library: Library<F, S>, crew: FolderCrew<F, S>, store: &mut S)
where
    requires sole { (b : BoardId) × (h : OpenDataset S.Folder) × IsSole library b h × (h.pass ≡ None) × IsWhole h.name (seat_of crew.pass) × IsOf b crew.pass × (h.lent ≡ length crew.archivers.items) × All (λ w. w.dataset ≡ h.name) crew.archivers.items }
    requires out { OutAre library.each (S.out store.old) }
    ensures home { (n : List ℕ) → S.out store.new n ≡ false }
    ensures back { (b : BoardId) (h : OpenDataset S.Folder) → IsSole library b h → WhereTold (S.has store.old) (S.has store.new) (HandsBack S.Folder.has S.Folder.Shelf.kept (record h { pass = Some (seat_of crew.pass) }) crew.archivers.items) }
    ensures later { S.faults store.old ≤ S.faults store.new }
{
    let Crew { archivers, pass } = crew;
    library.unseat(0, pass);
    hand_back(library, archivers, store);
}

/// What is played: a script, and what its lines name.
#[derive(Drop)]
struct Score<'a> {
    schema: &'a Schema,
    script: &'a Script,
    messages: &'a [Bytes],
    places: &'a [Place],
}

/// Runs the lanes over the one dataset that is open, with these archivers, one for each, and gives all back.
fn run_lanes<F: Send, S: Store<F>, G: Gate, R: Threads + Wait + Sync>(
    rt: &R,
    alloc: Global,
    play: &Score<'_>,
    mut library: Library<F, S>,
    archivers: Archivers<F, S>,
    store: &mut S,
    gate: &G,
) -> Result<Transcript<F>, OpenFault<F>>
where
    requires staffs { (b : BoardId) × (h : OpenDataset S.Folder) × Staffs S.Folder.has b h library archivers.items × IsOpened play.now.script.now.dataset b h }
    requires long { length archivers.items ≡ length play.now.script.now.lanes }
    requires out { OutAre library.each (S.out store.old) }
    requires steps { LanesFit play.now.schema.now play.now.messages.now play.now.script.now.dataset (map seen_place play.now.places.now) play.now.script.now.lanes }
    requires places { ArePlaces play.now.schema.now play.now.messages.now play.now.script.now.lanes (map seen_place play.now.places.now) }
    ensures home { (n : List ℕ) → S.out store.new n ≡ false }
    ensures played { IfOk result (λ t. (b : BoardId) (h : OpenDataset S.Folder) → Staffs S.Folder.has b h library archivers.items → IsOpened play.now.script.now.dataset b h → PlayedOpen S.Folder.has S.Folder.Shelf.kept play.now.schema.now play.now.messages.now play.now.script.now t.before t.lanes b h (S.has store.old) (S.has store.new)) }
    ensures idle { OnErr result ((b : BoardId) (h : OpenDataset S.Folder) → Staffs S.Folder.has b h library archivers.items → IsOpened play.now.script.now.dataset b h → WhereTold (S.has store.old) (S.has store.new) (HoldsOpened S.Folder.has h)) }
    ensures refused { IfErr result IsPlain }
    ensures later { S.faults store.old ≤ S.faults store.new }
{
    let pass = library.seat(0);
    let boards = library.datasets();
    let dataset = &boards[0];
    let crew = Crew { archivers, pass };
    match lanes(
        rt,
        alloc,
        play.script,
        play.schema,
        play.messages,
        play.places,
        dataset,
        crew,
        gate,
    ) {
        Ok(outcome) => {
            let Outcome { transcript, crew } = outcome;
            end_crew(library, crew, store);
            Ok(transcript)
        }
        Err(refused) => {
            let (crew, _) = refused;
            end_crew(library, crew, store);
            Err(OpenFault::NoMemory)
        }
    }
}

/// Runs the lanes over the one dataset that is open, with an archiver for each, and gives all back.
fn play_opened<F: Send, S: Store<F>, G: Gate, R: Threads + Wait + Sync>(
    rt: &R,
    alloc: Global,
    play: &Score<'_>,
    mut library: Library<F, S>,
    mut archivers: Archivers<F, S>,
    store: &mut S,
    gate: &G,
) -> Result<Transcript<F>, OpenFault<F>>
where
    requires sole { (b : BoardId) × (h : OpenDataset S.Folder) × IsSole library b h × IsOpened play.now.script.now.dataset b h }
    requires room { (archivers.items ≡ []) × (vec_capacity archivers ≡ length play.now.script.now.lanes) }
    requires out { OutAre library.each (S.out store.old) }
    requires steps { LanesFit play.now.schema.now play.now.messages.now play.now.script.now.dataset (map seen_place play.now.places.now) play.now.script.now.lanes }
    requires places { ArePlaces play.now.schema.now play.now.messages.now play.now.script.now.lanes (map seen_place play.now.places.now) }
    ensures home { (n : List ℕ) → S.out store.new n ≡ false }
    ensures played { IfOk result (λ t. (b : BoardId) (h : OpenDataset S.Folder) → IsSole library b h → IsOpened play.now.script.now.dataset b h → PlayedOpen S.Folder.has S.Folder.Shelf.kept play.now.schema.now play.now.messages.now play.now.script.now t.before t.lanes b h (S.has store.old) (S.has store.new)) }
    ensures idle { OnErr result ((b : BoardId) (h : OpenDataset S.Folder) → IsSole library b h → IsOpened play.now.script.now.dataset b h → WhereTold (S.has store.old) (S.has store.new) (HoldsOpened S.Folder.has h)) }
    ensures refused { IfErr result IsPlain }
    ensures later { S.faults store.old ≤ S.faults store.new }
{
    let its = play.script.lanes();
    let count = its.len();
    match add_archivers(alloc, &mut library, count, &mut archivers) {
        Ok(()) => run_lanes(rt, alloc, play, library, archivers, store, gate),
        Err(fault) => {
            hand_back(library, archivers, store);
            Err(fault)
        }
    }
}

/// Runs the lanes of a script over the dataset of its text, which is founded where it has no table, and gives all back.
///
/// After an `Err` no lane has run, and each dataset holds what it held: memory or a call of the store was refused, or what
/// the dataset has is damaged. A crash then leaves what a crash before may have left, or of the dataset what it held.
pub fn play<F: Send, S: Store<F>, G: Gate, R: Threads + Wait + Sync>(
    rt: &R,
    alloc: Global,
    schema: &Schema,
    script: &Script,
    messages: &[Bytes],
    places: &[Place],
    store: &mut S,
    gate: &G,
) -> Result<Transcript<F>, OpenFault<F>>
where
    requires home { (name : List ℕ) → S.out store.old name ≡ false }
    requires short { length script.now.dataset ≤ 255 }
    requires steps { LanesFit schema.now messages.now script.now.dataset (map seen_place places.now) script.now.lanes }
    requires places { ArePlaces schema.now messages.now script.now.lanes (map seen_place places.now) }
    ensures home { (name : List ℕ) → S.out store.new name ≡ false }
    ensures played { IfOk result (λ t. WhereTold (S.has store.old) (S.has store.new) (Played schema.now messages.now script.now t.before t.lanes)) }
    ensures idle { OnErr result (WhereTold (S.has store.old) (S.has store.new) HoldsSame) }
    ensures left { OnErr result (WhereTold (S.has store.old) (S.has store.new) (LeavesUnplayed script.now.dataset)) }
    ensures refused { IfErr result (λ e. IfSome (S.has store.old) (IsUnopened script.now.dataset e)) }
    ensures later { S.faults store.old ≤ S.faults store.new }
{
    let its = script.lanes();
    let Ok(archivers) = Vec::with_capacity(alloc, its.len()) else {
        return Err(OpenFault::NoMemory);
    };
    let Ok(mut library) = Library::new(alloc) else {
        return Err(OpenFault::NoMemory);
    };
    let name = script.dataset();
    match library.dataset(alloc, store, name, true) {
        Ok(Some(_number)) => {
            let play = Score {
                schema,
                script,
                messages,
                places,
            };
            play_opened(rt, alloc, &play, library, archivers, store, gate)
        }
        Ok(None) => unreachable!(),
        Err(fault) => {
            library.give_back(store);
            Err(fault)
        }
    }
}
