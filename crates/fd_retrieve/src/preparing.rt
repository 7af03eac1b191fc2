// What stands ready before the first key is answered.
ghost use Rattle.std.specs.Prelude.{◌≡◌, ◌≤◌, ◌<◌, [], ◌∷◌, List, ℕ, Some, Ok, false, length, IfOk, IfErr, IfSome, IsErr, OnOk};
ghost use Rattle.fd_disk.specs.Folders.{WhereTold, folder_at};
ghost use Rattle.fd_spelling.specs.Texts.{texts};
ghost use Rattle.fd_recovery.specs.{Causes.{NotTooMany}, Crashing.{IsFirmTable}, Recovered.{IsUndamaged}};
ghost use Rattle.fd_request.specs.Expansion.{expand};
ghost use Rattle.fd_outcome.specs.{Asking.{asked_of, rules_of}, Ends.{AmongAsked}, Noticing.{IsUnread}};
ghost use Rattle.fd_stored.specs.Store.{Stays};
ghost use Rattle.fd_objects.specs.Given.{source_of};
ghost use Rattle.fd_retrieve.specs.{Looking.{IsLookedThrough}, Ready.{AreFirmOf, AreOpen, NoneIsDamaged, IsBrokenOf, IsReady, IsUnopened, MayOpen, asked_at, placed_of}, Tables.{datasets_in}};
ghost use Rattle.fd_telling.specs.Stops.{HasReadCause, IsOfRequest, IsRefused, OfDataset, Says};

use crate::asking::{places_of, request_of};
use crate::opened::open;
use crate::tables::tables_of;
use fd_ahead::Opened;
use fd_disk::{Folder, Sealed, Store};
use fd_io::Source;
use fd_outcome::{Unruled, stored_schema};
use fd_recovery::OpenFault;
use fd_request::Request;
use fd_schema::Place;
use fd_telling::{Broken, Stop};
use std::alloc::Global;
use std::thread::Threads;

/// A request, the places of its keys, and the datasets of the places that have tables.
#[derive(Drop)]
pub struct Ready<F: Send, Z: Sealed<F>> {
    /// The request.
    pub request: Request,
    /// The places of its keys, in its order; over layers, each with those under the layers behind it.
    pub places: Vec<Place>,
    /// The datasets of the places that have tables.
    pub opened: Vec<Opened<F, Z>>,
}

/// Reads the request, for the places of whose keys so many threads look, and opens their datasets. Each is given back.
pub(crate) fn prepared<F: Send, X: Drop, S: Store<F>, I: Source<X>, R: Threads + Sync>(
    rt: &R,
    alloc: Global,
    root: &str,
    workers: u32,
    store: &mut S,
    input: &mut I,
) -> Result<Ready<F, <S::Folder as Folder<F>>::Sealed>, Stop<F>>
where
    requires workers { 0 < workers }
    requires home { (n : List ℕ) → S.out store.old n ≡ false }
    ensures prepared { IfOk result (λ r. IfSome (S.has store.old)
        (λ h. IfSome (I.left input.old) (λ octets. IsReady h octets r.request r.places.items r.opened.items))) }
    ensures firm { IfOk result (λ r. IfSome (S.has store.new) (λ i. AreFirmOf i (datasets_in r.places.items))) }
    ensures count { IfOk result (λ r. length r.places.items ≡ length (expand r.request)) }
    ensures read { OnOk result (IfSome (I.left input.old) (λ octets. I.left input.new ≡ Some [])) }
    ensures unread { IfSome (S.has store.old) (λ h. IsErr (rules_of h.schema) → IsUnread (source_of I.Source input)) }
    ensures says { IfErr result (λ e. IfSome (S.has store.old)
        (λ h. IfSome (I.left input.old) (λ octets. Says e h (IsRefused (asked_of h octets)) (AmongAsked (asked_of h octets))))) }
    ensures cause { HasReadCause (I.faults input.old) (I.faults input.new) result }
    ensures stays { WhereTold (S.has store.old) (S.has store.new) Stays }
    ensures looks { WhereTold (S.has store.old) (S.has store.new) IsLookedThrough }
    ensures home { (n : List ℕ) → S.out store.new n ≡ false }
    ensures later { S.faults store.old ≤ S.faults store.new }
{
    let (request, places) = match placed(rt, alloc, root, workers, store, input) {
        Ok(pair) => pair,
        Err(stop) => return Err(stop),
    };
    let names = match tables_of(alloc, store, &places) {
        Ok(names) => names,
        Err(stop) => return Err(stop),
    };
    match open_all(alloc, store, &names) {
        Ok(opened) => Ok(Ready {
            request,
            places,
            opened,
        }),
        Err(stop) => Err(stop),
    }
}

/// Reads the request, and finds the places of its keys by the stored schema, by so many threads.
#[tactic(auto, using(crate::proofs::Unread::unread))]
fn placed<F: Send, X: Drop, S: Store<F>, I: Source<X>, R: Threads + Sync>(
    rt: &R,
    alloc: Global,
    root: &str,
    workers: u32,
    store: &mut S,
    input: &mut I,
) -> Result<(Request, Vec<Place>), Stop<F>>
    requires workers { 0 < workers }
    ensures placed { IfOk result (λ r. IfSome (S.has store.old)
        (λ h. IfSome (I.left input.old) (λ octets. placed_of h octets ≡ Ok (asked_at r.0 r.1.items)))) }
    ensures count { IfOk result (λ r. length r.1.items ≡ length (expand r.0)) }
    ensures read { OnOk result (IfSome (I.left input.old) (λ octets. I.left input.new ≡ Some [])) }
    ensures unread { IfSome (S.has store.old) (λ h. IsErr (rules_of h.schema) → IsUnread (source_of I.Source input)) }
    ensures says { IfErr result (λ e. IfSome (S.has store.old)
        (λ h. IfSome (I.left input.old) (λ octets. IsOfRequest e (IsRefused (placed_of h octets))))) }
    ensures cause { HasReadCause (I.faults input.old) (I.faults input.new) result }
    ensures has { S.has store.new ≡ S.has store.old }
    ensures out { S.out store.new ≡ S.out store.old }
    ensures later { S.faults store.old ≤ S.faults store.new }
{
    let schema = match stored_schema(alloc, store, root) {
        Ok(schema) => schema,
        Err(Unruled::Disk(fault)) => return Err(Stop::Disk(fault)),
        Err(Unruled::Missing) => return Err(Stop::Missing),
        Err(Unruled::At { line, kind }) => return Err(Stop::Schema { line, kind }),
        Err(Unruled::NoMemory) => return Err(Stop::NoMemory),
    };
    let request = match request_of(alloc, input) {
        Ok(request) => request,
        Err(stop) => return Err(stop),
    };
    match places_of(rt, alloc, &schema, &request, workers) {
        Ok(places) => Ok((request, places)),
        Err(stop) => Err(stop),
    }
}

/// Opens the datasets of these names, and gives each back.
pub fn open_all<F: Send, S: Store<F>>(
    alloc: Global,
    store: &mut S,
    names: &[String],
) -> Result<Vec<Opened<F, <S::Folder as Folder<F>>::Sealed>>, Stop<F>>
where
    requires home { (n : List ℕ) → S.out store.old n ≡ false }
    ensures opened { IfOk result (λ v. IfSome (S.has store.old) (λ h. AreOpen h (texts names.now) v.items)) }
    ensures undamaged { IfOk result (λ v. IfSome (S.has store.old) (λ h. NoneIsDamaged h (texts names.now))) }
    ensures firm { IfOk result (λ v. IfSome (S.has store.new) (λ i. AreFirmOf i (texts names.now))) }
    ensures broken { IfErr result (λ e. IfSome (S.has store.old) (λ h. IsBrokenOf e h (texts names.now))) }
    ensures of { IfErr result OfDataset }
    ensures stays { WhereTold (S.has store.old) (S.has store.new) Stays }
    ensures looks { WhereTold (S.has store.old) (S.has store.new) IsLookedThrough }
    ensures home { (n : List ℕ) → S.out store.new n ≡ false }
    ensures later { S.faults store.old ≤ S.faults store.new }
{
    let mut opened = Vec::new(alloc);
    for i in 0..names.len() {
        match open_more(alloc, store, &mut opened, &names[i]) {
            Ok(()) => {}
            Err(stop) => return Err(stop),
        }
    }
    Ok(opened)
}

/// Opens one dataset more, where it has a table, and gives it back.
fn open_more<F: Send, S: Store<F>>(
    alloc: Global,
    store: &mut S,
    opened: &mut Vec<Opened<F, <S::Folder as Folder<F>>::Sealed>>,
    name: &str,
) -> Result<(), Stop<F>>
where
    requires home { (n : List ℕ) → S.out store.old n ≡ false }
    ensures opened { OnOk result (IfSome (S.has store.old) (λ h. MayOpen h opened.old.items name.now opened.new.items)) }
    ensures undamaged { OnOk result (IfSome (S.has store.old) (λ h. IsUndamaged name.now (folder_at h name.now))) }
    ensures firm { OnOk result (IfSome (S.has store.new) (λ i. IsFirmTable (folder_at i name.now).table)) }
    ensures broken { IfErr result (λ e. IfSome (S.has store.old) (λ h. IsBrokenOf e h (name.now ∷ []))) }
    ensures of { IfErr result OfDataset }
    ensures stays { WhereTold (S.has store.old) (S.has store.new) Stays }
    ensures looks { WhereTold (S.has store.old) (S.has store.new) IsLookedThrough }
    ensures home { (n : List ℕ) → S.out store.new n ≡ false }
    ensures later { S.faults store.old ≤ S.faults store.new }
{
    match open(alloc, store, name) {
        Ok(Some(one)) => match opened.push(one) {
            Ok(()) => Ok(()),
            Err(_) => Err(Stop::NoMemory),
        },
        Ok(None) => Ok(()),
        Err(fault) => Err(unopened(alloc, name, fault)),
    }
}

/// Why a dataset isn't opened.
pub fn unopened<F>(alloc: Global, name: &str, fault: OpenFault<F>) -> Stop<F>
    requires { NotTooMany fault }
    ensures is { IsUnopened name.now fault result }
    ensures of { OfDataset result }
{
    let broken = match fault {
        OpenFault::Disk(fault) => return Stop::Disk(fault),
        OpenFault::NotATable { at, want, found } => Broken::Table { at, want, found },
        OpenFault::Damaged(damage) => Broken::File(damage),
        OpenFault::TooMany { .. } => unreachable!(),
        OpenFault::NoMemory => return Stop::NoMemory,
    };
    match String::from_str(alloc, name) {
        Ok(dataset) => Stop::Broken { dataset, broken },
        Err(_) => Stop::NoMemory,
    }
}
