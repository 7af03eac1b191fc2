// What stands ready before the first key is answered.
ghost use Rattle.std.specs.Prelude.{◌≡◌, ◌≤◌, [], List, ℕ, Some, Ok, false, length, map, IfOk, IfErr, IfSome, IsErr, OnOk};
ghost use Rattle.fd_disk.specs.Folders.{WhereTold};
ghost use Rattle.fd_request.specs.Expansion.{expand};
ghost use Rattle.fd_schema.specs.Reading.{seen_place};
ghost use Rattle.fd_words.specs.Words.{AreLayers};
ghost use Rattle.fd_outcome.specs.{Asking.{rules_of}, Ends.{AmongLaid}, Layered.{laid_of}, Noticing.{IsUnread}};
ghost use Rattle.fd_stored.specs.Store.{Stays};
ghost use Rattle.fd_objects.specs.Given.{source_of};
ghost use Rattle.fd_retrieve.specs.{Looking.{IsLookedThrough}, Ready.{AreFirmOf}, Tables.{datasets_in}};
ghost use Rattle.fd_telling.specs.Stops.{HasReadCause, IsOfRequest, IsRefused, Says};
ghost use Rattle.fd_layered.specs.{Chains.{AreChains}, Ready.{IsReady, laid_in, laid_with}};

use crate::placing::places_over;
use fd_disk::{Folder, Store};
use fd_io::Source;
use fd_outcome::{Unruled, stored_schema};
use fd_request::Request;
use fd_retrieve::{Ready, open_all, request_of, tables_of};
use fd_schema::Place;
use fd_telling::Stop;
use fd_words::Layers;
use std::alloc::Global;

/// Reads the request, and opens the datasets of its keys and those under them. Each is given back.
pub(crate) fn prepared<F: Send, X: Drop, S: Store<F>, I: Source<X>>(
    alloc: Global,
    root: &str,
    layers: &Layers,
    store: &mut S,
    input: &mut I,
) -> Result<Ready<F, <S::Folder as Folder<F>>::Sealed>, Stop<F>>
where
    requires home { (n : List ℕ) → S.out store.old n ≡ false }
    requires layers { AreLayers layers.now }
    ensures prepared { IfOk result (λ r. IfSome (S.has store.old)
        (λ h. IfSome (I.left input.old) (λ octets. IsReady h layers.now octets r.request r.places.items r.opened.items))) }
    ensures firm { IfOk result (λ r. IfSome (S.has store.new) (λ i. AreFirmOf i (datasets_in r.places.items))) }
    ensures chains { IfOk result (λ r. AreChains (length layers.now) (expand r.request) (map seen_place r.places.items)) }
    ensures read { OnOk result (IfSome (I.left input.old) (λ octets. I.left input.new ≡ Some [])) }
    ensures unread { IfSome (S.has store.old) (λ h. IsErr (rules_of h.schema) → IsUnread (source_of I.Source input)) }
    ensures says { IfErr result (λ e. IfSome (S.has store.old)
        (λ h. IfSome (I.left input.old) (λ octets. Says e h (IsRefused (laid_of h layers.now octets))
        (AmongLaid (laid_of h layers.now octets))))) }
    ensures cause { HasReadCause (I.faults input.old) (I.faults input.new) result }
    ensures stays { WhereTold (S.has store.old) (S.has store.new) Stays }
    ensures looks { WhereTold (S.has store.old) (S.has store.new) IsLookedThrough }
    ensures home { (n : List ℕ) → S.out store.new n ≡ false }
    ensures later { S.faults store.old ≤ S.faults store.new }
{
    let (request, places) = match placed(alloc, root, layers, store, input) {
        Ok(pair) => pair,
        Err(stop) => return Err(stop),
    };
    let names = match tables_of(alloc, store, &places) {
        Ok(names) => names,
        Err(stop) => return Err(stop),
    };
    match open_all(alloc, store, &names) {
        Ok(opened) => Ok(Ready {
            request,
            places,
            opened,
        }),
        Err(stop) => Err(stop),
    }
}

/// Reads the request, and finds the places of its keys and those under the layers by the stored schema.
#[tactic(auto, using(fd_retrieve::proofs::Unread::unread))]
fn placed<F: Send, X: Drop, S: Store<F>, I: Source<X>>(
    alloc: Global,
    root: &str,
    layers: &Layers,
    store: &mut S,
    input: &mut I,
) -> Result<(Request, Vec<Place>), Stop<F>>
    requires layers { AreLayers layers.now }
    ensures placed { IfOk result (λ r. IfSome (S.has store.old)
        (λ h. IfSome (I.left input.old) (λ octets. laid_in h layers.now octets ≡ Ok (laid_with layers.now r.0 r.1.items)))) }
    ensures chains { IfOk result (λ r. AreChains (length layers.now) (expand r.0) (map seen_place r.1.items)) }
    ensures read { OnOk result (IfSome (I.left input.old) (λ octets. I.left input.new ≡ Some [])) }
    ensures unread { IfSome (S.has store.old) (λ h. IsErr (rules_of h.schema) → IsUnread (source_of I.Source input)) }
    ensures says { IfErr result (λ e. IfSome (S.has store.old)
        (λ h. IfSome (I.left input.old) (λ octets. IsOfRequest e (IsRefused (laid_in h layers.now octets))))) }
    ensures cause { HasReadCause (I.faults input.old) (I.faults input.new) result }
    ensures has { S.has store.new ≡ S.has store.old }
    ensures out { S.out store.new ≡ S.out store.old }
    ensures later { S.faults store.old ≤ S.faults store.new }
{
    let schema = match stored_schema(alloc, store, root) {
        Ok(schema) => schema,
        Err(Unruled::Disk(fault)) => return Err(Stop::Disk(fault)),
        Err(Unruled::Missing) => return Err(Stop::Missing),
        Err(Unruled::At { line, kind }) => return Err(Stop::Schema { line, kind }),
        Err(Unruled::NoMemory) => return Err(Stop::NoMemory),
    };
    let request = match request_of(alloc, input) {
        Ok(request) => request,
        Err(stop) => return Err(stop),
    };
    match places_over(alloc, &schema, &request, layers) {
        Ok(places) => Ok((request, places)),
        Err(stop) => Err(stop),
    }
}
