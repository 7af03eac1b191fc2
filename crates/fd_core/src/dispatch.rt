ghost use Rattle.std.specs.Prelude.{◌≡◌, IfOk, OnOk, OnErr};
ghost use Rattle.fd_machine.specs.{Machine.{after}, Took.{took_of}};

use crate::crash_steps::crash;
use crate::fail_steps::fail;
use crate::fetch_step::fetch;
use crate::open_steps::reopen;
use crate::put_step::put;
use crate::writer_steps::{
    body, close_gate, gate, post, release, sync_body, sync_close, sync_data, sync_gate, sync_index,
    take, write_index,
};
use crate::{State, Step, Took};
use fd_bytes::NoMemory;
use fd_machine::look;
use std::alloc::Global;

/// Takes a step, where it is possible now. `Took::No` is answered exactly where it is not possible, and then nothing
/// has changed; `Took::Answer` exactly for a fetch that is possible. After `NoMemory` nothing has changed.
pub fn step(alloc: Global, state: &mut State, step: Step) -> Result<Took, NoMemory>
    ensures took { IfOk result (λ t. t ≡ took_of state.old step) }
    ensures state { OnOk result (state.new ≡ after state.old step) }
    ensures unchanged { OnErr result (state.new ≡ state.old) }
{
    match step {
        Step::Put { w, key, bytes } => put(alloc, state, w, key, bytes),
        Step::SyncData { w } => sync_data(alloc, state, w),
        Step::WriteIndex { w } => write_index(alloc, state, w),
        Step::SyncIndex { w } => sync_index(alloc, state, w),
        Step::Take { w } => Ok(take(state, w)),
        Step::Body { w } => body(alloc, state, w),
        Step::SyncBody { w } => sync_body(alloc, state, w),
        Step::Gate { w } => gate(alloc, state, w),
        Step::SyncGate { w } => sync_gate(alloc, state, w),
        Step::Post { w } => post(alloc, state, w),
        Step::Release { w } => Ok(release(state, w)),
        Step::Look { r } => look(state, r),
        Step::Fetch { r, key } => fetch(alloc, state, r, key.as_slice()),
        Step::CloseGate { w } => close_gate(alloc, state, w),
        Step::SyncClose { w } => sync_close(alloc, state, w),
        Step::Fail { w } => fail(alloc, state, w),
        Step::Crash { left } => crash(alloc, state, left),
        Step::Reopen => reopen(alloc, state),
    }
}
