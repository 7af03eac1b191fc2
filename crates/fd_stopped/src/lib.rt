//! A store that stops: over any other store, it passes so many calls on and fails all later ones, which do nothing.
#![tactic(auto)]

/// Ends a call where no more go on.
macro_rules! stop {
    ($stops:expr) => { if $stops.stop() { return Err(Down::Fault(StopFault::Stopped)); } };
}

/// The same of a call that takes the table, which is put back then.
macro_rules! stop_with_table {
    ($dataset:expr, $table:expr) => {
        if $dataset.stops.stop() {
            $dataset.inner.give_table($table);
            return Err(Down::Fault(StopFault::Stopped));
        }
    };
}

/// Ends a call where no more go on, and gives the count for one object more.
macro_rules! shared {
    ($stops:expr) => {{
        stop!($stops);
        match $stops.shared() { Ok(stops) => stops, Err(_) => return Err(Down::NoMemory) }
    }};
}

/// What a call of the object below gave, as the object that stops gives it.
macro_rules! passed {
    ($call:expr, $($good:pat => $given:expr),+) => {
        match $call {
            $($good => $given,)+
            Err(Down::Fault(fault)) => Err(Down::Fault(StopFault::Below(fault))),
            Err(Down::NoMemory) => Err(Down::NoMemory),
        }
    };
}

/// What a call of the object below hands out, which stops with the one whose calls are counted here.
macro_rules! passed_sharing {
    ($stops:expr, $call:expr) => {{
        let stops = shared!($stops);
        passed!($call, Ok(object) => Ok(Stopped::new(object, stops)))
    }};
}

/// The same of a call that may find none.
macro_rules! passed_sharing_some {
    ($stops:expr, $call:expr) => {{
        let stops = shared!($stops);
        passed!($call, Ok(Some(object)) => Ok(Some(Stopped::new(object, stops))), Ok(None) => Ok(None))
    }};
}

/// What a call of the file below gives, where it goes on.
macro_rules! passed_by_file {
    ($stops:expr, $call:expr) => {{
        if $stops.stop() { return Err(StopFault::Stopped); }
        match $call { Ok(good) => Ok(good), Err(fault) => Err(StopFault::Below(fault)) }
    }};
}

mod count;
mod disk;
mod fault;
mod folder;
mod renewing;
mod sealed;
mod shelf;
mod stopped;
mod stops;
mod store;

pub use fault::StopFault;
pub use sealed::StoppedReader;
pub use stopped::Stopped;
pub use stops::Stops;
