// The top call over objects in memory, and once over real files: rows of words, input, output, report and status.

/// A row that is another but for these fields.
macro_rules! row {
    ($base:expr, $($field:ident: $value:expr),+) => { Row { $($field: $value,)+ ..$base } };
}

/// A case of these fields alone.
macro_rules! case {
    ($($field:ident: $value:expr),+) => { Case { $($field: $value,)+ ..CASE } };
}

/// A case that differs from another in these fields.
macro_rules! case_of {
    ($base:expr, $($field:ident: $value:expr),+) => { Case { $($field: $value,)+ ..$base } };
}

/// These cases, each with a crash that leaves what the number of its place chooses.
macro_rules! crashed {
    ($first:expr, $second:expr, $third:expr, $fourth:expr) => {
        &[
            case_of!($first, event: Event::Crash(0)),
            case_of!($second, event: Event::Crash(1)),
            case_of!($third, event: Event::Crash(2)),
            case_of!($fourth, event: Event::Crash(3)),
        ]
    };
}

/// A step of a lane that waits until the other has come so far.
macro_rules! hold {
    ($lane:expr, $step:expr, $until:expr) => { Hold { lane: $lane, step: $step, until: $until } };
}

mod crashes;
mod cubes;
mod damage;
mod large;
mod layers;
mod reclaiming;
mod refusals;
mod sessions;
mod split;
mod stores;
mod streams;
mod trials;
mod workers;
