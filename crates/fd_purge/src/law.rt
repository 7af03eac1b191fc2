ghost use Rattle.fd_purge.specs.{Kept.{KeepsNewest}, Purging.{PurgeKeeps, PurgedHolds, WipeKeeps}};

/// What holds of every purge: each key has the newest bytes that it had; what it made of a dataset, and what a crash leaves at
/// each moment of it, holds what the dataset held, or that without its masked batches. And of every wipe: what a crash leaves
/// holds what the dataset held, or nothing.
pub fn every_purge()
    ensures newest { KeepsNewest }
    ensures images { PurgeKeeps }
    ensures purged { PurgedHolds }
    ensures wiped { WipeKeeps }
{}
