ghost use Rattle.fd_index.specs.{First.{NamesFirstPlace}, Index.{ReadsItsRecords}, Pages.{StandOnTheirPages}, Records.{OneForItsPuts}};

/// What holds of every index file: bytes are read as records exactly where they are the index file of these, and a
/// place is named exactly where it is the first against the format; records stand on the pages on which the format has
/// them, and on no others; and records that stand for the same puts are the same.
pub fn every_index()
    ensures records { ReadsItsRecords }
    ensures faults { NamesFirstPlace }
    ensures pages { StandOnTheirPages }
    ensures puts { OneForItsPuts }
{}
