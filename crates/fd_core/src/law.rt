ghost use Rattle.fd_core.specs.Calls.{EveryCallIsAStep};
ghost use Rattle.fd_machine.specs.Laws.{FetchesNewest, LeavesImages, OnlyGrows, OnlyPostLists, OnlyReopens, OverEveryRun, PostsItsPairs, SeesOnlyListed, SurvivesCrash};

/// What holds over every interleaving of the steps, at each step: a fetch answers the newest bytes of its key among the
/// batches that its reader has seen; the history only grows, and by nothing but a post or an opening; a post appends
/// exactly its writer's pairs; and whatever images of the files a crash leaves, the next opening finds the history,
/// with the batch that was listed already, and with or without the one whose gate was being opened or is in doubt.
pub fn every_run()
    ensures fetches { OverEveryRun FetchesNewest }
    ensures grows { OverEveryRun OnlyGrows }
    ensures sees { OverEveryRun SeesOnlyListed }
    ensures post { OverEveryRun PostsItsPairs }
    ensures only_post { OverEveryRun OnlyPostLists }
    ensures crash { OverEveryRun SurvivesCrash }
    ensures images { OverEveryRun LeavesImages }
    ensures down { OverEveryRun OnlyReopens }
{}

/// Each call of the disk that a writer makes is the step that stands for it, wherever that is possible. A write or a sync that
/// ends well does to its file what the step does. Behind one that failed a crash leaves what it may leave behind the step
/// `Fail`: also where the write did nothing, since what a crash may leave of the untouched file is among that.
pub fn every_call()
    ensures { EveryCallIsAStep }
{}
