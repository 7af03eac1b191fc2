//! Worked runs.
ghost use Rattle.fd_lanes.specs.Rows.{WorkedRuns};

/// That the worked runs of lanes are legal, and that some others are not.
pub fn worked_runs()
    ensures { WorkedRuns }
{}
