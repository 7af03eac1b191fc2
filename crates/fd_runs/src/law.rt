ghost use Rattle.fd_runs.specs.Runs.{EveryScriptIsARun, EverySessionIsARun};

/// Whatever lanes over a table have done, told by a legal transcript: there is one list of steps of the machine, which lists the
/// batches that were there and then takes the steps of all lanes, those of each lane in their order; each step is possible where it
/// stands, each fetch answers what the get was answered, and in the end the history is the batches that were there and those that
/// were flushed.
pub fn every_session<F>()
    ensures { EverySessionIsARun F }
{}

/// The same of a script, over its messages and a schema, whose steps may be taken where its lanes run.
pub fn every_script<F>()
    ensures { EveryScriptIsARun F }
{}
