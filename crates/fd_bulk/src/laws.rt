ghost use Rattle.fd_bulk.specs.Tables.{AreTables};
ghost use Rattle.fd_shares.specs.Dealing.{AreAsOne, AreFew};

/// The law that workers, to which pairs are dealt by their keys and each of which lists its own in their order, list what
/// one batch of all pairs would: each key has the same newest bytes.
pub fn every_dealing()
    ensures { AreAsOne }
{}

/// The law that they list few batches, where each batch of a worker but one has 512 pairs.
pub fn few_batches()
    ensures { AreFew }
{}

/// The law that a dataset in which workers have listed what was dealt to them holds what it held, and behind it few batches,
/// which give what one batch of all pairs would.
pub fn every_table()
    ensures { AreTables }
{}
