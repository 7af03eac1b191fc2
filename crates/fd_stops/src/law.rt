ghost use Rattle.fd_stops.specs.Found.{ImagesAreLeft};

/// What the clauses of this crate say of each store that a crash may leave, they say of each image of the store: it is one of
/// those, once its tables are firm.
pub fn every_crash()
    ensures { ImagesAreLeft }
{}
