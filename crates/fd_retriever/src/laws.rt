//! Which opened segments fit which history.
ghost use Rattle.fd_retriever.specs.Kept.{FitsLater, NothingFits, ThoseFit};

/// The law that lenses in which nothing is kept fit every snapshot, and that lenses of a snapshot's own files fit it.
pub fn every_snapshot()
    ensures nothing { NothingFits }
    ensures those { ThoseFit }
{}

/// The law that lenses which fit a snapshot fit each later one, whose listings go on from those of the first.
pub fn every_later_snapshot()
    ensures { FitsLater }
{}
