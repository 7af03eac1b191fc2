ghost use Rattle.fd_pages.specs.Parts.{IsSeenOnce};

/// The law that two look-ups of one key in one file, where told, have one answer, whatever else stands in the file: so nobody
/// else's look-ups matter to it.
pub fn one_answer()
    ensures { IsSeenOnce }
{}
