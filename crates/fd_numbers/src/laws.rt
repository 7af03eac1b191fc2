ghost use Rattle.fd_numbers.specs.Numbers.{AreAllNumbers, AreNoMore};

/// The law that as many different numbers as there are from b + 1 to b + n, each of them one of these, are all of these.
pub fn every_number()
    ensures { AreAllNumbers }
{}

/// The law that a list of different numbers, each of which stands in another list, is no longer than that one.
pub fn no_longer()
    ensures { AreNoMore }
{}
