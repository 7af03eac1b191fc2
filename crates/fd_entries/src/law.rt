ghost use Rattle.fd_entries.specs.{Examples.{TableExamples}, Table.{ListsItsEntries, NamesFirstFault, NamesFirstOctet}};

/// What holds of every table: bytes list entries exactly where they are a table of these entries, and else the
/// octet that is named is the first against the format. And worked tables, with what they list or that octet.
pub fn every_table()
    ensures entries { ListsItsEntries }
    ensures faults { NamesFirstFault }
    ensures octets { NamesFirstOctet }
    ensures examples { TableExamples }
{}
