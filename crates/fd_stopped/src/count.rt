// A count that many objects share.
ghost use Rattle.std.specs.Prelude.{◌≡◌};

use atomic_table::{Play, Table, TableRule};
use fd_bytes::NoMemory;
use std::alloc::Global;

/// A count of calls. Contracts know which count it is, by the table that it stands in, and nothing of its number.
pub struct Count {
    table: Table<u64, (), (), AnyNumber, Global>,
    ghost words: { table.shared.table_id.words ≡ 1 },
}

/// Any number may stand there.
pub(crate) struct AnyNumber;

impl TableRule<u64, (), ()> for AnyNumber {
    ghost holds = { λ key state. Unit {0} };

    ghost first = { λ key. tt };
}

/// Nothing is told of a step.
struct Untold;

impl Play<u64, ()> for Untold {
    ghost then = { λ step before found after. Unit {0} };
}

impl Drop for Count {
    fn drop(self) {
        let Count { table } = self;
        drop(table);
    }
}

impl Count {
    /// A count of no calls.
    pub(crate) fn new(alloc: Global) -> Result<Count, NoMemory> {
        match Table::of_words(alloc, &[0], &()) {
            Ok((table, _)) => Ok(Count { table }),
            Err(_) => Err(NoMemory),
        }
    }

    /// Counts a call, and gives how many there were before.
    pub(crate) fn raise(&self) -> u64 {
        let (_, mut seat) = self.table.shared.load_new_seat::<Untold>(0);
        self.table.shared.fetch_add::<Untold>(&mut seat, 0, 1)
    }
}
