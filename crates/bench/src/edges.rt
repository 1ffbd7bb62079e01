ghost use Rattle.bench.specs.Calls.{OrderRows, PressRows, CycleRows};
ghost use Rattle.bench.specs.Edges.{Edges, ReachedEdges, MoreEdges};
ghost use Rattle.bench.specs.LastCycle.{LastRows};
ghost use Rattle.bench.specs.Rows.{HeardRows, ButtonRows, RefusalRows, FirstRefusals, BookRows, EntryRows};

/// The worked edges, proved of the unit's definitions. A call of it does nothing.
///
/// `edges`, `reached` and `more`: where lists of calls lead. `heard` and `buttons`: what each mode
/// hears and enables. `refusals` and `told_first`: when a call is refused, and which of two
/// refusals is told. `orders`, `presses`, `cycles` and `last`: single calls with all their numbers,
/// and those at the last cycle number. `book` and `entries`: what is counted after worked lists.
pub fn edges_stand()
    ensures edges { Edges }
    ensures reached { ReachedEdges }
    ensures more { MoreEdges }
    ensures heard { HeardRows }
    ensures buttons { ButtonRows }
    ensures refusals { RefusalRows }
    ensures told_first { FirstRefusals }
    ensures orders { OrderRows }
    ensures presses { PressRows }
    ensures cycles { CycleRows }
    ensures last { LastRows }
    ensures book { BookRows }
    ensures entries { EntryRows }
{}
