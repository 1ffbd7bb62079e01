ghost use Rattle.bench.specs.Asking.{TextsAsk};
ghost use Rattle.bench.specs.Laws.{BookLaw, EntryLaw, LikenessLaw, SpeedLaw};
ghost use Rattle.bench.specs.Pretences.{NotByTheBook, NotConfirmedOnce, NotEqualEnds};
ghost use Rattle.bench.specs.Readings.{RuledOut};

/// The laws over runs, proved of the unit's definitions. A call of it does nothing.
///
/// `book`, `entries`, `speeds` and `likeness`: the laws, of every list of calls on every end.
/// `readings`: three readings of the rules that are ruled out. `texts`: what a text asks of the
/// driver. `strays`, `unconfirmed` and `unequal`: accounts, confirmations and ends that the laws
/// refuse.
pub fn laws_stand()
    ensures book { BookLaw }
    ensures entries { EntryLaw }
    ensures speeds { SpeedLaw }
    ensures likeness { LikenessLaw }
    ensures readings { RuledOut }
    ensures texts { TextsAsk }
    ensures strays { NotByTheBook }
    ensures unconfirmed { NotConfirmedOnce }
    ensures unequal { NotEqualEnds }
{}
