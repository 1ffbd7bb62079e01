ghost use Rattle.compare.specs.Decided.{OneVerdict};
ghost use Rattle.compare.specs.Verdicts.{OneTally};

/// That a verdict could not be another, proved of the definitions: of two runs one likeness is
/// found with one list of marks (`likeness`), and one tally of what is compared (`tallies`). A call
/// of it does nothing.
pub fn verdicts_stand()
    ensures likeness { OneVerdict }
    ensures tallies { OneTally }
{}
