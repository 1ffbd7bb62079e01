ghost use Rattle.std.specs.Prelude.{◌≡◌, Bool, true};
ghost use Rattle.ordering.specs.Order.{exactly_one, chosen, Apart, NoneBefore, Leads};

/// A kind of record with a strict order: of two records one is before the other, or they are the
/// same in the order.
pub trait Ordered {
    /// Whether one record is before another.
    ghost before: { Self → Self → Bool };

    /// Whether two records are the same in the order.
    ghost same: { Self → Self → Bool };

    /// Whether this record is before the other one.
    fn is_before(&self, other: &Self) -> bool
        ensures { result ≡ before self.now other.now };

    /// Exactly one holds of two records: the one is before, the other is before, or they are the
    /// same.
    ghost one: { (x y : Self) → exactly_one (before x y) (before y x) (same x y) ≡ true };

    /// What is before a record is also before all that come after that record.
    ghost carries: { (x y z : Self) → before x y ≡ true → before y z ≡ true → before x z ≡ true };
}

/// The place of the first record of a run, counted from 0, or none where the run is empty.
///
/// The best so far gives way only to a later record that is before it. So no record of the run is
/// before the answered one, and where no two are the same, it is before all others.
pub fn first_of<T: Ordered>(run: &[T]) -> Option<usize>
    ensures value { result ≡ chosen T.before run.now }
    ensures none_before { NoneBefore T.before run.now result }
    ensures leads { Apart T.same run.now → Leads T.before run.now result }
{
    if run.is_empty() {
        return None;
    }
    let mut best = 0;
    // By place: the first record is not compared with itself, which with few records is half the
    // work.
    for i in 1..run.len() {
        if run[i].is_before(&run[best]) {
            best = i;
        }
    }
    Some(best)
}
