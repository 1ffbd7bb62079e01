ghost use Rattle.std.specs.Prelude.{◌≤◌, length};

use crate::order::{Ordered, first_of};

/// Why a call of a shelf was refused. It has no number; who owns the shelf turns it into its own.
#[derive(Clone, Copy, PartialEq, Eq, Debug)]
pub enum ShelfRefusal {
    /// Every place is in use.
    NoFreePlace,
    /// No record stands at the position.
    NoSuchPosition,
}

/// A shelf of records on a slice that its owner lends, so that no memory is taken.
///
/// The records stand front to back, counted from position 0. The shelf has as many places as the
/// slice has records.
#[derive(Drop)]
pub struct Shelf<'a, T> {
    run: &'a mut [T],
    // How many of the run are records of the shelf; those behind them may be anything.
    count: usize,
    ghost within: { count ≤ length run.now },
}

impl<'a, T: Copy> Shelf<'a, T> {
    ghost use Rattle.std.specs.Prelude.{◌≡◌, [], length};
    ghost use Rattle.ordering.specs.Order.{chosen, Apart, NoneBefore, Leads};
    ghost use Rattle.ordering.specs.Shelf.{items, places, SameRun, PutFront, TakenOut};

    /// An empty shelf on this slice, of any length.
    pub fn new(run: &'a mut [T]) -> Shelf<'a, T>
        ensures empty { items result ≡ [] }
        ensures room { places result ≡ length run.old }
        ensures lent { result.run.ghost_name ≡ run.entry.ghost_name }
    {
        Shelf { run, count: 0 }
    }

    /// How many records stand on the shelf.
    pub fn len(&self) -> usize
        ensures { result ≡ length (items self.now) }
    {
        self.live().len()
    }

    /// How many records the shelf has room for.
    pub fn places(&self) -> usize
        ensures { result ≡ places self.now }
    {
        self.run.len()
    }

    /// The records of the shelf, front to back.
    pub fn live(&self) -> &[T]
        ensures { result.now ≡ items self.now }
    {
        &self.run[..self.count]
    }

    /// Puts a record in front of the others, which all move one place back.
    ///
    /// `NoFreePlace` where every place is in use; the shelf is then as before.
    pub fn put_front(&mut self, x: T) -> Result<(), ShelfRefusal>
        ensures same_run { SameRun self.old self.new }
        ensures cases { PutFront self.old self.new x result }
    {
        let n = self.count;
        if n == self.places() {
            return Err(ShelfRefusal::NoFreePlace);
        }
        self.run.copy_within(..n, 1);
        self.run[0] = x;
        self.count += 1;
        Ok(())
    }

    /// Takes out the record at a position, counted from 0, and answers it. The others keep their
    /// order.
    ///
    /// `NoSuchPosition` where no record stands there; the shelf is then as before.
    pub fn take_out(&mut self, position: usize) -> Result<T, ShelfRefusal>
        ensures same_run { SameRun self.old self.new }
        ensures cases { TakenOut self.old self.new position result }
    {
        let x = *self
            .live()
            .get(position)
            .ok_or(ShelfRefusal::NoSuchPosition)?;
        self.run.copy_within(position + 1..self.count, position);
        self.count -= 1;
        Ok(x)
    }

    /// The position of the first record by their order, as `first_of` finds it, or none where the
    /// shelf is empty.
    pub fn first(&self) -> Option<usize>
    where
        T: Ordered,
        ensures value { result ≡ chosen T.before (items self.now) }
        ensures none_before { NoneBefore T.before (items self.now) result }
        ensures leads { Apart T.same (items self.now) → Leads T.before (items self.now) result }
    {
        first_of(self.live())
    }
}
