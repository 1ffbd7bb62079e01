ghost use Rattle.std.specs.Prelude.{◌==◌, nat_lt};
ghost use Rattle.std.proofs.Common.{rules};

use crate::checks::check;
use ordering::order::{Ordered, first_of};
use ordering::shelf::{Shelf, ShelfRefusal};

// The lower level is before; two marks of one level are the same, whatever their names.
#[derive(Clone, Copy, PartialEq, Eq, Debug)]
struct Mark {
    level: u8,
    name: char,
}

impl Ordered for Mark {
    ghost before = { λ x y. nat_lt x.level y.level };

    ghost same = { λ x y. (x.level == y.level) };

    ghost one = { Prim.search rules };

    ghost carries = { Prim.search rules };

    fn is_before(&self, other: &Mark) -> bool {
        self.level < other.level
    }
}

const A: Mark = Mark {
    level: 4,
    name: 'a',
};

const B: Mark = Mark {
    level: 6,
    name: 'b',
};

const C: Mark = Mark {
    level: 5,
    name: 'c',
};

// As A, by another name.
const D: Mark = Mark {
    level: 4,
    name: 'd',
};

// Marks, and the place of the first: of those of one level the earliest.
const FIRSTS: &[(&[Mark], Option<usize>)] = &[
    (&[], None),
    (&[B], Some(0)),
    (&[B, A], Some(1)),
    (&[B, A, C, D], Some(1)),
];

#[test]
fn the_earliest_of_the_lowest_is_first(rt: HostRuntime) {
    for (marks, place) in FIRSTS {
        check(&rt, "first", first_of(*marks), *place);
    }
}

// A mark is put in front, or the one at a place is taken out.
enum Change {
    Put(Mark),
    Take(usize),
}

// On a shelf of two, a change, the mark that it took out or its refusal, and then: the place of the first mark, and the marks.
const STEPS: &[(
    Change,
    Result<Option<Mark>, ShelfRefusal>,
    Option<usize>,
    &[Mark],
)] = &[
    (Change::Put(A), Ok(None), Some(0), &[A]),
    (Change::Put(B), Ok(None), Some(1), &[B, A]),
    (
        Change::Put(C),
        Err(ShelfRefusal::NoFreePlace),
        Some(1),
        &[B, A],
    ),
    (
        Change::Take(2),
        Err(ShelfRefusal::NoSuchPosition),
        Some(1),
        &[B, A],
    ),
    (Change::Take(0), Ok(Some(B)), Some(0), &[A]),
    (Change::Put(B), Ok(None), Some(1), &[B, A]),
    (Change::Take(1), Ok(Some(A)), Some(0), &[B]),
    (Change::Put(A), Ok(None), Some(0), &[A, B]),
];

#[test]
fn a_shelf_of_two_takes_two_marks(rt: HostRuntime) {
    let mut room = [C, C];
    let mut shelf = Shelf::new(&mut room);
    check(&rt, "an empty shelf", shelf.first(), None);
    for (change, wanted, first, marks) in STEPS {
        let answer = match *change {
            Change::Put(mark) => match shelf.put_front(mark) {
                Ok(()) => Ok(None),
                Err(refusal) => Err(refusal),
            },
            Change::Take(place) => match shelf.take_out(place) {
                Ok(mark) => Ok(Some(mark)),
                Err(refusal) => Err(refusal),
            },
        };
        check(&rt, "answer", answer, *wanted);
        check(&rt, "first", shelf.first(), *first);
        check(&rt, "marks", shelf.live(), *marks);
    }
}
