ghost use Rattle.window.specs.Lines.{newer, level};
ghost use Rattle.std.proofs.Common.{rules};

use ordering::order::Ordered;

/// One line of the window. It holds a place and a length and no words, so that the store can take
/// new texts while the line stands. Whether its text lies in the store is asked when it is shown.
#[derive(Clone, Copy, PartialEq, Eq, Debug)]
pub struct Line {
    /// The number of the cycle that it came in, 0 to 4294967295.
    pub cycle: u32,
    /// The number of its text, 0 to 255.
    pub number: u8,
    /// Where its text begins in the store, counted from 0. It may be any number.
    pub place: usize,
    /// How many bytes its text has. It may be any number.
    pub length: usize,
}

/// The larger cycle is before; in one cycle, the smaller number.
impl Ordered for Line {
    ghost before = { newer };

    ghost same = { level };

    ghost one = { Prim.search rules };

    ghost carries = { Prim.search rules };

    fn is_before(&self, other: &Line) -> bool {
        // Written out: a comparison of two pairs takes a third longer here.
        self.cycle > other.cycle || (self.cycle == other.cycle && self.number < other.number)
    }
}
