ghost use Rattle.std.specs.Prelude.{if◌then◌else◌, Some, None, length, ◌==◌};
ghost use Rattle.std.proofs.Common.{rules};

use std::alloc::Global;
use train_end::{BrakeLine, TrainEnd};

// An end of a make that nobody builds: a block without bytes means 0 km/h, and any other 7.
// It notes what it is told: the number of each line that is set, and b for each block.
#[derive(Drop)]
pub struct NotingEnd {
    pub notes: Vec<u8>,
    heard: bool,
    moves: bool,
    line: BrakeLine,
}

impl NotingEnd {
    pub fn new(heap: Global) -> NotingEnd {
        NotingEnd {
            notes: Vec::new(heap),
            heard: false,
            moves: false,
            line: BrakeLine::Emergency,
        }
    }
}

impl TrainEnd for NotingEnd {
    ghost reading = { λ b. (if length b == 0 then Some 0 else Some 7) };

    ghost speed_of = { λ e. (if e.heard then (if e.moves then Some 7 else Some 0) else None) };

    ghost line_of = { λ e. e.line };

    ghost range = { Prim.search rules };

    fn give_block(&mut self, block: &[u8]) {
        let _ = self.notes.push(b'b');
        self.heard = true;
        self.moves = !block.is_empty();
    }

    fn set_line(&mut self, line: BrakeLine) {
        let _ = self.notes.push(b'0' + line.number());
        self.line = line;
    }

    fn speed(&self) -> Option<u16> {
        match (self.heard, self.moves) {
            (false, _) => None,
            (true, false) => Some(0),
            (true, true) => Some(7),
        }
    }

    fn line(&self) -> BrakeLine {
        self.line
    }
}
