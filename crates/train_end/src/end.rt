ghost use Rattle.std.specs.Prelude.{◌≡◌, ℕ, true, List, Option};
ghost use Rattle.train_end.specs.declared.brake_line.BrakeLine.{BrakeLine};
ghost use Rattle.train_end.specs.Speed.{in_range};

use crate::brake_line::BrakeLine;

/// A train end of any make: it gives the speed and holds the brake line.
///
/// A speed is in whole km/h, 0 to 600, or unknown. An end of another make writes out its reading
/// and proves these clauses; then everything above it applies to it too.
pub trait TrainEnd {
    /// What speed a block of bytes means to this make. It depends on nothing but the block.
    ghost reading: { List ℕ → Option ℕ };

    /// The speed of an end, none where it is unknown.
    ghost speed_of: { Self → Option ℕ };

    /// The line that an end holds.
    ghost line_of: { Self → BrakeLine };

    /// Takes a block of bytes, of any length: the speed is then what this make reads in it, and
    /// unknown where it can read none. It refuses nothing, and the line stays.
    fn give_block(&mut self, block: &[u8])
        ensures speed { speed_of self.new ≡ reading block.now }
        ensures line { line_of self.new ≡ line_of self.old };

    /// Sets the brake line. It refuses nothing, and the speed stays.
    fn set_line(&mut self, line: BrakeLine)
        ensures line { line_of self.new ≡ line }
        ensures speed { speed_of self.new ≡ speed_of self.old };

    /// The speed in whole km/h, 0 to 600, or none where it is unknown. Speed and line stay.
    fn speed(&self) -> Option<u16>
        ensures { result ≡ speed_of self.now };

    /// What the brake line demands. Speed and line stay.
    fn line(&self) -> BrakeLine
        ensures { result ≡ line_of self.now };

    /// The speed of an end is always unknown or at most 600 km/h.
    ghost range: { (e : Self) → in_range (speed_of e) ≡ true };
}
