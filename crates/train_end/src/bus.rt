ghost use Rattle.std.specs.Prelude.{◌≡◌, true, [], ◌∷◌, None};
ghost use Rattle.train_end.specs.declared.brake_line.BrakeLine.TheVariants.{Emergency};
ghost use Rattle.train_end.specs.Bus.{bus_reading, BusEdges, EverySpeedHasABlock};
ghost use Rattle.train_end.specs.Speed.{in_range, RangeEdges};

use crate::brake_line::BrakeLine;
use crate::end::TrainEnd;

/// The end fed by the vehicle bus, in blocks of 2 bytes.
#[derive(Drop)]
pub struct BusEnd {
    speed: Option<u16>,
    line: BrakeLine,
    ghost range: { in_range speed ≡ true },
}

// The speed in the three fields of a block of two bytes.
fn fields(high: u8, low: u8) -> Option<u16>
    ensures { result ≡ bus_reading (high ∷ low ∷ []) }
{
    let valid = high / 128;
    let filler = high / 4 % 32;
    let speed = u16::from_be_bytes([high % 4, low]);
    (valid == 1 && filler == 0 && speed <= 600).then_some(speed)
}

impl BusEnd {
    /// A new end: its speed is unknown, and its line is at emergency.
    pub fn new() -> BusEnd
        ensures speed { result.speed ≡ None }
        ensures line { result.line ≡ Emergency }
    {
        BusEnd {
            speed: None,
            line: BrakeLine::Emergency,
        }
    }

    /// The speed in km/h, 0 to 600, that a block means to a bus end, or none for unknown.
    ///
    /// The block is 2 bytes: a valid bit that is set, 5 filler bits that are clear, and 10 bits of
    /// speed. Where it is anything else, or the speed is above 600, the answer is none.
    #[tactic(auto, using(crate::proofs::Blocks::every_speed_has_a_block))]
    pub fn read(block: &[u8]) -> Option<u16>
        ensures value { result ≡ bus_reading block.now }
        ensures edges { BusEdges }
        ensures range { RangeEdges }
        ensures reaches { EverySpeedHasABlock }
    {
        match block {
            [high, low] => fields(*high, *low),
            _ => None,
        }
    }
}

impl TrainEnd for BusEnd {
    ghost reading = { bus_reading };

    ghost speed_of = { λ e. e.speed };

    ghost line_of = { λ e. e.line };

    ghost range = { λ e. e.range };

    fn give_block(&mut self, block: &[u8]) {
        self.speed = BusEnd::read(block);
    }

    fn set_line(&mut self, line: BrakeLine) {
        self.line = line;
    }

    fn speed(&self) -> Option<u16> {
        self.speed
    }

    fn line(&self) -> BrakeLine {
        self.line
    }
}
