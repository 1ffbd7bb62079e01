ghost use Rattle.std.specs.Prelude.{◌≡◌, true, false, None};
ghost use Rattle.train_end.specs.declared.brake_line.BrakeLine.TheVariants.{Emergency};
ghost use Rattle.train_end.specs.Line.{relay_line, FailsSafe};
ghost use Rattle.train_end.specs.Pulse.{pulse_counts, larger_count, count_speed, pulse_reading, PulseEdges, AxlesAlike, KnownTo555, NeverFalls, RoundedUp};
ghost use Rattle.train_end.specs.Speed.{in_range};

use crate::brake_line::BrakeLine;
use crate::end::TrainEnd;

/// The end fed by wheel pulses, in blocks of 4 bytes. Two relays hold its brake line.
#[derive(Drop)]
pub struct PulseEnd {
    speed: Option<u16>,
    first_relay: bool,
    second_relay: bool,
    ghost range: { in_range speed ≡ true },
    // The first is on only with the second: at emergency both are off.
    ghost rests: { first_relay ≡ true → second_relay ≡ true },
}

// The counts of the two axles in a block of four bytes, high byte first.
fn counts(block: &[u8]) -> Option<(u16, u16)>
    ensures { result ≡ pulse_counts block.now }
{
    let [a, b, c, d] = block else {
        return None;
    };
    Some((u16::from_be_bytes([*a, *b]), u16::from_be_bytes([*c, *d])))
}

// The larger of two counts that differ by at most 3.
fn larger(pair: (u16, u16)) -> Option<u16>
    ensures { result ≡ larger_count pair }
{
    let (one, other) = pair;
    (one.abs_diff(other) <= 3).then_some(one.max(other))
}

// 27 × p / 25 rounded up, known for p up to 555.
fn speed_of(p: u16) -> Option<u16>
    ensures { result ≡ count_speed p }
{
    (p <= 555).then(|| (27 * p).div_ceil(25))
}

// The line that two relays hold, each on or off: also where the first is on and the second off, in
// which position no end leaves them.
fn held(first_relay: bool, second_relay: bool) -> BrakeLine
    ensures { result ≡ relay_line first_relay second_relay }
{
    match (first_relay, second_relay) {
        (_, false) => BrakeLine::Emergency,
        (false, true) => BrakeLine::Service,
        (true, true) => BrakeLine::Released,
    }
}

impl PulseEnd {
    /// A new end: its speed is unknown, and its line is at emergency, with both relays off.
    #[tactic(auto, using(crate::proofs::Relays::fails_safe))]
    pub fn new() -> PulseEnd
        ensures speed { result.speed ≡ None }
        ensures line { relay_line result.first_relay result.second_relay ≡ Emergency }
        ensures off { (result.first_relay ≡ false) × (result.second_relay ≡ false) }
        ensures fails_safe { FailsSafe }
    {
        PulseEnd {
            speed: None,
            first_relay: false,
            second_relay: false,
        }
    }

    /// The speed in km/h, 0 to 600, that a block means to a pulse end, or none for unknown.
    ///
    /// The block is 4 bytes, a count of pulses for each of two axles. The larger count tells the
    /// speed: 27/25 of it, rounded up. The answer is none where the block has another length, where
    /// the counts differ by more than 3, or where the larger is above 555.
    #[tactic(auto, using(crate::proofs::Counts::axles_alike))]
    pub fn read(block: &[u8]) -> Option<u16>
        ensures value { result ≡ pulse_reading block.now }
        ensures edges { PulseEdges }
        ensures axles { AxlesAlike }
        ensures known { KnownTo555 }
        ensures rises { NeverFalls }
        ensures rounds { RoundedUp }
    {
        speed_of(larger(counts(block)?)?)
    }
}

impl TrainEnd for PulseEnd {
    ghost reading = { pulse_reading };

    ghost speed_of = { λ e. e.speed };

    ghost line_of = { λ e. relay_line e.first_relay e.second_relay };

    ghost range = { λ e. e.range };

    fn give_block(&mut self, block: &[u8]) {
        self.speed = PulseEnd::read(block);
    }

    fn set_line(&mut self, line: BrakeLine) {
        self.first_relay = line == BrakeLine::Released;
        self.second_relay = line != BrakeLine::Emergency;
    }

    fn speed(&self) -> Option<u16> {
        self.speed
    }

    fn line(&self) -> BrakeLine {
        held(self.first_relay, self.second_relay)
    }
}
