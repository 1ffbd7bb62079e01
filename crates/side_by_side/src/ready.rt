ghost use Rattle.std.specs.Prelude.{◌≡◌, true, vec_items};
ghost use Rattle.bench.specs.View.{has_room};

use bench::Ready;
use plan::Plans;

/// Both cabs before their runs: what is asked of them, their ends, and places enough for all
/// answers and speeds.
pub struct ReadyCabs<'p, 'a, E, F> {
    pub(crate) plans: &'p Plans<'a>,
    pub(crate) bus: Ready<'p, 'a, E>,
    pub(crate) pulse: Ready<'p, 'a, F>,
    ghost bus_room: { has_room bus ≡ true },
    ghost pulse_room: { has_room pulse ≡ true },
    ghost bus_calls: { bus.calls.now ≡ vec_items plans.now.bus.calls },
    ghost pulse_calls: { pulse.calls.now ≡ vec_items plans.now.pulse.calls },
}
