ghost use Rattle.cab_unit.specs.Facts.{Facts};
ghost use Rattle.cab_unit.specs.Places.{ordered};
ghost use Rattle.cab_unit.specs.View.{bare};

use crate::cab::Cab;

mod calls;

/// The unit of one desk, on a train end of any make, which it owns until `switch_off` hands it
/// back. There is no other way to let a unit go.
///
/// `press`, `order`, `cycle` and `take` answer what the desk shows afterwards, the refusal in
/// `outcome`. A refused call leaves the unit and its end as they were. In System Failure each of
/// the four is refused with `InSystemFailure` (40), before all else.
pub struct Unit<E> {
    cab: Cab<E>,
    // They hold between calls; within a call a single move may break them.
    ghost facts: { ∥ Facts (bare cab.desk (ordered cab.waiting.items)) ∥₁ },
}

#[cfg(test)]
mod tests;
