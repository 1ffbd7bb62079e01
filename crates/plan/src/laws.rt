ghost use Rattle.plan.specs.Laws.{OneCallEach, SameButBlocks};

/// Laws of the definitions: as many rows tell of a call as there are calls (`one_call_each`), and
/// what one list asks of the two cabs is the same but for the blocks of cycles (`same_but_blocks`).
/// A call of it does nothing.
#[tactic(auto, using(crate::proofs::Lines::one_call_each, crate::proofs::Lines::same_but_blocks))]
pub fn plans_stand()
    ensures one_call_each { OneCallEach }
    ensures same_but_blocks { SameButBlocks }
{}
