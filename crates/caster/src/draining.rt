// Offered steps, one after another, until nothing is offered.
ghost use Rattle.std.specs.Prelude.{◌≡◌, ◌+◌, ◌≤◌, true};
ghost use Rattle.caster.specs.Draining.{Chain};

use crate::interface::Caster;

/// Takes offered steps until the caster is quiet, and answers how many it took.
pub fn drain<C: Caster>(caster: &mut C) -> usize
    ensures taken { ∥ Chain C.Caster.stepped C.Caster.offered caster.old result caster.new ∥₁ }
    ensures quiet { (C.Caster.meaning caster.new).quiet ≡ true }
    ensures falling { result + (C.Caster.meaning caster.new).steps ≤ (C.Caster.meaning caster.old).steps }
    ensures lent { C.Caster.loan caster.old caster.new }
{
    // The count is the answer and no index, so the loop keeps it.
    let mut steps = 0;
    while let Some(event) = caster.offer() {
        let _ = caster.step(event);
        steps += 1;
    }
    steps
}
