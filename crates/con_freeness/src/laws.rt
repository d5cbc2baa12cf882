//! What the definitions of admission promise, each as the contract of a call that does nothing.

ghost use Rattle.con_freeness.specs.Laws.{AdmitsWithoutObstacle, LeastSlotRefuses};

/// A row admits a patch exactly if no effect of it speaks against the patch.
pub fn rows_admit_without_obstacle()
    ensures { AdmitsWithoutObstacle }
{}

/// A patch is admitted if each row in force admits it; else the refusal is that of the least slot whose row doesn't.
pub fn least_slot_refuses()
    ensures { LeastSlotRefuses }
{}
