// What the definitions say. A caller learns the laws at no cost.
ghost use Rattle.lx_cap_tables.specs.Laws.{HolderLaws, WorkedBounds};

/// What holders have, in the words of those who keep and own.
pub fn holder_laws()
    ensures { HolderLaws }
{}

/// Worked rows of what a strip and the end of loans look at.
pub fn worked_bounds()
    ensures { WorkedBounds }
{}
