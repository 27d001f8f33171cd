// What holds of truth, so that its definition can be seen to mean what it should.
ghost use Rattle.logic.specs.Laws.{Unfolding};

pub fn truth_unfolds()
    ensures { Unfolding }
{}
