// The worked cases hold. Without their proof the crate is refused.
ghost use Rattle.room.specs.Cases.{CasesHold};

fn cases_hold()
    ensures { CasesHold }
{}
