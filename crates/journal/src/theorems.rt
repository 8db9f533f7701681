// What lasts. It is the contract of a function that does nothing: without its proof the crate is refused.
ghost use Rattle.journal.specs.Durability.{Durable};
ghost use Rattle.journal.specs.Exactness.{Exact};

// What was committed is there after any crash, and all that is there was put in, in order, each once.
fn records_last()
    ensures { Durable }
{}

// A file opens if it is what a crash can leave of a journal, and no other does.
fn journals_open()
    ensures { Exact }
{}
