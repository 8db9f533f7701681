// The theorems over whole runs, for letters of any type: of single letters, and of letters with the site that typed them, as the code has them.
// Each is the contract of a function that does nothing: without its proof the crate is refused.
ghost use Rattle.operation.specs.Laws.{singles};
ghost use Rattle.std.specs.Prelude.{ℕ};
ghost use Rattle.network.specs.Cyclic.{CyclicRun, NoOneLine};
ghost use Rattle.network.specs.OneRecord.{OneRecord, NeverRefused, UnbrokenRecord};
ghost use Rattle.network.specs.Written.{written};

// One record: convergence, that all can come to one text, any two letters in one order, each letter once, there until it is struck, never back.
fn one_record_holds<N>()
    ensures single { OneRecord (singles N) }
    ensures signed { OneRecord (written N) }
{}

// An honest client is never refused for a place or a revision.
fn nothing_honest_is_refused<N>()
    ensures single { NeverRefused (singles N) }
    ensures signed { NeverRefused (written N) }
{}

// Where no connection ends nothing is lost, and what has left a screen never comes back, with no exception.
fn nothing_is_lost_while_connected<N>()
    ensures single { UnbrokenRecord (singles N) }
    ensures signed { UnbrokenRecord (written N) }
{}

// Why no one order of all letters is promised: three letters on three screens can stand in a circle.
fn three_letters_can_stand_in_a_circle()
    ensures circle { CyclicRun (singles ℕ) }
    ensures no_line { NoOneLine (singles ℕ) }
{}
