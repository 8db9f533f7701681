// The theorems on operations of single letters, for letters of any type. Each is the contract of a function that does nothing:
// without its proof the crate is refused.
ghost use Rattle.std.specs.Prelude.{map};
ghost use Rattle.operation.specs.Edits.{rename};
ghost use Rattle.operation.specs.Laws.{singles, Laws, Tp1Through, Renames};

// All that theorems over whole runs need to know of operations.
fn laws_hold<L>()
    ensures { Laws (singles L) }
{}

// Either may go first also of one operation and a list.
fn tp1_holds_through_lists<L>()
    ensures { Tp1Through (singles L) }
{}

// Mapping the letters changes nothing but the letters.
fn renaming_commutes<L, N>()
    ensures { (f : L → N) → Renames (singles L) (singles N) f (rename f) (map f) }
{}
