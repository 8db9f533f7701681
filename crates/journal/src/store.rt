// Where the journal's bytes are: a file that is read from its start, grows at its end, and keeps what is synced through a crash.
ghost use Rattle.std.specs.Prelude.{◌≡◌, ℕ, ◌<◌, ◌≤◌, ◌++◌, Bool, List, [], Option, length, take, min, IsTrue, IfSome, IfOk, IfErr, OnOk, OnErr};
ghost use Rattle.std.specs.declared.io.Error.{Error};
ghost use Rattle.journal.specs.Stores.{now_all};

use std::io;

// A call that fails changes nothing but what is said. What is written before it has been read to its end goes where it may.
pub trait Store {
    // What has been read of it, and what was put behind that.
    ghost bytes: { Self → List ℕ };

    // All that it holds, where that is known beforehand.
    ghost all: { Self → Option (List ℕ) };

    // Nothing is left to be read.
    ghost at_end: { Self → Bool };

    // How many of its bytes a crash leaves, whatever else it takes.
    ghost synced: { Self → ℕ };

    // What its calls can fail with.
    ghost fails_with: { Error → Type 0 };

    // It is read from its start again.
    fn rewind(&mut self) -> io::Result<()>
        ensures why { IfErr result (λ e. fails_with e) }
        ensures bytes { OnOk result (bytes self.new ≡ []) }
        ensures failed { OnErr result ((bytes self.new ≡ bytes self.old) × (at_end self.new ≡ at_end self.old)) }
        ensures all { all self.new ≡ all self.old }
        ensures synced { synced self.new ≡ synced self.old };

    // Reads what comes next, and says how many bytes that is: none only at the end.
    fn read(&mut self, part: &mut [u8]) -> io::Result<usize>
        ensures why { IfErr result (λ e. fails_with e) }
        ensures bound { IfOk result (λ n. n ≤ length part.new) }
        ensures bytes { IfOk result (λ n. bytes self.new ≡ bytes self.old ++ take n part.new) }
        ensures end { IfOk result (λ n. n ≡ 0 → 0 < length part.old → IsTrue (at_end self.new)) }
        ensures failed { OnErr result ((bytes self.new ≡ bytes self.old) × (at_end self.new ≡ at_end self.old)) }
        ensures all { all self.new ≡ all self.old }
        ensures synced { synced self.new ≡ synced self.old };

    // Puts bytes behind the others, or some first part of them.
    fn append(&mut self, part: &[u8]) -> io::Result<()>
        ensures why { IfErr result (λ e. fails_with e) }
        ensures bytes { OnOk result (IsTrue (at_end self.old) → bytes self.new ≡ bytes self.old ++ part.now) }
        ensures failed { OnErr result (IsTrue (at_end self.old) → (n : ℕ) × (bytes self.new ≡ bytes self.old ++ take n part.now)) }
        ensures all { IsTrue (at_end self.old) → all self.new ≡ now_all (bytes self.new) (all self.old) }
        ensures end { IsTrue (at_end self.old) → IsTrue (at_end self.new) }
        ensures synced { synced self.new ≡ synced self.old };

    // What it holds stays through a crash.
    fn sync(&mut self) -> io::Result<()>
        ensures why { IfErr result (λ e. fails_with e) }
        ensures bytes { bytes self.new ≡ bytes self.old }
        ensures all { all self.new ≡ all self.old }
        ensures end { at_end self.new ≡ at_end self.old }
        ensures synced { OnOk result (IsTrue (at_end self.old) → synced self.new ≡ length (bytes self.old)) }
        ensures failed { OnErr result (synced self.new ≡ synced self.old) };

    // Cuts it back to so many bytes.
    fn cut(&mut self, length: u64) -> io::Result<()>
        ensures why { IfErr result (λ e. fails_with e) }
        ensures bytes { OnOk result (IsTrue (at_end self.old) → bytes self.new ≡ take length (bytes self.old)) }
        ensures failed { OnErr result (bytes self.new ≡ bytes self.old) }
        ensures all { IsTrue (at_end self.old) → all self.new ≡ now_all (bytes self.new) (all self.old) }
        ensures end { IsTrue (at_end self.old) → IsTrue (at_end self.new) }
        ensures synced { OnOk result (synced self.new ≡ min length (synced self.old)) }
        ensures unsynced { OnErr result (synced self.new ≡ synced self.old) };

    // What is read is what it holds.
    ghost begins: { (store : Self) → IfSome (all store) (λ xs. bytes store ≡ take (length (bytes store)) xs) };

    ghost whole: { (store : Self) → IsTrue (at_end store) → IfSome (all store) (λ xs. bytes store ≡ xs) };
}
