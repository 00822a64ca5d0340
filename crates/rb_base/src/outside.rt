//! The outside of the program, as traits. Each keeps a count of its faults and may tell what it holds.
ghost use Rattle.std.specs.Prelude.{◌≡◌, ◌≢◌, ℕ, ◌<◌, ◌≤◌, List, Option, Bool, length, take, IfOk, OnOk, OnErr, IsTrue, IsErrOf};
ghost use Rattle.rb_base.specs.Outside.{Rose, Reads, with_more, IsLoaded, SameCounts, NoCountFell};

use std::alloc::{AllocError, AllocFailed, Global};

/// A call on the outside failed.
#[derive(Clone, Copy, Debug, PartialEq, Eq)]
pub struct Failed;

/// Why a file wasn't read: the call failed, or memory ran out.
#[derive(Clone, Copy, Debug, PartialEq, Eq)]
pub enum FileError {
    Failed,
    NoMemory,
}

impl From<AllocError> for FileError {
    ghost use Rattle.std.specs.Prelude.{◌≡◌};
    ghost use Rattle.rb_base.specs.declared.outside.FileError.TheVariants.{NoMemory};

    ghost from_gives = { λ _ e. e ≡ NoMemory };

    fn from(_error: AllocError) -> FileError {
        FileError::NoMemory
    }
}

impl<T: Drop> From<AllocFailed<T>> for FileError {
    ghost use Rattle.std.specs.Prelude.{◌≡◌};
    ghost use Rattle.rb_base.specs.declared.outside.FileError.TheVariants.{NoMemory};

    ghost from_gives = { λ _ e. e ≡ NoMemory };

    fn from(_error: AllocFailed<T>) -> FileError {
        FileError::NoMemory
    }
}

/// Where bytes come from, as standard input.
pub trait Source {
    /// How many calls have failed, up to 2^64 - 1, where the count stays.
    ghost faults: { Self → ℕ };

    /// What is left to read, where the source tells.
    ghost left: { Self → Option (List ℕ) };

    /// Places bytes at the front of `buf`, and answers how many: 0 only at the end of the input.
    fn read(&mut self, buf: &mut [u8]) -> Result<usize, Failed>
        requires { 0 < length buf.old }
        ensures placed { IfOk result (λ n. Reads n buf.old buf.new (left self.old) (left self.new)) }
        ensures counted { OnOk result (faults self.new ≡ faults self.old) }
        ensures failed { OnErr result (Rose (faults self.old) (faults self.new)) }
        ensures kept { OnErr result (left self.new ≡ left self.old) };
}

/// Where bytes go, as standard output.
pub trait Sink {
    /// How many calls have failed, up to 2^64 - 1, where the count stays.
    ghost faults: { Self → ℕ };

    /// What was taken so far, where the sink tells.
    ghost taken: { Self → Option (List ℕ) };

    /// Takes bytes from the front of `piece`, at least one, and answers how many.
    fn write(&mut self, piece: &[u8]) -> Result<usize, Failed>
        requires { 0 < length piece.now }
        ensures some { IfOk result (λ n. (0 < n) × (n ≤ length piece.now)) }
        ensures took { IfOk result (λ n. taken self.new ≡ with_more (taken self.old) (take n piece.now)) }
        ensures counted { OnOk result (faults self.new ≡ faults self.old) }
        ensures failed { OnErr result (Rose (faults self.old) (faults self.new)) }
        ensures kept { OnErr result (taken self.new ≡ taken self.old) };

    /// Sends on what was taken and is still held here. A sink that holds nothing back has nothing to do.
    ///
    /// `Failed` where a call failed: what didn't go on is still held.
    fn flush(&mut self) -> Result<(), Failed>
        ensures told { taken self.new ≡ taken self.old }
        ensures counted { OnOk result (faults self.new ≡ faults self.old) }
        ensures failed { OnErr result (Rose (faults self.old) (faults self.new)) }
    {
        Ok(())
    }
}

/// Files by name.
pub trait Files {
    /// How many loads of a file have failed, and how many stores, up to 2^64 - 1, where the count stays.
    /// A failed call may raise the counts of other names, too.
    ghost load_faults: { Self → List ℕ → ℕ };

    ghost store_faults: { Self → List ℕ → ℕ };

    /// Whether the files tell what they hold, and what the file of a name holds, if there is one.
    ghost tells: { Self → Bool };

    ghost file: { Self → List ℕ → Option (List ℕ) };

    /// The first `limit` bytes of the file, or all where it is shorter. A missing file is `Failed`.
    fn load(&mut self, alloc: Global, name: &str, limit: usize) -> Result<Vec<u8>, FileError>
        ensures loaded { IfOk result (λ bytes. IsTrue (tells self.old)
            → IsLoaded (file self.old name.now) limit bytes.items) }
        ensures failed { IsErrOf result FileError.Failed
            → Rose (load_faults self.old name.now) (load_faults self.new name.now) }
        ensures never_falls { NoCountFell (load_faults self.old) (load_faults self.new)
            × NoCountFell (store_faults self.old) (store_faults self.new) }
        ensures counted { result ≢ Err FileError.Failed → SameCounts (load_faults self.old) (load_faults self.new)
            × SameCounts (store_faults self.old) (store_faults self.new) }
        ensures tells { tells self.new ≡ tells self.old }
        ensures kept { (other : List ℕ) → file self.new other ≡ file self.old other };

    /// Replaces the file. After `Failed` what it holds is unknown, and every other file is as before.
    fn store(&mut self, name: &str, bytes: &[u8]) -> Result<(), Failed>
        ensures stored { OnOk result (IsTrue (tells self.old) → file self.new name.now ≡ Some bytes.now) }
        ensures failed { OnErr result (Rose (store_faults self.old name.now) (store_faults self.new name.now)) }
        ensures never_falls { NoCountFell (load_faults self.old) (load_faults self.new)
            × NoCountFell (store_faults self.old) (store_faults self.new) }
        ensures counted { OnOk result (SameCounts (load_faults self.old) (load_faults self.new)
            × SameCounts (store_faults self.old) (store_faults self.new)) }
        ensures tells { tells self.new ≡ tells self.old }
        ensures kept { (other : List ℕ) → other ≢ name.now → file self.new other ≡ file self.old other };
}
