//! What files tell at one moment, as the clauses of commands name it.
ghost use Rattle.file_maker.specs.Disk.{Disk};

use rb_base::Files;

/// Files that tell.
pub trait OfFiles {
    ghost told: { Self → Disk };
}

impl<F: Files> OfFiles for F {
    ghost told = { λ f. record {
      tells = F.tells f;
      file = F.file f;
      load_faults = F.load_faults f;
      store_faults = F.store_faults f;
    } };
}
