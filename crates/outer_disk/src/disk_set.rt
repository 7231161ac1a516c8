ghost use Rattle.std.specs.Prelude.{◌≡◌, ℕ, ◌<◌, Option, None, Some, IsNone, IsSome, OnOk, OnErr};
ghost use Rattle.outer_disk.specs.Disk.{Matched};
ghost use Rattle.outer_disk.specs.DiskSet.{AllStay, OthersStay, Crashes};

use crate::disk::Disk;
use outer_io::Word;
use std::alloc::AllocError;

/// How many places a set has.
pub(crate) const PLACES: usize = 16;

/// The disks of the data servers, in 16 places. A disk is moved out of its place and put back.
pub trait DiskSet {
    type D: Disk;

    /// What stands in each place.
    ghost places: { Self → ℕ → Option Self.D };

    /// Tells the set the names of the data servers. It changes no disk.
    fn names(&mut self, names: &[Word]) -> Result<(), AllocError>
        ensures { AllStay (places self.old) (places self.new) };

    /// Moves the disk of a server out of the set.
    fn take(&mut self, server: u8) -> Self::D
        requires within { server < 16 }
        requires there { IsSome (places self.old server) }
        ensures disk { places self.old server ≡ Some result }
        ensures taken { places self.new server ≡ None }
        ensures others { OthersStay server (places self.old) (places self.new) };

    /// Puts a disk back into its place.
    fn give(&mut self, server: u8, disk: Self::D)
        requires within { server < 16 }
        requires free { IsNone (places self.old server) }
        ensures there { places self.new server ≡ Some disk }
        ensures others { OthersStay server (places self.old) (places self.new) };

    /// Lets the disk of a server crash. Where it tells, it then has bytes that a crash might leave, picked by a
    /// number, and all of them are on the disk. After an `Err` all is as it was.
    fn crash(&mut self, server: u8, pick: u64) -> Result<(), AllocError>
        requires within { server < 16 }
        requires there { IsSome (places self.old server) }
        ensures ok { OnOk result (Matched (Crashes Self.D.told Self.D.may_leave Self.D.counts)
            (places self.old server) (places self.new server)) }
        ensures others { OthersStay server (places self.old) (places self.new) }
        ensures err { OnErr result (AllStay (places self.old) (places self.new)) };
}
