//! Disks as the program sees them. A disk says what a read gives, where it tells, what a crash may leave, and
//! what one at any moment might have left. Over memory all is told; over files nothing is told of content.
#![tactic(auto)]

mod disk;
mod disk_call;
mod disk_faults;
mod disk_set;
mod file_disk;
mod file_disks;
mod halt;
mod image;
mod laws;
mod mem_disk;
mod mem_disks;
mod piece;
#[cfg(test)]
mod tests;

pub use disk::Disk;
pub use disk_set::DiskSet;
pub use file_disk::FileDisk;
pub use file_disks::FileDisks;
pub use laws::a_stop_lasts;
pub use mem_disk::MemDisk;
pub use mem_disks::MemDisks;
