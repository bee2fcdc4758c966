//! The disk below a journal, as a trait: what a read returns, what a crash at this moment may leave, and a clock of
//! moments. `Memory` is such a disk for tests, with the images that a crash may leave of it.
#![tactic(auto)]

mod call;
mod change;
mod device;
mod memory;
mod record;

pub use call::Call;
pub use device::{Device, DeviceError};
pub use memory::{Limits, Memory};
pub use record::Record;
