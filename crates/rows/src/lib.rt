// Rows of 750 bytes: where they come from (sources) and where they go (carriers),
// in any form in which they lie in memory.
#![tactic(auto, using(crate::proofs::Counts::counts))]

mod carriers;
mod copying;
mod filling;
mod lines;
mod opening;
mod portal;
mod writing;

pub use carriers::{Carrier, Source};
pub use copying::copy_all;
pub use filling::write_all;
pub use opening::Opened;
pub use portal::PortalStop;
pub use writing::Written;
