//! What taking a message of the peer comes to, but for the copies of its blocks: what it does and says
//! of shared memory, the frames before its blocks, and which blocks of which file are to be filled.
#![tactic(auto)]

mod before;
mod deeds;
mod filling;
mod frame_row;
mod made;
mod planning;
mod shm;
mod told;

pub use before::is_new_pipe;
pub use deeds::deed_of;
pub use filling::FilledBlocks;
pub use frame_row::FrameRow;
pub use made::PassedHandle;
pub use planning::{Planned, plan};
pub use shm::Shm;
