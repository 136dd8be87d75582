//! Memory: the bytes of three regions, one each for globals, heap and stacks, and the blocks of the heap.
//!
//! ```text
//! let mut space = Space::new(alloc)?;
//! space.write(0x1000000, 4, 7)?;
//! let number = space.read(0x1000000, 4)?;
//! ```
#![tactic(auto)]

mod heap;
mod numbers;
mod range;
mod runs;
mod space;

pub use heap::{KHeap, NotLive};
pub use lx_caps::mapped;
pub use range::Unmapped;
pub use space::Space;
