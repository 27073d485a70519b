//! Files of the peers, of two blocks.

ghost use Rattle.std.specs.Prelude.{◌≡◌, sum};
ghost use Rattle.shm_pools.specs.Files.{pen_sizes};

use crate::trouble::Trouble;
use shm_pools::{FileEyes, FilePen};
use side_model::ProxyFault;
use std::alloc::{AllocError, Global};

/// A file of 128 bytes.
#[derive(Drop)]
pub struct Image {
    pen: FilePen,
    ghost words: { sum (pen_sizes pen.segments) ≡ 16 },
}

impl Image {
    /// A file of zeros with this number.
    pub fn new(alloc: Global, number: i32) -> Result<Image, AllocError> {
        let pen = FilePen::new(alloc, number, 128)?;
        Ok(Image { pen })
    }

    /// All its words get a value, one after another.
    pub fn fill(&mut self, value: u64) -> Result<(), Trouble> {
        for word in 0..16 {
            if self.pen.write(word, value).is_err() {
                return Err(Trouble::Fault(ProxyFault::Memory));
            }
        }
        Ok(())
    }

    /// An eye on it.
    pub fn share(&mut self) -> Result<FileEyes, AllocError> {
        self.pen.share()
    }
}

/// The application's file, with the number 1, and the compositor's, with the number -1.
#[derive(Drop)]
pub struct Images {
    pub near: Image,
    pub far: Image,
}

impl Images {
    /// Files of zeros.
    pub fn new(alloc: Global) -> Result<Images, AllocError> {
        let near = Image::new(alloc, 1)?;
        let far = Image::new(alloc, -1)?;
        Ok(Images { near, far })
    }

    /// All words of both files get a value.
    pub fn fill(&mut self, value: u64) -> Result<(), Trouble> {
        self.near.fill(value)?;
        self.far.fill(value)
    }
}
