//! A file in memory.
use crate::lists::{Bytes, Items, Name};

/// A name and the bytes that stand under it.
pub struct FileText {
    pub name: Name,
    pub bytes: Bytes,
}

impl Drop for FileText {
    fn drop(self) {
        let FileText { name: _, bytes: _ } = self;
    }
}

/// A list of files.
pub type Files = Items<FileText>;
