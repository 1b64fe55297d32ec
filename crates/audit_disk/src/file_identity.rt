use std::fs::Metadata;
use std::os::unix::fs::{FileTypeExt, MetadataExt};

/// The identity of an open file. Two opens have the same identity if they are of the same file or block device.
#[derive(Clone, Copy, Debug, PartialEq, Eq)]
pub enum FileIdentity {
    /// A file: the numbers of its file system and of its inode there.
    File { device: u64, inode: u64 },
    /// A block device: its device number, whatever nodes lead to it.
    Block { number: u64 },
}

impl FileIdentity {
    /// The identity of the file with these metadata.
    pub fn of(metadata: &Metadata) -> FileIdentity {
        if metadata.file_type().is_block_device() {
            return FileIdentity::Block {
                number: metadata.rdev(),
            };
        }
        FileIdentity::File {
            device: metadata.dev(),
            inode: metadata.ino(),
        }
    }
}
