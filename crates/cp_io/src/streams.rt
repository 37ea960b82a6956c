//! What the system tells: which regular file an open file is, and what the streams of the process were when it started.

ghost use Rattle.std.specs.Prelude.{◌≡◌};
ghost use Rattle.cp_io.specs.Streams.{same_node};

use std::fs::{File, Metadata, OpenOptions};
use std::os::fd::{AsRawFd, IntoRawFd};
use std::os::unix::fs::MetadataExt;
use std::{fs, io};

/// A regular file, by the numbers of its device and of its inode there. All names of one file have one node.
#[derive(Clone, Copy, Debug)]
pub(crate) struct Node {
    device: u64,
    inode: u64,
}

impl Node {
    /// Whether two nodes are those of one file.
    pub(crate) fn is(self, other: Node) -> bool
        ensures { result ≡ same_node self other }
    {
        self.device == other.device && self.inode == other.inode
    }
}

/// A stream of the process, as it was when the process started.
#[derive(Clone, Copy, Debug)]
pub(crate) enum Stream {
    /// It was closed, or the system doesn't tell where it leads.
    Closed,
    /// It was open. It leads to this file, if that is a regular one.
    Open(Option<Node>),
}

/// The node of an open file, if it is a regular one.
pub(crate) fn node_of(file: &File) -> io::Result<Option<Node>> {
    Ok(regular_node(&file.metadata()?))
}

fn regular_node(metadata: &Metadata) -> Option<Node> {
    metadata.is_file().then_some(Node {
        device: metadata.dev(),
        inode: metadata.ino(),
    })
}

/// Where the descriptor leads whose link this is, as `/proc/self/fd/1`.
pub(crate) fn stream_behind(rt: &HostRuntime, link: &str) -> Stream {
    match fs::metadata(rt, link) {
        Ok(metadata) => Stream::Open(regular_node(&metadata)),
        Err(_) => Stream::Closed,
    }
}

/// Puts the null device under each of the descriptors 0 to 2 that is closed, for good, so that no file gets one of them. An
/// opened file gets the least that is closed.
pub(crate) fn take_closed_streams(rt: &HostRuntime) {
    for _ in 0..3 {
        let opened = OpenOptions::new()
            .read(true)
            .write(true)
            .open(rt, "/dev/null");
        let Ok(null) = opened else { return };
        if null.as_raw_fd() > 2 {
            return;
        }
        let _ = null.into_raw_fd();
    }
}
