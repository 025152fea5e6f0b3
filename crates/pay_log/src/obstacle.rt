use std::fmt;
use std::fs::FileType;
use std::os::unix::fs::FileTypeExt;

/// A file of a member's log, by its name in the member's folder.
#[derive(Clone, Copy, Debug, PartialEq, Eq)]
pub enum LogPart {
    /// The log itself.
    Log,
    /// A log that isn't complete yet.
    NewLog,
    /// Bytes that were found after the last record blocks of logs.
    Dropped,
    /// The size of the log when its node ended cleanly.
    Ended,
    /// The file of that size, while it is written.
    NewEnded,
}

/// What a folder may have at a name that should belong to a file.
#[derive(Clone, Copy, Debug, PartialEq, Eq)]
pub enum Obstacle {
    /// A symbolic link, wherever it leads.
    Link,
    /// A folder.
    Folder,
    /// A Unix socket.
    Socket,
    /// A named pipe.
    Pipe,
    /// A device.
    Device,
}

impl LogPart {
    ghost use Rattle.std.specs.Prelude.{◌≡◌};
    ghost use Rattle.pay_log.specs.Faults.{part_name};

    /// Returns the part's name in the folder.
    pub const fn name(self) -> &'static str
        ensures value { result.now ≡ part_name self }
    {
        match self {
            LogPart::Log => "log",
            LogPart::NewLog => "log.new",
            LogPart::Dropped => "log.dropped",
            LogPart::Ended => "ended",
            LogPart::NewEnded => "ended.new",
        }
    }
}

impl Obstacle {
    ghost use Rattle.std.specs.Prelude.{◌≡◌, ◌↔◌, IsNone, Some};
    ghost use Rattle.std.specs.Fs.{IsDir, IsFile, IsSymlink};
    ghost use Rattle.pay_log.specs.Faults.{obstacle_name};

    /// Returns what `found` is, if it is no file. No clause distinguishes a socket, a pipe and a
    /// device.
    pub fn of(found: FileType) -> Option<Obstacle>
        ensures file { IsNone result ↔ IsFile found }
        ensures link { (result ≡ Some Obstacle.Link) ↔ IsSymlink found }
        ensures folder { (result ≡ Some Obstacle.Folder) ↔ IsDir found }
    {
        if found.is_file() {
            None
        } else if found.is_symlink() {
            Some(Obstacle::Link)
        } else if found.is_dir() {
            Some(Obstacle::Folder)
        } else if found.is_socket() {
            Some(Obstacle::Socket)
        } else if found.is_fifo() {
            Some(Obstacle::Pipe)
        } else {
            Some(Obstacle::Device)
        }
    }

    /// Returns the obstacle's name, as one word.
    pub const fn name(self) -> &'static str
        ensures value { result.now ≡ obstacle_name self }
    {
        match self {
            Obstacle::Link => "link",
            Obstacle::Folder => "folder",
            Obstacle::Socket => "socket",
            Obstacle::Pipe => "pipe",
            Obstacle::Device => "device",
        }
    }
}

impl fmt::Display for LogPart {
    ghost use Rattle.std.specs.Prelude.{Some};
    ghost use Rattle.pay_log.specs.Faults.{part_name};

    ghost output = { λ part. Some (part_name part) };

    fn fmt<W: fmt::Write>(&self, f: &mut fmt::Formatter<W>) -> fmt::Result {
        f.write_str(self.name())
    }
}

impl fmt::Display for Obstacle {
    ghost use Rattle.std.specs.Prelude.{Some};
    ghost use Rattle.pay_log.specs.Faults.{obstacle_name};

    ghost output = { λ obstacle. Some (obstacle_name obstacle) };

    fn fmt<W: fmt::Write>(&self, f: &mut fmt::Formatter<W>) -> fmt::Result {
        f.write_str(self.name())
    }
}
