// A stand-in for the system. It lets all calls pass, or those that change something in one order alone.
ghost use Rattle.std.specs.Prelude.{◌≤◌};

use std::alloc::{AllocError, Allocator, Global};
use std::fs::{FileTimes, Metadata, OpenFile, OpenOptions, Permissions};
use std::io;
use std::io::{ErrorKind, Read, Seek, SeekFrom, Write};
use std::os::unix::fs::FileExt;
use std::rt::Files;
use std::sync::Arc;
use std::sync::atomic::{AtomicBool, AtomicUsize, Ordering};

/// A call that changes something, or hands it to the disk. To open a file is one where it is opened to be written.
#[derive(Clone, Copy, PartialEq, Eq)]
pub enum Call {
    Open,
    Write,
    Cut,
    Sync,
    Rename,
    Remove,
    Folder,
    Stamp,
}

/// A call that is wanted, and the name that it is for.
#[derive(Drop)]
pub struct Wanted {
    call: Call,
    name: String,
}

/// What the system does: whether calls that change something pass in one order alone, which that is, and which of them
/// is to fail.
#[derive(Drop)]
pub struct Plan {
    wanted: Vec<Wanted>,
    is_ordered: bool,
    pub failing: Option<usize>,
    /// at most three bytes are read or written at a time, and each second reading is interrupted
    pub short: bool,
}

impl Plan {
    /// All calls pass.
    pub fn all_pass(alloc: Global) -> Plan {
        Plan {
            wanted: Vec::new(alloc),
            is_ordered: false,
            failing: None,
            short: false,
        }
    }

    /// The next call that passes, and no others do.
    pub fn want(&mut self, alloc: Global, call: Call, name: &str) -> Result<(), AllocError> {
        let name = String::from_str(alloc, name)?;
        self.is_ordered = true;
        self.wanted.push(Wanted { call, name })?;
        Ok(())
    }
}

pub fn call_of(word: &str) -> Option<Call> {
    match word {
        "open" => Some(Call::Open),
        "write" => Some(Call::Write),
        "cut" => Some(Call::Cut),
        "sync" => Some(Call::Sync),
        "rename" => Some(Call::Rename),
        "remove" => Some(Call::Remove),
        "folder" => Some(Call::Folder),
        "stamp" => Some(Call::Stamp),
        _ => None,
    }
}

/// A DIR whose own times are told without parts of a second, and do not change.
pub const UNSTAMPED: &str = "./.";

/// A DIR whose own times are told without parts of a second, though they are kept.
pub const WHOLE_SECONDS: &str = ".";

/// Memory is refused where this file is opened, by the program's own allocator.
pub const NO_MEMORY: &str = "no-memory";

/// The system has no memory to open this file.
pub const SYSTEM_HAS_NO_MEMORY: &str = "system-has-no-memory";

const ENOMEM: i32 = 12;

// Ends the name of a file that is removed just before it is looked at.
const VANISHES: &str = "/vanishes";

// Ends the name of a file that is listed, and is never there.
const STUCK: &str = "/stuck";

// Ends the name of a folder that is gone once it is entered.
const GONE: &str = "/gone/";

// Ends the name of a folder that may not be entered.
const CLOSED: &str = "/closed/";

/// A DIR in whose place another folder is once anything was gone.
pub const SWAPPED: &str = "swapped";

#[derive(Drop)]
struct Watch {
    plan: Plan,
    made: AtomicUsize,
    is_ready: AtomicBool,
    // whether anything was gone
    has_vanished: AtomicBool,
}

impl Watch {
    fn made(&self) -> usize {
        self.made.load(Ordering::SeqCst)
    }

    // One more call. After one that was to fail, a draft may still be removed, and nothing else is done.
    fn take(&self, call: Call, name: &str) -> io::Result<()> {
        if !self.plan.is_ordered {
            return Ok(());
        }
        let made = self.made();
        let has_failed = matches!(self.plan.failing, Some(failing) if failing < made);
        if has_failed && call == Call::Remove {
            return Ok(());
        }
        self.made.store(made.saturating_add(1), Ordering::SeqCst);
        let is_wanted =
            matches!(self.plan.wanted.get(made), Some(next) if next.call == call && next.name.as_str() == name);
        if is_wanted && self.plan.failing != Some(made) {
            return Ok(());
        }
        Err(io::Error::from(ErrorKind::StorageFull))
    }

    // Whether a reading may go on now. Of two in a row, one may.
    fn may_read(&self) -> bool {
        let is_ready = self.is_ready.load(Ordering::SeqCst);
        self.is_ready.store(!is_ready, Ordering::SeqCst);
        is_ready || !self.plan.short
    }

    // Something is gone.
    fn vanish(&self) -> io::Error {
        self.has_vanished.store(true, Ordering::SeqCst);
        io::Error::from(ErrorKind::NotFound)
    }

    // How many of these bytes are moved at once.
    fn most(&self, length: usize) -> usize
        ensures { result ≤ length }
    {
        if self.plan.short {
            length.min(3)
        } else {
            length
        }
    }
}

#[derive(Clone, Drop)]
pub struct System<R> {
    rt: R,
    watch: Arc<Watch, Global>,
}

#[derive(Drop)]
pub struct SystemFile<F> {
    file: F,
    name: String,
    watch: Arc<Watch, Global>,
}

/// The stand-in over the real system.
pub type Host = System<HostRuntime>;

impl<R: AllocGlobal + Drop> System<R> {
    pub fn new(rt: R, plan: Plan) -> io::Result<System<R>> {
        let watch = Watch {
            plan,
            made: AtomicUsize::new(0),
            is_ready: AtomicBool::new(false),
            has_vanished: AtomicBool::new(false),
        };
        let watch = Arc::new(rt.alloc(), watch)?;
        Ok(System { rt, watch })
    }

    /// How many calls were taken that change something, one that failed too.
    pub fn made(&self) -> usize {
        self.watch.made()
    }

    /// Whether the last call that was taken is the one that was to fail.
    pub fn is_stopped(&self) -> bool {
        matches!(self.watch.plan.failing, Some(failing) if self.made() == failing.saturating_add(1))
    }
}

// The top of all folders, and a file in it, stand in the test's own folder.
fn inside(path: &str) -> &str {
    match path {
        "/" => ".",
        "/p" => "p",
        _ => path,
    }
}

impl<R: AllocGlobal> Alloc for System<R> {
    type A = Global;

    fn alloc(&self) -> Global {
        self.rt.alloc()
    }
}

impl<R: Files + AllocGlobal> Files for System<R> {
    type File = SystemFile<R::File>;

    type Dir = R::Dir;

    fn open_file(&self, how: &OpenOptions, path: &str) -> io::Result<Self::File> {
        match path {
            NO_MEMORY => return Err(io::Error::from(ErrorKind::OutOfMemory)),
            SYSTEM_HAS_NO_MEMORY => return Err(io::Error::from_raw_os_error(ENOMEM)),
            _ => {}
        }
        if how.asks_write() {
            self.watch.take(Call::Open, path)?;
        }
        Ok(SystemFile {
            file: self.rt.open_file(how, inside(path))?,
            name: String::from_str(self.rt.alloc(), path)?,
            watch: Arc::try_clone(&self.watch)?,
        })
    }

    fn open_dir(&self, path: &str) -> io::Result<Self::Dir> {
        if path.ends_with(GONE) {
            return Err(self.watch.vanish());
        }
        if path.ends_with(CLOSED) {
            return Err(io::Error::from(ErrorKind::PermissionDenied));
        }
        self.rt.open_dir(path)
    }

    fn metadata(&self, path: &str) -> io::Result<Metadata> {
        if path == UNSTAMPED || path == WHOLE_SECONDS {
            return Ok(Metadata::of_dir());
        }
        if path == SWAPPED && self.watch.has_vanished.load(Ordering::SeqCst) {
            return self.rt.metadata(WHOLE_SECONDS);
        }
        self.rt.metadata(inside(path))
    }

    fn symlink_metadata(&self, path: &str) -> io::Result<Metadata> {
        if path.ends_with(VANISHES) {
            let _ = self.rt.remove_file(path);
            return Err(self.watch.vanish());
        }
        if path.ends_with(STUCK) {
            return Err(self.watch.vanish());
        }
        self.rt.symlink_metadata(inside(path))
    }

    fn copy(&self, _from: &str, _to: &str) -> io::Result<u64> {
        Err(io::Error::from(ErrorKind::Unsupported))
    }

    fn rename(&self, from: &str, to: &str) -> io::Result<()> {
        self.watch.take(Call::Rename, from)?;
        self.rt.rename(from, to)
    }

    fn remove_file(&self, path: &str) -> io::Result<()> {
        self.watch.take(Call::Remove, path)?;
        self.rt.remove_file(path)
    }

    fn create_dir(&self, path: &str) -> io::Result<()> {
        self.watch.take(Call::Folder, path)?;
        self.rt.create_dir(path)
    }

    fn create_dir_with_mode(&self, path: &str, mode: u32) -> io::Result<()> {
        self.watch.take(Call::Folder, path)?;
        self.rt.create_dir_with_mode(path, mode)
    }

    fn remove_dir(&self, _path: &str) -> io::Result<()> {
        Err(io::Error::from(ErrorKind::Unsupported))
    }

    fn remove_dir_all<B: Allocator>(&self, _alloc: B, _path: &str) -> io::Result<()> {
        Err(io::Error::from(ErrorKind::Unsupported))
    }
}

impl<F: Read> Read for SystemFile<F> {
    fn read(&mut self, buf: &mut [u8]) -> io::Result<usize> {
        self.file.read(buf)
    }
}

impl<F: Write> Write for SystemFile<F> {
    fn write(&mut self, buf: &[u8]) -> io::Result<usize> {
        self.watch.take(Call::Write, self.name.as_str())?;
        self.file.write(buf)
    }

    fn flush(&mut self) -> io::Result<()> {
        self.file.flush()
    }
}

impl<F: Seek> Seek for SystemFile<F> {
    fn seek(&mut self, to: SeekFrom) -> io::Result<u64> {
        self.file.seek(to)
    }
}

impl<F: OpenFile> OpenFile for SystemFile<F> {
    fn metadata(&self) -> io::Result<Metadata> {
        self.file.metadata()
    }

    fn set_len(&self, size: u64) -> io::Result<()> {
        self.watch.take(Call::Cut, self.name.as_str())?;
        self.file.set_len(size)
    }

    fn sync_all(&self) -> io::Result<()> {
        self.watch.take(Call::Sync, self.name.as_str())?;
        self.file.sync_all()
    }

    fn sync_data(&self) -> io::Result<()> {
        Err(io::Error::from(ErrorKind::Unsupported))
    }

    fn set_permissions(&self, permissions: Permissions) -> io::Result<()> {
        self.file.set_permissions(permissions)
    }

    fn set_times(&self, times: FileTimes) -> io::Result<()> {
        if self.name.as_str() == UNSTAMPED {
            return Ok(());
        }
        self.watch.take(Call::Stamp, self.name.as_str())?;
        self.file.set_times(times)
    }
}

impl<F: FileExt> FileExt for SystemFile<F> {
    fn read_at(&self, buf: &mut [u8], offset: u64) -> io::Result<usize> {
        if !self.watch.may_read() {
            return Err(io::Error::from(ErrorKind::Interrupted));
        }
        let most = self.watch.most(buf.len());
        self.file.read_at(&mut buf[..most], offset)
    }

    fn write_at(&self, buf: &[u8], offset: u64) -> io::Result<usize> {
        self.watch.take(Call::Write, self.name.as_str())?;
        let most = self.watch.most(buf.len());
        self.file.write_at(&buf[..most], offset)
    }
}
