ghost use Rattle.std.specs.Prelude.{None};

use do_disk::{
    Depot, DepotFault, Disk, Failed, Fails, FileCalls, FileDisk, FolderDepot, FreeGate, MemDepot,
    MemDisk, MemSink, MemSource, Pick, Sink, Source, StdSink, StdSource, TurnGate, VoidSink,
};
use std::alloc::{Allocator, Global};
use std::fs::{File, Metadata, OpenOptions};
use std::io::{ErrorKind, Read, Write};
use std::process::Abort;
use std::rt::Files;
use std::test::Fail;
use std::{fs, io};

fn never(alloc: Global) -> Fails {
    Fails::Listed(Vec::new(alloc))
}

// Writes within the content.
fn put(rt: &impl Abort, disk: &mut MemDisk, at: u64, from: &[u8]) -> Result<(), Failed> {
    assert!(rt; at <= disk.content().len() as u64);
    disk.write_at(at, from)
}

// Two writes with a sync between, and a write past the end that fails.
fn written(rt: &impl Abort, alloc: Global) -> Result<MemDisk, Fail> {
    let fails = Fails::Listed([4].to_vec(alloc)?);
    let mut disk = MemDisk::new(b"01234567".to_vec(alloc)?, fails);
    put(rt, &mut disk, 0, b"abc")?;
    disk.sync()?;
    put(rt, &mut disk, 2, b"XY")?;
    assert!(rt; put(rt, &mut disk, 6, b"????").is_err());
    assert_eq!(rt; (disk.moment(), disk.faults(), disk.refused()), (4, 1, 0));
    Ok(disk)
}

#[test]
fn a_crash_leaves_what_is_picked(rt: HostRuntime) -> Result<(), Fail> {
    let alloc = rt.alloc();
    for (pick, left) in [
        (Pick::AsRead, b"abXY4567"),
        (Pick::AsSynced, b"abc34567"),
        (Pick::Torn(b'#'), b"ab##45##"),
    ] {
        let crashed = written(&rt, alloc)?.crash(pick)?;
        assert_eq!(rt; crashed.content(), left.as_slice(), "{pick:?}");
        assert_eq!(rt; (crashed.moment(), crashed.faults()), (0, 0));
    }
    Ok(())
}

#[test]
fn each_call_from_a_number_on_fails(rt: HostRuntime) -> Result<(), Fail> {
    let alloc = rt.alloc();
    let mut disk = MemDisk::new(b"old".to_vec(alloc)?, Fails::From(3));
    assert_eq!(rt; disk.length()?, 3);
    put(&rt, &mut disk, 3, b"new")?;
    assert!(rt; disk.sync().is_err());
    assert!(rt; disk.length().is_err());
    assert_eq!(rt; (disk.moment(), disk.faults()), (4, 2));
    assert_eq!(rt; disk.crash(Pick::AsSynced)?.content(), b"old".as_slice());
    Ok(())
}

#[test]
fn a_disk_reads_what_was_written(rt: HostRuntime) -> Result<(), Fail> {
    let alloc = rt.alloc();
    let mut disk = MemDisk::new(Vec::new(alloc), never(alloc));
    put(&rt, &mut disk, 0, b"hello")?;
    put(&rt, &mut disk, 5, b" disk")?;
    let mut middle = [0; 5];
    assert_eq!(rt; disk.content().len(), 10);
    disk.read_at(3, &mut middle)?;
    assert_eq!(rt; middle.as_slice(), b"lo di".as_slice());
    Ok(())
}

#[test]
fn a_source_gives_pieces_and_fails_in_mid_stream(rt: HostRuntime) -> Result<(), Fail> {
    let alloc = rt.alloc();
    let fails = Fails::Listed([2].to_vec(alloc)?);
    let mut source = MemSource::new(b"hello".to_vec(alloc)?, 2, fails);
    let mut buffer = [0; 4];
    for (n, bytes) in [
        (Ok(2), b"he"),
        (Err(Failed), b"he"),
        (Ok(2), b"ll"),
        (Ok(1), b"ol"),
        (Ok(0), b"ol"),
    ] {
        assert_eq!(rt; source.read(&mut buffer), n);
        assert_eq!(rt; &buffer[..2], bytes.as_slice());
    }
    Ok(())
}

#[test]
fn a_sink_takes_pieces_and_fails_in_mid_stream(rt: HostRuntime) -> Result<(), Fail> {
    let alloc = rt.alloc();
    let mut sink = MemSink::new(alloc, 3, Fails::From(3));
    assert_eq!(rt; sink.write(b"hello"), Ok(3));
    assert_eq!(rt; sink.write(b"lo"), Ok(2));
    assert_eq!(rt; sink.write(b"!"), Err(Failed));
    assert_eq!(rt; sink.taken(), b"hello".as_slice());
    assert_eq!(rt; sink.refused(), 0);
    assert_eq!(rt; VoidSink.write(b"hello"), Ok(5));
    Ok(())
}

#[test]
fn a_depot_hands_each_disk_out_once(rt: HostRuntime) -> Result<(), Fail> {
    let alloc = rt.alloc();
    let texts = vec![in alloc; (String::from_str(alloc, "s")?, b"text".to_vec(alloc)?)]?;
    let disks = vec![in alloc; MemDisk::new(b"disk".to_vec(alloc)?, Fails::From(1))]?;
    let mut depot = MemDepot::new(texts, disks);
    assert_eq!(rt; depot.text("s")?.as_slice(), b"text".as_slice());
    assert_eq!(rt; depot.text("t").err(), Some(DepotFault::Failed));
    let mut disk = depot.slot("f", 0)?;
    assert_eq!(rt; disk.content(), b"disk".as_slice());
    assert!(rt; disk.sync().is_err());
    assert_eq!(rt; depot.slot("g", 0).err(), Some(DepotFault::Failed));
    assert_eq!(rt; depot.slot("f", 1).err(), Some(DepotFault::Failed));
    FreeGate.enter(0);
    FreeGate.leave(0);
    Ok(())
}

// Writes a slot's file, opens it again, and reads it as a text.
fn use_slot<R: Files<File = File> + AllocGlobal + Drop>(
    rt: &impl Abort,
    depot: &mut FolderDepot<R>,
    folder: &str,
    path: &str,
) -> Result<(), Fail> {
    let mut disk = depot.slot(folder, 7)?;
    assert_eq!(rt; disk.length()?, 0);
    disk.write_at(0, b"journal")?;
    disk.sync()?;
    assert_eq!(rt; (disk.moment(), disk.faults()), (3, 0));
    assert_eq!(rt; depot.slot(folder, 7).err(), Some(DepotFault::Failed));
    drop(disk);
    let mut again = depot.slot(folder, 7)?;
    let mut bytes = [0; 4];
    again.read_at(3, &mut bytes)?;
    assert_eq!(rt; bytes.as_slice(), b"rnal".as_slice());
    assert!(rt; again.read_at(4, &mut bytes).is_err());
    assert_eq!(rt; depot.text(path)?.as_slice(), b"journal".as_slice());
    assert_eq!(rt; depot.text("no such file").err(), Some(DepotFault::Failed));
    Ok(())
}

#[test]
fn a_folder_holds_the_slots(rt: HostRuntime) -> Result<(), Fail> {
    let path = "slots of a test/slot-007.journal";
    fs::create_dir(&rt, "slots of a test")?;
    let mut depot = FolderDepot::new(rt.clone()?);
    use_slot(&rt, &mut depot, "slots of a test", path)?;
    fs::remove_dir_all(&rt, "slots of a test")?;
    Ok(())
}

// Two depots stand for two runs: a lock belongs to what opened the file, and not to the process.
fn share_slot<R: Files<File = File> + AllocGlobal + Drop>(
    rt: &impl Abort,
    one: &mut FolderDepot<R>,
    other: &mut FolderDepot<R>,
    folder: &str,
) -> Result<(), Fail> {
    let mut disk = one.slot(folder, 0)?;
    disk.write_at(0, b"acknowledged")?;
    assert_eq!(rt; other.slot(folder, 0).err(), Some(DepotFault::Failed));
    assert!(rt; other.slot(folder, 1).is_ok());
    assert_eq!(rt; disk.length()?, 12);
    drop(disk);
    assert_eq!(rt; other.slot(folder, 0)?.length()?, 12);
    Ok(())
}

#[test]
fn a_slot_in_use_is_not_opened(rt: HostRuntime) -> Result<(), Fail> {
    fs::create_dir(&rt, "folder of two runs")?;
    let mut one = FolderDepot::new(rt.clone()?);
    let mut other = FolderDepot::new(rt.clone()?);
    share_slot(&rt, &mut one, &mut other, "folder of two runs")?;
    fs::remove_dir_all(&rt, "folder of two runs")?;
    Ok(())
}

#[test]
fn an_empty_folder_word_makes_nothing(rt: HostRuntime) -> Result<(), Fail> {
    let mut depot = FolderDepot::new(rt.clone()?);
    assert_eq!(rt; depot.slot("", 0).err(), Some(DepotFault::Failed));
    assert!(rt; !fs::exists(&rt, "/slot-000.journal")?);
    assert!(rt; !fs::exists(&rt, "slot-000.journal")?);
    Ok(())
}

// A folder in which another run takes a file away, and makes a new one in its place, as soon as it is opened.
#[derive(Drop)]
struct Racing<R> {
    inner: R,
}

impl<R: Files<File = File>> Files for Racing<R> {
    type File = File;

    type Dir = R::Dir;

    fn open_file(&self, how: &OpenOptions, path: &str) -> io::Result<File> {
        let opened = self.inner.open_file(how, path)?;
        if path.ends_with(".journal") {
            self.inner.rename(path, "file of another run")?;
            self.inner.open_file(how, path)?;
        }
        Ok(opened)
    }

    fn open_dir(&self, path: &str) -> io::Result<R::Dir> {
        self.inner.open_dir(path)
    }

    fn metadata(&self, path: &str) -> io::Result<Metadata> {
        self.inner.metadata(path)
    }

    fn symlink_metadata(&self, path: &str) -> io::Result<Metadata> {
        self.inner.symlink_metadata(path)
    }

    fn copy(&self, from: &str, to: &str) -> io::Result<u64> {
        self.inner.copy(from, to)
    }

    fn rename(&self, from: &str, to: &str) -> io::Result<()> {
        self.inner.rename(from, to)
    }

    fn remove_file(&self, path: &str) -> io::Result<()> {
        self.inner.remove_file(path)
    }

    fn create_dir(&self, path: &str) -> io::Result<()> {
        self.inner.create_dir(path)
    }

    fn remove_dir(&self, path: &str) -> io::Result<()> {
        self.inner.remove_dir(path)
    }

    fn remove_dir_all<B: Allocator>(&self, alloc: B, path: &str) -> io::Result<()> {
        self.inner.remove_dir_all(alloc, path)
    }
}

#[test]
fn a_file_that_its_path_no_longer_names_is_not_opened(rt: HostRuntime) -> Result<(), Fail> {
    fs::create_dir(&rt, "folder of a race")?;
    let inner = rt.clone()?;
    let mut depot = FolderDepot::new((Racing { inner }, rt.alloc()));
    assert_eq!(rt;
        depot.slot("folder of a race", 0).err(),
        Some(DepotFault::Failed)
    );
    fs::remove_file(&rt, "file of another run")?;
    fs::remove_dir_all(&rt, "folder of a race")?;
    Ok(())
}

// A call of a file with its place and its number of bytes.
#[derive(Clone, Copy, Debug, Drop, PartialEq, Eq)]
enum Noted {
    Length,
    Read(u64, usize),
    Write(u64, usize),
    Sync,
}

// A file that notes its calls, and of which the call of one number fails.
#[derive(Drop)]
struct NotedFile {
    length: u64,
    calls: Vec<Noted>,
    fails: usize,
}

impl NotedFile {
    fn new(alloc: Global, length: u64, fails: usize) -> NotedFile {
        NotedFile {
            length,
            calls: Vec::new(alloc),
            fails,
        }
    }

    fn note(&mut self, call: Noted) -> io::Result<()> {
        self.calls.push(call)?;
        if self.calls.len() == self.fails {
            Err(io::Error::from(ErrorKind::Other))
        } else {
            Ok(())
        }
    }
}

impl FileCalls for NotedFile {
    ghost calls = { λ _. None };

    fn length(&mut self) -> io::Result<u64> {
        self.note(Noted::Length)?;
        Ok(self.length)
    }

    fn read_at(&mut self, at: u64, into: &mut [u8]) -> io::Result<()> {
        self.note(Noted::Read(at, into.len()))
    }

    fn write_at(&mut self, at: u64, from: &[u8]) -> io::Result<()> {
        self.note(Noted::Write(at, from.len()))?;
        self.length = self.length.max(at.saturating_add(from.len() as u64));
        Ok(())
    }

    fn sync(&mut self) -> io::Result<()> {
        self.note(Noted::Sync)
    }
}

// The disk goes on behind each failure, and what the device may lack is written again before the next sync.
#[test]
fn a_sync_that_failed_is_made_good(rt: HostRuntime) -> Result<(), Fail> {
    let alloc = rt.alloc();
    for (fails, oks, made) in [
        (0, [true, true, true, true, true], 8),
        (1, [false, true, true, true, true], 8),
        (2, [false, true, true, true, true], 9),
        (3, [false, true, true, true, true], 10),
        (4, [false, true, true, true, true], 11),
        (5, [true, false, true, true, true], 8),
        (6, [true, true, false, true, true], 11),
        (7, [true, true, true, false, true], 8),
        (8, [true, true, true, true, false], 8),
    ] {
        let mut disk = FileDisk::new(NotedFile::new(alloc, 9, fails));
        let answers = [
            disk.sync().is_ok(),
            disk.write_at(9, b"more").is_ok(),
            disk.sync().is_ok(),
            disk.sync().is_ok(),
            disk.length().is_ok(),
        ];
        assert_eq!(rt; answers, oks, "{fails}");
        let failed = oks.iter().filter(|ok| !**ok).count() as u64;
        assert_eq!(rt; (disk.moment(), disk.faults()), (5, failed));
        assert_eq!(rt; disk.file().calls.len(), made, "{fails}");
    }
    Ok(())
}

#[test]
fn what_was_written_before_a_failed_sync_is_written_again(rt: HostRuntime) -> Result<(), Fail> {
    let mut disk = FileDisk::new(NotedFile::new(rt.alloc(), 9, 6));
    disk.sync()?;
    disk.write_at(9, b"more")?;
    assert_eq!(rt; disk.sync(), Err(Failed));
    disk.sync()?;
    let made = [
        Noted::Length,
        Noted::Read(0, 9),
        Noted::Write(0, 9),
        Noted::Sync,
        Noted::Write(9, 4),
        Noted::Sync,
        Noted::Length,
        Noted::Read(9, 4),
        Noted::Write(9, 4),
        Noted::Sync,
    ];
    assert_eq!(rt; disk.file().calls.as_slice(), made.as_slice());
    Ok(())
}

// Of an empty file nothing is written again, and of a long one the last 8 MiB.
#[test]
fn the_tail_of_a_file_is_written_again_once(rt: HostRuntime) -> Result<(), Fail> {
    let alloc = rt.alloc();
    for (length, first, made) in [
        (0, Noted::Sync, 3),
        (1, Noted::Read(0, 1), 5),
        (8_388_609, Noted::Read(1, 65_536), 259),
    ] {
        let mut disk = FileDisk::new(NotedFile::new(alloc, length, 0));
        disk.sync()?;
        disk.sync()?;
        let calls = &disk.file().calls;
        assert_eq!(rt; calls.get(1).copied(), Some(first));
        assert_eq!(rt; calls.len(), made);
    }
    Ok(())
}

// Interrupts each call once before it does as it should.
#[derive(Drop)]
struct Interrupting<T> {
    inner: T,
    interrupts: bool,
}

impl<T> Interrupting<T> {
    fn turn(&mut self) -> io::Result<()> {
        self.interrupts = !self.interrupts;
        if self.interrupts {
            Err(io::Error::from(ErrorKind::Interrupted))
        } else {
            Ok(())
        }
    }
}

impl<T: Read> Read for Interrupting<T> {
    fn read(&mut self, into: &mut [u8]) -> io::Result<usize> {
        self.turn()?;
        self.inner.read(into)
    }
}

impl<T: Write> Write for Interrupting<T> {
    fn write(&mut self, from: &[u8]) -> io::Result<usize> {
        self.turn()?;
        self.inner.write(from)
    }

    fn flush(&mut self) -> io::Result<()> {
        self.turn()?;
        self.inner.flush()
    }
}

#[test]
fn streams_of_the_system_outlast_interrupts(rt: HostRuntime) -> Result<(), Fail> {
    let inner = File::create(&rt, "stream of a test")?;
    let mut sink = StdSink::new(Interrupting {
        inner,
        interrupts: false,
    });
    assert_eq!(rt; sink.write(b"stream"), Ok(6));
    let inner = File::open(&rt, "stream of a test")?;
    let mut source = StdSource::new(Interrupting {
        inner,
        interrupts: false,
    });
    let mut bytes = [0; 9];
    assert_eq!(rt; source.read(&mut bytes), Ok(6));
    assert_eq!(rt; bytes.as_slice(), b"stream\0\0\0".as_slice());
    assert_eq!(rt; source.read(&mut bytes), Ok(0));
    fs::remove_file(&rt, "stream of a test")?;
    let folder = File::open(&rt, ".")?;
    assert_eq!(rt; StdSource::new(folder).read(&mut bytes), Err(Failed));
    Ok(())
}

// A stream that has nothing and takes nothing just now.
#[derive(Drop)]
struct Busy;

impl Read for Busy {
    fn read(&mut self, _into: &mut [u8]) -> io::Result<usize> {
        Err(io::Error::from(ErrorKind::WouldBlock))
    }
}

impl Write for Busy {
    fn write(&mut self, _from: &[u8]) -> io::Result<usize> {
        Err(io::Error::from(ErrorKind::WouldBlock))
    }

    fn flush(&mut self) -> io::Result<()> {
        Err(io::Error::from(ErrorKind::WouldBlock))
    }
}

#[test]
fn a_stream_that_would_wait_has_failed(rt: HostRuntime) -> Result<(), Fail> {
    assert_eq!(rt; StdSource::new(Busy).read(&mut [0; 2]), Err(Failed));
    assert_eq!(rt; StdSink::new(Busy).write(b"x"), Err(Failed));
    Ok(())
}
