//! A disk over a file of the current folder.
ghost use Rattle.amr_causes.specs.Causes.{Rose};
ghost use Rattle.std.specs.Prelude.{None, ◌≡◌, ◌≤◌, length, IfOk};

use crate::{Disk, DiskFault};
use std::fs::{File, OpenOptions};
use std::io::{self, ErrorKind};
use std::os::unix::fs::FileExt;
use std::rt::Files;

const NAME: &str = "mesh.store";

/// The file `mesh.store` of the current folder, opened at first use. An absent file reads as empty and syncs with Ok;
/// the first write makes it. The first sync of a file that was opened or made makes its entry in the folder durable
/// too, where the system lets it. An earlier run may have ended before it did. It tells nothing of its bytes.
#[derive(Drop)]
pub struct FileDisk<R> {
    rt: R,
    file: Option<File>,
    is_entry_pending: bool,
    faults: u64,
}

impl<R: Files<File = File> + Drop> FileDisk<R> {
    ghost use Rattle.amr_disk.specs.Faults.{faults_in};

    /// A disk over the file, which is not opened yet. It has not failed so far.
    pub fn make(rt: R) -> FileDisk<R>
        ensures faultless { faults_in result ≡ 0 }
    {
        FileDisk {
            rt,
            file: None,
            is_entry_pending: false,
            faults: 0,
        }
    }

    // Opens the file, where it is there.
    fn open(&mut self) -> io::Result<()>
        ensures { faults_in self.new ≡ faults_in self.old }
    {
        if self.file.is_none() {
            let mut how = OpenOptions::new();
            how.read(true);
            how.write(true);
            match how.open(&self.rt, NAME) {
                Ok(file) => {
                    self.file = Some(file);
                    self.is_entry_pending = true;
                }
                Err(e) => {
                    if e.kind() != ErrorKind::NotFound {
                        return Err(e);
                    }
                }
            }
        }
        Ok(())
    }

    // Opens the file, or makes it.
    fn open_or_create(&mut self) -> io::Result<()>
        ensures { faults_in self.new ≡ faults_in self.old }
    {
        self.open()?;
        if self.file.is_none() {
            let mut how = OpenOptions::new();
            how.read(true);
            how.write(true);
            how.create(true);
            self.file = Some(how.open(&self.rt, NAME)?);
            self.is_entry_pending = true;
        }
        Ok(())
    }

    fn try_read(&mut self, at: u64, into: &mut [u8]) -> io::Result<usize>
        ensures bound { IfOk result (λ n. n ≤ length into.new) }
        ensures faults { faults_in self.new ≡ faults_in self.old }
    {
        self.open()?;
        match &self.file {
            Some(file) => read_part(file, at, into),
            None => Ok(0),
        }
    }

    fn try_write(&mut self, at: u64, bytes: &[u8]) -> io::Result<()>
        ensures faults { faults_in self.new ≡ faults_in self.old }
    {
        self.open_or_create()?;
        match &self.file {
            Some(file) => file.write_all_at(bytes, at),
            None => Ok(()),
        }
    }

    fn try_sync(&mut self) -> io::Result<()>
        ensures faults { faults_in self.new ≡ faults_in self.old }
    {
        self.open()?;
        match &self.file {
            Some(file) => file.sync_all()?,
            None => {}
        }
        if self.is_entry_pending {
            sync_folder(&self.rt)?;
            self.is_entry_pending = false;
        }
        Ok(())
    }

    // Counts a fault.
    fn fault(&mut self) -> DiskFault
        ensures later { faults_in self.old ≤ faults_in self.new }
        ensures rose { Rose (faults_in self.old) (faults_in self.new) }
    {
        self.faults = self.faults.saturating_add(1);
        DiskFault
    }
}

// Reads until the buffer is full or the file ends.
fn read_part(file: &File, at: u64, into: &mut [u8]) -> io::Result<usize>
    ensures { IfOk result (λ n. n ≤ length into.new) }
{
    let mut done = 0;
    for _ in 0..u64::MAX {
        if done >= into.len() {
            break;
        }
        match file.read_at(&mut into[done..], at.wrapping_add(done as u64)) {
            Ok(0) => break,
            Ok(n) => done += n,
            Err(e) => {
                if e.kind() != ErrorKind::Interrupted {
                    return Err(e);
                }
            }
        }
    }
    Ok(done)
}

// Makes the entries of the current folder durable. A system that lets no folder be opened or synced has nothing to make durable.
fn sync_folder<R: Files<File = File>>(rt: &R) -> io::Result<()> {
    let folder = match File::open(rt, ".") {
        Ok(folder) => folder,
        Err(_) => return Ok(()),
    };
    match folder.sync_all() {
        Ok(()) => Ok(()),
        Err(e) => match e.kind() {
            ErrorKind::InvalidInput | ErrorKind::Unsupported | ErrorKind::PermissionDenied => {
                Ok(())
            }
            _ => Err(e),
        },
    }
}

impl<R: Files<File = File> + Drop> Disk for FileDisk<R> {
    ghost use Rattle.amr_disk.specs.Faults.{faults_in};
    ghost use Rattle.std.proofs.Common.{rules};

    ghost seen = { λ d. None };

    ghost moment = { λ d. 0 };

    ghost leaves = { λ d t c. ⊥ };

    ghost faults = { faults_in };

    ghost reads_image = { λ d s is. Prim.cc };

    fn read_at(&mut self, at: u64, into: &mut [u8]) -> Result<usize, DiskFault> {
        match self.try_read(at, into) {
            Ok(n) => Ok(n),
            Err(_) => Err(self.fault()),
        }
    }

    fn write_at(&mut self, at: u64, bytes: &[u8]) -> Result<(), DiskFault> {
        if bytes.is_empty() {
            return Ok(());
        }
        match self.try_write(at, bytes) {
            Ok(()) => Ok(()),
            Err(_) => Err(self.fault()),
        }
    }

    fn sync(&mut self) -> Result<(), DiskFault> {
        match self.try_sync() {
            Ok(()) => Ok(()),
            Err(_) => Err(self.fault()),
        }
    }
}
