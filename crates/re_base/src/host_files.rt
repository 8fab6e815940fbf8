//! The files of the system.
//!
//! Nothing is told of what they hold. Contracts see them as the count of their faults, which stops
//! at the last value of a u64. What is right of a reader whose bytes are known is a contract of its
//! own (`read_text`).
ghost use Rattle.std.specs.Prelude.{◌≡◌, ℕ, ◌≤◌, ◌↔◌, ◌⊎◌, None, IfOk, IsErrOf, vec_len};
ghost use Rattle.std.specs.IoError.{error_kind};
ghost use Rattle.std.specs.declared.io.ErrorKind.{ErrorKind};
ghost use Rattle.re_base.specs.Causes.{Rose};
ghost use Rattle.re_base.specs.FileFaults.{faults_after};
ghost use Rattle.re_base.specs.Told.{IsWhole, IsLong};

use crate::{FileFault, Files, LONGEST_FILE};
use std::alloc::Global;
use std::io::{ErrorKind, Read};
use std::marker::Model;
use std::{fs, io};

/// Files that are read through the runtime.
#[derive(Drop)]
pub struct HostFiles<'a, R> {
    rt: &'a R,
    faults: u64,
}

impl<'a, R> Model for HostFiles<'a, R> {
    ghost use Rattle.std.specs.Prelude.{ℕ};

    ghost Value = { ℕ };

    ghost view = { λ files. files.faults };
}

impl<'a, R: std::rt::Files> HostFiles<'a, R> {
    /// The files of this runtime, with no fault so far.
    pub fn new(rt: &'a R) -> HostFiles<'a, R>
        ensures { result ≡ 0 }
    {
        HostFiles { rt, faults: 0 }
    }
}

impl<R: std::rt::Files> Files for HostFiles<'_, R> {
    ghost text = { λ _ _. None };

    ghost faults = { λ faults _. faults };

    /// Reads at most one byte more than a file may hold.
    fn read(&mut self, alloc: Global, name: &str) -> Result<Vec<u8>, FileFault>
        ensures short { IfOk result (λ bytes. vec_len bytes ≤ LONGEST_FILE) }
        ensures after { self.new ≡ faults_after self.old result }

        // The count never falls, and stands at its last value where it can't rise.
        ensures later { self.old ≤ self.new }
        ensures failed { IsErrOf result FileFault.Failed → Rose self.old self.new }
    {
        let answer = match fs::open(self.rt, name) {
            Ok(file) => read_text(alloc, file),
            Err(error) => Err(fault_of(&error)),
        };
        if let Err(FileFault::Failed) = answer {
            self.faults = self.faults.saturating_add(1);
        }
        answer
    }
}

// All bytes of the reader, where there are at most `LONGEST_FILE`.
fn read_text<F: Read + Drop>(alloc: Global, file: F) -> Result<Vec<u8>, FileFault>
    ensures whole { IfOk result (λ bytes. IsWhole (F.remaining file) bytes.items) }
    ensures short { IfOk result (λ bytes. vec_len bytes ≤ LONGEST_FILE) }
    ensures long { IsErrOf result FileFault.TooLong → IsLong (F.remaining file) }
{
    let mut bytes = Vec::new(alloc);
    match file.take(LONGEST_FILE as u64 + 1).read_to_end(&mut bytes) {
        Ok(_) if bytes.len() > LONGEST_FILE => Err(FileFault::TooLong),
        Ok(_) => Ok(bytes),
        Err(error) => Err(fault_of(&error)),
    }
}

// Want of memory is no fault of the file.
fn fault_of(error: &io::Error) -> FileFault
    ensures memory { (result ≡ FileFault.Memory) ↔ (error_kind error.now ≡ ErrorKind.OutOfMemory) }
    ensures others { (result ≡ FileFault.Memory) ⊎ (result ≡ FileFault.Failed) }
{
    match error.kind() {
        ErrorKind::OutOfMemory => FileFault::Memory,
        _ => FileFault::Failed,
    }
}
