//! Files in memory, of which the reads with given numbers fail.
//!
//! Contracts see them as the texts by name, with the counts of the reads. Of two files of one name
//! the first counts.
ghost use Rattle.std.specs.Prelude.{◌≡◌, ◌≤◌, IsErrOf, option_map};
ghost use Rattle.re_base.specs.Causes.{Rose};
ghost use Rattle.re_base.specs.MemFiles.{Answers, after_read, answer_of, no_reads, text_of, texts_of};

use crate::tally::Tally;
use crate::{FileFault, Files, LONGEST_FILE};
use std::alloc::Global;
use std::marker::Model;

/// Files that stand in memory. Their text is told, and one count of faults serves all names.
#[derive(Drop)]
pub struct MemFiles {
    files: Vec<(String, Vec<u8>)>,
    tally: Tally,
}

impl Model for MemFiles {
    ghost use Rattle.re_base.specs.MemFiles.{FilesInMemory, texts_of};

    ghost Value = { FilesInMemory };

    ghost view = { λ files. record { texts = texts_of files.files.items; counts = files.tally } };
}

impl MemFiles {
    /// Files with these names and texts. `fail` has the numbers of the reads that fail, from 0.
    /// Takes no memory.
    pub fn new(files: Vec<(String, Vec<u8>)>, fail: Vec<u32>) -> MemFiles
        ensures { result ≡ no_reads (texts_of files.items) fail.items }
    {
        MemFiles {
            files,
            tally: Tally::new(fail),
        }
    }
}

// The text of a name, where it is held.
fn find<'a>(files: &'a [(String, Vec<u8>)], name: &str) -> Option<&'a Vec<u8>>
    ensures { option_map (λ text. text.now.items) result ≡ text_of (texts_of files.now) name.now }
{
    for (held, text) in files {
        if held.as_str() == name {
            return Some(text);
        }
    }
    None
}

impl Files for MemFiles {
    ghost text = { λ files name. text_of files.texts name };

    ghost faults = { λ files _. files.counts.faults };

    /// A read whose number is among the failing ones, or whose name is not held, is a fault.
    fn read(&mut self, alloc: Global, name: &str) -> Result<Vec<u8>, FileFault>
        ensures answer { Answers (answer_of self.old name.now) result }
        ensures after { self.new ≡ after_read self.old result }

        // The count of faults never falls, and stands at its last value where it can't rise.
        ensures later { self.old.counts.faults ≤ self.new.counts.faults }
        ensures failed { IsErrOf result FileFault.Failed
            → Rose self.old.counts.faults self.new.counts.faults }
    {
        if self.tally.is_call_failing() {
            self.tally.count_fault();
            return Err(FileFault::Failed);
        }
        let Some(text) = find(&self.files, name) else {
            self.tally.count_fault();
            return Err(FileFault::Failed);
        };
        if text.len() > LONGEST_FILE {
            return Err(FileFault::TooLong);
        }
        Vec::from_slice(alloc, text.as_slice()).map_err(|_| FileFault::Memory)
    }
}
