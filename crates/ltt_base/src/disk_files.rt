// The machine's files. They tell no content.
ghost use Rattle.std.specs.Prelude.{IsSome, None};

use crate::outside::{Failed, Files};
use std::io::Read;
use std::{fs, rt};

/// The files of a runtime. One count of faults stands for all names, and every name counts as selected while a file is open.
#[derive(Drop)]
pub struct DiskFiles<R: rt::Files + Drop> {
    rt: R,
    file: Option<R::File>,
    faults: u64,
}

impl<R: rt::Files + Drop> DiskFiles<R> {
    /// The files that this runtime opens.
    pub fn new(rt: R) -> DiskFiles<R> {
        DiskFiles {
            rt,
            file: None,
            faults: 0,
        }
    }
}

impl<R: rt::Files + Drop> Files for DiskFiles<R> {
    ghost held = { λ files name. None };

    ghost left = { λ files. None };

    ghost is_selected = { λ files name. IsSome files.file };

    ghost faults = { λ files name. files.faults };

    fn select(&mut self, name: &str) -> Result<(), Failed> {
        match fs::open(&self.rt, name) {
            Ok(file) => {
                self.file = Some(file);
                Ok(())
            }
            Err(_) => {
                self.file = None;
                self.faults = self.faults.saturating_add(1);
                Err(Failed)
            }
        }
    }

    fn read(&mut self, into: &mut [u8]) -> Result<usize, Failed> {
        if let Some(file) = &mut self.file {
            if let Ok(count) = file.read(into) {
                return Ok(count);
            }
        }
        self.file = None;
        self.faults = self.faults.saturating_add(1);
        Err(Failed)
    }
}
