//! A file by its name.

ghost use Rattle.std.specs.Prelude.{◌≡◌, ◌<◌, None, length};
ghost use Rattle.std.specs.Io.{ReadsAtMost};

use std::alloc::{AllocError, Global};
use std::fs::{self, Files};
use sv_io::{Failed, Named, ReadSource, Source};

/// A file, which is opened at the first read of it. One that can't be opened is a read that fails.
#[derive(Drop)]
pub struct PathSource<'a, R: Files> {
    rt: &'a R,
    alloc: Global,
    path: String,
    file: Option<ReadSource<R::File>>,
    faults: u64,
}

impl<'a, R: Files> PathSource<'a, R> {
    /// A source that has no name yet.
    pub fn new(rt: &'a R, alloc: Global) -> Self {
        PathSource {
            rt,
            alloc,
            path: String::new(alloc),
            file: None,
            faults: 0,
        }
    }

    /// Opens the file where it isn't open, and reads from it.
    fn read_open(&mut self, buf: &mut [u8]) -> Result<usize, Failed>
        requires { 0 < length buf.old }
        ensures bound { ReadsAtMost result buf.new }
        ensures kept { self.new.faults ≡ self.old.faults }
    {
        if self.file.is_none() {
            match fs::open(self.rt, self.path.as_str()) {
                Ok(file) => self.file = Some(ReadSource::new(file)),
                Err(_) => return Err(Failed),
            }
        }
        match &mut self.file {
            Some(file) => file.read(buf),
            None => Err(Failed),
        }
    }
}

impl<'a, R: Files> Named for PathSource<'a, R> {
    fn name(&mut self, text: &str) -> Result<(), AllocError> {
        self.path = String::from_str(self.alloc, text)?;
        Ok(())
    }
}

impl<'a, R: Files> Source for PathSource<'a, R> {
    ghost left = { λ _. None };

    ghost faults = { λ s. s.faults };

    fn read(&mut self, buf: &mut [u8]) -> Result<usize, Failed> {
        match self.read_open(buf) {
            Ok(count) => Ok(count),
            Err(Failed) => {
                self.faults = self.faults.saturating_add(1);
                Err(Failed)
            }
        }
    }
}
