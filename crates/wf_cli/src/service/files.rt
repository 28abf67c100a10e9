//! Access to the files that a command line names.

ghost use Rattle.std.specs.Prelude.{◌≡◌, ℕ, List, None, IfErr, IfOk, option_copied};
ghost use Rattle.wf_cli.specs.Service.Files.{AsksFor, CanAsk, Filing, Opening, keeping, opened, refused, state_of};

use std::io;
use std::io::Read;
use std::marker::Model;
use wf_base::streams::Source;

/// A way to open files by their paths. The programs use [`Disk`]; tests use files in memory.
pub trait Files {
    /// A reader over the opened file.
    type File: Read + Drop;

    // What may come of opening the file at a path: by default anything, as for a disk.
    ghost opens: { Self → List ℕ → Opening → Type 0 } = { λ _ _ _. Unit {0} };

    /// Opens the file at `path`, to be read from its beginning.
    ///
    /// # Errors
    ///
    /// Returns an error if the file can't be opened.
    fn open(&self, path: &str) -> io::Result<Self::File>
        ensures file { IfOk result
            (λ file. opens self.now path.now (opened (Self.File.remaining file))) }
        ensures none { IfErr result (λ _. opens self.now path.now refused) };
}

/// The outcome of the last request for a file.
#[derive(Clone, Copy, Debug, PartialEq, Eq)]
pub enum FileState {
    /// The file could not be opened, or none was requested.
    Unopened,
    /// The file was opened, but a read of it failed.
    Unread,
    /// The file was opened, and no read of it failed.
    Sound,
}

/// Opens files and counts the requests and those that failed. After a run it also holds the source
/// of the last file, as far as the run handed that source back.
///
/// A program opens its files only through an opener, so each one is counted, and one can see
/// afterwards what was read from it.
#[derive(Drop)]
pub struct Opener<F: Files> {
    files: F,
    asked: u64,
    failures: u64,
    kept: Option<Source<F::File>>,
}

impl<F: Files> Model for Opener<F> {
    ghost Value = { Filing F };

    ghost view = { λ f. record {
      files = f.files;
      asked = f.asked;
      failures = f.failures;
      kept = f.kept;
    } };
}

impl<F: Files> Opener<F> {
    /// Creates an opener over `files` to which no request was made yet.
    pub fn new(files: F) -> Opener<F>
        ensures { result ≡ record { files = files; asked = 0; failures = 0; kept = None } }
    {
        Opener {
            files,
            asked: 0,
            failures: 0,
            kept: None,
        }
    }

    /// Returns how many files were requested.
    pub fn asked(&self) -> u64
        ensures { result ≡ self.now.asked }
    {
        self.asked
    }

    /// Returns how many of the requested files could not be opened.
    pub fn failures(&self) -> u64
        ensures { result ≡ self.now.failures }
    {
        self.failures
    }

    /// Returns the source that [`keep`](Opener::keep) stored since the last request, or `None` if
    /// there is none.
    pub fn kept(&self) -> Option<&Source<F::File>>
        ensures { option_copied result ≡ self.now.kept }
    {
        self.kept.as_ref()
    }

    /// Returns the outcome of the last request for a file. It is `Unopened` if no file was
    /// requested yet, or if the source of the last file was not stored with [`keep`](Opener::keep).
    pub fn last(&self) -> FileState
        ensures { result ≡ state_of self.now.kept }
    {
        match &self.kept {
            None => FileState::Unopened,
            Some(file) if file.failures() > 0 => FileState::Unread,
            Some(_) => FileState::Sound,
        }
    }

    /// Opens the file at `path` and returns its source, from which nothing was read yet. Returns
    /// `None` if the file can't be opened. The source that was stored before is dropped.
    pub fn open(&mut self, path: &str) -> Option<Source<F::File>>
        requires { CanAsk self.old }
        ensures { AsksFor (F.opens self.old.files path.now) self.old self.new result }
    {
        self.asked += 1;
        self.kept = None;
        match self.files.open(path) {
            Ok(file) => Some(Source::new(file)),
            Err(_) => {
                self.failures += 1;
                None
            }
        }
    }

    /// Stores `file`, the source that the last request returned, so that it can be inspected after
    /// the run.
    pub fn keep(&mut self, file: Source<F::File>)
        ensures { self.new ≡ keeping self.old file }
    {
        self.kept = Some(file);
    }
}
