//! The files that are searched.

use crate::error::SearchError;
use crate::lines::Lines;
use crate::options::{Names, Options};
use crate::quoted::{Quoted, Reason};
use determinize_lines::Blocks;
use std::alloc::AllocError;
use std::fs::{self, Metadata};
use std::io::{self, Read, Write};
use std::os::unix::fs::MetadataExt;
use std::process::ExitCode;
use std::str;

/// A search of files.
#[derive(Drop)]
pub struct Files<'a> {
    rt: &'a HostRuntime,
    options: &'a Options<'a>,
    lines: Lines<'a>,
    blocks: Blocks,
    /// The file that standard output is written to, if a search of it might not end.
    output: Option<FileId>,
    /// The entries of directories that are not searched yet, the next one last.
    pending: Vec<Entry>,
    /// The directory that was listed last, behind those around it.
    around: Vec<FileId>,
    /// Whether a line was selected.
    is_selected: bool,
    /// Whether something was not read.
    is_failed: bool,
}

/// A file, regardless of its names.
#[derive(Clone, Copy, PartialEq, Eq)]
struct FileId {
    device: u64,
    inode: u64,
}

/// An entry of a directory.
#[derive(Drop)]
struct Entry {
    path: String,
    /// The number of directories around it.
    depth: usize,
}

/// What is known of a file or a directory.
#[derive(Clone, Copy)]
struct Known {
    id: FileId,
    is_dir: bool,
    /// The size, unless it is a device, a pipe or a directory.
    size: Option<u64>,
}

impl Known {
    /// Returns what is known by this.
    fn of(metadata: io::Result<Metadata>) -> io::Result<Known> {
        match metadata {
            Ok(metadata) => Ok(Known {
                id: FileId {
                    device: metadata.dev(),
                    inode: metadata.ino(),
                },
                is_dir: metadata.is_dir(),
                size: metadata.is_file().then_some(metadata.len()),
            }),
            Err(error) => Err(error),
        }
    }

    /// Returns what is known of the file of a name, or of one that a link leads to.
    fn of_name(rt: &HostRuntime, name: &str) -> io::Result<Known> {
        Known::of(fs::metadata(rt, name))
    }
}

impl<'a> Files<'a> {
    /// Returns a search that has read nothing.
    pub fn new(
        rt: &'a HostRuntime,
        options: &'a Options<'a>,
        lines: Lines<'a>,
    ) -> Result<Files<'a>, AllocError> {
        let settings = &options.settings;
        let output = match Known::of_name(rt, "/dev/stdout") {
            Ok(known) if settings.can_grow() && known.size.is_some() => Some(known.id),
            _ => None,
        };
        Ok(Files {
            rt,
            options,
            lines,
            blocks: Blocks::new(rt.alloc(), settings.terminator)?,
            output,
            pending: Vec::new(rt.alloc()),
            around: Vec::new(rt.alloc()),
            is_selected: false,
            is_failed: false,
        })
    }

    /// Searches all files, and returns the exit status. If nothing is printed, stops at the first
    /// file with a selected line.
    pub fn search_all(&mut self) -> io::Result<ExitCode> {
        let options = self.options;
        if options.files.is_empty() {
            self.search_default()?;
        }
        for name in &options.files {
            if !self.is_decided() {
                self.search_operand(name)?;
            }
        }
        self.lines.printer.flush()?;
        Ok(self.status())
    }

    /// Returns the exit status. If nothing is printed, a selected line outweighs a file that was
    /// not read.
    fn status(&self) -> ExitCode {
        ExitCode::from(if self.is_failed && !self.is_decided() {
            2
        } else {
            u8::from(!self.is_selected)
        })
    }

    /// Returns whether the exit status is known, and nothing is printed.
    fn is_decided(&self) -> bool {
        self.is_selected && self.options.settings.is_quiet()
    }

    /// Searches what is searched without operands.
    fn search_default(&mut self) -> io::Result<()> {
        if self.options.settings.is_recursive {
            self.search_tree(".")
        } else {
            self.search_input()
        }
    }

    /// Searches a file, the files below a directory, or standard input for `-`.
    fn search_operand(&mut self, name: &[u8]) -> io::Result<()> {
        match str::from_utf8(name) {
            Ok("-") => self.search_input(),
            Ok(path) => self.search_path(path),
            Err(_) => self.report(name, Reason::Text("the name is not UTF-8")),
        }
    }

    /// Searches a file, or the files below a directory, unless it is skipped by its name.
    fn search_path(&mut self, path: &str) -> io::Result<()> {
        let (globs, is_recursive) = (&self.options.globs, self.options.settings.is_recursive);
        if is_recursive || !globs.is_empty() {
            match Known::of_name(self.rt, path) {
                Ok(known) if globs.skips(path.as_bytes(), known.is_dir) => return Ok(()),
                Ok(known) if known.is_dir && is_recursive => return self.search_tree(path),
                _ => {}
            }
        }
        self.search_file(path, self.is_named(false))
    }

    /// Returns whether names of files are printed: by the options, or in a tree.
    fn is_named(&self, is_in_tree: bool) -> bool {
        match self.options.settings.names {
            Names::Always => true,
            Names::Never => false,
            Names::IfSeveral => is_in_tree || self.options.files.len() > 1,
        }
    }

    /// Searches standard input.
    fn search_input(&mut self) -> io::Result<()> {
        let (rt, options) = (self.rt, self.options);
        let known = Known::of_name(rt, "/dev/stdin").ok();
        let is_named = self.is_named(false);
        self.search_text(options.settings.label, is_named, known, &mut rt.stdin())
    }

    /// Searches a file.
    fn search_file(&mut self, path: &str, is_named: bool) -> io::Result<()> {
        let name = if self.options.files.is_empty() {
            path.strip_prefix("./").unwrap_or(path)
        } else {
            path
        };
        let mut file = match fs::open(self.rt, path) {
            Ok(file) => file,
            Err(error) => return self.report_error(name, &error),
        };
        match Known::of(file.metadata()) {
            Ok(known) if known.is_dir => {
                self.report(name.as_bytes(), Reason::Text("Is a directory"))?;
                self.lines.printer.total(name, is_named, 0)
            }
            Ok(known) => self.search_text(name, is_named, Some(known), &mut file),
            Err(error) => self.report_error(name, &error),
        }
    }

    /// Searches a text, unless it is what standard output is written to, and prints what the
    /// settings select.
    fn search_text<R: Read>(
        &mut self,
        name: &str,
        is_named: bool,
        known: Option<Known>,
        input: &mut R,
    ) -> io::Result<()> {
        let mut size = None;
        if let Some(known) = known {
            if self.is_output(known.id) {
                let reason = Reason::Text("input file is also the output");
                return self.report(name.as_bytes(), reason);
            }
            size = known.size;
        }
        let shown = is_named.then_some(name);
        let found = match self.lines.search(shown, size, &mut self.blocks, input) {
            Ok(found) => found,
            Err(SearchError::Input(error)) => return self.report_error(name, &error),
            Err(SearchError::Output(error)) => return Err(error),
        };
        self.is_selected = self.is_selected || found.selected > 0;
        self.lines.printer.total(name, is_named, found.selected)?;
        if found.is_left_out {
            self.note(name.as_bytes(), Reason::Text("binary file matches"))?;
        }
        Ok(())
    }

    /// Returns whether a file is the one that standard output is written to.
    fn is_output(&self, id: FileId) -> bool {
        match self.output {
            Some(output) => output == id,
            None => false,
        }
    }

    /// Searches all files below a directory, in the order of their names.
    fn search_tree(&mut self, root: &str) -> io::Result<()> {
        match Known::of_name(self.rt, root) {
            Ok(known) => self.search_dir(root, 0, known.id)?,
            Err(error) => self.report_error(root, &error)?,
        }
        for _ in 0..u64::MAX {
            match self.pending.pop() {
                Some(entry) if !self.is_decided() => self.search_entry(&entry)?,
                _ => break,
            }
        }
        Ok(())
    }

    /// Searches an entry of a directory if it is a file, and adds its entries if it is a directory.
    /// A link is followed if the settings say so.
    fn search_entry(&mut self, entry: &Entry) -> io::Result<()> {
        let path = entry.path.as_str();
        let known = if self.options.settings.follows_links {
            Known::of_name(self.rt, path)
        } else {
            Known::of(fs::symlink_metadata(self.rt, path))
        };
        match known {
            Ok(known) if self.skips_entry(path, known.is_dir) => Ok(()),
            Ok(known) if known.is_dir => self.search_dir(path, entry.depth, known.id),
            Ok(known) if known.size.is_some() => self.search_file(path, self.is_named(true)),
            Ok(_) => Ok(()),
            Err(_) if self.skips_entry(path, false) => Ok(()),
            Err(error) => self.report_error(path, &error),
        }
    }

    /// Returns whether an entry of a directory is skipped by its name.
    fn skips_entry(&self, path: &str, is_dir: bool) -> bool {
        let name = match path.rsplit_once('/') {
            Some((_, name)) => name,
            None => path,
        };
        self.options.globs.skips(name.as_bytes(), is_dir)
    }

    /// Adds the entries of a directory, unless it is in itself by a link.
    fn search_dir(&mut self, path: &str, depth: usize, id: FileId) -> io::Result<()> {
        self.around.truncate(depth);
        if self.around.contains(&id) {
            let reason = Reason::Text("warning: recursive directory loop");
            return self.warn(path.as_bytes(), reason);
        }
        match self.list(path, id) {
            Ok(()) => Ok(()),
            Err(error) => self.report_error(path, &error),
        }
    }

    /// Adds the entries of a directory, the last name first. One whose name is not UTF-8 is left
    /// out, and is an error.
    fn list(&mut self, path: &str, id: FileId) -> io::Result<()> {
        self.around.push(id)?;
        let mut paths = Vec::new(self.rt.alloc());
        let result = push_paths(self.rt, path, &mut paths);
        paths.sort()?;
        let depth = self.around.len();
        for _ in 0..paths.len() {
            if let Some(path) = paths.pop() {
                self.pending.push(Entry { path, depth })?;
            }
        }
        result
    }

    /// Reports that a file was not read.
    fn report_error(&mut self, name: &str, error: &io::Error) -> io::Result<()> {
        self.report(name.as_bytes(), Reason::of(error))
    }

    /// Reports what is wrong with a file.
    fn report(&mut self, name: &[u8], reason: Reason<'_>) -> io::Result<()> {
        self.is_failed = true;
        self.warn(name, reason)
    }

    /// Writes what is unusual about a file, unless there are no messages.
    fn warn(&mut self, name: &[u8], reason: Reason<'_>) -> io::Result<()> {
        if self.options.settings.is_silent {
            return Ok(());
        }
        self.note(name, reason)
    }

    /// Writes something about a file to standard error, behind all that was printed.
    fn note(&mut self, name: &[u8], reason: Reason<'_>) -> io::Result<()> {
        self.lines.printer.flush()?;
        let name = Quoted(name);
        let _ = writeln!(self.rt.stderr(), "finder: {name}: {reason}");
        Ok(())
    }
}

/// Adds the paths of the entries of a directory. One that is not UTF-8 is an error, and the others
/// are added.
fn push_paths(rt: &HostRuntime, path: &str, paths: &mut Vec<String>) -> io::Result<()> {
    let mut result = Ok(());
    for entry in fs::read_dir(rt, path)? {
        match entry {
            Ok(entry) => paths.push(String::from_str(rt.alloc(), entry.path().as_str())?)?,
            Err(error) => result = Err(error),
        }
    }
    result
}
