//! Globs of the names of files that are searched or skipped.

use std::alloc::{AllocError, Global};

/// Which files and directories are searched, by their names.
#[derive(Drop)]
pub struct Globs<'a> {
    files: Vec<Glob<'a>>,
    dirs: Vec<Glob<'a>>,
}

/// A glob of names.
#[derive(Clone, Copy)]
struct Glob<'a> {
    text: &'a [u8],
    /// Whether what it matches is searched, and not skipped.
    includes: bool,
}

impl<'a> Globs<'a> {
    /// Returns no globs, so that all files are searched.
    pub fn new(alloc: Global) -> Self {
        Globs {
            files: Vec::new(alloc),
            dirs: Vec::new(alloc),
        }
    }

    /// Adds a glob of files, which are searched or else skipped. The last one that matches counts.
    pub fn push_file(&mut self, text: &'a [u8], includes: bool) -> Result<(), AllocError> {
        Ok(self.files.push(Glob { text, includes })?)
    }

    /// Adds a glob of directories that are skipped. Slashes at its end have no effect.
    pub fn push_dir(&mut self, glob: &'a [u8]) -> Result<(), AllocError> {
        let mut text = glob;
        for _ in 0..glob.len() {
            match text {
                [front @ .., b'/'] if !front.is_empty() => text = front,
                _ => break,
            }
        }
        let includes = false;
        Ok(self.dirs.push(Glob { text, includes })?)
    }

    /// Returns whether there are no globs.
    pub fn is_empty(&self) -> bool {
        self.files.is_empty() && self.dirs.is_empty()
    }

    /// Returns whether a file or a directory is skipped. One that no glob matches is if the first
    /// glob includes files.
    pub fn skips(&self, name: &[u8], is_dir: bool) -> bool {
        let globs = if is_dir { &self.dirs } else { &self.files };
        let mut skips = match globs.first() {
            Some(first) => first.includes,
            None => false,
        };
        for glob in globs {
            if matches_end(glob.text, name) {
                skips = !glob.includes;
            }
        }
        skips
    }
}

/// Returns whether a glob matches a name, or what follows a slash of it.
fn matches_end(glob: &[u8], name: &[u8]) -> bool {
    let mut is_start = true;
    let mut rest = name;
    for _ in 0..=name.len() {
        if is_start && matches(glob, rest) {
            return true;
        }
        let [byte, after @ ..] = rest else {
            break;
        };
        is_start = *byte == b'/';
        rest = after;
    }
    false
}

/// Returns whether a glob matches a text. After a star that fails to match, it matches a byte more.
fn matches(glob: &[u8], text: &[u8]) -> bool {
    let most = glob.len().saturating_add(2).saturating_mul(text.len());
    let (mut glob, mut text) = (glob, text);
    // What is behind the last star, and the text behind what that matches.
    let mut star: Option<(&[u8], &[u8])> = None;
    for _ in 0..=most.saturating_add(glob.len()) {
        match glob {
            [] if text.is_empty() => return true,
            [b'*', behind @ ..] => {
                star = Some((behind, text));
                glob = behind;
                continue;
            }
            _ => {}
        }
        if let Some(rests) = after_one(glob, text) {
            (glob, text) = rests;
        } else if let Some((behind, [_, after @ ..])) = star {
            star = Some((behind, after));
            (glob, text) = (behind, after);
        } else {
            return false;
        }
    }
    false
}

/// Returns what follows the first part of a glob, which is no star, and the byte that it matches,
/// if it matches the first byte of a text.
fn after_one<'t>(glob: &'t [u8], text: &'t [u8]) -> Option<(&'t [u8], &'t [u8])> {
    let (byte, after) = text.split_first()?;
    if let [b'[', members @ ..] = glob
        && let Some((is_member, behind)) = after_set(members, *byte)
    {
        return is_member.then_some((behind, after));
    }
    match glob {
        [b'?', behind @ ..] => Some((behind, after)),
        [b'\\', own, behind @ ..] => (own == byte).then_some((behind, after)),
        [own, behind @ ..] => (own == byte).then_some((behind, after)),
        [] => None,
    }
}

/// Returns whether a set in brackets has a byte, and what follows it, if it ends. A bracket that is
/// its first member does not end it.
fn after_set(set: &[u8], byte: u8) -> Option<(bool, &[u8])> {
    let (is_negated, mut rest) = match set {
        [b'!' | b'^', members @ ..] => (true, members),
        _ => (false, set),
    };
    let mut is_member = false;
    for place in 0..set.len() {
        let (start, after) = match rest {
            [b']', behind @ ..] if place > 0 => return Some((is_member != is_negated, behind)),
            [b'\\', start, after @ ..] => (*start, after),
            [start, after @ ..] => (*start, after),
            [] => return None,
        };
        let (end, after) = match after {
            [b'-', end, after @ ..] if *end != b']' => (*end, after),
            _ => (start, after),
        };
        is_member = is_member || (start <= byte && byte <= end);
        rest = after;
    }
    None
}
