//! The regex of the patterns.

use crate::error::Error;
use crate::options::Settings;
use determinize_lines::stay_in_lines;
use determinize_regex::{Error as RegexError, Flags, Regex, RegexConfig};
use std::alloc::{AllocError, Global};

/// Returns the regex of the patterns, by the settings.
pub fn compile<'a>(
    alloc: Global,
    patterns: &[Vec<u8>],
    settings: &Settings<'_>,
) -> Result<Regex, Error<'a>> {
    let mut texts = Vec::new(alloc);
    for pattern in patterns {
        push_text(alloc, pattern.as_slice(), settings.is_fixed, &mut texts)?;
    }
    // Each text is parsed before it is put between others, with which `a)(b` would be a pattern.
    let regex = regex_of(alloc, &texts, settings)?;
    let (before, after) = if settings.matches_lines {
        ("^(?:", ")$")
    } else if settings.matches_words {
        ("(?-u:\\b{start-half})(?:", ")(?-u:\\b{end-half})")
    } else {
        return Ok(regex);
    };
    let texts = surrounded(alloc, &texts, before, after)?;
    regex_of(alloc, &texts, settings)
}

/// Adds a pattern as text.
fn push_text<'a>(
    alloc: Global,
    pattern: &[u8],
    is_fixed: bool,
    texts: &mut Vec<String>,
) -> Result<(), Error<'a>> {
    let text = if is_fixed {
        escaped(alloc, pattern)?
    } else {
        match String::from_utf8(pattern.to_vec(alloc)?) {
            Ok(text) => text,
            Err(error) => return Err(Error::NotUtf8(error.into_bytes())),
        }
    };
    Ok(texts.push(text)?)
}

/// Returns the text of a pattern that matches these bytes.
fn escaped(alloc: Global, bytes: &[u8]) -> Result<String, AllocError> {
    let mut text = String::new(alloc);
    for chunk in bytes.utf8_chunks() {
        push_escaped(&mut text, chunk.valid())?;
        for byte in chunk.invalid() {
            write!(text, "\\x{byte:02X}")?;
        }
    }
    Ok(text)
}

/// Adds the text of a pattern that matches these characters. A backslash before a letter or before
/// `<` or `>` has a meaning, and without one none of these has.
fn push_escaped(text: &mut String, chars: &str) -> Result<(), AllocError> {
    for c in chars.chars() {
        if c.is_ascii_punctuation() && c != '<' && c != '>' {
            text.push('\\')?;
        }
        text.push(c)?;
    }
    Ok(())
}

/// Returns each text between two others.
fn surrounded(
    alloc: Global,
    texts: &Vec<String>,
    before: &str,
    after: &str,
) -> Result<Vec<String>, AllocError> {
    let mut surrounded = Vec::new(alloc);
    for text in texts {
        let mut longer = String::from_str(alloc, before)?;
        longer.push_str(text.as_str())?;
        longer.push_str(after)?;
        surrounded.push(longer)?;
    }
    Ok(surrounded)
}

/// Returns the regex of texts, of which the first is pattern 0.
///
/// In a line that ends in LF, assertions about texts and those about lines mean the same. Only with
/// the second may several lines be searched at once; with the first a search of one ends sooner.
/// Lines that end in another byte are searched at once if no assertion is about those that end in
/// LF, as one after `(?m)` is.
fn regex_of<'a>(
    alloc: Global,
    texts: &Vec<String>,
    settings: &Settings<'_>,
) -> Result<Regex, Error<'a>> {
    let ends_lines = settings.terminator == b'\n';
    let mut flags = Flags::new();
    flags.case_insensitive = settings.ignores_case;
    // The text of a fixed string may have bytes that are no characters.
    flags.unicode = settings.reads_characters && !settings.is_fixed;
    flags.dot_matches_new_line = !ends_lines;
    flags.multi_line = ends_lines;
    let regex = parsed(alloc, texts, flags, settings.terminator)?;
    let is_wanted = if ends_lines {
        stay_in_lines(regex.patterns(), b'\n')
    } else {
        !regex.nfa().look_set_any().contains_anchor_line()
    };
    if is_wanted {
        return Ok(regex);
    }
    flags.multi_line = false;
    parsed(alloc, texts, flags, b'\n')
}

/// Returns the regex of texts, with these flags where each begins. The byte is the one that ends
/// lines for assertions.
fn parsed<'a>(
    alloc: Global,
    texts: &Vec<String>,
    flags: Flags,
    terminator: u8,
) -> Result<Regex, Error<'a>> {
    let mut config = RegexConfig::new();
    config.flags = flags;
    config.compile.look_matcher.set_line_terminator(terminator);
    let mut borrowed = Vec::new(alloc);
    for text in texts {
        borrowed.push(text.as_str())?;
    }
    match Regex::new_many(alloc, borrowed.as_slice(), config) {
        Ok(regex) => Ok(regex),
        Err(RegexError::Compile(error)) => Err(Error::Compile(error)),
        Err(RegexError::Parse { index, error }) => {
            let text = borrowed.get(index).copied().unwrap_or("");
            let text = String::from_str(alloc, text)?;
            Err(Error::Parse { text, error })
        }
    }
}
