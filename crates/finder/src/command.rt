//! The command line.

use crate::error::Error;
use crate::flags::{Flag, Takes};
use crate::options::{Action, Binary, Colors, Names, Options, Settings, Shows};
use crate::split::split_once;
use determinize_lines::blocks::set_of;
use std::alloc::AllocError;
use std::io::Read;
use std::{fs, io, slice, str};

/// Arguments that are being read.
#[derive(Drop)]
struct Command<'o, 'a> {
    rt: &'o HostRuntime,
    /// The arguments that are not read yet.
    args: slice::Iter<'a, Vec<u8>>,
    options: &'o mut Options<'a>,
    /// Whether all others are operands.
    has_ended: bool,
    /// Whether an option gives patterns, so that no operand is one.
    has_patterns: bool,
}

/// Returns the options of the arguments. As in grep, options may follow operands, and the first
/// operand is the pattern unless an option gives one.
pub fn read<'a>(rt: &HostRuntime, args: &'a [Vec<u8>]) -> Result<Options<'a>, Error<'a>> {
    let mut options = Options::new(rt.alloc());
    let mut command = Command {
        rt,
        args: args.iter(),
        options: &mut options,
        has_ended: false,
        has_patterns: false,
    };
    command.take_all()?;
    Ok(options)
}

impl<'a> Command<'_, 'a> {
    /// Takes all arguments.
    fn take_all(&mut self) -> Result<(), Error<'a>> {
        for _ in 0..u64::MAX {
            match self.args.next() {
                Some(arg) => self.take(arg.as_slice())?,
                None => break,
            }
        }
        self.take_pattern()
    }

    /// Takes an argument: a name with two hyphens, letters with one, or an operand.
    fn take(&mut self, arg: &'a [u8]) -> Result<(), Error<'a>> {
        match arg {
            [b'-', b'-'] if !self.has_ended => self.has_ended = true,
            [b'-', b'-', name @ ..] if !self.has_ended => return self.take_name(name),
            [b'-', letters @ ..] if !self.has_ended && !letters.is_empty() => {
                return self.take_letters(letters);
            }
            _ => self.options.files.push(arg)?,
        }
        Ok(())
    }

    /// Takes the first operand for the pattern, if no option gives one.
    fn take_pattern(&mut self) -> Result<(), Error<'a>> {
        if self.has_patterns || !matches!(self.options.settings.action, Action::Search) {
            return Ok(());
        }
        if self.options.files.is_empty() {
            return Err(Error::NoPattern);
        }
        let pattern = self.options.files.remove(0);
        Ok(self.add_patterns(pattern)?)
    }

    /// Takes an option with a name, and its value behind an equals sign or in the next argument.
    fn take_name(&mut self, text: &'a [u8]) -> Result<(), Error<'a>> {
        let (name, value) = split_once(text, &set_of(b'='));
        let flag = match Flag::from_name(name) {
            Ok(flag) => flag,
            Err(problem) => return Err(Error::Usage(problem, name)),
        };
        match (flag.takes(), value) {
            (Takes::Nothing, Some(_)) => Err(Error::Usage("the option takes no value", name)),
            (Takes::Nothing | Takes::Optional, None) => {
                self.options.settings.set(flag);
                Ok(())
            }
            _ => self.take_value(flag, name, value),
        }
    }

    /// Takes options by their letters. What follows the letter of an option with a value is the
    /// value; if nothing does, the next argument is. Digits are a number of lines around.
    fn take_letters(&mut self, letters: &'a [u8]) -> Result<(), Error<'a>> {
        let mut rest = letters;
        for _ in 0..letters.len() {
            let [letter, after @ ..] = rest else {
                break;
            };
            match Flag::from_letter(*letter) {
                Some(flag) if matches!(flag.takes(), Takes::Value) => {
                    let value = (!after.is_empty()).then_some(after);
                    return self.take_value(flag, letters, value);
                }
                Some(flag) => {
                    self.options.settings.set(flag);
                    rest = after;
                }
                None if letter.is_ascii_digit() => {
                    let (count, behind) = leading_number(rest);
                    self.options.settings.around = Some(count);
                    rest = behind;
                }
                None => return Err(Error::Usage("there is no such option", letters)),
            }
        }
        Ok(())
    }

    /// Sets an option to a value, or to the next argument if there is none.
    fn take_value(
        &mut self,
        flag: Flag,
        name: &'a [u8],
        value: Option<&'a [u8]>,
    ) -> Result<(), Error<'a>> {
        if let Some(value) = value {
            return self.set_value(flag, value);
        }
        match self.args.next() {
            Some(value) => self.set_value(flag, value.as_slice()),
            None => Err(Error::Usage("the option needs a value", name)),
        }
    }

    /// Sets an option that has a value.
    fn set_value(&mut self, flag: Flag, value: &'a [u8]) -> Result<(), Error<'a>> {
        match flag {
            Flag::Regexp => Ok(self.add_patterns(value)?),
            Flag::File => self.add_pattern_file(value),
            Flag::Exclude => Ok(self.options.globs.push_file(value, false)?),
            Flag::ExcludeDir => Ok(self.options.globs.push_dir(value)?),
            Flag::Include => Ok(self.options.globs.push_file(value, true)?),
            _ if self.options.settings.set_value(flag, value) => Ok(()),
            _ => Err(Error::Usage("the value is invalid", value)),
        }
    }

    /// Adds the patterns of a text, one a line.
    fn add_patterns(&mut self, text: &[u8]) -> Result<(), AllocError> {
        self.has_patterns = true;
        let ends = set_of(b'\n');
        let mut rest = Some(text);
        for _ in 0..=text.len() {
            let Some(lines) = rest else {
                break;
            };
            let (pattern, behind) = split_once(lines, &ends);
            let pattern = pattern.to_vec(self.rt.alloc())?;
            self.options.patterns.push(pattern)?;
            rest = behind;
        }
        Ok(())
    }

    /// Adds the patterns of a file, one a line: none if it is empty.
    fn add_pattern_file(&mut self, name: &'a [u8]) -> Result<(), Error<'a>> {
        let text = match read_file(self.rt, name) {
            Ok(text) => text,
            Err(error) => return Err(Error::PatternFile { name, error }),
        };
        self.has_patterns = true;
        match text.as_slice() {
            [] => Ok(()),
            [lines @ .., b'\n'] | lines => Ok(self.add_patterns(lines)?),
        }
    }
}

/// Returns the bytes of a file, or of standard input for `-`.
fn read_file(rt: &HostRuntime, name: &[u8]) -> io::Result<Vec<u8>> {
    match str::from_utf8(name) {
        Ok("-") => {
            let mut bytes = Vec::new(rt.alloc());
            rt.stdin().read_to_end(&mut bytes)?;
            Ok(bytes)
        }
        Ok(name) => fs::read(rt, name),
        Err(_) => Err(io::Error::from(io::ErrorKind::InvalidFilename)),
    }
}

impl<'a> Settings<'a> {
    /// Sets an option that has no value, or is given none.
    fn set(&mut self, flag: Flag) {
        match flag {
            Flag::BinaryAsText => self.binary = Binary::Text,
            Flag::BinarySkipped => self.binary = Binary::Skipped,
            Flag::Color => self.colors = Colors::IfTerminal,
            Flag::FixedStrings => self.is_fixed = true,
            Flag::ExtendedRegexp => self.is_fixed = false,
            Flag::IgnoreCase => self.ignores_case = true,
            Flag::Characters => self.reads_characters = true,
            Flag::WordRegexp => self.matches_words = true,
            Flag::LineRegexp => self.matches_lines = true,
            Flag::InvertMatch => self.inverts = true,
            Flag::NullData => self.terminator = 0,
            Flag::Recursive => self.is_recursive = true,
            Flag::DereferenceRecursive => {
                self.is_recursive = true;
                self.follows_links = true;
            }
            Flag::NoMessages => self.is_silent = true,
            Flag::Help => self.action = Action::PrintUsage,
            Flag::Version => self.action = Action::PrintVersion,
            _ => self.set_output(flag),
        }
    }

    /// Sets an option of what is printed.
    fn set_output(&mut self, flag: Flag) {
        match flag {
            Flag::ByteOffset => self.offsets = true,
            Flag::LineNumber => self.numbers = true,
            Flag::PatternNumber => self.pattern_numbers = true,
            Flag::Null => self.has_nulls = true,
            Flag::InitialTab => self.has_tabs = true,
            Flag::LineBuffered => self.is_line_buffered = true,
            Flag::WithFilename => self.names = Names::Always,
            Flag::NoFilename => self.names = Names::Never,
            Flag::NoGroupSeparator => self.separator = None,
            _ => self.shows = self.shows.or(flag),
        }
    }

    /// Sets an option to a value. Returns whether it is one of the option.
    fn set_value(&mut self, flag: Flag, value: &'a [u8]) -> bool {
        match (flag, number(value)) {
            (Flag::AfterContext, Some(count)) => self.after = Some(count),
            (Flag::BeforeContext, Some(count)) => self.before = Some(count),
            (Flag::Context, Some(count)) => self.around = Some(count),
            (Flag::MaxCount, Some(count)) => self.max_count = count,
            (Flag::BinaryFiles, _) => return self.set_binary(value),
            (Flag::Color, _) => return self.set_colors(value),
            (Flag::GroupSeparator, _) => self.separator = Some(value),
            (Flag::Label, _) => match str::from_utf8(value) {
                Ok(name) => self.label = name,
                Err(_) => return false,
            },
            _ => return false,
        }
        true
    }

    /// Sets how binary files are searched. Returns whether there is a way of this name.
    fn set_binary(&mut self, name: &[u8]) -> bool {
        if is_among(name, "binary") {
            self.binary = Binary::Noted;
        } else if is_among(name, "text") {
            self.binary = Binary::Text;
        } else if is_among(name, "without-match") {
            self.binary = Binary::Skipped;
        } else {
            return false;
        }
        true
    }

    /// Sets when colors are printed. Returns whether the name is one of these.
    fn set_colors(&mut self, name: &[u8]) -> bool {
        if is_among(name, "always yes force") {
            self.colors = Colors::Always;
        } else if is_among(name, "never no none") {
            self.colors = Colors::Never;
        } else if is_among(name, "auto tty if-tty") {
            self.colors = Colors::IfTerminal;
        } else {
            return false;
        }
        true
    }
}

impl Shows {
    /// Returns what is printed after one more option: of two of names what the later one says.
    fn or(self, flag: Flag) -> Shows {
        match (self, flag) {
            (Shows::Nothing, _) | (_, Flag::Quiet) => Shows::Nothing,
            (_, Flag::FilesWithMatches) => Shows::Names,
            (_, Flag::FilesWithoutMatch) => Shows::OtherNames,
            (Shows::Lines | Shows::Matches, Flag::Count) => Shows::Count,
            (Shows::Lines, Flag::OnlyMatching) => Shows::Matches,
            (shows, _) => shows,
        }
    }
}

/// Returns whether a name is one of these, which have spaces between them.
fn is_among(name: &[u8], names: &str) -> bool {
    for other in names.split(' ') {
        if other.as_bytes() == name {
            return true;
        }
    }
    false
}

/// Returns the number that a text is, or the greatest one if it is too great.
fn number(text: &[u8]) -> Option<u64> {
    match leading_number(text) {
        (number, []) if !text.is_empty() => Some(number),
        _ => None,
    }
}

/// Returns the number at the front of a text, or the greatest one if it is too great, and what
/// follows it.
fn leading_number(text: &[u8]) -> (u64, &[u8]) {
    let (mut number, mut rest) = (0_u64, text);
    for _ in 0..text.len() {
        let [byte, after @ ..] = rest else {
            break;
        };
        if !byte.is_ascii_digit() {
            break;
        }
        let digit = u64::from(byte.saturating_sub(b'0'));
        number = number.saturating_mul(10).saturating_add(digit);
        rest = after;
    }
    (number, rest)
}
