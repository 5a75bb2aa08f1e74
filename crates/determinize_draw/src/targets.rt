//! The target of each byte, and the edges to the targets.

ghost use Rattle.std.specs.Prelude.{◌<◌};

use std::fmt;

/// The number of units: the bytes and, last, one for what is no byte.
pub(crate) const UNITS: usize = 257;

/// The index of the unit that is no byte.
pub(crate) const NO_BYTE: usize = 256;

/// The state after each unit, if any.
pub(crate) type Targets = [Option<usize>; UNITS];

/// Writes the first lines of a graph with this name.
pub(crate) fn write_head<W: fmt::Write>(f: &mut fmt::Formatter<W>, name: &str) -> fmt::Result {
    write!(
        f,
        "digraph {name} {{\n  rankdir=LR;\n  node [shape=circle];\n"
    )
}

/// Writes an edge to each target, in the order of their least units.
///
/// - `behind` comes before the units of each label, and `no_byte` is the name of what is no byte.
pub(crate) fn write_edges<W: fmt::Write>(
    f: &mut fmt::Formatter<W>,
    from: &impl fmt::Display,
    targets: &Targets,
    behind: &str,
    no_byte: &str,
) -> fmt::Result {
    for (unit, target) in targets.iter().enumerate() {
        let Some(to) = *target else {
            continue;
        };
        if !targets[..unit].contains(target) {
            write!(f, "  {from} -> {to} [label=\"{behind}")?;
            write_units(f, targets, to, no_byte)?;
            f.write_str("\"];\n")?;
        }
    }
    Ok(())
}

/// Writes the units of a target: bytes as ranges, and last the name of what is no byte.
fn write_units<W: fmt::Write>(
    f: &mut fmt::Formatter<W>,
    targets: &Targets,
    target: usize,
    no_byte: &str,
) -> fmt::Result {
    let mut separator = "";
    let mut first = None;
    for byte in 0..=u8::MAX {
        if targets[usize::from(byte)] != Some(target) {
            continue;
        }
        let start = first.unwrap_or(byte);
        first = Some(start);
        if byte == u8::MAX || targets[usize::from(byte) + 1] != Some(target) {
            f.write_str(separator)?;
            write_range(f, start, byte)?;
            separator = ", ";
            first = None;
        }
    }
    if targets[NO_BYTE] == Some(target) {
        f.write_str(separator)?;
        f.write_str(no_byte)?;
    }
    Ok(())
}

/// Writes a range of bytes, or its only byte.
pub(crate) fn write_range<W: fmt::Write>(
    f: &mut fmt::Formatter<W>,
    start: u8,
    end: u8,
) -> fmt::Result {
    write_byte(f, start)?;
    if start != end {
        f.write_str("-")?;
        write_byte(f, end)?;
    }
    Ok(())
}

/// Writes a byte as its sign in ASCII, or in hexadecimal, as `\x0a`. So are written the signs that
/// a label uses, and those that Graphviz does not show as they are.
fn write_byte<W: fmt::Write>(f: &mut fmt::Formatter<W>, byte: u8) -> fmt::Result {
    if byte.is_ascii_graphic() && !matches!(byte, b'"' | b',' | b'-' | b'\\') {
        f.write_char(char::from(byte))
    } else {
        write!(f, "\\\\x{byte:02x}")
    }
}
