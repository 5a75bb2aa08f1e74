//! Patterns whose matches stay in a line.
//!
//! One search of a block of lines then finds the first of its lines that has a match, as
//! `first_line_law` of [`laws`](crate::laws) states.

ghost use Rattle.std.specs.Prelude.{◌≡◌, map};
ghost use Rattle.determinize_pattern.specs.Lines as lines;
ghost use Rattle.determinize_pattern.specs.Lines.{all_stay};
ghost use Rattle.determinize_pattern.specs.Patterns.{meaning};

use crate::pattern::Pattern;
use determinize_below::Look;
use determinize_below::alphabet::is_word_byte;

/// Returns whether no pattern reads the line terminator, and all assertions treat it as they treat
/// an end of the text. Then the leftmost match of a text is that of the first line that has one, if
/// this line is taken as a text. What is repeated zero times does not count. The recursion is as
/// deep as the patterns are nested.
///
/// - `terminator` is the line terminator of the options that the patterns are compiled with.
#[cycle(stay_in_lines)]
pub fn stay_in_lines(patterns: &[Pattern], terminator: u8) -> bool
    ensures { result ≡ all_stay terminator (map meaning patterns.now) }
{
    for i in 0..patterns.len() {
        if !stays_in_line(&patterns[i], terminator) {
            return false;
        }
    }
    true
}

/// Returns the same for one pattern.
#[cycle(stay_in_lines)]
fn stays_in_line(pattern: &Pattern, terminator: u8) -> bool
    ensures { result ≡ lines.stays_in_line terminator (meaning pattern.now) }
{
    match pattern {
        Pattern::Empty => true,
        Pattern::Literal(bytes) => !bytes.contains(&terminator),
        Pattern::Class(class) => !class.contains(terminator),
        Pattern::Look(look) => is_of_lines(*look, terminator),
        Pattern::Repetition { min, max, sub, .. } => {
            (*min == 0 && *max == Some(0)) || stays_in_line(sub, terminator)
        }
        Pattern::Capture(sub) => stays_in_line(sub, terminator),
        Pattern::Concat(subs) | Pattern::Alternation(subs) => stay_in_lines(subs, terminator),
    }
}

/// Returns whether the assertion does not distinguish the byte that ends a line from an end of the
/// text: one about words does if that byte is a word byte.
fn is_of_lines(look: Look, terminator: u8) -> bool
    ensures { result ≡ lines.is_of_lines terminator look }
{
    match look {
        Look::Start | Look::End | Look::StartCRLF | Look::EndCRLF => false,
        Look::StartLF | Look::EndLF => true,
        _ => !is_word_byte(terminator),
    }
}
