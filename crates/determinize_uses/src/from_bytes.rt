//! A DFA that is read from bytes: it cuts a text into tokens, or finds all its matches, in a number
//! of steps linear in the length of the text.

use determinize_below::{Input, Match, MatchKind};
use determinize_linear::{dense, lexer};
use determinize_stored::{FormatError, StoredDfa};
use std::alloc::{AllocError, Global};

/// An error of `tokens_or_matches`.
#[derive(Debug, Drop)]
pub enum Error {
    /// The bytes do not have the format of a DFA.
    Format(FormatError),
    /// The NFA of the DFA reads backward.
    Backward,
    /// An allocation failed.
    Alloc(AllocError),
}

/// Returns the tokens of a text by a DFA for `MatchKind::All`, and all its matches by one for
/// `MatchKind::LeftmostFirst`, from each index on.
pub fn tokens_or_matches(alloc: Global, bytes: &[u8], text: &[u8]) -> Result<Vec<Match>, Error> {
    let dfa = StoredDfa::from_bytes(bytes).map_err(Error::Format)?;
    if dfa.is_reverse() {
        return Err(Error::Backward);
    }
    let input = Input::new(text);
    let found = match dfa.match_kind() {
        MatchKind::All => lexer::tokens(alloc, &dfa, &input),
        MatchKind::LeftmostFirst => dense::find_all(alloc, &dfa, &input),
    };
    found.map_err(Error::Alloc)
}
