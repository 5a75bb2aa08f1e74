//! All matches of patterns in a text of several pieces.

ghost use Rattle.std.specs.Prelude.{[], IfOk, map};
ghost use Rattle.std.specs.List.{concat};
ghost use Rattle.determinize_find.specs.Streams.{whole};
ghost use Rattle.determinize_regex.specs.Regexes.{AreAll};
ghost use Rattle.determinize_regex.specs.Streams.{IsStreamOf};

use determinize_regex::{Match, Stream};
use std::alloc::{AllocError, Global};

/// Returns all matches in a text of which these are the pieces, in their order. The stream must
/// have read nothing yet, as `Regex::stream` returns it.
pub fn all_matches(
    alloc: Global,
    stream: &mut Stream<'_>,
    pieces: &[&[u8]],
) -> Result<Vec<Match>, AllocError>
    requires { IsStreamOf stream.old [] [] }
    ensures { IfOk result (λ found. AreAll stream.old.regex
        (whole (concat (map (λ piece. piece.now) pieces.now))) found.items) }
{
    let mut found = Vec::new(alloc);
    for piece in pieces {
        stream.feed(piece, &mut found)?;
    }
    stream.finish(&mut found)?;
    Ok(found)
}
