//! Texts without the matches of patterns: the parts between them, or other bytes in their place.

ghost use Rattle.std.specs.Prelude.{◌≡◌, IfOk, List, None, length, map};
ghost use Rattle.determinize_below.specs.declared.search.Match.{Match as Found};
ghost use Rattle.determinize_find.specs.Matches.{AreApart};
ghost use Rattle.determinize_regex.specs.Parts.{AreParts, AreWholeIn, IsReplaced, IsReplacedBy, parts};
ghost use Rattle.determinize_regex.specs.Regexes.{AreAllIn};

use crate::regex::Regex;
use crate::utf8::retain_whole;
use determinize_below::{AsNfa, Input, Match};
use determinize_pattern::Pattern;
use std::alloc::{AllocError, Allocator};
use std::convert::AsSlice;

impl<P: AsSlice<Pattern> + Drop, R: AsNfa, A: Allocator + Copy> Regex<P, R, A> {
    /// Returns the parts of a text between its matches, in their order: one more than there are
    /// matches, and each may be empty. The list is allocated from `alloc`.
    pub fn split<'h, C: Allocator + Copy>(
        &mut self,
        alloc: C,
        haystack: &'h [u8],
    ) -> Result<Vec<&'h [u8], C>, AllocError>
        ensures parts { IfOk result (λ cut. AreParts (AreAllIn self.old haystack.now)
            haystack.now (map (λ part. part.now) cut.items)) }
        ensures same { self.new ≡ self.old }
    {
        let found = self.matches_in(alloc, haystack)?;
        split_at(alloc, haystack, &found)
    }

    /// Returns a text with other bytes in place of each match. They are taken as they are: a `$1`
    /// is no group, since there are no captures. The new text is allocated from `alloc`.
    pub fn replace_all<C: Allocator + Copy>(
        &mut self,
        alloc: C,
        haystack: &[u8],
        replacement: &[u8],
    ) -> Result<Vec<u8, C>, AllocError>
        ensures replaced { IfOk result (λ new. IsReplaced (AreAllIn self.old haystack.now)
            haystack.now replacement.now new.items) }
        ensures same { self.new ≡ self.old }
    {
        self.replace_with(alloc, haystack, |_| replacement)
    }

    /// Returns a text in which each match is replaced by the bytes that a function returns for it,
    /// for instance by the number of its pattern. The new text is allocated from `alloc`.
    ///
    /// The function is called once for each match, in their order, and each call sees what the
    /// calls before it have changed. The contract does not say what is in a variable that the
    /// function changes after the last call.
    pub fn replace_with<'t, C: Allocator + Copy, F: FnMut(&Match) -> &'t [u8]>(
        &mut self,
        alloc: C,
        haystack: &[u8],
        replacement: F,
    ) -> Result<Vec<u8, C>, AllocError>
        requires { F.IsAlwaysCallable replacement }
        ensures replaced { IfOk result (λ new. (found : List Found)
            × AreAllIn self.old haystack.now found × IsReplacedBy
            (λ p x q. (shown : _) × (shown.now ≡ x.0) × F.step p shown x.1 q) replacement
            found haystack.now new.items) }
        ensures same { self.new ≡ self.old }
    {
        let found = self.matches_in(alloc, haystack)?;
        replace_each(alloc, haystack, &found, replacement)
    }

    /// Returns the parts of a text between its matches, as `split`, but does not cut the text at
    /// the empty matches inside an encoded character. The text should be UTF-8.
    pub fn split_utf8<'h, C: Allocator + Copy>(
        &mut self,
        alloc: C,
        haystack: &'h [u8],
    ) -> Result<Vec<&'h [u8], C>, AllocError>
        ensures parts { IfOk result (λ cut. AreParts (AreWholeIn self.old haystack.now)
            haystack.now (map (λ part. part.now) cut.items)) }
        ensures same { self.new ≡ self.old }
    {
        let mut found = self.matches_in(alloc, haystack)?;
        retain_whole(haystack, &mut found);
        split_at(alloc, haystack, &found)
    }

    /// Returns a text with other bytes in place of each match, as `replace_all`, but puts none
    /// inside an encoded character for an empty match there. The text should be UTF-8.
    pub fn replace_all_utf8<C: Allocator + Copy>(
        &mut self,
        alloc: C,
        haystack: &[u8],
        replacement: &[u8],
    ) -> Result<Vec<u8, C>, AllocError>
        ensures replaced { IfOk result (λ new. IsReplaced (AreWholeIn self.old haystack.now)
            haystack.now replacement.now new.items) }
        ensures same { self.new ≡ self.old }
    {
        let mut found = self.matches_in(alloc, haystack)?;
        retain_whole(haystack, &mut found);
        replace_each(alloc, haystack, &found, |_| replacement)
    }

    /// Returns all matches of a text, in their order.
    fn matches_in<C: Allocator>(
        &mut self,
        alloc: C,
        text: &[u8],
    ) -> Result<Vec<Match, C>, AllocError>
        ensures all { IfOk result (λ found. AreAllIn self.old text.now found.items) }
        ensures apart { IfOk result (λ found. AreApart 0 None (length text.now) found.items) }
        ensures same { self.new ≡ self.old }
    {
        self.search.find_all(alloc, &Input::new(text))
    }
}

/// Returns the parts of a text between matches.
fn split_at<'h, C: Allocator>(
    alloc: C,
    text: &'h [u8],
    found: &[Match],
) -> Result<Vec<&'h [u8], C>, AllocError>
    requires { AreApart 0 None (length text.now) found.now }
    ensures { IfOk result
        (λ cut. map (λ part. part.now) cut.items ≡ parts text.now 0 found.now) }
{
    let mut cut = Vec::new(alloc);
    let mut at = 0;
    for next in found {
        cut.push(&text[at..next.start])?;
        at = next.end;
    }
    cut.push(&text[at..])?;
    Ok(cut)
}

/// Returns a text with, in place of each match, the bytes that a function returns for it.
fn replace_each<'t, C: Allocator, F: FnMut(&Match) -> &'t [u8]>(
    alloc: C,
    text: &[u8],
    found: &[Match],
    replacement: F,
) -> Result<Vec<u8, C>, AllocError>
    requires apart { AreApart 0 None (length text.now) found.now }
    requires callable { F.IsAlwaysCallable replacement }
    ensures { IfOk result (λ new. IsReplacedBy
        (λ p x q. (shown : _) × (shown.now ≡ x.0) × F.step p shown x.1 q) replacement
        found.now text.now new.items) }
{
    let mut call = replacement;
    let mut new = Vec::new(alloc);
    let mut at = 0;
    for next in found {
        new.extend_from_slice(&text[at..next.start])?;
        new.extend_from_slice(call(next))?;
        at = next.end;
    }
    new.extend_from_slice(&text[at..])?;
    Ok(new)
}
