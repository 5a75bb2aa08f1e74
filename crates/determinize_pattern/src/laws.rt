//! Laws of the ends of patterns and of compiled NFAs, as contracts of public functions.

ghost use Rattle.std.specs.Prelude.{◌≡◌, ◌<◌, ℕ, All, Bool, IsUtf8, List, Option, Some, true};
ghost use Rattle.determinize_below.specs.declared.look.Look.{Look as Assertion};
ghost use Rattle.determinize_pattern.specs.Characters.{IsCharClass, ReadsCharacters};
ghost use Rattle.determinize_pattern.specs.Examples.{a_or_lazy_star, a_or_nothing, a_then_lazy_b, boundary_or_a, first_end, lazy_star_inside, nothing_or_a, star_of_lazy, star_of_lazy_inside, star_of_star, star_or_b, text_aa, text_aab, text_ab, text_abb};
ghost use Rattle.determinize_pattern.specs.Laws.{AccentMatches, EachCharEndsOnce, EachCharIsPreferred, EachCharIsUtf8, EachEndIsBoundary, EachEndMatches, EachLeftmostIsOf, EachStartIsBoundary};
ghost use Rattle.determinize_pattern.specs.Lines.{EndsInLine, EndsInPlace, LeftmostInLine, NoneInLine, NoneIsFirst, SomeInLine, SomeIsFirst};
ghost use Rattle.determinize_pattern.specs.Meaning.{Look, Re};
ghost use Rattle.determinize_pattern.specs.Patterns.{IsClass, choice, literal, repeated, sequence};

/// States that the ends of a pattern are the positions to which it matches in some way.
pub fn ends_law()
    ensures { EachEndMatches }
{}

/// States that over an NFA of patterns the leftmost match of the runs is that of the patterns.
pub fn leftmost_of_law()
    ensures { EachLeftmostIsOf }
{}

/// States that the class of `é` matches its two bytes, and that a class of characters matches from
/// each position to one position at most, which is the preferred end, and only what is UTF-8.
pub fn chars_law()
    ensures accent { AccentMatches }
    ensures once { EachCharEndsOnce }
    ensures preferred { EachCharIsPreferred }
    ensures utf8 { EachCharIsUtf8 }
{}

/// States that a pattern matches only UTF-8 in a text that is UTF-8 if it is built of classes of
/// characters or of ASCII bytes, literals that are UTF-8 and assertions, and that each match of
/// such a pattern is from one boundary of characters to another, unless it is empty.
pub fn boundaries_law()
    ensures class { (test : ℕ → Bool) (re : Re) → IsCharClass test re → ReadsCharacters re }
    ensures ascii { (test : ℕ → Bool) (re : Re) → IsClass test re
        → ((b : ℕ) → b < 256 → test b ≡ true → b < 128) → ReadsCharacters re }
    ensures literal { (bytes : List ℕ) → IsUtf8 bytes → ReadsCharacters (literal bytes) }
    ensures look { (look : Assertion) → ReadsCharacters (Look look) }
    ensures sequence { (res : List Re) → All ReadsCharacters res
        → ReadsCharacters (sequence res) }
    ensures choice { (res : List Re) → All ReadsCharacters res → ReadsCharacters (choice res) }
    ensures repeated { (re : Re) → ReadsCharacters re → (min : ℕ) (max : Option ℕ) (greedy : Bool)
        → ReadsCharacters (repeated min max greedy re) }
    ensures end { EachEndIsBoundary }
    ensures start { EachStartIsBoundary }
{}

/// States that from a position of a line a pattern that does not read the line terminator has the
/// ends that it has in the line, between the bytes around it. If its assertions treat the
/// terminator as they treat an end of the text, these are the ends in the line as a text. So if the
/// leftmost match of a text begins in a line, it is that of the line as a text.
pub fn lines_law()
    ensures in_place { EndsInPlace }
    ensures in_line { EndsInLine }
    ensures leftmost { LeftmostInLine }
    ensures none { NoneInLine }
    ensures some { SomeInLine }
{}

/// States that one search of a block of lines finds the first line with a match, if the matches of
/// the patterns stay in a line: it is the line in which the leftmost match ends. A terminator at
/// the end of the block is not searched, since no line begins after it.
pub fn first_line_law()
    ensures none { NoneIsFirst }
    ensures some { SomeIsFirst }
{}

/// States the end of the preferred match for loops whose body may read nothing, where engines
/// differ.
#[tactic(auto, unfolding(determinize_below::specs::Semantics::is_word_byte))]
pub fn loops_law()
    ensures a_or_nothing { first_end text_aab a_or_nothing ≡ Some 2 }
    ensures nothing_or_a { first_end text_aa nothing_or_a ≡ Some 0 }
    ensures star_of_star { first_end text_aa star_of_star ≡ Some 2 }
    ensures star_of_lazy { first_end text_aa star_of_lazy ≡ Some 0 }
    ensures boundary_or_a { first_end text_aa boundary_or_a ≡ Some 0 }
    ensures star_or_b { first_end text_ab star_or_b ≡ Some 2 }
    ensures a_or_lazy_star { first_end text_abb a_or_lazy_star ≡ Some 3 }
    ensures a_then_lazy_b { first_end text_ab a_then_lazy_b ≡ Some 2 }
    ensures lazy_star_inside { first_end text_aab lazy_star_inside ≡ Some 2 }
    ensures star_of_lazy_inside { first_end text_aab star_of_lazy_inside ≡ Some 2 }
{}
