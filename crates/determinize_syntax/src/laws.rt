//! Laws of the texts of patterns, as contracts of public functions.

ghost use Rattle.std.specs.Prelude.{◌≡◌, List, codes, false, true, ℕ};
ghost use Rattle.determinize_pattern.specs.Characters.{ReadsCharacters};
ghost use Rattle.determinize_pattern.specs.Meaning.{Re};
ghost use Rattle.determinize_syntax.specs.Spells.{SpellsUnder};
ghost use Rattle.determinize_syntax.specs.Unicode.{clears_unicode};
ghost use Rattle.determinize_syntax.specs.declared.flags.Flags.{Flags};

/// States that a pattern matches only UTF-8 in a text that is UTF-8 if the flag `u` holds where the
/// text of the pattern begins, and nothing in it clears the flag; and which of two texts clears it.
pub fn characters_law()
    ensures characters { (flags : Flags) (re : Re) (text : List ℕ) → SpellsUnder flags re text
        → flags.unicode ≡ true → clears_unicode text ≡ false → ReadsCharacters re }
    ensures kept { clears_unicode (codes "x(?s-m:[a-u]+)") ≡ false }
    ensures cleared { clears_unicode (codes "x(?s-mu:y)") ≡ true }
{}
