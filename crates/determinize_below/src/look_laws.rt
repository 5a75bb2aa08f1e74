//! Facts about assertions and sets of them, as contracts of public functions.
//!
//! The functions compute nothing. Two read the bits of their arguments, since the prover knows the
//! range of a set only where its bits are read.

ghost use Rattle.std.specs.Prelude.{◌≡◌, ℕ, Bool, true, false, not, ◌==◌, ◌&&◌, ◌||◌, Option, Some, List};
ghost use Rattle.std.specs.Bool.{Decides};
ghost use Rattle.std.specs.Int.{to_le_bytes, w32};
ghost use Rattle.std.specs.Option.{is_none};
ghost use Rattle.std.specs.List.{Any, list_any};
ghost use Rattle.determinize_below.specs.Classes as classes;
ghost use Rattle.determinize_below.specs.Edges.{assertion_in, IsTested};
ghost use Rattle.determinize_below.specs.Look as looks;
ghost use Rattle.determinize_below.specs.Look.{has};
ghost use Rattle.determinize_below.specs.Nfa.{looks_of, IsAccepted};
ghost use Rattle.determinize_below.specs.Semantics.{Nfa, Node, holds, is, is_word, crlf_second};
ghost use Rattle.determinize_below.specs.Truth as truth;
ghost use Rattle.determinize_below.specs.declared.look.Look.{Look as Assertion};

use crate::look::{Look, LookSet};

/// States that a set is determined by its members, and by its four bytes.
pub fn look_set_law(set: LookSet, other: LookSet)
    ensures members { ((l : Assertion) → has set l ≡ has other l) → set ≡ other }
    ensures bytes { to_le_bytes w32 set ≡ to_le_bytes w32 other → set ≡ other }
    ensures is_empty { Decides (set == 0) ((l : Assertion) → has set l ≡ false) }
{
    let _bits = (set.as_repr(), other.as_repr());
}

/// States what each method of a set does to the members.
pub fn look_member_law(set: LookSet, other: LookSet, look: Look, member: Look)
    ensures insert { has (looks.insert set look) look ≡ true }
    ensures insert_others { ¬ (member ≡ look)
        → has (looks.insert set look) member ≡ has set member }
    ensures remove { has (looks.remove set look) look ≡ false }
    ensures remove_others { ¬ (member ≡ look)
        → has (looks.remove set look) member ≡ has set member }
    ensures union { has (looks.union set other) member ≡ (has set member || has other member) }
    ensures intersect { has (looks.intersect set other) member
        ≡ (has set member && has other member) }
    ensures subtract { has (looks.subtract set other) member
        ≡ (has set member && not (has other member)) }
{
    let _bits = other.as_repr();
}

/// States that each test of a class of assertions is true exactly for the sets with a member of
/// that class.
pub fn look_class_law(set: LookSet)
    ensures haystack { looks.has_haystack set ≡ list_any (has set) classes.haystack_looks }
    ensures line { looks.has_line set ≡ list_any (has set) classes.line_looks }
    ensures crlf { looks.has_crlf set ≡ list_any (has set) classes.crlf_looks }
    ensures word { looks.has_word set ≡ list_any (has set) classes.word_looks }
{}

/// States that the assertions satisfied by the look-behind are those that hold for every next unit,
/// and gives a table of them.
pub fn known_law(reverse: bool, terminator: u8, before: Option<u8>, look: Look)
    ensures every { Decides (truth.is_known reverse terminator before look)
        ((q : Option ℕ) → truth.IsUnit q → holds reverse terminator before q look ≡ true) }
    ensures table { truth.is_known reverse terminator before look ≡ truth.behind_test
        (is_none before)
        (is_none before || is before terminator)
        (is_none before || is before (crlf_second reverse))
        (not (is_word before)) look }
{}

/// States that an assertion holds between two units if and only if the reversed one holds between
/// them in the other direction. Reversed twice, it is the assertion itself.
pub fn reversed_law(look: Look)
    ensures holds { (reverse : Bool) (t : ℕ) (p q : Option ℕ)
        → holds (not reverse) t q p (looks.reversed look) ≡ holds reverse t p q look }
    ensures twice { looks.reversed (looks.reversed look) ≡ look }
{}

/// States that the assertion set of some states, or of a valid NFA, contains exactly the assertions
/// that one of the states tests.
pub fn look_state_law(look: Look)
    ensures states { (states : List Node)
        → Decides (has (looks_of states) look) (Any (λ s. assertion_in s ≡ Some look) states) }
    ensures nfa { (nfa : Nfa) → IsAccepted nfa
        → Decides (has nfa.look_set_any look) (IsTested nfa look) }
{}
