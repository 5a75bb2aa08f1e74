//! A choice of words as a prefix tree: a prefix that neighbors share is compiled once.
//!
//! A word may be preferred to a later one that begins with it, so no word passes one that has
//! ended. Between two such words, those that begin with the same byte come together, in their
//! order: where one of them matches, the others do not.

ghost use Rattle.std.specs.Prelude.{◌≡◌, ◌≤◌, ◌+◌, ◌⊎◌, All, IfOk, IfSome, OnOk, Some, drop, length, nat_lt, slice_get, take, true};
ghost use Rattle.std.specs.Option.{option_map_or};
ghost use Rattle.determinize_pattern.specs.Patterns as patterns;
ghost use Rattle.determinize_pattern.specs.Private.Compiling.{IsBegun, Paid};
ghost use Rattle.determinize_pattern.specs.Private.Words.{AddsByte, HasByte, IsLeastByte, IsTree, SharesPrefix, begins_with, rests_after, words_from};

use crate::compiler::Compiler;
use crate::nfa::CompileError;
use determinize_below::StateID;
use determinize_below::nfa::Transition;
use std::alloc::Allocator;
use std::marker::Model;

/// A word, and the state that follows it.
#[derive(Drop)]
pub struct Word<A: Allocator> {
    bytes: Vec<u8, A>,
    next: StateID,
}

impl<A: Allocator> Model for Word<A> {
    ghost use Rattle.std.specs.Prelude.{ℕ, List};

    ghost Value = { List ℕ × ℕ };

    ghost view = { λ w. (w.bytes.items, w.next) };
}

impl<A: Allocator> Word<A> {
    /// Returns the word of these bytes in front of a state.
    pub fn new(bytes: Vec<u8, A>, next: StateID) -> Word<A>
        ensures { result ≡ (bytes.items, next) }
    {
        Word { bytes, next }
    }

    /// Returns the state that follows the word.
    fn next(&self) -> StateID
        ensures { result ≡ self.now.1 }
    {
        self.next
    }

    /// Returns the bytes of the word from a place on.
    fn rest(&self, place: usize) -> &[u8]
        ensures rest { result.now ≡ drop place self.now.0 }
        ensures small { place + length result.now ≤ usize.MAX }
    {
        if place >= self.bytes.len() {
            return &[];
        }
        &self.bytes[place..]
    }

    /// Returns the byte of the word at a place.
    fn byte(&self, place: usize) -> Option<u8>
        ensures byte { result ≡ slice_get (drop place self.now.0) 0 }
        ensures small { IfSome result (λ _. place + 1 ≤ usize.MAX) }
    {
        self.rest(place).first().copied()
    }

    /// Returns whether the word has the byte at a place.
    fn has(&self, place: usize, byte: u8) -> bool
        ensures { result ≡ begins_with byte (drop place self.now.0) }
    {
        match self.byte(place) {
            Some(other) => other == byte,
            None => false,
        }
    }
}

/// How many branches a word may pass before it shares no more states with others.
const LEVELS: u32 = 100;

impl<A: Allocator + Copy> Compiler<A> {
    /// Adds the states of a choice of words, each in front of its state, and returns where they
    /// begin. The earlier words are preferred.
    pub fn words(&mut self, words: &[Word<A>]) -> Result<StateID, CompileError>
        ensures tree { IfOk result
            (λ s. IsTree self.old.builder self.new.builder words.now s) }
        ensures paid { OnOk result
            (Paid self.old.builder self.old.left self.new.builder self.new.left) }
    {
        let mut all = Vec::new(self.alloc);
        for word in words {
            all.push(word)?;
        }
        self.tree(&all, 0, LEVELS)
    }

    /// Adds the states of what is left of words from a place on, each in front of its state, and
    /// returns where they begin. The earlier words are preferred. Where `levels` is 0 they share no
    /// states.
    #[cycle(tree)]
    fn tree(
        &mut self,
        words: &[&Word<A>],
        place: usize,
        levels: u32,
    ) -> Result<StateID, CompileError>
        ensures tree { IfOk result (λ s.
            IsTree self.old.builder self.new.builder (words_from place words.now) s) }
        ensures paid { OnOk result
            (Paid self.old.builder self.old.left self.new.builder self.new.left) }
    {
        let mut starts = Vec::new(self.alloc);
        let mut from = 0;
        while from < words.len() {
            let left = &words[from..];
            let count = count_longer(left, place);
            if levels == 0 || count == 0 {
                let word = words[from];
                let start = self.in_front(word.rest(place), word.next())?;
                starts.push(start)?;
                from += 1;
            } else {
                let start = self.group(&left[..count], place, levels - 1)?;
                starts.push(start)?;
                from += count;
            }
        }
        self.join(&starts)
    }

    /// Adds the states of words that are longer than the place: the prefix that all share, in front
    /// of the tree of what is left.
    #[cycle(tree)]
    fn group(
        &mut self,
        words: &[&Word<A>],
        place: usize,
        levels: u32,
    ) -> Result<StateID, CompileError>
        requires { All HasByte (words_from place words.now) }
        ensures tree { IfOk result (λ s.
            IsTree self.old.builder self.new.builder (words_from place words.now) s) }
        ensures paid { OnOk result
            (Paid self.old.builder self.old.left self.new.builder self.new.left) }
    {
        if words.is_empty() {
            return self.fail();
        }
        let first = words[0].rest(place);
        let count = count_shared(first, words, place);
        if count == 0 {
            return self.by_byte(words, place, levels);
        }
        let next = self.tree(words, place + count, levels)?;
        self.in_front(&first[..count], next)
    }

    /// Adds a state that reads the next byte of the words, in front of the trees of what is left.
    #[cycle(tree)]
    fn by_byte(
        &mut self,
        words: &[&Word<A>],
        place: usize,
        levels: u32,
    ) -> Result<StateID, CompileError>
        requires { All HasByte (words_from place words.now) }
        ensures tree { IfOk result (λ s.
            IsTree self.old.builder self.new.builder (words_from place words.now) s) }
        ensures paid { OnOk result
            (Paid self.old.builder self.old.left self.new.builder self.new.left) }
    {
        let mut transitions = Vec::new(self.alloc);
        let mut from = 0;
        while let Some(byte) = least_byte(words, place, from) {
            let next_words = self.with_byte(words, place, byte)?;
            let next = self.tree(&next_words, place + 1, levels)?;
            transitions.push(Transition {
                start: byte,
                end: byte,
                next,
            })?;
            from = byte as usize + 1;
        }
        self.spend(1)?;
        Ok(self.builder.add_sparse(&transitions)?)
    }

    /// Returns the words that have the byte at the place.
    fn with_byte<'w>(
        &self,
        words: &[&'w Word<A>],
        place: usize,
        byte: u8,
    ) -> Result<Vec<&'w Word<A>, A>, CompileError>
        ensures { IfOk result (λ v. words_from (place + 1) v.items
            ≡ rests_after byte (words_from place words.now)) }
    {
        let mut found = Vec::new(self.alloc);
        for word in words {
            if word.has(place, byte) {
                found.push(*word)?;
            }
        }
        Ok(found)
    }

    /// Adds the states of the bytes in front of a state, and returns where they begin.
    fn in_front(&mut self, bytes: &[u8], next: StateID) -> Result<StateID, CompileError>
        ensures begun { IfOk result (λ s. IsBegun self.old.builder self.new.builder
            (patterns.literal bytes.now) next s) }
        ensures paid { OnOk result
            (Paid self.old.builder self.old.left self.new.builder self.new.left) }
    {
        let mut ids = [next];
        self.literal(bytes, &mut ids)?;
        Ok(ids[0])
    }
}

/// Returns how many words there are before the first one that ends at the place.
fn count_longer<A: Allocator>(words: &[&Word<A>], place: usize) -> usize
    ensures within { result ≤ length words.now }
    ensures longer { All HasByte (words_from place (take result words.now)) }
{
    for i in 0..words.len() {
        if words[i].rest(place).is_empty() {
            return i;
        }
    }
    words.len()
}

/// Returns the least byte that a word has at the place and that is not below `from`.
fn least_byte<A: Allocator>(words: &[&Word<A>], place: usize, from: usize) -> Option<u8>
    ensures least { IsLeastByte (words_from place words.now) from result }
    ensures small { IfSome result (λ _. place + 1 ≤ usize.MAX) }
{
    let mut least = None;
    for word in words {
        least = lesser(least, word.byte(place), from);
    }
    least
}

/// Returns the byte if it is not below `from` and below the least one so far, and else that one.
fn lesser(least: Option<u8>, byte: Option<u8>, from: usize) -> Option<u8>
    ensures added { AddsByte from least byte result }
    ensures one { IfSome result (λ x. (least ≡ Some x) ⊎ (byte ≡ Some x)) }
{
    match byte {
        Some(byte) if byte as usize >= from && is_below(byte, least) => Some(byte),
        _ => least,
    }
}

/// Returns whether the byte is below another, if there is one.
fn is_below(byte: u8, other: Option<u8>) -> bool
    ensures { result ≡ option_map_or (λ x. nat_lt byte x) other true }
{
    match other {
        Some(other) => byte < other,
        None => true,
    }
}

/// Returns how many of these bytes all words have from the place on.
fn count_shared<A: Allocator>(bytes: &[u8], words: &[&Word<A>], place: usize) -> usize
    ensures within { result ≤ length bytes.now }
    ensures shared { All (SharesPrefix (take result bytes.now)) (words_from place words.now) }
{
    let mut count = bytes.len();
    for word in words {
        count = count_equal(&bytes[..count], word.rest(place));
    }
    count
}

/// Returns the length of the longest prefix that both have.
fn count_equal(one: &[u8], other: &[u8]) -> usize
    ensures within { result ≤ length one.now }
    ensures equal { take result other.now ≡ take result one.now }
{
    for i in 0..one.len().min(other.len()) {
        if one[i] != other[i] {
            return i;
        }
    }
    one.len().min(other.len())
}
