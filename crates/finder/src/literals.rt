//! Texts that the matches of patterns contain, by the form of the patterns. At each place of a text
//! is one byte or one of a few, as the two cases of a letter.

use crate::pairs::Pair;
use byte_set::ByteSet;
use determinize_regex::{ClassBytes, Pattern};
use std::alloc::{AllocError, Global};
use std::mem;

/// Bytes of prose and of sources, the most frequent first. All others are rarer.
const FREQUENT: &[u8] = b" etnsroia\n_lcdupmf().,h*-g0\xD0\xD1\xE2ybSETkOARNILC1xvw/:PDM#=F;\"2";

/// How many of these are in most lines.
const IN_MOST_LINES: usize = 12;

/// The most texts that are sought at once.
const MOST: usize = 4;

/// The most bytes of a place.
const FEW: usize = 4;

/// Texts of which each match contains one.
#[derive(Drop)]
pub struct Literals {
    literals: Vec<Literal>,
    /// The bytes of the rarest place of each.
    rarest: ByteSet,
    /// Two bytes of the text, if there is one text.
    pair: Option<Places>,
    /// Whether each of the texts is a match, wherever it occurs.
    are_matches: bool,
}

/// Two places of a text with one byte each.
#[derive(Clone, Copy)]
struct Places {
    pair: Pair,
    /// How far the rarest place of the text is behind the first of them.
    to_rarest: usize,
}

/// A text that each match of a branch contains.
#[derive(Drop)]
struct Literal {
    places: Vec<Place>,
    /// The index of its rarest place.
    rarest: usize,
    /// Whether it is a match, wherever it occurs.
    is_match: bool,
}

/// A place in a text.
#[derive(Clone, Copy)]
struct Place {
    /// The bytes that it may have. If they are fewer, the last ones are the same.
    bytes: [u8; FEW],
    /// How rare the most frequent one is.
    rank: usize,
}

/// A walk through a branch, from left to right.
#[derive(Drop)]
struct Walk {
    /// Places that each match contains in a row, the last one where the walk is.
    run: Vec<Place>,
    /// The longest row that has ended.
    longest: Vec<Place>,
    /// Whether the row is a match of what was walked through, wherever it occurs.
    is_match: bool,
}

impl Literals {
    /// Returns texts of which each match of the patterns contains one, if their form shows such
    /// texts, which are few and rare. None of them has the byte that ends a line, so each is within
    /// one line.
    pub fn of(
        alloc: Global,
        patterns: &[Pattern],
        terminator: u8,
    ) -> Result<Option<Literals>, AllocError> {
        let mut literals = Vec::new(alloc);
        push_all(alloc, patterns, &mut literals)?;
        let are_sought = are_sought(&literals, terminator);
        let literals = Literals {
            rarest: rarest_of(&literals),
            pair: match literals.as_slice() {
                [literal] => literal.rarest_pair(),
                _ => None,
            },
            are_matches: are_matches(&literals),
            literals,
        };
        Ok(are_sought.then_some(literals))
    }

    /// Returns whether each line that contains one of the texts has a match.
    pub fn are_matches(&self) -> bool {
        self.are_matches
    }

    /// Returns the first index in a block at which one of the texts has its rarest place.
    pub fn find(&self, block: &[u8]) -> Option<usize> {
        let mut from = 0;
        for _ in 0..block.len() {
            if from >= block.len() {
                break;
            }
            let at = self.candidate(block, from)?;
            if self.is_at(block, at) {
                return Some(at);
            }
            from = at.saturating_add(1);
        }
        None
    }

    /// Returns the first index from `from` on at which one of the texts may have its rarest place.
    fn candidate(&self, block: &[u8], from: usize) -> Option<usize> {
        let Some(places) = &self.pair else {
            return self.rarest.find(block, from.min(block.len()), block.len());
        };
        let first = places
            .pair
            .find(block, from.saturating_sub(places.to_rarest))?;
        Some(first.saturating_add(places.to_rarest))
    }

    /// Returns whether one of the texts is in a block, its rarest byte at an index.
    fn is_at(&self, block: &[u8], at: usize) -> bool {
        for literal in &self.literals {
            if literal.is_at(block, at) {
                return true;
            }
        }
        false
    }
}

impl Place {
    /// Returns the place of a byte.
    fn of_byte(byte: u8) -> Place {
        Place {
            bytes: [byte; FEW],
            rank: rank(byte),
        }
    }

    /// Returns the place of a class, if it has few bytes.
    fn of_class(class: &ClassBytes) -> Option<Place> {
        let mut bytes = [0; FEW];
        let (mut count, mut lowest) = (0_usize, FREQUENT.len());
        for byte in 0..=u8::MAX {
            if has_byte(class, byte) {
                if count >= FEW {
                    return None;
                }
                for place in count..FEW {
                    bytes[place] = byte;
                }
                lowest = lowest.min(rank(byte));
                count = count.saturating_add(1);
            }
        }
        let rank = lowest;
        (count > 0).then_some(Place { bytes, rank })
    }

    /// Returns whether it may have a byte.
    fn may_have(&self, byte: u8) -> bool {
        self.bytes.contains(&byte)
    }
}

impl Literal {
    /// Returns the text of these places.
    fn new(places: Vec<Place>, is_match: bool) -> Literal {
        let (mut rarest, mut highest) = (0, 0);
        for (index, place) in places.iter().enumerate() {
            if place.rank > highest {
                (rarest, highest) = (index, place.rank);
            }
        }
        Literal {
            places,
            rarest,
            is_match,
        }
    }

    /// Returns its rarest place and the rarest of the others, if both have one byte. A byte that is
    /// rare alone is found sooner.
    fn rarest_pair(&self) -> Option<Places> {
        if self.places.get(self.rarest)?.rank >= FREQUENT.len() {
            return None;
        }
        let (mut other, mut highest) = (None, 0);
        for (index, place) in self.places.iter().enumerate() {
            if index != self.rarest && place.rank >= highest {
                (other, highest) = (Some(index), place.rank);
            }
        }
        let (first, last) = (self.rarest.min(other?), self.rarest.max(other?));
        let (start, end) = (self.byte_at(first)?, self.byte_at(last)?);
        Some(Places {
            pair: Pair::new(start, end, last.saturating_sub(first)),
            to_rarest: self.rarest.saturating_sub(first),
        })
    }

    /// Returns the byte of a place, if it has one byte.
    fn byte_at(&self, index: usize) -> Option<u8> {
        let byte = self.places.get(index)?.bytes[0];
        (self.places.get(index)?.bytes == [byte; FEW]).then_some(byte)
    }

    /// Returns whether a search for the text passes most lines: whether it has several places, or a
    /// rare one.
    fn is_rare(&self) -> bool {
        match self.places.as_slice() {
            [place] => place.rank >= IN_MOST_LINES,
            places => !places.is_empty(),
        }
    }

    /// Returns whether the text may have a byte.
    fn may_have(&self, byte: u8) -> bool {
        for place in &self.places {
            if place.may_have(byte) {
                return true;
            }
        }
        false
    }

    /// Returns whether the text is in a block, its rarest place at an index.
    fn is_at(&self, block: &[u8], at: usize) -> bool {
        let Some(start) = at.checked_sub(self.rarest) else {
            return false;
        };
        let text = block.get(start..).unwrap_or(&[]);
        if text.len() < self.places.len() {
            return false;
        }
        for (place, byte) in self.places.iter().zip(text) {
            if !place.may_have(*byte) {
                return false;
            }
        }
        true
    }
}

impl Walk {
    /// Walks through a part of the branch.
    #[cycle(walk)]
    fn pass(&mut self, pattern: &Pattern) -> Result<(), AllocError> {
        match pattern {
            // What is before it and what is behind it are in a row.
            Pattern::Empty => {}
            // The same, but there may be no match where the row occurs.
            Pattern::Look(_) => self.is_match = false,
            Pattern::Literal(bytes) => self.pass_bytes(bytes)?,
            // Little is known of a byte if the class has many.
            Pattern::Class(class) => match Place::of_class(class) {
                Some(place) => self.run.push(place)?,
                None => self.end(),
            },
            Pattern::Capture(sub) => self.pass(sub)?,
            // Each part has a match, directly behind that of the part before.
            Pattern::Concat(subs) => self.pass_all(subs)?,
            // The first round has a match, directly behind what is before. Others may follow it.
            Pattern::Repetition { min, sub, .. } if *min > 0 => {
                self.pass(sub)?;
                self.end();
            }
            // There may be no round, and any of the branches may have the match.
            Pattern::Repetition { .. } | Pattern::Alternation(_) => self.end(),
        }
        Ok(())
    }

    /// Walks through parts that follow one another.
    #[cycle(walk)]
    fn pass_all(&mut self, patterns: &[Pattern]) -> Result<(), AllocError> {
        for i in 0..patterns.len() {
            self.pass(&patterns[i])?;
        }
        Ok(())
    }

    /// Walks through these bytes.
    fn pass_bytes(&mut self, bytes: &[u8]) -> Result<(), AllocError> {
        for byte in bytes {
            self.run.push(Place::of_byte(*byte))?;
        }
        Ok(())
    }

    /// Ends the row: nothing is known of the byte behind it.
    fn end(&mut self) {
        self.is_match = false;
        if self.run.len() > self.longest.len() {
            mem::swap(&mut self.run, &mut self.longest);
        }
        self.run.clear();
    }
}

/// Adds for each branch of a pattern the longest text that each of its matches contains, as far as
/// its form shows. It may be empty.
#[cycle(branches)]
fn push_texts(
    alloc: Global,
    pattern: &Pattern,
    literals: &mut Vec<Literal>,
) -> Result<(), AllocError> {
    match pattern {
        // A match of it is one of a branch.
        Pattern::Alternation(subs) => push_all(alloc, subs, literals),
        Pattern::Capture(sub) => push_texts(alloc, sub, literals),
        _ => Ok(literals.push(text_of(alloc, pattern)?)?),
    }
}

/// Adds the texts of each of the patterns, until there are more than are sought.
#[cycle(branches)]
fn push_all(
    alloc: Global,
    patterns: &[Pattern],
    literals: &mut Vec<Literal>,
) -> Result<(), AllocError> {
    for i in 0..patterns.len() {
        if literals.len() > MOST {
            break;
        }
        push_texts(alloc, &patterns[i], literals)?;
    }
    Ok(())
}

/// Returns whether texts are few, rare, and without the byte that ends a line.
fn are_sought(literals: &[Literal], terminator: u8) -> bool {
    for literal in literals {
        if !literal.is_rare() || literal.may_have(terminator) {
            return false;
        }
    }
    !literals.is_empty() && literals.len() <= MOST
}

/// Returns the set of the bytes of the rarest place of each text.
fn rarest_of(literals: &[Literal]) -> ByteSet {
    let mut members = [false; 256];
    for literal in literals {
        if let Some(place) = literal.places.get(literal.rarest) {
            for byte in place.bytes {
                members[usize::from(byte)] = true;
            }
        }
    }
    ByteSet::new(&members)
}

/// Returns whether each text is a match, wherever it occurs.
fn are_matches(literals: &[Literal]) -> bool {
    for literal in literals {
        if !literal.is_match {
            return false;
        }
    }
    true
}

/// Returns the longest text that each match of a branch contains, as far as its form shows.
fn text_of(alloc: Global, pattern: &Pattern) -> Result<Literal, AllocError> {
    let mut walk = Walk {
        run: Vec::new(alloc),
        longest: Vec::new(alloc),
        is_match: true,
    };
    walk.pass(pattern)?;
    let is_match = walk.is_match;
    walk.end();
    let Walk { longest, .. } = walk;
    Ok(Literal::new(longest, is_match))
}

/// Returns how rare a byte is: at most the number of the frequent ones.
fn rank(byte: u8) -> usize {
    for (index, frequent) in FREQUENT.iter().enumerate() {
        if *frequent == byte {
            return index;
        }
    }
    FREQUENT.len()
}

/// Returns whether a class has a byte.
pub fn has_byte(class: &ClassBytes, byte: u8) -> bool {
    for range in class.ranges() {
        if range.contains(byte) {
            return true;
        }
    }
    false
}
