//! The states of the parts of a pattern. A pattern is compiled from its end to its start, so that
//! what follows a part has its state before the part is compiled.
//!
//! A round of a loop that reads nothing must not go back to the loop. So a part is compiled for
//! several targets, the slice `ids`: it continues at `ids[0]` if it has read a byte, and at
//! `ids[k]` if it was entered by entry `k` and has read nothing. On return `ids[k]` is that entry.
//! Only the entries from `first` on are wanted, 0 or 1: the body of a loop is not entered by the
//! one that would continue at the loop with nothing read, and no body inside it needs that either.

ghost use Rattle.std.specs.Prelude.{◌≡◌, ◌+◌, ◌<◌, ◌≤◌, ℕ, IfOk, List, OnOk, cond, drop, length, map, nat_lt, slice_index, true};
ghost use Rattle.determinize_pattern.specs.Meaning as meanings;
ghost use Rattle.determinize_pattern.specs.Patterns as patterns;
ghost use Rattle.determinize_pattern.specs.Patterns.{at_least, choice, meaning, repeated, sequence};
ghost use Rattle.determinize_pattern.specs.Private.Compiling.{AlwaysReads, FailsUnread, IsBegun, IsCompiled, IsUnread, Paid, Precedes};
ghost use Rattle.determinize_pattern.specs.Private.FirstClasses.{AreFirst, BeginsWith, IsRest};
ghost use Rattle.determinize_pattern.specs.Private.Words.{IsHead};

use crate::always_reads::always_reads;
use crate::class::ClassBytes;
use crate::compiler::{Compiler, set_each};
use crate::first_class::first_classes;
use crate::head::{push_word, push_words};
use crate::nfa::CompileError;
use crate::pattern::Pattern;
use crate::prefix_tree::Word;
use determinize_below::StateID;
use determinize_below::nfa::{State, Transition};
use std::alloc::Allocator;

impl<A: Allocator + Copy> Compiler<A> {
    /// Adds the states of a pattern, at a cost of one for each target. One that reads has one entry
    /// for all targets.
    #[cycle(part)]
    pub fn part(
        &mut self,
        pattern: &Pattern,
        first: usize,
        ids: &mut [StateID],
    ) -> Result<(), CompileError>
        requires { 0 < length ids.old }
        ensures compiled { OnOk result (IsCompiled first self.old.builder self.new.builder
            (meaning pattern.now) ids.old ids.new) }
        ensures charged { OnOk result (self.new.left + length ids.old ≤ self.old.left) }
        ensures paid { OnOk result
            (Paid self.old.builder self.old.left self.new.builder self.new.left) }
    {
        self.spend(ids.len())?;
        if ids.len() > 1 && always_reads(pattern) {
            let mut only = [ids[0]];
            self.node(pattern, 0, &mut only)?;
            set_each(ids, only[0]);
            return Ok(());
        }
        self.node(pattern, first, ids)
    }

    #[cycle(part)]
    fn node(
        &mut self,
        pattern: &Pattern,
        first: usize,
        ids: &mut [StateID],
    ) -> Result<(), CompileError>
        requires { 0 < length ids.old }
        ensures compiled { OnOk result (IsCompiled first self.old.builder self.new.builder
            (meaning pattern.now) ids.old ids.new) }
        ensures paid { OnOk result
            (Paid self.old.builder self.old.left self.new.builder self.new.left) }
    {
        match pattern {
            Pattern::Empty => Ok(()),
            Pattern::Literal(bytes) => self.literal(bytes, ids),
            Pattern::Class(class) => self.class(class, ids),
            Pattern::Look(look) => self.look_each(*look, first, ids),
            Pattern::Repetition {
                min,
                max,
                greedy,
                sub,
            } => self.repetition(*min, *max, *greedy, sub, first, ids),
            Pattern::Capture(sub) => self.part(sub, first, ids),
            Pattern::Concat(subs) => self.concat(subs, 0, first, ids),
            Pattern::Alternation(subs) => self.alternation(subs, first, ids),
        }
    }

    pub fn literal(&mut self, bytes: &[u8], ids: &mut [StateID]) -> Result<(), CompileError>
        requires { 0 < length ids.old }
        ensures compiled { OnOk result (IsCompiled 0 self.old.builder self.new.builder
            (patterns.literal bytes.now) ids.old ids.new) }
        ensures paid { OnOk result
            (Paid self.old.builder self.old.left self.new.builder self.new.left) }
    {
        if bytes.is_empty() {
            return Ok(());
        }
        let mut entry = ids[0];
        for i in (0..bytes.len()).rev() {
            let byte = bytes[i];
            entry = self.range(Transition {
                start: byte,
                end: byte,
                next: entry,
            })?;
        }
        set_each(ids, entry);
        Ok(())
    }

    fn class(&mut self, class: &ClassBytes, ids: &mut [StateID]) -> Result<(), CompileError>
        requires { 0 < length ids.old }
        ensures compiled { OnOk result (IsCompiled 0 self.old.builder self.new.builder
            (meanings.Byte class.now) ids.old ids.new) }
        ensures paid { OnOk result
            (Paid self.old.builder self.old.left self.new.builder self.new.left) }
    {
        let entry = self.class_to(class, ids[0])?;
        set_each(ids, entry);
        Ok(())
    }

    fn class_to(&mut self, class: &ClassBytes, next: StateID) -> Result<StateID, CompileError>
        ensures begun { IfOk result (λ s. IsBegun self.old.builder self.new.builder
            (meanings.Byte class.now) next s) }
        ensures paid { OnOk result
            (Paid self.old.builder self.old.left self.new.builder self.new.left) }
    {
        let transitions = self.transitions(class.ranges(), next)?;
        match transitions.len() {
            0 => self.fail(),
            1 => self.range(transitions[0]),
            _ => {
                self.spend(1)?;
                Ok(self.builder.add_sparse(&transitions)?)
            }
        }
    }

    /// Adds the states of the patterns from a place on.
    #[cycle(part)]
    fn concat(
        &mut self,
        subs: &[Pattern],
        from: usize,
        first: usize,
        ids: &mut [StateID],
    ) -> Result<(), CompileError>
        requires some { 0 < length ids.old }
        requires within { from ≤ length subs.now }
        ensures compiled { OnOk result (IsCompiled first self.old.builder self.new.builder
            (sequence (map meaning (drop from subs.now))) ids.old ids.new) }
        ensures paid { OnOk result
            (Paid self.old.builder self.old.left self.new.builder self.new.left) }
    {
        for i in (from..subs.len()).rev() {
            self.part(&subs[i], wanted(from < i, first), ids)?;
        }
        Ok(())
    }

    #[cycle(part)]
    fn alternation(
        &mut self,
        subs: &[Pattern],
        first: usize,
        ids: &mut [StateID],
    ) -> Result<(), CompileError>
        requires { 0 < length ids.old }
        ensures compiled { OnOk result (IsCompiled first self.old.builder self.new.builder
            (choice (map meaning subs.now)) ids.old ids.new) }
        ensures paid { OnOk result
            (Paid self.old.builder self.old.left self.new.builder self.new.left) }
    {
        if ids.len() == 1 {
            ids[0] = self.branches(subs, ids[0])?;
            return Ok(());
        }
        let targets = self.copy(ids)?;
        let mut branch = self.copy(ids)?;
        self.choices(subs, &targets, &mut branch, first, ids)
    }

    /// Adds the states of each branch, which is compiled in `branch`, in front of the later ones.
    #[cycle(part)]
    fn choices(
        &mut self,
        subs: &[Pattern],
        targets: &[StateID],
        branch: &mut [StateID],
        first: usize,
        ids: &mut [StateID],
    ) -> Result<(), CompileError>
        requires some { 0 < length ids.old }
        requires targets { length targets.now ≡ length ids.old }
        requires branch { length branch.old ≡ length targets.now }
        ensures compiled { OnOk result (IsCompiled first self.old.builder self.new.builder
            (choice (map meaning subs.now)) targets.now ids.new) }
        ensures paid { OnOk result
            (Paid self.old.builder self.old.left self.new.builder self.new.left) }
    {
        let fail = self.fail()?;
        set_each(ids, fail);
        for i in (0..subs.len()).rev() {
            branch.copy_from_slice(targets);
            self.part(&subs[i], first, branch)?;
            self.choose_each(false, first, ids, branch)?;
        }
        Ok(())
    }

    /// Adds one state that reads the first byte of all branches, if that shows which one may match,
    /// and else the branches as words in front of what follows them, so that they share prefixes.
    #[cycle(part)]
    fn branches(&mut self, subs: &[Pattern], next: StateID) -> Result<StateID, CompileError>
        ensures begun { IfOk result (λ s. IsBegun self.old.builder self.new.builder
            (choice (map meaning subs.now)) next s) }
        ensures paid { OnOk result
            (Paid self.old.builder self.old.left self.new.builder self.new.left) }
    {
        if subs.len() > 1 {
            if let Some(classes) = first_classes(self.alloc, subs)? {
                return self.by_class(subs, &classes, next);
            }
        }
        let mut words = Vec::new(self.alloc);
        for i in 0..subs.len() {
            let word = self.head(&subs[i], next)?;
            words.push(word)?;
        }
        self.words(&words)
    }

    /// Adds a state that reads a byte of one of the classes, in front of what follows it in the
    /// branch that begins with this class.
    #[cycle(part)]
    fn by_class(
        &mut self,
        subs: &[Pattern],
        classes: &[&ClassBytes],
        next: StateID,
    ) -> Result<StateID, CompileError>
        requires { AreFirst 0 subs.now classes.now }
        ensures begun { IfOk result (λ s. IsBegun self.old.builder self.new.builder
            (choice (map meaning subs.now)) next s) }
        ensures paid { OnOk result
            (Paid self.old.builder self.old.left self.new.builder self.new.left) }
    {
        let mut transitions = Vec::new(self.alloc);
        for i in 0..subs.len() {
            let target = self.after_first(&subs[i], next)?;
            let leading = self.transitions(classes[i].ranges(), target)?;
            transitions.extend_from_slice(&leading)?;
        }
        self.spend(1)?;
        Ok(self.builder.add_sparse(&transitions)?)
    }

    /// Adds the states of what follows the first part of a pattern, and returns where they begin.
    #[cycle(part)]
    fn after_first(&mut self, pattern: &Pattern, next: StateID) -> Result<StateID, CompileError>
        ensures rest { IfOk result (λ s. (class : List (ℕ × ℕ)) → BeginsWith pattern.now class
            → IsRest self.old.builder self.new.builder (meaning pattern.now) class next s) }
        ensures paid { OnOk result
            (Paid self.old.builder self.old.left self.new.builder self.new.left) }
    {
        match pattern {
            Pattern::Concat(subs) => {
                let mut ids = [next];
                self.concat(subs, 1.min(subs.len()), 0, &mut ids)?;
                Ok(ids[0])
            }
            _ => Ok(next),
        }
    }

    /// Adds the states of what follows the word with which a pattern begins, at the cost of one,
    /// and returns the word in front of them.
    #[cycle(part)]
    pub fn head(&mut self, pattern: &Pattern, next: StateID) -> Result<Word<A>, CompileError>
        ensures head { IfOk result (λ word. IsHead self.old.builder self.new.builder
            (meaning pattern.now) next word) }
        ensures paid { OnOk result
            (Paid self.old.builder self.old.left self.new.builder self.new.left) }
    {
        self.spend(1)?;
        match pattern {
            Pattern::Capture(sub) => self.head(sub, next),
            Pattern::Concat(subs) => self.head_of_all(subs, next),
            _ => self.head_of_one(pattern, next),
        }
    }

    #[cycle(part)]
    fn head_of_all(&mut self, subs: &[Pattern], next: StateID) -> Result<Word<A>, CompileError>
        ensures head { IfOk result (λ word. IsHead self.old.builder self.new.builder
            (sequence (map meaning subs.now)) next word) }
        ensures paid { OnOk result
            (Paid self.old.builder self.old.left self.new.builder self.new.left) }
    {
        let mut bytes = Vec::new(self.alloc);
        let count = push_words(&mut bytes, subs)?;
        let mut ids = [next];
        self.concat(subs, count, 0, &mut ids)?;
        Ok(Word::new(bytes, ids[0]))
    }

    #[cycle(part)]
    fn head_of_one(&mut self, pattern: &Pattern, next: StateID) -> Result<Word<A>, CompileError>
        ensures head { IfOk result (λ word. IsHead self.old.builder self.new.builder
            (meaning pattern.now) next word) }
        ensures paid { OnOk result
            (Paid self.old.builder self.old.left self.new.builder self.new.left) }
    {
        let mut bytes = Vec::new(self.alloc);
        let is_word = push_word(&mut bytes, pattern)?;
        if is_word {
            return Ok(Word::new(bytes, next));
        }
        let mut ids = [next];
        self.node(pattern, 0, &mut ids)?;
        Ok(Word::new(bytes, ids[0]))
    }

    #[cycle(part)]
    fn repetition(
        &mut self,
        min: u32,
        max: Option<u32>,
        greedy: bool,
        sub: &Pattern,
        first: usize,
        ids: &mut [StateID],
    ) -> Result<(), CompileError>
        requires { 0 < length ids.old }
        ensures compiled { OnOk result (IsCompiled first self.old.builder self.new.builder
            (repeated min max greedy (meaning sub.now)) ids.old ids.new) }
        ensures paid { OnOk result
            (Paid self.old.builder self.old.left self.new.builder self.new.left) }
    {
        match max {
            Some(max) => {
                let behind = wanted(0 < min, first);
                self.up_to(greedy, max.saturating_sub(min), sub, behind, ids)?;
                self.copies(min, sub, first, ids)
            }
            None if min == 0 => self.star(greedy, sub, first, ids),
            None => {
                self.plus(greedy, sub, wanted(0 < min - 1, first), ids)?;
                self.copies(min - 1, sub, first, ids)
            }
        }
    }

    /// Puts copies in front of what was compiled before.
    #[cycle(part)]
    fn copies(
        &mut self,
        count: u32,
        sub: &Pattern,
        first: usize,
        ids: &mut [StateID],
    ) -> Result<(), CompileError>
        requires { 0 < length ids.old }
        ensures front { OnOk result (Precedes (cond (nat_lt 0 count) 0 first) first
            self.old.builder self.new.builder
            (patterns.copies count (meaning sub.now)) ids.old ids.new) }
        ensures paid { OnOk result
            (Paid self.old.builder self.old.left self.new.builder self.new.left) }
    {
        for done in 0..count {
            self.part(sub, wanted(done + 1 < count, first), ids)?;
        }
        Ok(())
    }

    #[cycle(part)]
    fn up_to(
        &mut self,
        greedy: bool,
        count: u32,
        sub: &Pattern,
        first: usize,
        ids: &mut [StateID],
    ) -> Result<(), CompileError>
        requires { 0 < length ids.old }
        ensures compiled { OnOk result (IsCompiled first self.old.builder self.new.builder
            (patterns.up_to greedy count (meaning sub.now)) ids.old ids.new) }
        ensures paid { OnOk result
            (Paid self.old.builder self.old.left self.new.builder self.new.left) }
    {
        let targets = self.copy(ids)?;
        for done in 0..count {
            let behind = wanted(done + 1 < count, first);
            self.part(sub, behind, ids)?;
            self.choose_each(greedy, behind, ids, &targets)?;
        }
        Ok(())
    }

    /// The state of a loop whose body reads is also the choice between a first round and none.
    #[cycle(part)]
    fn star(
        &mut self,
        greedy: bool,
        sub: &Pattern,
        first: usize,
        ids: &mut [StateID],
    ) -> Result<(), CompileError>
        requires { 0 < length ids.old }
        ensures compiled { OnOk result (IsCompiled first self.old.builder self.new.builder
            (at_least greedy 0 (meaning sub.now)) ids.old ids.new) }
        ensures paid { OnOk result
            (Paid self.old.builder self.old.left self.new.builder self.new.left) }
    {
        let targets = self.copy(ids)?;
        let again = self.plus(greedy, sub, first, ids)?;
        if ids.len() == 1 && always_reads(sub) {
            ids[0] = again;
            return Ok(());
        }
        self.choose_each(greedy, first, ids, &targets)
    }

    /// The body has one entry for the first round at each target, where reading nothing leaves the
    /// loop, and one for the later rounds, where it fails: the same if a target fails. Returns the
    /// state of the loop.
    #[cycle(part)]
    fn plus(
        &mut self,
        greedy: bool,
        sub: &Pattern,
        first: usize,
        ids: &mut [StateID],
    ) -> Result<StateID, CompileError>
        requires { 0 < length ids.old }
        ensures compiled { OnOk result (IsCompiled first self.old.builder self.new.builder
            (meanings.Plus greedy (meaning sub.now)) ids.old ids.new) }
        ensures again { IfOk result (λ s. AlwaysReads (meaning sub.now)
            → IsBegun self.old.builder self.new.builder (at_least greedy 0 (meaning sub.now))
            (slice_index ids.old 0) s) }
        ensures paid { OnOk result
            (Paid self.old.builder self.old.left self.new.builder self.new.left) }
    {
        let again = self.union(&[])?;
        let next = ids[0];
        if self.fails_unread(first, ids) {
            ids[0] = again;
            self.part(sub, 1, ids)?;
            self.close(again, greedy, ids[1], next)?;
            return Ok(again);
        }
        let unread = self.unread(sub, again)?;
        let mut body = self.list(again, unread, ids)?;
        self.part(sub, 1, &mut body)?;
        self.close(again, greedy, body[1], next)?;
        ids.copy_from_slice(&body[2..]);
        Ok(again)
    }

    /// Returns whether only later entries are wanted, of which the first fails if nothing is read.
    fn fails_unread(&self, first: usize, ids: &[StateID]) -> bool
        ensures { result ≡ true → FailsUnread self.now.builder first ids.now }
    {
        if first == 0 || ids.len() < 2 {
            return false;
        }
        match self.builder.get(ids[1]) {
            Some(State::Fail) => true,
            _ => false,
        }
    }

    /// Returns the state at which a later round continues that reads nothing: one that fails, or
    /// any if no round reads nothing.
    fn unread(&mut self, sub: &Pattern, any: StateID) -> Result<StateID, CompileError>
        ensures unread { IfOk result
            (λ id. IsUnread self.old.builder self.new.builder (meaning sub.now) id) }
        ensures paid { OnOk result
            (Paid self.old.builder self.old.left self.new.builder self.new.left) }
    {
        if always_reads(sub) {
            Ok(any)
        } else {
            self.fail()
        }
    }
}

/// Returns which entries are wanted of a part of a pattern from whose first part those from `first`
/// on are: all, if it is behind another part.
fn wanted(is_behind: bool, first: usize) -> usize
    ensures { result ≡ cond is_behind 0 first }
{
    if is_behind { 0 } else { first }
}
