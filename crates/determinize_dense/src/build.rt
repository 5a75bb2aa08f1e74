//! The construction of a DFA: a worklist of states, whose rows are filled entry by entry.
//!
//! The states found so far have rows in the order in which they were found: the dead state, the
//! start states, and then the next states of each row. An entry is computed for one byte of each
//! class, and for the end of input (EOI). Two ways save most steps:
//!
//! - If each NFA state of a row has the same target on the byte of a column as on that of the
//!   column before, one step mostly serves both.
//! - A row mostly has the NFA states of an earlier row, its *base*, behind a few *further* ones. In
//!   a column in which no further one matches or has a target, its entry is that of the base. The
//!   base is the unanchored start, to which a search returns at each position, or else the dead
//!   state, which has no NFA states.

ghost use Rattle.std.specs.Prelude.{◌≡◌, ◌<◌, ◌+◌, ◌*◌, [], Err, Some, IfOk, IfSome, IsTrue, OnOk, length, map, min, not, slice_get};
ghost use Rattle.determinize_below.specs.Unit.{byte_of};
ghost use Rattle.determinize_start.specs.declared.start.TheConstants.StartSlot.{COUNT};
ghost use Rattle.determinize_below.specs.Nfa.{AllResolve};
ghost use Rattle.determinize_core.specs.Private.Reading.{gives_nothing};
ghost use Rattle.determinize_core.specs.Value.{Value as StateValue};
ghost use Rattle.determinize_dense.specs.Dfa.{HasMoreStates, IsReachedValue};
ghost use Rattle.determinize_dense.specs.Private.Building.{AreStarts, Building, HasChanges, HasIds, IsBase, IsBuilding, IsBuilt, IsStart, IsNextRow, Stays, building, columns_of, unit_at};
ghost use Rattle.determinize_dense.specs.declared.error.DfaError.TheVariants.{TooManyStates};
ghost use Rattle.ordered_reach.specs.Runs.{without};

use crate::error::DfaError;
use crate::rows::Rows;
use determinize_below::alphabet::ByteClasses;
use determinize_below::nfa::State as NfaState;
use determinize_below::{AsNfa, MatchKind, NFA, PatternID, StateID, Unit};
use determinize_core::determinize::Scratch;
use determinize_core::determinize::changes::{changes, steps_alike};
use determinize_core::start::{Start, StartSlot};
use determinize_core::state::State;
use determinize_engine::state_table::{MAX_STATES, StateTable};
use std::alloc::{AllocError, Allocator};
use std::marker::Model;

/// The fewest columns of which it pays to see which share their steps.
const SHARING: usize = 8;

/// A DFA that is being built.
#[derive(Drop)]
pub(crate) struct Builder<R: AsNfa, A: Allocator> {
    nfa: R,
    match_kind: MatchKind,
    scratch: Scratch<A>,
    classes: ByteClasses,
    limit: usize,
    states: StateTable<A>,
    next: Vec<u32, A>,
}

impl<R: AsNfa, A: Allocator> Model for Builder<R, A> {
    ghost Value = { Building };

    ghost view = { λ b. building (R.nfa b.nfa) b.match_kind b.classes b.limit b.states
        b.next.items };

    ghost invariant = { λ b. IsBuilding
        (building (R.nfa b.nfa) b.match_kind b.classes b.limit b.states b.next.items) };
}

/// Returns whether an NFA state matches, or has a target over a unit.
fn gives<N: Allocator>(nfa: &NFA<N>, id: StateID, unit: Unit) -> bool
    requires { id < length nfa.now.states }
    ensures { result ≡ not (gives_nothing nfa.now (byte_of unit) id) }
{
    match nfa.state(id) {
        NfaState::Match { .. } => true,
        state => match unit.as_u8() {
            Some(byte) => state.target(byte).is_some(),
            None => false,
        },
    }
}

/// Returns whether none of these NFA states matches or has a target over a unit.
fn none_gives<N: Allocator>(nfa: &NFA<N>, ids: &[StateID], unit: Unit) -> bool
    requires { AllResolve nfa.now ids.now }
    ensures { IsTrue result → without (gives_nothing nfa.now (byte_of unit)) ids.now ≡ [] }
{
    for id in ids {
        if gives(nfa, *id, unit) {
            return false;
        }
    }
    true
}

/// Returns a list with the list of patterns of each state. An empty list is not allocated.
fn lists_of<A: Allocator + Copy>(
    alloc: A,
    states: &[State<A>],
) -> Result<Vec<Vec<PatternID, A>, A>, AllocError>
    ensures { IfOk result (λ lists. map (λ list. list.items) lists.items
        ≡ map (λ (v : StateValue). v.patterns) states.now) }
{
    let mut lists = Vec::with_capacity(alloc, states.len())?;
    for state in states {
        lists.push(state.match_pattern_ids()?.unwrap_or(Vec::new(alloc)))?;
    }
    Ok(lists)
}

/// A row whose NFA states a later row has behind further ones.
#[derive(Drop)]
struct Base<'i> {
    row: usize,
    further: &'i [StateID],
}

impl<R: AsNfa, A: Allocator + Copy> Builder<R, A> {
    /// Returns a builder that has found the dead state only.
    pub(crate) fn new(
        alloc: A,
        nfa: R,
        match_kind: MatchKind,
        limit: usize,
    ) -> Result<Builder<R, A>, DfaError>
        ensures nfa { IfOk result (λ builder. builder.nfa ≡ R.nfa nfa) }
        ensures kind { IfOk result (λ builder. builder.kind ≡ match_kind) }
        ensures limit { IfOk result (λ builder. builder.limit ≡ min limit MAX_STATES) }
        ensures next { IfOk result (λ builder. builder.next ≡ []) }
        ensures many { result ≡ Err TooManyStates
            → HasMoreStates (R.nfa nfa) match_kind (min limit MAX_STATES) }
        ensures zero { limit ≡ 0 → result ≡ Err TooManyStates }
    {
        let limit = limit.min(MAX_STATES);
        if limit == 0 {
            return Err(DfaError::TooManyStates);
        }
        let mut states = StateTable::new(alloc);
        states.intern(State::dead(alloc)?)?;
        let classes = nfa.nfa().byte_classes();
        let next = Vec::with_capacity(alloc, classes.alphabet_len())?;
        Ok(Builder {
            nfa,
            match_kind,
            scratch: Scratch::new(alloc),
            classes,
            limit,
            states,
            next,
        })
    }

    /// Returns the row of a state, a new one if it was not found before.
    ///
    /// - `likely` is the row that is compared first. A match of it saves the hash of the state.
    fn place(&mut self, state: &State<A>, likely: u32) -> Result<u32, DfaError>
        requires reached { IsReachedValue self.old.nfa self.old.kind state.now }
        requires resolve { AllResolve self.old.nfa state.now.states }
        requires likely { likely < length self.old.values }
        ensures at { IfOk result (λ row. slice_get self.new.values row ≡ Some state.now) }
        ensures stays { OnOk result (Stays self.old self.new) }
        ensures next { self.new.next ≡ self.old.next }
        ensures many { result ≡ Err TooManyStates
            → HasMoreStates self.old.nfa self.old.kind self.old.limit }
    {
        if self.states.get(likely as usize) == state {
            return Ok(likely);
        }
        if let Some(index) = self.states.find(state) {
            return Ok(index as u32);
        }
        if self.states.len() == self.limit {
            return Err(DfaError::TooManyStates);
        }
        let found = state.clone()?;
        Ok(self.states.intern(found)? as u32)
    }

    /// Returns the row of the start of a slot, or 0 if no start is of its kind.
    fn start(&mut self, slot: StartSlot) -> Result<u32, DfaError>
        ensures at { IfOk result (λ row. IsStart self.old.nfa self.new.values slot row) }
        ensures within { IfOk result (λ row. row < length self.new.values) }
        ensures stays { OnOk result (Stays self.old self.new) }
        ensures next { self.new.next ≡ self.old.next }
        ensures many { result ≡ Err TooManyStates
            → HasMoreStates self.old.nfa self.old.kind self.old.limit }
    {
        let nfa = self.nfa.nfa();
        let terminator = nfa.look_matcher().get_line_terminator();
        if !slot.kind.occurs(terminator) {
            return Ok(0);
        }
        let start = if slot.is_anchored {
            nfa.start_anchored()
        } else {
            nfa.start_unanchored()
        };
        let state = self.scratch.start_of(nfa, start, slot.kind)?;
        self.place(&state, 0)
    }

    /// Returns the rows of all starts.
    fn starts(&mut self) -> Result<[u32; StartSlot::COUNT], DfaError>
        ensures starts { IfOk result
            (λ starts. AreStarts self.old.nfa self.new.values COUNT starts) }
        ensures stays { OnOk result (Stays self.old self.new) }
        ensures next { self.new.next ≡ self.old.next }
        ensures many { result ≡ Err TooManyStates
            → HasMoreStates self.old.nfa self.old.kind self.old.limit }
    {
        let mut starts = [0; StartSlot::COUNT];
        let mut number = 0;
        while let Some(slot) = StartSlot::from_usize(number) {
            starts[number] = self.start(slot)?;
            number += 1;
        }
        Ok(starts)
    }

    /// Returns the unit for which a column is computed.
    fn unit(&self, column: usize) -> Unit
        ensures { byte_of result ≡ unit_at self.now.classes column }
    {
        match self.classes.representatives().get(column) {
            Some(byte) => Unit::u8(*byte),
            None => self.classes.eoi(),
        }
    }

    /// Returns the entry above the next one: in the same column, of the row before. 0 in row 0.
    fn entry_above(&self) -> u32
        ensures { result < length self.now.values }
    {
        match self.next.len().checked_sub(self.classes.alphabet_len()) {
            Some(entry) => self.next[entry],
            None => 0,
        }
    }

    /// Returns marks at the bytes on which an NFA state of the row has another target than on the
    /// byte before, and at all others if the columns are too few to share steps.
    fn changes(&self, row: usize) -> [bool; 256]
        requires { row < length self.now.values }
        ensures { HasChanges self.now row result }
    {
        if self.classes.alphabet_len() < SHARING {
            return [true; 256];
        }
        changes(self.nfa.nfa(), &self.states.as_slice()[row])
    }

    /// Returns the last entry, if it is that of the column before and surely that of this column.
    ///
    /// - `changes` are those of the state of the row.
    fn repeated(&self, row: usize, column: usize, changes: &[bool; 256]) -> Option<u32>
        requires row { row < length self.now.values }
        requires changes { HasChanges self.now row changes.now }
        requires entry { length self.now.next ≡ row * columns_of self.now.classes + column }
        ensures { IfSome result (λ next. IsNextRow self.now row column next) }
    {
        let bytes = self.classes.representatives();
        if column == 0 || column >= bytes.len() {
            return None;
        }
        let state = &self.states.as_slice()[row];
        let (before, byte) = (bytes[column - 1], bytes[column]);
        if !steps_alike(self.nfa.nfa(), state, changes, before, byte) {
            return None;
        }
        Some(self.next[self.next.len() - 1])
    }

    /// Lists the NFA states of a row if they test no assertion, or else those of row 0, none.
    /// Returns the number of that row.
    fn list_ids(&self, row: usize, ids: &mut Vec<StateID, A>) -> Result<usize, AllocError>
        requires { row < length self.now.values }
        ensures ids { IfOk result (λ listed. HasIds self.now listed ids.new.items) }
        ensures within { IfOk result (λ listed. listed < length self.now.values) }
    {
        ids.clear();
        let state = &self.states.as_slice()[row];
        if !state.look_need().is_empty() {
            return Ok(0);
        }
        for id in state.iter_nfa_state_ids() {
            ids.push(id)?;
        }
        Ok(row)
    }

    /// Returns the base of a row, if the row is listed and has one.
    ///
    /// - `ids` are the NFA states of the row `listed`.
    /// - `usual` has the row that is the base if it can be, and the NFA states of that row.
    fn base<'i>(
        &self,
        row: usize,
        listed: usize,
        ids: &'i [StateID],
        usual: &Base<'_>,
    ) -> Option<Base<'i>>
        requires ids { HasIds self.now listed ids.now }
        requires usual { HasIds self.now usual.now.row usual.now.further.now }
        requires dead { HasIds self.now 0 [] }
        ensures { IfSome result (λ base. IsBase self.now row base.row base.further.now) }
    {
        if listed != row || row == 0 {
            return None;
        }
        if row > usual.row {
            if let Some(further) = ids.strip_suffix(usual.further) {
                return Some(Base {
                    row: usual.row,
                    further,
                });
            }
        }
        Some(Base {
            row: 0,
            further: ids,
        })
    }

    /// Returns the entry of the base of a row in a column, if it is surely that of the row.
    fn of_base(&self, row: usize, column: usize, base: &Option<Base<'_>>) -> Option<u32>
        requires row { row < length self.now.values }
        requires column { column < columns_of self.now.classes }
        requires base { IfSome base.now
            (λ base. IsBase self.now row base.row base.further.now) }
        requires entry { length self.now.next ≡ row * columns_of self.now.classes + column }
        ensures { IfSome result (λ next. IsNextRow self.now row column next) }
    {
        let Some(base) = base else { return None };
        if !none_gives(self.nfa.nfa(), base.further, self.unit(column)) {
            return None;
        }
        Some(self.next[base.row * self.classes.alphabet_len() + column])
    }

    /// Returns the entry of a row in a column. Often it is that of the base, or that of the column
    /// before. Else the step is computed, and the entry above is the row that is compared first.
    ///
    /// - `base` is that of the row, and `changes` are those of its state.
    fn entry(
        &mut self,
        row: usize,
        column: usize,
        base: &Option<Base<'_>>,
        changes: &[bool; 256],
    ) -> Result<u32, DfaError>
        requires row { row < length self.old.values }
        requires column { column < columns_of self.old.classes }
        requires base { IfSome base.now
            (λ base. IsBase self.old row base.row base.further.now) }
        requires changes { HasChanges self.old row changes.now }
        requires entry { length self.old.next ≡ row * columns_of self.old.classes + column }
        ensures at { IfOk result (λ next. IsNextRow self.new row column next) }
        ensures stays { OnOk result (Stays self.old self.new) }
        ensures next { self.new.next ≡ self.old.next }
        ensures many { result ≡ Err TooManyStates
            → HasMoreStates self.old.nfa self.old.kind self.old.limit }
    {
        if let Some(entry) = self.of_base(row, column, base) {
            return Ok(entry);
        }
        if let Some(entry) = self.repeated(row, column, changes) {
            return Ok(entry);
        }
        let unit = self.unit(column);
        let state = &self.states.as_slice()[row];
        let next = self
            .scratch
            .next_lent(self.nfa.nfa(), self.match_kind, state, unit)?;
        let entry = self.place(&next, self.entry_above())?;
        self.scratch.take_back(next);
        Ok(entry)
    }

    /// Adds the entries of a row.
    ///
    /// - `usual` has the row that is mostly the base, and as `further` all NFA states of that row.
    ///   `ids` is scratch.
    fn add_row(
        &mut self,
        row: usize,
        usual: &Base<'_>,
        ids: &mut Vec<StateID, A>,
    ) -> Result<(), DfaError>
        requires row { row < length self.old.values }
        requires usual { HasIds self.old usual.now.row usual.now.further.now }
        requires whole { length self.old.next ≡ row * columns_of self.old.classes }
        ensures whole { OnOk result
            (length self.new.next ≡ (row + 1) * columns_of self.new.classes) }
        ensures stays { OnOk result (Stays self.old self.new) }
        ensures many { result ≡ Err TooManyStates
            → HasMoreStates self.old.nfa self.old.kind self.old.limit }
    {
        let changes = self.changes(row);
        let listed = self.list_ids(row, ids)?;
        let base = self.base(row, listed, ids.as_slice(), usual);
        for column in 0..self.classes.alphabet_len() {
            let entry = self.entry(row, column, &base, &changes)?;
            self.next.push(entry)?;
        }
        Ok(())
    }

    /// Computes the entries of all rows, also of those that are found meanwhile.
    ///
    /// - `usual` is the row that is the base of another if it can be.
    fn fill(&mut self, alloc: A, usual: usize) -> Result<(), DfaError>
        requires usual { usual < length self.old.values }
        requires empty { self.old.next ≡ [] }
        ensures whole { OnOk result
            (length self.new.next ≡ length self.new.values * columns_of self.new.classes) }
        ensures stays { OnOk result (Stays self.old self.new) }
        ensures many { result ≡ Err TooManyStates
            → HasMoreStates self.old.nfa self.old.kind self.old.limit }
    {
        let (mut ids, mut usual_ids) = (Vec::new(alloc), Vec::new(alloc));
        let listed = self.list_ids(usual, &mut usual_ids)?;
        let usual = Base {
            row: listed,
            further: usual_ids.as_slice(),
        };
        let mut row = 0;
        while row < self.states.len() {
            self.add_row(row, &usual, &mut ids)?;
            row += 1;
        }
        Ok(())
    }

    /// Returns the rows of all states that a search can reach.
    pub(crate) fn rows(mut self, alloc: A) -> Result<Rows<R, A>, DfaError>
        requires { self.next ≡ [] }
        ensures built { IfOk result (λ rows. IsBuilt self rows) }
        ensures many { result ≡ Err TooManyStates
            → HasMoreStates self.nfa self.kind self.limit }
    {
        let starts = self.starts()?;
        let usual = StartSlot {
            is_anchored: false,
            kind: Start::Text,
        };
        self.fill(alloc, starts[usual.as_usize()] as usize)?;
        let patterns = lists_of(alloc, self.states.as_slice())?;
        Ok(Rows {
            nfa: self.nfa,
            match_kind: self.match_kind,
            classes: self.classes,
            next: self.next,
            starts,
            patterns,
        })
    }
}
