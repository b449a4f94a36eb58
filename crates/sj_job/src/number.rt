//! The numbers of a form.

ghost use Rattle.std.specs.Prelude.{◌≡◌, ◌&&◌, true, false, map, take, IfOk, MatchOption};
ghost use Rattle.std.specs.List.{list_all};
ghost use Rattle.sj_job.specs.Word.{count, is_count, is_integer, integer};
ghost use Rattle.sj_job.specs.Sentence.{are_counts, is_numbered_size, is_numbered_init, is_numbered_priority, row_count, col_count, init_said, first_values, parts_said, index_said, priority_said};
ghost use Rattle.sj_meaning.specs.State.{plan_of_parts};

use crate::form::{InitForm, OperandForm, Piece, Pieces, Size};
use crate::line::Words;
use crate::word::{count_of, integer_of};
use sj_base::few::Few;
use sj_base::memory::OutOfMemory;
use sj_base::sequence::Sequence;
use sj_meaning::job::Init;
use std::alloc::Global;

/// Whether a word says a count. Linear in it.
pub fn is_count(word: &[u8]) -> bool
    ensures { result ≡ is_count word.now }
{
    count_of(word).is_some()
}

/// Whether both words say counts, where there are two. Linear in them.
pub fn are_counts(pair: &Option<(Piece<'_>, Piece<'_>)>) -> bool
    ensures { result ≡ are_counts pair.now }
{
    match pair {
        Some((a, b)) => is_count(a.bytes()) && is_count(b.bytes()),
        None => true,
    }
}

/// The counts that two words say, or `None` where one says none. Linear in the words.
pub fn pair_of(a: &Piece<'_>, b: &Piece<'_>) -> Option<(u64, u64)>
    ensures { MatchOption result ((is_count a.now && is_count b.now) ≡ false) (λ p.
        ((is_count a.now && is_count b.now) ≡ true) × (p.0 ≡ count a.now) × (p.1 ≡ count b.now)) }
{
    Some((count_of(a.bytes())?, count_of(b.bytes())?))
}

/// The parts of rows and of columns that `by r c` says, 1 and 1 without it; `None` where a word says no count. Linear in the
/// words.
pub fn parts_of(by: &Option<(Piece<'_>, Piece<'_>)>) -> Option<(u64, u64)>
    ensures { MatchOption result (are_counts by.now ≡ false)
        (λ p. (are_counts by.now ≡ true) × (plan_of_parts p.0 p.1 ≡ parts_said by.now)) }
{
    match by {
        Some((r, c)) => pair_of(r, c),
        None => Some((1, 1)),
    }
}

/// The index that two words say, where there are two; `None` where a word says no count. Linear in the words.
fn index_of(child: &Option<(Piece<'_>, Piece<'_>)>) -> Option<Option<(u64, u64)>>
    ensures { MatchOption result (are_counts child.now ≡ false)
        (λ index. (are_counts child.now ≡ true) × (index ≡ index_said child.now)) }
{
    match child {
        Some((i, j)) => Some(Some(pair_of(i, j)?)),
        None => Some(None),
    }
}

/// The index of each operand, or `None` where a word says no count. Linear in the words; no memory for up to three operands.
pub fn indexes_of(
    alloc: Global,
    operands: &[OperandForm<'_>],
) -> Result<Option<Few<Option<(u64, u64)>>>, OutOfMemory>
    ensures { IfOk result (λ r. MatchOption r
        (list_all (λ o. are_counts o.child) operands.now ≡ false)
        (λ indexes. (list_all (λ o. are_counts o.child) operands.now ≡ true)
        × (indexes ≡ map (λ o. index_said o.child) operands.now))) }
{
    let mut indexes = Few::empty(alloc);
    for operand in operands {
        match index_of(&operand.child) {
            Some(index) => indexes.push(index)?,
            None => return Ok(None),
        }
    }
    Ok(Some(indexes))
}

/// The integers that words say, or `None` where one says none. Linear in the words.
pub fn integers(alloc: Global, words: &Pieces<'_>) -> Result<Option<Few<i64>>, OutOfMemory>
    ensures { IfOk result (λ r. MatchOption r (list_all is_integer words.now ≡ false)
        (λ zs. (list_all is_integer words.now ≡ true) × (zs ≡ map integer words.now))) }
{
    let mut values = Few::empty(alloc);
    let mut rest = words.again();
    while let Some((word, behind)) = rest.split_first() {
        match integer_of(word) {
            Some(value) => values.push(value)?,
            None => return Ok(None),
        }
        rest = behind;
    }
    Ok(Some(values))
}

/// The integers that the words of a line say, or `None` where one says none. So many of them are kept, with room for these from
/// the start, unless the line is shorter; those behind them are only looked at. Linear in the words.
fn values_of(
    alloc: Global,
    words: &Words<'_>,
    most: u64,
) -> Result<Option<Sequence<i64>>, OutOfMemory>
    ensures { IfOk result (λ r. MatchOption r (list_all is_integer words.now ≡ false)
        (λ zs. (list_all is_integer words.now ≡ true) × (zs ≡ take most (map integer words.now)))) }
{
    let room = most.min(words.room() as u64) as usize;
    let mut values = Vec::with_capacity(alloc, room)?;
    let mut rest = words.again();
    while let Some((word, behind)) = rest.split_first() {
        match integer_of(word) {
            Some(value) if (values.len() as u64) < most => values.push(value)?,
            Some(_) => {}
            None => return Ok(None),
        }
        rest = behind;
    }
    Ok(Some(Sequence::of(values)))
}

/// Rows and columns, or `None` where a word says no count. Linear in the words.
pub fn size_of(size: &Size<'_>) -> Option<(u64, u64)>
    ensures { MatchOption result (is_numbered_size size.now ≡ false)
        (λ p. (is_numbered_size size.now ≡ true)
        × (p.0 ≡ row_count size.now) × (p.1 ≡ col_count size.now)) }
{
    match size {
        Size::Vector(n) => Some((1, count_of(n.bytes())?)),
        Size::Matrix(r, c) => Some((count_of(r.bytes())?, count_of(c.bytes())?)),
    }
}

/// The first elements, of values no more than so many, or `None` where a word says no integer. Linear in the words.
pub fn init_of(alloc: Global, init: &InitForm<'_>, most: u64) -> Result<Option<Init>, OutOfMemory>
    ensures { IfOk result (λ r. MatchOption r (is_numbered_init init.now ≡ false)
        (λ said. (is_numbered_init init.now ≡ true) ×
        (said ≡ first_values most (init_said init.now)))) }
{
    match init {
        InitForm::Values(values) => Ok(values_of(alloc, values, most)?.map(Init::Values)),
        InitForm::Fill(a, b) => Ok(fill_of(a, b)),
        InitForm::Nothing => Ok(Some(Init::Nothing)),
    }
}

fn fill_of(a: &Piece<'_>, b: &Piece<'_>) -> Option<Init>
    ensures { MatchOption result (is_numbered_init (InitForm.Fill a.now b.now) ≡ false)
        (λ said. (is_numbered_init (InitForm.Fill a.now b.now) ≡ true)
        × (said ≡ init_said (InitForm.Fill a.now b.now))) }
{
    Some(Init::Fill(integer_of(a.bytes())?, integer_of(b.bytes())?))
}

/// The priority, 0 where there is none; `None` where the word says no integer. Linear in the word.
pub fn priority_of(priority: &Option<Piece<'_>>) -> Option<i64>
    ensures { MatchOption result (is_numbered_priority priority.now ≡ false)
        (λ p. (is_numbered_priority priority.now ≡ true) × (p ≡ priority_said priority.now)) }
{
    match priority {
        Some(word) => integer_of(word.bytes()),
        None => Some(0),
    }
}
