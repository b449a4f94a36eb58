//! Task lines with more operands or arguments than any codelet has: what is against them is found without a list of either.

ghost use Rattle.std.specs.Prelude.{◌≡◌, ◌+◌, ◌≤◌, ◌&&◌, ◌||◌, ◌∷◌, [], true, false, codes, length, nat_le, nat_lt, Err, IfNone, IfSome, MatchOption};
ghost use Rattle.std.specs.List.{list_all};
ghost use Rattle.sj_job.specs.Crowd.{call_reasons, crowd_of, has_numbers, shown_in, up_to_six};
ghost use Rattle.sj_job.specs.Judge.{Scope, first_of, is_ended, is_unknown};
ghost use Rattle.sj_job.specs.Names.{HasStandings, scope_in};
ghost use Rattle.sj_job.specs.Reading.{act_in};
ghost use Rattle.sj_job.specs.Sentence.{are_counts, priority_said};
ghost use Rattle.sj_job.specs.Word.{is_integer};

use crate::form::{OperandForm, Piece, Pieces};
use crate::judge::{STATEMENTS, has_priority};
use crate::line::Words;
use crate::names::Names;
use crate::number::{are_counts, priority_of};
use crate::reason::{LimitKind, Reason};
use crate::spell::{bracketed, last_priority, operand_of};
use crate::word::integer_of;
use sj_codelet::set::Codelets;

/// How far operands are counted, and arguments up to one more: no codelet has so many.
const COUNTED: u8 = 6;

/// What shows in operands, one after another.
#[derive(Clone, Copy)]
pub struct Crowd {
    /// Each index has counts.
    numbered: bool,
    /// A name isn't registered, nor was it ended.
    unknown: bool,
    /// A name is ended.
    ended: bool,
    /// How many there are, up to six.
    count: u8,
}

impl Crowd {
    fn none() -> Crowd
        ensures { (s : Scope) → result ≡ crowd_of s [] }
    {
        Crowd {
            numbered: true,
            unknown: false,
            ended: false,
            count: 0,
        }
    }

    /// One operand more. Linear in it.
    fn add(&mut self, names: &Names, operand: &OperandForm<'_>)
        requires names { HasStandings names.now }
        requires few { self.old.count ≤ 6 }
        ensures numbered { self.new.numbered
            ≡ (self.old.numbered && are_counts operand.now.child) }
        ensures unknown { self.new.unknown
            ≡ (self.old.unknown || is_unknown (scope_in names.now) operand.now.name) }
        ensures ended { self.new.ended
            ≡ (self.old.ended || is_ended (scope_in names.now) operand.now.name) }
        ensures count { self.new.count ≡ up_to_six (self.old.count + 1) }
    {
        let name = operand.name.bytes();
        let taken = names.is_taken(name);
        let ended = names.is_ended(name);
        self.numbered &= are_counts(&operand.child);
        self.unknown |= !taken & !ended;
        self.ended |= ended;
        if self.count < COUNTED {
            self.count += 1;
        }
    }
}

/// What shows in the operands that words spell, and the priority behind them. Linear in the words.
fn crowd_of<'a>(names: &Names, words: &Words<'a>) -> Option<(Crowd, Option<Piece<'a>>)>
    requires { HasStandings names.now }
    ensures { result ≡ shown_in (scope_in names.now) words.now }
{
    let mut crowd = Crowd::none();
    let mut rest = words.again();
    while let Some((word, behind)) = rest.split_first() {
        if let Some(priority) = last_priority(word, &behind) {
            return Some((crowd, Some(priority)));
        }
        let operand = operand_of(word)?;
        crowd.add(names, &operand);
        rest = behind;
    }
    Some((crowd, None))
}

/// How many arguments there are, up to seven, or `None` where one is no integer. Linear in them.
fn argument_count(args: &Pieces<'_>) -> Option<u8>
    ensures { MatchOption result (list_all is_integer args.now ≡ false)
        (λ n. (list_all is_integer args.now ≡ true) × (n ≤ length args.now)) }
{
    let mut count = 0;
    let mut rest = args.again();
    while let Some((word, behind)) = rest.split_first() {
        integer_of(word)?;
        if count <= COUNTED {
            count += 1;
        }
        rest = behind;
    }
    Some(count)
}

/// Whether there are more operands than any codelet has, or more arguments, each counted up to one more than that.
fn are_many(operands: u8, arguments: u8) -> bool
    ensures { result ≡ (nat_le 6 operands || nat_lt 6 arguments) }
{
    COUNTED <= operands || COUNTED < arguments
}

/// How many arguments there are, up to seven, and the priority; `None` where a place of a number has none. Linear in them.
fn numbers_of(crowd: &Crowd, args: &Pieces<'_>, priority: &Option<Piece<'_>>) -> Option<(u8, i64)>
    ensures lacks { IfNone result (has_numbers crowd.now args.now priority.now ≡ false) }
    ensures has { IfSome result (λ _. has_numbers crowd.now args.now priority.now ≡ true) }
    ensures count { IfSome result (λ numbers. numbers.0 ≤ length args.now) }
    ensures priority { IfSome result (λ numbers. numbers.1 ≡ priority_said priority.now) }
{
    if !crowd.numbered {
        return None;
    }
    Some((argument_count(args)?, priority_of(priority)?))
}

/// The first reason against a call of this codelet with so many arguments and this priority, by what shows in its operands. The
/// codelet is looked up in the table.
fn call_complaint<C: Codelets>(
    names: &Names,
    codelet: &Piece<'_>,
    crowd: Crowd,
    count: u8,
    priority: i64,
    codelets: &C,
) -> Option<Reason>
    requires { HasStandings names.now }
    ensures { result ≡ first_of (call_reasons C.has (scope_in names.now) codelet.now crowd
        count priority) }
{
    if STATEMENTS <= names.statements {
        Some(Reason::Limit(LimitKind::Statements))
    } else if !has_priority(priority) {
        Some(Reason::Limit(LimitKind::Priority))
    } else if crowd.unknown {
        Some(Reason::UnknownName)
    } else if crowd.ended {
        Some(Reason::EndedName)
    } else if codelets.kernel_named(codelet.bytes()).is_none() {
        Some(Reason::UnknownCodelet)
    } else if are_many(crowd.count, count) {
        Some(Reason::OperandCount)
    } else {
        None
    }
}

/// The reason against a task line of these words behind `task`, where it comes before the counting of its operands, or where
/// they or the arguments are more than any codelet has. Takes no memory. Linear in the words, but that the codelet is looked up
/// in the table.
pub fn crowd_complaint<C: Codelets>(
    names: &Names,
    words: &Words<'_>,
    codelets: &C,
) -> Option<Reason>
    requires { HasStandings names.now }
    ensures { IfSome result (λ why.
        act_in C.has (scope_in names.now) (codes "task" ∷ words.now) ≡ Err why) }
{
    let Some((first, rest)) = words.split_first() else {
        return Some(Reason::Word);
    };
    let Some((codelet, args)) = bracketed(first, b'(', b')') else {
        return Some(Reason::Word);
    };
    let Some((crowd, priority)) = crowd_of(names, &rest) else {
        return Some(Reason::Word);
    };
    let Some((count, priority)) = numbers_of(&crowd, &args, &priority) else {
        return Some(Reason::Number);
    };
    call_complaint(names, &codelet, crowd, count, priority, codelets)
}
