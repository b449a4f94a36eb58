//! How the words of a line are spelled.

ghost use Rattle.std.specs.Prelude.{◌≡◌, ◌==◌, ◌+◌, ◌<◌, ◌∷◌, [], not, map, drop, length, slice_index, true, IsTrue, IfOk, IfSome, MatchOption, option_map};
ghost use Rattle.std.specs.List.{before_first, after_first, list_all};
ghost use Rattle.sj_job.specs.Word.{is_name};
ghost use Rattle.sj_job.specs.Form.{keyword_of, policy_of, reduction_spelled, mode_spelled, is_bracket, pieces_of, bracketed, around_last, child_of, operand_of, each_some, priority_of, with_priority, task_form_of, values_of, fill_of, nothing_of, init_form_of, layout_with, parted, layout_of, array_form_of, vector_of, matrix_of, alone, policy_in, only_name, plan_of, redux_of, form_behind, form_of};
ghost use Rattle.sj_job.specs.Settings.{setting_of};

use crate::form::{
    ArrayForm, Form, InitForm, Keyword, OperandForm, Piece, Pieces, SettingForm, Size, TaskForm,
};
use crate::line::{Words, first_place};
use crate::word::is_name;
use memchr::memrchr;
use sj_base::few::Few;
use sj_base::memory::OutOfMemory;
use sj_base::mode::{Mode, Policy, Reduction};
use std::alloc::Global;

/// The parts of an array, where the line names them, and its values.
type Layout<'a> = (Option<(Piece<'a>, Piece<'a>)>, InitForm<'a>);

fn keyword_of(word: &[u8]) -> Option<Keyword>
    ensures { result ≡ keyword_of word.now }
{
    if word == b"vector".as_slice() {
        Some(Keyword::Vector)
    } else if word == b"matrix".as_slice() {
        Some(Keyword::Matrix)
    } else if word == b"plan".as_slice() {
        Some(Keyword::Plan)
    } else if word == b"redux".as_slice() {
        Some(Keyword::Redux)
    } else if word == b"task".as_slice() {
        Some(Keyword::Task)
    } else if word == b"print".as_slice() {
        Some(Keyword::Print)
    } else if word == b"invalidate".as_slice() {
        Some(Keyword::Invalidate)
    } else if word == b"unregister".as_slice() {
        Some(Keyword::Unregister)
    } else {
        None
    }
}

fn policy_of(word: &[u8]) -> Option<Policy>
    ensures { result ≡ policy_of word.now }
{
    if word == b"eager".as_slice() {
        Some(Policy::Eager)
    } else if word == b"prio".as_slice() {
        Some(Policy::Prio)
    } else if word == b"ws".as_slice() {
        Some(Policy::Ws)
    } else {
        None
    }
}

fn reduction_spelled(word: &[u8]) -> Option<Reduction>
    ensures { result ≡ reduction_spelled word.now }
{
    if word == b"plus".as_slice() {
        Some(Reduction::Plus)
    } else if word == b"least".as_slice() {
        Some(Reduction::Least)
    } else {
        None
    }
}

fn mode_spelled(word: &[u8]) -> Option<Mode>
    ensures { result ≡ mode_spelled word.now }
{
    if word == b"R".as_slice() {
        Some(Mode::R)
    } else if word == b"W".as_slice() {
        Some(Mode::W)
    } else if word == b"RW".as_slice() {
        Some(Mode::RW)
    } else if word == b"SCRATCH".as_slice() {
        Some(Mode::Scratch)
    } else if word == b"REDUX".as_slice() {
        Some(Mode::Redux)
    } else if word == b"COMMUTE".as_slice() {
        Some(Mode::Commute)
    } else {
        None
    }
}

fn is_bracket(byte: u8) -> bool
    ensures { result ≡ is_bracket byte }
{
    byte == b'(' || byte == b')' || byte == b'[' || byte == b']'
}

fn has_no_bracket(text: &[u8]) -> bool
    ensures { result ≡ list_all (λ b. not (is_bracket b)) text.now }
{
    text.iter().all(|b| !is_bracket(*b))
}

/// What stands before the first such byte of a word, and what stands after it. Linear in the word.
fn divided(word: &[u8], byte: u8) -> (&[u8], &[u8])
    ensures before { result.0.now ≡ before_first (λ b. b == byte) word.now }
    ensures after { result.1.now ≡ after_first (λ b. b == byte) word.now }
{
    let at = first_place(word, byte);
    if at == word.len() {
        return (word, &[]);
    }
    (&word[..at], &word[at + 1..])
}

/// The place of the last such byte. Linear in the word.
fn last_place(word: &[u8], byte: u8) -> Option<usize>
    ensures { MatchOption result (list_all (λ b. not (b == byte)) word.now ≡ true)
        (λ at. (at < length word.now) × (slice_index word.now at ≡ byte)
        × (list_all (λ b. not (b == byte)) (drop (at + 1) word.now) ≡ true)) }
{
    memrchr(byte, word)
}

/// What stands before the last such byte of a word and what stands after it. Linear in the word.
fn around_last(word: &[u8], byte: u8) -> Option<(&[u8], &[u8])>
    ensures { option_map (λ p. (p.0.now, p.1.now)) result ≡ around_last byte word.now }
{
    let at = last_place(word, byte)?;
    Some((&word[..at], &word[at + 1..]))
}

/// What stands between the commas of a text that a bracket closes. Linear in the text.
fn pieces_of(text: &[u8], closing: u8) -> Option<Pieces<'_>>
    ensures { result ≡ pieces_of closing text.now }
{
    match text.split_last() {
        Some((last, inner)) if *last == closing && has_no_bracket(inner) => {
            Some(Pieces::between_commas(inner))
        }
        _ => None,
    }
}

/// The name of `NAME(P1,P2,..)` and the pieces behind it, of which there are none where the name stands alone. Linear
/// in the word.
pub fn bracketed<'a>(word: &'a [u8], opening: u8, closing: u8) -> Option<(Piece<'a>, Pieces<'a>)>
    ensures parts { result ≡ bracketed opening closing word.now }
    ensures name { IfSome result (λ p. IsTrue (is_name p.0)) }
{
    let (name, text) = divided(word, opening);
    if !is_name(name) {
        return None;
    }
    if name.len() == word.len() {
        return Some((Piece::of(name), Pieces::none()));
    }
    match pieces_of(text, closing) {
        Some(pieces) => Some((Piece::of(name), pieces)),
        None => None,
    }
}

/// No index, or two numbers. Linear in the first three pieces.
fn child_of<'a>(pieces: &Pieces<'a>) -> Option<Option<(Piece<'a>, Piece<'a>)>>
    ensures { result ≡ child_of pieces.now }
{
    let Some((i, rest)) = pieces.split_first() else {
        return Some(None);
    };
    let (j, rest) = rest.split_first()?;
    match rest.split_first() {
        Some(_) => None,
        None => Some(Some((Piece::of(i), Piece::of(j)))),
    }
}

/// `NAME:MODE` or `NAME[i,j]:MODE`. Linear in the word.
pub fn operand_of<'a>(word: &'a [u8]) -> Option<OperandForm<'a>>
    ensures { result ≡ operand_of word.now }
{
    let (target, mode) = around_last(word, b':')?;
    let (name, pieces) = bracketed(target, b'[', b']')?;
    let mode = mode_spelled(mode)?;
    match child_of(&pieces) {
        Some(child) => Some(OperandForm { name, child, mode }),
        None => None,
    }
}

/// What follows `prio=`. Constant time.
fn priority_of(word: &[u8]) -> Option<&[u8]>
    ensures { option_map (λ p. p.now) result ≡ priority_of word.now }
{
    word.strip_prefix(b"prio=".as_slice())
}

/// What follows `prio=` in a word that is the last of a line. Linear in what is passed behind it.
pub fn last_priority<'a>(word: &'a [u8], rest: &Words<'a>) -> Option<Piece<'a>>
    ensures { MatchOption result
        (with_priority (word.now ∷ rest.now) ≡
        (word.now ∷ (with_priority rest.now).0, (with_priority rest.now).1))
        (λ p. with_priority (word.now ∷ rest.now) ≡ ([], Some p)) }
{
    let priority = priority_of(word)?;
    match rest.split_first() {
        Some(_) => None,
        None => Some(Piece::of(priority)),
    }
}

/// The operands that words spell, and the priority behind them. Linear in the words.
fn operands_of<'a>(
    alloc: Global,
    words: &Words<'a>,
) -> Result<Option<(Few<OperandForm<'a>>, Option<Piece<'a>>)>, OutOfMemory>
    ensures { IfOk result (λ said. said ≡ option_map
        (λ os. (os, (with_priority words.now).1))
        (each_some operand_of (with_priority words.now).0)) }
{
    let mut operands = Few::empty(alloc);
    let mut rest = words.again();
    while let Some((word, behind)) = rest.split_first() {
        if let Some(priority) = last_priority(word, &behind) {
            return Ok(Some((operands, Some(priority))));
        }
        match operand_of(word) {
            Some(operand) => operands.push(operand)?,
            None => return Ok(None),
        }
        rest = behind;
    }
    Ok(Some((operands, None)))
}

/// `CODELET OPERANDS`. Linear in the words.
fn task_form_of<'a>(alloc: Global, words: &Words<'a>) -> Result<Option<TaskForm<'a>>, OutOfMemory>
    ensures { IfOk result (λ task. task ≡ task_form_of words.now) }
{
    let Some((first, rest)) = words.split_first() else {
        return Ok(None);
    };
    let Some((codelet, args)) = bracketed(first, b'(', b')') else {
        return Ok(None);
    };
    match operands_of(alloc, &rest)? {
        Some((operands, priority)) => Ok(Some(TaskForm {
            codelet,
            args,
            operands,
            priority,
        })),
        None => Ok(None),
    }
}

/// `values V1 V2 ..`, `fill A B` or `none`. Linear in the first words.
fn init_form_of<'a>(words: &Words<'a>) -> Option<InitForm<'a>>
    ensures { result ≡ init_form_of words.now }
{
    let (first, rest) = words.split_first()?;
    if first == b"values".as_slice() {
        values_of(&rest)
    } else if first == b"fill".as_slice() {
        fill_of(&rest)
    } else if first == b"none".as_slice() {
        nothing_of(&rest)
    } else {
        None
    }
}

/// `V1 V2 ..`, with one value at least. Linear in the first.
fn values_of<'a>(words: &Words<'a>) -> Option<InitForm<'a>>
    ensures { result ≡ values_of words.now }
{
    match words.split_first() {
        Some(_) => Some(InitForm::Values(words.again())),
        None => None,
    }
}

/// `A B`. Linear in the first three words, as are the next ones in theirs.
fn fill_of<'a>(words: &Words<'a>) -> Option<InitForm<'a>>
    ensures { result ≡ fill_of words.now }
{
    let (a, rest) = words.split_first()?;
    let (b, rest) = rest.split_first()?;
    match rest.split_first() {
        Some(_) => None,
        None => Some(InitForm::Fill(Piece::of(a), Piece::of(b))),
    }
}

fn nothing_of<'a>(words: &Words<'a>) -> Option<InitForm<'a>>
    ensures { result ≡ nothing_of words.now }
{
    match words.split_first() {
        Some(_) => None,
        None => Some(InitForm::Nothing),
    }
}

/// What follows the size: `by r c` or nothing, and then the values.
fn layout_of<'a>(words: &Words<'a>) -> Option<Layout<'a>>
    ensures { result ≡ layout_of words.now }
{
    let (first, rest) = words.split_first()?;
    if first == b"by".as_slice() {
        return parted(&rest);
    }
    layout_with(None, words)
}

/// `r c` and then the values.
fn parted<'a>(words: &Words<'a>) -> Option<Layout<'a>>
    ensures { result ≡ parted words.now }
{
    let (r, rest) = words.split_first()?;
    let (c, rest) = rest.split_first()?;
    layout_with(Some((Piece::of(r), Piece::of(c))), &rest)
}

/// The values behind the parts.
fn layout_with<'a>(parts: Option<(Piece<'a>, Piece<'a>)>, words: &Words<'a>) -> Option<Layout<'a>>
    ensures { result ≡ layout_with parts.entry words.now }
{
    match init_form_of(words) {
        Some(init) => Some((parts, init)),
        None => None,
    }
}

/// A name and a size, and what follows them.
fn array_form_of<'a>(name: &'a [u8], size: Size<'a>, words: &Words<'a>) -> Option<ArrayForm<'a>>
    ensures { result ≡ array_form_of name.now size.entry words.now }
{
    if !is_name(name) {
        return None;
    }
    match layout_of(words) {
        Some((parts, init)) => Some(ArrayForm {
            name: Piece::of(name),
            size,
            parts,
            init,
        }),
        None => None,
    }
}

/// `NAME N INIT`.
fn vector_of<'a>(words: &Words<'a>) -> Option<ArrayForm<'a>>
    ensures { result ≡ vector_of words.now }
{
    let (name, rest) = words.split_first()?;
    let (n, rest) = rest.split_first()?;
    array_form_of(name, Size::Vector(Piece::of(n)), &rest)
}

/// `NAME R C INIT`.
fn matrix_of<'a>(words: &Words<'a>) -> Option<ArrayForm<'a>>
    ensures { result ≡ matrix_of words.now }
{
    let (name, rest) = words.split_first()?;
    let (r, rest) = rest.split_first()?;
    let (c, rest) = rest.split_first()?;
    array_form_of(name, Size::Matrix(Piece::of(r), Piece::of(c)), &rest)
}

/// One word.
fn alone<'a>(words: &Words<'a>) -> Option<Piece<'a>>
    ensures { result ≡ alone words.now }
{
    let (word, rest) = words.split_first()?;
    match rest.split_first() {
        Some(_) => None,
        None => Some(Piece::of(word)),
    }
}

/// `NAME`.
fn only_name<'a>(words: &Words<'a>) -> Option<Piece<'a>>
    ensures { result ≡ only_name words.now }
{
    let (name, rest) = words.split_first()?;
    match rest.split_first() {
        None if is_name(name) => Some(Piece::of(name)),
        _ => None,
    }
}

/// `NAME r c`.
fn plan_of<'a>(words: &Words<'a>) -> Option<Form<'a>>
    ensures { result ≡ plan_of words.now }
{
    let (name, rest) = words.split_first()?;
    let (r, rest) = rest.split_first()?;
    let (c, rest) = rest.split_first()?;
    match rest.split_first() {
        None if is_name(name) => Some(Form::Plan(Piece::of(name), Piece::of(r), Piece::of(c))),
        _ => None,
    }
}

/// `NAME plus` or `NAME least`.
fn redux_of<'a>(words: &Words<'a>) -> Option<Form<'a>>
    ensures { result ≡ redux_of words.now }
{
    let (name, rest) = words.split_first()?;
    let (by, rest) = rest.split_first()?;
    if rest.split_first().is_some() || !is_name(name) {
        return None;
    }
    match reduction_spelled(by) {
        Some(by) => Some(Form::Redux(Piece::of(name), by)),
        None => None,
    }
}

/// One word that is a policy's.
fn policy_in(words: &Words<'_>) -> Option<Policy>
    ensures { result ≡ policy_in words.now }
{
    policy_of(alone(words)?.bytes())
}

/// The settings line that these words spell, or `None` where they spell none. Linear in the first three.
pub fn setting_of<'a>(words: &Words<'a>) -> Option<SettingForm<'a>>
    ensures { result ≡ setting_of words.now }
{
    let (first, rest) = words.split_first()?;
    if first == b"workers".as_slice() {
        alone(&rest).map(SettingForm::Workers)
    } else if first == b"node".as_slice() {
        alone(&rest).map(SettingForm::Node)
    } else if first == b"policy".as_slice() {
        match policy_in(&rest) {
            Some(policy) => Some(SettingForm::Policy(policy)),
            None => None,
        }
    } else {
        None
    }
}

/// The form of a statement line that begins with this word. Linear in the words.
fn form_behind<'a>(
    alloc: Global,
    keyword: Keyword,
    words: &Words<'a>,
) -> Result<Option<Form<'a>>, OutOfMemory>
    ensures { IfOk result (λ form. form ≡ form_behind keyword words.now) }
{
    match keyword {
        Keyword::Vector => Ok(vector_of(words).map(Form::Register)),
        Keyword::Matrix => Ok(matrix_of(words).map(Form::Register)),
        Keyword::Plan => Ok(plan_of(words)),
        Keyword::Redux => Ok(redux_of(words)),
        Keyword::Task => Ok(task_form_of(alloc, words)?.map(Form::Task)),
        Keyword::Print => Ok(only_name(words).map(Form::Print)),
        Keyword::Invalidate => Ok(only_name(words).map(Form::Invalidate)),
        Keyword::Unregister => Ok(only_name(words).map(Form::Unregister)),
    }
}

/// The statement that these words spell, or `None` where none is spelled so. Linear in the words, but that the values of an array
/// aren't gone over.
pub fn form_of<'a>(alloc: Global, words: &Words<'a>) -> Result<Option<Form<'a>>, OutOfMemory>
    ensures { IfOk result (λ form. form ≡ form_of words.now) }
{
    let Some((first, rest)) = words.split_first() else {
        return Ok(None);
    };
    match keyword_of(first) {
        Some(keyword) => form_behind(alloc, keyword, &rest),
        None => Ok(None),
    }
}
