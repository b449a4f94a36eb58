//! The forms of a line: how its words are spelled, with the words that stand in the places of numbers.

ghost use Rattle.std.specs.Prelude.{◌≡◌, ◌==◌, ◌∷◌, [], MatchOption};
ghost use Rattle.std.specs.List.{slice_split};

use crate::line::{Words, first_place};
use sj_base::few::Few;
use sj_base::mode::{Mode, Policy, Reduction};
use std::marker::Model;

/// A word, or a part of one. Contracts see its bytes.
#[derive(Drop)]
pub struct Piece<'a> {
    bytes: &'a [u8],
}

impl<'a> Model for Piece<'a> {
    ghost use Rattle.std.specs.Prelude.{List, ℕ};

    ghost Value = { List ℕ };

    ghost view = { λ p. p.bytes.now };
}

impl<'a> Piece<'a> {
    /// These bytes, in constant time.
    pub fn of(bytes: &'a [u8]) -> Piece<'a>
        ensures { result ≡ bytes.now }
    {
        Piece { bytes }
    }

    /// The bytes, in constant time.
    pub fn bytes(&self) -> &'a [u8]
        ensures { result.now ≡ self.now }
    {
        self.bytes
    }
}

/// Parts of a word, in order: what stands between the commas of a text, if there is one. Contracts see a list of lists of bytes.
#[derive(Drop)]
pub struct Pieces<'a> {
    text: Option<&'a [u8]>,
}

impl<'a> Model for Pieces<'a> {
    ghost use Rattle.std.specs.Prelude.{List, ℕ, option_map};
    ghost use Rattle.sj_job.specs.Word.{pieces_in};

    ghost Value = { List (List ℕ) };

    ghost view = { λ p. pieces_in (option_map (λ t. t.now) p.text) };
}

impl<'a> Pieces<'a> {
    /// No piece, in constant time.
    pub fn none() -> Pieces<'a>
        ensures { result ≡ [] }
    {
        Pieces { text: None }
    }

    /// What stands between the commas of a text. Constant time.
    pub fn between_commas(text: &'a [u8]) -> Pieces<'a>
        ensures { result ≡ slice_split (λ b. b == 44) text.now }
    {
        Pieces { text: Some(text) }
    }

    /// The same pieces once more. Constant time.
    pub fn again(&self) -> Pieces<'a>
        ensures { result ≡ self.now }
    {
        Pieces { text: self.text }
    }

    /// The first piece and those behind it, or `None` where there is no piece. Linear in the first.
    pub fn split_first(&self) -> Option<(&'a [u8], Pieces<'a>)>
        ensures { MatchOption result (self.now ≡ []) (λ cut. self.now ≡ cut.0.now ∷ cut.1) }
    {
        match self.text {
            Some(text) => Some(first_piece(text)),
            None => None,
        }
    }
}

fn first_piece(text: &[u8]) -> (&[u8], Pieces<'_>)
    ensures { slice_split (λ b. b == 44) text.now ≡ result.0.now ∷ result.1 }
{
    let at = first_place(text, b',');
    if at == text.len() {
        return (text, Pieces::none());
    }
    (&text[..at], Pieces::between_commas(&text[at + 1..]))
}

/// The first word of a statement line.
#[derive(Clone, Copy)]
pub enum Keyword {
    Vector,
    Matrix,
    Plan,
    Redux,
    Task,
    Print,
    Invalidate,
    Unregister,
}

/// The dimensions that a registration names: `vector NAME N` or `matrix NAME R C`.
#[derive(Drop)]
pub enum Size<'a> {
    Vector(Piece<'a>),
    Matrix(Piece<'a>, Piece<'a>),
}

/// `values V1 V2 ..`, `fill A B` or `none`.
#[derive(Drop)]
pub enum InitForm<'a> {
    Values(Words<'a>),
    Fill(Piece<'a>, Piece<'a>),
    Nothing,
}

/// `vector NAME N INIT` or `matrix NAME R C INIT`, with `by r c` before the values or without.
#[derive(Drop)]
pub struct ArrayForm<'a> {
    pub name: Piece<'a>,
    pub size: Size<'a>,
    pub parts: Option<(Piece<'a>, Piece<'a>)>,
    pub init: InitForm<'a>,
}

/// `NAME:MODE` or `NAME[i,j]:MODE`.
#[derive(Drop)]
pub struct OperandForm<'a> {
    pub name: Piece<'a>,
    pub child: Option<(Piece<'a>, Piece<'a>)>,
    pub mode: Mode,
}

impl<'a> Default for OperandForm<'a> {
    /// What fills the places of a short list that no operand takes.
    fn default() -> OperandForm<'a> {
        OperandForm {
            name: Piece::of(&[]),
            child: None,
            mode: Mode::R,
        }
    }
}

/// `CODELET OPERANDS` or `CODELET(ARGUMENTS) OPERANDS`, with `prio=P` behind or without.
#[derive(Drop)]
pub struct TaskForm<'a> {
    pub codelet: Piece<'a>,
    /// None where the codelet's name stands alone.
    pub args: Pieces<'a>,
    pub operands: Few<OperandForm<'a>>,
    pub priority: Option<Piece<'a>>,
}

/// A settings line: `workers N`, `node BYTES` or `policy P`.
#[derive(Drop)]
pub enum SettingForm<'a> {
    Workers(Piece<'a>),
    Node(Piece<'a>),
    Policy(Policy),
}

/// A statement line.
#[derive(Drop)]
pub enum Form<'a> {
    Register(ArrayForm<'a>),
    Plan(Piece<'a>, Piece<'a>, Piece<'a>),
    Redux(Piece<'a>, Reduction),
    Task(TaskForm<'a>),
    Print(Piece<'a>),
    Invalidate(Piece<'a>),
    Unregister(Piece<'a>),
}
