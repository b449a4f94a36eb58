//! Which children of a root's active plan have a value.

ghost use Rattle.std.specs.Prelude.{◌≡◌, ◌<◌, ◌||◌, true, false, IsTrue, IfOk, OnOk, replicate, slice_set};
ghost use Rattle.sj_plan.specs.Parts.{IsPlace, children_count, number};
ghost use Rattle.sj_job.specs.Track.{AreMarks, IsSmallPlan, all_valued, even, is_set, marks_by, none_valued, with_child_valued};

use sj_base::memory::OutOfMemory;
use sj_plan::parts::Parts;
use std::alloc::Global;
use std::marker::Model;

/// Which of a plan's children have a value, row by row.
#[derive(Drop)]
pub enum Marks {
    /// All have.
    All,
    /// None has.
    Blank,
    /// Those have whose mark is set, by number; so many have none.
    Mixed { marks: Vec<bool>, blank: usize },
}

/// The active plan of a root, and which of its children have a value. Takes memory by the children only while some have a value
/// and others have none.
#[derive(Drop)]
pub struct Tracked {
    parts: Parts,
    marks: Marks,
}

impl Model for Tracked {
    ghost use Rattle.sj_job.specs.Track.{Track, track_by, AreMarks};

    ghost Value = { Track };

    ghost view = { λ t. track_by t.parts t.marks };

    ghost invariant = { λ t. AreMarks t.parts t.marks };
}

impl Tracked {
    /// All children of the plan have a value, or none has. Constant time, as are all calls but `write`.
    pub fn even(parts: Parts, valued: bool) -> Tracked
        requires { IsSmallPlan parts }
        ensures { result ≡ even parts valued }
    {
        let marks = if valued { Marks::All } else { Marks::Blank };
        Tracked { parts, marks }
    }

    /// The active plan.
    pub fn parts(&self) -> Parts
        ensures parts { result ≡ self.now.parts }
        ensures plan { IsSmallPlan result }
    {
        self.parts
    }

    /// Whether all children have a value.
    pub fn is_all(&self) -> bool
        ensures { result ≡ all_valued self.now }
    {
        matches!(&self.marks, Marks::All)
    }

    /// Whether no child has a value.
    pub fn is_none(&self) -> bool
        ensures { result ≡ none_valued self.now }
    {
        matches!(&self.marks, Marks::Blank)
    }

    /// Whether child `[i, j]` has a value.
    pub fn is_valued(&self, i: u32, j: u32) -> bool
        requires { IsPlace self.now.parts (i, j) }
        ensures { result ≡ is_set self.now (i, j) }
    {
        match &self.marks {
            Marks::All => true,
            Marks::Blank => false,
            Marks::Mixed { marks, .. } => marks[number(self.parts, i, j)],
        }
    }

    /// Child `[i, j]` has a value from now on. Constant time, but linear in the children where it is the first with a value.
    pub fn write(&mut self, alloc: Global, i: u32, j: u32) -> Result<(), OutOfMemory>
        requires { IsPlace self.old.parts (i, j) }
        ensures { OnOk result (self.new ≡ with_child_valued self.old (i, j)) }
    {
        let place = number(self.parts, i, j);
        match &mut self.marks {
            Marks::All => Ok(()),
            Marks::Blank => {
                self.marks = first_mark(alloc, self.parts, place)?;
                Ok(())
            }
            Marks::Mixed { marks, blank } => {
                if marks[place] {
                    return Ok(());
                }
                if *blank == 1 {
                    self.marks = Marks::All;
                    return Ok(());
                }
                marks[place] = true;
                *blank -= 1;
                Ok(())
            }
        }
    }

    /// Another plan is active from now on. Each child of it has a value where all elements have one.
    pub fn plan(&mut self, parts: Parts)
        requires plan { IsSmallPlan parts }
        requires even { IsTrue (all_valued self.old || none_valued self.old) }
        ensures { self.new ≡ even parts (all_valued self.old) }
    {
        let valued = self.is_all();
        *self = Tracked::even(parts, valued);
    }

    /// No child has a value from now on.
    pub fn invalidate(&mut self)
        ensures { self.new ≡ even self.old.parts false }
    {
        self.marks = Marks::Blank;
    }
}

/// The place of child `[i, j]` in the list of a plan's children.
fn number(parts: Parts, i: u32, j: u32) -> usize
    requires plan { IsSmallPlan parts }
    requires place { IsPlace parts (i, j) }
    ensures number { result ≡ number parts (i, j) }
    ensures below { result < children_count parts }
{
    i as usize * parts.c as usize + j as usize
}

/// One child has a value, and no other has.
fn first_mark(alloc: Global, parts: Parts, place: usize) -> Result<Marks, OutOfMemory>
    requires plan { IsSmallPlan parts }
    requires place { place < children_count parts }
    ensures marks { IfOk result (λ m. marks_by parts m
        ≡ slice_set (replicate (children_count parts) false) place true) }
    ensures fit { IfOk result (λ m. AreMarks parts m) }
{
    let count = parts.r as usize * parts.c as usize;
    if count == 1 {
        return Ok(Marks::All);
    }
    let mut marks = vec![in alloc; false; count]?;
    marks[place] = true;
    Ok(Marks::Mixed {
        marks,
        blank: count - 1,
    })
}
