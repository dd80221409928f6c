// The stack of what is pending in lent numbers.
ghost use Rattle.std.specs.Prelude.{◌≡◌, ◌+◌, ◌*◌, ◌<◌, ◌≤◌, ◌++◌, length};
ghost use Rattle.schema.specs.declared.reading.TheConstants.{STACK};

use crate::nodes::{Run, Sort};

impl Sort {
    ghost use Rattle.schema.specs.Nodes.{sort_of};
    ghost use Rattle.schema.specs.Stacks.{number_sort};

    // The sort that was pushed as this number; no TryFrom, as only what was pushed is read and its error would never be met.
    fn pushed_as(number: u64) -> Sort
        ensures { sort_of result ≡ number_sort number }
    {
        match number {
            0 => Sort::ARule,
            1 => Sort::ASchema,
            2 => Sort::AGroup,
            _ => Sort::AField,
        }
    }
}

impl From<Sort> for u64 {
    ghost use Rattle.schema.specs.Nodes.{sort_of};
    ghost use Rattle.schema.specs.Stacks.{number_sort};

    ghost from_gives = { λ s n. number_sort n ≡ sort_of s };

    fn from(sort: Sort) -> u64 {
        sort as u64
    }
}

// Two numbers of lent memory for each run, a sort and how many of it, the top one last.
#[derive(Drop)]
pub(crate) struct Stack<'a> {
    pub(crate) runs: &'a mut [[u64; 2]],
    pub(crate) depth: usize,
    ghost room: { STACK ≤ 2 * length runs.now },
    ghost deep: { 2 * depth ≤ STACK },
}

impl Stack<'_> {
    ghost use Rattle.sequence.specs.Grammar.{many};
    ghost use Rattle.schema.specs.Nodes.{sort_of};
    ghost use Rattle.schema.specs.Stacks.{pending, Pops};

    #[tactic(auto, using(crate::proofs::Stacks::pushed))]
    pub(crate) fn push(&mut self, run: Run)
        requires { 2 * self.old.depth < STACK }
        ensures pushed { pending self.new.runs.now self.new.depth ≡ many run.count (sort_of run.sort) ++ pending self.old.runs.now self.old.depth }
        ensures depth { self.new.depth ≡ self.old.depth + 1 }
    {
        self.runs[self.depth] = [u64::from(run.sort), run.count];
        self.depth += 1;
    }

    // Takes what is next, and the empty runs above it.
    #[tactic(auto, using(crate::proofs::Stacks::taken_top, crate::proofs::Stacks::emptied_top), unfolding(crate::specs::Stacks::pending))]
    pub(crate) fn pop(&mut self) -> Option<Sort>
        ensures popped { Pops (pending self.old.runs.now self.old.depth) (pending self.new.runs.now self.new.depth) result }
        ensures depth { self.new.depth ≤ self.old.depth }
    {
        while let Some(top) = self.depth.checked_sub(1) {
            let [sort, count] = self.runs[top];
            if count > 0 {
                self.runs[top] = [sort, count - 1];
                return Some(Sort::pushed_as(sort));
            }
            self.depth = top;
        }
        None
    }
}
