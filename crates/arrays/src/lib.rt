// What the lifter's working arrays hold: predicates that its crates' contracts share (specs/), and
// their laws (proofs/).
#![tactic(auto)]

ghost use Rattle.std.specs.Prelude.{◌≡◌, ◌+◌, ◌≤◌, IfSome, suc};
ghost use Rattle.prenex_form.specs.Scope.{level};
ghost use Rattle.prenex_form.specs.Levels.{blocks_at, levels};
ghost use Rattle.arrays.specs.Held.{Started, Chained, Named};
ghost use Rattle.arrays.specs.Chains.{BlockOf, InnerBlock, blocks_from, linked};

// An accepted table, and what is known of its blocks once the new names are handed out.
#[derive(Clone, Copy)]
pub struct Blocks<'a> {
    // The table.
    pub words: &'a [u32],
    pub list: &'a [u32],
    // How many entries stand before each block's.
    pub starts: &'a [u16],
    // The inner blocks chained by level.
    pub firsts: &'a [u16],
    pub nexts: &'a [u16],
    // The first new name, the first copy, and the definition variable of each inner block.
    pub names: u32,
    pub copies: u32,
    pub definitions: &'a [u32],
    ghost started: { Started words.now list.now starts.now },
    ghost chained: { Chained words.now list.now firsts.now nexts.now },
    ghost named: { Named words.now list.now names copies definitions.now },
}

impl<'a> Blocks<'a> {
    ghost use Rattle.arrays.specs.Blocks.{table};

    // The first block of a level; the one after the deepest has none.
    //
    // The contract rules out the node below it.
    pub fn first_block(&self, level: usize) -> Option<usize>
        requires { level ≤ levels (table self.now) + 1 }
        ensures block { IfSome result (BlockOf (table self.now) level) }
        ensures blocks { linked (table self.now) level result ≡ blocks_at (table self.now) level }
    {
        (self.firsts[level] as usize).checked_sub(1)
    }

    // The block after inner block i on its level.
    //
    // The contract rules out a level that ends early.
    pub fn next_block(&self, i: usize) -> Option<usize>
        requires { InnerBlock (table self.now) i }
        ensures block { IfSome result (BlockOf (table self.now) (level (table self.now) i)) }
        ensures blocks { linked (table self.now) (level (table self.now) i) result ≡ blocks_from (table self.now) (level (table self.now) i) (suc i) }
    {
        (self.nexts[i] as usize).checked_sub(1)
    }
}
