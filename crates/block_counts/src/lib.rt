// What is counted of the blocks of an accepted table, block by block from the root down: what gives
// the sizes of its prenex form.
#![tactic(auto)]

ghost use Rattle.std.specs.Prelude.{◌≡◌};
ghost use Rattle.block_counts.specs.Counting.{no_blocks, Small, with_root, with_inner};

// Document 01: "4 × count + 5 for each inner block".
const NODES_PER_VARIABLE: u32 = 4;

const NODES_PER_BLOCK: u32 = 5;

// How many blocks a table has and how many variables they bind, the same of the inner blocks, the
// nodes that the inner blocks add to the prenex form, and the deepest level.
#[derive(Clone, Copy, Default)]
pub struct Counts {
    pub blocks: u32,
    pub bound: u32,
    pub inner: u32,
    pub inner_bound: u32,
    pub added: u32,
    pub deepest: u32,
}

// The counts before any block.
pub fn no_blocks() -> Counts
    ensures { result ≡ no_blocks }
{
    Counts::default()
}

impl Counts {
    // Counts a root block that binds so many variables.
    pub fn count_root(&mut self, count: u32)
        requires { Small (with_root count self.old) }
        ensures { self.new ≡ with_root count self.old }
    {
        self.blocks += 1;
        self.bound += count;
    }

    // Counts an inner block of a level that binds so many variables.
    pub fn count_inner(&mut self, count: u32, level: u32)
        requires { Small (with_inner count level self.old) }
        ensures { self.new ≡ with_inner count level self.old }
    {
        self.blocks += 1;
        self.bound += count;
        self.inner += 1;
        self.inner_bound += count;
        self.added += NODES_PER_VARIABLE * count + NODES_PER_BLOCK;
        self.deepest = self.deepest.max(level);
    }
}
