// Whether the entries of a block's range are variables, none of them twice.
//
// The entries that blocks cover are numbered in the order in which they are read, and those whose variables leave the
// same remainder by 1,024 are chained, the latest first: `heads` holds one more than the latest entry of each remainder
// (0: none), `prevs` one more than the next entry on each entry's chain. A variable stands twice in a block exactly if a
// walk down its chain meets it among the block's own entries. The walk ends where those of earlier blocks begin: so the
// variable of an entry is read from the block's range, and no array keeps it. At most 64 variables share a remainder, so
// that no walk takes more steps, and nothing is ever cleared.
#![tactic(auto)]

ghost use Rattle.std.specs.Prelude.{true, false, ◌≡◌, ◌+◌, ◌-◌, ◌%◌, ◌≤◌, ◌<◌, length, get_or, set};
ghost use Rattle.lists.specs.Members.{mem};
ghost use Rattle.formula.specs.Words.{range};
ghost use Rattle.acceptance.specs.Limits.{limit};
ghost use Rattle.acceptance.specs.Verdict.{is_number};
ghost use Rattle.range_check.specs.Chains.{good_range, buckets, Ready, Chains, Chain, is_new};

use acceptance::LIMIT;

// Entries are chained by the remainders that their variables leave by this.
pub const BUCKETS: usize = 1024;

// Variables are numbered from 1 to this.
const HIGHEST_VARIABLE: u32 = 65535;

// Whether a number is a variable.
pub fn is_number(x: u32) -> bool
    ensures { result ≡ is_number x }
{
    (1 <= x) & (x <= HIGHEST_VARIABLE)
}

// The entries that blocks cover, chained.
#[derive(Drop)]
pub struct EntryChains {
    pub heads: [u16; BUCKETS],
    pub prevs: [u16; LIMIT],
    // how many entries the blocks so far cover
    pub entries: usize,
}

impl EntryChains {
    // No entry is chained.
    pub fn new() -> EntryChains
        ensures { (result.entries ≡ 0) × Ready result }
    {
        EntryChains {
            heads: [0; BUCKETS],
            prevs: [0; LIMIT],
            entries: 0,
        }
    }

    // Whether the entries of the next block's range are variable numbers, none of them twice. Then they are chained.
    pub fn good_range(&mut self, list: &[u32], first: usize, count: usize) -> bool
        requires count_bound { (self.old.entries + count ≤ limit) × (first + count ≤ length list.now) }
        requires ready { Ready self.old }
        ensures value { result ≡ good_range list.now first count }
        ensures entries { result ≡ true → self.new.entries ≡ self.old.entries + count }
        ensures refused { result ≡ false → self.new.entries ≡ self.old.entries }
        ensures ready_2 { result ≡ true → Ready self.new }
    {
        let before = self.entries;
        for k in 0..count {
            if !self.enter(list, before, first, k) {
                return false;
            }
        }
        self.entries = before + count;
        true
    }

    // Chains entry k of a block, unless it is no variable or the same as one of the k entries before it; whether it did.
    // The blocks before cover `before` entries.
    fn enter(&mut self, list: &[u32], before: usize, first: usize, k: usize) -> bool
        requires k_bound { (before + k < limit) × (first + k < length list.now) }
        requires chains { Chains list.now self.old.heads self.old.prevs before first k }
        ensures value { result ≡ is_new list.now first k }
        ensures chains_2 { result ≡ true → Chains list.now self.new.heads self.new.prevs before first (k + 1) }
        ensures entries { self.new.entries ≡ self.old.entries }
    {
        let x = list[first + k];
        if !is_number(x) {
            return false;
        }
        let head = self.heads[x as usize % BUCKETS];
        if self.in_chain(list, before, first, head, x) {
            return false;
        }
        self.push(before + k, x);
        true
    }

    // Whether x is the variable of one of the block's own entries on the chain from `head`.
    fn in_chain(&self, list: &[u32], before: usize, first: usize, head: u16, x: u32) -> bool
        requires { Chain list.now self.now.prevs before first x head }
        ensures { result ≡ mem x (range list.now first (head - before)) }
    {
        let mut c = head as usize;
        while before < c {
            let k = c - before - 1;
            if list[first + k] == x {
                return true;
            }
            c = self.prevs[before + k] as usize;
        }
        false
    }

    // Puts entry e, whose variable is x, at the head of its chain.
    fn push(&mut self, e: usize, x: u32)
        requires e_lt_limit { e < limit }
        requires heads_len { (length self.old.heads ≡ buckets) × (length self.old.prevs ≡ limit) }
        ensures heads_after { self.new.heads ≡ set self.old.heads (x % buckets) (e + 1) }
        ensures prevs_after { self.new.prevs ≡ set self.old.prevs e (get_or self.old.heads (x % buckets) 0) }
        ensures entries { self.new.entries ≡ self.old.entries }
    {
        let h = x as usize % BUCKETS;
        let head = self.heads[h];
        self.prevs[e] = head;
        self.heads[h] = (e + 1) as u16;
    }
}
