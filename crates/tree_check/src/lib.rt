// The test that a table is a tree: how often each node is named, refusal 8, and the users of its node.
#![tactic(auto)]

ghost use Rattle.std.specs.Prelude.{true, false, List, [], ◌∷◌, ◌++◌, ◌≡◌, ℕ, ◌+◌, ◌<◌, ◌≤◌, length, get_or, replicate, MatchOption};
ghost use Rattle.lists.specs.Choice.{pick};
ghost use Rattle.lists.specs.Members.{times};
ghost use Rattle.formula.specs.Words.{node_count};
ghost use Rattle.refusals.specs.Verdict.{first_two};
ghost use Rattle.acceptance.specs.Limits.{limit};
ghost use Rattle.tree_check.specs.Named.{named_by, Counted, users_below, first_users, tree_verdict};

use formula::NodeWords;
use refusals::{Users, Verdict};

// Refusal 8, with the two lowest users of its node, of a table whose nodes are named as often as
// `named` says.
pub fn check_tree(words: &[u32], named: &[u16]) -> Verdict
    requires words_nonzero { (0 < node_count words.now) × (node_count words.now ≤ limit) }
    requires counted { Counted words.now named.now (node_count words.now) }
    ensures { result ≡ tree_verdict words.now }
{
    let last = words.len() / formula::WIDTH - 1;
    match lowest_other_than(&named[..last], 1) {
        Some(j) => {
            let x = j as u32;
            refusals::not_a_tree(x, lowest_users(words, x))
        }
        None => refusals::accepted(),
    }
}

// Node x is named once more.
pub fn count_name(x: u32, named: &mut [u16])
    requires { (x < length named.old) × (get_or named.old x 0 < 65535) }
    ensures { (y : ℕ) → get_or named.new y 0 ≡ get_or named.old y 0 + times y (x ∷ []) }
{
    named[x as usize] += 1;
}

// The lowest place whose count is not `one`, if there is one.
pub fn lowest_other_than<T: Copy + PartialEq>(counts: &[T], one: T) -> Option<usize>
    ensures { MatchOption result
        ((k : ℕ) → k < length counts.now → T.eq (get_or counts.now k one) one ≡ true)
        (λ j. (j < length counts.now) × (T.eq (get_or counts.now j one) one ≡ false)
        × ((k : ℕ) → k < j → T.eq (get_or counts.now k one) one ≡ true)) }
{
    if all_are(counts, one) {
        return None;
    }
    counts.iter().position(|count| *count != one)
}

// Whether all counts are `one`. A loop that looks at all of them is much faster than one that may
// stop, so that a tree is found to be one by this alone.
fn all_are<T: Copy + PartialEq>(counts: &[T], one: T) -> bool
    ensures { result ≡ true → (k : ℕ) → k < length counts.now
        → T.eq (get_or counts.now k one) one ≡ true }
{
    let mut all = true;
    for count in counts {
        all &= *count == one;
    }
    all
}

// The first two users of a node, and how many of the two there are; 0 for each that there is not. It is a struct of numbers
// and no enum, since the bytes of an enum that hold nothing are copied through memory at each node.
#[derive(Clone, Copy)]
struct FirstUsers {
    count: u32,
    first: u32,
    second: u32,
}

impl FirstUsers {
    // Node i is a user of node x as often as it names it.
    fn with_node(self, node: NodeWords, x: u32, i: u32) -> FirstUsers
        ensures { (us : List ℕ) → self ≡ first_users us
            → result ≡ first_users (us ++ replicate (times x (named_by node)) i) }
    {
        let operator = node.kind == formula::OPERATOR;
        let block = formula::is_block_kind(node.kind);
        let negation = node.kind == formula::NEGATION;
        let left = operator & (x == node.b);
        let right = (operator | block) & (x == node.c);
        let operand = negation & (x == node.a);
        self.with_user(left, i).with_user(right | operand, i)
    }

    // One user more, if node i is one.
    fn with_user(self, names: bool, i: u32) -> FirstUsers
        ensures { (us : List ℕ) → self ≡ first_users us
            → result ≡ first_users (us ++ replicate (pick names 1 0) i) }
    {
        if !names {
            return self;
        }
        if self.count == 0 {
            return FirstUsers {
                count: 1,
                first: i,
                second: 0,
            };
        }
        if self.count == 1 {
            return FirstUsers {
                count: 2,
                first: self.first,
                second: i,
            };
        }
        self
    }

    // The two users.
    fn users(self) -> Users
        ensures { (us : List ℕ) → self ≡ first_users us → result ≡ first_two us }
    {
        Users {
            first: self.first,
            second: self.second,
        }
    }
}

// The two lowest nodes that name node x. No node is looked at after the second.
fn lowest_users(words: &[u32], x: u32) -> Users
    requires { node_count words.now ≤ limit }
    ensures { result ≡ first_two (users_below words.now x (node_count words.now)) }
{
    let mut found = FirstUsers {
        count: 0,
        first: 0,
        second: 0,
    };
    for i in 0..words.len() / formula::WIDTH {
        found = found.with_node(formula::node_at(words, i), x, i as u32);
        if found.count == 2 {
            return found.users();
        }
    }
    found.users()
}
