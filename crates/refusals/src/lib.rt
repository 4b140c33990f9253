// The numbers of the refusals, the verdict that carries one, and what a call answers and leaves
// (specs/).
#![tactic(auto)]

ghost use Rattle.std.specs.Prelude.{◌≡◌};
ghost use Rattle.refusals.specs.Verdict.{
  refusal as refusal_of,
  not_a_tree,
  accepted as accepted_of,
};

// The number of what is not refused (document 01: done).
pub const ACCEPTED: u32 = 0;

// The refusals of tables, each with document 01's word for it.
// ragged
pub const PARTIAL_NODE: u32 = 1;
// oversize
pub const TOO_LARGE: u32 = 2;
// odd node
pub const MALFORMED_NODE: u32 = 3;
// forward
pub const FORWARD_REFERENCE: u32 = 4;
// overhang
pub const RANGE_PAST_END: u32 = 5;
// crowd
pub const TOO_MANY_VARIABLES: u32 = 6;
// bad name
pub const BAD_VARIABLE: u32 = 7;
// not a tree
pub const NOT_A_TREE: u32 = 8;
// no room, of an operation that writes to lent buffers
pub const BUFFER_TOO_SHORT: u32 = 9;

// empty block (request S-6)
pub const EMPTY_BLOCK: u32 = 16;

// The refusals of QCIR texts (request S-1).
pub const MISSPELLED: u32 = 10;

pub const MISPLACED_NAME: u32 = 11;

pub const UNBOUND_VARIABLE: u32 = 12;

pub const GATE_NOT_USED_ONCE: u32 = 13;

// The refusals of prenex forms (request S-5).
pub const MALFORMED_MATRIX: u32 = 14;

pub const MALFORMED_PREFIX: u32 = 15;

// The refusals of growth reports (request S-13): more than 256 names or lines of figures, a name of more
// than 255 bytes, and, in its line, a file that can't be read.
pub const TOO_MANY_NAMES: u32 = 20;

pub const NAME_TOO_LONG: u32 = 21;

pub const UNREADABLE: u32 = 22;

// The refusals of calls from a text to a text: a format without a meaning, and memory lent to work in
// that is too short.
pub const UNKNOWN_FORMAT: u32 = 23;

pub const MEMORY_TOO_SHORT: u32 = 24;

// The two lowest nodes that name a node; a node that names it twice stands twice. 0 and 0 where there
// is nothing to say.
#[derive(Clone, Copy)]
pub struct Users {
    pub first: u32,
    pub second: u32,
}

// The number of a refusal (0: accepted), its position, and the users of the node that refusal 8 speaks
// of.
#[derive(Clone, Copy)]
pub struct Verdict {
    pub number: u32,
    pub position: u32,
    pub users: Users,
}

// A refusal that speaks of no users: any but 8.
pub fn refusal(number: u32, position: u32) -> Verdict
    ensures { result ≡ refusal_of number position }
{
    let users = Users {
        first: 0,
        second: 0,
    };
    Verdict {
        number,
        position,
        users,
    }
}

// Refusal 8, of a node with these users.
pub fn not_a_tree(position: u32, users: Users) -> Verdict
    ensures { result ≡ not_a_tree position users }
{
    Verdict {
        number: NOT_A_TREE,
        position,
        users,
    }
}

pub fn accepted() -> Verdict
    ensures { result ≡ accepted_of }
{
    refusal(ACCEPTED, 0)
}
