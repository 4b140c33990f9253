// The prenex form of a formula table as a definition (specs/), and the proof that it has the
// table's truth value and the promised sizes (proofs/). The code here is what measuring gives, and
// the quantifiers of levels and prefix blocks.
#![tactic(auto)]

ghost use Rattle.std.specs.Prelude.{◌≡◌};
ghost use Rattle.formula.specs.Node.{dual};
ghost use Rattle.formula.specs.Form.{quantifier_of, kind_of};
ghost use Rattle.prenex_form.specs.Quantifiers.{node_quantifier};

// Document 01's sizes: n nodes, b blocks, q bound variables and the quantifier depth of a table, and
// the nodes, prefix blocks and list entries of its prenex form.
#[derive(Clone, Copy)]
pub struct Sizes {
    pub n: u32,
    pub b: u32,
    pub q: u32,
    pub depth: u32,
    pub nodes: u32,
    pub blocks: u32,
    pub entries: u32,
}

// A quantifier, as the kind of a block says it.
#[derive(Clone, Copy, PartialEq, Eq)]
pub enum Quantifier {
    Exists,
    ForAll,
}

impl Quantifier {
    // The quantifier of a block of this kind; for-all of any other node's kind.
    pub fn of_kind(kind: u32) -> Quantifier
        ensures { node_quantifier result ≡ quantifier_of kind }
    {
        if kind == formula::EXISTS_BLOCK {
            return Quantifier::Exists;
        }
        Quantifier::ForAll
    }

    // The other one.
    pub fn dual(self) -> Quantifier
        ensures { node_quantifier result ≡ dual (node_quantifier self) }
    {
        match self {
            Quantifier::Exists => Quantifier::ForAll,
            Quantifier::ForAll => Quantifier::Exists,
        }
    }

    // The kind of its blocks.
    pub fn kind(self) -> u32
        ensures { result ≡ kind_of (node_quantifier self) }
    {
        match self {
            Quantifier::Exists => formula::EXISTS_BLOCK,
            Quantifier::ForAll => formula::FOR_ALL_BLOCK,
        }
    }
}
