// Which variables an operator binds, and what to.
ghost use Rattle.std.specs.Prelude.{◌≡◌, ℕ, IfOk, OnOk, None, option_map};
ghost use Rattle.std.specs.List.{list_all};
ghost use Rattle.plan_core.specs.PlanMade.{op_of};
ghost use Rattle.plan_core.specs.Shapes.{shape_of};
ghost use Rattle.plan_core.specs.Valid.{with_kind, kept, either_kind};
ghost use Rattle.plan_read.specs.Scopes.{kind_of, kinds_in, is_a_node, is_a_list, is_a_made, keys_fit, test_fits, piece_fits, single_fits, shape_fits, kinds_above};

use mix_tree::{Key, Operand, Test, TestOp, Var};
use plan_core::{Op, Piece};
use std::alloc::{AllocError, Global};
use std::collections::BTreeMap;

/// What a variable is bound to.
#[derive(Clone, Copy, PartialEq, Eq)]
pub enum Bound {
    Node,
    Element,
    List,
}

/// The variables that an operator binds, by their numbers.
#[derive(Drop)]
pub struct Scope {
    vars: BTreeMap<u32, Bound>,
}

impl Scope {
    /// No variables.
    pub fn new(alloc: Global) -> Scope
        ensures { (v : ℕ) → kinds_in result v ≡ None }
    {
        Scope {
            vars: BTreeMap::new(alloc),
        }
    }

    // What a variable is bound to.
    fn bound(&self, var: Var) -> Option<Bound>
        ensures { option_map kind_of result ≡ kinds_in self.now var }
    {
        self.vars.get(&var.number()).copied()
    }

    // Whether a variable is bound to a source node.
    fn is_node(&self, var: Var) -> bool
        ensures { result ≡ is_a_node (kinds_in self.now var) }
    {
        self.bound(var) == Some(Bound::Node)
    }

    // Whether each key is of a variable that is bound to a source node.
    fn are_nodes(&self, keys: &[Key]) -> bool
        ensures { result ≡ keys_fit (kinds_in self.now) keys.now }
    {
        keys.iter().all(|key| self.is_node(key.var()))
    }

    /// Binds a variable more.
    pub fn bind(&mut self, var: Var, bound: Bound) -> Result<(), AllocError>
        ensures { OnOk result ((v : ℕ) → kinds_in self.new v ≡ with_kind var (kind_of bound) (kinds_in self.old) v) }
    {
        self.vars.insert(var.number(), bound)?;
        Ok(())
    }

    // The variables of the keys alone.
    fn kept(&self, alloc: Global, keys: &[Key]) -> Result<Scope, AllocError>
        ensures { IfOk result (λ s. (v : ℕ) → kinds_in s v ≡ kept keys.now (kinds_in self.now) v) }
    {
        let mut kept = Scope::new(alloc);
        'keys: for key in keys {
            if let Some(bound) = self.bound(key.var()) {
                kept.bind(key.var(), bound)?;
            }
        }
        Ok(kept)
    }

    // Binds a variable more.
    fn with(self, var: Var, bound: Bound) -> Result<Scope, AllocError>
        ensures { IfOk result (λ s. (v : ℕ) → kinds_in s v ≡ with_kind var (kind_of bound) (kinds_in self) v) }
    {
        let mut scope = self;
        scope.bind(var, bound)?;
        Ok(scope)
    }

    // Binds the variables of another scope too. What the other one binds them to counts.
    fn with_first(self, first: Scope) -> Result<Scope, AllocError>
        ensures { IfOk result (λ s. (v : ℕ) → kinds_in s v ≡ either_kind (kinds_in first v) (kinds_in self v)) }
    {
        let mut scope = self;
        let mut first = first;
        scope.vars.append(&mut first.vars)?;
        Ok(scope)
    }

    // Binds the variables of another scope that aren't bound here.
    fn add_others(&mut self, other: &Scope) -> Result<(), AllocError>
        ensures { OnOk result ((v : ℕ) → kinds_in self.new v ≡ either_kind (kinds_in self.old v) (kinds_in other.now v)) }
    {
        'others: for (var, bound) in other.vars.iter() {
            if !self.vars.contains_key(var) {
                self.vars.insert(*var, *bound)?;
            }
        }
        Ok(())
    }

    /// The variables of both scopes; the left one's where both bind it. The smaller one is gone through.
    pub fn joined(left: Scope, right: Scope) -> Result<Scope, AllocError>
        ensures { IfOk result (λ s. (v : ℕ) → kinds_in s v ≡ either_kind (kinds_in left v) (kinds_in right v)) }
    {
        if left.vars.len() < right.vars.len() {
            return right.with_first(left);
        }
        let mut joined = left;
        joined.add_others(&right)?;
        Ok(joined)
    }

    // Whether what a comparison uses is bound here, and of the kind that it needs.
    fn fits_test(&self, test: &Test) -> bool
        ensures { result ≡ test_fits (kinds_in self.now) test.now }
    {
        let fits = match &test.right {
            Operand::Var(var) => self.is_node(*var),
            Operand::Text(_) => test.op != TestOp::Same,
        };
        fits && self.is_node(test.left)
    }

    // Whether what each comparison uses is bound here, and of the kind that it needs.
    fn fits_tests(&self, tests: &[Test]) -> bool
        ensures { result ≡ list_all (test_fits (kinds_in self.now)) tests.now }
    {
        tests.iter().all(|test| self.fits_test(test))
    }

    // Whether what a piece uses is bound here, and of the kind that it needs.
    fn fits_piece(&self, piece: &Piece) -> bool
        ensures { result ≡ piece_fits (kinds_in self.now) piece.now }
    {
        match piece {
            Piece::Var(var) => self.bound(*var).is_some(),
            Piece::LabelOf(var) => self.is_node(*var),
            Piece::Text(_) => true,
        }
    }

    // Whether what each piece uses is bound here, and of the kind that it needs.
    fn fits_pieces(&self, pieces: &[Piece]) -> bool
        ensures { result ≡ list_all (piece_fits (kinds_in self.now)) pieces.now }
    {
        pieces.iter().all(|piece| self.fits_piece(piece))
    }

    // Whether a piece is of a bound variable that isn't a list, or of a source node's label.
    fn fits_single(&self, piece: &Piece) -> bool
        ensures { result ≡ single_fits (kinds_in self.now) piece.now }
    {
        match piece {
            Piece::Var(var) => match self.bound(*var) {
                Some(Bound::List) | None => false,
                Some(_) => true,
            },
            Piece::LabelOf(var) => self.is_node(*var),
            Piece::Text(_) => true,
        }
    }

    // Whether a variable is bound to a list.
    fn is_list(&self, var: Var) -> bool
        ensures { result ≡ is_a_list (kinds_in self.now var) }
    {
        self.bound(var) == Some(Bound::List)
    }

    // Whether a variable is bound to a made element.
    fn is_element(&self, var: Var) -> bool
        ensures { result ≡ is_a_made (kinds_in self.now var) }
    {
        self.bound(var) == Some(Bound::Element)
    }

    /// Whether what an operator uses is bound here, and of the kind that it needs.
    pub fn fits(&self, op: &Op) -> bool
        ensures { result ≡ shape_fits (shape_of (op_of op.now)) (kinds_in self.now) }
    {
        match op {
            Op::Source { .. } => true,
            Op::GetDescendants { start, .. } => self.is_node(*start),
            Op::Select { test, .. } => self.fits_test(test),
            Op::Join { tests, .. } => self.fits_tests(tests),
            Op::Project { keys, .. } => self.are_nodes(keys),
            Op::GroupBy { keys, piece, .. } => self.are_nodes(keys) && self.fits_single(piece),
            Op::OrderBy { var, .. } => self.is_node(*var),
            Op::Concatenate { pieces, .. } => self.fits_pieces(pieces),
            Op::CreateElement { list, .. } => self.is_list(*list),
            Op::TupleDestroy { element, .. } => self.is_element(*element),
        }
    }

    /// The scope of an operator, over this one of its inputs.
    pub fn above(self, alloc: Global, op: &Op) -> Result<Scope, AllocError>
        ensures { IfOk result (λ s. (v : ℕ) → kinds_in s v ≡ kinds_above (shape_of (op_of op.now)) (kinds_in self) v) }
    {
        match op {
            Op::Source { out, .. } | Op::GetDescendants { out, .. } => self.with(*out, Bound::Node),
            Op::Select { .. } | Op::Join { .. } | Op::OrderBy { .. } => Ok(self),
            Op::Project { keys, .. } => self.kept(alloc, keys),
            Op::GroupBy { keys, out, .. } => self.kept(alloc, keys)?.with(*out, Bound::List),
            Op::Concatenate { out, .. } => self.with(*out, Bound::List),
            Op::CreateElement { out, .. } => self.with(*out, Bound::Element),
            Op::TupleDestroy { .. } => Ok(Scope::new(alloc)),
        }
    }
}
