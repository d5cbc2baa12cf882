//! The table of trees.
ghost use Rattle.std.specs.Prelude.{◌≡◌, ◌+◌, IfOk};
ghost use Rattle.resolved_tree.specs.Grown.{IsSound};

use crate::node::{
    ArgumentsNode, Entry, ExpressionNode, Node, NodeId, Place, StatementNode, StatementsNode,
    accesses,
};
use crate::words::{Word, Words};
use c_ints::Int;
use std::alloc::{AllocError, Global};

/// The resolved trees of functions, with their names. A tree is added after its parts, and never changes. Where a number
/// names no tree, or one of another kind, what stands there is a constant 0, no arguments, an empty statement or no
/// statements.
#[derive(Drop)]
pub struct Trees {
    words: Words,
    entries: Vec<Entry>,
    ghost sound: { IsSound words entries.items },
}

impl Trees {
    ghost use Rattle.std.specs.Prelude.{◌≡◌, ◌+◌, ◌<◌, ◌^◌, IsTrue, IfOk, OnOk, OnErr, [], ◌∷◌, ◌++◌, length, Some, slice_get, bytes_eq};
    ghost use Rattle.name_sets.specs.Texts.{with_text};
    ghost use Rattle.c_semantics.specs.Resolved.{NoStatements};
    ghost use Rattle.c_semantics.specs.Points.{size, size_all, size_if, size_parts, size_read, size_stmt, size_stmts};
    ghost use Rattle.c_semantics.specs.Evaluation.{count};
    ghost use Rattle.resolved_tree.specs.Nodes.{tree_at, word, expression_at, expression_if, expression_of, arguments_at, arguments_of, statement_at, statement_of, statements_at, statements_of, place_of, made, with_node, points_of};
    ghost use Rattle.resolved_tree.specs.Parts.{is_within};
    ghost use Rattle.resolved_tree.specs.Trees.{table};

    /// No trees and no names. It takes no memory yet.
    pub fn new(alloc: Global) -> Trees
        ensures { table result ≡ record { words = []; trees = [] } }
    {
        Trees {
            words: Words::new(alloc),
            entries: Vec::new(alloc),
        }
    }

    /// The allocator of the table.
    pub fn allocator(&self) -> Global {
        *self.entries.allocator()
    }

    /// The word of a name or of a format, which is added if it isn't there. Lack of memory changes nothing.
    pub fn word(&mut self, text: &str) -> Result<Word, AllocError>
        ensures table { OnOk result (table self.new
            ≡ record (table self.old) { words = with_text (table self.old).words text.now }) }
        ensures word { IfOk result (λ w. word (table self.new) w ≡ text.now) }
        ensures within { IfOk result (λ w. w.0 < length (table self.new).words) }
        ensures fault { OnErr result (table self.new ≡ table self.old) }
    {
        let word = self.words.add(text)?;
        Ok(word)
    }

    /// The text of a word, which is empty where there is no such word.
    pub fn text(&self, name: Word) -> &str
        ensures { result.now ≡ word (table self.now) name }
    {
        self.words.text(name)
    }

    /// Whether two words have the same text.
    pub fn same(&self, a: Word, b: Word) -> bool
        ensures { result ≡ bytes_eq (word (table self.now) a) (word (table self.now) b) }
    {
        self.words.same(a, b)
    }

    /// How many words there are.
    pub fn word_count(&self) -> usize
        ensures { result ≡ length (table self.now).words }
    {
        self.words.len()
    }

    /// How many trees there are.
    pub fn len(&self) -> usize
        ensures { result ≡ length (table self.now).trees }
    {
        self.entries.len()
    }

    /// A number that no tree of the table has, so that no statements stand there.
    pub fn nowhere(&self) -> NodeId
        ensures { statements_at (table self.now) result ≡ NoStatements }
    {
        NodeId(self.len())
    }

    /// Adds a tree that is made of a node. Its parts are trees that are there, and its words have texts. Lack of memory
    /// changes nothing; it's also told where the tree would have 2^32 points or more.
    pub fn push(&mut self, node: Node) -> Result<NodeId, AllocError>
        requires { IsTrue (is_within (length (table self.old).words)
            (length (table self.old).trees) node) }
        ensures tree { OnOk result (table self.new ≡ with_node (table self.old) node) }
        ensures id { IfOk result (λ id. id.0 ≡ length (table self.old).trees) }
        ensures count { OnOk result (length (table self.new).trees ≡ length (table self.old).trees + 1) }
        ensures words { OnOk result ((table self.new).words ≡ (table self.old).words) }
        ensures fault { OnErr result (table self.new ≡ table self.old) }
    {
        let Ok(points) = u32::try_from(self.total(node)) else {
            return Err(AllocError);
        };
        let id = NodeId(self.entries.len());
        self.entries.push(Entry { node, points })?;
        Ok(id)
    }

    /// What a tree is made of.
    pub fn node(&self, id: NodeId) -> Node
        ensures { made (table self.now) result ≡ tree_at (table self.now) id }
    {
        match self.entries.get(id.0) {
            Some(entry) => entry.node,
            None => Node::Expression(ExpressionNode::Constant(Int::I32(0))),
        }
    }

    /// How many points a tree has.
    pub fn points(&self, id: NodeId) -> u32
        ensures { result ≡ points_of (tree_at (table self.now) id) }
    {
        match self.entries.get(id.0) {
            Some(entry) => entry.points,
            None => 0,
        }
    }

    /// What an expression is made of.
    pub fn expression(&self, id: NodeId) -> ExpressionNode
        ensures { expression_of (table self.now) result ≡ expression_at (table self.now) id }
    {
        match self.node(id) {
            Node::Expression(node) => node,
            Node::Arguments(_) | Node::Statement(_) | Node::Statements(_) => {
                ExpressionNode::Constant(Int::I32(0))
            }
        }
    }

    /// What arguments are made of.
    pub fn arguments(&self, id: NodeId) -> ArgumentsNode
        ensures { arguments_of (table self.now) result ≡ arguments_at (table self.now) id }
    {
        match self.node(id) {
            Node::Arguments(node) => node,
            Node::Expression(_) | Node::Statement(_) | Node::Statements(_) => ArgumentsNode::None,
        }
    }

    /// What a statement is made of.
    pub fn statement(&self, id: NodeId) -> StatementNode
        ensures { statement_of (table self.now) result ≡ statement_at (table self.now) id }
    {
        match self.node(id) {
            Node::Statement(node) => node,
            Node::Expression(_) | Node::Arguments(_) | Node::Statements(_) => StatementNode::Empty,
        }
    }

    /// What statements are made of.
    pub fn statements(&self, id: NodeId) -> StatementsNode
        ensures { statements_of (table self.now) result ≡ statements_at (table self.now) id }
    {
        match self.node(id) {
            Node::Statements(node) => node,
            Node::Expression(_) | Node::Arguments(_) | Node::Statement(_) => StatementsNode::None,
        }
    }

    /// How many points an expression has.
    pub fn expression_points(&self, id: NodeId) -> u32
        ensures { result ≡ size (expression_at (table self.now) id) }
    {
        match self.node(id) {
            Node::Expression(_) => self.points(id),
            Node::Arguments(_) | Node::Statement(_) | Node::Statements(_) => 0,
        }
    }

    /// How many points arguments have.
    pub fn arguments_points(&self, id: NodeId) -> u32
        ensures { result ≡ size_all (arguments_at (table self.now) id) }
    {
        match self.node(id) {
            Node::Arguments(_) => self.points(id),
            Node::Expression(_) | Node::Statement(_) | Node::Statements(_) => 0,
        }
    }

    /// How many points a statement has.
    pub fn statement_points(&self, id: NodeId) -> u32
        ensures { result ≡ size_stmt (statement_at (table self.now) id) }
    {
        match self.node(id) {
            Node::Statement(_) => self.points(id),
            Node::Expression(_) | Node::Arguments(_) | Node::Statements(_) => 0,
        }
    }

    /// How many points statements have.
    pub fn statements_points(&self, id: NodeId) -> u32
        ensures { result ≡ size_stmts (statements_at (table self.now) id) }
    {
        match self.node(id) {
            Node::Statements(_) => self.points(id),
            Node::Expression(_) | Node::Arguments(_) | Node::Statement(_) => 0,
        }
    }

    /// How many points the parts of a place have: its index or its handle.
    pub fn parts_points(&self, place: Place) -> u32
        ensures { result ≡ size_parts (place_of (table self.now) place) }
    {
        match place {
            Place::Local(_) | Place::Global(_) => 0,
            Place::Element(_, part) | Place::Field(_, part, _) => self.expression_points(part),
        }
    }

    /// The number of the first point after an expression whose first point has a number. Lack of memory is reported where it
    /// would be 2^32 or more, which no function reaches.
    pub fn behind(&self, n: u32, id: NodeId) -> Result<u32, AllocError>
        ensures { IfOk result (λ m. m ≡ n + size (expression_at (table self.now) id)) }
    {
        sum(n, self.expression_points(id))
    }

    /// The same after an expression that may be absent.
    pub fn after_if(&self, n: u32, id: Option<NodeId>) -> Result<u32, AllocError>
        ensures { IfOk result (λ m. m ≡ n + size_if (expression_if (table self.now) id)) }
    {
        match id {
            Some(id) => self.behind(n, id),
            None => Ok(n),
        }
    }

    /// The same after arguments.
    pub fn after_arguments(&self, n: u32, id: NodeId) -> Result<u32, AllocError>
        ensures { IfOk result (λ m. m ≡ n + size_all (arguments_at (table self.now) id)) }
    {
        sum(n, self.arguments_points(id))
    }

    /// The same after a statement.
    pub fn after_statement(&self, n: u32, id: NodeId) -> Result<u32, AllocError>
        ensures { IfOk result (λ m. m ≡ n + size_stmt (statement_at (table self.now) id)) }
    {
        sum(n, self.statement_points(id))
    }

    /// The same after statements.
    pub fn after_statements(&self, n: u32, id: NodeId) -> Result<u32, AllocError>
        ensures { IfOk result (λ m. m ≡ n + size_stmts (statements_at (table self.now) id)) }
    {
        sum(n, self.statements_points(id))
    }

    /// The same after the parts of a place.
    pub fn after_parts(&self, n: u32, place: Place) -> Result<u32, AllocError>
        ensures { IfOk result (λ m. m ≡ n + size_parts (place_of (table self.now) place)) }
    {
        sum(n, self.parts_points(place))
    }

    /// The same after the read of a place.
    pub fn after_read(&self, n: u32, place: Place) -> Result<u32, AllocError>
        ensures { IfOk result (λ m. m ≡ n + size_read (place_of (table self.now) place)) }
    {
        sum(n, accesses(place) as u32)
    }

    /// How many arguments there are. Lack of memory is reported where there are 2^64 or more.
    pub fn count(&self, arguments: NodeId) -> Result<usize, AllocError>
        ensures { IfOk result (λ n. n ≡ count (arguments_at (table self.now) arguments)) }
    {
        let mut so_far = 0;
        let mut rest = arguments;
        while let ArgumentsNode::Then(_, next) = self.arguments(rest) {
            so_far = later(so_far)?;
            rest = next;
        }
        Ok(so_far)
    }

    /// How many points a tree made of a node has.
    fn total(&self, node: Node) -> u64
        ensures { result ≡ points_of (made (table self.now) node) }
    {
        match node {
            Node::Expression(node) => self.expression_total(node),
            Node::Arguments(ArgumentsNode::None) | Node::Statements(StatementsNode::None) => 0,
            Node::Arguments(ArgumentsNode::Then(first, rest)) => {
                self.expression_points(first) as u64 + self.arguments_points(rest) as u64
            }
            Node::Statement(node) => self.statement_total(node),
            Node::Statements(StatementsNode::Then(first, rest)) => {
                self.statement_points(first) as u64 + self.statements_points(rest) as u64
            }
        }
    }

    /// How many points an expression made of a node has.
    fn expression_total(&self, node: ExpressionNode) -> u64
        ensures { result ≡ size (expression_of (table self.now) node) }
    {
        match node {
            ExpressionNode::Constant(_) => 0,
            ExpressionNode::Read(place) => self.parts(place) + accesses(place),
            ExpressionNode::Unary(_, a) | ExpressionNode::Convert(_, a) => self.of(a),
            ExpressionNode::Binary(_, a, b)
            | ExpressionNode::And(a, b)
            | ExpressionNode::Or(a, b) => self.of(a) + self.of(b),
            ExpressionNode::Choice(c, a, b) => self.of(c) + self.of(a) + self.of(b),
            ExpressionNode::Assign(place, e) => self.parts(place) + self.of(e) + accesses(place),
            ExpressionNode::Update(_, _, place, e) => {
                self.parts(place) + accesses(place) + self.of(e) + accesses(place)
            }
            ExpressionNode::Postfix(_, _, place) => {
                self.parts(place) + accesses(place) + accesses(place)
            }
            ExpressionNode::Call(_, arguments) => self.arguments_points(arguments) as u64 + 2,
            ExpressionNode::Print(_, arguments) => self.arguments_points(arguments) as u64 + 1,
            ExpressionNode::Free(_, e) | ExpressionNode::Join(e) => self.of(e) + 1,
            ExpressionNode::Create(place, _, e) => self.parts(place)
                + self.of(e)
                + 1
                + accesses(place),
            ExpressionNode::JoinInto(e, place) => self.of(e)
                + self.parts(place)
                + 1
                + accesses(place),
            ExpressionNode::New(_)
            | ExpressionNode::InitMutex(_)
            | ExpressionNode::Lock(_)
            | ExpressionNode::Unlock(_) => 1,
        }
    }

    /// How many points a statement made of a node has.
    fn statement_total(&self, node: StatementNode) -> u64
        ensures { result ≡ size_stmt (statement_of (table self.now) node) }
    {
        match node {
            StatementNode::Empty | StatementNode::Break | StatementNode::Continue => 0,
            StatementNode::Block(ss) => self.statements_points(ss) as u64,
            StatementNode::Evaluate(e) => self.of(e),
            StatementNode::Declare(_, _, e) => self.points_if(e),
            StatementNode::If(c, s) => self.of(c) + self.body(s),
            StatementNode::IfElse(c, a, b) => self.of(c) + self.body(a) + self.body(b),
            StatementNode::While(c, s) | StatementNode::DoWhile(s, c) => self.of(c)
                + self.body(s)
                + 1,
            StatementNode::For(first, test, step, s) => {
                let loops = self.points_if(test) + self.body(s) + self.points_if(step);
                self.statements_points(first) as u64 + loops + 1
            }
            StatementNode::Return(e) => self.of(e) + 1,
            StatementNode::UpdatePoint => 2,
            StatementNode::Transaction(ss) => self.statements_points(ss) as u64 + 4,
        }
    }

    /// How many points an expression has, as a number of 64 bits.
    fn of(&self, id: NodeId) -> u64
        ensures value { result ≡ size (expression_at (table self.now) id) }
        ensures small { result < 2 ^ 32 }
    {
        self.expression_points(id) as u64
    }

    /// The same of a statement.
    fn body(&self, id: NodeId) -> u64
        ensures value { result ≡ size_stmt (statement_at (table self.now) id) }
        ensures small { result < 2 ^ 32 }
    {
        self.statement_points(id) as u64
    }

    /// The same of the parts of a place.
    fn parts(&self, place: Place) -> u64
        ensures value { result ≡ size_parts (place_of (table self.now) place) }
        ensures small { result < 2 ^ 32 }
    {
        self.parts_points(place) as u64
    }

    /// How many points an expression has that may be absent.
    fn points_if(&self, id: Option<NodeId>) -> u64
        ensures value { result ≡ size_if (expression_if (table self.now) id) }
        ensures small { result < 2 ^ 32 }
    {
        match id {
            Some(id) => self.expression_points(id) as u64,
            None => 0,
        }
    }
}

/// The sum of two numbers of points, or lack of memory where it's too large.
pub fn sum(a: u32, b: u32) -> Result<u32, AllocError>
    ensures { IfOk result (λ n. n ≡ a + b) }
{
    a.checked_add(b).ok_or(AllocError)
}

/// One more, or lack of memory where it's too large.
pub fn later(n: usize) -> Result<usize, AllocError>
    ensures { IfOk result (λ m. m ≡ n + 1) }
{
    n.checked_add(1).ok_or(AllocError)
}
