//! The tree of a module text, as it was written: `R` is a name where it stands in `Modules`, and the number
//! that it stands for once names are resolved. Each `pos` is the place of a node's first token, if nothing
//! else is said.

ghost use Rattle.std.specs.Prelude.{◌≡◌, true};
ghost use Rattle.module_tree.specs.Source.{is_source};
ghost use Rattle.module_tree.specs.DeclaredAt.{NamesGoByPosition};

use hh_base::name::Name;
use hh_base::text::Text;
use hh_base::value::{CombineWord, Dir, Kind, Pos, Value};
use host_expr::expr::Expr;
use sqlite_items::{Boxed, Items};
use std::marker::Model;

/// A name that the text refers to.
#[derive(Drop)]
pub struct NameAt<R: Drop> {
    pub pos: Pos,
    pub name: R,
}

/// An outermost expression. Its first token may be a parenthesis.
#[derive(Drop)]
pub struct ExprAt<R: Drop> {
    pub pos: Pos,
    pub expr: Expr<R>,
}

/// A declaration of a text.
#[derive(Drop)]
pub enum Part<R: Drop> {
    Body(BodyNode<R>),
    Host(HostNode),
    Module(ModuleNode<R>),
}

/// `body NAME(PARAM, ..): ANSWER { EXPR }`. `pos` is its name's.
#[derive(Drop)]
pub struct BodyNode<R: Drop> {
    pub pos: Pos,
    pub name: Name,
    pub parameters: Items<ParameterNode>,
    pub answer: Kind,
    pub expr: ExprAt<R>,
}

/// `NAME: KIND`.
#[derive(Drop)]
pub struct ParameterNode {
    pub pos: Pos,
    pub name: Name,
    pub kind: Kind,
}

/// `host NAME(KIND, ..): ANSWER;`. `pos` is its name's, and `token` that of the word `host`.
#[derive(Drop)]
pub struct HostNode {
    pub pos: Pos,
    pub token: Pos,
    pub name: Name,
    pub parameters: Items<Kind>,
    pub answer: Kind,
}

/// `module NAME(DECL, ..) BLOCK`. `pos` is its name's.
#[derive(Drop)]
pub struct ModuleNode<R: Drop> {
    pub pos: Pos,
    pub name: Name,
    pub interface: Items<InterfaceNode>,
    pub block: BlockNode<R>,
}

/// A signal of a module's interface.
#[derive(Drop)]
pub struct InterfaceNode {
    pub dir: Dir,
    pub signal: SignalNode,
}

/// `NAME: KIND = FIRST combine WORD`. A pure signal is written without a kind, and `first` is None where the
/// text writes no first value.
#[derive(Drop)]
pub struct SignalNode {
    pub pos: Pos,
    pub name: Name,
    pub kind: Kind,
    pub first: Option<Value>,
    pub combine: Option<CombineWord>,
}

/// `{ STATEMENT .. }`.
#[cycle(source)]
#[derive(Drop)]
pub struct BlockNode<R: Drop> {
    pub pos: Pos,
    pub statements: Items<StatementNode<R>>,
}

#[cycle(source)]
#[derive(Drop)]
pub struct StatementNode<R: Drop> {
    pub pos: Pos,
    pub what: Statement<R>,
}

/// A statement, by its words. The truth in `Suspend` says whether it has the word `immediate`. What is
/// written of `async` is the largest by far, and has a block of memory of its own.
#[cycle(source)]
#[derive(Drop)]
pub enum Statement<R: Drop> {
    Nothing,
    Pause,
    Halt,
    Emit(NameAt<R>, Option<ExprAt<R>>),
    Sustain(NameAt<R>, Option<ExprAt<R>>),
    If(Boxed<ExprAt<R>>, BlockNode<R>, Option<BlockNode<R>>),
    Loop(BlockNode<R>),
    Fork(Items<BlockNode<R>>),
    Block(BlockNode<R>),
    Await(Delay<R>),
    Every(Delay<R>, BlockNode<R>),
    DoEvery(BlockNode<R>, Later<R>),
    Abort(Delay<R>, BlockNode<R>),
    WeakAbort(Delay<R>, BlockNode<R>),
    Suspend(bool, ExprAt<R>, BlockNode<R>),
    Signal(Items<SignalNode>, BlockNode<R>),
    Trap(Name, BlockNode<R>),
    Break(NameAt<R>),
    Run(NameAt<R>, Items<Binding<R>>),
    Async(Boxed<AsyncNode<R>>),
}

/// What a statement waits for.
#[derive(Drop)]
pub enum Delay<R: Drop> {
    Later(Later<R>),
    Immediate(ExprAt<R>),
}

/// What a statement waits for from the next instant on: that the expression is true, once or a number of
/// times.
#[derive(Drop)]
pub enum Later<R: Drop> {
    Once(ExprAt<R>),
    Count(u8, ExprAt<R>),
}

/// `LEFT = RIGHT` in a run: a signal of the module that runs, and the signal that stands for it.
#[derive(Drop)]
pub struct Binding<R: Drop> {
    pub left: NameAt<R>,
    pub right: NameAt<R>,
}

/// `async (SIGNAL) call BODY(ARG, ..) kill TEXT suspend TEXT resume TEXT;`.
#[derive(Drop)]
pub struct AsyncNode<R: Drop> {
    pub signal: Option<NameAt<R>>,
    pub body: NameAt<R>,
    pub args: Items<ExprAt<R>>,
    pub kill: Option<Text>,
    pub suspend: Option<Text>,
    pub resume: Option<Text>,
}

/// The tree of a whole module text. Some text within the grammar and its limits has it, but for positions:
/// this is `is_source`. And declarations of one position have one name, as in each text. Contracts see the
/// list of its declarations.
#[derive(Drop)]
pub struct Modules {
    parts: Items<Part<Name>>,
}

impl Model for Modules {
    ghost use Rattle.std.specs.Prelude.{List, ℕ, ◌≡◌, true};
    ghost use Rattle.module_tree.specs.declared.source.Part.{Part as ATop};
    ghost use Rattle.module_tree.specs.Source.{is_source};
    ghost use Rattle.module_tree.specs.DeclaredAt.{NamesGoByPosition};
    ghost use Rattle.std.specs.Coded.{codes};
    ghost use Rattle.hh_base.specs.contracts.name.Name as name;
    ghost use Rattle.host_expr.specs.contracts.expr.ExprNode as node;
    ghost use Rattle.module_tree.specs.contracts.source.BlockNode as block;

    ghost Value = { List (ATop (List ℕ)) };

    ghost coded = { Prim.hlevel (
      codes,
      (node.the_row name.the_row).coded,
      (block.the_row name.the_row).coded,
    ) };

    ghost view = { λ m. m.parts };

    ghost invariant = { λ m. (is_source m.parts ≡ true) × NamesGoByPosition m.parts };
}

impl Modules {
    /// Takes no memory.
    pub fn new(parts: Items<Part<Name>>) -> Modules
        requires source { is_source parts ≡ true }
        requires names { NamesGoByPosition parts }
        ensures { result ≡ parts }
    {
        Modules { parts }
    }

    pub fn parts(&self) -> &[Part<Name>]
        ensures parts { result.now ≡ self.now }
        ensures source { is_source self.now ≡ true }
        ensures names { NamesGoByPosition self.now }
    {
        self.parts.as_slice()
    }
}
