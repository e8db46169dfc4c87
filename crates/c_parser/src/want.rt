//! What must still come, as a stack, and the effect of a token on it.

ghost use Rattle.std.specs.Prelude.{ℕ, List, [], ◌∷◌, ◌++◌, ◌≡◌, ◌≤◌, ◌<◌, ◌+◌, OnOk, IfOk};
ghost use Rattle.std.specs.Prelude.{reverse, nat_lt, MatchOption};
ghost use Rattle.nvm_base.specs.Stacks.{Popped};
ghost use Rattle.c_parser.specs.inside.Wants as wants;
ghost use Rattle.c_parser.specs.inside.Wants.{moves_to, done};
ghost use Rattle.c_parser.specs.inside.Stacks as stacks;
ghost use Rattle.c_parser.specs.inside.Stacks.{weight};

use c_tree::Kind;
use c_tree::expr::BinaryOp;
use c_tree::stmt::{AssignOp, StepOp};
use std::alloc::{AllocError, Global};
use std::marker::Model;

/// A part of what must still come. A number counts the operators so far in the expression that the
/// part belongs to; a truth value says whether a statement is inside a loop.
#[derive(Clone, Copy)]
pub enum Want {
    /// An operand.
    Operand(u64),
    /// What may follow an operand.
    Rest(u64),
    /// The same after a name, which may be called.
    Named(u64),
    /// The `.` after `root`.
    Dot(u64),
    /// The rest of an open bracket and what follows it: a type's word, the `)` and an operand, or
    /// an expression and the `)`.
    Opened(u64),
    /// The `:` of an open `?`, and the right side.
    Colon(u64),
    /// The first argument, or the `)`.
    FirstArgument,
    /// A `,` and an argument, or the `)`.
    MoreArguments,
    /// `( struct NAME )`
    NewOpen,
    Ident,
    Digits,
    Semicolon,
    StructWord,
    Star,
    RootWord,
    /// The `while` after a body.
    WhileWord,
    /// The `)` of an open bracket.
    Round,
    /// The `]` of an open bracket.
    Square,
    /// An action on a target, before which more of the target may come.
    Target(u64),
    /// The same after a name, which may be called.
    NamedTarget,
    /// The same after a call, which may stand alone.
    Called,
    /// The `.` after a target's `root`.
    DotTarget,
    /// `( EXPRESSION )`
    OpenExpression,
    /// `( )`
    OpenNothing,
    /// An optional `=` and its expression.
    Initial,
    /// An optional expression.
    Value,
    /// The statement of an `if`, `else`, `while`, `do` or `for`.
    Body(bool),
    /// The end of a body without braces. No token marks it.
    Bare,
    /// An optional `else` and its statement.
    Else(bool),
    /// Statements, and the `}` of an open block.
    Block(bool),
    /// The parts of a `for`, in brackets.
    OpenFor,
    ForFirst,
    ForThird,
    TypeName,
    /// Fields, and the `}` of an open struct.
    Fields,
    /// An optional length in brackets.
    Length,
    /// `void` or a type.
    Result,
    /// The result of a transaction, or `abort` before it.
    TxResult,
    OpenParameters,
    /// Parameters or `void`, and the `)`.
    Parameters,
    /// A `,` and a parameter, or the `)`.
    MoreParameters,
    /// A function's body.
    OpenBody,
    /// The rest of an item that begins with `struct NAME`.
    StructOrFunction,
    /// Items up to the end.
    Items,
}

/// The greatest weight that a token may have.
const LIMIT: u64 = 64;

/// The operators that a want counts.
fn operators(want: Want) -> u64
    ensures { result ≡ stacks.operators want }
{
    match want {
        Want::Operand(n) | Want::Rest(n) | Want::Named(n) | Want::Dot(n) | Want::Target(n) => n,
        Want::Colon(n) | Want::Opened(n) => n,
        _ => 0,
    }
}

/// 1 for a want that ends an open bracket or body, else 0.
fn ends(want: Want) -> u64
    ensures { result ≡ stacks.brackets want + stacks.bodies want }
{
    match want {
        Want::Round | Want::Square | Want::FirstArgument | Want::MoreArguments => 1,
        Want::Block(_) | Want::Fields | Want::Parameters | Want::MoreParameters => 1,
        Want::Bare | Want::Opened(_) => 1,
        _ => 0,
    }
}

/// What a want leaves of a weight; `None` if it weighs more.
fn left_under(left: u64, want: Want) -> Option<u64>
    ensures { MatchOption result (left < stacks.own_weight want)
        (λ less. left ≡ less + stacks.own_weight want) }
{
    left.checked_sub(operators(want))?.checked_sub(ends(want))
}

/// The effect of a token on the want on top.
#[derive(Clone, Copy)]
pub enum Taken {
    /// The token may not come here.
    Refused,
    /// The want stays unmet, and the token goes to the next one.
    Yielded,
    /// The want takes the token.
    Taken,
}

/// The wants, the next one on top. Contracts see it as a list that begins with the top.
#[derive(Drop)]
pub struct Wants {
    all: Vec<Want>,
}

impl Model for Wants {
    ghost use Rattle.std.specs.Prelude.{List, reverse};
    ghost use Rattle.c_parser.specs.declared.want.Want.{Want};

    ghost Value = { List Want };

    ghost view = { λ w. reverse w.all.items };
}

impl Wants {
    /// The empty stack. It takes no memory.
    pub fn new(alloc: Global) -> Self
        ensures { result ≡ [] }
    {
        Wants {
            all: Vec::new(alloc),
        }
    }

    /// Pushes one want.
    #[tactic(auto, using(crate::proofs::Stack::stack))]
    pub fn push(&mut self, want: Want) -> Result<(), AllocError>
        ensures { OnOk result (self.new ≡ want ∷ self.old) }
    {
        self.all.push(want)?;
        Ok(())
    }

    /// Pops the want on top.
    #[tactic(auto, using(crate::proofs::Stack::stack))]
    pub fn pop(&mut self) -> Option<Want>
        ensures { Popped result self.new self.old }
    {
        self.all.pop()
    }

    /// Pushes wants, so that the first of them is on top.
    fn put(&mut self, more: &[Want]) -> Result<(), AllocError>
        ensures { OnOk result (self.new ≡ more.now ++ self.old) }
    {
        if let Some((first, others)) = more.split_first() {
            self.put(others)?;
            self.push(*first)?;
        }
        Ok(())
    }

    /// Whether what is open weighs over the limit.
    #[tactic(auto, using(crate::proofs::Stack::heavy))]
    pub fn is_heavy(&self) -> bool
        ensures { result ≡ nat_lt 64 (weight self.now) }
    {
        weighs_over(&self.all)
    }

    fn take(&mut self, more: &[Want]) -> Result<Taken, AllocError>
        ensures { IfOk result (λ t. done t self.new ≡ wants.Takes (more.now ++ self.old)) }
    {
        self.put(more)?;
        Ok(Taken::Taken)
    }

    fn operand(&mut self, n: u64, kind: Kind) -> Result<Taken, AllocError>
        requires { n ≤ 64 }
        ensures meets { IfOk result (λ t. done t self.new ≡ moves_to (wants.operand n kind)
            self.old) }
        ensures kept { IfOk result (λ t. t ≡ Taken.Refused → self.new ≡ self.old) }
    {
        match kind {
            Kind::Number | Kind::Null => self.take(&[Want::Rest(n)]),
            Kind::Name => self.take(&[Want::Named(n)]),
            Kind::Root => self.take(&[Want::Dot(n)]),
            Kind::PmNew => self.take(&[Want::NewOpen, Want::Rest(n)]),
            Kind::OpenRound => self.take(&[Want::Opened(n)]),
            Kind::Operator(BinaryOp::Sub) | Kind::Not | Kind::Tilde => self.take(&[Want::Operand(
                n + 1,
            )]),
            _ => Ok(Taken::Refused),
        }
    }

    fn opened(&mut self, n: u64, kind: Kind) -> Result<Taken, AllocError>
        requires { n + 1 ≤ 64 }
        ensures { IfOk result (λ t. done t self.new ≡ moves_to (wants.opened n kind) self.old) }
    {
        if let Kind::Int(_) = kind {
            return self.take(&[Want::Round, Want::Operand(n + 1)]);
        }
        self.put(&[Want::Round, Want::Rest(n)])?;
        self.operand(0, kind)
    }

    fn rest(&mut self, n: u64, kind: Kind) -> Result<Taken, AllocError>
        requires { n ≤ 64 }
        ensures { IfOk result (λ t. done t self.new ≡ moves_to (wants.rest n kind) self.old) }
    {
        match kind {
            Kind::Operator(_) => self.take(&[Want::Operand(n + 1)]),
            Kind::Arrow => self.take(&[Want::Ident, Want::Rest(n + 1)]),
            Kind::OpenSquare => self.take(&[Want::Operand(0), Want::Square, Want::Rest(n + 1)]),
            Kind::Question => self.take(&[Want::Operand(0), Want::Colon(n + 1)]),
            _ => Ok(Taken::Yielded),
        }
    }

    fn named(&mut self, n: u64, kind: Kind) -> Result<Taken, AllocError>
        requires { n ≤ 64 }
        ensures { IfOk result (λ t. done t self.new ≡ moves_to (wants.named n kind) self.old) }
    {
        if kind == Kind::OpenRound {
            return self.take(&[Want::FirstArgument, Want::Rest(n)]);
        }
        self.rest(n, kind)
    }

    fn dot(&mut self, n: u64, kind: Kind) -> Result<Taken, AllocError>
        requires { n ≤ 64 }
        ensures { IfOk result (λ t. done t self.new ≡ moves_to (wants.dot n kind) self.old) }
    {
        match kind {
            Kind::Dot => self.take(&[Want::Ident, Want::Rest(n + 1)]),
            _ => Ok(Taken::Refused),
        }
    }

    fn colon(&mut self, n: u64, kind: Kind) -> Result<Taken, AllocError>
        ensures { IfOk result (λ t. done t self.new ≡ moves_to (wants.colon n kind) self.old) }
    {
        match kind {
            Kind::Colon => self.take(&[Want::Operand(n)]),
            _ => Ok(Taken::Refused),
        }
    }

    fn first_argument(&mut self, kind: Kind) -> Result<Taken, AllocError>
        ensures { IfOk result (λ t. done t self.new ≡ moves_to (wants.first_argument kind)
            self.old) }
    {
        if kind == Kind::CloseRound {
            return self.take(&[]);
        }
        self.push(Want::MoreArguments)?;
        self.operand(0, kind)
    }

    fn more_arguments(&mut self, kind: Kind) -> Result<Taken, AllocError>
        ensures { IfOk result (λ t. done t self.new ≡ moves_to (wants.more_arguments kind)
            self.old) }
    {
        match kind {
            Kind::CloseRound => self.take(&[]),
            Kind::Comma => self.take(&[Want::Operand(0), Want::MoreArguments]),
            _ => Ok(Taken::Refused),
        }
    }

    fn new_open(&mut self, kind: Kind) -> Result<Taken, AllocError>
        ensures { IfOk result (λ t. done t self.new ≡ moves_to (wants.new_open kind) self.old) }
    {
        match kind {
            Kind::OpenRound => self.take(&[Want::StructWord, Want::Ident, Want::Round]),
            _ => Ok(Taken::Refused),
        }
    }

    fn target(&mut self, n: u64, kind: Kind) -> Result<Taken, AllocError>
        requires { n ≤ 64 }
        ensures meets { IfOk result (λ t. done t self.new ≡ moves_to (wants.target_move n kind)
            self.old) }
        ensures kept { IfOk result (λ t. t ≡ Taken.Refused → self.new ≡ self.old) }
    {
        match kind {
            Kind::Assign(_) => self.take(&[Want::Operand(0)]),
            Kind::Step(_) => self.take(&[]),
            Kind::Arrow => self.take(&[Want::Ident, Want::Target(n + 1)]),
            Kind::OpenSquare => self.take(&[Want::Operand(0), Want::Square, Want::Target(n + 1)]),
            _ => Ok(Taken::Refused),
        }
    }

    fn named_target(&mut self, kind: Kind) -> Result<Taken, AllocError>
        ensures { IfOk result (λ t. done t self.new ≡ moves_to (wants.named_target kind) self.old) }
    {
        if kind == Kind::OpenRound {
            return self.take(&[Want::FirstArgument, Want::Called]);
        }
        self.target(0, kind)
    }

    fn dot_target(&mut self, kind: Kind) -> Result<Taken, AllocError>
        ensures { IfOk result (λ t. done t self.new ≡ moves_to (wants.dot_target kind) self.old) }
    {
        match kind {
            Kind::Dot => self.take(&[Want::Ident, Want::Target(1)]),
            _ => Ok(Taken::Refused),
        }
    }

    fn initial(&mut self, kind: Kind) -> Result<Taken, AllocError>
        ensures { IfOk result (λ t. done t self.new ≡ moves_to (wants.initial kind) self.old) }
    {
        match kind {
            Kind::Assign(AssignOp::Set) => self.take(&[Want::Operand(0)]),
            _ => Ok(Taken::Yielded),
        }
    }

    fn type_begins(&mut self, kind: Kind) -> Result<Taken, AllocError>
        ensures { IfOk result (λ t. done t self.new ≡ moves_to (wants.type_begins kind) self.old) }
    {
        match kind {
            Kind::Int(_) => self.take(&[]),
            Kind::Struct => self.take(&[Want::Ident, Want::Star]),
            _ => Ok(Taken::Refused),
        }
    }

    fn simple_begins(&mut self, kind: Kind) -> Result<Taken, AllocError>
        ensures meets { IfOk result (λ t. done t self.new ≡ moves_to (wants.simple_begins kind)
            self.old) }
        ensures kept { IfOk result (λ t. t ≡ Taken.Refused → self.new ≡ self.old) }
    {
        match kind {
            Kind::Name => self.take(&[Want::NamedTarget]),
            Kind::Number | Kind::Null => self.take(&[Want::Target(0)]),
            Kind::Root => self.take(&[Want::DotTarget]),
            Kind::PmNew => self.take(&[Want::NewOpen, Want::Target(0)]),
            Kind::OpenRound => self.take(&[Want::Operand(0), Want::Round, Want::Target(0)]),
            Kind::PmFree => self.take(&[Want::OpenExpression]),
            Kind::Abort => self.take(&[Want::OpenNothing]),
            _ => Ok(Taken::Refused),
        }
    }

    fn leaves(&mut self, in_loop: bool) -> Result<Taken, AllocError>
        ensures { IfOk result (λ t. done t self.new ≡ moves_to (wants.leaves in_loop) self.old) }
    {
        if !in_loop {
            return Ok(Taken::Refused);
        }
        self.take(&[Want::Semicolon])
    }

    fn statement(&mut self, in_loop: bool, kind: Kind) -> Result<Taken, AllocError>
        ensures { IfOk result (λ t. done t self.new ≡ moves_to (wants.statement in_loop kind)
            self.old) }
    {
        match kind {
            Kind::Semicolon => self.take(&[]),
            Kind::Int(_) => self.take(&[Want::Ident, Want::Initial, Want::Semicolon]),
            Kind::Struct => self.take(&[
                Want::Ident,
                Want::Star,
                Want::Ident,
                Want::Initial,
                Want::Semicolon,
            ]),
            Kind::OpenBrace => self.take(&[Want::Block(in_loop)]),
            Kind::If => self.take(&[
                Want::OpenExpression,
                Want::Body(in_loop),
                Want::Else(in_loop),
            ]),
            Kind::While => self.take(&[Want::OpenExpression, Want::Body(true)]),
            Kind::Do => self.take(&[
                Want::Body(true),
                Want::WhileWord,
                Want::OpenExpression,
                Want::Semicolon,
            ]),
            Kind::For => self.take(&[Want::OpenFor, Want::Body(true)]),
            Kind::Break | Kind::Continue => self.leaves(in_loop),
            Kind::Return => self.take(&[Want::Value, Want::Semicolon]),
            _ => {
                self.push(Want::Semicolon)?;
                self.simple_begins(kind)
            }
        }
    }

    fn body(&mut self, in_loop: bool, kind: Kind) -> Result<Taken, AllocError>
        ensures { IfOk result (λ t. done t self.new ≡ moves_to (wants.body in_loop kind) self.old) }
    {
        if kind == Kind::OpenBrace {
            return self.take(&[Want::Block(in_loop)]);
        }
        self.push(Want::Bare)?;
        self.statement(in_loop, kind)
    }

    fn or_else(&mut self, in_loop: bool, kind: Kind) -> Result<Taken, AllocError>
        ensures { IfOk result (λ t. done t self.new ≡ moves_to (wants.else_move in_loop kind)
            self.old) }
    {
        match kind {
            Kind::Else => self.take(&[Want::Body(in_loop)]),
            _ => Ok(Taken::Yielded),
        }
    }

    fn block(&mut self, in_loop: bool, kind: Kind) -> Result<Taken, AllocError>
        ensures { IfOk result (λ t. done t self.new ≡ moves_to (wants.block in_loop kind)
            self.old) }
    {
        if kind == Kind::CloseBrace {
            return self.take(&[]);
        }
        self.push(Want::Block(in_loop))?;
        self.statement(in_loop, kind)
    }

    fn open_for(&mut self, kind: Kind) -> Result<Taken, AllocError>
        ensures { IfOk result (λ t. done t self.new ≡ moves_to (wants.open_for kind) self.old) }
    {
        match kind {
            Kind::OpenRound => self.take(&[
                Want::ForFirst,
                Want::Semicolon,
                Want::Value,
                Want::Semicolon,
                Want::ForThird,
                Want::Round,
            ]),
            _ => Ok(Taken::Refused),
        }
    }

    fn value(&mut self, kind: Kind) -> Result<Taken, AllocError>
        ensures { IfOk result (λ t. done t self.new
            ≡ moves_to (wants.perhaps (wants.operand 0 kind)) self.old) }
    {
        let taken = self.operand(0, kind)?;
        Ok(or_absent(taken))
    }

    fn called(&mut self, kind: Kind) -> Result<Taken, AllocError>
        ensures { IfOk result (λ t. done t self.new ≡ moves_to (wants.called_move kind) self.old) }
    {
        let taken = self.target(0, kind)?;
        Ok(or_absent(taken))
    }

    fn for_third(&mut self, kind: Kind) -> Result<Taken, AllocError>
        ensures { IfOk result (λ t. done t self.new
            ≡ moves_to (wants.perhaps (wants.simple_begins kind)) self.old) }
    {
        let taken = self.simple_begins(kind)?;
        Ok(or_absent(taken))
    }

    fn for_first(&mut self, kind: Kind) -> Result<Taken, AllocError>
        ensures { IfOk result (λ t. done t self.new ≡ moves_to (wants.for_first kind) self.old) }
    {
        match kind {
            Kind::Int(_) => self.take(&[Want::Ident, Want::Initial]),
            Kind::Struct => self.take(&[Want::Ident, Want::Star, Want::Ident, Want::Initial]),
            _ => self.for_third(kind),
        }
    }

    fn fields(&mut self, kind: Kind) -> Result<Taken, AllocError>
        ensures { IfOk result (λ t. done t self.new ≡ moves_to (wants.fields kind) self.old) }
    {
        if kind == Kind::CloseBrace {
            return self.take(&[]);
        }
        self.put(&[Want::Ident, Want::Length, Want::Semicolon, Want::Fields])?;
        self.type_begins(kind)
    }

    fn array_length(&mut self, kind: Kind) -> Result<Taken, AllocError>
        ensures { IfOk result (λ t. done t self.new ≡ moves_to (wants.length_move kind) self.old) }
    {
        match kind {
            Kind::OpenSquare => self.take(&[Want::Digits, Want::Square]),
            _ => Ok(Taken::Yielded),
        }
    }

    fn result_begins(&mut self, kind: Kind) -> Result<Taken, AllocError>
        ensures { IfOk result (λ t. done t self.new ≡ moves_to (wants.result_begins kind)
            self.old) }
    {
        if kind == Kind::Void {
            return self.take(&[]);
        }
        self.type_begins(kind)
    }

    fn tx_result(&mut self, kind: Kind) -> Result<Taken, AllocError>
        ensures { IfOk result (λ t. done t self.new ≡ moves_to (wants.tx_result kind) self.old) }
    {
        match kind {
            Kind::Abort | Kind::Const => self.take(&[Want::Result]),
            _ => self.result_begins(kind),
        }
    }

    fn parameters(&mut self, kind: Kind) -> Result<Taken, AllocError>
        ensures { IfOk result (λ t. done t self.new ≡ moves_to (wants.parameters_move kind)
            self.old) }
    {
        match kind {
            Kind::CloseRound => self.take(&[]),
            Kind::Void => self.take(&[Want::Round]),
            _ => {
                self.put(&[Want::Ident, Want::MoreParameters])?;
                self.type_begins(kind)
            }
        }
    }

    fn more_parameters(&mut self, kind: Kind) -> Result<Taken, AllocError>
        ensures { IfOk result (λ t. done t self.new ≡ moves_to (wants.more_parameters kind)
            self.old) }
    {
        match kind {
            Kind::CloseRound => self.take(&[]),
            Kind::Comma => self.take(&[Want::TypeName, Want::Ident, Want::MoreParameters]),
            _ => Ok(Taken::Refused),
        }
    }

    fn struct_or_function(&mut self, kind: Kind) -> Result<Taken, AllocError>
        ensures { IfOk result (λ t. done t self.new ≡ moves_to (wants.struct_or_function kind)
            self.old) }
    {
        match kind {
            Kind::OpenBrace => self.take(&[
                Want::TypeName,
                Want::Ident,
                Want::Length,
                Want::Semicolon,
                Want::Fields,
                Want::Semicolon,
            ]),
            Kind::Operator(BinaryOp::Mul) => self.take(&[
                Want::Ident,
                Want::OpenParameters,
                Want::OpenBody,
            ]),
            _ => Ok(Taken::Refused),
        }
    }

    fn item(&mut self, kind: Kind) -> Result<Taken, AllocError>
        ensures { IfOk result (λ t. done t self.new ≡ moves_to (wants.item kind) self.old) }
    {
        match kind {
            Kind::Struct => self.take(&[Want::Ident, Want::StructOrFunction]),
            Kind::Persistent => self.take(&[
                Want::StructWord,
                Want::Ident,
                Want::RootWord,
                Want::Semicolon,
            ]),
            Kind::Tx => self.take(&[
                Want::TxResult,
                Want::Ident,
                Want::OpenParameters,
                Want::OpenBody,
            ]),
            Kind::Int(_) | Kind::Void => self.take(&[
                Want::Ident,
                Want::OpenParameters,
                Want::OpenBody,
            ]),
            _ => Ok(Taken::Refused),
        }
    }

    fn items(&mut self, kind: Kind) -> Result<Taken, AllocError>
        ensures { IfOk result (λ t. done t self.new ≡ moves_to (wants.items kind) self.old) }
    {
        if kind == Kind::End {
            return Ok(Taken::Yielded);
        }
        self.push(Want::Items)?;
        self.item(kind)
    }

    /// A want for one token, and the wants after it.
    fn only(&mut self, is: bool, more: &[Want]) -> Result<Taken, AllocError>
        ensures { IfOk result (λ t. done t self.new ≡ moves_to (wants.token_then is more.now)
            self.old) }
    {
        if !is {
            return Ok(Taken::Refused);
        }
        self.take(more)
    }

    /// Lets the want that was on top meet a token.
    pub fn meet(&mut self, want: Want, kind: Kind) -> Result<Taken, AllocError>
        requires { stacks.own_weight want ≤ 64 }
        ensures { IfOk result (λ t. done t self.new ≡ moves_to (wants.move want kind) self.old) }
    {
        match want {
            Want::Operand(n) => self.operand(n, kind),
            Want::Rest(n) => self.rest(n, kind),
            Want::Named(n) => self.named(n, kind),
            Want::Dot(n) => self.dot(n, kind),
            Want::Opened(n) => self.opened(n, kind),
            Want::Colon(n) => self.colon(n, kind),
            Want::FirstArgument => self.first_argument(kind),
            Want::MoreArguments => self.more_arguments(kind),
            Want::NewOpen => self.new_open(kind),
            Want::Ident => self.only(kind == Kind::Name, &[]),
            Want::Digits => self.only(kind == Kind::Number, &[]),
            Want::Semicolon => self.only(kind == Kind::Semicolon, &[]),
            Want::StructWord => self.only(kind == Kind::Struct, &[]),
            Want::Star => self.only(kind == Kind::Operator(BinaryOp::Mul), &[]),
            Want::RootWord => self.only(kind == Kind::Root, &[]),
            Want::WhileWord => self.only(kind == Kind::While, &[]),
            Want::Round => self.only(kind == Kind::CloseRound, &[]),
            Want::Square => self.only(kind == Kind::CloseSquare, &[]),
            Want::Target(n) => self.target(n, kind),
            Want::NamedTarget => self.named_target(kind),
            Want::Called => self.called(kind),
            Want::DotTarget => self.dot_target(kind),
            Want::OpenExpression => self.only(
                kind == Kind::OpenRound,
                &[Want::Operand(0), Want::Round],
            ),
            Want::OpenNothing => self.only(kind == Kind::OpenRound, &[Want::Round]),
            Want::Initial => self.initial(kind),
            Want::Value => self.value(kind),
            Want::Body(in_loop) => self.body(in_loop, kind),
            Want::Bare => Ok(Taken::Yielded),
            Want::Else(in_loop) => self.or_else(in_loop, kind),
            Want::Block(in_loop) => self.block(in_loop, kind),
            Want::OpenFor => self.open_for(kind),
            Want::ForFirst => self.for_first(kind),
            Want::ForThird => self.for_third(kind),
            Want::TypeName => self.type_begins(kind),
            Want::Fields => self.fields(kind),
            Want::Length => self.array_length(kind),
            Want::Result => self.result_begins(kind),
            Want::TxResult => self.tx_result(kind),
            Want::OpenParameters => self.only(kind == Kind::OpenRound, &[Want::Parameters]),
            Want::Parameters => self.parameters(kind),
            Want::MoreParameters => self.more_parameters(kind),
            Want::OpenBody => self.only(kind == Kind::OpenBrace, &[Want::Block(false)]),
            Want::StructOrFunction => self.struct_or_function(kind),
            Want::Items => self.items(kind),
        }
    }
}

/// A part that may be absent isn't refused but stays unmet.
fn or_absent(taken: Taken) -> Taken
    ensures { result ≡ wants.perhaps_taken taken }
{
    match taken {
        Taken::Refused | Taken::Yielded => Taken::Yielded,
        Taken::Taken => Taken::Taken,
    }
}

fn weighs_over(all: &[Want]) -> bool
    ensures { result ≡ nat_lt 64 (weight all.now) }
{
    let mut left = LIMIT;
    for want in all {
        let Some(less) = left_under(left, *want) else {
            return true;
        };
        left = less;
    }
    false
}
