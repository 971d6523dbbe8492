//! The kinds of a line.
ghost use Rattle.std.specs.Prelude.{◌≡◌, ◌<◌, [], length, IsTrue, IfOk};
ghost use Rattle.hh_base.specs.Value.{is_interface};
ghost use Rattle.net_list.specs.Lookup.{kinds_of, body_of, kind_answered, answer_kind};
ghost use Rattle.net_list.specs.Kinds.{word_fits, name_fits, declaration_fits, signal_fits, test_fits};
ghost use Rattle.net_kinds.specs.LinesFit.{first_fits};
ghost use Rattle.net_list.specs.Kinds.{sent_fits, emit_fits, arguments_fit, exec_fits};

use crate::expression::{is_kind, kind_at, line_has_kind, same_kind};
use hh_base::name::Name;
use hh_base::value::{CombineWord, Dir, Kind, NoMemory};
use hh_term::program::{BodyDecl, SignalDecl};
use host_expr::cell::Scope;
use host_expr::expr::Expr;
use net_list::record::{NetEmit, NetExec, NetRecords, NetSignal, NetTest, Sent};
use std::alloc::Global;

/// The kinds of the signals.
pub(crate) fn kinds_of(alloc: Global, nets: &NetRecords) -> Result<Vec<Kind>, NoMemory>
    ensures { IfOk result (λ kinds. kinds.items ≡ kinds_of nets.now) }
{
    let signals = nets.signals.as_slice();
    let mut kinds = Vec::with_capacity(alloc, signals.len())?;
    for signal in signals {
        kinds.push(signal.decl.kind)?;
    }
    Ok(kinds)
}

fn word_fits(kind: Kind, word: Option<CombineWord>) -> bool
    ensures { result ≡ word_fits kind word }
{
    match word {
        Some(CombineWord::Plus | CombineWord::Min | CombineWord::Max) => same_kind(kind, Kind::Int),
        Some(CombineWord::And | CombineWord::Or) => same_kind(kind, Kind::Bool),
        None => true,
    }
}

fn is_interface(dir: Dir) -> bool
    ensures { result ≡ is_interface dir }
{
    match dir {
        Dir::Local => false,
        _ => true,
    }
}

fn name_fits(kind: Kind, dir: Dir, name: &Option<Name>) -> bool
    ensures { result ≡ name_fits kind dir name.now }
{
    match name {
        Some(_) => true,
        None => same_kind(kind, Kind::Pure) && !is_interface(dir),
    }
}

fn declaration_fits(decl: &SignalDecl) -> bool
    ensures { result ≡ declaration_fits decl.now }
{
    same_kind(decl.kind, decl.first.kind())
        && word_fits(decl.kind, decl.combine)
        && name_fits(decl.kind, decl.dir, &decl.name)
}

pub(crate) fn signal_fits(signal: &NetSignal) -> bool
    ensures { result ≡ signal_fits signal.now }
{
    declaration_fits(&signal.decl)
}

pub(crate) fn test_fits(test: &NetTest, scope: &Scope) -> bool
    requires { scope.now.args.items ≡ [] }
    ensures { result ≡ test_fits scope.now.signals.items test.now }
{
    line_has_kind(Kind::Bool, &test.expr, scope)
}

/// The kind of the answers of an exec.
fn kind_of_answers(nets: &NetRecords, exec: &NetExec) -> Option<Kind>
    ensures { result ≡ kind_answered (body_of nets.now exec.now) }
{
    match nets.bodies.get(exec.site.body as usize) {
        Some(body) => Some(body.answer),
        None => None,
    }
}

fn answer_kind(nets: &NetRecords, exec: u32) -> Option<Kind>
    ensures { result ≡ answer_kind nets.now exec }
{
    match nets.execs.get(exec as usize) {
        Some(exec) => kind_of_answers(nets, exec),
        None => None,
    }
}

fn sent_fits(nets: &NetRecords, kind: Kind, sent: &Sent, scope: &Scope) -> bool
    requires { scope.now.args.items ≡ [] }
    ensures { result ≡ sent_fits nets.now scope.now.signals.items kind sent.now }
{
    match sent {
        Sent::Nothing => same_kind(kind, Kind::Pure),
        Sent::Computed(expr) => line_has_kind(kind, expr, scope),
        Sent::Answer(exec) => is_kind(kind, answer_kind(nets, *exec)),
    }
}

pub(crate) fn emit_fits(nets: &NetRecords, emit: &NetEmit, scope: &Scope) -> bool
    requires { scope.now.args.items ≡ [] }
    ensures { result ≡ emit_fits nets.now scope.now.signals.items emit.now }
{
    match kind_at(&scope.signals, emit.signal) {
        Some(kind) => sent_fits(nets, kind, &emit.sent, scope),
        None => false,
    }
}

/// Whether the first argument, if there is one, has this kind.
fn first_fits(kind: Kind, args: &[Expr<u32>], scope: &Scope) -> bool
    requires { scope.now.args.items ≡ [] }
    ensures fits { result ≡ first_fits scope.now.signals.items kind args.now }
    ensures some { IsTrue result → 0 < length args.now }
{
    match args.first() {
        Some(arg) => line_has_kind(kind, arg, scope),
        None => false,
    }
}

#[tactic(auto, using(crate::proofs::Arguments::goes_on, crate::proofs::Arguments::stops))]
fn arguments_fit(params: &[Kind], args: &[Expr<u32>], scope: &Scope) -> bool
    requires { scope.now.args.items ≡ [] }
    ensures { result ≡ arguments_fit scope.now.signals.items params.now args.now }
{
    let mut rest = args;
    for param in params {
        if !first_fits(*param, rest, scope) {
            return false;
        }
        rest = &rest[1..];
    }
    rest.is_empty()
}

pub(crate) fn exec_fits(nets: &NetRecords, exec: &NetExec, scope: &Scope) -> bool
    requires { scope.now.args.items ≡ [] }
    ensures { result ≡ exec_fits nets.now scope.now.signals.items exec.now }
{
    match nets.bodies.get(exec.site.body as usize) {
        Some(body) => arguments_fit(body.params.as_slice(), exec.site.args.as_slice(), scope),
        None => false,
    }
}
