//! The first faults of the parts of a text, where names mean this.

ghost use Rattle.std.specs.Prelude.{◌≡◌, List, Some};
ghost use Rattle.hh_base.specs.declared.value.Pos.{Pos as APos};
ghost use Rattle.hh_base.specs.Value.{kind_of};
ghost use Rattle.module_tree.specs.LinkedFacts.{is_kind, is_input, kind_of_word, first_fits, combine_fits};
ghost use Rattle.module_tree.specs.LinkedFacts.{sig_fits};
ghost use Rattle.link_faults.specs.declared.fault.LinkKind.TheVariants.{KindWrong as AKindWrong};
ghost use Rattle.link_faults.specs.Earliest.{first_at};
ghost use Rattle.link_faults.specs.Meanings.{kind_of_signal, kind_of_parameter, meaning_of};
ghost use Rattle.link_faults.specs.Rows.{here_if, wrong_signal};
ghost use Rattle.link_faults.specs.SourceKinds.{unless_kind, wrong_value};
ghost use Rattle.link_faults.specs.PartFaults.{first_expected, first_anywhere, first_nowhere, first_emitted};
ghost use Rattle.link_faults.specs.PartFaults.{first_carried, first_emission, first_wrong};

use crate::fault::{LinkFault, LinkKind, earlier};
use crate::judge::{Judgement, judge};
use crate::names::{Meaning, Names};
use hh_base::name::Name;
use hh_base::value::{CombineWord, Dir, Kind, Pos, Value};
use module_tree::source::{ExprAt, NameAt, SignalNode};

pub fn fault_if(wrong: bool, pos: Pos, kind: LinkKind) -> Option<LinkFault>
    ensures { result ≡ first_at kind (here_if wrong pos) }
{
    if wrong {
        Some(LinkFault { pos, kind })
    } else {
        None
    }
}

pub fn is_kind(kind: Kind, own: Kind) -> bool
    ensures { result ≡ is_kind kind (Some own) }
{
    match (kind, own) {
        (Kind::Pure, Kind::Pure) => true,
        (Kind::Int, Kind::Int) => true,
        (Kind::Bool, Kind::Bool) => true,
        (Kind::Text, Kind::Text) => true,
        _ => false,
    }
}

fn unless_kind(kind: Kind, pos: Pos, judged: Judgement) -> Option<LinkFault>
    ensures { (ps : List APos) → judged.misfit ≡ first_at AKindWrong ps
        → result ≡ first_at AKindWrong (unless_kind kind pos judged.kind ps) }
{
    match judged.kind {
        None => judged.misfit,
        Some(own) => fault_if(!is_kind(kind, own), pos, LinkKind::KindWrong),
    }
}

fn wrong_value(pos: Pos, misfit: Option<LinkFault>) -> Option<LinkFault>
    ensures { (ps : List APos) → misfit ≡ first_at AKindWrong ps
        → result ≡ first_at AKindWrong (wrong_value ps pos) }
{
    match misfit {
        None => fault_if(true, pos, LinkKind::KindWrong),
        Some(fault) => Some(fault),
    }
}

/// Of an expression in a place that needs this kind.
pub fn first_expected(names: &Names, kind: Kind, x: &ExprAt<Name>) -> Option<LinkFault>
    ensures { result ≡ first_expected (kind_of_signal names.now) (kind_of_parameter names.now) kind x.now }
{
    let judged = judge(&x.expr, names);
    earlier(judged.unknown, unless_kind(kind, x.pos, judged))
}

/// Of an expression in a place of which nothing is known.
pub fn first_anywhere(names: &Names, x: &ExprAt<Name>) -> Option<LinkFault>
    ensures { result ≡ first_anywhere (kind_of_signal names.now) (kind_of_parameter names.now) x.now }
{
    let judged = judge(&x.expr, names);
    earlier(judged.unknown, judged.misfit)
}

/// Of an expression in a place where no value may stand.
fn first_nowhere(names: &Names, x: &ExprAt<Name>) -> Option<LinkFault>
    ensures { result ≡ first_nowhere (kind_of_signal names.now) (kind_of_parameter names.now) x.now }
{
    let judged = judge(&x.expr, names);
    earlier(judged.unknown, wrong_value(x.pos, judged.misfit))
}

pub fn is_input(dir: Dir) -> bool
    ensures { result ≡ is_input dir }
{
    match dir {
        Dir::Input => true,
        _ => false,
    }
}

/// Of a name that is emitted and means this.
pub fn first_emitted(name: &NameAt<Name>, meant: Option<Meaning>) -> Option<LinkFault>
    ensures { result ≡ first_emitted name.now meant }
{
    match meant {
        None => Some(LinkFault {
            pos: name.pos,
            kind: LinkKind::UnknownSignal,
        }),
        Some(meaning) => fault_if(is_input(meaning.dir), name.pos, LinkKind::EmitsInput),
    }
}

fn kind_of_word(word: CombineWord) -> Kind
    ensures { result ≡ kind_of_word word }
{
    match word {
        CombineWord::Plus | CombineWord::Min | CombineWord::Max => Kind::Int,
        CombineWord::And | CombineWord::Or => Kind::Bool,
    }
}

fn combine_fits(kind: Kind, word: Option<CombineWord>) -> bool
    ensures { result ≡ combine_fits kind word }
{
    match word {
        None => true,
        Some(word) => is_kind(kind, kind_of_word(word)),
    }
}

fn first_fits(kind: Kind, first: &Option<Value>) -> bool
    ensures { result ≡ first_fits kind first.now }
{
    match first {
        None => true,
        Some(value) => is_kind(kind, value.kind()),
    }
}

/// Of a declared signal, by its first value and combine word.
pub fn wrong_signal(signal: &SignalNode) -> Option<LinkFault>
    ensures { result ≡ first_at AKindWrong (wrong_signal signal.now) }
{
    let fits = first_fits(signal.kind, &signal.first) && combine_fits(signal.kind, signal.combine);
    fault_if(!fits, signal.pos, LinkKind::KindWrong)
}

/// Of what an emission carries, of a signal of this kind.
fn first_carried(
    names: &Names,
    signal: &NameAt<Name>,
    kind: Option<Kind>,
    value: &Option<ExprAt<Name>>,
) -> Option<LinkFault>
    ensures { result ≡ first_carried (kind_of_signal names.now) (kind_of_parameter names.now) signal.now kind
        value.now }
{
    match (kind, value) {
        (None | Some(Kind::Pure), None) => None,
        (None, Some(x)) => first_anywhere(names, x),
        (Some(Kind::Pure), Some(x)) => first_nowhere(names, x),
        (Some(_), None) => fault_if(true, signal.pos, LinkKind::KindWrong),
        (Some(kind), Some(x)) => first_expected(names, kind, x),
    }
}

/// Of `emit` or `sustain`.
pub fn first_emission(
    names: &Names,
    signal: &NameAt<Name>,
    value: &Option<ExprAt<Name>>,
) -> Option<LinkFault>
    ensures { result ≡ first_emission (meaning_of names.now) (kind_of_parameter names.now) signal.now
        value.now }
{
    let carried = first_carried(names, signal, names.kind_of_signal(&signal.name), value);
    earlier(first_emitted(signal, names.signal(&signal.name)), carried)
}

/// Of the declared signals of a list, by their first values and combine words.
pub fn first_wrong(signals: &[SignalNode]) -> Option<LinkFault>
    ensures { result ≡ first_wrong signals.now }
{
    let mut first = None;
    'signals: for signal in signals {
        first = earlier(first, wrong_signal(signal));
    }
    first
}
