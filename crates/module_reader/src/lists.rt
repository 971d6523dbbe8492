//! Lists with commas between their items.
ghost use Rattle.std.specs.Prelude.{◌≡◌};
ghost use Rattle.grammar.specs.Parser.{Reads};
ghost use Rattle.expression_reader.specs.Refusals.{as_refusal};
ghost use Rattle.expression_reader.specs.Reference as part;
ghost use Rattle.expression_reader.specs.Reference.{Parser, Takes};
ghost use Rattle.module_reader.specs.Reference as reference;

use crate::declarations::{read_interface, read_parameter, read_signal, read_valued};
use crate::delays::read_binding;
use expression_reader::cursor::{Reader, whole_list};
use expression_reader::fault::StepError;
use hh_base::name::Name;
use hh_base::value::Kind;
use module_token::punct::Punct;
use module_tree::source::{Binding, InterfaceNode, ParameterNode, SignalNode};
use sqlite_items::Items;

/// What stands between the commas of a list.
pub(crate) trait Listed: Drop + Sized {
    ghost rule: { Parser Self };

    fn read(reader: &mut Reader<'_>) -> Result<Self, StepError>
        ensures reads { Reads as_refusal (rule reader.old) result reader.new }
        // An item behind a comma takes a token, so that a list ends.
        ensures takes { Takes (part.behind_comma rule) };
}

impl Listed for SignalNode {
    ghost rule = { reference.signal };

    #[tactic(auto, using(crate::proofs::Items::sig_takes))]
    fn read(reader: &mut Reader<'_>) -> Result<SignalNode, StepError> {
        read_signal(reader)
    }
}

impl Listed for InterfaceNode {
    ghost rule = { reference.interface };

    #[tactic(auto, using(crate::proofs::Items::decl_takes))]
    fn read(reader: &mut Reader<'_>) -> Result<InterfaceNode, StepError> {
        read_interface(reader)
    }
}

impl Listed for ParameterNode {
    ghost rule = { reference.parameter };

    #[tactic(auto, using(crate::proofs::Items::param_takes))]
    fn read(reader: &mut Reader<'_>) -> Result<ParameterNode, StepError> {
        read_parameter(reader)
    }
}

impl Listed for Kind {
    ghost rule = { reference.valued };

    #[tactic(auto, using(crate::proofs::Items::valued_takes))]
    fn read(reader: &mut Reader<'_>) -> Result<Kind, StepError> {
        read_valued(reader)
    }
}

impl Listed for Binding<Name> {
    ghost rule = { reference.binding };

    #[tactic(auto, using(crate::proofs::Items::binding_takes))]
    fn read(reader: &mut Reader<'_>) -> Result<Binding<Name>, StepError> {
        read_binding(reader)
    }
}

/// An item behind its comma.
fn read_next<T: Listed>(reader: &mut Reader<'_>) -> Result<T, StepError>
    ensures { Reads as_refusal (part.behind_comma T.rule reader.old) result reader.new }
{
    reader.punct(Punct::Comma)?;
    T::read(reader)
}

/// One or more.
#[tactic(auto, unfolding(expression_reader::specs::Reference::listed))]
pub(crate) fn read_list<T: Listed>(reader: &mut Reader<'_>) -> Result<Items<T>, StepError>
    ensures { Reads as_refusal (part.listed T.rule reader.old) result reader.new }
{
    let first = T::read(reader)?;
    let mut list = reader.start_list();
    list.push(first)?;
    'each: while reader.sees_punct(Punct::Comma) {
        let item = read_next::<T>(reader)?;
        list.push(item)?;
    }
    Ok(whole_list(list))
}

/// The same, or none.
#[tactic(auto, unfolding(expression_reader::specs::Reference::listed_or_none))]
pub(crate) fn read_list_or_none<T: Listed>(reader: &mut Reader<'_>) -> Result<Items<T>, StepError>
    ensures { Reads as_refusal (part.listed_or_none T.rule reader.old) result reader.new }
{
    if reader.sees_in_round() {
        read_list(reader)
    } else {
        Ok(reader.empty_list())
    }
}
