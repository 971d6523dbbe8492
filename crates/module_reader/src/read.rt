//! The call that reads a module text.
ghost use Rattle.std.specs.Prelude.{◌≡◌, ◌<◌, ◌^◌, List, All, length, IfOk, IfErr, MatchResult};
ghost use Rattle.module_tree.specs.declared.source.Part.{Part as APart};
ghost use Rattle.grammar.specs.Parser as parser;
ghost use Rattle.grammar.specs.Parser.{Exact};
ghost use Rattle.expression_reader.specs.Cursor.{IsReadable, toks};
ghost use Rattle.module_reader.specs.Reading.{HasTree, IsFirstFault, IsByRule};
ghost use Rattle.module_reader.specs.Reference as rule;
ghost use Rattle.expression_reader.specs.Refusals.{as_refusal};
ghost use Rattle.expression_reader.specs.Trees.{Name as AName};

use crate::fault::{ReadFault, as_fault};
use crate::parts::{has_module, read_whole};
use expression_reader::cursor::Reader;
use expression_reader::fault::StepError;
use hh_base::name::Name;
use module_token::fault::TokensError;
use module_token::token::Token;
use module_token::tokens::tokens;
use module_tree::limits::OPEN_LIMIT;
use module_tree::source::{Modules, Part};
use sqlite_items::Items;
use std::alloc::Global;

/// The bodies, hosts and modules of a text, by its tokens.
fn read_tokens(alloc: Global, text: &str, tokens: &[Token]) -> Result<Items<Part<Name>>, StepError>
    requires readable { All (IsReadable text.now) tokens.now }
    requires short { length text.now < 2 ^ 32 }
    ensures { Exact as_refusal
        (parser.whole (rule.parts OPEN_LIMIT) (parser.start (toks text.now tokens.now) (length text.now)))
        result }
{
    let mut reader = Reader::new(alloc, text, tokens, text.len() as u32);
    read_whole(&mut reader)
}

/// The tree of a module text of fewer than 2^32 bytes, or its first fault: that of its tokens, or, where it
/// has tokens, that of the grammar. Places are numbers of bytes.
///
/// # Errors
/// The first fault of the text, or `NoMemory`.
pub fn read(alloc: Global, text: &str) -> Result<Modules, ReadFault>
    requires { length text.now < 2 ^ 32 }
    // What is read is the tree of the text.
    ensures found { IfOk result (λ m. HasTree text.now m) }
    // A tree that the text has is read, unless memory runs out: so no text that is refused has one.
    ensures only { (m : List (APart AName)) → HasTree text.now m
        → MatchResult result (λ r. r ≡ m) (λ e. e ≡ ReadFault.NoMemory) }
    // Where it is refused, it is the first fault.
    ensures fault { IfErr result (IsFirstFault text.now) }
    // Which fault of a number it is, its rule says.
    ensures by_rule { IfErr result (IsByRule text.now) }
{
    let tokens = match tokens(alloc, text) {
        Ok(tokens) => tokens,
        Err(TokensError::Fault(fault)) => return Err(ReadFault::Token(fault)),
        Err(TokensError::NoMemory) => return Err(ReadFault::NoMemory),
    };
    match read_tokens(alloc, text, tokens.as_slice()) {
        Err(refused) => Err(as_fault(refused)),
        Ok(parts) => {
            if has_module(parts.as_slice()) {
                Ok(Modules::new(parts))
            } else {
                Err(ReadFault::NoModule)
            }
        }
    }
}
