//! Words.
ghost use Rattle.std.specs.Prelude.{◌≡◌, ◌∷◌, true, ℕ, List};
ghost use Rattle.std.specs.Str.{chars, IsCharBoundary};
ghost use Rattle.hh_base.specs.Name.{starts_word};
ghost use Rattle.module_token.specs.Cut.{CutsAt};
ghost use Rattle.module_token.specs.Front.{word_found, word_front, word_len};
ghost use Rattle.hh_base.specs.Keyword.{keyword_of};

use crate::fault::TokenFaultKind;
use crate::front::Front;
use crate::token::TokenKind;
use hh_base::keyword::keyword_of;
use hh_base::name::NAME_LIMIT;

/// How many bytes stand first of characters that go on a word.
fn word_len(text: &str) -> usize
    ensures value { result ≡ word_len (chars text.now) }
    ensures cut { IsCharBoundary text.now result }
{
    let mut len = 0;
    for letter in text.chars() {
        if !unicode_ident::is_xid_continue(letter) {
            break;
        }
        len += letter.len_utf8();
    }
    len
}

fn word_found(word: &str) -> TokenKind
    ensures { result ≡ word_found (keyword_of word.now) }
{
    match keyword_of(word) {
        Some(keyword) => TokenKind::Keyword(keyword),
        None => TokenKind::Word,
    }
}

/// The word at the front of the text.
#[tactic(auto, using(crate::proofs::Cuts::word_cut_some))]
pub fn word(text: &str) -> Front
    requires { (c : ℕ) × (cs : List ℕ) × (chars text.now ≡ c ∷ cs) × (starts_word c ≡ true) }
    ensures value { result ≡ word_front text.now }
    ensures cut { CutsAt text.now result }
{
    let len = word_len(text);
    if len > NAME_LIMIT {
        return Front::Wrong(0, TokenFaultKind::NameLong);
    }
    let (word, _) = text.split_at(len);
    Front::Lexeme(len, word_found(word))
}
