//! The lines of tests and of emissions.
ghost use Rattle.std.specs.Prelude.{◌≡◌};
ghost use Rattle.net_line.specs.Reading.{Reads};
ghost use Rattle.net_line.specs.Taken.{Takes};
ghost use Rattle.net_text.specs.Lines.{test_line, emit_line};
ghost use Rattle.record_line.specs.RecordForm.{version_of, IsTestForm, IsEmitForm};
ghost use Rattle.record_line.specs.RecordReading.{test_row, sent_word, sent_behind, sent_row, emit_row};

use crate::part::{later_number, line_expression};
use hh_base::value::Pos;
use net_line::fault::LineFault;
use net_line::unread::Unread;
use net_list::record::{NetEmit, NetTest, Sent};

/// The word that says what an emission carries.
#[derive(Clone, Copy, PartialEq, Eq, Debug)]
pub enum SentWord {
    Nothing,
    Computed,
    Answer,
}

fn sent_word(part: &[u8]) -> Option<SentWord>
    ensures { result ≡ sent_word part.now }
{
    if part == b"-".as_slice() {
        return Some(SentWord::Nothing);
    }
    if part == b"=".as_slice() {
        return Some(SentWord::Computed);
    }
    if part == b"ans".as_slice() {
        return Some(SentWord::Answer);
    }
    None
}

fn sent_behind(unread: &mut Unread<'_>, word: SentWord) -> Result<Sent, LineFault>
    ensures { Reads (sent_behind word unread.old) result unread.new }
{
    match word {
        SentWord::Nothing => Ok(Sent::Nothing),
        SentWord::Computed => Ok(Sent::Computed(line_expression(unread)?)),
        SentWord::Answer => Ok(Sent::Answer(unread.number()?)),
    }
}

fn sent(unread: &mut Unread<'_>) -> Result<Sent, LineFault>
    ensures { Reads (sent_row unread.old) result unread.new }
{
    let Some(word) = sent_word(unread.part()?) else {
        return Err(LineFault::Formless);
    };
    sent_behind(unread, word)
}

fn test_row(unread: &mut Unread<'_>, later: bool) -> Result<NetTest, LineFault>
    ensures { Reads (test_row later unread.old) result unread.new }
{
    let control = unread.first_number()?;
    let expr = line_expression(unread)?;
    let pos = Pos(later_number(unread, later)?);
    unread.line_end()?;
    Ok(NetTest { control, expr, pos })
}

/// Takes the line of a test, of version 2 where `later` holds and else of version 1.
#[tactic(auto, using(crate::proofs::Taking::test_taken))]
pub fn read_test(unread: &mut Unread<'_>, later: bool) -> Result<NetTest, LineFault>
    ensures { Takes (test_line (version_of later)) (IsTestForm later) unread.old result unread.new }
{
    test_row(unread, later)
}

fn emit_row(unread: &mut Unread<'_>, later: bool) -> Result<NetEmit, LineFault>
    ensures { Reads (emit_row later unread.old) result unread.new }
{
    let control = unread.first_number()?;
    let signal = unread.number()?;
    let sent = sent(unread)?;
    let pos = Pos(later_number(unread, later)?);
    unread.line_end()?;
    Ok(NetEmit {
        control,
        signal,
        sent,
        pos,
    })
}

/// Takes the line of an emission, of version 2 where `later` holds and else of version 1.
#[tactic(auto, using(crate::proofs::Taking::emit_taken))]
pub fn read_emit(unread: &mut Unread<'_>, later: bool) -> Result<NetEmit, LineFault>
    ensures { Takes (emit_line (version_of later)) (IsEmitForm later) unread.old result unread.new }
{
    emit_row(unread, later)
}
