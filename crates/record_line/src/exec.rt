//! The lines of async sites.
ghost use Rattle.std.specs.Prelude.{◌≡◌};
ghost use Rattle.net_line.specs.Reading.{Reads};
ghost use Rattle.net_line.specs.Taken.{Takes};
ghost use Rattle.net_text.specs.Lines.{exec_line};
ghost use Rattle.record_line.specs.RecordForm.{version_of, IsExecForm};
ghost use Rattle.record_line.specs.RecordReading.{exec_row};

use crate::part::{expressions, later_number, number_or_none};
use hh_base::value::Pos;
use hh_term::program::Site;
use net_line::fault::LineFault;
use net_line::unread::Unread;
use net_list::record::NetExec;
use std::alloc::Global;

fn exec_row(alloc: Global, unread: &mut Unread<'_>, later: bool) -> Result<NetExec, LineFault>
    ensures { Reads (exec_row later unread.old) result unread.new }
{
    let body = unread.first_number()?;
    let signal = number_or_none(unread)?;
    let go = unread.number()?;
    let reg = unread.number()?;
    let end = unread.number()?;
    let used = later_number(unread, later)?;
    let held = unread.number()?;
    let resumed = unread.number()?;
    let next = unread.number()?;
    let kill = unread.handler()?;
    let suspend = unread.handler()?;
    let resume = unread.handler()?;
    let args = expressions(alloc, unread)?;
    let pos = Pos(later_number(unread, later)?);
    unread.line_end()?;
    let site = Site {
        body,
        signal,
        args,
        kill,
        suspend,
        resume,
    };
    Ok(NetExec {
        site,
        go,
        reg,
        end,
        used,
        held,
        resumed,
        next,
        pos,
    })
}

/// Takes the line of an async site, of version 2 where `later` holds and else of version 1.
#[tactic(auto, using(crate::proofs::Taking::exec_taken))]
pub fn read_exec(alloc: Global, unread: &mut Unread<'_>, later: bool) -> Result<NetExec, LineFault>
    ensures { Takes (exec_line (version_of later)) (IsExecForm later) unread.old result unread.new }
{
    exec_row(alloc, unread, later)
}
