//! What a program says of its signals and sites.

ghost use Rattle.std.specs.Prelude.{◌≡◌};
ghost use Rattle.hh_term.specs.MustCan.{table_of};
ghost use Rattle.hh_term.specs.ProgramView.{kernel_of};

use hh_base::value::{Kind, Pos};
use hh_term::program::Program;

/// The position of a declaration of a signal.
pub fn position_of(program: &Program, signal: u32) -> Pos
    ensures { result ≡ (table_of (kernel_of program.now)).position signal }
{
    match program.signals().get(signal as usize) {
        Some(declared) => declared.pos,
        None => Pos(0),
    }
}

/// The kinds of the parameters of an async site.
pub fn params_of(program: &Program, site: u32) -> &[Kind]
    ensures { result.now ≡ (table_of (kernel_of program.now)).params site }
{
    match program.sites().get(site as usize) {
        Some(declared) => match program.bodies().get(declared.body as usize) {
            Some(body) => body.params.as_slice(),
            None => &[],
        },
        None => &[],
    }
}
