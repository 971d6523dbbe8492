//! What is wrong with the emissions of the interface.

ghost use Rattle.std.specs.Prelude.{◌≡◌, ◌<◌, ◌≤◌, Some, length, slice_get};
ghost use Rattle.hh_term.specs.MustCan.{table_of};
ghost use Rattle.hh_term.specs.ProgramView.{kernel_of};
ghost use Rattle.sync_step.specs.Reacting.{JudgedAll};

use hh_term::program::Program;
use last_walk::last_pass::{Emitted, LastPass};

/// The emissions of a signal.
pub fn emissions_of(emitted: &[Emitted], signal: u32) -> &Emitted
    requires { signal < length emitted.now }
    ensures { slice_get emitted.now signal ≡ Some result.now }
{
    &emitted[signal as usize]
}

/// Notes what is wrong with these emissions of the interface.
pub fn judge_interface(program: &Program, emitted: &[Emitted], pass: &mut LastPass)
    requires { (kernel_of program.now).interface ≤ length emitted.now }
    ensures same { pass.new ≡ record pass.old { fault = pass.new.fault; doubled = pass.new.doubled } }
    ensures judged { JudgedAll (table_of (kernel_of program.now)) (kernel_of program.now).interface emitted.now
        pass.old pass.new }
{
    for signal in 0..program.interface_len() {
        pass.judge(program, signal, emissions_of(emitted, signal));
    }
}
