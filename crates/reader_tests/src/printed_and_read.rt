//! Trees that are printed and read again.

ghost use Rattle.std.specs.Prelude.{◌≡◌};
ghost use Rattle.module_printer.specs.Printed.{printed};

use module_printer::print::print;
use module_reader::read::read;
use module_tree::source::Modules;
use round_trip::read_back;
use std::alloc::Global;
use std::test::Fail;

fn read_short(alloc: Global, text: &str) -> Result<Modules, Fail> {
    if text.len() >= 1 << 32 {
        return Err(Fail::new("the text is too long"));
    }
    match read(alloc, text) {
        Ok(modules) => Ok(modules),
        Err(_) => Err(Fail::new("the text is refused")),
    }
}

fn back(alloc: Global, modules: &Modules, bytes: &[u8]) -> Result<Modules, Fail>
    requires { bytes.now ≡ printed modules.now }
{
    if bytes.len() >= 1 << 32 {
        return Err(Fail::new("the print is too long"));
    }
    match read_back(alloc, modules) {
        Ok(again) => Ok(again),
        Err(_) => Err(Fail::new("no memory")),
    }
}

#[test]
fn reads_the_tree_that_was_printed(rt: HostRuntime) -> Result<(), Fail> {
    let texts = [
        "module M() {}",
        "host f(int): int; module M(in A, out O: int) { if (A.now) { emit O(1); } else {} }",
        "body g(a: int): bool { a - (1 - 2) == 3 ? !(a < 4) : -a < 5 * (6 + a) } module M() {}",
    ];
    for text in texts {
        let modules = read_short(rt.alloc(), text)?;
        let bytes = print(rt.alloc(), &modules)?;
        let again = back(rt.alloc(), &modules, bytes.as_slice())?;
        assert_eq!(rt; print(rt.alloc(), &again)?.as_slice(), bytes.as_slice());
    }
    Ok(())
}
