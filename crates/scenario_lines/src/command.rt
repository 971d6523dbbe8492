//! The commands of a scenario.
ghost use Rattle.std.specs.Prelude.{◌≡◌, Some, IfSome};
ghost use Rattle.scenario_lines.specs.declared.command.Command.{Command as ACommand};
ghost use Rattle.scenario_lines.specs.Reader.{command_word};

/// What a line of a scenario asks for, by the word that it begins with.
#[derive(Clone, Copy, PartialEq, Eq, Debug)]
pub enum Command {
    React,
    Work,
    Notify,
    More,
    Reset,
    Settle,
}

/// The command of a word.
pub fn command_of(word: &[u8]) -> Option<Command>
    ensures found { IfSome result (λ c. word.now ≡ command_word c) }
    ensures only { (c : ACommand) → word.now ≡ command_word c → result ≡ Some c }
{
    if word == b"react".as_slice() {
        return Some(Command::React);
    }
    if word == b"work".as_slice() {
        return Some(Command::Work);
    }
    if word == b"notify".as_slice() {
        return Some(Command::Notify);
    }
    if word == b"more".as_slice() {
        return Some(Command::More);
    }
    if word == b"reset".as_slice() {
        return Some(Command::Reset);
    }
    if word == b"settle".as_slice() {
        return Some(Command::Settle);
    }
    None
}
