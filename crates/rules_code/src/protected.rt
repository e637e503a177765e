// Access protection, which is tested before all else that a command decides.
ghost use Rattle.std.specs.Prelude.{◌≡◌};
ghost use Rattle.rules.specs.Rules.{unless_protected};

use board::View;
use command::{Command, Decision, Why};

// A decision on a command, unless protection forbids the command.
pub fn unless_protected(view: View, command: Command, decision: Decision) -> Decision
    ensures { result ≡ unless_protected view command decision }
{
    let forbidden = view.locked & command::protected::is_protected(command);
    if forbidden {
        command::nack(Why::AccessProtected)
    } else {
        decision
    }
}
