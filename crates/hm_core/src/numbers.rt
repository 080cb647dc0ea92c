// The numbers of pseudo file systems that a reply tells to be used.
ghost use Rattle.std.specs.Prelude.{◌≡◌};
ghost use Rattle.hm_core.specs.Numbers.{numbers_by};

use hm_model::{Command, Reply};

/// All numbers below this one are used, by the reply to a call: 0 where it made no pseudo file system.
pub(crate) fn numbers_by(command: &Command, reply: &Reply) -> u32
    ensures { result ≡ numbers_by command.now reply.now }
{
    match (command, reply) {
        (Command::PfsMaster { .. } | Command::PfsSlave { .. }, Reply::MadePfs { number }) =>
            u32::from(number.0) + 1,
        _ => 0,
    }
}
