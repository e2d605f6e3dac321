// What is printed for a refusal.
ghost use Rattle.std.specs.Prelude.{◌≡◌, ◌++◌, string_bytes, OnOk};
ghost use Rattle.reader.specs.Answers.{fault_said};
ghost use Rattle.session.specs.Transcript.{printed};

use reader::ReadFault;
use std::alloc::AllocError;

// Written at once and no `Display`: the clause speaks of the text that is added.
pub(crate) fn print_fault(out: &mut String, fault: ReadFault) -> Result<(), AllocError>
    ensures { OnOk result (string_bytes out.new ≡ string_bytes out.old ++ printed (fault_said fault)) }
{
    let n = fault.number();
    match fault {
        ReadFault::Malformed { byte } | ReadFault::Unknown { byte } => {
            writeln!(out, "refused {n} byte {byte}")
        }
        ReadFault::Refused(_) | ReadFault::NotPresented(_) => writeln!(out, "refused {n}"),
    }
}
