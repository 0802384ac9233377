//! Outputs put as their lines.
ghost use Rattle.std.specs.Prelude.{◌≡◌, Err, IfErr};
ghost use Rattle.std.specs.List.{flat_map};
ghost use Rattle.fault.specs.declared.refusal.Refusal.TheVariants.{NoMemory};
ghost use Rattle.answertext.specs.Sinks.{WritesOrBegins};
ghost use Rattle.script.specs.Faults.{IsFaultOf, IsPlayFault};
ghost use Rattle.script.specs.Printing.{output_text};

use crate::printer::Printer;
use crate::printing::Printed;
use crate::run_fault::RunFault;
use answertext::outlet::Outlet;
use fault::Refusal;
use model::member::Member;
use std::alloc::Global;
use world::output::Output;

// Puts an output as its lines. Where the outlet fails a beginning of them was put.
pub(crate) fn print_output<O: Outlet>(
    alloc: Global,
    output: &Output,
    outlet: &mut O,
) -> Result<(), RunFault>
    ensures text { WritesOrBegins (O.holds outlet.old) (O.holds outlet.new) result (output_text output.now) }
    ensures err { IfErr result IsPlayFault }
    ensures whose { IfErr result (IsFaultOf O.fails outlet.new) }
{
    let text = Printed(output).to_string(alloc)?;
    match outlet.put(text.as_str()) {
        Ok(()) => Ok(()),
        Err(error) => Err(RunFault::Output(error)),
    }
}

// Prints that a member refuses. Want of memory is no member's refusal: it ends the playing, and nothing is printed.
pub(crate) fn print_refusal<P: Printer>(
    alloc: Global,
    node: Member,
    refusal: Refusal,
    printer: &mut P,
) -> Result<(), RunFault>
    ensures text { WritesOrBegins (P.printed printer.old) (P.printed printer.new) result (output_text (Output.Refused node refusal)) }
    ensures memory { refusal ≡ NoMemory → (result ≡ Err (RunFault.Refused NoMemory)) × (printer.new ≡ printer.old) }
    ensures err { IfErr result IsPlayFault }
    ensures whose { IfErr result (IsFaultOf P.fails printer.new) }
{
    match refusal {
        Refusal::NoMemory => Err(RunFault::Refused(Refusal::NoMemory)),
        refusal => printer.print(alloc, &Output::Refused(node, refusal)),
    }
}

// Prints outputs in their order.
pub(crate) fn print_outputs<P: Printer>(
    alloc: Global,
    outputs: &[Output],
    printer: &mut P,
) -> Result<(), RunFault>
    ensures text { WritesOrBegins (P.printed printer.old) (P.printed printer.new) result (flat_map output_text outputs.now) }
    ensures err { IfErr result IsPlayFault }
    ensures whose { IfErr result (IsFaultOf P.fails printer.new) }
{
    for output in outputs {
        match printer.print(alloc, output) {
            Ok(()) => {}
            Err(fault) => return Err(fault),
        }
    }
    Ok(())
}
