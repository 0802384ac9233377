//! What takes the outputs of a group, one by one.
ghost use Rattle.std.specs.Prelude.{ℕ, List, Option, IfErr};
ghost use Rattle.std.specs.declared.io.Error.{Error};
ghost use Rattle.answertext.specs.Sinks.{WritesOrBegins};
ghost use Rattle.script.specs.Faults.{IsFaultOf, IsPlayFault};
ghost use Rattle.script.specs.Printing.{output_text};

use crate::run_fault::RunFault;
use crate::writing::print_output;
use answertext::outlet::Outlet;
use std::alloc::Global;
use world::output::Output;

/// What takes the outputs of a group, in their order.
pub trait Printer {
    /// The lines that it is known to have printed; none where nothing is said of them, as of what prints another form.
    ghost printed: { Self → Option (List ℕ) };

    /// The printer before a call, an error of its writer that the call gave, and the printer after it. It is known only where a
    /// call gave it: who promises it over any printer can't invent one.
    ghost fails: { Self → Error → Self → Type 0 };

    /// Takes an output. Where it fails, for want of memory or by its writer's fault, a beginning may have been printed.
    fn print(&mut self, alloc: Global, output: &Output) -> Result<(), RunFault>
        ensures text { WritesOrBegins (printed self.old) (printed self.new) result (output_text output.now) }
        ensures err { IfErr result IsPlayFault }
        ensures whose { IfErr result (IsFaultOf fails self.new) };
}

/// An outlet takes each output as its lines.
impl<O: Outlet> Printer for O {
    ghost printed = { λ outlet. O.holds outlet };

    ghost fails = { λ before error after. O.fails before error after };

    fn print(&mut self, alloc: Global, output: &Output) -> Result<(), RunFault> {
        print_output(alloc, output, self)
    }
}
