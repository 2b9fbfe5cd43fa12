// Laws of what states stand for.
ghost use Rattle.rx_clause_tree.specs.declared.package.Package.{Package};
ghost use Rattle.rx_kernel.specs.Readings.{by_bodies, fixed_for_body, fixed_for_code, reading};
ghost use Rattle.rx_kernel.specs.Views.{IsReading};
ghost use Rattle.rx_machine.specs.Todo.{by_clauses};

/// Positions stand for what is still to be done: the beginning of a body's code for the whole body, and an answer comes where it
/// does. Neither changes what is fixed for the code that goes on.
pub fn view_laws()
    ensures reading { (program : Package) → IsReading (by_clauses program) (reading program) }
    ensures code { (program : Package) → IsReading (by_bodies program) (fixed_for_code program) }
    ensures body { (program : Package) → IsReading (by_bodies program) (fixed_for_body program) }
{}
