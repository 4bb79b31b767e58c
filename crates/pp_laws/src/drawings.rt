//! The law of the text of drawings.

ghost use Rattle.std.specs.Prelude.{Bool, List, Option, codes};
ghost use Rattle.pp_machine.specs.MachineState.{MachineState};
ghost use Rattle.pp_numbers.specs.declared.window.Window.{Window};
ghost use Rattle.pp_draw.specs.DrawingText.{drawing};
ghost use Rattle.pp_draw.specs.declared.seen_step.SeenStep.{SeenStep};
ghost use Rattle.pp_laws.specs.WellFormed.{IsWellFormed};

/// Every drawing is well-formed XML, whatever it shows; and two texts that are not.
pub fn well_formed_law()
    ensures drawing { (w : Window) (shown : List Bool) (m : MachineState)
        (earlier : List (Option SeenStep)) (steps : List SeenStep)
        → IsWellFormed (drawing w shown m earlier steps) }
    ensures unclosed { ¬ IsWellFormed (codes "<svg><g></g>") }
    ensures repeated { ¬ IsWellFormed (codes "<svg x='8' x='8'/>") }
{}
