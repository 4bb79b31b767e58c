//! The law of what instructions do wherever they are run. The function does nothing: its contract
//! says what is proved of the definitions.

ghost use Rattle.std.specs.Prelude.{◌≡◌, None};
ghost use Rattle.pp_instructions.specs.ForeseenLaw.{CanHappen};
ghost use Rattle.pp_processor.specs.Processor.{IsProcessor, Processor};
ghost use Rattle.pp_processor.specs.declared.pp_state.PpState.TheVariants.{Running};

/// What is foreseen of an instruction can happen. Of a running processor outside a block, whatever
/// its memory holds, with some contents of A and some answer: if the instruction at P may go on, P
/// comes behind it, or a block begins that would end there; if it leads to a place, P comes there;
/// and if it is not said to fault, it does not.
#[tactic(auto, using(crate::proofs::ForeseenLawLemmas::can_happen))]
pub fn foreseen_law()
    ensures { (pp : Processor) → IsProcessor pp → pp.state ≡ Running → pp.block ≡ None
        → CanHappen pp }
{}
