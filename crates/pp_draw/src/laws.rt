//! Laws of drawings. This function does nothing: its contract says what is proved of the
//! definitions.

ghost use Rattle.std.specs.Prelude.{◌≡◌, ◌==◌, ◌↔◌, ◌+◌, ◌<◌, ◌≤◌, ◌^◌, ℕ, Bool, IfSome, IsFalse, IsTrue, List, [], ◌∷◌, ◌++◌, Option, None, Some, map, if◌then◌else◌};
ghost use Rattle.std.specs.List.{filter_map, last_or, slice_get};
ghost use Rattle.std.specs.Option.{option_map};
ghost use Rattle.pp_numbers.specs.ChannelNo.{channel_index, names_channel};
ghost use Rattle.pp_channel.specs.declared.event.Event.{Event};
ghost use Rattle.pp_channel.specs.declared.event.Event.TheVariants.{Disconnect, Put};
ghost use Rattle.pp_machine.specs.{Headline.HoldsOnEachChannel, MachineStep.counted};
ghost use Rattle.pp_machine.specs.MachineState.{MachineState, history_of, is_opened};
ghost use Rattle.pp_numbers.specs.PpNo.{names_processor, processor_count, processor_index};
ghost use Rattle.pp_run.specs.RunSteps.{run_steps};
ghost use Rattle.pp_numbers.specs.declared.window.Window.{Window};
ghost use Rattle.pp_draw.specs.Condition.{channel_phases, continues, is_sent, own_earlier, phases_from, processor_phases};
ghost use Rattle.pp_draw.specs.SeenStep.{earlier_steps, is_shown, seen, seen_in_window};
ghost use Rattle.pp_draw.specs.DrawingLaw.{EndsAt, IsTurnOf, StandsWithin, continues_from, last_step, look_at, look_in};
ghost use Rattle.pp_draw.specs.DrawingText.{channel_lane, drawing, is_flagged, is_used, lanes_above, processor_lane, used_among};
ghost use Rattle.pp_draw.specs.Frame.{band_width};
ghost use Rattle.pp_draw.specs.Lane.{band_element, drawn_from, is_lost, is_visible, part_of};
ghost use Rattle.pp_draw.specs.declared.{condition.Condition.Condition, condition.Look.Look, condition.Phase.Phase, seen_step.SeenStep.SeenStep};
ghost use Rattle.pp_draw.specs.declared.condition.Look.TheVariants.{Channel, Processor};

/// What is drawn of processors is seen in the very steps of the run that the text of steps tells. A
/// channel has a phase for each event of its history, in order and from the turn of the event on,
/// and each is drawn. A phase of a processor is drawn just where it does not go on under the
/// condition of the one before: only phases under one condition are one, and all that are in a row.
/// In each turn the lane shows how the last step of the run found the processor. A phase that has a
/// turn in the window has its band, which goes to where the next begins, or else to the end, but
/// for a function code's, which is its turn alone. A word is drawn as lost where a Disconnect comes
/// next after its Put.
pub fn drawing_law()
    ensures history { (c : ℕ) (m : MachineState) → IsTrue (names_channel c)
        → HoldsOnEachChannel m
        → map look_in (channel_phases c m) ≡ map Channel (history_of c m) }
    ensures turns { (c : ℕ) (m : MachineState)
        → map (λ phase. phase.since) (channel_phases c m)
        ≡ (if is_opened c m then 0 ∷ [] else [])
        ++ filter_map (λ entry. if entry.channel == c then Some entry.turn else None) m.trace }
    ensures each_event { (c : ℕ) (m : MachineState)
        → phases_from None (channel_phases c m) ≡ channel_phases c m }
    ensures one_more { (phases : List Phase) (next : Phase)
        → phases_from None (phases ++ next ∷ []) ≡ phases_from None phases
        ++ (if continues_from (last_or None phases) next then [] else next ∷ []) }
    ensures alike { (look next : Look) → IsTrue (continues look next) → look ≡ next }
    ensures joined { (condition : Condition)
        → IsTrue (continues (Processor condition) (Processor condition)) }
    ensures last { (phases : List Phase)
        → option_map look_in (last_or None (phases_from None phases))
        ≡ option_map look_in (last_or None phases) }
    // A step of a turn in the window, or in the round before it, is shown.
    ensures shown { (w : Window) (step : SeenStep)
        → IsTrue (is_shown w step) ↔ (w.from ≤ step.turn + processor_count) }
    // What is drawn in a turn is how the last step up to then found the processor.
    ensures at_turn { (w : Window) (n : ℕ) (ns : List ℕ) (m : MachineState) (turn : ℕ)
        → m.turns < 2 ^ 64 → IfSome (last_step n turn (run_steps ns m)) (λ step.
        w.from ≤ step.before.turns + processor_count
        → look_at turn (phases_from None (processor_phases n
        (own_earlier n (earlier_steps w ns m) ++ seen_in_window w ns m)))
        ≡ Some (Processor (seen step).condition)) }
    // In the window it is, however long before it that step was.
    ensures in_window { (w : Window) (n : ℕ) (ns : List ℕ) (m : MachineState) (turn : ℕ)
        → m.turns < 2 ^ 64 → IsTrue (names_processor n) → w.from ≤ turn
        → IfSome (last_step n turn (run_steps ns m)) (λ step.
        look_at turn (phases_from None (processor_phases n
        (own_earlier n (earlier_steps w ns m) ++ seen_in_window w ns m)))
        ≡ Some (Processor (seen step).condition)) }
    // No gap is between a part and the next, and they do not overlap.
    ensures adjoin { (w : Window) (phase next : Phase) (after : Option Phase)
        → IsFalse (is_sent phase.look)
        → EndsAt (part_of w phase (Some next)) (part_of w next after).since
        (part_of w next after).start }
    ensures to_end { (w : Window) (phase : Phase) → IsFalse (is_sent phase.look)
        → EndsAt (part_of w phase None) w.to (band_width w) }
    // A function code is drawn in its turn alone.
    ensures code { (w : Window) (phase : Phase) (next : Option Phase)
        → IsTrue (is_sent phase.look)
        → (part_of w phase next).until ≡ counted phase.since }
    ensures visible { (w : Window) (phase : Phase) (next : Option Phase)
        → IsTrue (is_visible (part_of w phase next))
        ↔ ((turn : ℕ) × IsTurnOf w (part_of w phase next) turn) }
    ensures band { (w : Window) (name : List ℕ) (free : ℕ) (before : List Phase) (phase : Phase)
        (more : List Phase) → IsTrue (is_visible (part_of w phase (slice_get more 0)))
        → StandsWithin (band_element name (part_of w phase (slice_get more 0)))
        (drawn_from w name free (before ++ phase ∷ more)) }
    // The lane of a channel that is not used is empty, and so is that of a processor that is not
    // shown.
    ensures channels { (w : Window) (shown : List Bool) (m : MachineState)
        (earlier : List (Option SeenStep)) (steps : List SeenStep) (c : ℕ)
        → IsTrue (names_channel c)
        → StandsWithin (channel_lane w m c) (drawing w shown m earlier steps) }
    ensures processors { (w : Window) (shown : List Bool) (m : MachineState)
        (earlier : List (Option SeenStep)) (steps : List SeenStep) (n : ℕ)
        → IsTrue (names_processor n)
        → StandsWithin (processor_lane w shown m earlier steps n)
        (drawing w shown m earlier steps) }
    // The lane of a higher number lies lower.
    ensures channel_rows { (m : MachineState) (c d : ℕ) → IsTrue (names_channel c)
        → IsTrue (names_channel d) → IsTrue (is_used m c) → c < d
        → used_among (channel_index c) m < used_among (channel_index d) m }
    ensures processor_rows { (shown : List Bool) (m : MachineState) (n k : ℕ)
        → IsTrue (names_processor n) → IsTrue (names_processor k)
        → IsTrue (is_flagged shown (processor_index n)) → n < k
        → lanes_above (processor_index n) shown m < lanes_above (processor_index k) shown m }
    ensures lost { (e next : Event) (turn : ℕ) → IsTrue (is_lost (Channel e)
        (Some (record { since = turn; look = Channel next })))
        ↔ (((word : ℕ) × (e ≡ Put word)) × (next ≡ Disconnect)) }
{}
