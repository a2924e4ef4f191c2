//! Runs of small programs, as the rules give them.
ghost use Rattle.std.specs.Prelude.{◌≡◌, [], ◌∷◌, ◌++◌, codes, Some, None};
ghost use Rattle.tso_core.specs.declared.Step.TheVariants.{Run, Drain};
ghost use Rattle.tso_core.specs.declared.Event.TheVariants.{Call, Exit};
ghost use Rattle.x86_machine.specs.declared.now.X86Now.TheVariants.{Running, Exited, Fault, NoHeap};
ghost use Rattle.x86_machine.specs.Examples.{run_of, runs, seven, two_blocks, no_quotient, call_of_no_code, unknown_flag, store_buffering, to_prints, drained_between};

/// In the store-buffering test both threads may read what was there before; a thread whose write has
/// reached memory is read from.
pub fn store_buffering_is_seen()
    ensures relaxed { run_of store_buffering to_prints ≡ Some (Call 0 (codes "print") (0 ∷ []) ∷ Call 1 (codes "print") (0 ∷ []) ∷ [], Running) }
    ensures drained { run_of store_buffering drained_between ≡ Some (Call 0 (codes "print") (0 ∷ []) ∷ Call 1 (codes "print") (1 ∷ []) ∷ [], Running) }
{}

/// A program ends with the word of its main; a division that has no quotient, a call of what is no
/// code and a condition on an unknown flag are faults.
pub fn programs_end()
    ensures exit { run_of seven (runs 0 2) ≡ Some (Exit 7 ∷ [], Exited) }
    ensures ended { run_of seven (runs 0 3) ≡ None }
    ensures division { run_of no_quotient (runs 0 4) ≡ Some ([], Fault) }
    ensures call { run_of call_of_no_code (runs 0 2) ≡ Some ([], Fault) }
    ensures flag { run_of unknown_flag (runs 0 3) ≡ Some ([], Fault) }
{}

/// A block is asked for with an empty buffer, given where it was chosen, and not twice.
pub fn blocks_are_apart()
    ensures waits { run_of two_blocks (runs 0 3) ≡ None }
    ensures no_heap { run_of two_blocks (runs 0 2 ++ Drain 0 ∷ Run 0 (Some 0) ∷ []) ≡ Some ([], NoHeap) }
    ensures apart { run_of two_blocks (runs 0 2 ++ Drain 0 ∷ Run 0 (Some 0x30000000) ∷ Run 0 None ∷ Drain 0 ∷ Run 0 (Some 0x30000010) ∷ []) ≡ Some ([], Running) }
    ensures twice { run_of two_blocks (runs 0 2 ++ Drain 0 ∷ Run 0 (Some 0x30000000) ∷ Run 0 None ∷ Drain 0 ∷ Run 0 (Some 0x30000000) ∷ []) ≡ None }
{}
