//! What the definitions say of small cases. Each fact is a clause, and the bodies are empty.

ghost use Rattle.std.specs.Prelude.{◌≡◌, [], ◌∷◌, ◌++◌, Some, None};
ghost use Rattle.cqp_book.specs.Run.{IsRun};
ghost use Rattle.cqp_cells.specs.Teleportation.{teleportation_entries};
ghost use Rattle.cqp_ring.specs.Amp.{amp_negative, one_amp, w_power, zero_amp};
ghost use Rattle.cqp_syntax.specs.declared.op.Op.TheVariants as op;
ghost use Rattle.cqp_vector.specs.Pieces.{pieces_of};
ghost use Rattle.cqp_machine.specs.Examples.{after_h, after_turn, bell_group, bell_measured};
ghost use Rattle.cqp_machine.specs.Examples.{two_ones};
ghost use Rattle.cqp_machine.specs.declared.front.Stop.TheVariants as stop;
ghost use Rattle.cqp_machine.specs.Machine.{factored};
ghost use Rattle.cqp_machine.specs.Shown.{cells_of, front_of, shown};
ghost use Rattle.cqp_machine.specs.Teleported.{measuring, sharing, teleportation_events};
ghost use Rattle.cqp_machine.specs.Teleported.{teleportation_listing};
ghost use Rattle.cqp_machine.specs.Factors.{factor_of, gated, level_of, new_group, outcome_in};
ghost use Rattle.cqp_machine.specs.Factors.{places_in, split_pieces};

/// Levels of a new qubit, after H, after two H, after H, T, H, and of a Bell pair before and after
/// its measurement.
pub(crate) fn levels()
    ensures fresh { level_of (new_group 5) ≡ 0 }
    ensures one { level_of after_h ≡ 2 }
    ensures two { level_of (gated op.H (5 ∷ []) after_h) ≡ 0 }
    ensures turn { level_of after_turn ≡ 3 }
    ensures bell { level_of bell_group ≡ 2 }
    ensures measured { level_of (bell_measured 1) ≡ 2 }
{}

/// Numerators of a Bell pair, of its measured group, and of gates under controls.
pub(crate) fn numerators()
    ensures bell { bell_group.nums ≡ one_amp ∷ zero_amp ∷ zero_amp ∷ one_amp ∷ [] }
    ensures due { (bell_measured 1).due ≡ 3 ∷ [] }
    ensures ones { two_ones.nums
        ≡ zero_amp ∷ zero_amp ∷ zero_amp ∷ zero_amp ∷
        zero_amp ∷ one_amp ∷ zero_amp ∷ zero_amp ∷ [] }
    ensures toffoli { (gated op.Toffoli (5 ∷ 7 ∷ 3 ∷ []) two_ones).nums
        ≡ zero_amp ∷ zero_amp ∷ zero_amp ∷ zero_amp ∷
        zero_amp ∷ zero_amp ∷ zero_amp ∷ one_amp ∷ [] }
    ensures swap { (gated op.Swap (3 ∷ 7 ∷ []) two_ones).nums
        ≡ zero_amp ∷ zero_amp ∷ zero_amp ∷ zero_amp ∷
        zero_amp ∷ zero_amp ∷ one_amp ∷ zero_amp ∷ [] }
{}

/// A measured Bell pair is split into the measured qubit and the rest, which keeps the exponent.
pub(crate) fn pieces()
    ensures outcome { outcome_in (3 ∷ []) (bell_measured 1) ≡ 1 }
    ensures pieces { split_pieces (3 ∷ []) (bell_measured 1)
        ≡ pieces_of (places_in (5 ∷ 3 ∷ []) (3 ∷ [])) 1 (factor_of (bell_measured 1)) }
    ensures single { split_pieces (3 ∷ []) (bell_measured 1)
        ≡ record { qubits = 3 ∷ []; nums = zero_amp ∷ one_amp ∷ []; h = 0 }
        ∷ record { qubits = 5 ∷ []; nums = zero_amp ∷ one_amp ∷ []; h = 1 } ∷ [] }
{}

/// Teleportation is a run: its events are enabled one after another. It shows the entries of the
/// trace, in their order.
pub(crate) fn teleportation_is_a_run()
    ensures run { IsRun factored teleportation_listing teleportation_events }
    ensures shows { shown teleportation_events ≡ teleportation_entries }
{}

/// The front of that run: once the pair is shared, once Alice has measured, and at the end.
pub(crate) fn teleportation_fronts()
    ensures shared { front_of teleportation_listing sharing ≡ record {
      parts = 1;
      qubits = 3;
      chans = 1;
      level = 2;
      turns = 0;
      ready = 1;
      stopped = stop.No;
    } }
    ensures measured { front_of teleportation_listing (sharing ++ measuring) ≡ record {
      parts = 2;
      qubits = 3;
      chans = 1;
      level = 4;
      turns = 1;
      ready = 1;
      stopped = stop.No;
    } }
    ensures end { front_of teleportation_listing teleportation_events ≡ record {
      parts = 2;
      qubits = 3;
      chans = 1;
      level = 4;
      turns = 1;
      ready = 0;
      stopped = stop.No;
    } }
{}

/// Its cells: the shared pair, Bob's qubit at the end, which is mended, and that no part is left.
pub(crate) fn teleportation_cells()
    ensures pair { (cells_of teleportation_listing sharing).groups 1 ≡ Some (record {
      qubits = 1 ∷ 2 ∷ [];
      nums = one_amp ∷ zero_amp ∷ zero_amp ∷ one_amp ∷ [];
      h = 1;
      due = [];
    }) }
    ensures mended { (cells_of teleportation_listing teleportation_events).groups 2
        ≡ Some (record {
          qubits = 2 ∷ [];
          nums = amp_negative (w_power 2) ∷ zero_amp ∷ [];
          h = 2;
          due = [];
        }) }
    ensures alice { (cells_of teleportation_listing teleportation_events).parts 0 ≡ None }
    ensures bob { (cells_of teleportation_listing teleportation_events).parts 1 ≡ None }
{}
