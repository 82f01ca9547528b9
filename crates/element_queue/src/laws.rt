//! What the rules make of lists of elements.
ghost use Rattle.std.specs.Prelude.{◌≡◌, ◌≤◌, ◌<◌, ◌+◌, ◌-◌, ◌%◌, ◌^◌, ◌++◌, ℕ, not, true, Bool, List, [], ◌∷◌, All, length, Ok, Err};
ghost use Rattle.std.specs.List.{flat_map};
ghost use Rattle.etm_types.specs.declared.element.Elem.{Elem};
ghost use Rattle.etm_types.specs.declared.element.Elem.TheVariants as elem;
ghost use Rattle.etm_types.specs.declared.element.P0.{P0};
ghost use Rattle.etm_types.specs.declared.element.P0.TheVariants.{Atom};
ghost use Rattle.etm_types.specs.declared.element.Thing.{Thing};
ghost use Rattle.etm_types.specs.declared.queue_fault.QueueFault.TheVariants.{CancelOverrun, NoAtomToFlip};
ghost use Rattle.element_queue.specs.Counting.{entries, no_counts, p0s, tally};
ghost use Rattle.element_queue.specs.Resolved.{Resolved, at_first, resolve_all, then_resolve, unresolved, with_done};
ghost use Rattle.element_queue.specs.Rewriting.{KeepsTrace, SpareAll, elements_of_run, room_made, taken_together};

/// Elements are resolved one by one: those of a joined list are those of the second from what the first left, up
/// to the first fault.
pub fn elements_are_resolved_one_by_one()
    ensures { (depth : ℕ) (r : Resolved) (first second : List Elem)
        → resolve_all depth r (first ++ second) ≡ then_resolve (resolve_all depth r first) (λ next. resolve_all depth next second) }
{}

/// What is committed stays so: nothing is taken out of it by later elements.
pub fn done_stays_done()
    ensures { (depth : ℕ) (r after : Resolved) (elements : List Elem)
        → resolve_all depth r elements ≡ Ok after → (more : List Thing) × (after.done ≡ r.done ++ more) }
{}

/// Never more is held than the depth, from where a trace info came and no more was held.
pub fn no_more_than_the_depth_is_held()
    ensures { (depth : ℕ) (r after : Resolved) (elements : List Elem)
        → r.pending.informed ≡ true → length r.pending.held ≤ depth
        → resolve_all depth r elements ≡ Ok after → length after.pending.held ≤ depth }
{}

/// A tally counts what the elements do, each count modulo 2^64. As many P0 elements are made as stand among the
/// elements that were taken, of which the last may have a fault. As many are committed as stand among what is
/// committed for good, but for those that were not seen.
pub fn a_tally_counts_what_is_resolved()
    ensures made { (depth : ℕ) (r : Resolved) (front : List Elem) (last : Elem)
        → resolve_all depth unresolved front ≡ Ok r
        → (tally depth at_first no_counts (front ++ last ∷ [])).made ≡ p0s (front ++ last ∷ []) % 2 ^ 64 }
    ensures committed { (depth : ℕ) (r : Resolved) (elements : List Elem)
        → resolve_all depth unresolved elements ≡ Ok r
        → (tally depth at_first no_counts elements).committed ≡ entries r.done % 2 ^ 64 }
{}

// Two ways of writing the same trace. By `elements_are_resolved_one_by_one` each of these laws can be used at any place of a list.

/// Packing: which atoms share a packet changes nothing. Here are elements alone: P0 elements that stand together are resolved
/// like those of many packets, one after the other. A run of them is as good as held as one, and the oldest of what is more than
/// the depth are committed then.
pub fn packed_atoms_are_taken_one_by_one()
    ensures packets { (depth : ℕ) (r : Resolved) (before after : List Elem) (packets : List (List P0))
        → resolve_all depth r (before ++ elements_of_run (flat_map (λ packet. packet) packets) ++ after)
        ≡ resolve_all depth r (before ++ flat_map elements_of_run packets ++ after) }
    ensures at_once { (depth : ℕ) (r : Resolved) (p0 : P0) (run : List P0)
        → resolve_all depth r (elements_of_run (p0 ∷ run)) ≡ with_done r.done (taken_together depth r.pending (p0 ∷ run)) }
{}

/// Inverting: an atom that is flipped at once is the other atom, also where the queue is full. At depth 0 it was committed, so
/// there is none to flip.
pub fn a_flipped_atom_is_the_inverted_atom()
    ensures inverted { (depth : ℕ) (r : Resolved) (taken : Bool) → 0 < depth
        → resolve_all depth r (elem.P0 (Atom taken) ∷ elem.Flip ∷ []) ≡ resolve_all depth r (elem.P0 (Atom (not taken)) ∷ []) }
    ensures refused { (r : Resolved) (taken : Bool) → resolve_all 0 r (elem.P0 (Atom taken) ∷ elem.Flip ∷ []) ≡ Err (NoAtomToFlip 0) }
{}

/// Vanishing: P0 elements, such as atoms, that are taken back at once were never there, where there was room for all of them. What
/// was given before the first of them is given again. Where more is taken back than is held, both are refused, each with
/// its own numbers. With one P0 element at least, all three conditions are needed.
pub fn cancelled_atoms_vanish()
    ensures vanish { (depth n : ℕ) (r : Resolved) (run : List P0)
        → length run ≤ n → length r.pending.held + length run ≤ depth → n ≤ length r.pending.held + length run
        → resolve_all depth r (elements_of_run run ++ elem.Cancel n ∷ []) ≡ resolve_all depth r (elem.Cancel (n - length run) ∷ []) }
    ensures refused { (depth n : ℕ) (r : Resolved) (run : List P0)
        → length r.pending.held + length run ≤ depth → length r.pending.held + length run < n
        → (resolve_all depth r (elements_of_run run ++ elem.Cancel n ∷ []) ≡ Err (CancelOverrun n (length r.pending.held + length run)))
        × (resolve_all depth r (elem.Cancel (n - length run) ∷ []) ≡ Err (CancelOverrun (n - length run) (length r.pending.held))) }
    ensures conditions { (depth n : ℕ) (r : Resolved) (run : List P0)
        → resolve_all depth r (elements_of_run run ++ elem.Cancel n ∷ []) ≡ resolve_all depth r (elem.Cancel (n - length run) ∷ [])
        → 0 < length run → (length run ≤ n) × (length r.pending.held + length run ≤ depth) × (n ≤ length r.pending.held + length run) }
{}

/// Joining: cancels one after the other are the cancel of their sum, where so many are held. Where fewer are held both are
/// refused: the two where the first that reaches too far does, with its numbers, and the sum with its own.
pub fn joined_cancels_are_their_sum()
    ensures sum { (depth first second : ℕ) (r : Resolved) → first + second ≤ length r.pending.held
        → resolve_all depth r (elem.Cancel first ∷ elem.Cancel second ∷ []) ≡ resolve_all depth r (elem.Cancel (first + second) ∷ []) }
    ensures refused { (depth first second : ℕ) (r : Resolved) → length r.pending.held < first + second
        → resolve_all depth r (elem.Cancel (first + second) ∷ []) ≡ Err (CancelOverrun (first + second) (length r.pending.held)) }
    ensures first { (depth first second : ℕ) (r : Resolved) → length r.pending.held < first
        → resolve_all depth r (elem.Cancel first ∷ elem.Cancel second ∷ []) ≡ Err (CancelOverrun first (length r.pending.held)) }
    ensures second { (depth first second : ℕ) (r : Resolved) → first ≤ length r.pending.held → length r.pending.held < first + second
        → resolve_all depth r (elem.Cancel first ∷ elem.Cancel second ∷ []) ≡ Err (CancelOverrun second (length r.pending.held - first)) }
{}

/// Deferring: a commit may stand behind later elements, less what a full queue has committed meanwhile. Where they have no
/// fault behind the commit, they spare what it commits. The other way round, a commit that stands behind elements which
/// spare what it commits may stand before them. Later commits and trace infos may stand among them, but nothing by which trace is
/// lost.
pub fn a_commit_may_be_deferred()
    ensures later { (depth n : ℕ) (r after : Resolved) (elements : List Elem)
        → All KeepsTrace elements → resolve_all depth r (elem.Commit n ∷ elements) ≡ Ok after
        → resolve_all depth r (elements ++ elem.Commit (n - room_made depth r.pending elements) ∷ []) ≡ Ok after }
    ensures spares { (depth n : ℕ) (r after : Resolved) (elements : List Elem)
        → All KeepsTrace elements → resolve_all depth r (elem.Commit n ∷ elements) ≡ Ok after
        → (n ≤ length r.pending.held) × SpareAll depth n r.pending elements }
    ensures earlier { (depth n : ℕ) (r after : Resolved) (elements : List Elem)
        → n ≤ length r.pending.held → SpareAll depth n r.pending elements
        → resolve_all depth r (elements ++ elem.Commit (n - room_made depth r.pending elements) ∷ []) ≡ Ok after
        → resolve_all depth r (elem.Commit n ∷ elements) ≡ Ok after }
{}
