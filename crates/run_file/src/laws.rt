//! What the definitions mean, as contracts of functions that do nothing.
ghost use Rattle.std.specs.Prelude.{◌≡◌, ℕ, ◌<◌, List, [], ◌∷◌, ◌++◌, Err, None, Ok, Some, replicate};
ghost use Rattle.program_image.specs.declared.image.Image.{Image};
ghost use Rattle.spec_run.specs.Checks.{check};
ghost use Rattle.spec_run.specs.RunAfter.{place_in, run_after};
ghost use Rattle.spec_run.specs.Runs.{Execution};
ghost use Rattle.spec_run.specs.declared.run_fault.RunFault.{RunFault};
ghost use Rattle.run_file.specs.BenchText.{parsed};
ghost use Rattle.run_file.specs.Parts.{BenchParts, BenchStream, IsBench, events_of};
ghost use Rattle.run_file.specs.Refusals.{first_of, refusal_among, stream_refusal};
ghost use Rattle.run_file.specs.declared.fault.BenchWhy.{BenchWhy};
ghost use Rattle.run_file.specs.declared.line.BenchLine.{BenchLine};

/// What a text says is a run file: its events are those of trace units of their sizes, no ID has two streams, and each weave is
/// one of a stream.
pub fn texts_say_run_files()
    ensures { (text : List ℕ) (b : BenchParts) → parsed text ≡ Ok b → IsBench b }
{}

/// Events are run one by one, line by line, and so often as each line says. The first that is refused gives the refusal of its
/// stream, by its line; and a stream whose events are all accepted has none.
pub fn repeated_lines_are_written_out()
    ensures events { (lines : List BenchLine) (l : BenchLine)
        → events_of (lines ++ l ∷ []) ≡ events_of lines ++ replicate l.times l.event }
    ensures refused { (image : Image) (s : BenchStream) (k : ℕ) (lines more : List BenchLine) (l : BenchLine) (x : Execution)
        (fault : RunFault)
        → run_after image s.settings.depth (events_of lines ++ replicate k l.event) ≡ Ok x → k < l.times
        → check image s.settings.depth (place_in x) l.event ≡ Some fault
        → stream_refusal image (record s { lines = lines ++ l ∷ more }) ≡ Some (l.line, BenchWhy.Run fault) }
    ensures refused_behind { (image : Image) (s : BenchStream) (k n : ℕ) (lines more : List BenchLine) (l : BenchLine) (x : Execution)
        (fault : RunFault)
        → run_after image s.settings.depth (events_of lines ++ replicate k l.event) ≡ Ok x → k < l.times
        → run_after image s.settings.depth ((events_of lines ++ replicate k l.event) ++ l.event ∷ []) ≡ Err (n, fault)
        → stream_refusal image (record s { lines = lines ++ l ∷ more }) ≡ Some (l.line, BenchWhy.Run fault) }
    ensures accepted { (image : Image) (s : BenchStream) (x : Execution)
        → run_after image s.settings.depth (events_of s.lines) ≡ Ok x
        → stream_refusal image s ≡ None }
{}

/// Streams are run one by one, in the order of their declaration.
pub fn streams_are_run_in_order()
    ensures none { (image : Image) → refusal_among image [] ≡ None }
    ensures next { (image : Image) (streams more : List BenchStream) (s : BenchStream)
        → refusal_among image streams ≡ None
        → refusal_among image (streams ++ s ∷ more) ≡ first_of (stream_refusal image s) (refusal_among image more) }
    ensures first { (image : Image) (line : ℕ) (why : BenchWhy) (streams more : List BenchStream)
        → refusal_among image streams ≡ Some (line, why) → refusal_among image (streams ++ more) ≡ Some (line, why) }
{}
