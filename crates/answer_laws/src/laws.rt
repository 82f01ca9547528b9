//! What the definitions of answers are as a whole.
ghost use Rattle.program_image.specs.declared.image.Image.{Image};
ghost use Rattle.run_file.specs.Parts.{BenchParts, IsBench};
ghost use Rattle.trace_cmd.specs.Answers.{Answers, Call};
ghost use Rattle.answer_laws.specs.Complete.{FaultsAreDecided, NumbersAreDone, PacketsAreDone, PathsAreDone, RunFilesAreDone};
ghost use Rattle.traced_runs.specs.Traced.{AreAccepted};
ghost use Rattle.answer_laws.specs.TracedCalls.{IsCountOfTrace, IsPathOfTrace, PrintsCounts, PrintsTraces};
ghost use Rattle.answer_lines.specs.declared.status.Status.{Status};
ghost use Rattle.trace_io.specs.State.{IoState};

/// Whatever `path` answers for the frames that `trace` writes of an accepted run file, or for these with synchronisation packets among
/// them, over the same image, where its words give each stream of the run file its sizes: it finds no fault, and where it comes to their
/// end it prints the retired paths and nothing else.
pub fn path_prints_what_was_traced()
    ensures { (c : Call) (old new : IoState) (status : Status) (image : Image) (b : BenchParts) → IsBench b → AreAccepted image b
        → IsPathOfTrace c image b → Answers c old new status → PrintsTraces image b old new status }
{}

/// Whatever `path --count` answers for such frames: where it comes to their end it prints the counts of the retired paths, and the
/// end of each stream.
pub fn counts_are_those_of_what_was_traced()
    ensures { (c : Call) (old new : IoState) (status : Status) (image : Image) (b : BenchParts) → IsBench b → AreAccepted image b
        → IsCountOfTrace c image b → Answers c old new status → PrintsCounts image b old new status }
{}

/// Where image and input are good and no call failed, the answer is the text that was asked for, or want of memory; words, image
/// and input alone decide whether a trace has a fault.
pub fn good_input_is_answered()
    ensures run_files { RunFilesAreDone }
    ensures numbers { NumbersAreDone }
    ensures paths { PathsAreDone }
    ensures packets { PacketsAreDone }
    ensures decided { FaultsAreDecided }
{}
