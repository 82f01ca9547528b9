//! The promise of the whole program.
ghost use Rattle.answer_laws.specs.ReadBack.{PathReadsBack};

/// Let `trace`, asked for all frames, answer `Done` over a program's file and a run file, and let `path` then be asked for the paths in
/// the bytes that it appended, over the same file, by words that give each stream the sizes that it has in the run file, with `--elf`
/// where `trace` had it, and with `--sync` where `trace` wrote synchronisation packets; let these be at most 2^30 bytes, which `path` may
/// be given in any pieces, and let no call fail. Then `path` answers `Done` or `NoMemory`. With `Done` it appended each stream's retired
/// path and the line of its end, and nothing else.
pub fn what_was_traced_is_read_back()
    ensures { PathReadsBack }
{}
