//! What the table of the atom packets is as a whole.
ghost use Rattle.atom_formats.specs.Laws.{EachByteTells, NoOtherTells, OneByteARun, OneRunAByte, RunsAreShort, RunsDiffer};

/// The 64 bytes from 0xc0 on have 64 different runs of 1 to 24 atoms, and no other byte has one.
pub fn each_byte_has_its_run()
    ensures told { EachByteTells }
    ensures no_other { NoOtherTells }
    ensures one_run { OneRunAByte }
    ensures one_byte { OneByteARun }
    ensures short { RunsAreShort }
{}

/// Two runs that are not the same have other atoms. So a byte has one run alone.
pub fn runs_differ_in_their_atoms()
    ensures { RunsDiffer }
{}
