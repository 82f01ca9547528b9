//! What the definitions mean, as contracts of functions that do nothing.
ghost use Rattle.std.specs.Prelude.{◌≡◌, ℕ, ◌<◌, List, All, Contains, Ok, Err, Some};
ghost use Rattle.elf_image.specs.ElfText.{elf_text};
ghost use Rattle.elf_image.specs.FirstRefusal.{IsFirstRefusal, NotRefused};
ghost use Rattle.elf_image.specs.Fields.{program_headers};
ghost use Rattle.elf_image.specs.Segments.{chosen};
ghost use Rattle.elf_image.specs.Words.{IsTextOf, word_in_file, word_put};
ghost use Rattle.elf_image.specs.declared.fault.ElfWhy.{ElfWhy};
ghost use Rattle.elf_image.specs.declared.header.ProgramHeader.{ProgramHeader};

/// The text that a file spells has no fault, and its image has at each address the word of the file that a chosen segment puts there, lowest
/// byte first, and none elsewhere. Each chosen segment has its words in it.
pub fn the_text_is_an_image()
    ensures image { (file text : List ℕ) → All (λ byte. byte < 256) file → elf_text file ≡ Ok text → IsTextOf file text }
    ensures each { (file text : List ℕ) (h : ProgramHeader) (addr word : ℕ) → All (λ byte. byte < 256) file → elf_text file ≡ Ok text
        → Contains (chosen (program_headers file)) h → word_put file h addr ≡ Some word → word_in_file file addr ≡ Some word }
{}

/// Nothing that is tested before a refusal refuses the file, and nothing at all refuses one that spells a text.
pub fn a_refusal_is_the_first()
    ensures refused { (file : List ℕ) (why : ElfWhy) → elf_text file ≡ Err why → IsFirstRefusal file why }
    ensures good { (file text : List ℕ) → elf_text file ≡ Ok text → NotRefused file }
{}
