//! What the definitions mean, as contracts of functions that do nothing.
ghost use Rattle.std.specs.Prelude.{◌≡◌, ◌↔◌, ℕ, ◌+◌, ◌%◌, ◌^◌, ◌<◌, ◌≤◌, ◌⊎◌, List, length, Contains, slice_get, IsSome, Ok, Err, None, Some};
ghost use Rattle.program_image.specs.Part.{IsImage, Part, word_in, word_of};
ghost use Rattle.program_image.specs.ImageText.{image_of, most_text};
ghost use Rattle.program_image.specs.FirstFault.{IsFirstFault};
ghost use Rattle.program_image.specs.Places.{word_addresses, word_count, words_below};
ghost use Rattle.program_image.specs.Spelling.{text_of};
ghost use Rattle.program_image.specs.declared.fault.ImageWhy.{ImageWhy};
ghost use Rattle.program_image.specs.declared.fault.ImageWhy.TheVariants.{TooLong};

/// What a text spells is the parts of an image, and each image is read from the text that spells it.
pub fn reads_what_is_spelled()
    ensures image { (text : List ℕ) (image : List Part) → image_of text ≡ Ok image → IsImage image }
    ensures spelled { (image : List Part) → IsImage image → image_of (text_of image) ≡ Ok image }
{}

/// A text that spells no image is too long, or has the fault of its first line that has one.
pub fn a_fault_is_that_of_the_first_line()
    ensures { (text : List ℕ) (line : ℕ) (why : ImageWhy) → image_of text ≡ Err (line, why)
        → ((most_text < length text) × (line ≡ 0) × (why ≡ TooLong)) ⊎ IsFirstFault text line why }
{}

/// The word at an address is that of the one part that has it, and is a word of 32 bits at a
/// multiple of 4, within the addresses of 64 bits.
pub fn words_are_of_their_parts()
    ensures part { (image : List Part) (addr word : ℕ) → IsImage image
        → (word_of image addr ≡ Some word) ↔ ((part : Part) × Contains image part × (word_in part addr ≡ Some word)) }
    ensures fits { (image : List Part) (addr word : ℕ) → IsImage image → word_of image addr ≡ Some word
        → (word < 2 ^ 32) × (addr % 4 ≡ 0) × (addr + 4 ≤ 2 ^ 64) }
{}

/// No image has a word at every multiple of 4, so that words which follow one another come to an end.
pub fn each_image_has_a_gap()
    ensures { (image : List Part) → IsImage image
        → (addr : ℕ) × (addr < 2 ^ 64) × (addr % 4 ≡ 0) × (word_of image addr ≡ None) }
{}

/// The words of an image stand in the order of their addresses: as many as there are, each at its address once, and at the
/// place that is the number of words below it.
pub fn words_have_places()
    ensures count { (image : List Part) → IsImage image → length (word_addresses image) ≡ word_count image }
    ensures each { (image : List Part) (place addr : ℕ) → IsImage image
        → (slice_get (word_addresses image) place ≡ Some addr) ↔ (IsSome (word_of image addr) × (place ≡ words_below image addr)) }
    ensures ascend { (image : List Part) (addr next : ℕ) → IsImage image → addr < next → IsSome (word_of image addr)
        → IsSome (word_of image next) → words_below image addr < words_below image next }
{}
