// A choice of an alphabet and options: whether it is allowed, and what its options do to a byte.
ghost use Rattle.std.specs.Prelude.{◌≡◌};
ghost use Rattle.reading.specs.Options as spec;
ghost use Rattle.reading.specs.Cleaning as Cleaning;

// The weight of LINES in the sum of options: it drops 13 and 10.
pub const LINES: usize = 1;

// BLANK drops 32 and 9.
pub const BLANK: usize = 2;

// NOPAD takes padding that is wholly absent.
pub const NOPAD: usize = 4;

// SPARE takes spare bits other than zero.
pub const SPARE: usize = 8;

// CASE takes letters of the other case as the alphabet's own.
pub const CASE: usize = 16;

// An alphabet, and the sum of its options: any two numbers. No enum of six alphabets, since 01 answers every number and a state may hold any.
#[derive(Clone, Copy, PartialEq, Eq)]
pub struct Choice {
    pub alphabet: usize,
    pub options: usize,
}

impl Choice {
    // The one test of a choice: an alphabet above 5, options above 31, or CASE with alphabet 0 or 1 is answered 1.
    #[tactic(auto, unfolding(reading::specs::Options::allowed, reading::specs::Options::chosen))]
    pub fn allowed(self) -> bool
        ensures { result ≡ spec.allowed self.alphabet self.options }
    {
        match self.alphabet {
            0 | 1 => self.options < CASE,
            2..=5 => self.options < 32,
            _ => false,
        }
    }

    // Whether the option of a weight is set in the sum.
    #[tactic(auto, unfolding(reading::specs::Options::chosen))]
    pub fn chosen(self, weight: usize) -> bool
        ensures { result ≡ spec.chosen weight self.options }
    {
        weight != 0 && self.options / weight % 2 == 1
    }

    // Whether LINES or BLANK drops the byte.
    #[tactic(auto, unfolding(reading::specs::Cleaning::dropped))]
    pub fn dropped(self, byte: u8) -> bool
        ensures { result ≡ Cleaning.dropped self.options byte }
    {
        match byte {
            b'\r' | b'\n' => self.chosen(LINES),
            b' ' | b'\t' => self.chosen(BLANK),
            _ => false,
        }
    }

    // The byte in the alphabet's own case, where CASE is set.
    #[tactic(auto, unfolding(reading::specs::Cleaning::turned, reading::specs::Cleaning::lower, reading::specs::Cleaning::upper))]
    pub fn turned(self, byte: u8) -> u8
        ensures { result ≡ Cleaning.turned self.alphabet self.options byte }
    {
        if !self.chosen(CASE) {
            byte
        } else if self.alphabet == 5 {
            byte.to_ascii_lowercase()
        } else {
            byte.to_ascii_uppercase()
        }
    }
}
