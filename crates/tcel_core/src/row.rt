ghost use Rattle.std.specs.Prelude.{◌≡◌, ◌↔◌, ℕ, true, false, ◌||◌, ◌&&◌, ◌==◌, not, ◌<◌};
ghost use Rattle.std.specs.Int.{bit_at};
ghost use Rattle.tcel_core.specs.Rows.{bit_in, stands_in};

/// A set of variables by their numbers, 0 to 255: variable v stands in it where bit `v mod 64` of word `v div 64` is set.
#[derive(Clone, Copy, Debug)]
pub struct Row {
    pub bits: [u64; 4],
}

impl Row {
    /// The set of no variables.
    pub fn empty() -> Row
        ensures { (v : ℕ) → stands_in result v ≡ false }
    {
        Row { bits: [0; 4] }
    }

    /// Whether the variable stands in it; false past 255.
    pub fn has(&self, var: u32) -> bool
        ensures { result ≡ stands_in self.now var }
    {
        let word = (var / 64) as usize;
        word < 4 && (self.bits[word] >> (var % 64)) & 1 == 1
    }

    /// Adds a variable; one past 255 is passed over.
    pub fn insert(&mut self, var: u32)
        ensures { (v : ℕ) → v < 256 → stands_in self.new v ≡ (stands_in self.old v || (var == v)) }
    {
        self.add(&single(var));
    }

    /// Adds the variables of another set.
    pub fn add(&mut self, other: &Row)
        ensures { (v : ℕ) → v < 256 → stands_in self.new v ≡ (stands_in self.old v || stands_in other.now v) }
    {
        self.bits = [
            self.bits[0] | other.bits[0],
            self.bits[1] | other.bits[1],
            self.bits[2] | other.bits[2],
            self.bits[3] | other.bits[3],
        ];
    }

    /// Takes the variables of another set away.
    pub fn remove(&mut self, other: &Row)
        ensures { (v : ℕ) → v < 256 → stands_in self.new v ≡ (stands_in self.old v && not (stands_in other.now v)) }
    {
        self.bits = [
            self.bits[0] ^ (self.bits[0] & other.bits[0]),
            self.bits[1] ^ (self.bits[1] & other.bits[1]),
            self.bits[2] ^ (self.bits[2] & other.bits[2]),
            self.bits[3] ^ (self.bits[3] & other.bits[3]),
        ];
    }

    /// Whether both sets have some variable.
    pub fn meets(&self, other: &Row) -> bool
        ensures { result ≡ true ↔ ((v : ℕ) × (v < 256) × (stands_in self.now v ≡ true) × (stands_in other.now v ≡ true)) }
    {
        let low = share(self.bits[0], other.bits[0]) | share(self.bits[1], other.bits[1]);
        let high = share(self.bits[2], other.bits[2]) | share(self.bits[3], other.bits[3]);
        low | high
    }
}

/// Whether both words have some bit.
fn share(a: u64, b: u64) -> bool
    ensures { result ≡ true ↔ ((k : ℕ) × (k < 64) × (bit_at a k ≡ 1) × (bit_at b k ≡ 1)) }
{
    a & b != 0
}

/// The set of one variable below 256, else of none.
fn single(var: u32) -> Row
    ensures { (v : ℕ) → v < 256 → stands_in result v ≡ (var == v) }
{
    Row {
        bits: [mask(var, 0), mask(var, 1), mask(var, 2), mask(var, 3)],
    }
}

/// The bit of a variable in one of the words.
fn mask(var: u32, word: u32) -> u64
    ensures { result ≡ bit_in var word }
{
    if var / 64 == word { 1 << (var % 64) } else { 0 }
}
