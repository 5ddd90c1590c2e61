ghost use Rattle.std.specs.Prelude.{◌≡◌, ℕ, ◌&&◌, pos, if◌then◌else◌, ◌==◌};
ghost use Rattle.expr.specs.Records.{env_of, is_name};

use super::Names;

impl Names {
    /// Every name stands for 0.
    pub fn new() -> Names
        ensures { (x : ℕ) → env_of result x ≡ pos 0 }
    {
        Names { values: [0; 26] }
    }

    /// A name stands for a value from now on. What is no name, a–z, changes nothing.
    #[inline(always)]
    pub fn bind(&mut self, name: u8, value: i32)
        ensures { (x : ℕ) → env_of self.new x ≡ (if is_name name && x == name then value else env_of self.old x) }
    {
        if name.is_ascii_lowercase() {
            self.values[usize::from(name - b'a')] = value;
        }
    }

    /// What a name stands for.
    #[inline(always)]
    pub fn value(&self, name: u8) -> i32
        ensures { result ≡ env_of self.now name }
    {
        if name.is_ascii_lowercase() {
            self.values[usize::from(name - b'a')]
        } else {
            0
        }
    }
}
