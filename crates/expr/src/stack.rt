// The stack on which code is worked out where nothing faults.
ghost use Rattle.std.specs.Prelude.{◌≡◌, ◌≤◌, length};

pub mod fill;

/// Numbers not yet used, at most 200: a line has no more code than bytes. A layer makes one stack and lends it to each expression,
/// which leaves it empty.
// The latest number stands by itself, so that a sign reads one place. The others stand in `below`, from 1 on.
#[derive(Clone, Copy)]
pub struct Stack {
    pub(crate) last: i32,
    pub(crate) below: [i32; 200],
    pub(crate) len: usize,
    ghost wide: { length below ≡ 200 },
    ghost short: { len ≤ 200 },
}
