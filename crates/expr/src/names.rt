// What names stand for.
ghost use Rattle.std.specs.Prelude.{◌≡◌, length};

pub mod quick;
pub mod slow;
pub mod table;
pub mod work;

/// The value of each name, a–z; 0 where none is given.
#[derive(Clone, Copy)]
pub struct Names {
    values: [i32; 26],
    ghost wide: { length values ≡ 26 },
}
