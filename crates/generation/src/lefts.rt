// Left neighbours.
ghost use Rattle.std.specs.Prelude.{◌≡◌, length};

use word::module::Module;

pub mod note;

/// One left neighbour for each depth from 0 to 32.
#[derive(Clone, Copy)]
pub struct Lefts {
    row: [Option<Module>; 33],
    ghost wide: { length row ≡ 33 },
}
