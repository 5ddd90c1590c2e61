// What a letter asks of the turtle.
ghost use Rattle.std.specs.Prelude.{◌≡◌};
ghost use Rattle.turtle.specs.Commands.{tilt_of, command_of};

use super::turn::Turn;

/// To go ahead, drawing or not, to turn, or to stay as it is.
#[derive(Clone, Copy, PartialEq, Eq, Debug)]
pub enum Command {
    Draw,
    Move,
    Turn(Turn),
    Nothing,
}

// The turn out of its plane that a letter asks for, if it asks for one. It is not inlined: together with the letters below it would be a
// jump by a table, and that takes longer than a call wherever the processor does not foresee where such a jump leads.
#[inline(never)]
fn tilt_of(letter: char) -> Option<Turn>
    ensures { result ≡ tilt_of letter }
{
    match letter {
        '&' => Some(Turn::Down),
        '^' => Some(Turn::Up),
        '\\' => Some(Turn::RollLeft),
        '/' => Some(Turn::RollRight),
        _ => None,
    }
}

// What a letter asks.
impl From<char> for Command {
    ghost from_gives = { λ letter command. command ≡ command_of letter };

    #[inline(always)]
    fn from(letter: char) -> Command {
        match letter {
            'F' => Command::Draw,
            '+' => Command::Turn(Turn::Left),
            '-' => Command::Turn(Turn::Right),
            '|' => Command::Turn(Turn::About),
            // brackets are of the branches, and no letters of the turtle
            '[' | ']' => Command::Nothing,
            letter => match tilt_of(letter) {
                Some(turn) => Command::Turn(turn),
                None if letter == 'f' => Command::Move,
                None => Command::Nothing,
            },
        }
    }
}
