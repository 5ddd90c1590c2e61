ghost use Rattle.std.specs.Prelude.{◌≡◌, ◌/◌, true, pos, ◌≢◌, OnOk};
ghost use Rattle.word.specs.Records.{symbol_of};
ghost use Rattle.turtle.specs.Stances.{number_of, stance_of, stroke_of};
ghost use Rattle.turtle.specs.Deeds.{is_length, stride, line, done, deed};
ghost use Rattle.turtle.specs.Acts.{step_of, deed_of};
ghost use Rattle.turtle.specs.declared.command.Command.TheVariants.{Draw, Move};

use super::super::act::{Act, Limit};
use super::super::command::Command;
use super::super::direction::Direction;
use super::super::place::Place;
use super::super::segment::Segment;
use super::Pose;
use word::module::Module;

// How far the turtle goes at once, at most.
const LONGEST: i32 = 4095;

/// How far a module asks the turtle to go: by its first parameter, or else by 1.
#[inline(always)]
pub fn asked(next: Module) -> i32
    ensures { result ≡ stride (symbol_of next).params }
{
    if next.count == 0 { 1 } else { next.a }
}

// A function of its own: with the range in `ahead` the proof of that did not close.
#[inline(always)]
fn is_length(number: i32) -> bool
    ensures { result ≡ is_length number }
{
    (0..=LONGEST).contains(&number)
}

impl Pose {
    // The way ahead.
    #[inline(always)]
    fn heading(self) -> Direction
        ensures { number_of result ≡ self.orientation / 4 }
    {
        match self.orientation / 4 {
            0 => Direction::PlusX,
            1 => Direction::MinusX,
            2 => Direction::PlusY,
            3 => Direction::MinusY,
            4 => Direction::PlusZ,
            _ => Direction::MinusZ,
        }
    }

    /// The pose at this length ahead, if the turtle may go there.
    #[inline(always)]
    pub fn ahead(self, length: i32) -> Result<Pose, Limit>
        ensures step { step_of result ≡ done Move length (stance_of self) }
        ensures short { OnOk result (is_length length ≡ true) }
    {
        if !is_length(length) {
            return Err(Limit::TooLong);
        }
        if length == 0 {
            return Ok(self);
        }
        let (x, y, z) = self.place.ahead(self.orientation / 4, length);
        // no `ok_or` with `?`: with it the proof of the refusal did not close
        let Some(place) = Place::new(x, y, z) else {
            return Err(Limit::OutOfBounds);
        };
        Ok(Pose {
            place,
            orientation: self.orientation,
        })
    }

    // Goes ahead.
    #[inline(always)]
    fn moved(self, length: i32) -> Result<Act, Limit>
        ensures { deed_of result ≡ done Move length (stance_of self) }
    {
        Ok(Act::Goes(self.ahead(length)?))
    }

    // The segment of this length ahead.
    #[inline(always)]
    fn line(self, length: i32) -> Segment
        requires short { is_length length ≡ true }
        requires long { length ≢ pos 0 }
        ensures { stroke_of result ≡ line length (stance_of self) }
    {
        Segment {
            start: self.place,
            heading: self.heading(),
            // 1 to 4,095, so it fits; no `From` narrows
            length: length as u16,
        }
    }

    /// Goes ahead, and draws, where the length is not 0.
    #[inline(always)]
    #[tactic(auto, using(crate::proofs::Steps::drawing))]
    pub fn drawn(self, length: i32) -> Result<Act, Limit>
        ensures { deed_of result ≡ done Draw length (stance_of self) }
    {
        let pose = self.ahead(length)?;
        if length == 0 {
            return Ok(Act::Goes(pose));
        }
        Ok(Act::Draws(self.line(length), pose))
    }

    /// What a module has the turtle do: `F` draws and `f` moves ahead, by the first parameter or else by 1, the letters of
    /// the turns turn it, and it stays as it is at every other. A step is refused that is too long, or else ends too far out.
    pub fn act(self, next: Module) -> Result<Act, Limit>
        ensures { deed_of result ≡ deed (symbol_of next) (stance_of self) }
    {
        match Command::from(char::from(next.letter)) {
            Command::Draw => self.drawn(asked(next)),
            Command::Move => self.moved(asked(next)),
            Command::Turn(turn) => Ok(Act::Goes(self.turned(turn))),
            Command::Nothing => Ok(Act::Goes(self)),
        }
    }
}
