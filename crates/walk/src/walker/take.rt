ghost use Rattle.std.specs.Prelude.{◌≡◌};
ghost use Rattle.word.specs.Records.{symbol_of};
ghost use Rattle.walk.specs.Walks.{started};
ghost use Rattle.turtle.specs.Poses.{stance};
ghost use Rattle.turtle.specs.Deeds.{done};
ghost use Rattle.turtle.specs.Stances.{stance_of, stroke_of};
ghost use Rattle.turtle.specs.declared.command.Command.TheVariants.{Draw, Move};
ghost use Rattle.sheet.specs.Sheets.{Content};
ghost use Rattle.report.specs.Report.{report_text};
ghost use Rattle.walk.specs.Walkers.{walker, walk_report, drew, branched, Takes, TakesBy};

use super::super::bounds::around;
use super::super::refusal::Refusal;
use super::Walker;
use report::bounds::Bounds;
use report::ending::Ending;
use report::figures::Figures;
use rows::row::Row;
use sheet::sheet::{MOST, Sheet};
use turtle::act::Act;
use turtle::command::Command;
use turtle::pose::Pose;
use turtle::pose::act::asked;
use turtle::segment::Segment;
use word::depth::Depth;
use word::module::Module;

impl Walker {
    /// At home, with one home pose stored for each open bracket.
    pub fn new(depth: Depth) -> Walker
        ensures { walker result ≡ started depth.brackets }
    {
        let home = Pose::home();
        let mut stored = Row::new(home);
        for _ in 0..depth.brackets {
            stored.push(home);
        }
        Walker {
            pose: home,
            stored,
            segments: 0,
            distance: 0,
            bounds: None,
            deepest: depth.brackets,
        }
    }

    /// Takes the next module, and puts what it draws on a sheet; or does nothing, where the turtle cannot go so far, or else the
    /// sheet has no space.
    #[inline(always)]
    pub fn take<K: Sheet>(&mut self, next: Module, sheet: &mut K) -> Result<(), Refusal>
        ensures { Takes (walker self.old) (K.Sheet.means sheet.old) (symbol_of next) result (walker self.new) (K.Sheet.means sheet.new) }
    {
        match Command::from(char::from(next.letter)) {
            Command::Draw => self.draw(asked(next), sheet),
            Command::Move => self.go(asked(next)),
            Command::Turn(turn) => {
                self.pose.turn(turn);
                Ok(())
            }
            Command::Nothing => {
                self.branch(next.letter);
                Ok(())
            }
        }
    }

    // Goes ahead, and puts the segment on a sheet, if there is one.
    #[inline(always)]
    fn draw<K: Sheet>(&mut self, length: i32, sheet: &mut K) -> Result<(), Refusal>
        ensures { TakesBy (walker self.old) (K.Sheet.means sheet.old) (done Draw length (stance_of self.old.pose)) result (walker self.new) (K.Sheet.means sheet.new) }
    {
        match self.pose.drawn(length)? {
            Act::Goes(pose) => self.pose = pose,
            Act::Draws(segment, pose) => {
                if sheet.put(segment).is_err() {
                    return Err(Refusal::NoSpace);
                }
                self.count(segment, pose);
                self.pose = pose;
            }
        }
        Ok(())
    }

    // Goes ahead.
    #[inline(always)]
    fn go(&mut self, length: i32) -> Result<(), Refusal>
        ensures { (c : Content) → TakesBy (walker self.old) c (done Move length (stance_of self.old.pose)) result (walker self.new) c }
    {
        self.pose = self.pose.ahead(length)?;
        Ok(())
    }

    // Counts a segment that leads to a pose.
    #[inline(always)]
    fn count(&mut self, segment: Segment, pose: Pose)
        ensures { walker self.new ≡ drew (walker self.old) (stroke_of segment) (stance_of pose) }
    {
        if self.segments < MOST {
            self.segments += 1;
            self.distance += u64::from(segment.length);
        }
        let bounds = around(self.bounds, segment.start);
        self.bounds = Some(around(Some(bounds), pose.place()));
    }

    // `[` stores the pose, and `]` takes back the latest.
    #[inline(always)]
    fn branch(&mut self, letter: u8)
        ensures { walker self.new ≡ branched (walker self.old) (stance_of self.old.pose) letter }
    {
        match letter {
            b'[' => {
                let pose = self.pose.copied();
                self.stored.push(pose);
                // at most 32, so it fits
                self.deepest = self.deepest.max(self.stored.len() as u8);
            }
            b']' => {
                if let Some(pose) = self.stored.pop() {
                    self.pose = pose;
                }
            }
            _ => {}
        }
    }

    /// The position and the number of the orientation.
    pub fn whereabouts(&self) -> ((i32, i32, i32), u8)
        ensures { stance result.0.0 result.0.1 result.0.2 result.1 ≡ (walker self.now).turtle.stance }
    {
        self.pose.whereabouts()
    }

    /// The figures of the walk, of so many modules and with this ending.
    pub fn figures(&self, modules: u32, ending: Ending) -> Figures
        ensures { report_text result ≡ walk_report modules (walker self.now) ending }
    {
        Figures {
            modules,
            segments: self.segments,
            length: self.distance,
            bounds: self.bounds,
            deepest: self.deepest,
            ending,
        }
    }
}
