// Walking a set: what refuses a walk, and the members, rising or falling, to a lent list.
ghost use Rattle.std.specs.Prelude.{◌≡◌, cond, ◌≤◌, length};
ghost use Rattle.outcome.specs.Outcome.{refused, done};
ghost use Rattle.outcome.specs.Row.{verdict};
ghost use Rattle.outcome.specs.Refusal.{said};
ghost use Rattle.bitmap.specs.Bitmap.{positions, any_past};
ghost use Rattle.number_set.specs.NumberSet.{members};
ghost use Rattle.number_set.specs.Walk.{walk_set, Walks};

use crate::set::NumberSet;
use bitmap::has;
use outcome::Refusal;
use sequence_number::kind::Number;
use set_walk::fall::fall;
use set_walk::rise::rise;

impl<N: Number> NumberSet<N> {
    // How many members there are, or 4 where one is past its type.
    fn survey(self) -> Result<usize, Refusal>
        requires { self.count ≤ 256 }
        ensures { said result ≡ cond (any_past (N.kind.fits self.base) (positions self.words self.count)) (refused 4) (done (length (members N.kind self))) }
    {
        let fit = self.base.fit();
        let mut many: usize = 0;
        for i in 0..self.count {
            if has(self.words, i) {
                if fit <= i {
                    return Err(Refusal::NoNumber);
                }
                many += 1;
            }
        }
        Ok(many)
    }

    // What refuses a walk to so many entries, in this order: 2, 4, 3.
    fn check(self, room: usize) -> Result<(), Refusal>
        ensures { said result ≡ verdict (walk_set N.kind self room) }
    {
        if 256 < self.count {
            return Err(Refusal::TooManyBits);
        }
        // No position is past its type, and there are no more members than positions.
        if self.count <= self.base.fit() && self.count as usize <= room {
            return Ok(());
        }
        if room < self.survey()? {
            return Err(Refusal::ShortOutput);
        }
        Ok(())
    }

    // The members to the lent list, rising where up holds, else falling; 2, 4, 3. The way is a bool, as C passes it: a closure would only hide the two walks.
    pub fn iter(self, up: bool, out: &mut [N]) -> Result<usize, Refusal>
        ensures { Walks N.kind self up out.old result out.new }
    {
        self.check(out.len())?;
        if up {
            return Ok(rise(self.base, self.words, self.count, out));
        }
        Ok(fall(self.base, self.words, self.count, out))
    }
}
