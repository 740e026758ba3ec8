// Row by row, on the prefix side.
use crate::Piece;

impl<'a> Piece<'a> {
    ghost use Rattle.std.specs.Prelude.{◌-◌};
    ghost use Rattle.multilinear.specs.declared.Side.TheVariants.{Prefix};
    ghost use Rattle.table.specs.Gained.{Gained};
    ghost use Rattle.moved.specs.Moved.{Adds, moved_by};

    // The rows from `skip` on, each by the weight of the row `skip` before.
    pub(crate) fn by_rows(&self, out: &mut [u32])
        requires { Adds self.now out.old }
        ensures { Gained 0 self.now.inner (moved_by Prefix self.now) out.old out.new }
    {
        let first = crate::skip_of(self.weight) * self.inner;
        let early = self.before(first);
        let from = self.taken.saturating_sub(first);
        short_rows::scatter(&self.words[early..], from, self.point, self.scale, out);
    }
}
